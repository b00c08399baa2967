// What columns are that leave a word to more than one index.
ghost use Rattle.std.specs.Prelude.{◌<◌};

use word::Index;

// Columns are dependent: kernel is the least index above 0 whose product with them is 0.
#[derive(Clone, Copy)]
pub struct Dependent {
    pub kernel: Index,
    pub ghost positive: { 0 < kernel },
}
