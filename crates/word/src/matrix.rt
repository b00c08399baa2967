// The product of a generator matrix with the bits of an index.
ghost use Rattle.std.specs.Prelude.{◌≡◌};
ghost use Rattle.net.specs.Generators.{product};

use crate::{COLUMNS, Columns, Index};

// The exclusive or of the columns whose index bit is set. Each column is multiplied by its bit, so that no branch depends on the index.
pub fn product(columns: Columns, index: Index) -> u32
    ensures { result ≡ product 2 columns index }
{
    let mut sum = 0u32;
    let mut rest = index;
    for c in 0..COLUMNS {
        sum ^= columns[c] * (rest % 2);
        rest /= 2;
    }
    sum
}
