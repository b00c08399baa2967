// The check of generator matrices, the query of a cell and the overview of many, over one elimination. The public functions are total: no
// `requires`, no trap, and every answer promised, refused ones too.
#![tactic(auto)]

mod checks;
mod judging;
mod overviews;
mod queries;
mod shapes;
mod strips;

pub use checks::check;
pub use overviews::overview;
pub use queries::{Block, query};
