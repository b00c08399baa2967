// Calls with a pair given as 64 words, as C has it. The crate vektrid stores what they give.
#![tactic(auto)]

mod calls;
mod pairs;

pub use calls::{fill, overview, point, point_singles, query, step, step_singles};
pub use pairs::write_standard;
