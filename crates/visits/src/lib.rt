// The visits of a region file, one by one, in the order of its chain: a walk over the file that is stepped. And where any visit of any
// record lies.
#![tactic(auto)]

mod file_walks;
mod positions;
mod records;

pub use file_walks::{FileVisit, FileWalk};
pub use positions::visit_position;
