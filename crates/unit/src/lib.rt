// Unit numbers: a word divided by 2^32, as a double or as a single, and the points of visits as two singles, from an index and
// from a walk. Every public function is total. That the double is exact and the single the largest not above it: specs/Theorem.
#![tactic(auto)]

mod exponents;
mod numbers;
mod pairs;
mod steps;

pub use numbers::{Precision, Unit, coordinate, double, single};
pub use pairs::{Singles, singles_at};
pub use steps::step_singles;
