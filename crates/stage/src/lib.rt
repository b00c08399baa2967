// The stage: regions with their limits, the reader's field in them, and the positions of visits, in µm.
#![tactic(auto)]

mod axis;
mod regions;

pub use regions::{Field, Position, Region};
