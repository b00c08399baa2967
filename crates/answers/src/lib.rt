// What C is told of an outcome: the answer as a number, and what the lent words hold after the call (specs/Answers, and `part_left` of
// refusal). Every crate of calls stands on these definitions, so that an answer means the same in all of them.
#![tactic(auto)]

mod numbers;

pub use numbers::{least_left, number_of};
