// A fast scan that certifies shapes as nets. The shapes (m, a) of one a are the leading minors of one matrix, the first a rows of X above
// the rows of Y, so that each shape costs one row. It says from which shape on the slower check has to look.
#![tactic(auto)]

mod rows;
mod scan;

pub use scan::{Start, certified_from};
