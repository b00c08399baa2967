// The products of a generator matrix with consecutive indexes, written into a lent buffer, with a word added to each of them without
// carries: the same for all, or one that the leading bits of the product choose. A product costs one exclusive or: it changes from one
// index to the next by a running sum of the columns, and within a group of 64 indexes it is the product of the first of them, exclusive or
// the product of how far the index is from it.
#![tactic(auto)]

mod axis;
mod fills;
mod groups;
mod masking;
mod singly;
mod tables;

pub use fills::{LONG, Masks, fill, fill_by_tables, fill_masked};
