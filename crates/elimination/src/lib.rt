// Elimination modulo 2 over the columns of a shape: whether they are independent, the index whose product is a given word, and the inverse.
// The check, the query and the overview stand on it. Every public function is proved for all inputs and none has a `requires`.
#![tactic(auto)]

mod clearing;
mod columns;
mod inverse;
mod kernel;
mod solving;

pub use columns::shape_columns;
pub use inverse::invert;
pub use kernel::Dependent;
pub use solving::eliminate;
