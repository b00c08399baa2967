// The plan: two generator matrices by value (01: the pair), what follows their products, flips and a digital shift (01: scramble), and what
// they give: points, fills of two lent buffers, and walks. Every public function is total: no `requires`, no trap, each answer and each lent
// buffer promised on all inputs.
#![tactic(auto)]

mod calls;
mod fills;
mod pair;
mod points;
mod walks;

pub use fills::fill;
pub use pair::{PAIR_WORDS, Plan};
pub use points::{LentScramble, Point, Scramble, Shift};
pub use walks::{Visit, Walk};
