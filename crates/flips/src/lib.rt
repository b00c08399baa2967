// Nested flips (C-16): Owen's scrambling in base two, to depth 8. The flips of two axes by value, loaded from bytes, and what flips and a
// digital shift together make of a product: of one word, of a buffer of words, and back; also as masks, which are what they add to a word, by
// its top byte. Every public function is total: no `requires`, no trap.
#![tactic(auto)]

mod buffers;
mod sets;
mod words;

pub use buffers::scramble_all;
pub use sets::{AxisFlips, Flips};
pub use words::{masks, none_set, scramble, unscramble};
