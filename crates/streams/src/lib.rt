// What the programs share that read a region file from standard input and write a text to standard output: reading to the end, writing whole, and
// what is said on standard error.
#![tactic(auto)]

mod reading;
mod texts;
mod transfers;
mod words;
mod writing;

pub use reading::{FILE_ROOM, read_all};
pub use texts::write_text;
pub use words::say_ending;
pub use writing::{exit_code, write_piece};
