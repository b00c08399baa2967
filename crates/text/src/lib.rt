// Text in a lent buffer: numbers in decimal, also right-aligned in columns, and bytes as they are. A writer begins at byte `at` and hands back
// where its text ends. Where fewer bytes are left than its longest text has, it writes nothing and hands `at` back.
#![tactic(auto)]

mod columns;
mod fields;
mod groups;
mod numerals;
mod pieces;

pub use columns::right_number;
pub use fields::{bytes, has_room, number};
pub use numerals::{LONGEST_NUMBER, LONGEST_SIGNED};
pub use pieces::Pieces;
