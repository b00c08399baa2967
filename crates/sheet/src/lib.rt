// The visit sheet of a region file as text, piece by piece: each call moves a cursor past its piece. Every call takes any bytes and any
// cursor.
#![tactic(auto)]

mod cursors;
mod page_lines;

pub use cursors::{Cursor, Place};
