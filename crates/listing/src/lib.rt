// The listing of a region file as text, piece by piece: each call moves a cursor past its piece. Every call takes any bytes and any
// cursor.
#![tactic(auto)]

mod cursors;
mod lines;
mod refusals;

pub use cursors::{Cursor, Lead};
pub use lines::LONGEST_LINE;
pub use refusals::refusal_line;
