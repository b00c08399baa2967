// Cursors in listings and in sheets as words that a caller keeps, and back. All words stand for a cursor, so nothing that a caller writes there is
// wrong.
#![tactic(auto)]

mod cursors;
mod sheet_cursors;

pub use cursors::{CURSOR_WORDS, CursorWords, cursor_of, words_of_cursor};
pub use sheet_cursors::{
    SHEET_CURSOR_WORDS, SheetCursorWords, sheet_cursor_of, words_of_sheet_cursor,
};
