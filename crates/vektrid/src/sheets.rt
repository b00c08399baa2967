// Sheets in pieces, from a cursor of words that the caller keeps.
ghost use Rattle.std.specs.Prelude.{◌≡◌, length, take, drop};
ghost use Rattle.text.specs.Pieces.{Counts};
ghost use Rattle.sheet.specs.Sheet.{sheet};
ghost use Rattle.sheet.specs.Cursor.{sheet_to_come, SheetPiece};
ghost use Rattle.cursor_words.specs.SheetCursors.{sheet_cursor_of};

use cursor_words::{SheetCursorWords, sheet_cursor_of, words_of_sheet_cursor};
use sheet::Cursor;
use text::Pieces;

// The start of a file's sheet.
#[unsafe(no_mangle)]
pub extern "C" fn vektrid_sheet_open(file: &[u8], cursor: &mut SheetCursorWords)
    ensures { sheet_to_come file.now (sheet_cursor_of cursor.new) ≡ sheet file.now }
{
    *cursor = words_of_sheet_cursor(Cursor::open(file));
}

// The next piece, and the cursor past it.
#[unsafe(no_mangle)]
pub extern "C" fn vektrid_sheet_piece(
    file: &[u8],
    cursor: &mut SheetCursorWords,
    out: &mut [u8],
) -> usize
    ensures counts { Counts result out.new }
    ensures piece { SheetPiece file.now (sheet_cursor_of cursor.old) (sheet_cursor_of cursor.new)
        (take result out.new) (length out.new) }
    ensures rest { drop result out.new ≡ drop result out.old }
{
    let mut own = sheet_cursor_of(*cursor);
    let len = own.piece(file, out);
    *cursor = words_of_sheet_cursor(own);
    len
}
