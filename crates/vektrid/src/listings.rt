// Listings in pieces, from a cursor of words that the caller keeps.
ghost use Rattle.std.specs.Prelude.{◌≡◌, length, take, drop};
ghost use Rattle.text.specs.Pieces.{Counts};
ghost use Rattle.listing.specs.Listing.{listing};
ghost use Rattle.listing.specs.Cursor.{to_come, ListingPiece};
ghost use Rattle.cursor_words.specs.Cursors.{cursor_of};

use cursor_words::{CursorWords, cursor_of, words_of_cursor};
use listing::Cursor;
use text::Pieces;

// The start of a file's listing.
#[unsafe(no_mangle)]
pub extern "C" fn vektrid_listing_open(file: &[u8], cursor: &mut CursorWords)
    ensures { to_come file.now (cursor_of cursor.new) ≡ listing file.now }
{
    *cursor = words_of_cursor(Cursor::open(file));
}

// The next piece, and the cursor past it.
#[unsafe(no_mangle)]
pub extern "C" fn vektrid_listing_piece(
    file: &[u8],
    cursor: &mut CursorWords,
    out: &mut [u8],
) -> usize
    ensures counts { Counts result out.new }
    ensures piece { ListingPiece file.now (cursor_of cursor.old) (cursor_of cursor.new)
        (take result out.new) (length out.new) }
    ensures rest { drop result out.new ≡ drop result out.old }
{
    let mut own = cursor_of(*cursor);
    let len = own.piece(file, out);
    *cursor = words_of_cursor(own);
    len
}
