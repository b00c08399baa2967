// A cursor in a sheet as words, and back.
ghost use Rattle.std.specs.Prelude.{◌≡◌};
ghost use Rattle.cursor_words.specs.SheetCursors.{place_of, sheet_cursor_of};

use file_words::{FILE_WALK_WORDS, walk_of, words_of};
use sheet::{Cursor, Place};

// The words that come before those of a file walk: two for the place, and one for the page.
const WORDS_BEFORE_WALK: usize = 3;

// These, and the words of a file walk.
pub const SHEET_CURSOR_WORDS: usize = WORDS_BEFORE_WALK + FILE_WALK_WORDS;

// A cursor by these words, one after the other.
pub type SheetCursorWords = [u32; SHEET_CURSOR_WORDS];

// The place on a page, by its two words: which kind it is, a number since C keeps it, and the number of lines or of a refusal.
fn place_of(kind: u32, number: u32) -> Place
    ensures { result ≡ place_of kind number }
{
    match kind {
        0 => Place::End,
        1 => Place::Heading,
        2 => Place::Lines(number),
        _ => Place::Refusal(number),
    }
}

// Two words that stand for a place.
fn words_of_place(place: Place) -> (u32, u32)
    ensures { place_of result.0 result.1 ≡ place }
{
    match place {
        Place::End => (0, 0),
        Place::Heading => (1, 0),
        Place::Lines(number) => (2, number),
        Place::Refusal(number) => (3, number),
    }
}

// The cursor that some words stand for. All words stand for one.
pub fn sheet_cursor_of(words: SheetCursorWords) -> Cursor
    ensures { result ≡ sheet_cursor_of words }
{
    let mut walk = [0; FILE_WALK_WORDS];
    walk.copy_from_slice(&words[WORDS_BEFORE_WALK..]);
    Cursor {
        place: place_of(words[0], words[1]),
        page: words[2],
        walk: walk_of(walk),
    }
}

// Words that stand for a cursor.
pub fn words_of_sheet_cursor(cursor: Cursor) -> SheetCursorWords
    ensures { sheet_cursor_of result ≡ cursor }
{
    let (kind, number) = words_of_place(cursor.place);
    let mut words = [0; SHEET_CURSOR_WORDS];
    words[0] = kind;
    words[1] = number;
    words[2] = cursor.page;
    words[WORDS_BEFORE_WALK..].copy_from_slice(&words_of(cursor.walk));
    words
}
