// A cursor in a listing as words, and back.
ghost use Rattle.std.specs.Prelude.{◌≡◌};
ghost use Rattle.cursor_words.specs.Cursors.{lead_of, cursor_of};

use file_words::{FILE_WALK_WORDS, walk_of, words_of};
use listing::{Cursor, Lead};

// The words that come before those of a file walk.
const WORDS_BEFORE_WALK: usize = 2;

// Two words for what stands before the lines, and those of a file walk.
pub const CURSOR_WORDS: usize = WORDS_BEFORE_WALK + FILE_WALK_WORDS;

// A cursor by these words, one after the other.
pub type CursorWords = [u32; CURSOR_WORDS];

// What stands before the lines, by its two words: which kind it is, a number since C keeps it, and the number of a refusal.
fn lead_of(kind: u32, number: u32) -> Lead
    ensures { result ≡ lead_of kind number }
{
    match kind {
        0 => Lead::Nothing,
        1 => Lead::Header,
        _ => Lead::Refused(number),
    }
}

// Two words that stand for what comes before the lines.
fn words_of_lead(lead: Lead) -> (u32, u32)
    ensures { lead_of result.0 result.1 ≡ lead }
{
    match lead {
        Lead::Nothing => (0, 0),
        Lead::Header => (1, 0),
        Lead::Refused(number) => (2, number),
    }
}

// The cursor that some words stand for. All words stand for one.
pub fn cursor_of(words: CursorWords) -> Cursor
    ensures { result ≡ cursor_of words }
{
    let mut walk = [0; FILE_WALK_WORDS];
    walk.copy_from_slice(&words[WORDS_BEFORE_WALK..]);
    Cursor {
        lead: lead_of(words[0], words[1]),
        walk: walk_of(walk),
    }
}

// Words that stand for a cursor.
pub fn words_of_cursor(cursor: Cursor) -> CursorWords
    ensures { cursor_of result ≡ cursor }
{
    let (kind, number) = words_of_lead(cursor.lead);
    let mut words = [0; CURSOR_WORDS];
    words[0] = kind;
    words[1] = number;
    words[WORDS_BEFORE_WALK..].copy_from_slice(&words_of(cursor.walk));
    words
}
