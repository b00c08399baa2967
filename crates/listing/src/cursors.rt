// A cursor in a listing: what is still to come, and the next piece of it.
ghost use Rattle.std.specs.Prelude.{◌≡◌, ◌≤◌, length};
ghost use Rattle.std.proofs.Common.{rules};
ghost use Rattle.text.specs.Put.{put};
ghost use Rattle.listing.specs.Listing.{listing, longest_line};
ghost use Rattle.listing.specs.Cursor.{lead_text, to_come};

use crate::lines::{LONGEST_LINE, put_lines};
use crate::refusals::refusal_line;
use text::Pieces;
use visits::FileWalk;

// What stands before the lines that are still to come. A refusal is its number, since the words that C keeps for a cursor may hold any number.
#[derive(Clone, Copy, Debug, PartialEq, Eq)]
pub enum Lead {
    Nothing,
    Header,
    Refused(u32),
}

// Where a listing goes on: what stands before the next lines, and the walk whose visits they show.
#[derive(Clone, Copy)]
pub struct Cursor {
    pub lead: Lead,
    pub walk: FileWalk,
}

// Writes what stands before the lines, and hands back where it ends.
fn put_lead(lead: Lead, out: &mut [u8]) -> usize
    requires { longest_line ≤ length out.old }
    ensures end { result ≡ length (lead_text lead) }
    ensures text { out.new ≡ put out.old 0 (lead_text lead) }
{
    match lead {
        Lead::Nothing => 0,
        Lead::Header => text::bytes(b"record visit x y\n", out, 0),
        Lead::Refused(number) => refusal_line(number, out, 0),
    }
}

impl Cursor {
    // The start of a file's listing; the whole file is judged here, before any of it is written.
    pub fn open(file: &[u8]) -> Cursor
        ensures { to_come file.now result ≡ listing file.now }
    {
        match FileWalk::open(file) {
            Ok(walk) => Cursor {
                lead: Lead::Header,
                walk,
            },
            Err(why) => Cursor {
                lead: Lead::Refused(why.number()),
                walk: FileWalk::ended(),
            },
        }
    }
}

impl Pieces for Cursor {
    ghost to_come = { to_come };

    ghost longest = { longest_line };

    ghost fits = { Prim.search rules };

    // The next piece, as long as the buffer has room for the longest line: hands back how many bytes it has, and moves past it. Bytes of the
    // buffer past it keep their content.
    fn piece(&mut self, file: &[u8], out: &mut [u8]) -> usize {
        if out.len() < LONGEST_LINE {
            return 0;
        }
        let at = put_lead(self.lead, out);
        self.lead = Lead::Nothing;
        put_lines(file, &mut self.walk, out, at)
    }
}
