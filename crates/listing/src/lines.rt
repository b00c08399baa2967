// The lines of visits, as many as have room. The buffer and a byte of it go from call to call as text has them: a struct of both would be taken apart
// for every call.
ghost use Rattle.std.specs.Prelude.{◌≡◌, ◌+◌, ◌≤◌, length};
ghost use Rattle.text.specs.Put.{put};
ghost use Rattle.listing.specs.Listing.{line, longest_line};
ghost use Rattle.listing.specs.Lines.{LinesPut};

use visits::{FileVisit, FileWalk};

// The length of the longest line: two numbers and two signed numbers, each with the byte after it.
pub const LONGEST_LINE: usize = 2 * text::LONGEST_NUMBER + 2 * text::LONGEST_SIGNED;

// Four fields, one space between, and a line feed.
fn put_line(visit: FileVisit, out: &mut [u8], at: usize) -> usize
    requires { at + longest_line ≤ length out.old }
    ensures end { result ≡ at + length (line visit) }
    ensures text { out.new ≡ put out.old at (line visit) }
{
    let second = text::number(visit.number, b' ', out, at);
    let third = text::number(visit.index, b' ', out, second);
    let fourth = text::number(visit.x, b' ', out, third);
    text::number(visit.y, b'\n', out, fourth)
}

// The lines to come from a walk, each while the longest line has room; hands back where they end.
pub(crate) fn put_lines(file: &[u8], walk: &mut FileWalk, out: &mut [u8], at: usize) -> usize
    requires { at ≤ length out.old }
    ensures { LinesPut file.now walk.old out.old at walk.new out.new result }
{
    let mut len = at;
    while out.len() - len >= LONGEST_LINE {
        let Some(visit) = walk.step(file) else {
            return len;
        };
        len = put_line(visit, out, len);
    }
    len
}
