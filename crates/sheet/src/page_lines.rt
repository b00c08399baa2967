// The lines of a page, one at a time, in a buffer that has room for the longest. The buffer and a byte of it go from call to call as text has
// them: a struct of both would be taken apart for every call.
ghost use Rattle.std.specs.Prelude.{◌≡◌, ◌+◌, ◌≤◌, length};
ghost use Rattle.text.specs.Put.{put};
ghost use Rattle.listing.specs.Listing.{longest_line};
ghost use Rattle.sheet.specs.Sheet.{heading, visit_line, page_line};
ghost use Rattle.sheet.specs.Lines.{step_line};

use visits::FileVisit;

// The words rec, vis, x and y above the columns of a page.
#[tactic(auto, using(text::proofs::Puts::from_if_room), unfolding(crate::specs::Sheet::in_columns, text::specs::Columns::right))]
pub(crate) fn put_heading(out: &mut [u8], at: usize) -> usize
    requires { at + longest_line ≤ length out.old }
    ensures end { result ≡ at + length heading }
    ensures text { out.new ≡ put out.old at heading }
{
    text::bytes(b" rec  vis        x        y\n", out, at)
}

// The number of a page, right-aligned in all columns.
#[tactic(auto, using(text::proofs::Puts::from_if_room), unfolding(crate::specs::Sheet::across))]
pub(crate) fn put_page_number(page: u32, out: &mut [u8], at: usize) -> usize
    requires { at + longest_line ≤ length out.old }
    ensures end { result ≡ at + length (page_line page) }
    ensures text { out.new ≡ put out.old at (page_line page) }
{
    text::right_number(page, 27, b'\n', out, at)
}

// The four fields of a visit, right-aligned, one space between, and a line feed.
fn put_visit(visit: FileVisit, out: &mut [u8], at: usize) -> usize
    requires { at + longest_line ≤ length out.old }
    ensures end { result ≡ at + length (visit_line visit) }
    ensures text { out.new ≡ put out.old at (visit_line visit) }
{
    let second = text::right_number(visit.number, 4, b' ', out, at);
    let third = text::right_number(visit.index, 4, b' ', out, second);
    let fourth = text::right_number(visit.x, 8, b' ', out, third);
    text::right_number(visit.y, 8, b'\n', out, fourth)
}

// The line of the visit that a step gave, or a blank one where it gave none.
#[tactic(auto, using(text::proofs::Puts::from_if_room), unfolding(crate::specs::Sheet::across, text::specs::Columns::right))]
pub(crate) fn put_step(given: Option<FileVisit>, out: &mut [u8], at: usize) -> usize
    requires { at + longest_line ≤ length out.old }
    ensures end { result ≡ at + length (step_line given) }
    ensures text { out.new ≡ put out.old at (step_line given) }
{
    match given {
        Some(visit) => put_visit(visit, out, at),
        None => text::bytes(b"                           \n", out, at),
    }
}
