// A cursor in a sheet: what is still to come, and the next piece of it.
ghost use Rattle.std.specs.Prelude.{◌≡◌, ◌+◌, ◌≤◌, length};
ghost use Rattle.std.proofs.Common.{rules};
ghost use Rattle.listing.specs.Listing.{longest_line};
ghost use Rattle.sheet.specs.Sheet.{sheet};
ghost use Rattle.sheet.specs.Cursor.{sheet_to_come};
ghost use Rattle.sheet.specs.Lines.{after_number, LinePut};

use crate::page_lines::{put_heading, put_page_number, put_step};
use listing::{LONGEST_LINE, refusal_line};
use text::Pieces;
use visits::{FileVisit, FileWalk};

// The number of visits that have room on a page.
const PAGE_VISITS: u32 = 48;

// Where on a page a sheet goes on: with the line of a refused file, which stands for the sheet; with the heading of a page; with so many lines
// for visits, and then the number of the page; or nowhere, at its end. A refusal is its number, since the words that C keeps for a cursor may hold
// any number.
#[derive(Clone, Copy, Debug, PartialEq, Eq)]
pub enum Place {
    Refusal(u32),
    Heading,
    Lines(u32),
    End,
}

// Where a sheet goes on: the place, the number of its page, and the walk whose visits are still to come.
#[derive(Clone, Copy)]
pub struct Cursor {
    pub place: Place,
    pub page: u32,
    pub walk: FileWalk,
}

impl Cursor {
    // The start of a file's sheet; the whole file is judged here, before any of it is written.
    pub fn open(file: &[u8]) -> Cursor
        ensures { sheet_to_come file.now result ≡ sheet file.now }
    {
        match FileWalk::open(file) {
            Ok(walk) => Cursor {
                place: Place::Heading,
                page: 1,
                walk,
            },
            Err(why) => Cursor {
                place: Place::Refusal(why.number()),
                page: 0,
                walk: FileWalk::ended(),
            },
        }
    }

    // Past the number of its page: before the heading of another where a visit is still to come, and else at the end. The visit that the
    // step gave stands on that next page, so the walk is the one before the step.
    fn turn_page(&mut self, given: Option<FileVisit>)
        ensures { self.new ≡ after_number given self.old.page self.old.walk }
    {
        match given {
            Some(_) => {
                self.place = Place::Heading;
                self.page = self.page.wrapping_add(1);
            }
            None => {
                self.place = Place::End;
            }
        }
    }

    // Puts the next line of the sheet, and hands back where it ends; none at the end of the sheet. The walk is stepped for every line, though
    // only lines on a page use the step: one call in one place lets the compiler of the program lay it into the loop (docs/DECISIONS.md 64).
    fn put_line(&mut self, file: &[u8], out: &mut [u8], at: usize) -> usize
        requires { at + longest_line ≤ length out.old }
        ensures { LinePut file.now self.old out.old at self.new out.new result }
    {
        let page = self.page;
        let mut ahead = self.walk;
        let given = ahead.step(file);
        match self.place {
            Place::Refusal(number) => {
                self.place = Place::End;
                refusal_line(number, out, at)
            }
            Place::Heading => {
                self.place = Place::Lines(PAGE_VISITS);
                put_heading(out, at)
            }
            Place::Lines(0) => {
                let len = put_page_number(page, out, at);
                self.turn_page(given);
                len
            }
            Place::Lines(lines) => {
                self.place = Place::Lines(lines - 1);
                self.walk = ahead;
                put_step(given, out, at)
            }
            Place::End => at,
        }
    }
}

impl Pieces for Cursor {
    ghost to_come = { sheet_to_come };

    ghost longest = { longest_line };

    ghost fits = { Prim.search rules };

    // The next piece, as long as the buffer has room for the longest line: hands back how many bytes it has, and moves past it. Bytes of the
    // buffer past it keep their content.
    fn piece(&mut self, file: &[u8], out: &mut [u8]) -> usize {
        let mut len = 0;
        while out.len() - len >= LONGEST_LINE {
            let end = self.put_line(file, out, len);
            if end == len {
                return len;
            }
            len = end;
        }
        len
    }
}
