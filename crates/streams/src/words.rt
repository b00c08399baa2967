// What is said on standard error, which `error` stands for. Where it cannot be said, nobody hears it, and no text depends on that.
ghost use Rattle.std.specs.Prelude.{◌≤◌, length};

use region_file::Link;
use std::io::{Cursor, Print, Write};
use std::{fmt, io, str};

// Why a call failed, as the system words it. The number of the error, which the library puts behind that in brackets, is left out.
#[derive(Clone, Copy)]
struct Reason(io::Error);

impl fmt::Display for Reason {
    fn fmt<W: fmt::Write>(&self, f: &mut fmt::Formatter<W>) -> fmt::Result {
        let mut room = Cursor::new([0u8; 256]);
        let _ = write!(room, "{}", self.0);
        let text = room.into_inner();
        match str::from_utf8(&text[..words_end(&text)]) {
            Ok(words) => f.write_str(words),
            Err(_) => Ok(()),
        }
    }
}

// Where the words end in a text with zeros behind it: at the space before the last bracket that opens, or at the zeros.
fn words_end(text: &[u8]) -> usize
    ensures { result ≤ length text.now }
{
    let end = match text.iter().position(|b| *b == 0) {
        Some(at) => at,
        None => text.len(),
    };
    match text[..end].iter().rposition(|b| *b == b'(') {
        Some(at) => at.saturating_sub(1),
        None => end,
    }
}

// A read failed.
pub(crate) fn cannot_read(error: &impl Print, why: io::Error) {
    failed(error, b"vektrid: the file cannot be read", why);
}

// A line of what failed, and why.
fn failed(error: &impl Print, what: &[u8], why: io::Error) {
    let _ = error.write_all(what);
    let _ = println!(error; ": {}", Reason(why));
}

// Says how it ended, for whoever reads standard error alone: that the text is cut short, in the program's own words and the system's, and that the
// file is refused. (A text is cut where a write failed, and the system's reason is that of the write. Where a write took nothing and did not fail,
// the reason is the library's; Linux has no such write.)
pub fn say_ending(error: &impl Print, written: io::Result<u64>, cannot_write: &[u8], file: &[u8]) {
    if let Err(why) = written {
        failed(error, cannot_write, why);
    }
    say_refusal(error, file);
}

// That the file is refused, and at which link.
fn say_refusal(error: &impl Print, file: &[u8]) {
    let judged = region_file::judge_link(file);
    if let Err(why) = judged.judgement {
        refused(error, why.number(), judged.link);
    }
}

// The number of a refusal, and the link at which the file is refused. A link that names 0 ends the chain and is never refused, so it stands for none:
// what is refused for its length or its record 0.
fn refused(error: &impl Print, number: u32, link: Link) {
    let Link { holder, named } = link;
    let _ = if named > 0 {
        println!(error; "vektrid: refused {number} (record {holder} names record {named})")
    } else {
        println!(error; "vektrid: refused {number}")
    };
}
