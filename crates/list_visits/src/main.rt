// Lists the visits of the region file on standard input, or prints its refusal. Standard output has the listing and nothing else; what went
// wrong is said on standard error.
#![tactic(auto)]

ghost use Rattle.listing.specs.Listing.{listing};
ghost use Rattle.streams.specs.Ending.{CountedWhole, Puts};

use listing::Cursor;
use std::io;
use std::io::Write;
use std::process::ExitCode;
use std::time::Clock;

fn main(rt: HostRuntime) -> ExitCode {
    let mut file = [0u8; streams::FILE_ROOM];
    let n = streams::read_all(&mut rt.stdin(), &rt, &rt.stderr(), &mut file);
    let written = list(&mut rt.stdout(), &rt, &file[..n]);
    streams::say_ending(
        &rt.stderr(),
        written,
        b"vektrid: the listing cannot be written",
        &file[..n],
    );
    streams::exit_code(written)
}

// Writes the listing until its end, or until a write fails.
fn list<W: Write>(output: &mut W, clock: &impl Clock, file: &[u8]) -> io::Result<u64>
    ensures counted { CountedWhole (listing file.now) result }
    ensures bytes { Puts (W.contents output.old) (W.contents output.new) (listing file.now) result }
{
    streams::write_text(Cursor::open(file), output, clock, file)
}
