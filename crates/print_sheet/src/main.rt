// Prints the sheet of the region file on standard input, or its refusal. Standard output has the sheet and nothing else; what went wrong is said
// on standard error.
#![tactic(auto)]

ghost use Rattle.sheet.specs.Sheet.{sheet};
ghost use Rattle.streams.specs.Ending.{CountedWhole, Puts};

use sheet::Cursor;
use std::io;
use std::io::Write;
use std::process::ExitCode;
use std::time::Clock;

fn main(rt: HostRuntime) -> ExitCode {
    let mut file = [0u8; streams::FILE_ROOM];
    let n = streams::read_all(&mut rt.stdin(), &rt, &rt.stderr(), &mut file);
    let written = print(&mut rt.stdout(), &rt, &file[..n]);
    streams::say_ending(
        &rt.stderr(),
        written,
        b"vektrid: the sheet cannot be written",
        &file[..n],
    );
    streams::exit_code(written)
}

// Writes the sheet until its end, or until a write fails.
fn print<W: Write>(output: &mut W, clock: &impl Clock, file: &[u8]) -> io::Result<u64>
    ensures counted { CountedWhole (sheet file.now) result }
    ensures bytes { Puts (W.contents output.old) (W.contents output.new) (sheet file.now) result }
{
    streams::write_text(Cursor::open(file), output, clock, file)
}
