// Writing whole, in as many calls as the system needs, and how it ended.
ghost use Rattle.std.specs.Prelude.{◌≡◌, ◌-◌, ◌≤◌, length, take, drop, IfOk};
ghost use Rattle.std.specs.Io.KnownBytes.{Appends};
ghost use Rattle.std.specs.Process.{exit_status};
ghost use Rattle.streams.specs.Transfer.{MovesAtMost, moved};
ghost use Rattle.streams.specs.Ending.{CountedOn, Puts, EndsWith};

use crate::transfers::{MOST_CALLS, Transfer, answered};
use std::io;
use std::io::{ErrorKind, Write};
use std::process::ExitCode;
use std::time::Clock;

// The status of a program that writes where nobody reads, as shells show it: the library holds off the signal that else ends such a program.
const NOBODY_READS: u8 = 141;

// The status that a program ends with, whose text was written whole, with so many bytes, or cut short, and why.
pub fn exit_code(written: io::Result<u64>) -> ExitCode
    ensures { EndsWith written (exit_status result) }
{
    let status = match written {
        Ok(_) => 0,
        Err(why) => {
            if why.kind() == ErrorKind::BrokenPipe {
                NOBODY_READS
            } else {
                0
            }
        }
    };
    ExitCode::from(status)
}

// Writes the next piece of a text, behind so many bytes of it, and counts on: where it is written whole, the number is that of all bytes so far.
pub fn write_piece<W: Write>(
    output: &mut W,
    clock: &impl Clock,
    piece: &[u8],
    before: u64,
) -> io::Result<u64>
    ensures counted { CountedOn before piece.now result }
    ensures bytes { Puts (W.contents output.old) (W.contents output.new) piece.now result }
{
    let taken = write_all(output, clock, piece)?;
    Ok(before.wrapping_add(taken as u64))
}

// Writes the text, in as many calls as it takes, until a write fails or takes nothing; hands back how many bytes the writes took, which is all of it.
fn write_all<W: Write>(output: &mut W, clock: &impl Clock, text: &[u8]) -> io::Result<usize>
    ensures whole { IfOk result (λ n. n ≡ length text.now) }
    ensures bytes { Puts (W.contents output.old) (W.contents output.new) text.now result }
{
    let mut bytes: usize = 0;
    let mut why = io::Error::from(ErrorKind::WriteZero);
    for _ in 0..MOST_CALLS {
        if bytes == text.len() {
            break;
        }
        match write_on(output, clock, text, bytes) {
            Transfer::Moved(more) => bytes += more,
            Transfer::Again => {}
            Transfer::Nothing => break,
            Transfer::Failed(reason) => {
                why = reason;
                break;
            }
        }
    }
    if bytes < text.len() {
        Err(why)
    } else {
        Ok(bytes)
    }
}

// One write, of the bytes that are left.
fn write_on<W: Write>(output: &mut W, clock: &impl Clock, text: &[u8], done: usize) -> Transfer
    requires { done ≤ length text.now }
    ensures most { MovesAtMost (length text.now - done) result }
    ensures bytes { Appends (W.contents output.old) (W.contents output.new) (take (moved result) (drop done text.now)) }
{
    let put = output.write(&text[done..]);
    answered(put, text.len() - done, clock)
}
