// Reading to the end, in as many calls as the system needs.
ghost use Rattle.std.specs.Prelude.{◌≡◌, ◌-◌, ◌<◌, ◌≤◌, length, take, drop};
ghost use Rattle.std.specs.Io.KnownBytes.{Consumes, IsAtEnd};
ghost use Rattle.text.specs.Pieces.{Counts};
ghost use Rattle.streams.specs.Transfer.{MovesAtMost, moved, OnNothing};

use crate::transfers::{MOST_CALLS, Transfer, answered};
use crate::words;
use std::io;
use std::io::{ErrorKind, Print, Read};
use std::time::Clock;

// One byte more than the longest file, so that a longer one is seen.
pub const FILE_ROOM: usize = 65537;

// Reads until the buffer is full or the input ends. A read that fails leaves no whole file, whatever came before it: 0 bytes, which are refused.
// That it failed is said on `error`, which stands for standard error.
pub fn read_all<R: Read>(
    input: &mut R,
    clock: &impl Clock,
    error: &impl Print,
    buffer: &mut [u8],
) -> usize
    ensures counts { Counts result buffer.new }

    // Of a reader that says what it has left: what was read is what it had, and where there was room for more, all of that.
    ensures bytes { 0 < result → Consumes (R.remaining input.old) (R.remaining input.new) (take result buffer.new) }
    ensures end { 0 < result → result < length buffer.new → IsAtEnd (R.remaining input.new) }
{
    let mut done: usize = 0;
    let mut why = io::Error::from(ErrorKind::TimedOut);
    for _ in 0..MOST_CALLS {
        if done == buffer.len() {
            return done;
        }
        match read_on(input, clock, buffer, done) {
            Transfer::Moved(more) => done += more,
            Transfer::Nothing => return done,
            Transfer::Again => {}
            Transfer::Failed(reason) => {
                why = reason;
                break;
            }
        }
    }
    words::cannot_read(error, why);
    0
}

// One read, behind the bytes that are there.
fn read_on<R: Read>(input: &mut R, clock: &impl Clock, buffer: &mut [u8], done: usize) -> Transfer
    requires { done ≤ length buffer.old }
    ensures most { MovesAtMost (length buffer.new - done) result }
    ensures kept { take done buffer.new ≡ take done buffer.old }
    ensures bytes { Consumes (R.remaining input.old) (R.remaining input.new) (take (moved result) (drop done buffer.new)) }
    ensures end { OnNothing result (done < length buffer.new → IsAtEnd (R.remaining input.new)) }
{
    let got = input.read(&mut buffer[done..]);
    answered(got, buffer.len() - done, clock)
}
