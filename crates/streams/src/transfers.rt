// What a call of read or write came to, and whether to make it again.
ghost use Rattle.std.specs.Prelude.{◌≡◌, min, MatchResult};
ghost use Rattle.streams.specs.Transfer.{MovesAtMost, moved, OnNothing};

use std::io::ErrorKind;
use std::time::{Clock, Duration};
use std::{io, thread};

// A proved loop has to end, and nothing says that whoever is at the other end of a pipe goes on. So each loop counts its calls down, from a
// number that no run uses up: where a call would block, it is made again for as long as the system itself would wait.
pub(crate) const MOST_CALLS: u64 = u64::MAX;

// What a call came to, in four cases, so that it is no `Result`: bytes were moved; or none, which is the end of an input; or the call is to be made
// again; or it failed, and why.
#[derive(Clone, Copy)]
pub enum Transfer {
    Moved(usize),
    Nothing,
    Again,
    Failed(io::Error),
}

// What a call that was lent so many bytes came to; it moves no more than these. A signal that comes first is no failure, and neither is a pipe that
// would block: it is given a little time.
pub(crate) fn answered(got: io::Result<usize>, lent: usize, clock: &impl Clock) -> Transfer
    ensures most { MovesAtMost lent result }
    ensures count { MatchResult got (λ n. moved result ≡ min n lent) (λ _. moved result ≡ 0) }
    ensures nothing { OnNothing result (got ≡ Ok 0) }
{
    let why = match got {
        Ok(0) => return Transfer::Nothing,
        Ok(moved) => {
            if moved <= lent {
                return Transfer::Moved(moved);
            }
            return Transfer::Moved(lent);
        }
        Err(why) => why,
    };
    match why.kind() {
        ErrorKind::Interrupted => Transfer::Again,
        ErrorKind::WouldBlock => {
            pause(clock);
            Transfer::Again
        }
        _ => Transfer::Failed(why),
    }
}

// Waits for a millisecond.
fn pause(clock: &impl Clock) {
    thread::sleep(clock, Duration::from_millis(1));
}
