// A whole text, written piece by piece.
ghost use Rattle.streams.specs.Ending.{CountedWhole, Puts};

use crate::writing::write_piece;
use std::io;
use std::io::Write;
use std::time::Clock;
use text::Pieces;

// Writes what is still to come of a file's text, a full buffer at a time, until nothing is to come or a write fails.
pub fn write_text<P: Pieces + Drop, W: Write>(
    pieces: P,
    output: &mut W,
    clock: &impl Clock,
    file: &[u8],
) -> io::Result<u64>
    ensures counted { CountedWhole (P.to_come file.now pieces) result }
    ensures bytes { Puts (W.contents output.old) (W.contents output.new) (P.to_come file.now pieces) result }
{
    let mut space = [0u8; 65536];
    let mut pieces = pieces;
    let mut taken: u64 = 0;
    'pieces: loop {
        let len = pieces.piece(file, &mut space);
        if len == 0 {
            return Ok(taken);
        }
        taken = write_piece(output, clock, &space[..len], taken)?;
    }
}
