// A text that is handed out piece by piece.
ghost use Rattle.std.specs.Prelude.{◌≡◌, ℕ, List, ◌≤◌, length, take, drop};
ghost use Rattle.text.specs.Pieces.{Counts, Piece};

// A cursor in the text that a file makes: what is still to come, and the next piece of it.
pub trait Pieces {
    // The text still to come from a cursor, of a file.
    ghost to_come: { List ℕ → Self → List ℕ };
    // No line of it is longer.
    ghost longest: { ℕ };

    // Writes the next piece to the front of a buffer, and goes past it. Bytes behind the piece keep their content.
    fn piece(&mut self, file: &[u8], out: &mut [u8]) -> usize
        ensures counts { Counts result out.new }
        ensures piece { Piece (to_come file.now) longest self.old self.new (take result out.new) (length out.new) }
        ensures rest { drop result out.new ≡ drop result out.old };

    // So a buffer of 64 KiB has room for every line, and an empty piece in it is the end of the text.
    ghost fits: { longest ≤ 65536 };
}
