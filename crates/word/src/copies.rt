// Words copied from one slice to another, and into the columns of a generator matrix.
ghost use Rattle.std.specs.Prelude.{◌≡◌, min, length};
ghost use Rattle.std.proofs.Math.Seq.{paste};
ghost use Rattle.word.specs.Matrices.{columns_held};

use crate::{COLUMNS, Columns};

// Copies words to the front of a slice, as many as both slices have.
pub fn copy(from: &[u32], to: &mut [u32])
    ensures { to.new ≡ paste to.old 0 from.now (min (length from.now) (length to.old)) }
{
    let n = from.len().min(to.len());
    to[..n].copy_from_slice(&from[..n]);
}

// The columns that words hold, column 0 first. Columns that the words lack are 0, and words beyond the last column are left out.
pub fn columns(words: &[u32]) -> Columns
    ensures { result ≡ columns_held words.now }
{
    let mut own = [0u32; COLUMNS];
    copy(words, &mut own);
    own
}
