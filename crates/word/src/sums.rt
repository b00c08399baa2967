// The running sums of the columns of a generator matrix: what its product changes by from one index to the next.
ghost use Rattle.std.specs.Prelude.{◌≡◌};
ghost use Rattle.word.specs.Index.{index_bits};
ghost use Rattle.word.specs.Prefix.{prefixes};

use crate::Columns;

// Entry t is the exclusive or of the columns 0 to t. An index with t trailing zeros has the product of the index before it, exclusive or
// entry t.
pub fn prefixes(columns: Columns) -> Columns
    ensures { result ≡ prefixes 2 index_bits columns }
{
    let mut sums = columns;
    let mut sum = 0u32;
    for entry in sums.iter_mut() {
        sum ^= *entry;
        *entry = sum;
    }
    sums
}
