// The inverse of columns: one elimination for all unit words.
ghost use Rattle.std.specs.Prelude.{◌≤◌};
ghost use Rattle.word.specs.Index.{index_bits};
ghost use Rattle.elimination.specs.Elimination.{kernel_of, inverse_of, Inverts, InvertsAny};

use crate::clearing::Entries;
use crate::columns::unit_words;
use crate::kernel::Dependent;
use word::{COLUMNS, Columns, INDEX_BITS};

// Takes the first n columns one after the other as pivots, and clears the unit words with them.
fn solve_units(columns: Columns, n: usize) -> Result<Columns, Dependent>
    requires { n ≤ index_bits }
    ensures { Inverts columns n (kernel_of result) (inverse_of result) }
{
    let mut entries = Entries {
        words: columns,
        indexes: unit_words(),
    };
    let mut units = Entries {
        words: unit_words(),
        indexes: [0; COLUMNS],
    };
    for c in 0..n {
        let pivot = entries.pivot(c)?;
        entries.clear(c + 1, n, pivot);
        units.clear(0, n, pivot);
    }
    Ok(units.indexes)
}

// The inverse of the first m columns, if they are independent: its product with a word of m bits that is the product of an index is that
// index. More columns than there are have an inverse of 0.
pub fn invert(columns: Columns, m: u32) -> Result<Columns, Dependent>
    ensures { InvertsAny columns m (kernel_of result) (inverse_of result) }
{
    if m > INDEX_BITS {
        return Ok([0; COLUMNS]);
    }
    solve_units(columns, m as usize)
}
