// Elimination for one word: the index whose product with the columns it is.
ghost use Rattle.std.specs.Prelude.{◌≤◌};
ghost use Rattle.word.specs.Index.{index_bits};
ghost use Rattle.elimination.specs.Elimination.{kernel_of, index_of, Eliminates, EliminatesAny};

use crate::clearing::{Entries, Entry};
use crate::columns::unit_words;
use crate::kernel::Dependent;
use word::{Columns, INDEX_BITS, Index};

// Takes the first n columns one after the other as pivots, and clears the word asked for with them.
fn solve(columns: Columns, n: usize, asked: u32) -> Result<Index, Dependent>
    requires { n ≤ index_bits }
    ensures { Eliminates columns n asked (kernel_of result) (index_of result) }
{
    let mut entries = Entries {
        words: columns,
        indexes: unit_words(),
    };
    let mut wanted = Entry {
        word: asked,
        index: 0,
    };
    for c in 0..n {
        let pivot = entries.pivot(c)?;
        entries.clear(c + 1, n, pivot);
        wanted = wanted.cleared(pivot);
    }
    Ok(wanted.index)
}

// The index of m bits whose product with the first m columns is the word asked for, if they are independent and an index has that product.
// More columns than there are give the index 0.
pub fn eliminate(columns: Columns, m: u32, asked: u32) -> Result<Index, Dependent>
    ensures { EliminatesAny columns m asked (kernel_of result) (index_of result) }
{
    if m > INDEX_BITS {
        return Ok(0);
    }
    solve(columns, m as usize, asked)
}
