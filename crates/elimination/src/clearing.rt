// Words, each beside its index, cleared at the lowest set bit of one of them.
ghost use Rattle.std.specs.Prelude.{◌≡◌, ◌≢◌, ◌≤◌, ◌<◌, length, get_or, MatchResult};
ghost use Rattle.word.specs.Index.{index_bits};
ghost use Rattle.elimination.specs.Basis.{added, Clears};

use crate::kernel::Dependent;
use word::Columns;

// A word beside an index. Of a column, the word is the product with the index; of a word asked for, it is what that product leaves of it.
#[derive(Clone, Copy)]
pub(crate) struct Entry {
    pub word: u32,
    pub index: u32,
}

impl Entry {
    // This entry cleared at the lowest set bit of the pivot: where its word has that bit, the pivot is added to it, word to word and index
    // to index.
    pub(crate) fn cleared(self, pivot: Entry) -> Entry
        requires { pivot.word ≢ 0 }
        ensures word { result.word ≡ added pivot.word self.word pivot.word self.word }
        ensures index { result.index ≡ added pivot.word self.word pivot.index self.index }
    {
        if (self.word >> pivot.word.trailing_zeros()) % 2 == 0 {
            return self;
        }
        Entry {
            word: self.word ^ pivot.word,
            index: self.index ^ pivot.index,
        }
    }
}

// Clears each word with the index beside it. The loop is no zip of two `iter_mut`, after which nothing is known of the elements.
fn clear_all(words: &mut [u32], indexes: &mut [u32], pivot: Entry)
    requires pivot { pivot.word ≢ 0 }
    requires beside { length indexes.old ≡ length words.old }
    ensures { Clears pivot.word pivot.index 0 (length words.old) words.old indexes.old words.new indexes.new }
{
    for (t, word) in words.iter_mut().enumerate() {
        let entry = Entry {
            word: *word,
            index: indexes[t],
        };
        let entry = entry.cleared(pivot);
        *word = entry.word;
        indexes[t] = entry.index;
    }
}

// Words, each beside its index: two arrays, since with one array of entries a query of m = 32 takes half as long again.
#[derive(Clone, Copy)]
pub(crate) struct Entries {
    pub words: Columns,
    pub indexes: Columns,
}

impl Entries {
    // The entry at c as the next pivot. A word of 0 is made of the columns before it, and then its index is in the kernel.
    pub(crate) fn pivot(&self, c: usize) -> Result<Entry, Dependent>
        requires inside { c < index_bits }
        requires some { get_or self.now.words c 0 ≡ 0 → 0 < get_or self.now.indexes c 0 }
        ensures { MatchResult result
            (λ p. (p.word ≢ 0) × (p.word ≡ get_or self.now.words c 0) × (p.index ≡ get_or self.now.indexes c 0))
            (λ d. (get_or self.now.words c 0 ≡ 0) × (d.kernel ≡ get_or self.now.indexes c 0)) }
    {
        let word = self.words[c];
        let index = self.indexes[c];
        if word == 0 {
            return Err(Dependent { kernel: index });
        }
        Ok(Entry { word, index })
    }

    // Clears the entries from `from` up to `to`.
    pub(crate) fn clear(&mut self, from: usize, to: usize, pivot: Entry)
        requires pivot { pivot.word ≢ 0 }
        requires range { (from ≤ to) × (to ≤ index_bits) }
        ensures { Clears pivot.word pivot.index from to
            self.old.words self.old.indexes self.new.words self.new.indexes }
    {
        clear_all(
            &mut self.words[from..to],
            &mut self.indexes[from..to],
            pivot,
        );
    }
}
