// A generator matrix with what its product changes by from one index to the next.
ghost use Rattle.std.specs.Prelude.{◌≡◌, ◌+◌, ◌%◌, ◌<◌};
ghost use Rattle.net.specs.Generators.{product};
ghost use Rattle.word.specs.Index.{index_bits, index_count, last_index};
ghost use Rattle.word.specs.Prefix.{prefixes};
ghost use Rattle.products.specs.Products.{group_size};

use crate::groups::GROUP;
use word::{COLUMNS, Columns, Index};

// The running sum that is the product with the last index of the first group, 63.
const LAST: usize = 5;

// A generator matrix with the running sums of its columns.
#[derive(Clone, Copy)]
pub(crate) struct Axis {
    columns: Columns,
    sums: Columns,
    ghost sums_value: { sums ≡ prefixes 2 index_bits columns },
}

impl Axis {
    pub(crate) fn new(columns: Columns) -> Axis
        ensures { result.columns ≡ columns }
    {
        Axis {
            columns,
            sums: word::prefixes(columns),
        }
    }

    // The product with an index.
    pub(crate) fn product(&self, index: Index) -> u32
        ensures { result ≡ product 2 self.now.columns index }
    {
        word::product(self.columns, index)
    }

    // The product with the index after another, from the product with that one: the running sum that leads to it is that of its trailing zeros.
    // No index is after the last.
    pub(crate) fn next(&self, word: u32, index: Index) -> u32
        requires { word ≡ product 2 self.now.columns index }
        ensures { index < last_index → result ≡ product 2 self.now.columns (index + 1) }
    {
        let zeros = index.wrapping_add(1).trailing_zeros() as usize;
        word ^ self.sums[zeros % COLUMNS]
    }

    // The product with the first index of the group after another, from the product with the first of that one.
    pub(crate) fn next_group(&self, word: u32, first: Index) -> u32
        requires whole { first % group_size ≡ 0 }
        requires word_value { word ≡ product 2 self.now.columns first }
        ensures { first + group_size < index_count → result ≡ product 2 self.now.columns (first + group_size) }
    {
        self.next(word ^ self.sums[LAST], first + (GROUP - 1) as Index)
    }
}
