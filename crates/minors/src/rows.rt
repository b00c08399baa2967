// The rows of a generator matrix as words: bit c of a row is its entry in column c.
ghost use Rattle.std.specs.Prelude.{◌<◌};
ghost use Rattle.minors.specs.Minors.{IsRow, AreRows};

use word::Columns;

// The number of rows of a generator matrix: one for each bit of a column.
pub(crate) const ROWS: usize = 32;

// The rows of a matrix, row 0 first.
pub(crate) type Rows = [u32; ROWS];

// Row r of a matrix. The columns are taken from the last to the first, and each bit goes to the low end of the word.
fn row(columns: Columns, r: u32) -> u32
    requires { r < 32 }
    ensures { IsRow columns r result }
{
    let mut word = 0u32;
    for column in columns.iter().rev() {
        word = word * 2 + (*column >> (31 - r)) % 2;
    }
    word
}

// All rows of a matrix.
pub(crate) fn rows(columns: Columns) -> Rows
    ensures { AreRows columns result }
{
    let mut words = [0u32; ROWS];
    for (r, word) in words.iter_mut().enumerate() {
        *word = row(columns, r as u32);
    }
    words
}
