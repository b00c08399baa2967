// The standard generator matrices, by their rules, and their products with an index by the fast way.
ghost use Rattle.std.specs.Prelude.{◌≡◌, ℕ, ◌+◌, ◌^◌, ◌<◌, get_or};
ghost use Rattle.net.specs.Generators.{product};
ghost use Rattle.word.specs.Index.{index_bits};
ghost use Rattle.word.specs.Matrices.{standard_matrices};

use crate::{COLUMNS, Columns, Index};

// A one in row 0, the top bit.
const TOP_ROW: u32 = 0x8000_0000;

// Columns of which the first has a one in row 0 alone, and each other one is made by the step from the one before it.
fn columns_by<F: Fn(u32) -> u32>(step: F) -> Columns
    requires { F.IsAlwaysCallable step }
    ensures first { get_or result 0 0 ≡ 2 ^ 31 }
    ensures next { (c : ℕ) → c + 1 < index_bits → F.post step (get_or result c 0) (get_or result (c + 1) 0) }
{
    let mut columns = [0u32; COLUMNS];
    let mut word = TOP_ROW;
    for entry in columns.iter_mut() {
        *entry = word;
        word = step(word);
    }
    columns
}

// The identity: a one in row c of column c, row 0 the top bit.
pub fn identity_columns() -> Columns
    ensures { result ≡ standard_matrices.X }
{
    columns_by(|word| word / 2)
}

// Pascal's triangle modulo 2: each column is the one before it, and that one a row further down, added without carries.
pub fn pascal_columns() -> Columns
    ensures { result ≡ standard_matrices.Y }
{
    columns_by(|word| word ^ word / 2)
}

// The product of the identity with an index is the reversed index.
pub fn standard_x(index: Index) -> u32
    ensures { result ≡ product 2 standard_matrices.X index }
{
    crate::reversed(index)
}

// The product of Pascal's triangle with an index, by five steps from the reversed index.
pub fn standard_y(index: Index) -> u32
    ensures { result ≡ product 2 standard_matrices.Y index }
{
    let first = crate::reversed(index);
    crate::pascal(first)
}
