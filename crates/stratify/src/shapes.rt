// Shapes of cells, and the numbers of their cells.
ghost use Rattle.std.specs.Prelude.{◌≡◌, ◌-◌, ◌≤◌};
ghost use Rattle.net.specs.Sequence.{top};
ghost use Rattle.net.specs.Elimination.{serial};
ghost use Rattle.stratify.specs.Answers.{not_a_cell};

use word::{join, top};

// The shape (m, a): its cells are 2^a columns by 2^(m - a) rows.
#[derive(Clone, Copy)]
pub(crate) struct Shape {
    pub m: u32,
    pub a: u32,
    pub ghost wide: { a ≤ m },
    pub ghost fits: { m ≤ 32 },
}

impl Shape {
    // Whether a column or a row lies outside.
    pub(crate) fn outside(self, column: u32, row: u32) -> bool
        ensures { result ≡ (not_a_cell 2 self.m self.a column row).holds }
    {
        (column as u64) >> self.a != 0 || (row as u64) >> (self.m - self.a) != 0
    }

    // The number of the cell in which a point lies.
    pub(crate) fn number_at(self, x: u32, y: u32) -> u32
        ensures { result ≡ serial 2 (self.m - self.a) (top 2 32 self.a x) (top 2 32 (self.m - self.a) y) }
    {
        let height = self.m - self.a;
        join(top(x, self.a), top(y, height), height)
    }
}
