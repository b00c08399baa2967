// The columns that an elimination works on: those of a shape, and the unit words.
ghost use Rattle.net.specs.Shape.{Shape};
ghost use Rattle.plan.specs.Pair.{generators};
ghost use Rattle.elimination.specs.Elimination.{ShapeColumns, ShapeColumnsAny};
ghost use Rattle.elimination.specs.Basis.{Units};

use plan::Plan;
use std::array;
use word::{COLUMNS, Columns, join, top};

// Writes each column as the number of the plain cell of the index that has only this column's bit.
fn put_columns(plan: Plan, m: u32, a: u32) -> Columns
    requires { Shape (generators plan) m a }
    ensures { ShapeColumns (generators plan) m a result }
{
    let mut columns = [0; COLUMNS];
    for c in 0..m as usize {
        columns[c] = join(top(plan.x[c], a), top(plan.y[c], m - a), m - a);
    }
    columns
}

// The columns of the shape (m, a): their product with an index below 2^m is the number of its plain cell. What is no shape has columns of 0.
pub fn shape_columns(plan: Plan, m: u32, a: u32) -> Columns
    ensures { ShapeColumnsAny (generators plan) m a result }
{
    if a > m || m > Plan::LARGEST_LEVEL {
        return [0; COLUMNS];
    }
    put_columns(plan, m, a)
}

// Word t has bit t alone. As indexes these belong to the columns before any is cleared; as words the inverse is asked for them.
pub(crate) fn unit_words() -> Columns
    ensures { Units result }
{
    array::from_fn(|t| 1 << t)
}
