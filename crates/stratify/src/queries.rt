// The query of a cell: the one index of a block that lies in it.
ghost use Rattle.std.specs.Prelude.{◌≡◌};
ghost use Rattle.net.specs.Generators.{Valid};
ghost use Rattle.net.specs.Query.{locate};
ghost use Rattle.refusal.specs.Refusal.{of_result};
ghost use Rattle.plan.specs.Pair.{generators, scrambling, scramble_lent, largest_level};
ghost use Rattle.stratify.specs.Answers.{Cell, ShiftFits, of_location, query_outcome};

use crate::judging::judge;
use crate::shapes::Shape;
use crate::strips::{block_cell, plain_number};
use elimination::{eliminate, shape_columns};
use plan::{LentScramble, Plan, Scramble};
use refusal::Refusal;
use word::{Index, join};

// A block by its number: block k of size m holds the indexes k * 2^m to (k + 1) * 2^m - 1.
pub type Block = u32;

// The index of a block in a cell, where no test before 3 refuses. In the plain run, to which `plain_number` leads back, the cell of an index is the
// exclusive or of those of the block's first index and of what the index adds to it.
fn find(
    plan: Plan,
    scramble: Scramble,
    shape: Shape,
    column: u32,
    row: u32,
    block: Block,
) -> Result<Index, Refusal>
    requires { Valid (generators plan) × ShiftFits scramble.shift × Cell largest_level shape.m shape.a block column row }
    ensures { of_result (λ i. i) result
        ≡ of_location shape.m shape.a (locate (generators plan) (scrambling scramble) shape.m shape.a block column row) }
{
    let Shape { m, a } = shape;
    let cell = plain_number(scramble, shape, column, row) ^ block_cell(plan, shape, block);
    let index = eliminate(shape_columns(plan, m, a), m, cell).map_err(|d| Refusal::NotNet {
        m,
        a,
        j: d.kernel,
    })?;
    Ok(join(block, index, m))
}

// The one index of a block in a cell of the shape (m, a). No earlier check of the matrices is needed.
pub fn query(
    plan: Plan,
    lent: LentScramble,
    level: u32,
    m: u32,
    a: u32,
    column: u32,
    row: u32,
    block: Block,
) -> Result<Index, Refusal>
    ensures { of_result (λ i. i) result ≡ query_outcome plan (scramble_lent lent.entry) level m a block column row }
{
    let (scramble, shape) = judge(lent, level, m, a, column, row, block)?;
    find(plan, scramble, shape, column, row, block)
}
