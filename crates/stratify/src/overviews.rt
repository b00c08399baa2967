// An overview: many cells of one shape and block in one query, with one elimination for all of them.
ghost use Rattle.std.specs.Prelude.{◌≡◌, map, ℕ, ◌<◌, length, get_or};
ghost use Rattle.std.specs.Int.Bits.{bit_xor};
ghost use Rattle.net.specs.Generators.{Valid, product};
ghost use Rattle.refusal.specs.Outcome.{accepted, then, part_left};
ghost use Rattle.refusal.specs.Refusal.{of_judgement};
ghost use Rattle.plan.specs.Pair.{generators, sequence, scramble_lent, largest_level};
ghost use Rattle.elimination.specs.Elimination.{ShapeInverse};
ghost use Rattle.stratify.specs.Answers.{Cell, ShiftFits};
ghost use Rattle.stratify.specs.Strips.{plain_number};
ghost use Rattle.stratify.specs.Overview.{AllInside, others_outside, overview_outcome, visit_indexes};

use crate::Block;
use crate::judging::judge;
use crate::shapes::Shape;
use crate::strips::{block_cell, plain_number_among};
use elimination::{invert, shape_columns};
use plan::{LentScramble, Plan, Scramble};
use refusal::Refusal;
use word::{Columns, Index, join};

// Cells of one shape, by the list of their columns and that of their rows.
#[derive(Clone, Copy)]
struct Cells<'a> {
    shape: Shape,
    columns: &'a [u32],
    rows: &'a [u32],
    ghost even: { length columns.now ≡ length rows.now },
}

impl<'a> Cells<'a> {
    // Whether a cell after the first lies outside the shape.
    fn others_outside(self) -> bool
        ensures { let c = self.entry in result ≡ (others_outside c.shape.m c.shape.a c.columns.now c.rows.now).holds }
    {
        for i in 1..self.columns.len() {
            if self.shape.outside(self.columns[i], self.rows[i]) {
                return true;
            }
        }
        false
    }

    // Writes in the place of each answer the number of the plain cell from which the scramble leads to its cell.
    fn put_numbers(self, scramble: Scramble, answers: &mut [Index])
        requires all_inside { AllInside self.shape.m self.shape.a self.columns.now self.rows.now }
        requires room { length self.columns.now ≡ length answers.old }
        ensures { let c = self.entry in (d : ℕ) → d < length c.columns.now → get_or answers.new d 0
            ≡ plain_number scramble c.shape.m c.shape.a (get_or c.columns.now d 0) (get_or c.rows.now d 0) }
    {
        let Cells {
            shape,
            columns,
            rows,
        } = self;
        let unflipped = scramble.flips.none_set();
        let added = shape.number_at(scramble.shift.x, scramble.shift.y);
        for (i, answer) in answers.iter_mut().enumerate() {
            *answer = plain_number_among(scramble, unflipped, added, shape, columns[i], rows[i]);
        }
    }
}

// Makes of each number the product of the inverse with it, and adds one word that the block adds for all cells.
fn put_indexes(inverse: Columns, base: u32, answers: &mut [Index])
    ensures { answers.new ≡ map (λ n. bit_xor base (product 2 inverse n)) answers.old }
{
    for answer in answers.iter_mut() {
        *answer = base ^ word::product(inverse, *answer);
    }
}

// Writes the index of the block in each cell. The numbers come first, so that the loop with the products calls nothing and keeps the columns of the
// inverse at hand.
fn put_answers(
    plan: Plan,
    scramble: Scramble,
    inverse: Columns,
    block: Block,
    cells: Cells,
    answers: &mut [Index],
)
    requires valid { Valid (generators plan) × ShiftFits scramble.shift
        × Cell largest_level cells.shape.m cells.shape.a block 0 0
        × ShapeInverse (generators plan) cells.shape.m cells.shape.a inverse }
    requires all_inside { AllInside cells.shape.m cells.shape.a cells.columns.now cells.rows.now
        × (length cells.columns.now ≡ length answers.old) }
    ensures { let c = cells.entry in
        answers.new ≡ visit_indexes (sequence plan scramble) c.shape.m c.shape.a block c.columns.now c.rows.now }
{
    let first = block_cell(plan, cells.shape, block);
    let base = join(block, word::product(inverse, first), cells.shape.m);
    cells.put_numbers(scramble, answers);
    put_indexes(inverse, base, answers);
}

// The index of a block in each of many cells of the shape (m, a). It is refused as the query of the earliest refused cell would be, and
// then the answers are as they were: nothing is written before every cell is judged.
pub fn overview(
    plan: Plan,
    lent: LentScramble,
    level: u32,
    m: u32,
    a: u32,
    block: Block,
    columns: &[u32],
    rows: &[u32],
    answers: &mut [Index],
) -> Result<(), Refusal>
    ensures answer { of_judgement result
        ≡ then (overview_outcome plan (scramble_lent lent.entry) level m a block
        columns.now rows.now answers.old) (accepted tt) }
    ensures answers { answers.new
        ≡ part_left (overview_outcome plan (scramble_lent lent.entry) level m a block
        columns.now rows.now answers.old) (λ is. is) answers.old }
{
    let n = columns.len();
    if n != rows.len() || n != answers.len() {
        return Err(Refusal::BufferLengths);
    }
    let column = columns.first().copied().unwrap_or(0);
    let row = rows.first().copied().unwrap_or(0);
    let (scramble, shape) = judge(lent, level, m, a, column, row, block)?;
    let inverse = invert(shape_columns(plan, m, a), m).map_err(|d| Refusal::NotNet {
        m,
        a,
        j: d.kernel,
    })?;
    let cells = Cells {
        shape,
        columns,
        rows,
    };
    if cells.others_outside() {
        return Err(Refusal::Cell);
    }
    put_answers(plan, scramble, inverse, block, cells, answers);
    Ok(())
}
