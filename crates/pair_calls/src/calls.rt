// Calls with a pair as 64 words. Words that are no pair are refused before all else, and then each call is that of their matrices, which are loaded
// once the words are judged.
ghost use Rattle.std.specs.Prelude.{◌≡◌};
ghost use Rattle.refusal.specs.Outcome.{accepted, part_left, then, through};
ghost use Rattle.refusal.specs.Refusal.{of_judgement, of_result};
ghost use Rattle.plan.specs.Pair.{scramble_lent, of_point};
ghost use Rattle.plan.specs.Walk.{of_walk, of_visit, answer_of};
ghost use Rattle.pair_calls.specs.Calls.{
  pair_point_outcome,
  pair_singles_outcome,
  pair_fill_outcome,
  pair_filled,
  pair_step_outcome,
  pair_singles_step_outcome,
  pair_query_outcome,
  pair_overview_outcome,
};

use plan::{LentScramble, Plan, Point, Visit, Walk};
use refusal::Refusal;
use stratify::Block;
use unit::Singles;
use word::Index;

// The point of an index.
pub fn point(words: &[u32], lent: LentScramble, index: Index) -> Result<Point, Refusal>
    ensures { of_result of_point result ≡ pair_point_outcome words.now (scramble_lent lent.entry) index }
{
    Plan::judge(words)?;
    Plan::loaded(words).point(lent, index)
}

// The same with the point as two singles.
pub fn point_singles(words: &[u32], lent: LentScramble, index: Index) -> Result<Singles, Refusal>
    ensures { of_result (λ s. s) result ≡ pair_singles_outcome words.now (scramble_lent lent.entry) index }
{
    Plan::judge(words)?;
    unit::singles_at(Plan::loaded(words), lent, index)
}

// The points of the indexes from start on, into every word of both buffers.
pub fn fill(
    words: &[u32],
    lent: LentScramble,
    start: Index,
    xs: &mut [u32],
    ys: &mut [u32],
) -> Result<(), Refusal>
    ensures answer { of_judgement result ≡ pair_fill_outcome words.now (scramble_lent lent.entry) start xs.old ys.old }
    ensures xs { xs.new ≡ (pair_filled words.now (scramble_lent lent.entry) start xs.old ys.old).x }
    ensures ys { ys.new ≡ (pair_filled words.now (scramble_lent lent.entry) start xs.old ys.old).y }
{
    Plan::judge(words)?;
    plan::fill(Plan::loaded(words), lent, start, xs, ys)
}

// The next visit of a walk, or the end, together with the walk after it. A refused step hands the walk back as it was.
pub fn step(
    words: &[u32],
    walk: Walk,
    lent: LentScramble,
) -> (Result<Option<Visit<Point>>, Refusal>, Walk)
    ensures step { of_result (answer_of of_visit) result.0
        ≡ through (λ t. t.answer) (pair_step_outcome words.now (scramble_lent lent.entry) walk.next walk.left) }
    ensures walk { of_walk result.1
        ≡ part_left (pair_step_outcome words.now (scramble_lent lent.entry) walk.next walk.left) (λ t. t.walk) (of_walk walk) }
{
    match Plan::judge(words) {
        Ok(()) => walk.step(Plan::loaded(words), lent),
        Err(why) => (Err(why), walk),
    }
}

// The same with the point as two singles.
pub fn step_singles(
    words: &[u32],
    walk: Walk,
    lent: LentScramble,
) -> (Result<Option<Visit<Singles>>, Refusal>, Walk)
    ensures step { of_result (answer_of (λ v. v)) result.0
        ≡ through (λ t. t.answer) (pair_singles_step_outcome words.now (scramble_lent lent.entry) walk.next walk.left) }
    ensures walk { of_walk result.1
        ≡ part_left (pair_singles_step_outcome words.now (scramble_lent lent.entry) walk.next walk.left) (λ t. t.walk) (of_walk walk) }
{
    match Plan::judge(words) {
        Ok(()) => unit::step_singles(walk, Plan::loaded(words), lent),
        Err(why) => (Err(why), walk),
    }
}

// The one index of a block in a cell.
pub fn query(
    words: &[u32],
    lent: LentScramble,
    level: u32,
    m: u32,
    a: u32,
    column: u32,
    row: u32,
    block: Block,
) -> Result<Index, Refusal>
    ensures { of_result (λ i. i) result
        ≡ pair_query_outcome words.now (scramble_lent lent.entry) level m a column row block }
{
    Plan::judge(words)?;
    stratify::query(Plan::loaded(words), lent, level, m, a, column, row, block)
}

// The index of a block in each of many cells of one shape.
pub fn overview(
    words: &[u32],
    lent: LentScramble,
    level: u32,
    m: u32,
    a: u32,
    block: Block,
    columns: &[u32],
    rows: &[u32],
    answers: &mut [Index],
) -> Result<(), Refusal>
    ensures answer { of_judgement result
        ≡ then (pair_overview_outcome words.now (scramble_lent lent.entry) level m a block columns.now rows.now answers.old)
        (accepted tt) }
    ensures answers { answers.new
        ≡ part_left (pair_overview_outcome words.now (scramble_lent lent.entry) level m a block columns.now rows.now answers.old)
        (λ is. is) answers.old }
{
    Plan::judge(words)?;
    stratify::overview(
        Plan::loaded(words),
        lent,
        level,
        m,
        a,
        block,
        columns,
        rows,
        answers,
    )
}
