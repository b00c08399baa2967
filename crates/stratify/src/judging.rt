// The tests that come before 3, of a query and of an overview's first cell.
ghost use Rattle.std.specs.Prelude.{◌≡◌, IfOk};
ghost use Rattle.refusal.specs.Outcome.{accepted, first};
ghost use Rattle.refusal.specs.Refusal.{of_result};
ghost use Rattle.plan.specs.Pair.{scramble_lent};
ghost use Rattle.stratify.specs.Answers.{query_tests};

use crate::Block;
use crate::shapes::Shape;
use plan::{LentScramble, Plan, Scramble};
use refusal::Refusal;
use word::INDEX_BITS;

// 2, what loading the flips comes to (17, 18), 4, 5, 6 and 7, in this order. What passes them all is a scramble and a shape.
pub(crate) fn judge(
    lent: LentScramble,
    level: u32,
    m: u32,
    a: u32,
    column: u32,
    row: u32,
    block: Block,
) -> Result<(Scramble, Shape), Refusal>
    ensures scramble { of_result (λ j. j.0) result
        ≡ first (query_tests (scramble_lent lent.entry).flips level m a block column row) (accepted (scramble_lent lent.entry)) }
    ensures shape { IfOk result (λ j. (j.1.m ≡ m) × (j.1.a ≡ a)) }
{
    if Plan::unknown_level(level) {
        return Err(Refusal::Level);
    }
    // No `?`, by which a query of m = 32 takes a sixth longer: it copies the flips once more.
    let scramble = match lent.load() {
        Ok(scramble) => scramble,
        Err(why) => return Err(why),
    };
    if m > level {
        return Err(Refusal::Size);
    }
    if a > m {
        return Err(Refusal::Shape);
    }
    let shape = Shape { m, a };
    if shape.outside(column, row) {
        return Err(Refusal::Cell);
    }
    if (block as u64) >> (INDEX_BITS - m) != 0 {
        return Err(Refusal::Block);
    }
    Ok((scramble, shape))
}
