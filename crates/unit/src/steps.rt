// A step of a walk with the point of its visit as singles.
ghost use Rattle.std.specs.Prelude.{◌≡◌};
ghost use Rattle.refusal.specs.Outcome.{part_left, through};
ghost use Rattle.refusal.specs.Refusal.{of_result};
ghost use Rattle.plan.specs.Pair.{scramble_lent};
ghost use Rattle.plan.specs.Walk.{of_walk, answer_of};
ghost use Rattle.unit.specs.Singles.{singles_step_outcome, visit_in_singles};

use crate::Singles;
use plan::{LentScramble, Plan, Point, Visit, Walk};
use refusal::Refusal;

// The next visit as singles, or the end, together with the walk after it: the step of the walk, its words made singles.
pub fn step_singles(
    walk: Walk,
    plan: Plan,
    lent: LentScramble,
) -> (Result<Option<Visit<Singles>>, Refusal>, Walk)
    ensures step { of_result (answer_of (λ v. v)) result.0
        ≡ through (λ t. t.answer) (singles_step_outcome plan (scramble_lent lent.entry) (of_walk walk)) }
    ensures walk { of_walk result.1
        ≡ part_left (singles_step_outcome plan (scramble_lent lent.entry) (of_walk walk)) (λ t. t.walk) (of_walk walk) }
{
    let (given, after) = walk.step(plan, lent);
    let singles = match given {
        Ok(Some(visit)) => Ok(Some(in_singles(visit))),
        Ok(None) => Ok(None),
        Err(why) => Err(why),
    };
    (singles, after)
}

// A visit with its point as singles.
fn in_singles(visit: Visit<Point>) -> Visit<Singles>
    ensures { result ≡ visit_in_singles visit }
{
    Visit {
        index: visit.index,
        at: Singles::from(visit.at),
    }
}
