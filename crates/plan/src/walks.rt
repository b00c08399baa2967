// A walk over visits, stepped by value: a step hands back the visit or the end, together with the walk after it.
ghost use Rattle.std.specs.Prelude.{◌≡◌};
ghost use Rattle.refusal.specs.Outcome.{part_left, through};
ghost use Rattle.refusal.specs.Refusal.{of_result};
ghost use Rattle.word.specs.Index.{index_count};
ghost use Rattle.plan.specs.Pair.{scramble_lent};
ghost use Rattle.plan.specs.Walk.{open_outcome, step_outcome, of_walk, of_visit, answer_of};

use crate::{LentScramble, Plan, Point};
use refusal::Refusal;
use word::{Index, LAST_INDEX};

// The next index, and how many visits are left (01's word; the field: a cursor).
#[derive(Clone, Copy)]
pub struct Walk {
    pub next: Index,
    pub left: u64,
}

// An index with its point, which is two words, or what is made of them.
#[derive(Clone, Copy)]
pub struct Visit<P> {
    pub index: Index,
    pub at: P,
}

impl Walk {
    // A walk over count visits from start on.
    pub fn open(start: Index, count: u64) -> Result<Walk, Refusal>
        ensures { of_result of_walk result ≡ open_outcome index_count start count }
    {
        if word::goes_past(start, count) {
            return Err(Refusal::IndexRange);
        }
        Ok(Walk {
            next: start,
            left: count,
        })
    }

    // The next visit, or the end, together with the walk after it, for any walk, also one made by hand. A refused step hands the walk back as it
    // was, and bad flips are refused also where the walk has ended. At the last index a walk ends where it is, since there is no next one.
    pub fn step(
        self,
        plan: Plan,
        lent: LentScramble,
    ) -> (Result<Option<Visit<Point>>, Refusal>, Walk)
        ensures step { of_result (answer_of of_visit) result.0
            ≡ through (λ t. t.answer) (step_outcome plan (scramble_lent lent.entry) (of_walk self)) }
        ensures walk { of_walk result.1
            ≡ part_left (step_outcome plan (scramble_lent lent.entry) (of_walk self)) (λ t. t.walk) (of_walk self) }
    {
        let Walk { next, left } = self;
        if let Err(why) = lent.judge() {
            return (Err(why), self);
        }
        if left == 0 {
            return (Ok(None), self);
        }
        let at = plan.scrambled_point(lent.loaded(), next);
        let visit = Visit { index: next, at };
        if next == LAST_INDEX {
            return (Ok(Some(visit)), Walk { next, left: 0 });
        }
        let after = Walk {
            next: next + 1,
            left: left - 1,
        };
        (Ok(Some(visit)), after)
    }
}
