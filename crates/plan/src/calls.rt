// The point of an index under a scramble that a caller lends: its flips are judged once, and then travel by value.
ghost use Rattle.std.specs.Prelude.{◌≡◌};
ghost use Rattle.refusal.specs.Refusal.{of_result};
ghost use Rattle.plan.specs.Pair.{standard_pair, scramble_lent, of_point};
ghost use Rattle.plan.specs.Calls.{point_outcome};

use crate::{LentScramble, Plan, Point};
use refusal::Refusal;
use word::Index;

impl Plan {
    // The point of an index.
    #[tactic(auto, using(refusal::proofs::Results::tested, crate::proofs::Loading::scramble_held))]
    pub fn point(self, lent: LentScramble, index: Index) -> Result<Point, Refusal>
        ensures { of_result of_point result ≡ point_outcome self (scramble_lent lent.entry) index }
    {
        lent.judge()?;
        Ok(self.scrambled_point(lent.loaded(), index))
    }

    // The same of the standard matrices, by the fast way.
    #[tactic(auto, using(refusal::proofs::Results::tested, crate::proofs::Loading::scramble_held))]
    pub fn standard_point(lent: LentScramble, index: Index) -> Result<Point, Refusal>
        ensures { of_result of_point result ≡ point_outcome standard_pair (scramble_lent lent.entry) index }
    {
        lent.judge()?;
        Ok(Plan::scrambled_standard_point(lent.loaded(), index))
    }
}
