// Both coordinates of a visit as singles, travelling together.
ghost use Rattle.std.specs.Prelude.{◌≡◌};
ghost use Rattle.refusal.specs.Refusal.{of_result};
ghost use Rattle.plan.specs.Pair.{scramble_lent, of_point};
ghost use Rattle.unit.specs.Singles.{singles_of, singles_outcome};

use crate::single;
use plan::{LentScramble, Plan, Point};
use refusal::Refusal;
use word::Index;

// The two coordinates as singles.
#[derive(Clone, Copy)]
pub struct Singles {
    pub x: f32,
    pub y: f32,
}

impl From<Point> for Singles {
    ghost from_gives = { λ at singles. singles ≡ singles_of (of_point at) };

    fn from(at: Point) -> Singles {
        Singles {
            x: single(at.x),
            y: single(at.y),
        }
    }
}

// The singles of an index, or why there are none.
pub fn singles_at(plan: Plan, lent: LentScramble, index: Index) -> Result<Singles, Refusal>
    ensures { of_result (λ s. s) result ≡ singles_outcome plan (scramble_lent lent.entry) index }
{
    let at = plan.point(lent, index)?;
    Ok(Singles::from(at))
}
