// A region of the stage, the reader's field, and the positions of points in the region.
ghost use Rattle.std.specs.Prelude.{◌≡◌};
ghost use Rattle.refusal.specs.Outcome.{accepted, first};
ghost use Rattle.refusal.specs.Refusal.{of_judgement, of_result};
ghost use Rattle.stage.specs.Region.{within, takes, position_tests, corners, corner_outcome, position_outcome};

use crate::axis;
use refusal::Refusal;

// A rectangle, in µm. y grows downward.
#[derive(Clone, Copy, Debug, PartialEq, Eq)]
pub struct Region {
    pub left: i32,
    pub top: i32,
    pub width: u32,
    pub height: u32,
}

// What the reader sees at one position, in µm. 0 counts as 1.
#[derive(Clone, Copy, Debug, PartialEq, Eq)]
pub struct Field {
    pub width: u32,
    pub height: u32,
}

// Where the stage moves for a visit, in µm: the corner of the reader's field.
#[derive(Clone, Copy, Debug, PartialEq, Eq)]
pub struct Position {
    pub x: i32,
    pub y: i32,
}

impl Region {
    // Whether both edges and both extents are within their limits.
    #[tactic(auto, unfolding(crate::specs::Region::within))]
    pub fn within(self) -> bool
        ensures { result ≡ within self }
    {
        axis::edge_within(self.left)
            && axis::edge_within(self.top)
            && axis::extent_within(self.width)
            && axis::extent_within(self.height)
    }

    // Whether the field is neither wider nor taller than the region.
    #[tactic(auto, unfolding(crate::specs::Region::takes))]
    fn takes(self, field: Field) -> bool
        ensures { result ≡ takes field self }
    {
        axis::fits_in(self.width, field.width) && axis::fits_in(self.height, field.height)
    }

    // The tests of a region and a field: 10 where the region is outside its limits, and then 16 where the field is too large for it.
    #[tactic(auto, unfolding(refusal::specs::Outcome::first))]
    pub fn judge(self, field: Field) -> Result<(), Refusal>
        ensures { of_judgement result ≡ first (position_tests field self) (accepted tt) }
    {
        if !self.within() {
            Err(Refusal::Region)
        } else if !self.takes(field) {
            Err(Refusal::Field)
        } else {
            Ok(())
        }
    }

    // The region of the places that the corner of the field may take. It is empty where the field is too large.
    #[tactic(auto, unfolding(crate::specs::Region::corners))]
    pub fn corners(self, field: Field) -> Region
        ensures { result ≡ corners field self }
    {
        Region {
            left: self.left,
            top: self.top,
            width: axis::span(self.width, field.width),
            height: axis::span(self.height, field.height),
        }
    }

    // 01's position call: where the point with coordinate words x and y lies in the region, or 10 where that is outside its limits. Asked of
    // the places that the corner of a field may take, it gives the corner.
    #[tactic(auto, unfolding(refusal::specs::Outcome::first))]
    pub fn corner(self, x: u32, y: u32) -> Result<Position, Refusal>
        ensures { of_result (λ p. p) result ≡ corner_outcome self x y }
    {
        if !self.within() {
            return Err(Refusal::Region);
        }
        Ok(Position {
            x: axis::position(self.left, self.width, x),
            y: axis::position(self.top, self.height, y),
        })
    }

    // The position of the point with coordinate words x and y, so that the whole field lies in the region. 10 where the region is outside its
    // limits, and else 16 where the field is too large for it.
    #[tactic(auto, using(refusal::proofs::Results::stops))]
    pub fn position(self, field: Field, x: u32, y: u32) -> Result<Position, Refusal>
        ensures { of_result (λ p. p) result ≡ position_outcome field self x y }
    {
        self.judge(field)?;
        self.corners(field).corner(x, y)
    }
}
