// Points, and what follows the products: the flips of each axis, and then its digital shift.
ghost use Rattle.std.specs.Prelude.{◌≡◌};
ghost use Rattle.net.specs.Scrambling.{scrambled_point};
ghost use Rattle.refusal.specs.Refusal.{of_judgement, of_result};
ghost use Rattle.flips.specs.Load.{flips_outcome};
ghost use Rattle.plan.specs.Pair.{scrambling, only_shift, scramble_lent, scramble_loaded, scramble_load_outcome, of_point};

use flips::Flips;
use refusal::Refusal;

// The two coordinates of a visit.
#[derive(Clone, Copy)]
pub struct Point {
    pub x: u32,
    pub y: u32,
}

// A digital shift (01: scramble): a word for each axis, added without carries.
#[derive(Clone, Copy)]
pub struct Shift {
    pub x: u32,
    pub y: u32,
}

// All that follows the products: flips, and then a shift.
#[derive(Clone, Copy)]
pub struct Scramble {
    pub shift: Shift,
    pub flips: Flips,
}

// A scramble as a caller lends it: the shift, and the bytes of the flips of both axes, which are judged when it is loaded.
#[derive(Clone, Copy)]
pub struct LentScramble<'a> {
    pub shift: Shift,
    pub flips_x: &'a [u8],
    pub flips_y: &'a [u8],
}

impl<'a> LentScramble<'a> {
    // Whether its flips are flips, or why they are refused.
    pub fn judge(self) -> Result<(), Refusal>
        ensures { of_judgement result ≡ flips_outcome (scramble_lent self.entry).flips }
    {
        Flips::judge(self.flips_x, self.flips_y)
    }

    // The scramble by value; where its flips are refused, no flip is set. Callers judge first, as with `Flips::loaded`.
    pub fn loaded(self) -> Scramble
        ensures { result ≡ scramble_loaded (scramble_lent self.entry) }
    {
        Scramble {
            shift: self.shift,
            flips: Flips::loaded(self.flips_x, self.flips_y),
        }
    }

    // The same, or why its flips are refused.
    #[tactic(auto, using(refusal::proofs::Results::tested, crate::proofs::Loading::scramble_held))]
    pub fn load(self) -> Result<Scramble, Refusal>
        ensures { of_result (λ s. s) result ≡ scramble_load_outcome (scramble_lent self.entry) }
    {
        self.judge()?;
        Ok(self.loaded())
    }
}

impl Shift {
    // The point of two products where nothing is flipped.
    pub fn add(self, products: Point) -> Point
        ensures { of_point result ≡ scrambled_point (scrambling (only_shift self)) (of_point products) }
    {
        Point {
            x: products.x ^ self.x,
            y: products.y ^ self.y,
        }
    }
}

impl Scramble {
    // A shift without flips.
    pub fn of_shift(shift: Shift) -> Scramble
        ensures { result ≡ only_shift shift }
    {
        Scramble {
            shift,
            flips: Flips::none(),
        }
    }

    // The point of two products. Most plans have no flips, and then the shift alone is left.
    pub fn scramble(self, products: Point) -> Point
        ensures { of_point result ≡ scrambled_point (scrambling self) (of_point products) }
    {
        if self.flips.none_set() {
            return self.shift.add(products);
        }
        Point {
            x: flips::scramble(self.flips.x, self.shift.x, products.x),
            y: flips::scramble(self.flips.y, self.shift.y, products.y),
        }
    }
}
