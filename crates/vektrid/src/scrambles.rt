// A scramble as C lends it: two shift words, and the bytes of the flips of both axes.
ghost use Rattle.std.specs.Prelude.{◌≡◌};
ghost use Rattle.plan.specs.Pair.{scramble_lent};
ghost use Rattle.pair_calls.specs.Calls.{scramble_words};

use plan::{LentScramble, Shift};

pub(crate) fn scramble_of_words<'a>(
    shift_x: u32,
    shift_y: u32,
    flips_x: &'a [u8],
    flips_y: &'a [u8],
) -> LentScramble<'a>
    ensures { scramble_lent result ≡ scramble_words shift_x shift_y flips_x.now flips_y.now }
{
    LentScramble {
        shift: Shift {
            x: shift_x,
            y: shift_y,
        },
        flips_x,
        flips_y,
    }
}
