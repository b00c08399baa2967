// Points by their indexes.
ghost use Rattle.std.specs.Prelude.{◌≡◌};
ghost use Rattle.refusal.specs.Outcome.{part_left};
ghost use Rattle.plan.specs.Pair.{standard_pair};
ghost use Rattle.plan.specs.Calls.{point_outcome};
ghost use Rattle.answers.specs.Answers.{answer_number};
ghost use Rattle.pair_calls.specs.Calls.{scramble_words, pair_point_outcome};

use crate::scrambles::scramble_of_words;
use plan::Plan;
use word::Index;

// The point of an index, for any pair.
#[unsafe(no_mangle)]
pub extern "C" fn vektrid_point(
    words: &[u32],
    shift_x: u32,
    shift_y: u32,
    flips_x: &[u8],
    flips_y: &[u8],
    index: Index,
    x: &mut u32,
    y: &mut u32,
) -> u32
    ensures answer { result
        ≡ answer_number (pair_point_outcome words.now
        (scramble_words shift_x shift_y flips_x.now flips_y.now) index) }
    ensures x { x.new
        ≡ part_left (pair_point_outcome words.now
        (scramble_words shift_x shift_y flips_x.now flips_y.now) index) (λ p. p.0) x.old }
    ensures y { y.new
        ≡ part_left (pair_point_outcome words.now
        (scramble_words shift_x shift_y flips_x.now flips_y.now) index) (λ p. p.1) y.old }
{
    let lent = scramble_of_words(shift_x, shift_y, flips_x, flips_y);
    match pair_calls::point(words, lent, index) {
        Err(why) => why.number(),
        Ok(at) => {
            *x = at.x;
            *y = at.y;
            0
        }
    }
}

// The point of an index of the standard pair, by its own faster way.
#[unsafe(no_mangle)]
pub extern "C" fn vektrid_standard_point(
    shift_x: u32,
    shift_y: u32,
    flips_x: &[u8],
    flips_y: &[u8],
    index: Index,
    x: &mut u32,
    y: &mut u32,
) -> u32
    ensures answer { result
        ≡ answer_number (point_outcome standard_pair
        (scramble_words shift_x shift_y flips_x.now flips_y.now) index) }
    ensures x { x.new
        ≡ part_left (point_outcome standard_pair
        (scramble_words shift_x shift_y flips_x.now flips_y.now) index) (λ p. p.0) x.old }
    ensures y { y.new
        ≡ part_left (point_outcome standard_pair
        (scramble_words shift_x shift_y flips_x.now flips_y.now) index) (λ p. p.1) y.old }
{
    let lent = scramble_of_words(shift_x, shift_y, flips_x, flips_y);
    match Plan::standard_point(lent, index) {
        Err(why) => why.number(),
        Ok(point) => {
            *x = point.x;
            *y = point.y;
            0
        }
    }
}
