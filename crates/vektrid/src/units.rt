// Unit numbers: of a word, and as singles those of a point and of a step.
ghost use Rattle.std.specs.Prelude.{◌≡◌};
ghost use Rattle.refusal.specs.Outcome.{part_left};
ghost use Rattle.unit.specs.Word.{double, single};
ghost use Rattle.answers.specs.Answers.{answer_number, step_words, left_in};
ghost use Rattle.pair_calls.specs.Calls.{scramble_words, pair_singles_outcome, two_singles, pair_singles_step_outcome};

use crate::scrambles::scramble_of_words;
use plan::Walk;
use word::Index;

// A word divided by 2^32, exactly.
#[unsafe(no_mangle)]
pub extern "C" fn vektrid_double(word: u32) -> f64
    ensures { result ≡ double word }
{
    unit::double(word)
}

// The largest single that is not above a word divided by 2^32.
#[unsafe(no_mangle)]
pub extern "C" fn vektrid_single(word: u32) -> f32
    ensures { result ≡ single word }
{
    unit::single(word)
}

// The point as two singles, for any pair.
#[unsafe(no_mangle)]
pub extern "C" fn vektrid_point_singles(
    words: &[u32],
    shift_x: u32,
    shift_y: u32,
    flips_x: &[u8],
    flips_y: &[u8],
    index: Index,
    x: &mut f32,
    y: &mut f32,
) -> u32
    ensures answer { result
        ≡ answer_number (pair_singles_outcome words.now
        (scramble_words shift_x shift_y flips_x.now flips_y.now) index) }
    ensures x { x.new
        ≡ part_left (pair_singles_outcome words.now
        (scramble_words shift_x shift_y flips_x.now flips_y.now) index) (λ p. p.x) x.old }
    ensures y { y.new
        ≡ part_left (pair_singles_outcome words.now
        (scramble_words shift_x shift_y flips_x.now flips_y.now) index) (λ p. p.y) y.old }
{
    let lent = scramble_of_words(shift_x, shift_y, flips_x, flips_y);
    match pair_calls::point_singles(words, lent, index) {
        Err(why) => why.number(),
        Ok(at) => {
            *x = at.x;
            *y = at.y;
            0
        }
    }
}

// A step of a walk with the point of its visit as two singles.
#[unsafe(no_mangle)]
pub extern "C" fn vektrid_walk_step_singles(
    words: &[u32],
    shift_x: u32,
    shift_y: u32,
    flips_x: &[u8],
    flips_y: &[u8],
    next: &mut Index,
    left: &mut u64,
    given: &mut u32,
    index: &mut Index,
    x: &mut f32,
    y: &mut f32,
) -> u32
    ensures answer { result
        ≡ answer_number (pair_singles_step_outcome words.now
        (scramble_words shift_x shift_y flips_x.now flips_y.now) next.old left.old) }
    ensures words { step_words next.new left.new given.new index.new (two_singles x.new y.new)
        ≡ left_in (pair_singles_step_outcome words.now
        (scramble_words shift_x shift_y flips_x.now flips_y.now) next.old left.old)
        (λ v. v.index) (λ v. v.at)
        (step_words next.old left.old given.old index.old
        (two_singles x.old y.old)) }
{
    let lent = scramble_of_words(shift_x, shift_y, flips_x, flips_y);
    let start = Walk {
        next: *next,
        left: *left,
    };
    let (stepped, walk) = pair_calls::step_singles(words, start, lent);
    *next = walk.next;
    *left = walk.left;
    match stepped {
        Err(why) => why.number(),
        Ok(None) => {
            *given = 0;
            0
        }
        Ok(Some(visit)) => {
            *given = 1;
            *index = visit.index;
            *x = visit.at.x;
            *y = visit.at.y;
            0
        }
    }
}
