// Fills of two lent buffers.
ghost use Rattle.std.specs.Prelude.{◌≡◌};
ghost use Rattle.answers.specs.Answers.{answer_number};
ghost use Rattle.pair_calls.specs.Calls.{scramble_words, pair_fill_outcome, pair_filled};

use crate::scrambles::scramble_of_words;
use answers::number_of;
use word::Index;

// The points of the indexes from start on, into every word of both buffers.
#[unsafe(no_mangle)]
pub extern "C" fn vektrid_fill(
    words: &[u32],
    shift_x: u32,
    shift_y: u32,
    flips_x: &[u8],
    flips_y: &[u8],
    start: Index,
    xs: &mut [u32],
    ys: &mut [u32],
) -> u32
    ensures answer { result
        ≡ answer_number (pair_fill_outcome words.now
        (scramble_words shift_x shift_y flips_x.now flips_y.now) start xs.old ys.old) }
    ensures xs { xs.new
        ≡ (pair_filled words.now (scramble_words shift_x shift_y flips_x.now flips_y.now) start
        xs.old ys.old).x }
    ensures ys { ys.new
        ≡ (pair_filled words.now (scramble_words shift_x shift_y flips_x.now flips_y.now) start
        xs.old ys.old).y }
{
    let lent = scramble_of_words(shift_x, shift_y, flips_x, flips_y);
    number_of(pair_calls::fill(words, lent, start, xs, ys))
}
