// The query of a cell.
ghost use Rattle.std.specs.Prelude.{◌≡◌};
ghost use Rattle.refusal.specs.Outcome.{part_left};
ghost use Rattle.answers.specs.Answers.{answer_number, value_left};
ghost use Rattle.pair_calls.specs.Calls.{scramble_words, pair_query_outcome};

use crate::scrambles::scramble_of_words;
use answers::least_left;
use stratify::Block;
use word::Index;

// The one index of a block in a cell; 3 gives the shape's least index.
#[unsafe(no_mangle)]
pub extern "C" fn vektrid_query(
    words: &[u32],
    shift_x: u32,
    shift_y: u32,
    flips_x: &[u8],
    flips_y: &[u8],
    level: u32,
    m: u32,
    a: u32,
    column: u32,
    row: u32,
    block: Block,
    index: &mut Index,
    j: &mut u32,
) -> u32
    ensures answer { result
        ≡ answer_number (pair_query_outcome words.now
        (scramble_words shift_x shift_y flips_x.now flips_y.now) level m a column row block) }
    ensures index { index.new
        ≡ part_left (pair_query_outcome words.now
        (scramble_words shift_x shift_y flips_x.now flips_y.now) level m a column row block) (λ i. i)
        index.old }
    ensures j { j.new
        ≡ value_left (pair_query_outcome words.now
        (scramble_words shift_x shift_y flips_x.now flips_y.now) level m a column row block) 2 j.old }
{
    let lent = scramble_of_words(shift_x, shift_y, flips_x, flips_y);
    match pair_calls::query(words, lent, level, m, a, column, row, block) {
        Err(why) => {
            *j = least_left(Err(why), *j);
            why.number()
        }
        Ok(found) => {
            *index = found;
            0
        }
    }
}
