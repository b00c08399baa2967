// The overview of many cells.
ghost use Rattle.std.specs.Prelude.{◌≡◌};
ghost use Rattle.refusal.specs.Outcome.{part_left};
ghost use Rattle.answers.specs.Answers.{answer_number, value_left};
ghost use Rattle.pair_calls.specs.Calls.{scramble_words, pair_overview_outcome};

use crate::scrambles::scramble_of_words;
use answers::{least_left, number_of};
use stratify::Block;
use word::Index;

// The index of a block in each of many cells of one shape; 3 gives the shape's least index.
#[tactic(auto, using(answers::proofs::Outcomes::number_then, answers::proofs::Outcomes::value_then))]
#[unsafe(no_mangle)]
pub extern "C" fn vektrid_overview(
    words: &[u32],
    shift_x: u32,
    shift_y: u32,
    flips_x: &[u8],
    flips_y: &[u8],
    level: u32,
    m: u32,
    a: u32,
    block: Block,
    columns: &[u32],
    rows: &[u32],
    answers: &mut [Index],
    j: &mut u32,
) -> u32
    ensures answer { result
        ≡ answer_number
        (pair_overview_outcome words.now (scramble_words shift_x shift_y flips_x.now flips_y.now) level m
        a block columns.now rows.now answers.old) }
    ensures answers { answers.new
        ≡ part_left
        (pair_overview_outcome words.now (scramble_words shift_x shift_y flips_x.now flips_y.now) level m
        a block columns.now rows.now answers.old) (λ is. is) answers.old }
    ensures j { j.new
        ≡ value_left
        (pair_overview_outcome words.now (scramble_words shift_x shift_y flips_x.now flips_y.now) level m
        a block columns.now rows.now answers.old) 2 j.old }
{
    let lent = scramble_of_words(shift_x, shift_y, flips_x, flips_y);
    let judged = pair_calls::overview(words, lent, level, m, a, block, columns, rows, answers);
    *j = least_left(judged, *j);
    number_of(judged)
}
