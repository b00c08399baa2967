// Walks over a pair's visits: the caller keeps the next index and the number of visits left.
ghost use Rattle.std.specs.Prelude.{◌≡◌, ℕ};
ghost use Rattle.refusal.specs.Outcome.{part_left};
ghost use Rattle.word.specs.Index.{index_count};
ghost use Rattle.plan.specs.Walk.{open_outcome};
ghost use Rattle.answers.specs.Answers.{answer_number, step_words, left_in};
ghost use Rattle.pair_calls.specs.Calls.{scramble_words, pair_step_outcome};

use crate::scrambles::scramble_of_words;
use plan::Walk;
use word::Index;

// A walk over count visits from start on.
#[unsafe(no_mangle)]
pub extern "C" fn vektrid_walk_open(
    start: Index,
    count: u64,
    next: &mut Index,
    left: &mut u64,
) -> u32
    ensures answer { result ≡ answer_number (open_outcome index_count start count) }
    ensures next { next.new ≡ part_left (open_outcome index_count start count) (λ w. w.next) next.old }
    ensures left { left.new ≡ part_left (open_outcome index_count start count) (λ w. w.left) left.old }
{
    match Walk::open(start, count) {
        Err(why) => why.number(),
        Ok(walk) => {
            *next = walk.next;
            *left = walk.left;
            0
        }
    }
}

// A step: the visit, if one was left, and the walk after it.
#[unsafe(no_mangle)]
pub extern "C" fn vektrid_walk_step(
    words: &[u32],
    shift_x: u32,
    shift_y: u32,
    flips_x: &[u8],
    flips_y: &[u8],
    next: &mut Index,
    left: &mut u64,
    given: &mut u32,
    index: &mut Index,
    x: &mut u32,
    y: &mut u32,
) -> u32
    ensures answer { result
        ≡ answer_number (pair_step_outcome words.now
        (scramble_words shift_x shift_y flips_x.now flips_y.now) next.old left.old) }
    ensures words { step_words {P = ℕ × ℕ} next.new left.new given.new index.new (x.new, y.new)
        ≡ left_in (pair_step_outcome words.now
        (scramble_words shift_x shift_y flips_x.now flips_y.now) next.old left.old)
        (λ v. v.index) (λ v. (v.x, v.y))
        (step_words next.old left.old given.old index.old (x.old, y.old)) }
{
    let lent = scramble_of_words(shift_x, shift_y, flips_x, flips_y);
    let start = Walk {
        next: *next,
        left: *left,
    };
    let (stepped, walk) = pair_calls::step(words, start, lent);
    *next = walk.next;
    *left = walk.left;
    match stepped {
        Err(why) => why.number(),
        Ok(None) => {
            *given = 0;
            0
        }
        Ok(Some(visit)) => {
            *given = 1;
            *index = visit.index;
            *x = visit.at.x;
            *y = visit.at.y;
            0
        }
    }
}
