// Generator matrices (01: the pair) by value, from words or the standard ones, and the point of an index under a scramble by value.
ghost use Rattle.std.specs.Prelude.{◌≡◌};
ghost use Rattle.net.specs.Sequence.{point};
ghost use Rattle.net.specs.Scrambling.{plain};
ghost use Rattle.refusal.specs.Refusal.{of_judgement, of_result};
ghost use Rattle.plan.specs.Pair.{generators, only_shift, sequence, standard_pair, unknown_level, load_outcome, loaded, plan_load_outcome, of_point};

use crate::{Point, Scramble, Shift};
use refusal::Refusal;
use word::{COLUMNS, Columns, Index};

// The number of words of a pair: the columns of X, then those of Y.
pub const PAIR_WORDS: usize = 2 * COLUMNS;

// Two generator matrices by their columns: column c belongs to index bit c, and row 0 is the top bit of a column.
#[derive(Clone, Copy)]
pub struct Plan {
    pub x: Columns,
    pub y: Columns,
}

impl Plan {
    // The largest level to which matrices can be checked: one for each row.
    pub const LARGEST_LEVEL: u32 = 32;

    // Whether the level is not 1 to the largest.
    pub fn unknown_level(level: u32) -> bool
        ensures { result ≡ (unknown_level level).holds }
    {
        level < 1 || level > Plan::LARGEST_LEVEL
    }

    // Identity and Pascal's triangle modulo 2.
    pub fn standard() -> Plan
        ensures { result ≡ standard_pair }
    {
        Plan {
            x: word::identity_columns(),
            y: word::pascal_columns(),
        }
    }

    // Whether words are a pair, or why they are refused.
    pub fn judge(words: &[u32]) -> Result<(), Refusal>
        ensures { of_judgement result ≡ load_outcome words.now }
    {
        if words.len() != PAIR_WORDS {
            return Err(Refusal::WordCount);
        }
        Ok(())
    }

    // The matrices that 64 words hold, the columns of X first; of words that are refused every column is 0, which no check passes. Callers judge
    // first and take them from here by value: a `Result` with 256 bytes in it would be copied more than once, and every point would pay for that.
    pub fn loaded(words: &[u32]) -> Plan
        ensures { result ≡ loaded words.now }
    {
        if words.len() == PAIR_WORDS {
            return Plan {
                x: word::columns(&words[..COLUMNS]),
                y: word::columns(&words[COLUMNS..]),
            };
        }
        Plan {
            x: [0; COLUMNS],
            y: [0; COLUMNS],
        }
    }

    // The same, or why the words are refused.
    pub fn load(words: &[u32]) -> Result<Plan, Refusal>
        ensures { of_result (λ P. P) result ≡ plan_load_outcome words.now }
    {
        Plan::judge(words)?;
        Ok(Plan::loaded(words))
    }

    // The point of an index: in each axis the product of the matrix with the index, and what follows it.
    pub fn scrambled_point(self, scramble: Scramble, index: Index) -> Point
        ensures { of_point result ≡ point (sequence self scramble) index }
    {
        scramble.scramble(Point {
            x: word::product(self.x, index),
            y: word::product(self.y, index),
        })
    }

    // The products of the standard matrices with an index, by the fast way.
    fn standard_products(index: Index) -> Point
        ensures { of_point result ≡ point (plain (generators standard_pair)) index }
    {
        Point {
            x: word::standard_x(index),
            y: word::standard_y(index),
        }
    }

    // The point of an index of the standard matrices.
    pub fn scrambled_standard_point(scramble: Scramble, index: Index) -> Point
        ensures { of_point result ≡ point (sequence standard_pair scramble) index }
    {
        scramble.scramble(Plan::standard_products(index))
    }

    // The same where nothing is flipped.
    pub fn shifted_standard_point(shift: Shift, index: Index) -> Point
        ensures { of_point result ≡ point (sequence standard_pair (only_shift shift)) index }
    {
        shift.add(Plan::standard_products(index))
    }
}
