// The standard pair, and the check of any pair.
ghost use Rattle.std.specs.Prelude.{◌≡◌};
ghost use Rattle.plan.specs.Pair.{load_outcome};
ghost use Rattle.stratify.specs.Answers.{check_outcome};
ghost use Rattle.answers.specs.Answers.{answer_number, value_left};
ghost use Rattle.pair_calls.specs.Calls.{standard_words};

use answers::number_of;
use refusal::Refusal;

// The standard pair as 64 words.
#[unsafe(no_mangle)]
pub extern "C" fn vektrid_standard_pair(words: &mut [u32]) -> u32
    ensures answer { result ≡ answer_number (load_outcome words.old) }
    ensures words { words.new ≡ standard_words words.old }
{
    number_of(pair_calls::write_standard(words))
}

// Whether a pair passes a level; 3 gives the first bad shape and its least index.
#[unsafe(no_mangle)]
pub extern "C" fn vektrid_check(
    words: &[u32],
    level: u32,
    m: &mut u32,
    a: &mut u32,
    j: &mut u32,
) -> u32
    ensures answer { result ≡ answer_number (check_outcome words.now level) }
    ensures m { m.new ≡ value_left (check_outcome words.now level) 0 m.old }
    ensures a { a.new ≡ value_left (check_outcome words.now level) 1 a.old }
    ensures j { j.new ≡ value_left (check_outcome words.now level) 2 j.old }
{
    let judged = stratify::check(words, level);
    if let Err(
        Refusal::NotNet {
            m: bad_m,
            a: bad_a,
            j: least,
        },
    ) = judged
    {
        *m = bad_m;
        *a = bad_a;
        *j = least;
    }
    number_of(judged)
}
