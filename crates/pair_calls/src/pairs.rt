// The standard pair as 64 words.
ghost use Rattle.std.specs.Prelude.{◌≡◌};
ghost use Rattle.refusal.specs.Refusal.{of_judgement};
ghost use Rattle.plan.specs.Pair.{load_outcome};
ghost use Rattle.pair_calls.specs.Calls.{standard_words};

use plan::{PAIR_WORDS, Plan};
use refusal::Refusal;
use word::COLUMNS;

// Writes the standard pair into 64 words. Another number of words is no pair, and they stay as they were.
pub fn write_standard(words: &mut [u32]) -> Result<(), Refusal>
    ensures answer { of_judgement result ≡ load_outcome words.old }
    ensures words { words.new ≡ standard_words words.old }
{
    if words.len() != PAIR_WORDS {
        return Err(Refusal::WordCount);
    }
    let plan = Plan::standard();
    words[..COLUMNS].copy_from_slice(&plan.x);
    words[COLUMNS..].copy_from_slice(&plan.y);
    Ok(())
}
