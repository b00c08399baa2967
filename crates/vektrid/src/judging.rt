// The judgement of a region file.
ghost use Rattle.std.specs.Prelude.{◌≡◌};
ghost use Rattle.refusal.specs.Outcome.{granted};
ghost use Rattle.region_file.specs.Judge.{judge_outcome, judge_stop, no_further_tests};
ghost use Rattle.answers.specs.Answers.{answer_number};

use answers::number_of;

// Whether a file is accepted: 0, or the number of the refusal.
#[unsafe(no_mangle)]
pub extern "C" fn vektrid_judge(file: &[u8]) -> u32
    ensures { result ≡ answer_number (judge_outcome no_further_tests file.now) }
{
    number_of(region_file::judge(file))
}

// The same judgement, and of a refused file also the link at which it stopped.
#[tactic(auto, unfolding(refusal::specs::Outcome::granted))]
#[unsafe(no_mangle)]
pub extern "C" fn vektrid_judge_link(file: &[u8], holder: &mut u32, named: &mut u32) -> u32
    ensures answer { result ≡ answer_number (judge_outcome no_further_tests file.now) }
    ensures holder { holder.new
        ≡ granted (judge_outcome no_further_tests file.now) holder.old
        (judge_stop no_further_tests file.now).holder }
    ensures named { named.new
        ≡ granted (judge_outcome no_further_tests file.now) named.old
        (judge_stop no_further_tests file.now).named }
{
    let judged = region_file::judge_link(file);
    match judged.judgement {
        Ok(()) => 0,
        Err(why) => {
            *holder = judged.link.holder;
            *named = judged.link.named;
            why.number()
        }
    }
}
