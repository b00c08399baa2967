// The judgement of a whole file.
ghost use Rattle.std.specs.Prelude.{◌≡◌, ◌+◌, ◌≤◌, length};
ghost use Rattle.refusal.specs.Refusal.{of_judgement};
ghost use Rattle.region_file.specs.Records.{zeros};
ghost use Rattle.region_file.specs.Judge.{whole, no_further_tests, head_outcome, judge_outcome, judge_stop};

use crate::chains::{Judged, Link, judge_chain};
use crate::records::{RECORD_BYTES, record_word};
use plan::Plan;
use refusal::Refusal;

// The bytes of the longest file.
const MOST_BYTES: usize = 65536;

// The first reserved byte of record 0. The four words that record 0 uses stand before it.
const RESERVED_START: usize = 16;

// The number of reserved bytes.
const RESERVED_BYTES: usize = 16;

// Whether `count` bytes are zero, the first of which is byte `start`.
fn zeros(file: &[u8], start: usize, count: usize) -> bool
    requires { start + count ≤ length file.now }
    ensures { result ≡ zeros file.now start count }
{
    file[start..start + count].iter().all(|b| *b == 0)
}

// Whether so many bytes are a whole file: not empty, not longer than the longest file, and whole records.
#[tactic(auto, unfolding(crate::specs::Judge::whole))]
fn is_whole(length: usize) -> bool
    ensures { result ≡ whole length }
{
    (1..=MOST_BYTES).contains(&length) && length % RECORD_BYTES == 0
}

// The tests of the file and its record 0, in their order: 11, 2 and 12.
#[tactic(auto, unfolding(refusal::specs::Outcome::first))]
fn judge_head(file: &[u8]) -> Result<(), Refusal>
    ensures { of_judgement result ≡ head_outcome file.now }
{
    if !is_whole(file.len()) {
        return Err(Refusal::FileLength);
    }
    if Plan::unknown_level(record_word(file, 0, 1)) {
        return Err(Refusal::Level);
    }
    if !zeros(file, RESERVED_START, RESERVED_BYTES) {
        return Err(Refusal::ReservedBytes);
    }
    Ok(())
}

// The judgement of any bytes as the listing makes it, 11, 2, 12, then at each link 13, 14, 10, 16, 15; and the link at which it stopped.
pub fn judge_link(file: &[u8]) -> Judged
    ensures judgement { of_judgement result.judgement ≡ judge_outcome no_further_tests file.now }
    ensures link { result.link ≡ judge_stop no_further_tests file.now }
{
    match judge_head(file) {
        Err(why) => Judged {
            judgement: Err(why),
            link: Link {
                holder: 0,
                named: 0,
            },
        },
        Ok(()) => judge_chain(file),
    }
}

// The judgement alone.
pub fn judge(file: &[u8]) -> Result<(), Refusal>
    ensures { of_judgement result ≡ judge_outcome no_further_tests file.now }
{
    judge_link(file).judgement
}
