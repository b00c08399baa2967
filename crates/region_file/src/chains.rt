// The chain: each link names a record, which is judged whole before the next link is read.
ghost use Rattle.std.specs.Prelude.{◌≡◌, ◌≤◌};
ghost use Rattle.refusal.specs.Refusal.{of_judgement};
ghost use Rattle.region_file.specs.Records.{first_record, record_count, most_records};
ghost use Rattle.region_file.specs.Chain.{on_chain, first_link};
ghost use Rattle.region_file.specs.Judge.{
  no_further_tests,
  record_tests,
  listing_tests,
  record_outcome,
  link_outcome,
  chain_outcome,
  nowhere,
  chain_stop,
};

use crate::records::{MOST_RECORDS, Record, first_record, reader_field, record_at, record_count};
use refusal::Refusal;
use stage::Field;

// The largest count of visits that a record may have.
const MOST_VISITS: u32 = 4096;

// A link of the chain: the record that holds it, and the number that it names. Record 0 holds the first, and the number 0 ends the chain.
#[derive(Clone, Copy, Debug, PartialEq, Eq)]
pub struct Link {
    pub holder: u32,
    pub named: u32,
}

// A judgement together with the link at which it stopped: the one that is refused, or the one that ends the chain; 0 and 0 where it did
// not come to the chain. The link stands beside the result since it is promised of accepted files too.
#[derive(Clone, Copy, Debug, PartialEq, Eq)]
pub struct Judged {
    pub judgement: Result<(), Refusal>,
    pub link: Link,
}

// The tests of a record by itself with the reader's field: 10, 16 and 15. A loader that makes further tests makes them here, after 15.
#[tactic(auto, unfolding(refusal::specs::Outcome::first))]
fn judge_record(named: Record, field: Field) -> Result<(), Refusal>
    ensures { of_judgement result ≡ record_outcome (record_tests no_further_tests field) named }
{
    named.region.judge(field)?;
    if named.count > MOST_VISITS {
        return Err(Refusal::VisitCount);
    }
    Ok(())
}

// The tests of a link that names record n: 13, 14, and then those of the record. `seen`: an earlier link named it.
#[tactic(auto, unfolding(refusal::specs::Outcome::first))]
fn judge_named(file: &[u8], n: u32, seen: bool) -> Result<(), Refusal>
    ensures { of_judgement result ≡ link_outcome (listing_tests file.now) file.now seen n }
{
    if record_count(file) <= n as usize {
        return Err(Refusal::MissingRecord);
    }
    if seen {
        return Err(Refusal::ChainReturns);
    }
    judge_record(record_at(file, n), reader_field(file))
}

// The tests of all links, one link after the other, with a mark for each record that a link has named; past the end of the marks none is.
// The loop ends since each link that passes sets a mark that was not set.
pub(crate) fn judge_chain(file: &[u8]) -> Judged
    requires { record_count file.now ≤ most_records }
    ensures judgement { of_judgement result.judgement
        ≡ chain_outcome (listing_tests file.now) file.now most_records nowhere (first_record file.now) }
    ensures link { result.link
        ≡ chain_stop (listing_tests file.now) file.now most_records nowhere (first_link file.now) }
{
    let mut marks = [false; MOST_RECORDS as usize];
    let mut link = Link {
        holder: 0,
        named: first_record(file),
    };
    while link.named != 0 {
        let n = link.named;
        let seen = marks.get(n as usize).copied().unwrap_or(false);
        if let Err(why) = judge_named(file, n, seen) {
            return Judged {
                judgement: Err(why),
                link,
            };
        }
        marks[n as usize] = true;
        let passed = record_at(file, n);
        link = Link {
            holder: n,
            named: passed.next,
        };
    }
    Judged {
        judgement: Ok(()),
        link,
    }
}

// Whether record n is on the chain of a file. The chain of bytes that are not accepted may return, so at most MOST_RECORDS links are
// followed; an accepted file has no more.
pub fn on_chain(file: &[u8], n: u32) -> bool
    ensures { result ≡ on_chain file.now n }
{
    let mut number = first_record(file);
    for _ in 0..MOST_RECORDS {
        if number == 0 {
            return false;
        }
        if number == n {
            return true;
        }
        number = record_at(file, number).next;
    }
    false
}
