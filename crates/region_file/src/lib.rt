// The region file: records of 32 bytes, a chain of them, and the judgement of both. Every call takes any bytes.
#![tactic(auto)]

mod chains;
mod judging;
mod records;

pub use chains::{Judged, Link, on_chain};
pub use judging::{judge, judge_link};
pub use records::{MOST_RECORDS, Record, first_record, reader_field, record_at, record_count};
