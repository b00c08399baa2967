// The records of a file, word by word. Bytes past its end count as 0, so every number names a record.
ghost use Rattle.std.specs.Prelude.{◌≡◌, get_or};
ghost use Rattle.region_file.specs.Records.{record_word, record_at, first_record, reader_field, record_count};

use plan::Shift;
use signed::cast_signed;
use stage::{Field, Region};

// The bytes of a record.
pub(crate) const RECORD_BYTES: usize = 32;

// The bytes of a word. A record has eight words.
const WORD_BYTES: usize = 4;

// The records of the longest file, record 0 included.
pub const MOST_RECORDS: u32 = 2048;

// A record of the chain: the number of the next record, the region, the digital shift (01: scramble), and the count of visits.
#[derive(Clone, Copy)]
pub struct Record {
    pub next: u32,
    pub region: Region,
    pub shift: Shift,
    pub count: u32,
}

// Byte `at`, or 0 past the end.
fn byte_at(file: &[u8], at: usize) -> u8
    ensures { result ≡ get_or file.now at 0 }
{
    file.get(at).copied().unwrap_or(0)
}

// Word k of record n: four bytes, the lowest first.
#[tactic(auto, unfolding(crate::specs::Records::word_at))]
pub(crate) fn record_word(file: &[u8], n: u32, k: u32) -> u32
    ensures { result ≡ record_word file.now n k }
{
    let at = n as usize * RECORD_BYTES + k as usize * WORD_BYTES;
    u32::from_le_bytes([
        byte_at(file, at),
        byte_at(file, at + 1),
        byte_at(file, at + 2),
        byte_at(file, at + 3),
    ])
}

// The region of record n, its words 1 to 4.
#[tactic(auto, unfolding(crate::specs::Records::record_at))]
fn region_at(file: &[u8], n: u32) -> Region
    ensures { result ≡ (record_at file.now n).region }
{
    Region {
        left: cast_signed(record_word(file, n, 1)),
        top: cast_signed(record_word(file, n, 2)),
        width: record_word(file, n, 3),
        height: record_word(file, n, 4),
    }
}

// Record n. Where the file does not have it, its missing bytes count as 0.
#[tactic(auto, unfolding(crate::specs::Records::record_at))]
pub fn record_at(file: &[u8], n: u32) -> Record
    ensures { result ≡ record_at file.now n }
{
    Record {
        next: record_word(file, n, 0),
        region: region_at(file, n),
        shift: Shift {
            x: record_word(file, n, 5),
            y: record_word(file, n, 6),
        },
        count: record_word(file, n, 7),
    }
}

// The number of the chain's first record, or 0 where the chain has no records.
pub fn first_record(file: &[u8]) -> u32
    ensures { result ≡ first_record file.now }
{
    record_word(file, 0, 0)
}

// The reader's field, words 2 and 3 of record 0.
#[tactic(auto, unfolding(crate::specs::Records::reader_field))]
pub fn reader_field(file: &[u8]) -> Field
    ensures { result ≡ reader_field file.now }
{
    Field {
        width: record_word(file, 0, 2),
        height: record_word(file, 0, 3),
    }
}

// The number of whole records that the bytes hold, record 0 included.
pub fn record_count(file: &[u8]) -> usize
    ensures { result ≡ record_count file.now }
{
    file.len() / RECORD_BYTES
}
