// The range of the indexes. The type of an index and the number of columns of a generator matrix stand here and nowhere else.
ghost use Rattle.std.specs.Prelude.{◌≡◌};
ghost use Rattle.word.specs.Index.{index_count, goes_past};

// The index of a visit.
pub type Index = u32;

// The number of bits of an index.
pub const INDEX_BITS: u32 = Index::BITS;

// The index of the last visit that a plan has.
pub const LAST_INDEX: Index = Index::MAX;

// A generator matrix has a column for each bit of an index.
pub const COLUMNS: usize = INDEX_BITS as usize;

// The columns of a generator matrix; the top bit of a column is row 0.
pub type Columns = [u32; COLUMNS];

// Whether count indexes from start on go past the last index. The sum is compared without being made, since it may not fit.
pub fn goes_past(start: Index, count: u64) -> bool
    ensures { result ≡ goes_past index_count start count }
{
    count > u64::from(LAST_INDEX - start) + 1
}
