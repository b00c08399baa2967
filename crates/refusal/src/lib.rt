// The refusals of document 01's table: the error of every call that may refuse.
#![tactic(auto)]

ghost use Rattle.std.specs.Prelude.{◌≡◌};
ghost use Rattle.refusal.specs.Refusal.{number};

// Why a call refuses, with 01's numbers. A call that hands out nothing else answers `Result<(), Refusal>`.
#[derive(Clone, Copy, Debug, PartialEq, Eq)]
pub enum Refusal {
    // 1: the words are no pair.
    WordCount,
    // 2: the level is unknown.
    Level,
    // 3: not a net: the shape (m, a), and j, the least index above 0 that shares the cell of index 0.
    NotNet { m: u32, a: u32, j: u32 },
    // 4: the size m is above the level.
    Size,
    // 5: a is above m.
    Shape,
    // 6: the column or the row lies outside the shape.
    Cell,
    // 7: the block lies past the last index.
    Block,
    // 8: two buffers differ in length.
    BufferLengths,
    // 9: start and count go past the last index.
    IndexRange,
    // 10: an edge or an extent of a region is outside its limits.
    Region,
    // 11: the file is empty, too long, or not whole records.
    FileLength,
    // 12: bytes of record 0 that must be zero are not.
    ReservedBytes,
    // 13: the chain names a record that the file lacks.
    MissingRecord,
    // 14: the chain returns to a record.
    ChainReturns,
    // 15: too many visits of one record.
    VisitCount,
    // 16: the reader's field is wider or taller than a region.
    Field,
    // 17: the flips of an axis are not 32 bytes.
    FlipBytes,
    // 18: flip bit 255 of an axis is set, which belongs to no bit of a coordinate.
    FlipBit,
}

impl Refusal {
    // The number in 01's table.
    pub fn number(self) -> u32
        ensures { result ≡ number self }
    {
        match self {
            Refusal::WordCount => 1,
            Refusal::Level => 2,
            Refusal::NotNet { m: _, a: _, j: _ } => 3,
            Refusal::Size => 4,
            Refusal::Shape => 5,
            Refusal::Cell => 6,
            Refusal::Block => 7,
            Refusal::BufferLengths => 8,
            Refusal::IndexRange => 9,
            Refusal::Region => 10,
            Refusal::FileLength => 11,
            Refusal::ReservedBytes => 12,
            Refusal::MissingRecord => 13,
            Refusal::ChainReturns => 14,
            Refusal::VisitCount => 15,
            Refusal::Field => 16,
            Refusal::FlipBytes => 17,
            Refusal::FlipBit => 18,
        }
    }
}
