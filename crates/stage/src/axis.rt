// One axis of a region: the limits of its edge and its extent, the reader's field along it, and the position of a coordinate on it.
ghost use Rattle.std.specs.Prelude.{◌≡◌, true, ◌≤◌};
ghost use Rattle.stage.specs.Position.{edge_within, extent_within, offset, position, largest_extent};
ghost use Rattle.stage.specs.Field.{field_extent, fits_in, span};

// An edge lies between these two, in µm.
const SMALLEST_EDGE: i32 = -1000000;

const LARGEST_EDGE: i32 = 1000000;

// The largest width and the largest height, in µm.
const LARGEST_EXTENT: u32 = 1000000;

// A word divided by it is a coordinate of the unit square.
const SCALE: u64 = 4294967296;

// Whether an edge is within its limits.
pub(crate) fn edge_within(edge: i32) -> bool
    ensures { result ≡ edge_within edge }
{
    (SMALLEST_EDGE..=LARGEST_EDGE).contains(&edge)
}

// Whether a width or a height is within its limits.
pub(crate) fn extent_within(extent: u32) -> bool
    ensures { result ≡ extent_within extent }
{
    (1..=LARGEST_EXTENT).contains(&extent)
}

// How far a field reaches along the axis: 0 counts as 1.
#[tactic(auto, unfolding(crate::specs::Field::field_extent))]
fn field_extent(word: u32) -> u32
    ensures { result ≡ field_extent word }
{
    word.max(1)
}

// Whether a field is no larger than the extent.
pub(crate) fn fits_in(extent: u32, word: u32) -> bool
    ensures { result ≡ fits_in extent word }
{
    field_extent(word) <= extent
}

// The number of places that the corner of a field may take: none where the field is larger than the extent. A difference below 0 is
// no place, and does not wrap.
#[tactic(auto, using(crate::proofs::Fit::field_extent_pos))]
pub(crate) fn span(extent: u32, word: u32) -> u32
    ensures { result ≡ span extent word }
{
    extent.saturating_sub(field_extent(word) - 1)
}

// The distance of a coordinate from the edge. The product of two words fits in 64 bits. Both numbers are unsigned, so the division
// rounds down.
fn offset(word: u32, extent: u32) -> u32
    ensures { result ≡ offset extent word }
{
    (u64::from(word) * u64::from(extent) / SCALE) as u32
}

// The position of a coordinate. The division comes before the signed sum: dividing a negative sum would round toward zero, that is up.
pub(crate) fn position(edge: i32, extent: u32, word: u32) -> i32
    requires edge_value { edge_within edge ≡ true }
    requires extent_le_largest_extent { extent ≤ largest_extent }
    ensures { result ≡ position edge extent word }
{
    edge + offset(word, extent) as i32
}
