// A word as a number from 0 up to 1: its double, its single, and either of them with its kind.
ghost use Rattle.std.specs.Prelude.{◌≡◌};
ghost use Rattle.unit.specs.Word.{double, single_bits, single, unit_number};

use crate::exponents;

// The kind of number that is asked for.
#[derive(Clone, Copy)]
pub enum Precision {
    Single,
    Double,
}

// A unit number, which says its kind.
#[derive(Clone, Copy)]
pub enum Unit {
    Single(f32),
    Double(f64),
}

// The unit number of a word (01: a unit coordinate) in the precision asked for.
pub fn coordinate(word: u32, precision: Precision) -> Unit
    ensures { result ≡ unit_number word precision }
{
    match precision {
        Precision::Single => Unit::Single(single(word)),
        Precision::Double => Unit::Double(double(word)),
    }
}

// The word divided by 2^32. Neither the conversion nor the division loses anything.
pub fn double(word: u32) -> f64
    ensures { result ≡ double word }
{
    word as f64 / 4294967296.0
}

// The largest single not above that quotient.
pub fn single(word: u32) -> f32
    ensures { result ≡ single word }
{
    f32::from_bits(single_bits(word))
}

// The weight of the exponent field, which stands above the 23 stored digits of a single.
const EXPONENT_WEIGHT: u32 = 8388608;

// The bits of that single: sign 0, the exponent field, and the 23 digits of the word after its leading one. A single does not store the
// leading one, and digits after those 23 are cut off. Word 0 has no leading one, and all its bits are 0.
fn single_bits(word: u32) -> u32
    ensures { result ≡ single_bits word }
{
    let z = u32::leading_zeros(word);
    let moved = (word as u64) << z;
    let stored = (moved >> 8) as u32 % EXPONENT_WEIGHT;
    exponents::exponent_field(z) * EXPONENT_WEIGHT + stored
}
