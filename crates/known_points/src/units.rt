// Unit numbers by their bits.
use crate::shown::single_bits;
use unit::{Precision, Unit};

// No unit number is a NaN, whose bits may be any.
fn bits(number: Unit) -> u64 {
    match number {
        Unit::Single(x) => u64::from(single_bits(x)),
        Unit::Double(x) if x.is_nan() => 0,
        Unit::Double(x) => x.to_bits(),
    }
}

fn unit_line(out: &impl Print, word: u32) {
    let single = bits(unit::coordinate(word, Precision::Single));
    let double = bits(unit::coordinate(word, Precision::Double));
    let _ = println!(out; "{word} {single} {double}");
}

// The words about each power of two, and the last word.
pub fn units(out: &impl Print) {
    let _ = println!(out; "units");
    for bit in 0..32u32 {
        let power = 1u32 << bit;
        unit_line(out, power.wrapping_sub(1));
        unit_line(out, power);
        unit_line(out, power.wrapping_add(1));
    }
    unit_line(out, u32::MAX);
}
