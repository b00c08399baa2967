// The exponent field of a single, a case for each number of leading zeros (C-13), to be held against IEEE 754 by eye.
ghost use Rattle.std.specs.Prelude.{◌≡◌, ◌≤◌};
ghost use Rattle.unit.specs.Parts.{exponent_field};

// The exponent field of the single of a word with z leading zeros. No word has more than 32, so the last arm is never reached.
pub(crate) fn exponent_field(z: u32) -> u32
    requires { z ≤ 32 }
    ensures { result ≡ exponent_field z }
{
    match z {
        0 => 126,
        1 => 125,
        2 => 124,
        3 => 123,
        4 => 122,
        5 => 121,
        6 => 120,
        7 => 119,
        8 => 118,
        9 => 117,
        10 => 116,
        11 => 115,
        12 => 114,
        13 => 113,
        14 => 112,
        15 => 111,
        16 => 110,
        17 => 109,
        18 => 108,
        19 => 107,
        20 => 106,
        21 => 105,
        22 => 104,
        23 => 103,
        24 => 102,
        25 => 101,
        26 => 100,
        27 => 99,
        28 => 98,
        29 => 97,
        30 => 96,
        31 => 95,
        32 => 0,
        _ => 0,
    }
}
