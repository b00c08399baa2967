// Two's complement in 32 bits: std's three conversions between words and the numbers that they stand for. They take every argument.
#![tactic(auto)]

ghost use Rattle.std.specs.Prelude.{◌≡◌, nat_abs};
ghost use Rattle.signed.specs.Words.{cast_signed, cast_unsigned};

// The number that a word stands for: a word below 2^31 for itself, and 2^31 for the lowest number, -2^31.
pub fn cast_signed(word: u32) -> i32
    ensures { result ≡ cast_signed word }
{
    word.cast_signed()
}

// The word that stands for a number.
pub fn cast_unsigned(z: i32) -> u32
    ensures { result ≡ cast_unsigned z }
{
    z.cast_unsigned()
}

// The absolute value. That of the lowest number is 2^31, which no i32 holds: so the answer is unsigned.
pub fn unsigned_abs(z: i32) -> u32
    ensures { result ≡ nat_abs z }
{
    z.unsigned_abs()
}
