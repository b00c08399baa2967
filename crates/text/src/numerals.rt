// Numbers in decimal and their signs, in a buffer that has room for them.
ghost use Rattle.std.specs.Prelude.{◌≡◌, List, ℕ, ◌+◌, ◌≤◌, ◌<◌, length};
ghost use Rattle.text.specs.Decimal.{decimal, signed_decimal, sign, longest_number, longest_signed};
ghost use Rattle.text.specs.Put.{put};

use crate::groups::{put_byte, put_four_digits, put_two_digits};
use signed::unsigned_abs;

// Ten digits and the byte after them.
pub const LONGEST_NUMBER: usize = 11;

// A sign, ten digits and the byte after them.
pub const LONGEST_SIGNED: usize = 12;

// A number that is written in decimal, as its text says. Other crates cannot name it: its `put` asks for room, and no function that they call does.
pub trait Decimal: Copy {
    ghost in_decimal: { Self → List ℕ };

    ghost longest: { ℕ };

    // The length of the longest text with the byte after it. `fits` is no law, since the proof of a law would have to stand in specs/.
    fn longest() -> usize
        ensures value { result ≡ longest }
        ensures fits { (n : Self) → length (in_decimal n) < longest };

    // How many bytes the text has.
    fn width(self) -> usize
        ensures { result ≡ length (in_decimal self) };

    // Writes the text.
    fn put(self, out: &mut [u8], at: usize) -> usize
        requires { at + length (in_decimal self) ≤ length out.old }
        ensures end { result ≡ at + length (in_decimal self) }
        ensures text { out.new ≡ put out.old at (in_decimal self) };
}

impl Decimal for u32 {
    ghost in_decimal = { decimal };

    ghost longest = { longest_number };

    fn longest() -> usize {
        LONGEST_NUMBER
    }

    fn width(self) -> usize {
        digit_count(self)
    }

    fn put(self, out: &mut [u8], at: usize) -> usize {
        put_decimal(self, out, at)
    }
}

// A minus sign stands before a negative number.
impl Decimal for i32 {
    ghost in_decimal = { signed_decimal };

    ghost longest = { longest_signed };

    fn longest() -> usize {
        LONGEST_SIGNED
    }

    fn width(self) -> usize {
        let digits = digit_count(unsigned_abs(self));
        if self < 0 {
            return digits + 1;
        }
        digits
    }

    fn put(self, out: &mut [u8], at: usize) -> usize {
        let next = put_sign(self, out, at);
        put_decimal(unsigned_abs(self), out, next)
    }
}

// How many digits a number has. Comparisons cost less than divisions and, as measured, than `ilog10`, and the fewer of them the likely numbers
// need, the better: record and index have up to four digits, positions mostly five to seven.
fn digit_count(n: u32) -> usize
    ensures { result ≡ length (decimal n) }
{
    if n < 10000 {
        if n >= 1000 {
            return 4;
        }
        if n >= 100 {
            return 3;
        }
        if n >= 10 {
            return 2;
        }
        return 1;
    }
    if n < 1000000 {
        if n < 100000 {
            return 5;
        }
        return 6;
    }
    if n < 10000000 {
        return 7;
    }
    if n < 100000000 {
        return 8;
    }
    if n < 1000000000 {
        return 9;
    }
    10
}

// Writes a number of at most two digits.
fn put_up_to_two(n: u32, out: &mut [u8], at: usize) -> usize
    requires n_bound { n < 100 }
    requires n_in_bounds { at + length (decimal n) ≤ length out.old }
    ensures end { result ≡ at + length (decimal n) }
    ensures text { out.new ≡ put out.old at (decimal n) }
{
    if n < 10 {
        return put_byte(b'0' + n as u8, out, at);
    }
    put_two_digits(n, out, at)
}

// Writes a number of at most four digits.
fn put_up_to_four(n: u32, out: &mut [u8], at: usize) -> usize
    requires n_bound { n < 10000 }
    requires n_in_bounds { at + length (decimal n) ≤ length out.old }
    ensures end { result ≡ at + length (decimal n) }
    ensures text { out.new ≡ put out.old at (decimal n) }
{
    if n < 100 {
        return put_up_to_two(n, out, at);
    }
    let next = put_up_to_two(n / 100, out, at);
    put_two_digits(n % 100, out, next)
}

// Writes a number: its highest digits, at most four of them, and the others in groups of four.
fn put_decimal(n: u32, out: &mut [u8], at: usize) -> usize
    requires { at + length (decimal n) ≤ length out.old }
    ensures end { result ≡ at + length (decimal n) }
    ensures text { out.new ≡ put out.old at (decimal n) }
{
    if n < 10000 {
        return put_up_to_four(n, out, at);
    }
    let upper = n / 10000;
    if upper < 10000 {
        let next = put_up_to_four(upper, out, at);
        return put_four_digits(n % 10000, out, next);
    }
    let second = put_up_to_four(upper / 10000, out, at);
    let third = put_four_digits(upper % 10000, out, second);
    put_four_digits(n % 10000, out, third)
}

// Writes a minus sign for a negative number, and nothing for another.
fn put_sign(z: i32, out: &mut [u8], at: usize) -> usize
    requires { at + length (sign z) ≤ length out.old }
    ensures end { result ≡ at + length (sign z) }
    ensures text { out.new ≡ put out.old at (sign z) }
{
    if z < 0 {
        return put_byte(b'-', out, at);
    }
    at
}
