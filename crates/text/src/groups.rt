// Single bytes, and digits two or four at a time, in a buffer that has room for them. A group of digits costs one division of the number,
// where single digits cost one each.
ghost use Rattle.std.specs.Prelude.{◌≡◌, ◌∷◌, [], ◌+◌, ◌*◌, ◌/◌, ◌%◌, ◌≤◌, ◌<◌, length};
ghost use Rattle.text.specs.Decimal.{two_digits, two_digits_word, four_digits};
ghost use Rattle.text.specs.Put.{put};

// Writes one byte.
pub(crate) fn put_byte(b: u8, out: &mut [u8], at: usize) -> usize
    requires { at < length out.old }
    ensures end { result ≡ at + 1 }
    ensures text { out.new ≡ put out.old at (b ∷ []) }
{
    out[at] = b;
    at + 1
}

// The two digits of a number below 100, as a word of two bytes. n * 103 / 1024 is n / 10 for n below 100. With t for n / 10, the digits are
// t and n - 10 t, so the word is 0x3030 + t + 256 (n - 10 t) = 0x3030 + 256 n - 2559 t.
fn two_digits_word(n: u32) -> u32
    requires { n < 100 }
    ensures { result ≡ two_digits_word n }
{
    0x3030 + 256 * n - 2559 * (n * 103 / 1024)
}

// The four digits of a number below 10000, as a word of four bytes. The halves p = n / 100 and q = n % 100 stand 16 bits apart in one word,
// and `two_digits_word` is computed of both at once. In `parts`, q / 10 stands from bit 16 on and p / 10 in the lowest 4 bits.
fn four_digits_word(n: u32) -> u32
    requires { n < 10000 }
    ensures { result ≡ two_digits_word (n / 100) + two_digits_word (n % 100) * 65536 }
{
    let halves = n / 100 + 65536 * (n % 100);
    let parts = halves * 103 / 1024;
    let tens = parts / 65536 * 65536 + parts % 16;
    0x3030_3030 + 256 * halves - 2559 * tens
}

// Writes a number below 100 in two digits.
pub(crate) fn put_two_digits(n: u32, out: &mut [u8], at: usize) -> usize
    requires n_bound { n < 100 }
    requires at_in_bounds { at + 2 ≤ length out.old }
    ensures end { result ≡ at + length (two_digits n) }
    ensures text { out.new ≡ put out.old at (two_digits n) }
{
    let word = two_digits_word(n) as u16;
    out[at..at + 2].copy_from_slice(&word.to_le_bytes());
    at + 2
}

// Writes a number below 10000 in four digits.
pub(crate) fn put_four_digits(n: u32, out: &mut [u8], at: usize) -> usize
    requires n_bound { n < 10000 }
    requires at_in_bounds { at + 4 ≤ length out.old }
    ensures end { result ≡ at + length (four_digits n) }
    ensures text { out.new ≡ put out.old at (four_digits n) }
{
    let word = four_digits_word(n);
    out[at..at + 4].copy_from_slice(&word.to_le_bytes());
    at + 4
}
