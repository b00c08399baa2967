// The highest bits of a word, and two numbers joined into one.
ghost use Rattle.std.specs.Prelude.{◌≡◌, ◌+◌, ◌-◌, ◌*◌, ◌/◌, ◌%◌, ◌^◌};

// The t highest bits of a word; all of them where t is 32 or more. It is shifted in 64 bits, since t may be 0 and a word of 32 bits cannot
// be shifted by 32.
pub fn top(word: u32, t: u32) -> u32
    ensures { result ≡ word / 2 ^ (32 - t) }
{
    if t >= u32::BITS {
        return word;
    }
    (u64::from(word) >> (u32::BITS - t)) as u32
}

// The number with the digits of high above width digits of low, in 32 bits.
pub fn join(high: u32, low: u32, width: u32) -> u32
    ensures { result ≡ (high * 2 ^ width + low) % 2 ^ 32 }
{
    if width >= u32::BITS {
        return low;
    }
    (high << width).wrapping_add(low)
}
