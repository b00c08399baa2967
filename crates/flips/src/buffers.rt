// A buffer of products flipped and shifted in place: the flips are read 255 times, and not once for each word.
ghost use Rattle.std.specs.Prelude.{◌≡◌, map};
ghost use Rattle.flips.specs.Scramble.{scramble_word};

use crate::AxisFlips;
use crate::words::masks;

// Makes the flips and adds the shift in every word.
pub fn scramble_all(flips: AxisFlips, shift: u32, words: &mut [u32])
    ensures { words.new ≡ map (scramble_word flips shift) words.old }
{
    let masks = masks(flips, shift);
    for word in words.iter_mut() {
        *word ^= masks[(*word / 16777216) as usize];
    }
}
