// The line for a refused file.
ghost use Rattle.std.specs.Prelude.{◌≡◌};
ghost use Rattle.text.specs.Put.{written, end};
ghost use Rattle.listing.specs.Listing.{refused_text, longest_refusal};

// The length of the longest such line: the word with its space, and a number with the byte after it.
const LONGEST_REFUSAL: usize = 8 + text::LONGEST_NUMBER;

// Writes the line, where the longest has room, and hands back where it ends.
pub fn refusal_line(number: u32, out: &mut [u8], at: usize) -> usize
    ensures end { result ≡ end longest_refusal out.old at (refused_text number) }
    ensures text { out.new ≡ written longest_refusal out.old at (refused_text number) }
{
    if !text::has_room(LONGEST_REFUSAL, out.len(), at) {
        return at;
    }
    let next = text::bytes(b"refused ", out, at);
    text::number(number, b'\n', out, next)
}
