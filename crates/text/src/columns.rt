// Numbers right-aligned in columns.
ghost use Rattle.std.specs.Prelude.{◌≡◌, ◌+◌, ◌-◌, ◌≤◌, length, replicate};
ghost use Rattle.text.specs.Ascii.{blank};
ghost use Rattle.text.specs.Columns.{aligned, longest_aligned};
ghost use Rattle.text.specs.Put.{put, written, end};

use crate::fields::has_room;
use crate::groups::put_byte;
use crate::numerals::Decimal;

// Writes the blanks before a text of so many bytes.
fn put_margin(columns: u32, width: usize, out: &mut [u8], at: usize) -> usize
    requires { at + (columns - width) ≤ length out.old }
    ensures end { result ≡ at + length (replicate (columns - width) blank) }
    ensures text { out.new ≡ put out.old at (replicate (columns - width) blank) }
{
    let end = at + (columns as usize).saturating_sub(width);
    out[at..end].fill(b' ');
    end
}

// Writes a number in decimal, right-aligned in columns, and the byte `last` after them. Room is asked for all columns and the byte after them,
// and for the longest text where that is wider.
pub fn right_number<N: Decimal>(n: N, columns: u32, last: u8, out: &mut [u8], at: usize) -> usize
    ensures end { result ≡ end (longest_aligned columns N.longest) out.old at (aligned columns (N.in_decimal n) last) }
    ensures text { out.new ≡ written (longest_aligned columns N.longest) out.old at (aligned columns (N.in_decimal n) last) }
{
    if !has_room(N::longest().max(columns as usize + 1), out.len(), at) {
        return at;
    }
    let margin = put_margin(columns, n.width(), out, at);
    let next = n.put(out, margin);
    put_byte(last, out, next)
}
