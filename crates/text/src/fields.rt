// The writers that check for room.
ghost use Rattle.std.specs.Prelude.{◌≡◌, [], ◌∷◌, ◌++◌, ◌+◌, ◌≤◌, leb, length};
ghost use Rattle.text.specs.Put.{put, written, end};

use crate::groups::put_byte;
use crate::numerals::Decimal;

// Whether n bytes are left from byte `at` on. The sum of both might not fit its type, so they are subtracted from the length.
pub fn has_room(n: usize, length: usize, at: usize) -> bool
    ensures { result ≡ leb (at + n) length }
{
    n <= length && at <= length - n
}

// Writes a number in decimal and the byte `last` after it.
pub fn number<N: Decimal>(n: N, last: u8, out: &mut [u8], at: usize) -> usize
    ensures end { result ≡ end N.longest out.old at (N.in_decimal n ++ (last ∷ [])) }
    ensures text { out.new ≡ written N.longest out.old at (N.in_decimal n ++ (last ∷ [])) }
{
    if !has_room(N::longest(), out.len(), at) {
        return at;
    }
    let next = n.put(out, at);
    put_byte(last, out, next)
}

// Writes bytes as they are.
pub fn bytes(text: &[u8], out: &mut [u8], at: usize) -> usize
    ensures end { result ≡ end (length text.now) out.old at text.now }
    ensures text { out.new ≡ written (length text.now) out.old at text.now }
{
    if !has_room(text.len(), out.len(), at) {
        return at;
    }
    copy(text, out, at)
}

// Copies bytes into a buffer that has room for them.
fn copy(text: &[u8], out: &mut [u8], at: usize) -> usize
    requires { at + length text.now ≤ length out.old }
    ensures end { result ≡ at + length text.now }
    ensures text { out.new ≡ put out.old at text.now }
{
    let end = at + text.len();
    out[at..end].copy_from_slice(text);
    end
}
