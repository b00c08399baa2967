// A fill: the points of consecutive indexes, written into two lent buffers.
ghost use Rattle.std.specs.Prelude.{◌≡◌, map, ◌+◌, ◌≤◌, length};
ghost use Rattle.ranges.specs.Range.{range};
ghost use Rattle.net.specs.Scrambling.{coordinate};
ghost use Rattle.refusal.specs.Refusal.{of_judgement};
ghost use Rattle.word.specs.Index.{index_count};
ghost use Rattle.flips.specs.Scramble.{scramble_word};
ghost use Rattle.plan.specs.Pair.{sequence, scramble_lent};
ghost use Rattle.plan.specs.Fill.{fill_outcome, filled};

use crate::{LentScramble, Plan, Scramble};
use flips::{AxisFlips, Flips};
use refusal::Refusal;
use word::{Columns, Index};

// Writes one coordinate of the indexes from start on. Without flips one word, the shift, is added to every product; with flips the word that is
// added hangs on the top byte of the product.
fn fill_axis(columns: Columns, flips: AxisFlips, shift: u32, start: Index, out: &mut [u32])
    requires { start + length out.old ≤ index_count }
    ensures { out.new ≡ map (coordinate 2 columns (scramble_word flips shift)) (range start (length out.old)) }
{
    if flips::none_set(flips) {
        products::fill(columns, shift, start, out);
        return;
    }
    let masks = flips::masks(flips, shift);
    products::fill_masked(columns, masks, start, out);
}

// The same for a long buffer under flips.
fn fill_long_axis(columns: Columns, flips: AxisFlips, shift: u32, start: Index, out: &mut [u32])
    requires { start + length out.old ≤ index_count }
    ensures { out.new ≡ map (coordinate 2 columns (scramble_word flips shift)) (range start (length out.old)) }
{
    let masks = flips::masks(flips, shift);
    products::fill_by_tables(columns, masks, start, out);
}

// Writes both coordinates of the indexes from start on.
fn fill_axes(plan: Plan, scramble: Scramble, start: Index, xs: &mut [u32], ys: &mut [u32])
    requires { (start + length xs.old ≤ index_count) × (start + length ys.old ≤ index_count) }
    ensures first { xs.new ≡ map (coordinate 2 plan.x (scramble_word scramble.flips.x scramble.shift.x)) (range start (length xs.old)) }
    ensures second { ys.new ≡ map (coordinate 2 plan.y (scramble_word scramble.flips.y scramble.shift.y)) (range start (length ys.old)) }
{
    let Scramble { shift, flips } = scramble;
    if long_under_flips(flips, xs.len()) {
        fill_long_axis(plan.x, flips.x, shift.x, start, xs);
        fill_long_axis(plan.y, flips.y, shift.y, start, ys);
    } else {
        fill_axis(plan.x, flips.x, shift.x, start, xs);
        fill_axis(plan.y, flips.y, shift.y, start, ys);
    }
}

// Whether a fill of n points takes tables. Either way it writes the same.
fn long_under_flips(flips: Flips, n: usize) -> bool {
    !flips.none_set() && n >= products::LONG
}

// Writes the points of the indexes from start on, as many as the buffers have room for. A refused call writes nothing.
pub fn fill(
    plan: Plan,
    lent: LentScramble,
    start: Index,
    xs: &mut [u32],
    ys: &mut [u32],
) -> Result<(), Refusal>
    ensures answer { of_judgement result ≡ fill_outcome index_count (scramble_lent lent.entry).flips start xs.old ys.old }
    ensures first { xs.new
        ≡ (filled index_count (scramble_lent lent.entry).flips (sequence plan (scramble_lent lent.entry)) start xs.old ys.old).x }
    ensures second { ys.new
        ≡ (filled index_count (scramble_lent lent.entry).flips (sequence plan (scramble_lent lent.entry)) start xs.old ys.old).y }
{
    lent.judge()?;
    let n = xs.len();
    if n != ys.len() {
        return Err(Refusal::BufferLengths);
    }
    if word::goes_past(start, n as u64) {
        return Err(Refusal::IndexRange);
    }
    fill_axes(plan, lent.loaded(), start, xs, ys);
    Ok(())
}
