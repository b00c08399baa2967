// The way back from a cell under flips and a shift to the cell of the plain run from which it comes, and the cell of a block's first visit there.
ghost use Rattle.std.specs.Prelude.{◌≡◌, true, ◌-◌, ◌*◌, ◌^◌, ◌≤◌, ◌<◌};
ghost use Rattle.net.specs.Generators.{Valid};
ghost use Rattle.net.specs.Sequence.{top};
ghost use Rattle.net.specs.Scrambling.{plain};
ghost use Rattle.net.specs.Elimination.{serial, interval};
ghost use Rattle.word.specs.Index.{index_bits};
ghost use Rattle.flips.specs.Flips.{NoneSet};
ghost use Rattle.plan.specs.Pair.{generators};
ghost use Rattle.stratify.specs.Strips.{plain_strip, plain_number};

use crate::Block;
use crate::shapes::Shape;
use flips::AxisFlips;
use plan::{Plan, Scramble};
use word::{join, top};

// Of the 2^t strips of an axis, the one from which flips and then a shift lead to this one: moved to the top of a word it is unscrambled there.
// Of an axis that is known to have no flips, only the shift's own t bits are added.
fn plain_strip(flips: AxisFlips, unflipped: bool, shift: u32, t: u32, strip: u32) -> u32
    requires t { (t ≤ 32) × (strip < 2 ^ t) }
    requires none_set { unflipped ≡ true → NoneSet flips }
    ensures { result ≡ plain_strip flips shift t strip }
{
    if unflipped {
        return strip ^ top(shift, t);
    }
    let word = join(strip, 0, 32 - t);
    top(flips::unscramble(flips, shift, word), t)
}

// The number of the cell of the plain run from which a scramble leads to a cell of the shape, by the strips of both axes.
fn plain_number_by_strips(
    scramble: Scramble,
    unflipped_x: bool,
    unflipped_y: bool,
    shape: Shape,
    column: u32,
    row: u32,
) -> u32
    requires column { (column < 2 ^ shape.a) × (row < 2 ^ (shape.m - shape.a)) }
    requires none_set { (unflipped_x ≡ true → NoneSet scramble.flips.x) × (unflipped_y ≡ true → NoneSet scramble.flips.y) }
    ensures { result ≡ plain_number scramble shape.m shape.a column row }
{
    let Scramble { shift, flips } = scramble;
    let height = shape.m - shape.a;
    let c = plain_strip(flips.x, unflipped_x, shift.x, shape.a, column);
    let r = plain_strip(flips.y, unflipped_y, shift.y, height, row);
    join(c, r, height)
}

// The same number, each axis looked at for flips.
pub(crate) fn plain_number(scramble: Scramble, shape: Shape, column: u32, row: u32) -> u32
    requires { (column < 2 ^ shape.a) × (row < 2 ^ (shape.m - shape.a)) }
    ensures { result ≡ plain_number scramble shape.m shape.a column row }
{
    let unflipped_x = flips::none_set(scramble.flips.x);
    let unflipped_y = flips::none_set(scramble.flips.y);
    plain_number_by_strips(scramble, unflipped_x, unflipped_y, shape, column, row)
}

// The same number for one of many cells: whether there are flips, and what the shift adds to the number of every cell, comes in. Where there are,
// both axes go through a word: told so by constants, the compiler makes a loop that takes a fifth less time than one that looks at what comes in.
pub(crate) fn plain_number_among(
    scramble: Scramble,
    unflipped: bool,
    added: u32,
    shape: Shape,
    column: u32,
    row: u32,
) -> u32
    requires column { (column < 2 ^ shape.a) × (row < 2 ^ (shape.m - shape.a)) }
    requires none_set { (unflipped ≡ true → NoneSet scramble.flips.x × NoneSet scramble.flips.y)
        × (added ≡ serial 2 (shape.m - shape.a) (top 2 32 shape.a scramble.shift.x) (top 2 32 (shape.m - shape.a) scramble.shift.y)) }
    ensures { result ≡ plain_number scramble shape.m shape.a column row }
{
    if unflipped {
        return join(column, row, shape.m - shape.a) ^ added;
    }
    plain_number_by_strips(scramble, false, false, shape, column, row)
}

// The number of the cell in which the first visit of a block lies in the plain run. Block 0 begins at index 0, whose products are 0.
pub(crate) fn block_cell(plan: Plan, shape: Shape, block: Block) -> u32
    requires { Valid (generators plan) × (block < 2 ^ (index_bits - shape.m)) }
    ensures { result ≡ interval (plain (generators plan)) shape.m shape.a (block * 2 ^ shape.m) }
{
    if block == 0 {
        return 0;
    }
    let first = join(block, 0, shape.m);
    shape.number_at(word::product(plan.x, first), word::product(plan.y, first))
}
