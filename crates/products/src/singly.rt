// Products one after the other: each from the one before it, by a running sum of the columns.
ghost use Rattle.std.specs.Prelude.{◌≡◌, map, ◌+◌, ◌≤◌, length};
ghost use Rattle.ranges.specs.Range.{range};
ghost use Rattle.word.specs.Index.{index_count};
ghost use Rattle.products.specs.Products.{product_masked};

use crate::axis::Axis;
use crate::masking::Masking;
use word::Index;

// Writes the products from start on, one by one, each masked.
pub(crate) fn singly(axis: Axis, masking: Masking, start: Index, out: &mut [u32])
    requires { start + length out.old ≤ index_count }
    ensures { out.new ≡ map (product_masked masking.entry.bits masking.entry.masks.now axis.columns) (range start (length out.old)) }
{
    let mut word = axis.product(start);
    for (k, entry) in out.iter_mut().enumerate() {
        *entry = masking.masked(word);
        word = axis.next(word, start + k as Index);
    }
}
