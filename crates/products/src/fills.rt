// A buffer filled with products: one by one up to a multiple of 64, then in whole groups, and one by one what is left.
ghost use Rattle.std.specs.Prelude.{◌≡◌, map, ◌+◌, ◌%◌, ◌≤◌, ◌<◌, length};
ghost use Rattle.ranges.specs.Range.{range};
ghost use Rattle.word.specs.Index.{index_count};
ghost use Rattle.products.specs.Products.{product_added, products_filled, product_masked, group_size, group_tables, indexes_filled};

use crate::axis::Axis;
use crate::groups::{GROUP, in_groups};
use crate::masking::Masking;
use crate::singly::singly;
use crate::tables::put_tables;
use word::{Columns, Index};

// How many leading bits of a product choose its mask.
const MASK_BITS: u32 = 8;

// A mask for each choice of these bits.
pub type Masks = [u32; 256];

// The number of words in the tables for all of them.
const TABLES: usize = 256 * GROUP;

// From how many words on making the tables is worth while.
pub const LONG: usize = 2 * TABLES;

// Fills a buffer with the products of a generator matrix with the indexes from start on, a word added to each. A buffer that would go past
// the last index is left as it was.
pub fn fill(columns: Columns, added: u32, start: Index, out: &mut [u32])
    ensures { out.new ≡ products_filled columns added start out.old }
{
    if word::goes_past(start, out.len() as u64) {
        return;
    }
    let axis = Axis::new(columns);
    let masking = Masking {
        bits: 0,
        masks: &[added],
    };
    let mut table = [0u32; GROUP];
    put_tables(axis, masking, &mut table);
    in_parts(axis, masking, &table, start, out);
}

// The same, with the mask added to each product that its top byte chooses: the products are masked in place.
pub fn fill_masked(columns: Columns, masks: Masks, start: Index, out: &mut [u32])
    ensures { out.new ≡ indexes_filled (product_masked 8 masks columns) start out.old }
{
    let count = out.len() as u64;
    if word::goes_past(start, count) {
        return;
    }
    fill(columns, 0, start, out);
    let masking = Masking {
        bits: MASK_BITS,
        masks: &masks,
    };
    masking.mask_all(out);
}

// The same for long buffers, through tables in which the masks are, 64 KiB on the stack. It stands apart, since a caller that the compiler
// draws it into takes that much, whether it fills a long buffer or not.
pub fn fill_by_tables(columns: Columns, masks: Masks, start: Index, out: &mut [u32])
    ensures { out.new ≡ indexes_filled (product_masked 8 masks columns) start out.old }
{
    let count = out.len() as u64;
    if word::goes_past(start, count) {
        return;
    }
    let axis = Axis::new(columns);
    let masking = Masking {
        bits: MASK_BITS,
        masks: &masks,
    };
    let mut tables = [0u32; TABLES];
    put_tables(axis, masking, &mut tables);
    in_parts(axis, masking, &tables, start, out);
}

// Fills the three parts of a buffer. The matrix, its masks and their tables are three parameters: held by one struct, short fills and masked
// fills came out slower.
fn in_parts(axis: Axis, masking: Masking, tables: &[u32], start: Index, out: &mut [u32])
    requires within { start + length out.old ≤ index_count }
    requires tables_value { tables.now ≡ group_tables masking.bits masking.masks.now axis.columns }
    ensures { out.new ≡ map (product_masked masking.entry.bits masking.entry.masks.now axis.columns) (range start (length out.old)) }
{
    let n = out.len();
    let head = ahead(start, n);
    singly(axis, masking, start, &mut out[..head]);
    if head < n {
        let whole = head + (n - head) / GROUP * GROUP;
        in_groups(
            axis,
            masking,
            tables,
            start + head as Index,
            &mut out[head..whole],
        );
        if whole < n {
            singly(axis, masking, start + whole as Index, &mut out[whole..]);
        }
    }
}

// How many of n indexes from start on come before the first multiple of 64.
fn ahead(start: Index, n: usize) -> usize
    ensures { (result ≤ n) × (result < n → (start + result) % group_size ≡ 0) }
{
    let past = start as usize % GROUP;
    if past == 0 {
        return 0;
    }
    if n < GROUP - past {
        return n;
    }
    GROUP - past
}
