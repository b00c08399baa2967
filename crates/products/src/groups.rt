// Products in groups of 64 indexes whose first is a multiple of 64.
ghost use Rattle.std.specs.Prelude.{◌≡◌, map, ℕ, ◌+◌, ◌*◌, ◌%◌, ◌^◌, ◌≤◌, ◌<◌, length, get_or};
ghost use Rattle.ranges.specs.Range.{range};
ghost use Rattle.digits.specs.Digits.{plus};
ghost use Rattle.net.specs.Sequence.{top};
ghost use Rattle.word.specs.Index.{index_count};
ghost use Rattle.products.specs.Products.{product_masked, group_size, group_tables};

use crate::axis::Axis;
use crate::masking::Masking;
use word::Index;

// The number of indexes of a group.
pub(crate) const GROUP: usize = 64;

// Writes whole groups, each from its first product and the table that the leading bits of this product choose. Where no bits choose, the one
// table is copied, so that the compiler sees that the buffer is not part of it, and keeps it in registers.
pub(crate) fn in_groups(axis: Axis, masking: Masking, tables: &[u32], start: Index, out: &mut [u32])
    requires within { start + length out.old ≤ index_count }
    requires whole { (start % group_size ≡ 0) × (length out.old % group_size ≡ 0) }
    requires tables_value { tables.now ≡ group_tables masking.bits masking.masks.now axis.columns }
    ensures { out.new ≡ map (product_masked masking.entry.bits masking.entry.masks.now axis.columns) (range start (length out.old)) }
{
    let bits = masking.bits;
    if bits == 0 {
        let mut own = [0u32; GROUP];
        word::copy(tables, &mut own);
        by_tables(axis, masking, &own, |_| 0, start, out);
        return;
    }
    by_tables(
        axis,
        masking,
        tables,
        |word| table_of(bits, word),
        start,
        out,
    );
}

// The same, with the place where the table of a first product begins. The groups go by their numbers, since after chunks_exact_mut a proof
// knows how long the buffer is and not what it holds.
fn by_tables<F: Fn(u32) -> usize>(
    axis: Axis,
    masking: Masking,
    tables: &[u32],
    place: F,
    start: Index,
    out: &mut [u32],
)
    requires callable { F.IsAlwaysCallable place }
    requires places { (word at : ℕ) → word < 2 ^ 32 → F.post place word at → at ≡ top 2 32 masking.bits word * group_size }
    requires within { start + length out.old ≤ index_count }
    requires whole { (start % group_size ≡ 0) × (length out.old % group_size ≡ 0) }
    requires tables_value { tables.now ≡ group_tables masking.bits masking.masks.now axis.columns }
    ensures { out.new ≡ map (product_masked masking.entry.bits masking.entry.masks.now axis.columns) (range start (length out.old)) }
{
    let mut word = axis.product(start);
    for g in 0..out.len() / GROUP {
        let k = g * GROUP;
        let at = place(word);
        put_group(word, &tables[at..at + GROUP], &mut out[k..k + GROUP]);
        word = axis.next_group(word, start + k as Index);
    }
}

// The place where the table begins that the leading bits of a word choose.
fn table_of(bits: u32, word: u32) -> usize
    requires { bits ≤ 8 }
    ensures { (result ≡ top 2 32 bits word * group_size) × (top 2 32 bits word < 2 ^ bits) }
{
    word::top(word, bits) as usize * GROUP
}

// Writes one group, from its first product and a table.
fn put_group(word: u32, table: &[u32], out: &mut [u32])
    requires { (length table.now ≡ group_size) × (length out.old ≡ group_size) }
    ensures { out.new ≡ map (λ i. plus 2 word (get_or table.now i 0)) (range 0 group_size) }
{
    for (i, entry) in out.iter_mut().enumerate() {
        *entry = word ^ table[i];
    }
}
