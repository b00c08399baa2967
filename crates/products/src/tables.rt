// Tables by which a group is written from its first product alone: one for each choice of the leading bits of that product.
ghost use Rattle.std.specs.Prelude.{◌≡◌, ◌*◌, ◌^◌, ◌<◌, length, get_or};
ghost use Rattle.digits.specs.Digits.{plus};
ghost use Rattle.net.specs.Sequence.{top};
ghost use Rattle.products.specs.Products.{group_size, group_tables};

use crate::axis::Axis;
use crate::groups::GROUP;
use crate::masking::Masking;
use crate::singly::singly;

// Writes the tables.
pub(crate) fn put_tables(axis: Axis, masking: Masking, tables: &mut [u32])
    requires { length tables.old ≡ 2 ^ masking.bits * group_size }
    ensures { tables.new ≡ group_tables masking.entry.bits masking.entry.masks.now axis.columns }
{
    let nothing = Masking {
        bits: 0,
        masks: &[0],
    };
    let mut low = [0u32; GROUP];
    singly(axis, nothing, 0, &mut low);
    for (n, entry) in tables.iter_mut().enumerate() {
        *entry = table_entry(masking, n / GROUP, low[n % GROUP]);
    }
}

// A product of the first group with the mask that it takes in a group whose first product has the leading bits v: there its own are
// exclusive or those.
fn table_entry(masking: Masking, v: usize, product: u32) -> u32
    requires { v < 2 ^ masking.bits }
    ensures { result ≡ plus 2 product (get_or masking.entry.masks.now (plus 2 v (top 2 32 masking.entry.bits product)) 0) }
{
    product ^ masking.masks[v ^ word::top(product, masking.bits) as usize]
}
