// Where the visits of a record lie.
ghost use Rattle.std.specs.Prelude.{◌≡◌};
ghost use Rattle.refusal.specs.Refusal.{of_result};
ghost use Rattle.visits.specs.Visits.{visit_position_outcome};
ghost use Rattle.visits.specs.Stepping.{planned_position_outcome};

use plan::Plan;
use refusal::Refusal;
use region_file::Record;
use stage::Position;

// Where the visit with this index lies of a record that is read for the reader's field, or 10. A region file carries no flips.
pub(crate) fn position_of(planned: Record, index: u32) -> Result<Position, Refusal>
    ensures { of_result (λ p. p) result ≡ planned_position_outcome planned index }
{
    let point = Plan::shifted_standard_point(planned.shift, index);
    planned.region.corner(point.x, point.y)
}

// Where the visit of record n with this index lies, or 10 or 16. It is answered for every number and index, whether the record is on the
// chain and has so many visits or not (`region_file::on_chain`, `count`).
pub fn visit_position(file: &[u8], n: u32, index: u32) -> Result<Position, Refusal>
    ensures { of_result (λ p. p) result ≡ visit_position_outcome file.now n index }
{
    let named = region_file::record_at(file, n);
    let field = region_file::reader_field(file);
    let point = Plan::shifted_standard_point(named.shift, index);
    named.region.position(field, point.x, point.y)
}
