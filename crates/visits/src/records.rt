// The records of a file as the planner reads them, and walks that stand before or at one.
ghost use Rattle.std.specs.Prelude.{◌≡◌};
ghost use Rattle.visits.specs.Visits.{planned};
ghost use Rattle.visits.specs.FileWalk.{listable, links_counted, before_record};
ghost use Rattle.visits.specs.Stepping.{AtNextVisit};

use crate::file_walks::FileWalk;
use plan::Shift;
use region_file::{MOST_RECORDS, Record};
use stage::Region;

// Record n as the planner reads it: its region is that of the places which the corner of the reader's field may take.
fn planned(file: &[u8], n: u32) -> Record
    ensures { result ≡ planned file.now n }
{
    let named = region_file::record_at(file, n);
    Record {
        region: named.region.corners(region_file::reader_field(file)),
        ..named
    }
}

// Whether n names a record of the file whose region lies within its limits and takes the reader's field.
#[tactic(auto, unfolding(crate::specs::FileWalk::listable), using(stage::proofs::Fit::accepts))]
fn listable(file: &[u8], n: u32) -> bool
    ensures { result ≡ listable file.now n }
{
    n != 0
        && (n as usize) < region_file::record_count(file)
        && region_file::record_at(file, n)
            .region
            .judge(region_file::reader_field(file))
            .is_ok()
}

// The walk before the record `next`, with at most `links` records to follow. It holds a record without visits, whose next is `next`.
pub(crate) fn before_record(next: u32, links: u32) -> FileWalk
    ensures { result ≡ before_record next links }
{
    FileWalk {
        number: 0,
        planned: Record {
            next,
            region: Region {
                left: 0,
                top: 0,
                width: 1,
                height: 1,
            },
            shift: Shift { x: 0, y: 0 },
            count: 0,
        },
        index: 0,
        links,
    }
}

// How many links count: no more than a file can have records, so that a step looks at no more records, also where the walk was made by
// hand and its number of links may be anything.
fn links_counted(links: u32) -> u32
    ensures { result ≡ links_counted links }
{
    links.min(MOST_RECORDS)
}

// The walk at the first visit of the chain that begins with record `start`, with at most `links` records, as far as they count; a walk
// that has ended where the chain has no visit. Records without visits are passed over.
pub(crate) fn at_next_visit(file: &[u8], start: u32, links: u32) -> FileWalk
    ensures { AtNextVisit file.now start links result }
{
    let mut n = start;
    let counted = links_counted(links);
    for passed in 0..counted {
        if !listable(file, n) {
            return FileWalk::ended();
        }
        let entry = planned(file, n);
        if entry.count > 0 {
            return FileWalk {
                number: n,
                planned: entry,
                index: 0,
                links: counted - 1 - passed,
            };
        }
        n = entry.next;
    }
    FileWalk::ended()
}
