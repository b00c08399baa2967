// A walk over the visits of a file, and the steps of it.
ghost use Rattle.std.specs.Prelude.{◌≡◌};
ghost use Rattle.refusal.specs.Refusal.{of_result};
ghost use Rattle.visits.specs.Visits.{visits_outcome};
ghost use Rattle.visits.specs.FileWalk.{visits_to_come, Gives, ended_walk};
ghost use Rattle.visits.specs.Stepping.{step_in_record};

use crate::positions::position_of;
use crate::records::{at_next_visit, before_record};
use refusal::Refusal;
use region_file::{MOST_RECORDS, Record};

// A visit of a file: the number of its record, its index there, and its position in µm. (plan's `Visit` has a point, not a position.)
#[derive(Clone, Copy, Debug, PartialEq, Eq)]
pub struct FileVisit {
    pub number: u32,
    pub index: u32,
    pub x: i32,
    pub y: i32,
}

// A cursor over the visits of a file: a record as the planner reads it with its number, the index of the next visit in it, and the number
// of records that may still follow, of which no more count than a file can have.
#[derive(Clone, Copy)]
pub struct FileWalk {
    pub number: u32,
    pub planned: Record,
    pub index: u32,
    pub links: u32,
}

impl FileWalk {
    // The walk before the first visit of a file, or the refusal of the file.
    #[tactic(auto, using(refusal::proofs::Results::stops))]
    pub fn open(file: &[u8]) -> Result<FileWalk, Refusal>
        ensures { of_result (visits_to_come file.now) result ≡ visits_outcome file.now }
    {
        region_file::judge(file)?;
        Ok(before_record(region_file::first_record(file), MOST_RECORDS))
    }

    // A walk that has ended, whatever file it is stepped over.
    pub fn ended() -> FileWalk
        ensures { result ≡ ended_walk }
    {
        before_record(0, 0)
    }

    // A step that does not leave the walk's record: the visit at its index, or the end where the record has no such visit or no position.
    fn step_in_record(&mut self) -> Option<FileVisit>
        ensures { (result, self.new) ≡ step_in_record self.old }
    {
        if self.planned.count <= self.index {
            return None;
        }
        let Ok(at) = position_of(self.planned, self.index) else {
            return None;
        };
        let visit = FileVisit {
            number: self.number,
            index: self.index,
            x: at.x,
            y: at.y,
        };
        self.index += 1;
        Some(visit)
    }

    // The next visit, if one is left, for every file and every walk, also one made by hand or opened over another file.
    pub fn step(&mut self, file: &[u8]) -> Option<FileVisit>
        ensures { Gives file.now self.old result self.new }
    {
        if self.planned.count <= self.index {
            if !self.planned.region.within() {
                return None;
            }
            *self = at_next_visit(file, self.planned.next, self.links);
        }
        self.step_in_record()
    }
}
