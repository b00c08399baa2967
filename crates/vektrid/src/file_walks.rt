// Walks among the visits of a region file, as words that the caller keeps.
ghost use Rattle.std.specs.Prelude.{◌≡◌};
ghost use Rattle.visits.specs.Visits.{visits_outcome};
ghost use Rattle.answers.specs.Answers.{answer_number};
ghost use Rattle.file_words.specs.FileWalks.{visits_by_words, Opens, all_but_first, visit_given, visit_words, visit_left};

use file_words::{FileWalkWords, walk_of, words_of};
use visits::FileWalk;

// The walk before the first visit of a file.
#[unsafe(no_mangle)]
pub extern "C" fn vektrid_file_walk_open(file: &[u8], walk: &mut FileWalkWords) -> u32
    ensures answer { result ≡ answer_number (visits_outcome file.now) }
    ensures walk { Opens file.now (visits_outcome file.now) walk.old walk.new }
{
    match FileWalk::open(file) {
        Err(why) => why.number(),
        Ok(start) => {
            *walk = words_of(start);
            0
        }
    }
}

// The next visit, if there is one, and the walk past it.
#[unsafe(no_mangle)]
pub extern "C" fn vektrid_file_walk_step(
    file: &[u8],
    walk: &mut FileWalkWords,
    given: &mut u32,
    record_number: &mut u32,
    index: &mut u32,
    at_x: &mut i32,
    at_y: &mut i32,
)
    ensures walk { visits_by_words file.now walk.new ≡ all_but_first (visits_by_words file.now walk.old) }
    ensures given { given.new ≡ visit_given (visits_by_words file.now walk.old) }
    ensures visit { visit_words record_number.new index.new at_x.new at_y.new
        ≡ visit_left (visits_by_words file.now walk.old)
        (visit_words record_number.old index.old at_x.old at_y.old) }
{
    let mut own = walk_of(*walk);
    let visited = own.step(file);
    *walk = words_of(own);
    match visited {
        None => *given = 0,
        Some(visit) => {
            *given = 1;
            *record_number = visit.number;
            *index = visit.index;
            *at_x = visit.x;
            *at_y = visit.y;
        }
    }
}
