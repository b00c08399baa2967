// A walk in a region file as words, and back.
ghost use Rattle.std.specs.Prelude.{◌≡◌};
ghost use Rattle.file_words.specs.Words.{walk_of};

use plan::Shift;
use region_file::Record;
use signed::{cast_signed, cast_unsigned};
use stage::Region;
use visits::FileWalk;

// A word for each number in a file walk.
pub const FILE_WALK_WORDS: usize = 11;

// A file walk by its fields, one after the other.
pub type FileWalkWords = [u32; FILE_WALK_WORDS];

// The walk that some words stand for. All words stand for one. (An array is no type of this crate, so `From` can't be written for it.)
pub fn walk_of(words: FileWalkWords) -> FileWalk
    ensures { result ≡ walk_of words }
{
    let [
        number,
        next,
        left,
        top,
        width,
        height,
        x,
        y,
        count,
        index,
        links,
    ] = words;
    FileWalk {
        number,
        planned: Record {
            next,
            region: Region {
                left: cast_signed(left),
                top: cast_signed(top),
                width,
                height,
            },
            shift: Shift { x, y },
            count,
        },
        index,
        links,
    }
}

// Words that stand for a walk.
pub fn words_of(walk: FileWalk) -> FileWalkWords
    ensures { walk_of result ≡ walk }
{
    let Record {
        next,
        region,
        shift,
        count,
    } = walk.planned;
    [
        walk.number,
        next,
        cast_unsigned(region.left),
        cast_unsigned(region.top),
        region.width,
        region.height,
        shift.x,
        shift.y,
        count,
        walk.index,
        walk.links,
    ]
}
