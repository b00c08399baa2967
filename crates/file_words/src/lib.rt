// File walks as words that a caller keeps, and back. C keeps a walk so: an array of numbers needs no heap and no handle. All words stand for a
// walk, so nothing that a caller writes there is wrong.
#![tactic(auto)]

mod file_walks;

pub use file_walks::{FILE_WALK_WORDS, FileWalkWords, walk_of, words_of};
