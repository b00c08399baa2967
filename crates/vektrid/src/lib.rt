// The C interface: nothing but calls. Parameters are numbers, slices and lent words; an answer is 0 or the refusal's number, and values
// go through lent words, which a refused call leaves as they were, but for what refusal 3 and a judgement that stopped give.
// include/vektrid.h declares the calls under the same names. All of them stand in this crate, since `rt lib` puts only a static library's
// own functions under their C names.
#![tactic(auto)]

mod file_walks;
mod fills;
mod interface;
mod judging;
mod listings;
mod overview;
mod pairs;
mod points;
mod positions;
mod query;
mod scrambles;
mod sheets;
mod units;
mod walks;
