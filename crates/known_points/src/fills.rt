// Fills of two buffers, to the last index and past it.
ghost use Rattle.std.specs.Prelude.{◌≤◌};

use crate::pairs::{OTHER, OTHER_SHIFT, plan_of, unflipped};
use crate::shown::{Answer, Coordinates};

// What the buffers hold before a fill.
const MARK: u32 = 3735928559;

// The number of words in each buffer.
const WORDS: usize = 5;

// A fill of the first n and k words of two buffers, and then the first four words of both.
fn fill_lines(out: &impl Print, start: u32, n: usize, k: usize)
    requires { (n ≤ 5) × (k ≤ 5) }
{
    let mut xs = [MARK; WORDS];
    let mut ys = [MARK; WORDS];
    let lent = unflipped(OTHER_SHIFT);
    let filled = plan::fill(plan_of(&OTHER), lent, start, &mut xs[..n], &mut ys[..k]);
    let _ = println!(out; "{start} {n} {}", Answer(filled.map(|()| "done")));
    for (x, y) in xs.into_iter().zip(ys).take(4) {
        let _ = println!(out; "{}", Coordinates { x, y });
    }
}

// To the last index; past it; of length 0; under 8 where 9 is due too; of the last index alone.
pub fn fills(out: &impl Print) {
    let _ = println!(out; "fill");
    fill_lines(out, u32::MAX - 2, 3, 3);
    fill_lines(out, u32::MAX - 2, 4, 4);
    fill_lines(out, 7, 0, 0);
    fill_lines(out, u32::MAX, 4, 5);
    fill_lines(out, u32::MAX, 1, 1);
}
