// The scan over a: for each a the leading minors of its matrix, as far as they are odd.
ghost use Rattle.std.specs.Prelude.{◌≤◌, ◌<◌};
ghost use Rattle.word.specs.Matrices.{pair};
ghost use Rattle.minors.specs.Minors.{AllCleared, Reaches, FirstDoubt, Starts};

use crate::rows::{Rows, rows};
use word::Columns;

// The largest size m of a shape: one for each row.
const LARGEST_SIZE: u32 = 32;

// A shape, by its size m and the number a of its rows of X.
#[derive(Clone, Copy)]
pub struct Start {
    pub m: u32,
    pub a: u32,
}

// Clears bit c of every word by one word.
fn clear(words: &mut Rows, by: u32, c: u32)
    requires { c < 32 }
    ensures { AllCleared by c words.old words.new }
{
    for word in words.iter_mut() {
        *word ^= by * ((*word >> c) % 2);
    }
}

// The largest m up to top for which the leading minors a + 1 to m are odd. The words are what the first a rows leave of the rows after them.
fn minors_up_to(words: Rows, a: u32, top: u32) -> u32
    requires { (a ≤ top) × (top ≤ 32) }
    ensures { (a ≤ result) × (result ≤ top) × Reaches words a result }
{
    let mut reduced = words;
    for m in a..top {
        let by = reduced[(m - a) as usize];
        if (by >> m) % 2 == 0 {
            return m;
        }
        clear(&mut reduced, by, m);
    }
    top
}

// a, if its minors stopped below top; else what it was.
fn first_doubt(top: u32, at: u32, r: u32, a: u32) -> u32
    ensures { FirstDoubt top at r a result }
{
    if r < top { a } else { at }
}

// The first shape that the scan does not certify.
fn scan(first: Columns, second: Columns, level: u32) -> Start
    requires { level ≤ 32 }
    ensures { Starts (pair first second) level result.m result.a }
{
    let mut x = rows(first);
    let mut y = rows(second);
    let mut top = level;
    let mut at = 0u32;
    let mut a = 0u32;
    // The bound of the loop falls inside it, so it is no range.
    while a < top {
        let by = x[a as usize];
        if (by >> a) % 2 == 0 {
            let m = a + 1;
            return Start { m, a };
        }
        let r = minors_up_to(y, a, top);
        at = first_doubt(top, at, r, a);
        top = r;
        clear(&mut x, by, a);
        clear(&mut y, by, a);
        a += 1;
    }
    let m = top + 1;
    Start { m, a: at }
}

// A shape up to the level, or past it, before which all shapes are nets. An answer that is too low costs time, never correctness: above
// level 32 it is the first shape of all.
pub fn certified_from(first: Columns, second: Columns, level: u32) -> Start
    ensures { Starts (pair first second) level result.m result.a }
{
    if level > LARGEST_SIZE {
        return Start { m: 1, a: 0 };
    }
    scan(first, second, level)
}
