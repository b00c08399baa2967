// Points, queries and refusals under flips.
use crate::pairs::{NO_SHIFT, OTHER, flips, plan_of};
use crate::points::point_lines;
use crate::queries::{Query, query_line};
use crate::shown::{Answer, Coordinates};
use plan::{LentScramble, Plan};

// The query of each cell of the shape (4, 2) in block 5.
fn cells(out: &impl Print) {
    let plan = plan_of(&OTHER);
    for cell in 0..16 {
        let query = Query {
            m: 4,
            a: 2,
            column: cell / 4,
            row: cell % 4,
            block: 5,
        };
        query_line(out, plan, flips(), 32, query);
    }
}

// How many bytes the flips of each axis have, the last of them, and the point of index 1 of the standard pair under them.
fn judged_line(out: &impl Print, x: &[u8], y: &[u8]) {
    let lent = LentScramble {
        shift: NO_SHIFT,
        flips_x: x,
        flips_y: y,
    };
    let point = Plan::standard_point(lent, 1).map(Coordinates::from);
    let last_x = x.last().copied().unwrap_or(0);
    let last_y = y.last().copied().unwrap_or(0);
    let _ = println!(out;
        "{} {last_x} {} {last_y} {}",
        x.len(),
        y.len(),
        Answer(point)
    );
}

// Too few bytes, too many, 17 where 18 is due too, bit 255 of either axis, and all bits of the last bytes but that one.
fn judged(out: &impl Print) {
    let short = [0u8; 31];
    let none = [0u8; 32];
    let long = [0u8; 33];
    let mut set = [0u8; 32];
    set[31] = 128;
    let mut most = [0u8; 32];
    most[31] = 127;
    judged_line(out, &short, &none);
    judged_line(out, &none, &long);
    judged_line(out, &set, &short);
    judged_line(out, &set, &none);
    judged_line(out, &none, &set);
    judged_line(out, &most, &most);
}

pub fn flipped(out: &impl Print) {
    let _ = println!(out; "flips");
    let plan = plan_of(&OTHER);
    point_lines(out, 256, |index| plan.point(flips(), index));
    cells(out);
    judged(out);
}
