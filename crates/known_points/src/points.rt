// The first points of a pair that is standard and of one that is not, plain and shifted.
use crate::pairs::{FIRST_SHIFT, NO_SHIFT, OTHER, OTHER_SHIFT, plan_of, unflipped};
use crate::shown::{Answer, Coordinates};
use plan::{Plan, Point, Shift};
use refusal::Refusal;

// A line for each index below a count.
pub fn point_lines<F: Fn(u32) -> Result<Point, Refusal>>(out: &impl Print, count: u32, point: F)
    requires { F.IsAlwaysCallable point }
{
    for index in 0..count {
        let _ = println!(out; "{index} {}", Answer(point(index).map(Coordinates::from)));
    }
}

// The fast way, which is promised to be the matrix way.
fn standard_points(out: &impl Print, shift: Shift) {
    let _ = println!(out; "points standard {} {}", shift.x, shift.y);
    point_lines(
        out,
        1024,
        |index| Plan::standard_point(unflipped(shift), index),
    );
}

fn other_points(out: &impl Print, shift: Shift) {
    let _ = println!(out; "points other {} {}", shift.x, shift.y);
    let plan = plan_of(&OTHER);
    point_lines(out, 256, |index| plan.point(unflipped(shift), index));
}

pub fn points(out: &impl Print) {
    standard_points(out, NO_SHIFT);
    standard_points(out, FIRST_SHIFT);
    other_points(out, NO_SHIFT);
    other_points(out, OTHER_SHIFT);
}
