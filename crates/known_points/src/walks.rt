// Walks in words and in singles.
use crate::pairs::{FIRST_SHIFT, OTHER, OTHER_SHIFT, plan_of, unflipped};
use crate::shown::{Answer, Coordinates, Refused};
use plan::{Plan, Visit, Walk};
use refusal::Refusal;

// So many steps of a walk, each of which gives a visit or the end.
fn step_lines<
    P: Into<Coordinates<u32>> + Drop,
    F: Fn(Walk) -> (Result<Option<Visit<P>>, Refusal>, Walk),
>(out: &impl Print, start: Walk, count: u32, step: F)
    requires { F.IsAlwaysCallable step }
{
    let mut walk = start;
    for _ in 0..count {
        let (given, after) = step(walk);
        walk = after;
        match given {
            Ok(Some(visit)) => {
                let at: Coordinates<u32> = visit.at.into();
                let _ = println!(out; "{} {at}", visit.index);
            }
            Ok(None) => {
                let _ = println!(out; "ended");
            }
            Err(why) => {
                let _ = println!(out; "{}", Refused(why));
            }
        }
    }
}

fn walk_steps(out: &impl Print, start: Walk, count: u32) {
    let plan = plan_of(&OTHER);
    step_lines(out, start, count, |walk| {
        walk.step(plan, unflipped(OTHER_SHIFT))
    });
}

// Opens a walk and prints the answer, and goes so many steps where it is open.
fn walk_lines(out: &impl Print, start: u32, visits: u64, steps: u32) {
    let opened = Walk::open(start, visits);
    let _ = println!(out; "{start} {visits} {}", Answer(opened.map(|_| "open")));
    if let Ok(walk) = opened {
        walk_steps(out, walk, steps);
    }
}

// To the last index and a step after the end; past the last index; all; and one made by hand, which ends at the last index.
pub fn walks(out: &impl Print) {
    let _ = println!(out; "walk");
    walk_lines(out, 4294967294, 2, 3);
    walk_lines(out, 4294967295, 2, 0);
    walk_lines(out, 0, 4294967296, 2);
    let by_hand = Walk {
        next: 4294967294,
        left: 9,
    };
    let _ = println!(out; "{} {} hand", by_hand.next, by_hand.left);
    walk_steps(out, by_hand, 3);
}

// The last two visits of all in singles, and a step after the end.
pub fn steps(out: &impl Print) {
    let _ = println!(out; "steps");
    let Ok(start) = Walk::open(4294967294, 2) else {
        return;
    };
    let plan = Plan::standard();
    step_lines(out, start, 3, |walk| {
        unit::step_singles(walk, plan, unflipped(FIRST_SHIFT))
    });
}
