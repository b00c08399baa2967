// The checks of the pairs at their limits, and of the standard pair with one column replaced.
ghost use Rattle.std.specs.Prelude.{◌≤◌};

use crate::pairs::{OTHER, STANDARD, TWICE};
use crate::shown::Answer;
use std::fmt;

fn check_line(out: &impl Print, name: impl fmt::Display + Drop, words: &[u32], level: u32) {
    let answer = Answer(stratify::check(words, level).map(|()| "passed"));
    let _ = println!(out; "{name} {level} {answer}");
}

// One pair at several levels.
fn check_lines(out: &impl Print, name: &str, words: &[u32], levels: &[u32]) {
    for level in levels {
        check_line(out, name, words, *level);
    }
}

// Each of the 32 columns from the first on replaced by 0.
fn gaps(out: &impl Print, name: &str, first: usize)
    requires { first ≤ 32 }
{
    for c in 0..32 {
        let mut words = STANDARD;
        words[first + c] = 0;
        check_line(out, format_args!("{name} {c}"), &words, 32);
    }
}

// Each column of X replaced by the sum without carries of those before it. The sum of the first c columns of the identity has the top c bits.
fn sums(out: &impl Print) {
    for c in 0..32u32 {
        let mut words = STANDARD;
        words[c as usize] = !(u32::MAX >> c);
        check_line(out, format_args!("sum-x {c}"), &words, 32);
    }
}

pub fn checks(out: &impl Print) {
    let _ = println!(out; "check");
    check_lines(out, "standard", &STANDARD, &[0, 1, 32, 33, u32::MAX]);
    check_lines(out, "other", &OTHER, &[32]);
    check_lines(out, "twice", &TWICE, &[1, 2, 32]);
    check_lines(out, "zero", &[0; 64], &[1]);
    gaps(out, "gap-x", 0);
    gaps(out, "gap-y", 32);
    sums(out);
    check_lines(out, "short", &[0; 63], &[2]);
    check_lines(out, "long", &[0; 65], &[0]);
}
