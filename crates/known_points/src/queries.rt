// The queries of all small cells, of some large ones, and those that are refused.
ghost use Rattle.std.specs.Prelude.{◌≤◌};

use crate::pairs::{NO_SHIFT, OTHER, OTHER_SHIFT, TWICE, ZERO, plan_of, unflipped};
use crate::shown::Answer;
use plan::{LentScramble, Plan};
use std::fmt;

// A cell of the shape (m, a), and a block.
#[derive(Clone, Copy, Default)]
pub struct Query {
    pub m: u32,
    pub a: u32,
    pub column: u32,
    pub row: u32,
    pub block: u32,
}

impl fmt::Display for Query {
    fn fmt<W: fmt::Write>(&self, f: &mut fmt::Formatter<W>) -> fmt::Result {
        write!(
            f,
            "{} {} {} {} {}",
            self.m, self.a, self.column, self.row, self.block
        )
    }
}

// The index that a query finds.
#[derive(Clone, Copy)]
struct Found(u32);

impl fmt::Display for Found {
    fn fmt<W: fmt::Write>(&self, f: &mut fmt::Formatter<W>) -> fmt::Result {
        write!(f, "found {}", self.0)
    }
}

pub fn query_line(out: &impl Print, plan: Plan, lent: LentScramble, level: u32, query: Query) {
    let Query {
        m,
        a,
        column,
        row,
        block,
    } = query;
    let found = stratify::query(plan, lent, level, m, a, column, row, block);
    let _ = println!(out; "{query} {}", Answer(found.map(Found)));
}

// Every cell of a shape, column after column, each in two blocks.
fn cells(out: &impl Print, m: u32, a: u32)
    requires { (a ≤ m) × (m ≤ 4) }
{
    let plan = plan_of(&OTHER);
    let lent = unflipped(OTHER_SHIFT);
    let rows = 1 << (m - a);
    for cell in 0..1u32 << m {
        let column = cell / rows;
        let row = cell % rows;
        let query = Query {
            m,
            a,
            column,
            row,
            block: 0,
        };
        query_line(out, plan, lent, 32, query);
        query_line(out, plan, lent, 32, Query { block: 5, ..query });
    }
}

// Every shape of size m.
fn shapes(out: &impl Print, m: u32)
    requires { m ≤ 4 }
{
    for a in 0..=m {
        cells(out, m, a);
    }
}

fn small(out: &impl Print) {
    for m in 0..=4 {
        shapes(out, m);
    }
}

// The first cell of each shape of the largest size.
fn largest(out: &impl Print) {
    let plan = plan_of(&OTHER);
    let lent = unflipped(OTHER_SHIFT);
    for a in 0..=32 {
        let query = Query {
            m: 32,
            a,
            ..Query::default()
        };
        query_line(out, plan, lent, 32, query);
    }
    let query = Query {
        m: 16,
        a: 8,
        column: 200,
        row: 17,
        block: 65535,
    };
    query_line(out, plan, lent, 32, query);
}

// Queries at levels, each as m, a, column, row and block.
type Cases<'a> = &'a [(u32, [u32; 5])];

// Of the standard pair: a level out of range, a size above the level, a above the size, a column and a row outside the shape, and the last block
// passed and kept.
const STANDARD_CASES: Cases = &[
    (33, [2, 1, 0, 0, 0]),
    (0, [2, 1, 0, 0, 0]),
    (2, [3, 1, 0, 0, 0]),
    (2, [2, 3, 0, 0, 0]),
    (2, [2, 1, 2, 0, 0]),
    (2, [2, 1, 0, 2, 0]),
    (32, [4, 1, 0, 0, 268435456]),
    (32, [4, 1, 0, 0, 268435455]),
];

const MOST: u32 = u32::MAX;

// Of the zero pair, with every later refusal due too: 2, 4, 5, 6, 7, 3.
const ZERO_CASES: Cases = &[
    (33, [MOST, MOST, MOST, MOST, MOST]),
    (2, [MOST, MOST, MOST, MOST, MOST]),
    (2, [2, MOST, MOST, MOST, MOST]),
    (2, [2, 1, MOST, MOST, MOST]),
    (2, [2, 1, 1, 1, MOST]),
    (2, [2, 1, 1, 1, 0]),
];

fn cases(out: &impl Print, plan: Plan, cases: Cases) {
    for (level, [m, a, column, row, block]) in cases {
        let query = Query {
            m: *m,
            a: *a,
            column: *column,
            row: *row,
            block: *block,
        };
        query_line(out, plan, unflipped(NO_SHIFT), *level, query);
    }
}

pub fn queries(out: &impl Print) {
    let _ = println!(out; "query");
    small(out);
    largest(out);
    cases(out, plan_of(&TWICE), &[(2, [2, 1, 1, 0, 0])]);
    cases(out, Plan::standard(), STANDARD_CASES);
    cases(out, plan_of(&ZERO), ZERO_CASES);
}
