// Positions in regions: of the first visits of the standard pair with their singles, of single words, and of those with a reader's field.
use crate::pairs::{FIRST_SHIFT, NO_SHIFT, unflipped};
use crate::shown::{Answer, Coordinates};
use plan::{Plan, Scramble, Shift};
use refusal::Refusal;
use stage::{Field, Position, Region};

// The position or its refusal, for printing.
fn answer(position: Result<Position, Refusal>) -> Answer<Coordinates<i32>> {
    Answer(position.map(Coordinates::from))
}

// A region by its left and top edge, its width and its height.
type Sides = (i32, i32, u32, u32);

fn region_of((left, top, width, height): Sides) -> Region {
    Region {
        left,
        top,
        width,
        height,
    }
}

// The position and the singles of each of the first visits.
fn visit_lines(out: &impl Print, sides: Sides, shift: Shift) {
    let (left, top, width, height) = sides;
    let _ = println!(out;
        "visits {left} {top} {width} {height} {} {}",
        shift.x, shift.y
    );
    let region = region_of(sides);
    let none = Field {
        width: 0,
        height: 0,
    };
    let plan = Plan::standard();
    for index in 0..1024 {
        let at = plan.scrambled_point(Scramble::of_shift(shift), index);
        let position = answer(region.position(none, at.x, at.y));
        let singles = unit::singles_at(plan, unflipped(shift), index);
        let _ = println!(out;
            "{index} {position} {}",
            Answer(singles.map(Coordinates::from))
        );
    }
}

pub fn visits(out: &impl Print) {
    visit_lines(out, (-500, 0, 1000, 800), NO_SHIFT);
    visit_lines(out, (-1000000, 1000000, 1000000, 999983), FIRST_SHIFT);
}

// The floor, and the ends: a region and the words of a point.
const POSITIONS: [(Sides, [u32; 2]); 4] = [
    ((-1, -1, 3, 3), [1073741824, 3221225472]),
    ((-1000000, -1000000, 1, 1), [4294967295, 4294967295]),
    (
        (1000000, 1000000, 1000000, 1000000),
        [4294967295, 4294967295],
    ),
    ((-1000000, 1000000, 1000000, 1), [2147483648, 0]),
];

// Each limit passed by one, and by as much as its type allows.
const REFUSED: [Sides; 12] = [
    (-1000001, 0, 1, 1),
    (1000001, 0, 1, 1),
    (0, -1000001, 1, 1),
    (0, 1000001, 1, 1),
    (0, 0, 0, 1),
    (0, 0, 1, 0),
    (0, 0, 1000001, 1),
    (0, 0, 1, 1000001),
    (-2147483648, 0, 1, 1),
    (0, 2147483647, 1, 1),
    (0, 0, 4294967295, 1),
    (0, 0, 1, 4294967295),
];

fn position_line(out: &impl Print, sides: Sides, [x, y]: [u32; 2]) {
    let (left, top, width, height) = sides;
    let one = Field {
        width: 1,
        height: 1,
    };
    let position = answer(region_of(sides).position(one, x, y));
    let _ = println!(out; "{left} {top} {width} {height} {x} {y} {position}");
}

pub fn positions(out: &impl Print) {
    let _ = println!(out; "positions");
    for (sides, point) in POSITIONS {
        position_line(out, sides, point);
    }
    for sides in REFUSED {
        position_line(out, sides, [0, 0]);
    }
}

// C-12's example, a field on each axis, 0 and 1, and a field as large as the region: each with its region and the words of a point.
const FIELDS: [(Sides, [u32; 2], [u32; 2]); 11] = [
    ((0, 0, 1000, 1000), [200, 200], [3221225472, 3221225472]),
    ((-500, 0, 1000, 800), [200, 100], [3221225472, 2147483648]),
    ((-500, 0, 1000, 800), [100, 200], [3221225472, 2147483648]),
    ((-500, 0, 1000, 800), [0, 1], [4294967295, 4294967295]),
    ((-500, 0, 1000, 800), [1, 0], [4294967295, 4294967295]),
    ((-500, 0, 1000, 800), [2, 2], [4294967295, 4294967295]),
    ((-500, 0, 1000, 800), [1000, 800], [4294967295, 4294967295]),
    ((-500, 0, 1000, 800), [999, 799], [2147483648, 2147483647]),
    (
        (-1000000, 1000000, 1000000, 1000000),
        [1000000, 1],
        [4294967295, 4294967295],
    ),
    ((-1, -1, 4, 4), [2, 2], [1431655766, 1431655765]),
    ((0, 0, 1, 1), [0, 1], [4294967295, 0]),
];

// A field too large on each axis, by one and by as much as its type allows; and regions outside their limits, which come first.
const REFUSED_FIELDS: [(Sides, [u32; 2]); 9] = [
    ((-500, 0, 1000, 800), [1001, 800]),
    ((-500, 0, 1000, 800), [1000, 801]),
    ((-500, 0, 1000, 800), [4294967295, 0]),
    ((-500, 0, 1000, 800), [0, 4294967295]),
    ((-500, 0, 1000, 800), [800, 1000]),
    ((-500, 0, 0, 800), [1, 1]),
    ((-500, 0, 0, 800), [4294967295, 4294967295]),
    ((1000001, 0, 1000, 800), [1001, 801]),
    ((0, 0, 1000001, 1), [1000001, 1]),
];

fn field_line(out: &impl Print, sides: Sides, field: [u32; 2], [x, y]: [u32; 2]) {
    let region = region_of(sides);
    let [width, height] = field;
    let position = answer(region.position(Field { width, height }, x, y));
    let (left, top, across, down) = sides;
    let _ = println!(out; "{left} {top} {across} {down} {width} {height} {x} {y} {position}");
}

pub fn fields(out: &impl Print) {
    let _ = println!(out; "fields");
    for (sides, field, point) in FIELDS {
        field_line(out, sides, field, point);
    }
    for (sides, field) in REFUSED_FIELDS {
        field_line(out, sides, field, [0, 0]);
    }
}
