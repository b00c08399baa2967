// The pairs, as 64 words each, and the shifts and flips that the comparison uses.
use flips::AxisFlips;
use plan::{LentScramble, Plan, Shift};

// The columns of X, then those of Y.
pub type Words = [u32; 64];

// The standard pair.
pub const STANDARD: Words = [
    0x80000000, 0x40000000, 0x20000000, 0x10000000, 0x08000000, 0x04000000, 0x02000000, 0x01000000,
    0x00800000, 0x00400000, 0x00200000, 0x00100000, 0x00080000, 0x00040000, 0x00020000, 0x00010000,
    0x00008000, 0x00004000, 0x00002000, 0x00001000, 0x00000800, 0x00000400, 0x00000200, 0x00000100,
    0x00000080, 0x00000040, 0x00000020, 0x00000010, 0x00000008, 0x00000004, 0x00000002, 0x00000001,
    0x80000000, 0xc0000000, 0xa0000000, 0xf0000000, 0x88000000, 0xcc000000, 0xaa000000, 0xff000000,
    0x80800000, 0xc0c00000, 0xa0a00000, 0xf0f00000, 0x88880000, 0xcccc0000, 0xaaaa0000, 0xffff0000,
    0x80008000, 0xc000c000, 0xa000a000, 0xf000f000, 0x88008800, 0xcc00cc00, 0xaa00aa00, 0xff00ff00,
    0x80808080, 0xc0c0c0c0, 0xa0a0a0a0, 0xf0f0f0f0, 0x88888888, 0xcccccccc, 0xaaaaaaaa, 0xffffffff,
];

// A pair that is not standard: each X column w is that of the standard pair with w / 2 and w / 8 added without carries, each Y
// column with w / 4. So it passes every level.
pub const OTHER: Words = [
    0xd0000000, 0x68000000, 0x34000000, 0x1a000000, 0x0d000000, 0x06800000, 0x03400000, 0x01a00000,
    0x00d00000, 0x00680000, 0x00340000, 0x001a0000, 0x000d0000, 0x00068000, 0x00034000, 0x0001a000,
    0x0000d000, 0x00006800, 0x00003400, 0x00001a00, 0x00000d00, 0x00000680, 0x00000340, 0x000001a0,
    0x000000d0, 0x00000068, 0x00000034, 0x0000001a, 0x0000000d, 0x00000006, 0x00000003, 0x00000001,
    0xa0000000, 0xf0000000, 0x88000000, 0xcc000000, 0xaa000000, 0xff000000, 0x80800000, 0xc0c00000,
    0xa0a00000, 0xf0f00000, 0x88880000, 0xcccc0000, 0xaaaa0000, 0xffff0000, 0x80008000, 0xc000c000,
    0xa000a000, 0xf000f000, 0x88008800, 0xcc00cc00, 0xaa00aa00, 0xff00ff00, 0x80808080, 0xc0c0c0c0,
    0xa0a0a0a0, 0xf0f0f0f0, 0x88888888, 0xcccccccc, 0xaaaaaaaa, 0xffffffff, 0x80000000, 0xc0000000,
];

// The identity twice.
pub const TWICE: Words = [
    0x80000000, 0x40000000, 0x20000000, 0x10000000, 0x08000000, 0x04000000, 0x02000000, 0x01000000,
    0x00800000, 0x00400000, 0x00200000, 0x00100000, 0x00080000, 0x00040000, 0x00020000, 0x00010000,
    0x00008000, 0x00004000, 0x00002000, 0x00001000, 0x00000800, 0x00000400, 0x00000200, 0x00000100,
    0x00000080, 0x00000040, 0x00000020, 0x00000010, 0x00000008, 0x00000004, 0x00000002, 0x00000001,
    0x80000000, 0x40000000, 0x20000000, 0x10000000, 0x08000000, 0x04000000, 0x02000000, 0x01000000,
    0x00800000, 0x00400000, 0x00200000, 0x00100000, 0x00080000, 0x00040000, 0x00020000, 0x00010000,
    0x00008000, 0x00004000, 0x00002000, 0x00001000, 0x00000800, 0x00000400, 0x00000200, 0x00000100,
    0x00000080, 0x00000040, 0x00000020, 0x00000010, 0x00000008, 0x00000004, 0x00000002, 0x00000001,
];

pub const ZERO: Words = [0; 64];

// The matrices of a pair.
pub fn plan_of(words: &Words) -> Plan {
    Plan::load(words).unwrap()
}

pub const NO_SHIFT: Shift = Shift { x: 0, y: 0 };

// The shift of the standard pair's points.
pub const FIRST_SHIFT: Shift = Shift {
    x: 305419896,
    y: 2596069104,
};

// The shift of all other sections.
pub const OTHER_SHIFT: Shift = Shift {
    x: 2779096485,
    y: 1515870810,
};

static NO_FLIPS: AxisFlips = [0; 32];

// A shift without flips.
pub fn unflipped(shift: Shift) -> LentScramble<'static> {
    LentScramble {
        shift,
        flips_x: &NO_FLIPS,
        flips_y: &NO_FLIPS,
    }
}

// Byte i is 37 * i + 11 modulo 256, and flip bit 255 is not set.
static FLIPS_X: AxisFlips = [
    11, 48, 85, 122, 159, 196, 233, 14, 51, 88, 125, 162, 199, 236, 17, 54, 91, 128, 165, 202, 239,
    20, 57, 94, 131, 168, 205, 242, 23, 60, 97, 6,
];

// The same with 101 * i + 7.
static FLIPS_Y: AxisFlips = [
    7, 108, 209, 54, 155, 0, 101, 202, 47, 148, 249, 94, 195, 40, 141, 242, 87, 188, 33, 134, 235,
    80, 181, 26, 127, 228, 73, 174, 19, 120, 221, 66,
];

// The other shift with flips.
pub fn flips() -> LentScramble<'static> {
    LentScramble {
        shift: OTHER_SHIFT,
        flips_x: &FLIPS_X,
        flips_y: &FLIPS_Y,
    }
}
