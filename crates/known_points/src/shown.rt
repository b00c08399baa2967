// What stands on many lines, as it is printed.
use plan::Point;
use refusal::Refusal;
use stage::Position;
use std::fmt;
use unit::Singles;

// The two coordinates of a point, of its singles or of a position.
#[derive(Clone, Copy)]
pub struct Coordinates<T> {
    pub x: T,
    pub y: T,
}

impl From<Point> for Coordinates<u32> {
    fn from(at: Point) -> Coordinates<u32> {
        Coordinates { x: at.x, y: at.y }
    }
}

impl From<Position> for Coordinates<i32> {
    fn from(at: Position) -> Coordinates<i32> {
        Coordinates { x: at.x, y: at.y }
    }
}

// Singles are printed by their bits.
impl From<Singles> for Coordinates<u32> {
    fn from(at: Singles) -> Coordinates<u32> {
        Coordinates {
            x: single_bits(at.x),
            y: single_bits(at.y),
        }
    }
}

// No unit number is a NaN, whose bits may be any.
pub fn single_bits(x: f32) -> u32 {
    if x.is_nan() { 0 } else { x.to_bits() }
}

impl<T: fmt::Display> fmt::Display for Coordinates<T> {
    fn fmt<W: fmt::Write>(&self, f: &mut fmt::Formatter<W>) -> fmt::Result {
        write!(f, "{} {}", self.x, self.y)
    }
}

// A refusal by its number, with m, a and j for 3.
#[derive(Clone, Copy)]
pub struct Refused(pub Refusal);

impl fmt::Display for Refused {
    fn fmt<W: fmt::Write>(&self, f: &mut fmt::Formatter<W>) -> fmt::Result {
        write!(f, "refused {}", self.0.number())?;
        if let Refusal::NotNet { m, a, j } = self.0 {
            write!(f, " {m} {a} {j}")?;
        }
        Ok(())
    }
}

// What a call answers: its value, or its refusal.
#[derive(Clone, Copy)]
pub struct Answer<T>(pub Result<T, Refusal>);

impl<T: fmt::Display> fmt::Display for Answer<T> {
    fn fmt<W: fmt::Write>(&self, f: &mut fmt::Formatter<W>) -> fmt::Result {
        match &self.0 {
            Ok(value) => write!(f, "{value}"),
            Err(why) => write!(f, "{}", Refused(*why)),
        }
    }
}
