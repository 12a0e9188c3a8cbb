//! Where things are, in pixels.

ghost use Rattle.std.specs.Prelude.{◌≡◌, ◌≤◌, Some};
ghost use Rattle.picture.specs.Picture.{point_at, point_text, reach_point, x_of, y_of};

use crate::arrow::Reach;
use std::fmt::{self, Display, Formatter};

/// A point of a picture.
#[derive(Clone, Copy)]
pub struct Point {
    /// How far to the right.
    pub x: u64,
    /// How far down.
    pub y: u64,
}

impl Display for Point {
    ghost output = { λ point. Some (point_text point) };

    fn fmt<W: fmt::Write>(&self, f: &mut Formatter<W>) -> fmt::Result {
        let Point { x, y } = self;
        write!(f, "{x},{y}")
    }
}

/// Where a column is.
pub fn x_of(column: u32) -> u64
    ensures { result ≡ x_of column }
{
    60 + 360 * column as u64
}

/// Where a line is.
pub fn y_of(line: u32) -> u64
    ensures place { result ≡ y_of line }
    ensures near { result ≤ 137438953568 }
{
    128 + 32 * line as u64
}

/// Where a column crosses a line.
pub fn point_at(column: u32, line: u32) -> Point
    ensures { result ≡ point_at column line }
{
    let (x, y) = (x_of(column), y_of(line));
    Point { x, y }
}

/// Where the other end of an arrow is drawn, whose row is in this column and on this line.
pub fn reach_point(column: u32, line: u32, reach: Reach) -> Point
    ensures { result ≡ reach_point column line reach }
{
    match reach {
        Reach::At { column, line } | Reach::Below { column, line } => point_at(column, line),
        Reach::Above { column } => Point {
            x: x_of(column),
            y: 104,
        },
        Reach::Nowhere => Point {
            x: x_of(column) - 30,
            y: y_of(line) + 10,
        },
    }
}
