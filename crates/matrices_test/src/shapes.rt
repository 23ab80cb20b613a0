// Shapes and lengths, right and wrong, in all combinations.
use crate::tables::Shape;
use testing::{clip, product};

// Rows and columns. The first 4 shapes are right. The product of 2^32 and 2^32 would wrap to 0.
static ROWS: [usize; 8] = [3, 48, 0, 48, 49, 1, 4294967296, 18446744073709551615];

static COLS: [usize; 8] = [4, 48, 48, 0, 1, 49, 4294967296, 0];

#[derive(Clone, Copy, Debug, PartialEq, Eq)]
pub enum Length {
    Right,
    TooLong,
    TooShort,
}

pub static LENGTHS: [Length; 3] = [Length::Right, Length::TooLong, Length::TooShort];

pub fn shape_of(q: usize, n: usize) -> Shape {
    Shape {
        q,
        rows: ROWS[clip(n, 7)],
        cols: COLS[clip(n, 7)],
    }
}

// An empty table can only be too long.
pub fn length_of(shape: usize, length: Length) -> usize {
    let s = shape_of(0, shape);
    let m = product(s.rows, s.cols);
    match length {
        Length::Right => m,
        Length::TooLong => m + 1,
        Length::TooShort => if m == 0 { 5 } else { m - 1 },
    }
}
