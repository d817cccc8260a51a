//! Arguments of calls, and their windows.
ghost use Rattle.std.specs.Prelude.{◌≡◌, ◌≤◌, ◌<◌, ◌+◌, ◌*◌, ◌-◌, ◌^◌, true, MatchOption};
ghost use Rattle.css_arguments.specs.Arguments.{is_unfit, IsWindowOf, is_bad_block, IsBlockOf, IsSpread, IsTooMuch, IsProduct, IsTooLong, IsLength};

use css_base::Direction;
use css_record::Window;

// The most bytes that a window spans.
const LARGEST: u32 = 1_073_741_824;

/// The dimensions of an argument.
#[derive(Drop)]
pub enum Dims {
    /// Their values in order; of a strided argument they are rows, width and stride.
    Values(Vec<i64>),
    /// The evaluation of one was at fault.
    Stopped,
}

/// What a call of a task gives for a pointer.
#[derive(Drop)]
pub struct Argument {
    /// The pointer.
    pub base: u32,
    /// The bytes of an element.
    pub element: u32,
    pub dims: Dims,
    /// Whether the dimensions are rows, width and stride.
    pub strided: bool,
    pub direction: Direction,
}

impl Argument {
    /// Its window. None where a dimension is at fault.
    pub fn window(&self) -> Option<Window>
        requires { 1 ≤ self.now.element }
        ensures { MatchOption result (is_unfit self.now ≡ true) (IsWindowOf self.now) }
    {
        match &self.dims {
            Dims::Stopped => None,
            Dims::Values(values) => {
                if self.strided && values.len() == 3 {
                    block(self.base, self.element, values[0], values[1], values[2])
                } else {
                    let length = length(self.element, values)?;
                    Some(Window::plain(self.base, length))
                }
            }
        }
    }
}

// The bytes of one row of elements, as many as the product of some dimensions is. None where one isn't a dimension, or the row is too
// long.
fn length(element: u32, dimensions: &[i64]) -> Option<u32>
    requires { 1 ≤ element }
    ensures { MatchOption result (IsTooLong element dimensions.now) (IsLength element dimensions.now) }
{
    let mut length = element;
    for dimension in dimensions {
        length = times(length, *dimension)?;
    }
    if length <= LARGEST {
        Some(length)
    } else {
        None
    }
}

// The window of so many rows, whose width and stride are in elements. None where one of the three isn't a dimension, the width is
// over the stride, or the window spans too much.
fn block(base: u32, element: u32, rows: i64, width: i64, stride: i64) -> Option<Window>
    requires { 1 ≤ element }
    ensures { MatchOption result (is_bad_block base element rows width stride ≡ true) (IsBlockOf base element rows width stride) }
{
    if stride < width {
        return None;
    }
    let row = times(element, width)?;
    if rows == 1 {
        return Some(Window::plain(base, row));
    }
    let count = times(1, rows)?;
    let step = times(element, stride)?;
    if row == step {
        let length = times(row, rows)?;
        return Some(Window::plain(base, length));
    }
    spread(base, count, row, step)
}

// The window of so many rows that don't lie behind one another. None where it spans too much.
fn spread(base: u32, rows: u32, width: u32, stride: u32) -> Option<Window>
    requires rows { (2 ≤ rows) × (rows ≤ 2 ^ 30) }
    requires width { (1 ≤ width) × (width < stride) }
    requires stride { stride ≤ 2 ^ 30 }
    ensures { MatchOption result (2 ^ 30 < (rows - 1) * stride + width) (IsSpread base rows width stride) }
{
    let span = u64::from(rows - 1) * u64::from(stride) + u64::from(width);
    if u64::from(LARGEST) < span {
        return None;
    }
    Some(Window {
        base,
        rows,
        width,
        stride,
    })
}

// So many bytes times a dimension. None where it isn't one, or they are too many.
fn times(count: u32, dimension: i64) -> Option<u32>
    requires { 1 ≤ count }
    ensures { MatchOption result (IsTooMuch count dimension) (IsProduct count dimension) }
{
    if dimension < 1 || i64::from(LARGEST) < dimension {
        return None;
    }
    let product = u64::from(count) * dimension.unsigned_abs();
    if product <= u64::from(LARGEST) {
        Some(product as u32)
    } else {
        None
    }
}
