//! From a number to the sizes of its program.
ghost use Rattle.std.specs.Prelude.{◌≡◌};
ghost use Rattle.css_make.specs.Shape.{shape_of};

use crate::sizes::Shape;

/// The sizes that a number stands for: it counts first through the numbers of blocks, then through the sizes of blocks,
/// then through the values.
pub fn shape(number: u32) -> Shape
    ensures { result ≡ shape_of number }
{
    Shape {
        nb: 4 + number % 13,
        bs: 4 * (1 + number / 13 % 8),
        v: number / 104 + 1,
    }
}
