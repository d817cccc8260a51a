//! What was read of an expression.

ghost use Rattle.std.specs.Prelude.{◌≡◌, List, false};
ghost use Rattle.css_tree.specs.Expressions.{postfix};
ghost use Rattle.css_pexpr.specs.Frames as spec;
ghost use Rattle.css_pexpr.specs.Frames.{operand};
ghost use Rattle.css_pexpr.specs.Reading.{Has};
ghost use Rattle.css_pexpr.specs.Shapes.{node};
ghost use Rattle.css_pexpr.specs.States.{state_of};

use crate::frame::Operand;
use crate::node::Node;
use css_base::Line;
use css_tree::TypeName;

/// What was read, behind frames.
#[derive(Drop)]
pub(crate) enum State {
    /// An operand is wanted.
    Wants,
    /// An operand was read, which may be a name alone.
    Has { is_name: bool, operand: Operand },
    /// A type behind a parenthesis of this line, so far.
    Types { line: Line, so_far: TypeName },
}

/// A token that is an operand.
pub(crate) fn has(line: Line, tree: Node) -> State
    ensures { (frames : List spec.Frame) → state_of frames result ≡ Has frames false (operand postfix line (node tree)) }
{
    State::Has {
        is_name: false,
        operand: Operand {
            level: 15,
            line,
            node: tree,
        },
    }
}
