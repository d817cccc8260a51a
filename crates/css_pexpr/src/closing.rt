//! What closes a bracket or a condition, behind an operand that was put together.
ghost use Rattle.std.specs.Prelude.{◌≡◌, List, Some, false, option_map, IfOk};
ghost use Rattle.css_tree.specs.Syntax.{Index};
ghost use Rattle.css_tree.specs.Expressions.{postfix};
ghost use Rattle.css_pexpr.specs.Frames as spec;
ghost use Rattle.css_pexpr.specs.Frames.{operand, made_of_two, called};
ghost use Rattle.css_pexpr.specs.Reading.{Has, divided, grouped, indexed};
ghost use Rattle.css_pexpr.specs.Shapes.{node, arguments, operand_of};
ghost use Rattle.css_pexpr.specs.Stacks.{stack};
ghost use Rattle.css_pexpr.specs.States.{state_of};

use crate::build::element;
use crate::call::{called, with_argument};
use crate::frame::{Frame, Operand};
use crate::manner::Manner;
use crate::node::{Arguments, Node};
use crate::stack::Stack;
use crate::state::{State, has};
use css_base::{Line, NoMemory};
use std::alloc::Global;

/// A colon behind what was put together.
pub(crate) fn divided(frames: &mut Stack, first: Operand) -> Result<Option<State>, NoMemory>
    ensures { IfOk result (λ o. option_map (state_of (stack frames.new)) o ≡ divided (stack frames.old) (operand_of first)) }
{
    let Some(last) = frames.pop() else {
        return Ok(None);
    };
    match last {
        Frame::Question { line, condition } => {
            frames.push(Frame::Otherwise {
                line,
                condition,
                first: first.node,
            })?;
            Ok(Some(State::Wants))
        }
        other => {
            drop(other);
            drop(first);
            Ok(None)
        }
    }
}

/// A closing parenthesis behind what was put together.
pub(crate) fn grouped(
    manner: Manner,
    frames: &mut Stack,
    last: Operand,
) -> Result<Option<State>, NoMemory>
    ensures { IfOk result (λ o. option_map (state_of (stack frames.new)) o ≡ grouped manner (stack frames.old) (operand_of last)) }
{
    let Some(opening) = frames.pop() else {
        return Ok(None);
    };
    match opening {
        Frame::Group { line } => Ok(Some(has(line, last.node))),
        Frame::Call {
            line,
            callee,
            arguments,
        } => {
            let arguments = with_argument(arguments, last.node)?;
            Ok(Some(call(manner.most, line, callee, arguments)))
        }
        other => {
            drop(other);
            drop(last);
            Ok(None)
        }
    }
}

/// A call that was read.
pub(crate) fn call(most: u32, line: Line, callee: Node, given: Option<Arguments>) -> State
    ensures { (frames : List spec.Frame) → state_of frames result
        ≡ Has frames false (operand postfix line (called most line (node callee) (arguments given))) }
{
    has(line, called(most, line, callee, given))
}

/// A closing bracket behind what was put together.
pub(crate) fn indexed(
    alloc: Global,
    manner: Manner,
    frames: &mut Stack,
    index: Operand,
) -> Result<Option<State>, NoMemory>
    ensures { IfOk result (λ o. option_map (state_of (stack frames.new)) o ≡ indexed manner (stack frames.old) (operand_of index)) }
{
    let Some(opening) = frames.pop() else {
        return Ok(None);
    };
    match opening {
        Frame::Element { line, array } => indexed_at(alloc, manner.most, line, array, index.node),
        other => {
            drop(other);
            drop(index);
            Ok(None)
        }
    }
}

/// An element of an array.
fn indexed_at(
    alloc: Global,
    most: u32,
    line: Line,
    array: Node,
    index: Node,
) -> Result<Option<State>, NoMemory>
    ensures { IfOk result (λ o. (frames : List spec.Frame) → option_map (state_of frames) o
        ≡ Some (Has frames false (operand postfix line (made_of_two most (Index line) (node array) (node index))))) }
{
    let first = line;
    let made = element(alloc, most, line, array, index)?;
    Ok(Some(has(first, made)))
}
