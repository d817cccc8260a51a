//! Tokens behind an operand.
ghost use Rattle.std.specs.Prelude.{◌≡◌, List, Bool, Some, option_map, IfOk};
ghost use Rattle.css_base.specs.Tokens.{kind_of};
ghost use Rattle.css_pexpr.specs.Frames as spec;
ghost use Rattle.css_pexpr.specs.Frames.{joint_frame};
ghost use Rattle.css_pexpr.specs.Reading.{taken, joined, followed, step_having};
ghost use Rattle.css_pexpr.specs.Shapes.{frame, node, operand_of};
ghost use Rattle.css_pexpr.specs.Stacks.{stack};
ghost use Rattle.css_pexpr.specs.States.{state_of};

use crate::apply::reduce;
use crate::build::{decremented, incremented};
use crate::call::{no_arguments, with_argument};
use crate::closing::{divided, grouped, indexed};
use crate::follow::{Follow, Joint, follow_spelled};
use crate::frame::{Frame, Operand};
use crate::manner::Manner;
use crate::node::Node;
use crate::stack::Stack;
use crate::state::{State, has};
use css_base::{Line, NoMemory, TokenKind};
use std::alloc::Global;

/// The state behind a token behind an operand.
pub(crate) fn step_having(
    alloc: Global,
    manner: Manner,
    frames: &mut Stack,
    is_name: bool,
    x: Operand,
    kind: &TokenKind,
) -> Result<Option<State>, NoMemory>
    ensures { IfOk result (λ o. option_map (state_of (stack frames.new)) o
        ≡ step_having manner (stack frames.old) is_name (operand_of x) (kind_of kind.now)) }
{
    let TokenKind::Punctuator(bytes) = kind else {
        return Ok(None);
    };
    let Some(follow) = follow_spelled(bytes.as_slice()) else {
        return Ok(None);
    };
    followed(alloc, manner, frames, is_name, x, follow)
}

/// The state behind a punctuator behind an operand.
fn followed(
    alloc: Global,
    manner: Manner,
    frames: &mut Stack,
    is_name: bool,
    x: Operand,
    follow: Follow,
) -> Result<Option<State>, NoMemory>
    ensures { IfOk result (λ o. option_map (state_of (stack frames.new)) o
        ≡ followed manner (stack frames.old) is_name (operand_of x) (Some follow)) }
{
    match follow {
        Follow::Joint(joint) => {
            let left = reduce(alloc, manner.most, joint.reduce_level(), frames, x)?;
            joined(manner, joint, frames, left)
        }
        Follow::Colon => {
            let first = reduce(alloc, manner.most, 0, frames, x)?;
            divided(frames, first)
        }
        Follow::CloseParenthesis => {
            let last = reduce(alloc, manner.most, 0, frames, x)?;
            grouped(manner, frames, last)
        }
        Follow::CloseBracket => {
            let index = reduce(alloc, manner.most, 0, frames, x)?;
            indexed(alloc, manner, frames, index)
        }
        Follow::OpenBracket => opened(frames, x),
        Follow::OpenParenthesis => passing(alloc, frames, is_name, x),
        Follow::Increment => increment(alloc, manner, x),
        Follow::Decrement => decrement(alloc, manner, x),
    }
}

/// A bracket behind an array.
fn opened(frames: &mut Stack, array: Operand) -> Result<Option<State>, NoMemory>
    ensures { IfOk result (λ o. (m : Manner) (b : Bool) → option_map (state_of (stack frames.new)) o
        ≡ followed m (stack frames.old) b (operand_of array) (Some Follow.OpenBracket)) }
{
    if array.level < 15 {
        return Ok(None);
    }
    frames.push(Frame::Element {
        line: array.line,
        array: array.node,
    })?;
    Ok(Some(State::Wants))
}

/// A parenthesis behind a name.
fn passing(
    alloc: Global,
    frames: &mut Stack,
    is_name: bool,
    callee: Operand,
) -> Result<Option<State>, NoMemory>
    ensures { IfOk result (λ o. (m : Manner) → option_map (state_of (stack frames.new)) o
        ≡ followed m (stack frames.old) is_name (operand_of callee) (Some Follow.OpenParenthesis)) }
{
    if !is_name {
        return Ok(None);
    }
    frames.push(Frame::Call {
        line: callee.line,
        callee: callee.node,
        arguments: no_arguments(alloc),
    })?;
    Ok(Some(State::Wants))
}

/// An operator or comma behind what was put together.
fn joined(
    manner: Manner,
    joint: Joint,
    frames: &mut Stack,
    left: Operand,
) -> Result<Option<State>, NoMemory>
    ensures { IfOk result (λ o. option_map (state_of (stack frames.new)) o ≡ joined manner joint (stack frames.old) (operand_of left)) }
{
    match joint {
        Joint::Comma => comma(manner, frames, left),
        _ => operator(manner, joint, frames, left),
    }
}

/// A comma: behind an argument, or between two expressions.
fn comma(manner: Manner, frames: &mut Stack, left: Operand) -> Result<Option<State>, NoMemory>
    ensures { IfOk result (λ o. option_map (state_of (stack frames.new)) o ≡ joined manner Joint.Comma (stack frames.old) (operand_of left)) }
{
    let Some(last) = frames.pop() else {
        return operator(manner, Joint::Comma, frames, left);
    };
    match last {
        Frame::Call {
            line,
            callee,
            arguments,
        } => {
            let arguments = with_argument(arguments, left.node)?;
            frames.push(Frame::Call {
                line,
                callee,
                arguments,
            })?;
            Ok(Some(State::Wants))
        }
        other => {
            frames.push(other)?;
            operator(manner, Joint::Comma, frames, left)
        }
    }
}

/// An operator, where its operand and the frames take it.
fn operator(
    manner: Manner,
    joint: Joint,
    frames: &mut Stack,
    left: Operand,
) -> Result<Option<State>, NoMemory>
    ensures { IfOk result (λ o. option_map (state_of (stack frames.new)) o ≡ taken manner joint (stack frames.old) (operand_of left)) }
{
    if left.level < joint.left_level() || frames.wanted(manner.level) > joint.own_level() {
        return Ok(None);
    }
    frames.push(joint_frame(joint, left.line, left.node))?;
    Ok(Some(State::Wants))
}

/// The frame of an operator behind its left operand.
fn joint_frame(joint: Joint, line: Line, left: Node) -> Frame
    ensures { frame result ≡ joint_frame joint line (node left) }
{
    match joint {
        Joint::Comma => Frame::Sequence { line, left },
        Joint::Assign(operator) => Frame::Assign {
            line,
            place: left,
            operator,
        },
        Joint::Question => Frame::Question {
            line,
            condition: left,
        },
        Joint::Binary(operator) => Frame::Infix {
            line,
            left,
            operator,
        },
    }
}

/// `++` behind an operand.
fn increment(alloc: Global, manner: Manner, x: Operand) -> Result<Option<State>, NoMemory>
    ensures { IfOk result (λ o. (frames : List spec.Frame) (b : Bool) → option_map (state_of frames) o
        ≡ followed manner frames b (operand_of x) (Some Follow.Increment)) }
{
    if x.level < 15 {
        return Ok(None);
    }
    let first = x.line;
    let made = incremented(alloc, manner.most, x.line, x.node)?;
    Ok(Some(has(first, made)))
}

/// `--` behind an operand.
fn decrement(alloc: Global, manner: Manner, x: Operand) -> Result<Option<State>, NoMemory>
    ensures { IfOk result (λ o. (frames : List spec.Frame) (b : Bool) → option_map (state_of frames) o
        ≡ followed manner frames b (operand_of x) (Some Follow.Decrement)) }
{
    if x.level < 15 {
        return Ok(None);
    }
    let first = x.line;
    let made = decremented(alloc, manner.most, x.line, x.node)?;
    Ok(Some(has(first, made)))
}
