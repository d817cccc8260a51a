//! Frames and their operands.
ghost use Rattle.std.specs.Prelude.{◌≡◌, false, IfOk};
ghost use Rattle.css_pexpr.specs.Frames.{is_open, applied, frame_node, reduce};
ghost use Rattle.css_pexpr.specs.Shapes.{frame, node, operand_of};
ghost use Rattle.css_pexpr.specs.Stacks.{stack};

use crate::build::{assigned, binary, cast, conditional, prefixed, sequence};
use crate::frame::{Frame, Operand};
use crate::node::Node;
use crate::stack::Stack;
use css_base::NoMemory;
use std::alloc::Global;

/// What a frame that isn't open makes of its operand.
pub(crate) fn apply(
    alloc: Global,
    most: u32,
    last: Frame,
    operand: Operand,
) -> Result<Operand, NoMemory>
    requires closed { is_open (frame last) ≡ false }
    ensures { IfOk result (λ x. operand_of x ≡ applied most (frame last) (operand_of operand)) }
{
    let level = last.level();
    let first = last.line();
    let node = node_of(alloc, most, last, operand.node)?;
    Ok(Operand {
        level,
        line: first,
        node,
    })
}

/// The node that a frame that isn't open makes of its operand's.
fn node_of(alloc: Global, most: u32, last: Frame, inner: Node) -> Result<Node, NoMemory>
    requires closed { is_open (frame last) ≡ false }
    ensures { IfOk result (λ n. node n ≡ frame_node most (frame last) (node inner)) }
{
    match last {
        Frame::Prefix { line, operator } => prefixed(alloc, most, operator, line, inner),
        Frame::Cast { line, to } => cast(alloc, most, line, to, inner),
        Frame::Infix {
            line,
            left,
            operator,
        } => binary(alloc, most, line, operator, left, inner),
        Frame::Otherwise {
            line,
            condition,
            first,
        } => conditional(alloc, most, line, condition, first, inner),
        Frame::Assign {
            line,
            place,
            operator,
        } => assigned(alloc, most, line, operator, place, inner),
        Frame::Sequence { line, left } => sequence(alloc, most, line, left, inner),
        other => {
            drop(other);
            Ok(inner)
        }
    }
}

/// The operand with the frames of a level or tighter ones put together.
pub(crate) fn reduce(
    alloc: Global,
    most: u32,
    level: u8,
    frames: &mut Stack,
    operand: Operand,
) -> Result<Operand, NoMemory>
    ensures { IfOk result (λ x. record { stack = stack frames.new; operand = operand_of x } ≡ reduce most level (stack frames.old) (operand_of operand)) }
{
    let mut operand = operand;
    while let Some(last) = frames.pop() {
        if last.is_open() || last.level() < level {
            frames.push(last)?;
            break;
        }
        operand = apply(alloc, most, last, operand)?;
    }
    Ok(operand)
}
