//! Tokens where an operand is wanted.
ghost use Rattle.std.specs.Prelude.{◌≡◌, ℕ, List, Some, option_map, IfOk};
ghost use Rattle.css_base.specs.Tokens.{kind_of};
ghost use Rattle.css_pexpr.specs.Frames as spec;
ghost use Rattle.css_pexpr.specs.Shapes.{node, arguments};
ghost use Rattle.css_pexpr.specs.Reading.{led, closed_call, begun, first_word, step_word, step_wanting};
ghost use Rattle.css_pexpr.specs.Stacks.{stack};
ghost use Rattle.css_pexpr.specs.States.{state_of};

use crate::build::leaf;
use crate::closing::call;
use crate::frame::{Frame, Operand};
use crate::manner::Manner;
use crate::node::{Arguments, Node};
use crate::prefix::{Lead, Prefix, lead_spelled};
use crate::stack::Stack;
use crate::state::{State, has};
use crate::words::{is_keyword, specifier_of};
use css_base::{Bytes, IntType, Line, NoMemory, TokenKind};
use css_tree::{Expression, Specifier, TypeName};
use std::alloc::Global;

/// The state behind a token where an operand is wanted.
pub(crate) fn step_wanting(
    alloc: Global,
    manner: Manner,
    frames: &mut Stack,
    line: Line,
    kind: &TokenKind,
) -> Result<Option<State>, NoMemory>
    ensures { IfOk result (λ o. option_map (state_of (stack frames.new)) o ≡ step_wanting manner (stack frames.old) line (kind_of kind.now)) }
{
    match kind {
        TokenKind::Punctuator(bytes) => led(manner, frames, line, lead_spelled(bytes.as_slice())),
        TokenKind::Word(bytes) => step_word(alloc, manner, frames, line, bytes.as_slice()),
        TokenKind::Number { kind, value } => {
            let tree = Expression::Number {
                line,
                kind: *kind,
                value: *value,
            };
            Ok(Some(has(line, leaf(manner.most, tree))))
        }
        TokenKind::Character(byte) => {
            let tree = Expression::Number {
                line,
                kind: IntType::Int,
                value: u64::from(*byte),
            };
            Ok(Some(has(line, leaf(manner.most, tree))))
        }
        TokenKind::Text(bytes) => {
            let bytes = copied(alloc, bytes.as_slice())?;
            let tree = Expression::Text { line, bytes };
            Ok(Some(has(line, leaf(manner.most, tree))))
        }
        TokenKind::Directive(_) => Ok(None),
    }
}

/// These bytes once more.
fn copied(alloc: Global, bytes: &[u8]) -> Result<Bytes, NoMemory>
    ensures { IfOk result (λ b. b ≡ bytes.now) }
{
    Ok(Bytes::new(Vec::from_slice(alloc, bytes)?))
}

/// The state behind a punctuator where an operand is wanted.
fn led(
    manner: Manner,
    frames: &mut Stack,
    line: Line,
    lead: Option<Lead>,
) -> Result<Option<State>, NoMemory>
    ensures { IfOk result (λ o. option_map (state_of (stack frames.new)) o ≡ led manner (stack frames.old) line lead) }
{
    match lead {
        Some(Lead::Prefix(operator)) => {
            frames.push(Frame::Prefix { line, operator })?;
            Ok(Some(State::Wants))
        }
        Some(Lead::Open) => {
            frames.push(Frame::Group { line })?;
            Ok(Some(State::Wants))
        }
        Some(Lead::Close) => Ok(empty_call(manner, frames)),
        None => Ok(None),
    }
}

/// The call whose parenthesis is closed at once.
fn empty_call(manner: Manner, frames: &mut Stack) -> Option<State>
    ensures { (line : ℕ) → option_map (state_of (stack frames.new)) result ≡ led manner (stack frames.old) line (Some Lead.Close) }
{
    let last = frames.pop()?;
    match last {
        Frame::Call {
            line,
            callee,
            arguments,
        } => no_argument(manner.most, line, callee, arguments),
        other => {
            drop(other);
            None
        }
    }
}

/// A call without arguments, where none was read.
fn no_argument(most: u32, line: Line, callee: Node, given: Option<Arguments>) -> Option<State>
    ensures { (frames : List spec.Frame) → option_map (state_of frames) result ≡ closed_call most frames line (node callee) (arguments given) }
{
    let given = given?;
    if given.all.is_empty() {
        Some(call(most, line, callee, Some(given)))
    } else {
        None
    }
}

/// The state behind a word where an operand is wanted.
fn step_word(
    alloc: Global,
    manner: Manner,
    frames: &mut Stack,
    line: Line,
    bytes: &[u8],
) -> Result<Option<State>, NoMemory>
    ensures { IfOk result (λ o. option_map (state_of (stack frames.new)) o ≡ step_word manner (stack frames.old) line bytes.now) }
{
    if bytes == b"sizeof".as_slice() {
        let operator = Prefix::Sizeof;
        frames.push(Frame::Prefix { line, operator })?;
        return Ok(Some(State::Wants));
    }
    if is_keyword(bytes) {
        return begun(alloc, manner, frames, specifier_of(manner.scope, bytes));
    }
    let name = copied(alloc, bytes)?;
    let tree = Expression::Name { line, name };
    Ok(Some(State::Has {
        is_name: true,
        operand: Operand {
            level: 15,
            line,
            node: leaf(manner.most, tree),
        },
    }))
}

/// The first word of a type, behind a parenthesis.
fn begun(
    alloc: Global,
    manner: Manner,
    frames: &mut Stack,
    specifier: Option<Specifier>,
) -> Result<Option<State>, NoMemory>
    ensures { IfOk result (λ o. option_map (state_of (stack frames.new)) o ≡ begun manner (stack frames.old) specifier) }
{
    let Some(specifier) = specifier else {
        return Ok(None);
    };
    let Some(last) = frames.pop() else {
        return Ok(None);
    };
    match last {
        Frame::Group { line } => typed(alloc, manner, frames, line, specifier),
        other => {
            drop(other);
            Ok(None)
        }
    }
}

/// The first word of a type, where one may stand.
fn typed(
    alloc: Global,
    manner: Manner,
    frames: &Stack,
    line: Line,
    specifier: Specifier,
) -> Result<Option<State>, NoMemory>
    ensures { IfOk result (λ o. option_map (state_of (stack frames.now)) o ≡ first_word manner (stack frames.now) line specifier) }
{
    if !frames.takes_type(manner.level) {
        return Ok(None);
    }
    let mut specifiers = Vec::new(alloc);
    specifiers.push(specifier)?;
    let so_far = TypeName {
        specifiers,
        stars: Vec::new(alloc),
    };
    Ok(Some(State::Types { line, so_far }))
}
