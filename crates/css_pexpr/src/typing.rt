//! Tokens of a type.
ghost use Rattle.std.specs.Prelude.{◌≡◌, List, false, option_map, IfOk};
ghost use Rattle.css_base.specs.Tokens.{kind_of};
ghost use Rattle.css_tree.specs.Shapes.{type_name, stars};
ghost use Rattle.css_pexpr.specs.Frames as spec;
ghost use Rattle.css_tree.specs.Syntax.{SizeofType};
ghost use Rattle.css_tree.specs.Expressions.{unary};
ghost use Rattle.css_pexpr.specs.Frames.{operand, capped};
ghost use Rattle.css_pexpr.specs.Reading.{Has, ended, type_word, type_mark, step_type, with_specifier, with_star, with_qualifier};
ghost use Rattle.css_pexpr.specs.Stacks.{stack};
ghost use Rattle.css_pexpr.specs.States.{state_of};

use crate::build::leaf;
use crate::frame::{Frame, Operand};
use crate::manner::Manner;
use crate::stack::Stack;
use crate::state::State;
use crate::words::{qualifier_spelled, specifier_of};
use css_base::{Line, NoMemory, TokenKind};
use css_tree::{Expression, Qualifier, Specifier, Star, TypeName};
use std::alloc::Global;

/// The state behind a token of a type.
pub(crate) fn step_type(
    alloc: Global,
    manner: Manner,
    frames: &mut Stack,
    line: Line,
    so_far: TypeName,
    kind: &TokenKind,
) -> Result<Option<State>, NoMemory>
    ensures { IfOk result (λ o. option_map (state_of (stack frames.new)) o ≡ step_type manner (stack frames.old) line (type_name so_far) (kind_of kind.now)) }
{
    match kind {
        TokenKind::Word(bytes) => type_word(manner, line, so_far, bytes.as_slice()),
        TokenKind::Punctuator(bytes) => {
            type_mark(alloc, manner, frames, line, so_far, bytes.as_slice())
        }
        _ => Ok(None),
    }
}

/// A word of a type: of its front, or behind a star.
fn type_word(
    manner: Manner,
    line: Line,
    so_far: TypeName,
    bytes: &[u8],
) -> Result<Option<State>, NoMemory>
    ensures { IfOk result (λ o. (frames : List spec.Frame)
        → option_map (state_of frames) o ≡ type_word manner frames line (type_name so_far) (stars so_far.stars.items) bytes.now) }
{
    if so_far.stars.is_empty() {
        let Some(specifier) = specifier_of(manner.scope, bytes) else {
            return Ok(None);
        };
        let so_far = with_specifier(so_far, specifier)?;
        Ok(Some(State::Types { line, so_far }))
    } else {
        let Some(qualifier) = qualifier_spelled(bytes) else {
            return Ok(None);
        };
        let so_far = with_qualifier(so_far, qualifier)?;
        Ok(Some(State::Types { line, so_far }))
    }
}

/// One more word of a type's front.
fn with_specifier(so_far: TypeName, specifier: Specifier) -> Result<TypeName, NoMemory>
    ensures { IfOk result (λ t. type_name t ≡ with_specifier (type_name so_far) specifier) }
{
    let TypeName { specifiers, stars } = so_far;
    let mut specifiers = specifiers;
    specifiers.push(specifier)?;
    Ok(TypeName { specifiers, stars })
}

/// One more word behind the last star.
fn with_qualifier(so_far: TypeName, qualifier: Qualifier) -> Result<TypeName, NoMemory>
    ensures { IfOk result (λ t. type_name t ≡ with_qualifier (type_name so_far) qualifier) }
{
    let TypeName { specifiers, stars } = so_far;
    let mut stars = stars;
    if let Some(last) = stars.pop() {
        let mut qualifiers = last.qualifiers;
        qualifiers.push(qualifier)?;
        stars.push(Star { qualifiers })?;
    }
    Ok(TypeName { specifiers, stars })
}

/// One more star.
fn with_star(alloc: Global, so_far: TypeName) -> Result<TypeName, NoMemory>
    ensures { IfOk result (λ t. type_name t ≡ with_star (type_name so_far)) }
{
    let TypeName { specifiers, stars } = so_far;
    let mut stars = stars;
    stars.push(Star {
        qualifiers: Vec::new(alloc),
    })?;
    Ok(TypeName { specifiers, stars })
}

/// A star, or the parenthesis behind a type.
fn type_mark(
    alloc: Global,
    manner: Manner,
    frames: &mut Stack,
    line: Line,
    so_far: TypeName,
    bytes: &[u8],
) -> Result<Option<State>, NoMemory>
    ensures { IfOk result (λ o. option_map (state_of (stack frames.new)) o ≡ type_mark manner (stack frames.old) line (type_name so_far) bytes.now) }
{
    if bytes == b"*".as_slice() {
        let so_far = with_star(alloc, so_far)?;
        return Ok(Some(State::Types { line, so_far }));
    }
    if bytes == b")".as_slice() {
        let next = ended(manner, frames, line, so_far)?;
        return Ok(Some(next));
    }
    Ok(None)
}

/// A type behind which the parenthesis is closed: the operand of `sizeof`, or a cast.
fn ended(
    manner: Manner,
    frames: &mut Stack,
    line: Line,
    so_far: TypeName,
) -> Result<State, NoMemory>
    ensures { IfOk result (λ s. state_of (stack frames.new) s ≡ ended manner (stack frames.old) line (type_name so_far)) }
{
    match frames.last_sizeof() {
        Some(first) => {
            drop(frames.pop());
            Ok(sizeof_type(manner.most, first, so_far))
        }
        None => {
            frames.push(Frame::Cast { line, to: so_far })?;
            Ok(State::Wants)
        }
    }
}

/// `sizeof` with a type.
fn sizeof_type(most: u32, line: Line, of: TypeName) -> State
    ensures { (frames : List spec.Frame) → state_of frames result
        ≡ Has frames false (operand unary line (capped most (SizeofType line (type_name of)))) }
{
    let first = line;
    let tree = Expression::SizeofType { line, of };
    let operand = Operand {
        level: 14,
        line: first,
        node: leaf(most, tree),
    };
    State::Has {
        is_name: false,
        operand,
    }
}
