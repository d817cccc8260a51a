//! Reading tokens one behind another.
ghost use Rattle.std.specs.Prelude.{◌≡◌, Bool, None, option_map, IfOk};
ghost use Rattle.css_base.specs.Tokens.{lexemes};
ghost use Rattle.css_tree.specs.Shapes.{expression};
ghost use Rattle.css_pexpr.specs.Reading.{Has, start, is_whole, finished, longest_from, built};
ghost use Rattle.css_pexpr.specs.Shapes.{operand_of};
ghost use Rattle.css_pexpr.specs.Stacks.{stack};
ghost use Rattle.css_pexpr.specs.States.{state_of};

use crate::apply::reduce;
use crate::frame::Operand;
use crate::manner::Manner;
use crate::stack::Stack;
use crate::state::State;
use crate::step::step;
use css_base::{NoMemory, Token};
use css_tree::Expression;
use std::alloc::Global;

/// How many of the first tokens are the longest expression, if there is one. No tree is kept.
pub(crate) fn longest(
    alloc: Global,
    manner: Manner,
    tokens: &[Token],
) -> Result<Option<usize>, NoMemory>
    ensures { IfOk result (λ o. o ≡ longest_from manner start 0 None (lexemes tokens.now)) }
{
    let mut frames = Stack::new(alloc);
    let mut state = State::Wants;
    let mut best = None;
    let mut count: usize = 0;
    let mut rest = tokens;
    while let Some((token, others)) = rest.split_first() {
        let Some(next) = step(alloc, manner, &mut frames, state, token)? else {
            return Ok(best);
        };
        state = next;
        count += 1;
        if is_whole(&frames, &state) {
            best = Some(count);
        }
        rest = others;
    }
    Ok(best)
}

/// The expression that all of the tokens are, if it has no more levels than are kept.
pub(crate) fn build(
    alloc: Global,
    manner: Manner,
    tokens: &[Token],
) -> Result<Option<Expression>, NoMemory>
    ensures { IfOk result (λ o. option_map expression o ≡ built manner start (lexemes tokens.now)) }
{
    let mut frames = Stack::new(alloc);
    let mut state = State::Wants;
    let mut rest = tokens;
    while let Some((token, others)) = rest.split_first() {
        let Some(next) = step(alloc, manner, &mut frames, state, token)? else {
            return Ok(None);
        };
        state = next;
        rest = others;
    }
    finish(alloc, manner, &mut frames, state)
}

/// Whether an operand was read, and nothing has to be closed.
fn is_whole(frames: &Stack, state: &State) -> bool
    ensures { result ≡ is_whole (state_of (stack frames.now) state.now) }
{
    match state {
        State::Has { .. } => frames.is_closed(),
        _ => false,
    }
}

/// The tree of what was read, where that is whole.
fn finish(
    alloc: Global,
    manner: Manner,
    frames: &mut Stack,
    state: State,
) -> Result<Option<Expression>, NoMemory>
    ensures { IfOk result (λ o. option_map expression o ≡ finished manner (state_of (stack frames.old) state)) }
{
    match state {
        State::Has { operand, .. } => tree_of(alloc, manner, frames, operand),
        _ => Ok(None),
    }
}

/// The tree of an operand behind frames, where nothing has to be closed.
fn tree_of(
    alloc: Global,
    manner: Manner,
    frames: &mut Stack,
    operand: Operand,
) -> Result<Option<Expression>, NoMemory>
    ensures { IfOk result (λ o. (is_name : Bool) → option_map expression o ≡ finished manner (Has (stack frames.old) is_name (operand_of operand))) }
{
    if !frames.is_closed() {
        return Ok(None);
    }
    let whole = reduce(alloc, manner.most, 0, frames, operand)?;
    match whole.node {
        Some(known) => Ok(Some(known.into_tree())),
        None => Ok(None),
    }
}
