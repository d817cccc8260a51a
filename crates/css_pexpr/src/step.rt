//! One token more.
ghost use Rattle.std.specs.Prelude.{◌≡◌, option_map, IfOk};
ghost use Rattle.css_base.specs.Tokens.{lexeme};
ghost use Rattle.css_pexpr.specs.Reading.{step};
ghost use Rattle.css_pexpr.specs.Stacks.{stack};
ghost use Rattle.css_pexpr.specs.States.{state_of};

use crate::having::step_having;
use crate::manner::Manner;
use crate::stack::Stack;
use crate::state::State;
use crate::typing::step_type;
use crate::wanting::step_wanting;
use css_base::{NoMemory, Token};
use std::alloc::Global;

/// The state behind one token more, where it can be read.
pub(crate) fn step(
    alloc: Global,
    manner: Manner,
    frames: &mut Stack,
    state: State,
    token: &Token,
) -> Result<Option<State>, NoMemory>
    ensures { IfOk result (λ o. option_map (state_of (stack frames.new)) o ≡ step manner (state_of (stack frames.old) state) (lexeme token.now)) }
{
    match state {
        State::Wants => step_wanting(alloc, manner, frames, token.line, &token.kind),
        State::Has { is_name, operand } => {
            step_having(alloc, manner, frames, is_name, operand, &token.kind)
        }
        State::Types { line, so_far } => {
            step_type(alloc, manner, frames, line, so_far, &token.kind)
        }
    }
}
