//! Reading a directive.
ghost use Rattle.std.specs.Prelude.{◌≡◌, true, false, IfOk, IfErr};
ghost use Rattle.css_base.specs.Tokens.{lexemes};
ghost use Rattle.css_base.specs.declared.static_fault.FrontFault.TheVariants as faults;
ghost use Rattle.css_tree.specs.Shapes as shapes;
ghost use Rattle.css_pragma.specs.Effects.{directive_has_effect};
ghost use Rattle.css_pragma.specs.Refusals.{IsAccepted, IfRefused};

use crate::brackets::is_shallow;
use crate::effects::directive_has_effect;
use crate::place::Place;
use crate::spelled::spelled;
use crate::unread::Unread;
use css_base::{FrontFault, Line, StaticFault, StaticName, Tokens};
use css_tree::Directive;
use std::alloc::Global;

/// The directive that the words behind `#pragma css` spell, where it stands in this place and line.
///
/// # Errors
///
/// Both rules come with the directive's line. `BadDirective` (S14) where the words aren't a directive that the place allows, a
/// prefix of them leaves more than 200 brackets open, or an expression in them has more than 500 levels; else `SideEffect`
/// (S23) where a dimension or an expression of a wait holds an assignment, `++`, `--` or a call. `NoMemory` where there was no
/// memory.
pub fn read_directive(
    alloc: Global,
    words: &Tokens,
    place: Place,
    line: Line,
) -> Result<Directive, FrontFault>
    ensures ok { IfOk result (λ d. IsAccepted place line (lexemes words.now.items) (shapes.directive d)) }
    ensures refused { IfErr result (λ fault. IfRefused place line (lexemes words.now.items) fault) }
{
    let words = words.as_slice();
    if !is_shallow(words) {
        return Err(refused(StaticName::BadDirective, line));
    }
    match spelled(alloc, words, place, line) {
        Ok(directive) => without_effect(directive, line),
        Err(Unread::NotSpelled) => Err(refused(StaticName::BadDirective, line)),
        Err(Unread::NoMemory) => Err(FrontFault::NoMemory),
    }
}

/// The directive, where its expressions do nothing but give values, and else S23.
fn without_effect(directive: Directive, line: Line) -> Result<Directive, FrontFault>
    ensures ok { IfOk result (λ d. (d ≡ directive) × (directive_has_effect (shapes.directive d) ≡ false)) }
    ensures refused { IfErr result (λ fault. (fault ≡ faults.Static (record { name = StaticName.SideEffect; line = line }))
        × (directive_has_effect (shapes.directive directive) ≡ true)) }
{
    if directive_has_effect(&directive) {
        Err(refused(StaticName::SideEffect, line))
    } else {
        Ok(directive)
    }
}

/// A rule that is broken in a line.
fn refused(name: StaticName, line: Line) -> FrontFault
    ensures { result ≡ faults.Static (record { name = name; line = line }) }
{
    FrontFault::Static(StaticFault { name, line })
}
