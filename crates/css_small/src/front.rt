//! The front end's calls.
ghost use Rattle.std.specs.Prelude.{◌≡◌, ℕ, List, IfOk, IfErr};
ghost use Rattle.css_base.specs.declared.static_fault.StaticFault.{StaticFault as Fault};
ghost use Rattle.css_small.specs.Tree.{Program, program};
ghost use Rattle.css_small.specs.Numbers.{HasNumbers};
ghost use Rattle.css_small.specs.Texts.{Spells, IsRefused, IfRefused, not_built};

use crate::functions::program_of;
use crate::tree;
use crate::tree_fault::TreeFault;
use css_base::{FrontFault, Line, StaticFault, StaticName};
use css_lex::{lex, lexed_or_refused, one_lexing};
use css_parse::{never_both, one_refusal, one_tree, parse};
use std::alloc::Global;

/// The program that the text spells.
///
/// # Errors
///
/// `TooLong`, `BadByte`, `BadToken`, `BadMacro` or `BadConstant` (S1 to S4, S12) where the text has no tokens, `Unsupported`,
/// `TooDeep` or `Syntax` (S15, S6, S5) where these have no tree, and `NotBuilt` (S0) with line 1 where that isn't of the small
/// language. `NoMemory` where there was no memory.
pub fn read_program(alloc: Global, text: &[u8]) -> Result<tree::Program, FrontFault>
    ensures ok { IfOk result (λ p. Spells text.now (program p)) }
    ensures refused { IfErr result (IfRefused text.now) }
{
    let tokens = lex(alloc, text)?;
    let tree = parse(alloc, &tokens)?;
    match program_of(alloc, &tree) {
        Ok(program) => Ok(program),
        Err(TreeFault::NotSmall) => Err(not_built()),
        Err(TreeFault::NoMemory) => Err(FrontFault::NoMemory),
    }
}

/// S0 with line 1.
fn not_built() -> FrontFault
    ensures { result ≡ FrontFault.Static not_built }
{
    FrontFault::Static(StaticFault {
        name: StaticName::NotBuilt,
        line: Line::new(1),
    })
}

/// A text spells at most one program, is refused with at most one fault, and isn't both.
pub fn one_reading()
    ensures program { (text : List ℕ) (p q : Program) → Spells text p → Spells text q → p ≡ q }
    ensures fault { (text : List ℕ) (f g : Fault) → IsRefused text f → IsRefused text g → f ≡ g }
    ensures apart { (text : List ℕ) (p : Program) (f : Fault) → Spells text p → IsRefused text f → ⊥ }
{
    one_lexing();
    one_tree();
    one_refusal();
    never_both();
}

/// No text is neither spelled nor refused.
pub fn never_neither()
    ensures { (text : List ℕ) → ((p : Program) → Spells text p → ⊥) → ((f : Fault) → IsRefused text f → ⊥) → ⊥ }
{
    lexed_or_refused();
    css_parse::never_neither();
}

/// The numbers of a program are in their ranges: each function has at most 1,000 variables, its constants have type int, and it
/// names nothing but its own objects and, in main, the functions.
pub fn numbers_fit()
    ensures { (text : List ℕ) (p : Program) → Spells text p → HasNumbers p }
{}
