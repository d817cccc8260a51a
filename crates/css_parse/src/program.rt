//! Programs.
ghost use Rattle.std.specs.Prelude.{◌≡◌, IfOk, IfErr};
ghost use Rattle.css_base.specs.Tokens.{lexemes};
ghost use Rattle.css_base.specs.declared.static_fault.FrontFault.TheVariants as faults;
ghost use Rattle.css_tree.specs.Shapes.{tree};
ghost use Rattle.css_parse.specs.Refusals.{Spells, IsAccepted, IfRefused, IfUnspelled};

use crate::brackets::too_deep;
use crate::gather::add;
use crate::item::item;
use crate::unspelled::Unspelled;
use crate::unsupported::first_unsupported;
use css_base::{FrontFault, Line, StaticFault, StaticName, Token, Tokens};
use css_tree::Tree;
use std::alloc::Global;

/// The most levels of a tree.
const MOST_LEVELS: u32 = 500;

/// The program that tokens spell.
///
/// # Errors
///
/// `Unsupported` (S15) with the line of the first keyword that this profile leaves out; else `TooDeep` (S6) with the line of
/// the 201st bracket that is open at a time; else `Syntax` (S5), where no tree of at most 500 levels is spelled, with the line
/// of the token behind the longest front that spells one. `NoMemory` where there was no memory.
pub fn parse(alloc: Global, tokens: &Tokens) -> Result<Tree, FrontFault>
    ensures ok { IfOk result (λ t. IsAccepted (lexemes tokens.now.items) (tree t)) }
    ensures refused { IfErr result (λ fault. IfRefused (lexemes tokens.now.items) fault) }
{
    let tokens = tokens.as_slice();
    if let Some(line) = first_unsupported(tokens) {
        return Err(refused(StaticName::Unsupported, line));
    }
    if let Some(line) = too_deep(tokens) {
        return Err(refused(StaticName::TooDeep, line));
    }
    items(alloc, tokens)
}

/// The items that tokens are.
fn items(alloc: Global, tokens: &[Token]) -> Result<Tree, FrontFault>
    ensures ok { IfOk result (λ t. Spells (lexemes tokens.now) (tree t)) }
    ensures refused { IfErr result (λ fault. IfUnspelled (lexemes tokens.now) fault) }
{
    let mut items = Vec::new(alloc);
    let mut rest = tokens;
    while let Some(first) = rest.first() {
        match item(alloc, rest, MOST_LEVELS) {
            Ok((next, others)) => {
                let Ok(()) = add(&mut items, next) else {
                    return Err(FrontFault::NoMemory);
                };
                rest = others;
            }
            Err(Unspelled::NotSpelled) => return Err(refused(StaticName::Syntax, first.line)),
            Err(Unspelled::NoMemory) => return Err(FrontFault::NoMemory),
        }
    }
    Ok(Tree { items })
}

/// A rule that is broken in a line.
fn refused(name: StaticName, line: Line) -> FrontFault
    ensures { result ≡ faults.Static (record { name = name; line = line }) }
{
    FrontFault::Static(StaticFault { name, line })
}
