//! Arguments of calls.
ghost use Rattle.std.specs.Prelude.{◌≡◌, ◌++◌, ◌∷◌, [], Ok, Err, map, IfOk, OnOk, IsErrOf};
ghost use Rattle.css_base.specs.declared.static_fault.StaticFault.{StaticFault as Fault};
ghost use Rattle.css_core.specs.Shapes.{listed};
ghost use Rattle.css_types.specs.Operands as rules;
ghost use Rattle.css_type_table.specs.Flat.{ctype};
ghost use Rattle.css_operands.specs.Shapes.{operands_of};

use crate::operand::Operand;
use crate::refusal::{Refusal, broken};
use crate::values::converted_to;
use css_base::{Line, NoMemory, StaticName};
use css_core::Expression;
use css_type_table::{CType, TypeTable};
use std::alloc::Global;

/// Arguments converted to the types of parameters. One too many or too few breaks the rule on types too.
pub fn converted_arguments(
    alloc: Global,
    table: &TypeTable,
    line: Line,
    types: &[CType],
    arguments: Vec<Operand>,
) -> Result<Vec<Expression>, Refusal>
    ensures ok { IfOk result (λ all. rules.converted_arguments line (map (ctype table.now) types.now) (operands_of table.now arguments.items) ≡ Ok (listed all.items)) }
    ensures broken { (f : Fault) → IsErrOf result (Refusal.Broken f)
        → rules.converted_arguments line (map (ctype table.now) types.now) (operands_of table.now arguments.items) ≡ Err f }
{
    let mut all = Vec::new(alloc);
    let mut rest = types;
    for argument in arguments {
        let Some((t, others)) = rest.split_first() else {
            return Err(broken(StaticName::TypeMismatch, line));
        };
        let e = converted_to(alloc, table, line, *t, argument)?;
        add(&mut all, e)?;
        rest = others;
    }
    match rest {
        [] => Ok(all),
        _ => Err(broken(StaticName::TypeMismatch, line)),
    }
}

/// One more behind the others.
fn add(all: &mut Vec<Expression>, next: Box<Expression>) -> Result<(), NoMemory>
    ensures ok { OnOk result (all.new.items ≡ all.old.items ++ next.value ∷ []) }
{
    Ok(all.push(Box::into_inner(next))?)
}
