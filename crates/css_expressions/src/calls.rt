//! What names mean as operands, and calls of functions.
ghost use Rattle.std.specs.Prelude.{◌≡◌, Ok, Err, IfOk, IsErrOf, option_map};
ghost use Rattle.css_base.specs.declared.static_fault.StaticFault.{StaticFault as Fault};
ghost use Rattle.css_core.specs.Core as core;
ghost use Rattle.css_core.specs.Shapes.{expression, listed};
ghost use Rattle.css_types.specs.Operands as operands;
ghost use Rattle.css_types.specs.Scopes as scopes;
ghost use Rattle.css_types.specs.Expressions as rules;
ghost use Rattle.css_tree.specs.Syntax as syntax;
ghost use Rattle.css_tree.specs.Shapes as trees;
ghost use Rattle.css_scopes.specs.Shapes.{place_as};
ghost use Rattle.css_operands.specs.Shapes.{operand, operands_of};
ghost use Rattle.css_expressions.specs.Seen.{seen, meant_by};

use css_base::{Line, NoMemory, StaticName};
use css_core::Expression;
use css_operands::{Operand, Refusal, broken, converted_arguments, given, place, value};
use css_scopes::{Meaning, Scope, Where, library_of};
use css_type_table::{CType, TypeTable};
use std::alloc::Global;

/// The address of a place.
fn address_at(alloc: Global, at: Where) -> Result<Box<Expression>, NoMemory>
    ensures { IfOk result (λ e. expression e.value ≡ scopes.address_at (place_as at)) }
{
    let e = match at {
        Where::InFrame(offset) => Expression::Local { offset },
        Where::AtAddress(address) => Expression::Number {
            value: i128::from(address),
        },
    };
    Ok(Box::new(alloc, e)?)
}

/// What a name means as an operand. A function is none.
fn meant(
    alloc: Global,
    table: &TypeTable,
    line: Line,
    of: &Meaning<CType>,
) -> Result<Operand, Refusal>
    ensures ok { IfOk result (λ a. operands.meant line (meant_by table.now of.now) ≡ Ok (operand table.now a)) }
    ensures broken { (f : Fault) → IsErrOf result (Refusal.Broken f) → operands.meant line (meant_by table.now of.now) ≡ Err f }
{
    match of {
        Meaning::Object { t, place: at } => Ok(place(*t, address_at(alloc, *at)?)),
        Meaning::Parameter { t, k } => Ok(given(alloc, *t, *k)?),
        Meaning::Function { .. } => Err(broken(StaticName::TypeMismatch, line)),
    }
}

/// A name alone. The library's functions are no values.
pub(crate) fn named(
    alloc: Global,
    table: &TypeTable,
    scope: &Scope<'_, Meaning<CType>>,
    line: Line,
    name: &[u8],
) -> Result<Operand, Refusal>
    ensures ok { IfOk result (λ a. rules.named (seen table.now scope.now) line name.now ≡ Ok (operand table.now a)) }
    ensures broken { (f : Fault) → IsErrOf result (Refusal.Broken f) → rules.named (seen table.now scope.now) line name.now ≡ Err f }
{
    if library_of(name).is_some() {
        return Err(broken(StaticName::TypeMismatch, line));
    }
    match scope.meaning(name) {
        Some(meaning) => meant(alloc, table, line, meaning),
        None => Err(broken(StaticName::Undeclared, line)),
    }
}

/// A call of what a name means, which has to be a function that is defined.
pub(crate) fn called(
    alloc: Global,
    table: &TypeTable,
    line: Line,
    of: &Meaning<CType>,
    arguments: Vec<Operand>,
) -> Result<Operand, Refusal>
    ensures ok { IfOk result (λ a. operands.called line (meant_by table.now of.now) (operands_of table.now arguments.items) ≡ Ok (operand table.now a)) }
    ensures broken { (f : Fault) → IsErrOf result (Refusal.Broken f)
        → operands.called line (meant_by table.now of.now) (operands_of table.now arguments.items) ≡ Err f }
{
    let Meaning::Function {
        number,
        parameters,
        result,
    } = of
    else {
        return Err(broken(StaticName::TypeMismatch, line));
    };
    let Some(function) = *number else {
        return Err(broken(StaticName::Undeclared, line));
    };
    let arguments = converted_arguments(alloc, table, line, parameters.as_slice(), arguments)?;
    let e = call_of(alloc, function, arguments)?;
    Ok(value(*result, e))
}

/// The call of the function of this number.
fn call_of(
    alloc: Global,
    function: u32,
    arguments: Vec<Expression>,
) -> Result<Box<Expression>, NoMemory>
    ensures { IfOk result (λ e. expression e.value ≡ core.Call function (listed arguments.items)) }
{
    Ok(Box::new(
        alloc,
        Expression::Call {
            function,
            arguments,
        },
    )?)
}
