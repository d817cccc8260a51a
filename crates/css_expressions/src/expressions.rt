//! The elaboration of expressions.
ghost use Rattle.std.specs.Prelude.{◌≡◌, ◌++◌, ◌∷◌, [], Ok, Err, Some, None, map, option_map, IfOk, IfSome, IfNone, OnOk, IsErrOf};
ghost use Rattle.css_base.specs.declared.static_fault.StaticFault.{StaticFault as Fault};
ghost use Rattle.css_tree.specs.Shapes as trees;
ghost use Rattle.css_tree.specs.Syntax as syntax;
ghost use Rattle.css_types.specs.Operands as operands;
ghost use Rattle.css_types.specs.Expressions as rules;
ghost use Rattle.css_types.specs.Judged.{after};
ghost use Rattle.css_scopes.specs.Libraries.{library};
ghost use Rattle.css_operands.specs.Shapes.{operand, operands_of};
ghost use Rattle.css_expressions.specs.Seen.{seen};
ghost use Rattle.css_expressions.specs.Calls.{library_called, left_by};

use crate::calls::{called, named};
use crate::library::library_call;
use crate::literals::literal_for;
use crate::type_names::typed_by;
use css_base::{Line, NoMemory, StaticName};
use css_core::Gives;
use css_num::BinOp;
use css_operands::{
    Operand, Refusal, assignment, binary_operand, broken, cast, conditional, indexed, number,
    sequence, size_operand, stepped, unary_operand, value_of,
};
use css_scopes::{Library, Meaning, Scope, library_of};
use css_tree::{Expression, TypeName};
use css_type_table::{CType, TypeTable};
use std::alloc::Global;

/// The expression that this is, with its type, in a statement with this line; else the first rule that it breaks in order of text. It
/// recurses as deep as the tree has levels.
#[cycle(expressions)]
pub fn operand_of(
    alloc: Global,
    table: &TypeTable,
    scope: &Scope<'_, Meaning<CType>>,
    line: Line,
    tree: &Expression,
) -> Result<Operand, Refusal>
    ensures ok { IfOk result (λ a. rules.operand_of (seen table.now scope.now) line (trees.expression tree.now) ≡ Ok (operand table.now a)) }
    ensures broken { (f : Fault) → IsErrOf result (Refusal.Broken f) → rules.operand_of (seen table.now scope.now) line (trees.expression tree.now) ≡ Err f }
{
    match tree {
        Expression::Number { kind, value, .. } => Ok(number(alloc, *kind, *value)?),
        Expression::Name { name, .. } => named(alloc, table, scope, line, name.as_slice()),
        Expression::Text { .. } => Err(broken(StaticName::TypeMismatch, line)),
        Expression::Unary {
            operator,
            operand,
            ..
        } => {
            let a = operand_of(alloc, table, scope, line, operand)?;
            unary_operand(alloc, table, line, *operator, a)
        }
        Expression::Binary {
            left,
            operator,
            right,
            ..
        } => {
            let a = value_in(alloc, table, scope, line, left)?;
            let b = value_in(alloc, table, scope, line, right)?;
            binary_operand(alloc, table, line, *operator, a, b)
        }
        Expression::Index { array, index, .. } => {
            let a = value_in(alloc, table, scope, line, array)?;
            let i = value_in(alloc, table, scope, line, index)?;
            indexed(alloc, table, line, a, i)
        }
        Expression::Comma { left, right, .. } => {
            let a = value_in(alloc, table, scope, line, left)?;
            let b = value_in(alloc, table, scope, line, right)?;
            Ok(sequence(alloc, a, b)?)
        }
        Expression::Conditional {
            condition,
            first,
            second,
            ..
        } => {
            let c = value_in(alloc, table, scope, line, condition)?;
            let a = value_in(alloc, table, scope, line, first)?;
            let b = value_in(alloc, table, scope, line, second)?;
            conditional(alloc, table, line, c, a, b)
        }
        Expression::Assign {
            place,
            operator,
            value,
            ..
        } => {
            let p = operand_of(alloc, table, scope, line, place)?;
            let a = value_in(alloc, table, scope, line, value)?;
            assignment(alloc, table, line, *operator, p, a)
        }
        Expression::PreIncrement { operand, .. } => {
            let p = operand_of(alloc, table, scope, line, operand)?;
            stepped(alloc, table, line, Gives::New, BinOp::Add, p)
        }
        Expression::PreDecrement { operand, .. } => {
            let p = operand_of(alloc, table, scope, line, operand)?;
            stepped(alloc, table, line, Gives::New, BinOp::Sub, p)
        }
        Expression::PostIncrement { operand, .. } => {
            let p = operand_of(alloc, table, scope, line, operand)?;
            stepped(alloc, table, line, Gives::Old, BinOp::Add, p)
        }
        Expression::PostDecrement { operand, .. } => {
            let p = operand_of(alloc, table, scope, line, operand)?;
            stepped(alloc, table, line, Gives::Old, BinOp::Sub, p)
        }
        Expression::Cast { to, operand, .. } => { cast_of(alloc, table, scope, line, to, operand) }
        Expression::SizeofType { of, .. } => size_of_type(alloc, table, line, of),
        Expression::SizeofExpression { operand, .. } => {
            let a = operand_of(alloc, table, scope, line, operand)?;
            size_operand(alloc, table, line, a.t)
        }
        Expression::Call {
            name,
            arguments,
            ..
        } => call(
            alloc,
            table,
            scope,
            line,
            name.as_slice(),
            arguments.as_slice(),
        ),
    }
}

/// `sizeof` of a type.
fn size_of_type(
    alloc: Global,
    table: &TypeTable,
    line: Line,
    of: &TypeName,
) -> Result<Operand, Refusal>
    ensures ok { IfOk result (λ a. after (rules.typed_by line (trees.type_name of.now)) (operands.size_operand line) ≡ Ok (operand table.now a)) }
    ensures broken { (f : Fault) → IsErrOf result (Refusal.Broken f) → after (rules.typed_by line (trees.type_name of.now)) (operands.size_operand line) ≡ Err f }
{
    let t = typed_by(table, line, of)?;
    size_operand(alloc, table, line, t)
}

/// A cast of an expression.
#[cycle(expressions)]
fn cast_of(
    alloc: Global,
    table: &TypeTable,
    scope: &Scope<'_, Meaning<CType>>,
    line: Line,
    to: &TypeName,
    tree: &Expression,
) -> Result<Operand, Refusal>
    ensures ok { IfOk result (λ a. after (rules.typed_by line (trees.type_name to.now)) (λ t.
        after (rules.as_value (rules.operand_of (seen table.now scope.now) line (trees.expression tree.now))) (operands.cast line t)) ≡ Ok (operand table.now a)) }
    ensures broken { (f : Fault) → IsErrOf result (Refusal.Broken f) → after (rules.typed_by line (trees.type_name to.now)) (λ t.
        after (rules.as_value (rules.operand_of (seen table.now scope.now) line (trees.expression tree.now))) (operands.cast line t)) ≡ Err f }
{
    let t = typed_by(table, line, to)?;
    let a = value_in(alloc, table, scope, line, tree)?;
    cast(alloc, table, line, t, a)
}

/// The value of the expression.
#[cycle(expressions)]
pub fn value_in(
    alloc: Global,
    table: &TypeTable,
    scope: &Scope<'_, Meaning<CType>>,
    line: Line,
    tree: &Expression,
) -> Result<Operand, Refusal>
    ensures ok { IfOk result (λ a. rules.as_value (rules.operand_of (seen table.now scope.now) line (trees.expression tree.now)) ≡ Ok (operand table.now a)) }
    ensures broken { (f : Fault) → IsErrOf result (Refusal.Broken f) → rules.as_value (rules.operand_of (seen table.now scope.now) line (trees.expression tree.now)) ≡ Err f }
{
    let a = operand_of(alloc, table, scope, line, tree)?;
    Ok(value_of(alloc, table, a)?)
}

/// A call of the function of this name with these arguments.
#[cycle(expressions)]
fn call(
    alloc: Global,
    table: &TypeTable,
    scope: &Scope<'_, Meaning<CType>>,
    line: Line,
    name: &[u8],
    arguments: &[Expression],
) -> Result<Operand, Refusal>
    ensures ok { IfOk result (λ a. rules.operand_of (seen table.now scope.now) line (syntax.Call line name.now (trees.listed arguments.now)) ≡ Ok (operand table.now a)) }
    ensures broken { (f : Fault) → IsErrOf result (Refusal.Broken f)
        → rules.operand_of (seen table.now scope.now) line (syntax.Call line name.now (trees.listed arguments.now)) ≡ Err f }
{
    if let Some(f) = library_of(name) {
        return call_of_library(alloc, table, scope, line, f, arguments);
    }
    let Some(meaning) = scope.meaning(name) else {
        return Err(broken(StaticName::Undeclared, line));
    };
    let values = values_in(alloc, table, scope, line, arguments, false)?;
    called(alloc, table, line, meaning, values)
}

/// A call of a function of the library, of which some take a literal first.
#[cycle(expressions)]
fn call_of_library(
    alloc: Global,
    table: &TypeTable,
    scope: &Scope<'_, Meaning<CType>>,
    line: Line,
    f: Library,
    arguments: &[Expression],
) -> Result<Operand, Refusal>
    ensures ok { IfOk result (λ a. library_called (seen table.now scope.now) line (library f) (trees.listed arguments.now) ≡ Ok (operand table.now a)) }
    ensures broken { (fault : Fault) → IsErrOf result (Refusal.Broken fault)
        → library_called (seen table.now scope.now) line (library f) (trees.listed arguments.now) ≡ Err fault }
{
    match literal_for(f, arguments) {
        Some(bytes) => {
            let values = values_in(alloc, table, scope, line, arguments, true)?;
            library_call(alloc, table, line, f, Some(bytes), values)
        }
        None => {
            let values = values_in(alloc, table, scope, line, arguments, false)?;
            library_call(alloc, table, line, f, None, values)
        }
    }
}

/// The values of a call's arguments, where asked for without the first.
#[cycle(expressions)]
fn values_in(
    alloc: Global,
    table: &TypeTable,
    scope: &Scope<'_, Meaning<CType>>,
    line: Line,
    arguments: &[Expression],
    behind_first: bool,
) -> Result<Vec<Operand>, Refusal>
    ensures ok { IfOk result (λ all. rules.values_in (seen table.now scope.now) line (trees.listed (left_by behind_first arguments.now)) ≡ Ok (operands_of table.now all.items)) }
    ensures broken { (f : Fault) → IsErrOf result (Refusal.Broken f)
        → rules.values_in (seen table.now scope.now) line (trees.listed (left_by behind_first arguments.now)) ≡ Err f }
{
    let mut all = Vec::new(alloc);
    let mut passes = behind_first;
    for argument in arguments {
        if passes {
            passes = false;
            continue;
        }
        let a = value_in(alloc, table, scope, line, argument)?;
        add(&mut all, a)?;
    }
    Ok(all)
}

/// One more behind the others.
fn add(all: &mut Vec<Operand>, next: Operand) -> Result<(), NoMemory>
    ensures ok { OnOk result (all.new.items ≡ all.old.items ++ next ∷ []) }
{
    Ok(all.push(next)?)
}
