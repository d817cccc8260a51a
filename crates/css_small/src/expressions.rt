//! Expressions of the small language.
ghost use Rattle.std.specs.Prelude.{◌≡◌, Some, None, IfOk, IfErr, IsErrOf};
ghost use Rattle.css_tree.specs.Shapes as shapes;
ghost use Rattle.css_small.specs.Tree.{expression};
ghost use Rattle.css_small.specs.Trees.{expression_of, number_of_value, unary_of, joined, names_parameter};

use crate::names::Names;
use crate::tree::Expression;
use crate::tree_fault::TreeFault;
use css_base::IntType;
use css_num::{BinOp, UnOp};
use css_tree::{BinaryOperator, UnaryOperator};
use std::alloc::Global;

/// The expression that this is. `NotSmall` comes only where it is none. It recurses as deep as the tree has levels.
pub(crate) fn expression_of(
    alloc: Global,
    names: &Names,
    tree: &css_tree::Expression,
) -> Result<Expression, TreeFault>
    ensures ok { IfOk result (λ e. expression_of names.now (shapes.expression tree.now) ≡ Some (expression e)) }
    ensures not_small { IsErrOf result TreeFault.NotSmall → expression_of names.now (shapes.expression tree.now) ≡ None }
{
    match tree {
        css_tree::Expression::Number {
            kind: IntType::Int,
            value,
            ..
        } => number(*value),
        css_tree::Expression::Name { name, .. } => match names.variable_of(name.as_slice()) {
            Some(variable) => Ok(Expression::Variable(variable)),
            None => Err(TreeFault::NotSmall),
        },
        css_tree::Expression::Index { array, index, .. } => {
            if !names_parameter(names, array) {
                return Err(TreeFault::NotSmall);
            }
            let index = expression_of(alloc, names, index)?;
            Ok(Expression::Element(boxed(alloc, index)?))
        }
        css_tree::Expression::Unary {
            operator,
            operand,
            ..
        } => {
            let Some(operator) = unary_of(*operator) else {
                return Err(TreeFault::NotSmall);
            };
            let operand = expression_of(alloc, names, operand)?;
            Ok(Expression::Unary(operator, boxed(alloc, operand)?))
        }
        css_tree::Expression::Binary {
            left,
            operator,
            right,
            ..
        } => {
            let left = expression_of(alloc, names, left)?;
            let right = expression_of(alloc, names, right)?;
            joined(alloc, *operator, left, right)
        }
        _ => Err(TreeFault::NotSmall),
    }
}

/// Whether this names the parameter.
pub(crate) fn names_parameter(names: &Names, tree: &css_tree::Expression) -> bool
    ensures { result ≡ names_parameter names.now (shapes.expression tree.now) }
{
    match tree {
        css_tree::Expression::Name { name, .. } => names.is_parameter(name.as_slice()),
        _ => false,
    }
}

/// A constant of type int.
fn number(value: u64) -> Result<Expression, TreeFault>
    ensures ok { IfOk result (λ e. number_of_value value ≡ Some (expression e)) }
    ensures not_small { IsErrOf result TreeFault.NotSmall → number_of_value value ≡ None }
{
    if value > 2_147_483_647 {
        return Err(TreeFault::NotSmall);
    }
    Ok(Expression::Number(value as u32))
}

/// The operator with one operand.
fn unary_of(operator: UnaryOperator) -> Option<UnOp>
    ensures { result ≡ unary_of operator }
{
    match operator {
        UnaryOperator::Plus => Some(UnOp::Plus),
        UnaryOperator::Minus => Some(UnOp::Minus),
        UnaryOperator::Complement => Some(UnOp::Complement),
        UnaryOperator::Not => Some(UnOp::Not),
        UnaryOperator::AddressOf | UnaryOperator::Dereference => None,
    }
}

/// The operator between its operands. The only error is `NoMemory`.
fn joined(
    alloc: Global,
    operator: BinaryOperator,
    left: Expression,
    right: Expression,
) -> Result<Expression, TreeFault>
    ensures ok { IfOk result (λ e. expression e ≡ joined operator (expression left) (expression right)) }
    ensures no_memory { IfErr result (λ e. e ≡ TreeFault.NoMemory) }
{
    let left = boxed(alloc, left)?;
    let right = boxed(alloc, right)?;
    Ok(match operator {
        BinaryOperator::And => Expression::And(left, right),
        BinaryOperator::Or => Expression::Or(left, right),
        BinaryOperator::Multiply => Expression::Binary(BinOp::Mul, left, right),
        BinaryOperator::Divide => Expression::Binary(BinOp::Div, left, right),
        BinaryOperator::Remainder => Expression::Binary(BinOp::Rem, left, right),
        BinaryOperator::Add => Expression::Binary(BinOp::Add, left, right),
        BinaryOperator::Subtract => Expression::Binary(BinOp::Sub, left, right),
        BinaryOperator::ShiftLeft => Expression::Binary(BinOp::Shl, left, right),
        BinaryOperator::ShiftRight => Expression::Binary(BinOp::Shr, left, right),
        BinaryOperator::Less => Expression::Binary(BinOp::Lt, left, right),
        BinaryOperator::Greater => Expression::Binary(BinOp::Gt, left, right),
        BinaryOperator::LessOrEqual => Expression::Binary(BinOp::Le, left, right),
        BinaryOperator::GreaterOrEqual => Expression::Binary(BinOp::Ge, left, right),
        BinaryOperator::Equal => Expression::Binary(BinOp::Eq, left, right),
        BinaryOperator::NotEqual => Expression::Binary(BinOp::Ne, left, right),
        BinaryOperator::BitAnd => Expression::Binary(BinOp::And, left, right),
        BinaryOperator::BitXor => Expression::Binary(BinOp::Xor, left, right),
        BinaryOperator::BitOr => Expression::Binary(BinOp::Or, left, right),
    })
}

/// An expression on the heap. The only error is `NoMemory`.
fn boxed(alloc: Global, tree: Expression) -> Result<Box<Expression>, TreeFault>
    ensures ok { IfOk result (λ boxed. boxed.value ≡ tree) }
    ensures no_memory { IfErr result (λ e. e ≡ TreeFault.NoMemory) }
{
    match Box::new(alloc, tree) {
        Ok(tree) => Ok(tree),
        Err(_) => Err(TreeFault::NoMemory),
    }
}
