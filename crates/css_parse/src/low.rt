//! The levels of expressions.
ghost use Rattle.std.specs.Prelude.{◌≡◌, ◌↔◌, ◌≤◌, max, IsTrue};
ghost use Rattle.css_tree.specs.Shapes.{expression, listed};
ghost use Rattle.css_tree.specs.Heights.{height, height_of_arguments};

use css_tree::Expression;

/// Whether an expression has at most so many levels.
#[cycle(low)]
pub(crate) fn is_low(e: &Expression, most: u32) -> bool
    ensures { IsTrue result ↔ (height (expression e.now) ≤ most) }
{
    if most == 0 {
        return false;
    }
    let most = most - 1;
    match e {
        Expression::Comma { left, right, .. } => are_low(left, right, most),
        Expression::Assign { place, value, .. } => are_low(place, value, most),
        Expression::Binary { left, right, .. } => are_low(left, right, most),
        Expression::Index { array, index, .. } => are_low(array, index, most),
        Expression::Conditional {
            condition,
            first,
            second,
            ..
        } => is_low(condition, most) && are_low(first, second, most),
        Expression::Cast { operand, .. } => is_low(operand, most),
        Expression::PreIncrement { operand, .. } => is_low(operand, most),
        Expression::PreDecrement { operand, .. } => is_low(operand, most),
        Expression::Unary { operand, .. } => is_low(operand, most),
        Expression::SizeofExpression { operand, .. } => is_low(operand, most),
        Expression::PostIncrement { operand, .. } => is_low(operand, most),
        Expression::PostDecrement { operand, .. } => is_low(operand, most),
        Expression::Call { arguments, .. } => all_low(arguments.as_slice(), most),
        _ => true,
    }
}

/// Whether two expressions have at most so many levels each.
#[cycle(low)]
fn are_low(first: &Expression, second: &Expression, most: u32) -> bool
    ensures { IsTrue result ↔ (max (height (expression first.now)) (height (expression second.now)) ≤ most) }
{
    is_low(first, most) && is_low(second, most)
}

/// Whether expressions have at most so many levels each.
#[cycle(low)]
fn all_low(expressions: &[Expression], most: u32) -> bool
    ensures { IsTrue result ↔ (height_of_arguments (listed expressions.now) ≤ most) }
{
    let mut rest = expressions;
    while let Some((first, others)) = rest.split_first() {
        if !is_low(first, most) {
            return false;
        }
        rest = others;
    }
    true
}
