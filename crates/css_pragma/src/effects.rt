//! Expressions that do more than give a value.
ghost use Rattle.std.specs.Prelude.{◌≡◌};
ghost use Rattle.std.specs.List.{list_any};
ghost use Rattle.css_tree.specs.Shapes as shapes;
ghost use Rattle.css_pragma.specs.Effects.{has_effect, argument_has_effect, clause_has_effect, directive_has_effect};

use css_tree::{Argument, Clause, Directive, Expression};

/// Whether an expression of the directive holds an assignment, `++`, `--` or a call.
#[tactic(auto, using(crate::proofs::Lists::list_any_mapped))]
pub(crate) fn directive_has_effect(directive: &Directive) -> bool
    ensures { result ≡ directive_has_effect (shapes.directive directive.now) }
{
    match directive {
        Directive::Wait { addresses, .. } => some_have_effects(addresses.as_slice()),
        Directive::Task { clauses, .. } => some_clauses(clauses.as_slice()),
        Directive::Start { .. } | Directive::Finish { .. } | Directive::Barrier { .. } => false,
    }
}

/// Whether one of the clauses has an effect.
fn some_clauses(clauses: &[Clause]) -> bool
    ensures { result ≡ list_any (λ c. clause_has_effect (shapes.clause c)) clauses.now }
{
    clauses.iter().any(|clause| clause_has_effect(clause))
}

#[tactic(auto, using(crate::proofs::Lists::list_any_mapped))]
fn clause_has_effect(clause: &Clause) -> bool
    ensures { result ≡ clause_has_effect (shapes.clause clause.now) }
{
    match clause {
        Clause::Arguments { arguments, .. } => some_arguments(arguments.as_slice()),
        Clause::HighPriority => false,
    }
}

/// Whether one of the arguments has an effect.
fn some_arguments(arguments: &[Argument]) -> bool
    ensures { result ≡ list_any (λ a. argument_has_effect (shapes.argument a)) arguments.now }
{
    arguments
        .iter()
        .any(|argument| argument_has_effect(argument))
}

#[tactic(auto, using(crate::proofs::Lists::list_any_mapped))]
fn argument_has_effect(argument: &Argument) -> bool
    ensures { result ≡ argument_has_effect (shapes.argument argument.now) }
{
    match argument {
        Argument::Plain { dimensions, .. } => some_have_effects(dimensions.as_slice()),
        Argument::Strided {
            rows,
            width,
            stride,
            ..
        } => has_effect(rows) || has_effect(width) || has_effect(stride),
    }
}

/// Whether one of the expressions has an effect.
fn some_have_effects(expressions: &[Expression]) -> bool
    ensures { result ≡ list_any (λ e. has_effect (shapes.expression e)) expressions.now }
{
    expressions.iter().any(|expression| has_effect(expression))
}

/// Whether the expression holds an assignment, `++`, `--` or a call.
fn has_effect(tree: &Expression) -> bool
    ensures { result ≡ has_effect (shapes.expression tree.now) }
{
    match tree {
        Expression::Assign { .. }
        | Expression::PreIncrement { .. }
        | Expression::PreDecrement { .. }
        | Expression::PostIncrement { .. }
        | Expression::PostDecrement { .. }
        | Expression::Call { .. } => true,
        Expression::Comma { left, right, .. } | Expression::Binary { left, right, .. } => {
            has_effect(left) || has_effect(right)
        }
        Expression::Conditional {
            condition,
            first,
            second,
            ..
        } => has_effect(condition) || has_effect(first) || has_effect(second),
        Expression::Index { array, index, .. } => has_effect(array) || has_effect(index),
        Expression::Cast { operand, .. }
        | Expression::Unary { operand, .. }
        | Expression::SizeofExpression { operand, .. } => has_effect(operand),
        Expression::SizeofType { .. }
        | Expression::Name { .. }
        | Expression::Number { .. }
        | Expression::Text { .. } => false,
    }
}
