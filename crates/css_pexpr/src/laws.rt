//! Laws of the grammar's expressions.
ghost use Rattle.std.specs.Prelude.{◌≡◌, ℕ, List};
ghost use Rattle.css_base.specs.Tokens.{Lexeme};
ghost use Rattle.css_tree.specs.declared.scope.Scope.{Scope};
ghost use Rattle.css_tree.specs.Syntax.{Expression};
ghost use Rattle.css_tree.specs.Expressions.{SpellsExpression};
ghost use Rattle.css_tree.specs.Brackets.{IsBalanced};

/// Tokens spell at most one expression, of whatever level.
pub fn one_expression()
    ensures { (scope : Scope) (k n : ℕ) (ts : List Lexeme) (e f : Expression)
        → SpellsExpression scope k ts e → SpellsExpression scope n ts f → e ≡ f }
{}

/// A spelled expression leaves no bracket open, and closes none that was open before it.
pub fn balanced_brackets()
    ensures { (scope : Scope) (k : ℕ) (ts : List Lexeme) (e : Expression) → SpellsExpression scope k ts e → IsBalanced ts }
{}
