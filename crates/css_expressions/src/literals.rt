//! Literals that stand first among arguments.
ghost use Rattle.std.specs.Prelude.{◌≡◌, ℕ, true, Some, None, IfSome, IfNone};
ghost use Rattle.css_tree.specs.Shapes as trees;
ghost use Rattle.css_types.specs.Scopes.{Scope};
ghost use Rattle.css_types.specs.Judged.{after};
ghost use Rattle.css_types.specs.Formats as formats;
ghost use Rattle.css_types.specs.Expressions as rules;
ghost use Rattle.css_scopes.specs.Libraries.{library};
ghost use Rattle.css_expressions.specs.Calls.{library_called, left_by, IsLiteralFirst};

use css_scopes::Library;
use css_tree::Expression;

/// Whether a function of the library takes a literal first.
fn takes_literal(f: Library) -> bool
    ensures { result ≡ rules.takes_literal (library f) }
{
    match f {
        Library::Puts | Library::Printf => true,
        Library::Getchar | Library::Putchar | Library::Malloc | Library::Free => false,
    }
}

/// The literal that stands first.
fn literal_of(arguments: &[Expression]) -> Option<&[u8]>
    ensures some { IfSome result (λ bytes. IsLiteralFirst (trees.listed arguments.now) bytes.now (trees.listed (left_by true arguments.now))) }
    ensures none { IfNone result (rules.literal_of (trees.listed arguments.now) ≡ None) }
{
    let (first, _others) = arguments.split_first()?;
    match first {
        Expression::Text { bytes, .. } => Some(bytes.as_slice()),
        _ => None,
    }
}

/// The literal that a function of the library takes first, if it takes one and it stands there.
pub(crate) fn literal_for(f: Library, arguments: &[Expression]) -> Option<&[u8]>
    ensures some { IfSome result (λ bytes. (scope : Scope) (line : ℕ) → library_called scope line (library f) (trees.listed arguments.now)
        ≡ after (rules.values_in scope line (trees.listed (left_by true arguments.now))) (formats.library_call line (library f) (Some bytes.now))) }
    ensures none { IfNone result ((scope : Scope) (line : ℕ) → library_called scope line (library f) (trees.listed arguments.now)
        ≡ after (rules.values_in scope line (trees.listed arguments.now)) (formats.library_call line (library f) None)) }
{
    if !takes_literal(f) {
        return None;
    }
    literal_of(arguments)
}
