//! Types by their words and stars.
ghost use Rattle.std.specs.Prelude.{◌≡◌, Ok, Err, IfOk, IsErrOf};
ghost use Rattle.css_base.specs.declared.static_fault.StaticFault.{StaticFault as Fault};
ghost use Rattle.css_tree.specs.Shapes as trees;
ghost use Rattle.css_types.specs.Types as types;
ghost use Rattle.css_types.specs.Expressions as rules;
ghost use Rattle.css_type_table.specs.Lists.{Lists};
ghost use Rattle.css_type_table.specs.Flat.{ctype, IsOf, IsPlain};

use css_base::{Line, NoMemory, StaticName};
use css_operands::{Refusal, broken};
use css_tree::{Star, TypeName};
use css_type_table::{CType, TypeTable};
use css_types::named_by;

/// So many stars behind a type.
pub fn starred(table: &TypeTable, stars: &[Star], t: CType) -> Result<CType, NoMemory>
    ensures { IfOk result (λ p. ctype table.now p ≡ types.starred (trees.stars stars.now) (ctype table.now t)) }
{
    let mut t = t;
    for _star in stars {
        t = t.pointer()?;
    }
    Ok(t)
}

/// The type that a type's name names. Words that name none break the rule on types.
pub fn typed_by(table: &TypeTable, line: Line, name: &TypeName) -> Result<CType, Refusal>
    ensures ok { IfOk result (λ t. rules.typed_by line (trees.type_name name.now) ≡ Ok (ctype table.now t)) }
    ensures broken { (f : Fault) → IsErrOf result (Refusal.Broken f) → rules.typed_by line (trees.type_name name.now) ≡ Err f }
{
    let Some(base) = named_by(name.specifiers.as_slice()) else {
        return Err(broken(StaticName::TypeMismatch, line));
    };
    Ok(starred(table, name.stars.as_slice(), CType::of_base(base))?)
}
