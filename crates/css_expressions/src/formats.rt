//! Calls of `printf`.
ghost use Rattle.std.specs.Prelude.{◌≡◌, ◌++◌, ◌∷◌, ◌&&◌, ℕ, List, [], Ok, Err, map, IfOk, IfSome, IfNone, OnOk, IsErrOf};
ghost use Rattle.css_base.specs.declared.static_fault.StaticFault.{StaticFault as Fault};
ghost use Rattle.css_core.specs.Core as core;
ghost use Rattle.css_core.specs.Shapes.{expression, listed, piece, conversion};
ghost use Rattle.css_core.specs.Typed.{bits_shown};
ghost use Rattle.css_num.specs.Usual.{promoted};
ghost use Rattle.css_types.specs.Types.{core_type};
ghost use Rattle.css_types.specs.Operands as operands;
ghost use Rattle.css_types.specs.Formats as rules;
ghost use Rattle.css_type_table.specs.Flat.{ctype};
ghost use Rattle.css_operands.specs.Shapes.{operand, operands_of};

use css_base::{IntType, Line, NoMemory, StaticName};
use css_core::{Conversion, Expression, Piece};
use css_num::{bits, promote};
use css_operands::{Operand, Refusal, broken, value};
use css_type_table::{CType, TypeTable};
use css_types::pieces_of;
use std::alloc::Global;

/// The next conversion of a format, and what stands behind it.
fn next_conversion(pieces: &[Piece]) -> Option<(Conversion, &[Piece])>
    ensures found { IfSome result (λ x. (line : ℕ) (all : List operands.Operand)
        → rules.shown line (map piece pieces.now) all ≡ rules.shown line (core.Shown (conversion x.0) ∷ map piece x.1.now) all) }
    ensures none { IfNone result ((line : ℕ) (all : List operands.Operand) → rules.shown line (map piece pieces.now) all ≡ rules.shown line [] all) }
{
    let mut rest = pieces;
    while let Some((first, others)) = rest.split_first() {
        if let Piece::Shown(conversion) = first {
            return Some((*conversion, others));
        }
        rest = others;
    }
    None
}

/// The bits that a conversion writes.
fn bits_shown(kind: Conversion) -> u32
    ensures { result ≡ bits_shown (conversion kind) }
{
    match kind {
        Conversion::Character
        | Conversion::Signed
        | Conversion::Unsigned
        | Conversion::Hexadecimal => 32,
        Conversion::Wide => 64,
    }
}

/// Whether an argument is an integer of the bits that a conversion writes, once it is promoted.
fn is_shown_as(table: &TypeTable, kind: Conversion, a: &Operand) -> bool
    ensures { result ≡ rules.is_shown_as (conversion kind) (operand table.now a.now) }
{
    table.is_integer(a.t) && bits(promote(table.core_type(a.t))) == bits_shown(kind)
}

/// An argument as `printf` takes it, which is promoted.
fn promoted(table: &TypeTable, a: Operand) -> Expression
    ensures { expression result ≡ core.Convert (promoted (core_type (operand table.now a).t)) (operand table.now a).e }
{
    Expression::Convert {
        kind: promote(table.core_type(a.t)),
        operand: a.e,
    }
}

/// The arguments in order, each promoted. One of other bits than its conversion writes breaks the rule on formats, and so does one too many
/// or too few.
fn shown(
    alloc: Global,
    table: &TypeTable,
    line: Line,
    format: &[Piece],
    arguments: Vec<Operand>,
) -> Result<Vec<Expression>, Refusal>
    ensures ok { IfOk result (λ all. rules.shown line (map piece format.now) (operands_of table.now arguments.items) ≡ Ok (listed all.items)) }
    ensures broken { (f : Fault) → IsErrOf result (Refusal.Broken f)
        → rules.shown line (map piece format.now) (operands_of table.now arguments.items) ≡ Err f }
{
    let mut all = Vec::new(alloc);
    let mut rest = format;
    for argument in arguments {
        let Some((kind, others)) = next_conversion(rest) else {
            return Err(broken(StaticName::BadFormat, line));
        };
        if !is_shown_as(table, kind, &argument) {
            return Err(broken(StaticName::BadFormat, line));
        }
        add(&mut all, promoted(table, argument))?;
        rest = others;
    }
    match next_conversion(rest) {
        None => Ok(all),
        Some(_) => Err(broken(StaticName::BadFormat, line)),
    }
}

/// One more behind the others.
fn add(all: &mut Vec<Expression>, next: Expression) -> Result<(), NoMemory>
    ensures ok { OnOk result (all.new.items ≡ all.old.items ++ next ∷ []) }
{
    Ok(all.push(next)?)
}

/// `printf` of this format with these arguments.
pub(crate) fn written(
    alloc: Global,
    table: &TypeTable,
    line: Line,
    bytes: &[u8],
    arguments: Vec<Operand>,
) -> Result<Operand, Refusal>
    ensures ok { IfOk result (λ x. rules.written line (rules.pieces_of bytes.now) (operands_of table.now arguments.items) ≡ Ok (operand table.now x)) }
    ensures broken { (f : Fault) → IsErrOf result (Refusal.Broken f)
        → rules.written line (rules.pieces_of bytes.now) (operands_of table.now arguments.items) ≡ Err f }
{
    let Some(format) = pieces_of(alloc, bytes)? else {
        return Err(broken(StaticName::BadFormat, line));
    };
    let arguments = shown(alloc, table, line, format.as_slice(), arguments)?;
    let e = printed(alloc, format, arguments)?;
    Ok(value(CType::integer(IntType::Int), e))
}

/// The expression that prints arguments in a format.
pub(crate) fn printed(
    alloc: Global,
    format: Vec<Piece>,
    arguments: Vec<Expression>,
) -> Result<Box<Expression>, NoMemory>
    ensures { IfOk result (λ e. expression e.value ≡ core.Print (map piece format.items) (listed arguments.items)) }
{
    Ok(Box::new(alloc, Expression::Print { format, arguments })?)
}
