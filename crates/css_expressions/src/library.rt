//! Calls of the library.
ghost use Rattle.std.specs.Prelude.{◌≡◌, ◌++◌, ◌∷◌, ℕ, List, [], Ok, Err, Some, None, map, option_map, IfOk, IfSome, IfNone, OnOk, IsErrOf};
ghost use Rattle.css_base.specs.declared.static_fault.StaticFault.{StaticFault as Fault};
ghost use Rattle.css_core.specs.Core as core;
ghost use Rattle.css_core.specs.Shapes.{expression, listed, piece, conversion};
ghost use Rattle.css_core.specs.Elaboration.{lines_of, written_line};
ghost use Rattle.css_types.specs.Operands as operands;
ghost use Rattle.css_types.specs.Types as types;
ghost use Rattle.css_types.specs.Scopes as scopes;
ghost use Rattle.css_types.specs.Formats as rules;
ghost use Rattle.css_type_table.specs.Lists.{Lists};
ghost use Rattle.css_type_table.specs.Flat.{ctype};
ghost use Rattle.css_expressions.specs.Seen.{IsNotOne};
ghost use Rattle.css_operands.specs.Shapes.{operand, operands_of};
ghost use Rattle.css_scopes.specs.Libraries.{library};

use crate::formats::{printed, written};
use css_base::{IntType, Line, NoMemory, StaticName};
use css_core::{Expression, Piece};
use css_operands::{Operand, Refusal, broken, converted_to, value};
use css_scopes::Library;
use css_type_table::{CType, TypeTable};
use css_types::Base;
use std::alloc::Global;

fn boxed(alloc: Global, e: Expression) -> Result<Box<Expression>, NoMemory>
    ensures { IfOk result (λ boxed. boxed.value ≡ e) }
{
    Ok(Box::new(alloc, e)?)
}

/// The bytes of a literal and a newline, each written as it is.
fn lines_of(alloc: Global, bytes: &[u8]) -> Result<Vec<Piece>, NoMemory>
    ensures { IfOk result (λ all. map piece all.items ≡ lines_of bytes.now) }
{
    let mut all = Vec::new(alloc);
    for byte in bytes {
        all.push(Piece::Literal(*byte))?;
    }
    all.push(Piece::Literal(b'\n'))?;
    Ok(all)
}

/// `puts(..)` of a literal.
fn line_written(alloc: Global, bytes: &[u8]) -> Result<Box<Expression>, NoMemory>
    ensures { IfOk result (λ e. expression e.value ≡ (written_line bytes.now).e) }
{
    let format = lines_of(alloc, bytes)?;
    let print = printed(alloc, format, Vec::new(alloc))?;
    let nought = boxed(alloc, Expression::Number { value: 0 })?;
    boxed(
        alloc,
        Expression::Sequence {
            first: print,
            second: nought,
        },
    )
}

/// The argument of a call with one.
fn the_one(arguments: Vec<Operand>) -> Option<Operand>
    ensures one { IfSome result (λ a. arguments.items ≡ a ∷ []) }
    ensures none { IfNone result (IsNotOne arguments.items) }
{
    let mut all = arguments;
    let last = all.pop()?;
    if all.is_empty() {
        Some(last)
    } else {
        drop(last);
        None
    }
}

/// One argument that is converted to a type.
fn with_one(
    alloc: Global,
    table: &TypeTable,
    line: Line,
    t: CType,
    arguments: Vec<Operand>,
) -> Result<Box<Expression>, Refusal>
    ensures ok { IfOk result (λ e. (made : core.Expression → operands.Operand)
        → rules.with_one line (ctype table.now t) (operands_of table.now arguments.items) made ≡ Ok (made (expression e.value))) }
    ensures broken { (f : Fault) → IsErrOf result (Refusal.Broken f) → (made : core.Expression → operands.Operand)
        → rules.with_one line (ctype table.now t) (operands_of table.now arguments.items) made ≡ Err f }
{
    match the_one(arguments) {
        Some(a) => converted_to(alloc, table, line, t, a),
        None => Err(broken(StaticName::TypeMismatch, line)),
    }
}

// ---- calls

/// `puts` of a literal, which takes no argument beside it.
fn puts(
    alloc: Global,
    line: Line,
    bytes: &[u8],
    arguments: Vec<Operand>,
) -> Result<Operand, Refusal>
    ensures ok { IfOk result (λ x. (lists : Lists) → rules.library_call line scopes.Puts (Some bytes.now) (operands_of lists arguments.items) ≡ Ok (operand lists x)) }
    ensures broken { (f : Fault) → IsErrOf result (Refusal.Broken f) → (lists : Lists)
        → rules.library_call line scopes.Puts (Some bytes.now) (operands_of lists arguments.items) ≡ Err f }
{
    if !arguments.is_empty() {
        return Err(broken(StaticName::TypeMismatch, line));
    }
    let e = line_written(alloc, bytes)?;
    Ok(value(CType::integer(IntType::Int), e))
}

fn getchar(alloc: Global, line: Line, arguments: Vec<Operand>) -> Result<Operand, Refusal>
    ensures ok { IfOk result (λ x. (lists : Lists) → rules.library_call line scopes.Getchar None (operands_of lists arguments.items) ≡ Ok (operand lists x)) }
    ensures broken { (f : Fault) → IsErrOf result (Refusal.Broken f) → (lists : Lists)
        → rules.library_call line scopes.Getchar None (operands_of lists arguments.items) ≡ Err f }
{
    if !arguments.is_empty() {
        return Err(broken(StaticName::TypeMismatch, line));
    }
    let e = boxed(alloc, Expression::Input)?;
    Ok(value(CType::integer(IntType::Int), e))
}

fn putchar(
    alloc: Global,
    table: &TypeTable,
    line: Line,
    arguments: Vec<Operand>,
) -> Result<Operand, Refusal>
    ensures ok { IfOk result (λ x. rules.library_call line scopes.Putchar None (operands_of table.now arguments.items) ≡ Ok (operand table.now x)) }
    ensures broken { (f : Fault) → IsErrOf result (Refusal.Broken f)
        → rules.library_call line scopes.Putchar None (operands_of table.now arguments.items) ≡ Err f }
{
    let int = CType::integer(IntType::Int);
    let byte = with_one(alloc, table, line, int, arguments)?;
    let e = boxed(alloc, Expression::Put { value: byte })?;
    Ok(value(int, e))
}

fn malloc(
    alloc: Global,
    table: &TypeTable,
    line: Line,
    arguments: Vec<Operand>,
) -> Result<Operand, Refusal>
    ensures ok { IfOk result (λ x. rules.library_call line scopes.Malloc None (operands_of table.now arguments.items) ≡ Ok (operand table.now x)) }
    ensures broken { (f : Fault) → IsErrOf result (Refusal.Broken f)
        → rules.library_call line scopes.Malloc None (operands_of table.now arguments.items) ≡ Err f }
{
    let t = CType::of_base(Base::Void).pointer()?;
    let size = with_one(alloc, table, line, CType::integer(IntType::UInt), arguments)?;
    let e = boxed(alloc, Expression::Allocate { size })?;
    Ok(value(t, e))
}

/// `free`, which has no effect.
fn free(
    alloc: Global,
    table: &TypeTable,
    line: Line,
    arguments: Vec<Operand>,
) -> Result<Operand, Refusal>
    ensures ok { IfOk result (λ x. rules.library_call line scopes.Free None (operands_of table.now arguments.items) ≡ Ok (operand table.now x)) }
    ensures broken { (f : Fault) → IsErrOf result (Refusal.Broken f)
        → rules.library_call line scopes.Free None (operands_of table.now arguments.items) ≡ Err f }
{
    let void = CType::of_base(Base::Void);
    let e = with_one(alloc, table, line, void.pointer()?, arguments)?;
    Ok(value(void, e))
}

/// A call of a function of the library with these arguments, before which a literal may stand.
pub(crate) fn library_call(
    alloc: Global,
    table: &TypeTable,
    line: Line,
    f: Library,
    literal: Option<&[u8]>,
    arguments: Vec<Operand>,
) -> Result<Operand, Refusal>
    ensures ok { IfOk result (λ x. rules.library_call line (library f) (option_map (λ b. b.now) literal.entry) (operands_of table.now arguments.items) ≡ Ok (operand table.now x)) }
    ensures broken { (fault : Fault) → IsErrOf result (Refusal.Broken fault)
        → rules.library_call line (library f) (option_map (λ b. b.now) literal.entry) (operands_of table.now arguments.items) ≡ Err fault }
{
    match (f, literal) {
        (Library::Puts, Some(bytes)) => puts(alloc, line, bytes, arguments),
        (Library::Printf, Some(bytes)) => written(alloc, table, line, bytes, arguments),
        (Library::Getchar, None) => getchar(alloc, line, arguments),
        (Library::Putchar, None) => putchar(alloc, table, line, arguments),
        (Library::Malloc, None) => malloc(alloc, table, line, arguments),
        (Library::Free, None) => free(alloc, table, line, arguments),
        _ => Err(broken(StaticName::TypeMismatch, line)),
    }
}
