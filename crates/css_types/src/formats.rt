//! Formats of `printf`.
ghost use Rattle.std.specs.Prelude.{◌≡◌, ◌<◌, length, map, option_map, None, IfOk, IfSome, IfNone};
ghost use Rattle.css_core.specs.Shapes.{piece};
ghost use Rattle.css_types.specs.Formats.{and_then, pieces_of, converted_from, wide_from};

use css_base::NoMemory;
use css_core::{Conversion, Piece};
use std::alloc::Global;

/// The pieces of a format, if it is one.
pub fn pieces_of(alloc: Global, format: &[u8]) -> Result<Option<Vec<Piece>>, NoMemory>
    ensures { IfOk result (λ all. option_map (λ v. map piece v.items) all ≡ pieces_of format.now) }
{
    let mut all = Vec::new(alloc);
    let mut rest = format;
    while !rest.is_empty() {
        let Some((next, behind)) = piece(rest) else {
            return Ok(None);
        };
        if all.push(next).is_err() {
            return Err(NoMemory);
        }
        rest = behind;
    }
    Ok(Some(all))
}

/// The first piece, and what stands behind it.
fn piece(format: &[u8]) -> Option<(Piece, &[u8])>
    requires { 0 < length format.now }
    ensures found { IfSome result (λ x. pieces_of format.now ≡ and_then (piece x.0) (pieces_of x.1.now)) }
    ensures shorter { IfSome result (λ x. length x.1.now < length format.now) }
    ensures none { IfNone result (pieces_of format.now ≡ None) }
{
    let (first, rest) = format.split_first()?;
    if *first == b'%' {
        conversion(rest)
    } else {
        Some((Piece::Literal(*first), rest))
    }
}

/// The piece behind a `%`, and what stands behind it.
fn conversion(format: &[u8]) -> Option<(Piece, &[u8])>
    ensures found { IfSome result (λ x. converted_from format.now ≡ and_then (piece x.0) (pieces_of x.1.now)) }
    ensures shorter { IfSome result (λ x. length x.1.now < length format.now) }
    ensures none { IfNone result (converted_from format.now ≡ None) }
{
    let (first, rest) = format.split_first()?;
    if *first == b'%' {
        Some((Piece::Literal(b'%'), rest))
    } else if *first == b'd' {
        Some((Piece::Shown(Conversion::Signed), rest))
    } else if *first == b'u' {
        Some((Piece::Shown(Conversion::Unsigned), rest))
    } else if *first == b'x' {
        Some((Piece::Shown(Conversion::Hexadecimal), rest))
    } else if *first == b'c' {
        Some((Piece::Shown(Conversion::Character), rest))
    } else if *first == b'l' {
        wide(rest)
    } else {
        None
    }
}

/// The piece behind `%l`, and what stands behind it.
fn wide(format: &[u8]) -> Option<(Piece, &[u8])>
    ensures found { IfSome result (λ x. wide_from format.now ≡ and_then (piece x.0) (pieces_of x.1.now)) }
    ensures shorter { IfSome result (λ x. length x.1.now < length format.now) }
    ensures none { IfNone result (wide_from format.now ≡ None) }
{
    let (second, behind) = format.split_first()?;
    let (third, rest) = behind.split_first()?;
    if *second == b'l' && *third == b'd' {
        Some((Piece::Shown(Conversion::Wide), rest))
    } else {
        None
    }
}
