//! Trees as text: what a node is and its children, in parentheses, with the line before it where that isn't 1.
use css_base::{Bytes, Line};
use css_tree::{Expression, TypeName};
use std::alloc::AllocError;

fn write_bytes(out: &mut String, bytes: &Bytes) -> Result<(), AllocError> {
    for byte in bytes.as_slice() {
        out.push(char::from(*byte))?;
    }
    Ok(())
}

fn write_type(out: &mut String, of: &TypeName) -> Result<(), AllocError> {
    for (i, specifier) in of.specifiers.iter().enumerate() {
        out.push_str(if i > 0 { " " } else { "" })?;
        write!(out, "{specifier:?}")?;
    }
    for star in of.stars.iter() {
        out.push_str(" *")?;
        for qualifier in star.qualifiers.iter() {
            write!(out, "{qualifier:?}")?;
        }
    }
    Ok(())
}

fn line_of(e: &Expression) -> Line {
    match e {
        Expression::Comma { line, .. }
        | Expression::Assign { line, .. }
        | Expression::Conditional { line, .. }
        | Expression::Binary { line, .. }
        | Expression::Cast { line, .. }
        | Expression::PreIncrement { line, .. }
        | Expression::PreDecrement { line, .. }
        | Expression::Unary { line, .. }
        | Expression::SizeofExpression { line, .. }
        | Expression::SizeofType { line, .. }
        | Expression::Index { line, .. }
        | Expression::PostIncrement { line, .. }
        | Expression::PostDecrement { line, .. }
        | Expression::Call { line, .. }
        | Expression::Name { line, .. }
        | Expression::Number { line, .. }
        | Expression::Text { line, .. } => *line,
    }
}

/// Writes the line of a node, where it isn't 1.
fn write_line(out: &mut String, e: &Expression) -> Result<(), AllocError> {
    let line = line_of(e).number();
    if line != 1 {
        write!(out, "{line}:")?;
    }
    Ok(())
}

/// Writes what a node is, without its children.
fn write_node(out: &mut String, e: &Expression) -> Result<(), AllocError> {
    match e {
        Expression::Comma { .. } => out.push_str(","),
        Expression::Assign { operator, .. } => write!(out, "{operator:?}="),
        Expression::Conditional { .. } => out.push_str("?"),
        Expression::Binary { operator, .. } => write!(out, "{operator:?}"),
        Expression::Cast { to, .. } => {
            out.push_str("(")?;
            write_type(out, to)?;
            out.push_str(")")
        }
        Expression::PreIncrement { .. } => out.push_str("++_"),
        Expression::PreDecrement { .. } => out.push_str("--_"),
        Expression::Unary { operator, .. } => write!(out, "{operator:?}"),
        Expression::SizeofExpression { .. } => out.push_str("sizeof"),
        Expression::SizeofType { of, .. } => {
            out.push_str("sizeof(")?;
            write_type(out, of)?;
            out.push_str(")")
        }
        Expression::Index { .. } => out.push_str("[]"),
        Expression::PostIncrement { .. } => out.push_str("_++"),
        Expression::PostDecrement { .. } => out.push_str("_--"),
        Expression::Call { name, .. } | Expression::Name { name, .. } => write_bytes(out, name),
        Expression::Number { value, .. } => write!(out, "{value}"),
        Expression::Text { bytes, .. } => {
            out.push('"')?;
            write_bytes(out, bytes)?;
            out.push('"')
        }
    }
}

/// Writes a parenthesis and what a node is.
fn begin(out: &mut String, e: &Expression) -> Result<(), AllocError> {
    write_line(out, e)?;
    out.push_str("(")?;
    write_node(out, e)
}

/// Writes a tree.
pub(super) fn write_expression(out: &mut String, e: &Expression) -> Result<(), AllocError> {
    match e {
        Expression::Comma {
            left: a,
            right: b,
            ..
        }
        | Expression::Assign {
            place: a,
            value: b,
            ..
        }
        | Expression::Binary {
            left: a,
            right: b,
            ..
        }
        | Expression::Index {
            array: a,
            index: b,
            ..
        } => {
            begin(out, e)?;
            out.push_str(" ")?;
            write_expression(out, a)?;
            out.push_str(" ")?;
            write_expression(out, b)?;
            out.push_str(")")
        }
        Expression::Conditional {
            condition,
            first,
            second,
            ..
        } => {
            begin(out, e)?;
            out.push_str(" ")?;
            write_expression(out, condition)?;
            out.push_str(" ")?;
            write_expression(out, first)?;
            out.push_str(" ")?;
            write_expression(out, second)?;
            out.push_str(")")
        }
        Expression::Cast { operand, .. }
        | Expression::PreIncrement { operand, .. }
        | Expression::PreDecrement { operand, .. }
        | Expression::Unary { operand, .. }
        | Expression::SizeofExpression { operand, .. }
        | Expression::PostIncrement { operand, .. }
        | Expression::PostDecrement { operand, .. } => {
            begin(out, e)?;
            out.push_str(" ")?;
            write_expression(out, operand)?;
            out.push_str(")")
        }
        Expression::Call { arguments, .. } => {
            begin(out, e)?;
            for argument in arguments.iter() {
                out.push_str(" ")?;
                write_expression(out, argument)?;
            }
            out.push_str(")")
        }
        _ => {
            write_line(out, e)?;
            write_node(out, e)
        }
    }
}
