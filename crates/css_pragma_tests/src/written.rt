//! Directives as text: the line, and the parts in order. An expression is in parentheses what it is, and its operands.
use css_base::Bytes;
use css_tree::{Argument, Clause, Directive, Expression};
use std::alloc::AllocError;

fn write_bytes(out: &mut String, bytes: &Bytes) -> Result<(), AllocError> {
    for byte in bytes.as_slice() {
        out.push(char::from(*byte))?;
    }
    Ok(())
}

/// Writes what an expression is, without its operands. What no accepted directive has is a `!`.
fn write_node(out: &mut String, e: &Expression) -> Result<(), AllocError> {
    match e {
        Expression::Comma { .. } => out.push_str(","),
        Expression::Conditional { .. } => out.push_str("?"),
        Expression::Binary { operator, .. } => write!(out, "{operator:?}"),
        Expression::Cast { .. } => out.push_str("cast"),
        Expression::Unary { operator, .. } => write!(out, "{operator:?}"),
        Expression::SizeofExpression { .. } => out.push_str("sizeof"),
        Expression::SizeofType { .. } => out.push_str("sizeof(type)"),
        Expression::Index { .. } => out.push_str("[]"),
        Expression::Name { name, .. } => write_bytes(out, name),
        Expression::Number { value, .. } => write!(out, "{value}"),
        _ => out.push_str("!"),
    }
}

/// Writes a blank and an operand.
#[cycle(expressions)]
fn write_operand(out: &mut String, e: &Expression) -> Result<(), AllocError> {
    out.push_str(" ")?;
    write_expression(out, e)
}

/// Writes the operands of an expression, a blank before each.
#[cycle(expressions)]
fn write_operands(out: &mut String, e: &Expression) -> Result<(), AllocError> {
    match e {
        Expression::Comma { left, right, .. } | Expression::Binary { left, right, .. } => {
            write_operand(out, left)?;
            write_operand(out, right)
        }
        Expression::Index { array, index, .. } => {
            write_operand(out, array)?;
            write_operand(out, index)
        }
        Expression::Conditional {
            condition,
            first,
            second,
            ..
        } => {
            write_operand(out, condition)?;
            write_operand(out, first)?;
            write_operand(out, second)
        }
        Expression::Cast { operand, .. }
        | Expression::Unary { operand, .. }
        | Expression::SizeofExpression { operand, .. } => write_operand(out, operand),
        _ => Ok(()),
    }
}

#[cycle(expressions)]
fn write_expression(out: &mut String, e: &Expression) -> Result<(), AllocError> {
    match e {
        Expression::Name { .. } | Expression::Number { .. } | Expression::SizeofType { .. } => {
            write_node(out, e)
        }
        _ => {
            out.push_str("(")?;
            write_node(out, e)?;
            write_operands(out, e)?;
            out.push_str(")")
        }
    }
}

/// Writes expressions with commas between them.
fn write_listed(out: &mut String, all: &[Expression]) -> Result<(), AllocError> {
    for (i, e) in all.iter().enumerate() {
        out.push_str(if i > 0 { ", " } else { "" })?;
        write_expression(out, e)?;
    }
    Ok(())
}

fn write_dimensions(out: &mut String, all: &[Expression]) -> Result<(), AllocError> {
    for e in all {
        out.push_str("[")?;
        write_expression(out, e)?;
        out.push_str("]")?;
    }
    Ok(())
}

/// Writes the three numbers of a block in braces.
fn write_block(out: &mut String, numbers: [&Expression; 3]) -> Result<(), AllocError> {
    out.push_str("{")?;
    write_expression(out, numbers[0])?;
    out.push_str(", ")?;
    write_expression(out, numbers[1])?;
    out.push_str(", ")?;
    write_expression(out, numbers[2])?;
    out.push_str("}")
}

fn write_argument(out: &mut String, argument: &Argument) -> Result<(), AllocError> {
    match argument {
        Argument::Plain { name, dimensions } => {
            write_bytes(out, name)?;
            write_dimensions(out, dimensions.as_slice())
        }
        Argument::Strided {
            name,
            rows,
            width,
            stride,
        } => {
            write_bytes(out, name)?;
            write_block(out, [rows, width, stride])
        }
    }
}

fn write_arguments(out: &mut String, all: &[Argument]) -> Result<(), AllocError> {
    for (i, argument) in all.iter().enumerate() {
        out.push_str(if i > 0 { ", " } else { "" })?;
        write_argument(out, argument)?;
    }
    Ok(())
}

fn write_clause(out: &mut String, clause: &Clause) -> Result<(), AllocError> {
    match clause {
        Clause::Arguments {
            direction,
            arguments,
        } => {
            write!(out, "{direction:?}(")?;
            write_arguments(out, arguments.as_slice())?;
            out.push_str(")")
        }
        Clause::HighPriority => out.push_str("highpriority"),
    }
}

fn write_clauses(out: &mut String, all: &[Clause]) -> Result<(), AllocError> {
    for clause in all {
        out.push_str(" ")?;
        write_clause(out, clause)?;
    }
    Ok(())
}

/// Writes the line of a directive, and the directive.
pub(crate) fn write_directive(out: &mut String, directive: &Directive) -> Result<(), AllocError> {
    match directive {
        Directive::Start { line } => write!(out, "{} start", line.number()),
        Directive::Finish { line } => write!(out, "{} finish", line.number()),
        Directive::Barrier { line } => write!(out, "{} barrier", line.number()),
        Directive::Wait { line, addresses } => {
            write!(out, "{} wait on(", line.number())?;
            write_listed(out, addresses.as_slice())?;
            out.push_str(")")
        }
        Directive::Task { line, clauses } => {
            write!(out, "{} task", line.number())?;
            write_clauses(out, clauses.as_slice())
        }
    }
}
