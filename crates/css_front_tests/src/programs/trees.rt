//! Trees as text, each node with its line, and a function with its end too.
use css_base::Bytes;
use css_tree::{
    Block, Declaration, Declarator, Entry, Expression, ForStart, Initialiser, Item, Mark,
    Parameter, Parameters, Specifier, Star, Statement,
};
use std::alloc::AllocError;

fn write_bytes(out: &mut String, bytes: &Bytes) -> Result<(), AllocError> {
    for byte in bytes.as_slice() {
        out.push(char::from(*byte))?;
    }
    Ok(())
}

fn write_specifiers(out: &mut String, all: &[Specifier]) -> Result<(), AllocError> {
    out.push_str("[")?;
    for (i, specifier) in all.iter().enumerate() {
        if i > 0 {
            out.push_str(" ")?;
        }
        write!(out, "{specifier:?}")?;
    }
    out.push_str("]")
}

fn write_stars(out: &mut String, stars: &[Star]) -> Result<(), AllocError> {
    for star in stars {
        out.push_str("*{")?;
        for (i, qualifier) in star.qualifiers.iter().enumerate() {
            if i > 0 {
                out.push_str(" ")?;
            }
            write!(out, "{qualifier:?}")?;
        }
        out.push_str("}")?;
    }
    Ok(())
}

/// Writes names and numbers. Operators are css_pexpr's.
fn write_expression(out: &mut String, e: &Expression) -> Result<(), AllocError> {
    match e {
        Expression::Name { name, .. } => write_bytes(out, name),
        Expression::Number { value, .. } => write!(out, "{value}"),
        Expression::Text { .. } => out.push_str("(text)"),
        Expression::SizeofType { .. } => out.push_str("sizeof(type)"),
        Expression::SizeofExpression { .. } => out.push_str("sizeof(value)"),
        _ => out.push_str("(expression)"),
    }
}

fn write_optional(out: &mut String, value: &Option<Expression>) -> Result<(), AllocError> {
    match value {
        Some(e) => write_expression(out, e),
        None => Ok(()),
    }
}

fn write_dimensions(out: &mut String, sizes: &[Option<Expression>]) -> Result<(), AllocError> {
    for size in sizes {
        out.push_str("[")?;
        write_optional(out, size)?;
        out.push_str("]")?;
    }
    Ok(())
}

fn write_initialiser(out: &mut String, initialiser: &Initialiser) -> Result<(), AllocError> {
    match initialiser {
        Initialiser::Value(e) => write_expression(out, e),
        Initialiser::Text { line, bytes } => {
            write!(out, "{}:\"", line.number())?;
            write_bytes(out, bytes)?;
            out.push_str("\"")
        }
        Initialiser::List { line, parts } => {
            write!(out, "{}:{{", line.number())?;
            for (i, part) in parts.iter().enumerate() {
                if i > 0 {
                    out.push_str(" ")?;
                }
                write_initialiser(out, part)?;
            }
            out.push_str("}")
        }
    }
}

fn write_declarator(out: &mut String, d: &Declarator) -> Result<(), AllocError> {
    write!(out, "{}:", d.line.number())?;
    write_stars(out, d.stars.as_slice())?;
    write_bytes(out, &d.name)?;
    write_dimensions(out, d.dimensions.as_slice())?;
    match &d.initialiser {
        Some(initialiser) => {
            out.push_str("=")?;
            write_initialiser(out, initialiser)
        }
        None => Ok(()),
    }
}

fn write_declaration(out: &mut String, d: &Declaration) -> Result<(), AllocError> {
    write!(out, "{}:", d.line.number())?;
    write_specifiers(out, d.specifiers.as_slice())?;
    for (i, declarator) in d.declarators.iter().enumerate() {
        out.push_str(if i > 0 { ", " } else { " " })?;
        write_declarator(out, declarator)?;
    }
    out.push_str(";")
}

fn write_mark(out: &mut String, mark: &Mark) -> Result<(), AllocError> {
    write!(out, "{}:#{}", mark.line.number(), mark.words.len())
}

#[cycle(statements)]
fn write_block(out: &mut String, block: &Block) -> Result<(), AllocError> {
    write!(out, "{}:{{", block.line.number())?;
    for (i, entry) in block.entries.iter().enumerate() {
        if i > 0 {
            out.push_str(" ")?;
        }
        match entry {
            Entry::Declaration(d) => write_declaration(out, d)?,
            Entry::Directive(mark) => write_mark(out, mark)?,
            Entry::Statement(statement) => write_statement(out, statement)?,
        }
    }
    out.push_str("}")
}

#[cycle(statements)]
fn write_statement(out: &mut String, statement: &Statement) -> Result<(), AllocError> {
    match statement {
        Statement::Block(block) => write_block(out, block),
        Statement::If {
            line,
            condition,
            first,
            second,
        } => {
            write!(out, "{}:if(", line.number())?;
            write_expression(out, condition)?;
            out.push_str(")")?;
            write_statement(out, first)?;
            match second {
                Some(other) => {
                    out.push_str("else ")?;
                    write_statement(out, other)
                }
                None => Ok(()),
            }
        }
        Statement::While {
            line,
            condition,
            body,
        } => {
            write!(out, "{}:while(", line.number())?;
            write_expression(out, condition)?;
            out.push_str(")")?;
            write_statement(out, body)
        }
        Statement::Do {
            line,
            body,
            condition,
        } => {
            write!(out, "{}:do ", line.number())?;
            write_statement(out, body)?;
            out.push_str("while(")?;
            write_expression(out, condition)?;
            out.push_str(");")
        }
        Statement::For {
            line,
            start,
            condition,
            step,
            body,
        } => {
            write!(out, "{}:for(", line.number())?;
            match start {
                ForStart::Declaration(d) => write_declaration(out, d)?,
                ForStart::Expression(value) => {
                    write_optional(out, value)?;
                    out.push_str(";")?;
                }
            }
            write_optional(out, condition)?;
            out.push_str(";")?;
            write_optional(out, step)?;
            out.push_str(")")?;
            write_statement(out, body)
        }
        _ => write_simple(out, statement),
    }
}

fn write_simple(out: &mut String, statement: &Statement) -> Result<(), AllocError> {
    match statement {
        Statement::Expression { line, value } => {
            write!(out, "{}:", line.number())?;
            write_optional(out, value)?;
            out.push_str(";")
        }
        Statement::Break { line } => write!(out, "{}:break;", line.number()),
        Statement::Continue { line } => write!(out, "{}:continue;", line.number()),
        Statement::Return { line, value } => {
            write!(out, "{}:return", line.number())?;
            if value.is_some() {
                out.push_str(" ")?;
            }
            write_optional(out, value)?;
            out.push_str(";")
        }
        _ => out.push_str("other"),
    }
}

fn write_parameter(out: &mut String, p: &Parameter) -> Result<(), AllocError> {
    write!(out, "{}:", p.line.number())?;
    write_specifiers(out, p.specifiers.as_slice())?;
    write_stars(out, p.stars.as_slice())?;
    match &p.name {
        Some(name) => write_bytes(out, name)?,
        None => {}
    }
    write_dimensions(out, p.dimensions.as_slice())
}

fn write_parameters(out: &mut String, parameters: &Parameters) -> Result<(), AllocError> {
    match parameters {
        Parameters::Empty => Ok(()),
        Parameters::Void => out.push_str("void"),
        Parameters::List(all) => {
            for (i, p) in all.iter().enumerate() {
                if i > 0 {
                    out.push_str(", ")?;
                }
                write_parameter(out, p)?;
            }
            Ok(())
        }
    }
}

/// Writes a function or a declaration.
pub(super) fn write_item(out: &mut String, item: &Item) -> Result<(), AllocError> {
    match item {
        Item::Declaration(d) => write_declaration(out, d),
        Item::Function {
            directive,
            line,
            end,
            specifiers,
            stars,
            name,
            parameters,
            body,
        } => {
            if let Some(mark) = directive {
                write_mark(out, mark)?;
                out.push_str(" ")?;
            }
            write!(out, "{}-{}:", line.number(), end.number())?;
            write_specifiers(out, specifiers.as_slice())?;
            out.push_str(" ")?;
            write_stars(out, stars.as_slice())?;
            write_bytes(out, name)?;
            out.push_str("(")?;
            write_parameters(out, parameters)?;
            out.push_str(")")?;
            match body {
                Some(block) => write_block(out, block),
                None => out.push_str(";"),
            }
        }
    }
}
