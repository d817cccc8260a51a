//! Texts that are one directive, and how it is read.
use crate::written::write_directive;
use css_base::{FrontFault, Line, StaticFault, StaticName, TokenKind};
use css_lex::lex;
use css_pragma::{Place, read_directive};
use css_tree::Directive;
use std::alloc::Global;
use std::process::Abort;
use std::test::Fail;

/// The directive that a text is in a place, or its refusal. A text that doesn't begin with a directive is S5.
fn read(alloc: Global, place: Place, text: &str) -> Result<Directive, FrontFault> {
    let tokens = lex(alloc, text.as_bytes())?;
    if let Some(token) = tokens.first() {
        if let TokenKind::Directive(words) = &token.kind {
            return read_directive(alloc, words, place, token.line);
        }
    }
    Err(FrontFault::Static(StaticFault {
        name: StaticName::Syntax,
        line: Line::new(1),
    }))
}

/// The line and the parts of the directive with these words behind some text, or the rule that it breaks and its line.
fn outcome(alloc: Global, place: Place, before: &str, words: &str) -> Result<String, Fail> {
    let text = format!(in alloc; "{before}#pragma css {words}\n")?;
    let mut out = String::new(alloc);
    match read(alloc, place, text.as_str()) {
        Ok(directive) => write_directive(&mut out, &directive)?,
        Err(FrontFault::Static(fault)) => {
            write!(&mut out, "{} {}", fault.name.label(), fault.line.number())?;
        }
        Err(FrontFault::NoMemory) => out.push_str("no memory")?,
    }
    Ok(out)
}

/// Ends the test where the directive with these words behind some text comes to something else.
pub(crate) fn check_behind(
    rt: &impl Abort,
    alloc: Global,
    place: Place,
    [before, words]: [&str; 2],
    want: &str,
) -> Result<(), Fail> {
    assert_eq!(rt;
        outcome(alloc, place, before, words)?.as_str(),
        want,
        "{words}"
    );
    Ok(())
}

/// Ends the test where the directive with these words in line 1 comes to something else.
pub(crate) fn check(
    rt: &impl Abort,
    alloc: Global,
    place: Place,
    words: &str,
    want: &str,
) -> Result<(), Fail> {
    check_behind(rt, alloc, place, ["", words], want)
}

/// The rule that the directive with these words breaks, or nothing.
pub(crate) fn refusal(alloc: Global, place: Place, words: &str) -> Result<&'static str, Fail> {
    let text = format!(in alloc; "#pragma css {words}\n")?;
    match read(alloc, place, text.as_str()) {
        Ok(_) => Ok(""),
        Err(FrontFault::Static(fault)) => Ok(fault.name.label()),
        Err(FrontFault::NoMemory) => Ok("no memory"),
    }
}
