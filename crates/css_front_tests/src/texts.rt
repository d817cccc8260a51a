//! Texts and their tokens.
use css_base::{FrontFault, Tokens};
use css_lex::lex;
use std::alloc::Global;
use std::process::Abort;
use std::test::Fail;

/// The tokens of a text, which the lexer takes. Where it refuses the text, no tokens.
pub(crate) fn tokens_of(alloc: Global, text: &str) -> Tokens {
    match lex(alloc, text.as_bytes()) {
        Ok(tokens) => tokens,
        Err(_) => Vec::new(alloc),
    }
}

/// A text with a part before and a part behind the middle, so many times.
pub(crate) fn nested(alloc: Global, parts: [&str; 5], count: u32) -> Result<String, Fail> {
    let mut text = String::from_str(alloc, parts[0])?;
    for _ in 0..count {
        text.push_str(parts[1])?;
    }
    text.push_str(parts[2])?;
    for _ in 0..count {
        text.push_str(parts[3])?;
    }
    text.push_str(parts[4])?;
    Ok(text)
}
