//! Macros and what replaces a token. What is wanted comes from C99 6.10.3 and 7.17.

use css_base::{Bytes, IntType, Line, Token, TokenKind};
use css_macros::{Counts, ExpansionFault, MacroToken, Macros, Span};
use std::alloc::Global;
use std::process::Abort;
use std::test::Fail;

/// The token that a word of a test spells.
fn token(alloc: Global, word: &str) -> Result<MacroToken, Fail> {
    if let Ok(value) = word.parse::<u64>() {
        return Ok(MacroToken::Number {
            kind: IntType::Int,
            value,
        });
    }
    let bytes = Bytes::new(Vec::from_slice(alloc, word.as_bytes())?);
    match word.as_bytes().first() {
        Some(first) if first.is_ascii_alphabetic() => Ok(MacroToken::Word(bytes)),
        _ => Ok(MacroToken::Punctuator(bytes)),
    }
}

/// The tokens that words with blanks between them spell.
fn macro_tokens(alloc: Global, words: &str) -> Result<Vec<MacroToken>, Fail> {
    let mut tokens = Vec::new(alloc);
    for word in words.split_whitespace() {
        tokens.push(token(alloc, word)?)?;
    }
    Ok(tokens)
}

/// Defines a name.
fn define(alloc: Global, macros: &mut Macros, name: &str, words: &str) -> Result<(), Fail> {
    let name = Bytes::new(Vec::from_slice(alloc, name.as_bytes())?);
    macros.define(name, macro_tokens(alloc, words)?)?;
    Ok(())
}

/// A token's bytes, or its value where it is a number, and a blank.
fn push_word(out: &mut String, token: &Token) -> Result<(), Fail> {
    match &token.kind {
        TokenKind::Word(bytes) | TokenKind::Punctuator(bytes) => {
            for byte in bytes.as_slice() {
                out.push(char::from(*byte))?;
            }
        }
        TokenKind::Number { value, .. } => write!(out, "{value}")?,
        _ => out.push_str("another kind")?,
    }
    out.push(' ')?;
    Ok(())
}

/// What replaces a word, and how many names were replaced.
fn replaced(rt: &impl Abort, alloc: Global, macros: &Macros, word: &str) -> Result<String, Fail> {
    let span = Span {
        line: Line::new(7),
        place: 20,
        end: 23,
    };
    let mut counts = Counts::new();
    let mut tokens = Vec::new(alloc);
    let kind = token(alloc, word)?.to_kind()?;
    let Ok(()) = macros.replace(alloc, kind, &span, &mut counts, &mut tokens) else {
        return Err("too many or no memory".into());
    };
    let mut out = String::new(alloc);
    for token in &tokens {
        assert!(rt; token.line == span.line && token.place == 20 && token.end == 23);
        push_word(&mut out, token)?;
    }
    assert!(rt; counts.tokens as usize == tokens.len());
    write!(out, "/ {}", counts.names)?;
    Ok(out)
}

static MACROS: [(&str, &str); 10] = [
    ("SELF", "SELF + SELF"),
    ("LEFT", "RIGHT 1"),
    ("RIGHT", "LEFT 2"),
    ("X", "LEFT X RIGHT"),
    ("NOTHING", ""),
    ("CHAIN", "LINK ;"),
    ("LINK", "NOTHING END NOTHING"),
    ("while", "if"),
    ("if", "while ( 1 )"),
    ("TWICE", "CHAIN CHAIN"),
];

static REPLACED_WORDS: [(&str, &str); 14] = [
    ("other", "other / 0"),
    ("+", "+ / 0"),
    ("12", "12 / 0"),
    ("NULL", "( ( void * ) 0 ) / 1"),
    ("EOF", "( - 1 ) / 1"),
    ("SELF", "SELF + SELF / 1"),
    ("LEFT", "LEFT 2 1 / 2"),
    ("RIGHT", "RIGHT 1 2 / 2"),
    ("X", "LEFT 2 1 X RIGHT 1 2 / 5"),
    ("NOTHING", "/ 1"),
    ("CHAIN", "END ; / 4"),
    ("while", "while ( 1 ) / 2"),
    ("if", "if ( 1 ) / 2"),
    ("TWICE", "END ; END ; / 9"),
];

#[test]
fn replacements(rt: HostRuntime) -> Result<(), Fail> {
    let alloc = rt.alloc();
    let mut macros = Macros::new(alloc)?;
    for &(name, words) in &MACROS {
        define(alloc, &mut macros, name, words)?;
    }
    for &(word, wanted) in &REPLACED_WORDS {
        let got = replaced(&rt, alloc, &macros, word)?;
        assert_eq!(rt; got.as_str(), wanted, "at {word}");
    }
    Ok(())
}

static DEFINITIONS: [(&str, &str, bool, &str); 10] = [
    ("NULL", "0", true, "0 / 1"),
    ("NULL", "0", true, "0 / 1"),
    ("NULL", "1", false, "0 / 1"),
    ("A", "x 10 +", true, "x 10 + / 1"),
    ("A", "x 10 +", true, "x 10 + / 1"),
    ("A", "x 10", false, "x 10 + / 1"),
    ("A", "x 10 + 1", false, "x 10 + / 1"),
    ("A", "y 10 +", false, "x 10 + / 1"),
    ("A", "x 10 -", false, "x 10 + / 1"),
    ("A", "", false, "x 10 + / 1"),
];

#[test]
fn definitions(rt: HostRuntime) -> Result<(), Fail> {
    let alloc = rt.alloc();
    let mut macros = Macros::new(alloc)?;
    // A name, its tokens, whether they may be defined (C99 6.10.3 paragraph 2), and what the name is after that.
    for &(name, words, allowed, wanted) in &DEFINITIONS {
        let tokens = macro_tokens(alloc, words)?;
        assert_eq!(rt;
            macros.may_define(name.as_bytes(), tokens.as_slice()),
            allowed,
            "at {name} {words}"
        );
        if allowed {
            define(alloc, &mut macros, name, words)?;
        }
        let got = replaced(&rt, alloc, &macros, name)?;
        assert_eq!(rt; got.as_str(), wanted, "at {name} {words}");
    }
    for name in ["A", "EOF", "unknown", "A"] {
        macros.undefine(name.as_bytes());
        let tokens = macro_tokens(alloc, "z")?;
        assert!(rt;
            macros.may_define(name.as_bytes(), tokens.as_slice()),
            "at {name}"
        );
        let got = replaced(&rt, alloc, &macros, name)?;
        assert_eq!(rt; got.split_whitespace().count(), 3, "at {name}");
    }
    Ok(())
}

/// Macros `A0`, with these tokens, and `A1` up to `A` and the last number, each twice the one before.
fn doubling(alloc: Global, first: &str, last: u32) -> Result<Macros, Fail> {
    let mut macros = Macros::new(alloc)?;
    define(alloc, &mut macros, "A0", first)?;
    for k in 0..last {
        let name = format!(in alloc; "A{}", k + 1)?;
        let words = format!(in alloc; "A{k} A{k}")?;
        define(alloc, &mut macros, name.as_str(), words.as_str())?;
    }
    Ok(macros)
}

/// Whether a name is replaced at all, how many tokens replace it and how many names are replaced.
fn counted(alloc: Global, macros: &Macros, name: &str) -> Result<(bool, u32, u32), Fail> {
    let span = Span {
        line: Line::new(1),
        place: 0,
        end: 1,
    };
    let mut counts = Counts::new();
    let mut tokens = Vec::new(alloc);
    let kind = token(alloc, name)?.to_kind()?;
    match macros.replace(alloc, kind, &span, &mut counts, &mut tokens) {
        Ok(()) => Ok((true, counts.tokens, counts.names)),
        Err(ExpansionFault::TooMany) => Ok((false, counts.tokens, counts.names)),
        Err(ExpansionFault::NoMemory) => Err("no memory".into()),
    }
}

#[test]
fn many_tokens_and_names(rt: HostRuntime) -> Result<(), Fail> {
    let alloc = rt.alloc();
    let four = doubling(alloc, "; ; ; ;", 18)?;
    assert_eq!(rt; counted(alloc, &four, "A17")?, (true, 524_288, 262_143));
    assert!(rt; !counted(alloc, &four, "A18")?.0);
    let none = doubling(alloc, "", 40)?;
    assert_eq!(rt; counted(alloc, &none, "A18")?, (true, 0, 524_287));
    assert!(rt; !counted(alloc, &none, "A40")?.0);
    Ok(())
}

#[test]
fn long_names(rt: HostRuntime) -> Result<(), Fail> {
    let alloc = rt.alloc();
    let mut long = String::new(alloc);
    for _ in 0..1_000_000u32 {
        long.push('L')?;
    }
    let twice = format!(in alloc; "{long} {long}")?;
    let mut macros = doubling(alloc, twice.as_str(), 19)?;
    assert_eq!(rt; counted(alloc, &macros, "A18")?, (true, 524_288, 524_287));
    assert!(rt; !counted(alloc, &macros, "A19")?.0);
    define(alloc, &mut macros, long.as_str(), "")?;
    assert_eq!(rt; counted(alloc, &macros, "A17")?, (true, 0, 524_287));
    assert!(rt; !counted(alloc, &macros, "A18")?.0);
    Ok(())
}

#[test]
fn long_chain(rt: HostRuntime) -> Result<(), Fail> {
    let alloc = rt.alloc();
    let mut macros = Macros::new(alloc)?;
    for k in 0..1_000_000u32 {
        let name = format!(in alloc; "C{k}")?;
        let next = format!(in alloc; "C{}", k + 1)?;
        define(alloc, &mut macros, name.as_str(), next.as_str())?;
    }
    assert_eq!(rt;
        replaced(&rt, alloc, &macros, "C0")?.as_str(),
        "C1000000 / 1000000"
    );
    define(alloc, &mut macros, "C1000000", "end")?;
    assert_eq!(rt;
        replaced(&rt, alloc, &macros, "C1")?.as_str(),
        "end / 1000000"
    );
    assert!(rt; !counted(alloc, &macros, "C0")?.0);
    Ok(())
}
