//! Texts with their tokens, and texts that are refused. What is wanted comes from C99 5.1.1.2, 6.4 and 6.10, with the
//! sizes of this language's integer types.

use css_base::{FrontFault, IntType, StaticName, Token, TokenKind};
use css_lex::lex;
use std::alloc::Global;
use std::process::Abort;
use std::test::Fail;

/// The letters of an integer type.
fn type_letters(kind: IntType) -> &'static str {
    match kind {
        IntType::Int => "i",
        IntType::UInt => "u",
        IntType::Long => "l",
        IntType::ULong => "ul",
        IntType::LongLong => "ll",
        IntType::ULongLong => "ull",
        _ => "?",
    }
}

/// Puts bytes behind a text.
fn push_bytes(out: &mut String, bytes: &[u8]) -> Result<(), Fail> {
    for byte in bytes {
        out.push(char::from(*byte))?;
    }
    Ok(())
}

/// Puts a token that is no directive behind a text, and a blank.
fn push_plain(out: &mut String, kind: &TokenKind) -> Result<(), Fail> {
    match kind {
        TokenKind::Word(bytes) | TokenKind::Punctuator(bytes) => push_bytes(out, bytes.as_slice())?,
        TokenKind::Number { kind, value } => write!(out, "{value}{}", type_letters(*kind))?,
        TokenKind::Character(byte) => write!(out, "'{byte}")?,
        TokenKind::Text(bytes) => {
            out.push('"')?;
            push_bytes(out, bytes.as_slice())?;
            out.push('"')?;
        }
        TokenKind::Directive(_) => out.push('#')?,
    }
    out.push(' ')?;
    Ok(())
}

/// Tokens with a blank behind each, and the words of a directive in angle brackets.
fn spelled(alloc: Global, tokens: &[Token]) -> Result<String, Fail> {
    let mut out = String::new(alloc);
    for token in tokens {
        let TokenKind::Directive(words) = &token.kind else {
            push_plain(&mut out, &token.kind)?;
            continue;
        };
        out.push_str("< ")?;
        for word in words {
            push_plain(&mut out, &word.kind)?;
        }
        out.push_str("> ")?;
    }
    Ok(out)
}

/// A text with these tokens.
fn check_tokens(rt: &impl Abort, alloc: Global, text: &str, wanted: &str) -> Result<(), Fail> {
    let Ok(tokens) = lex(alloc, text.as_bytes()) else {
        return Err("no tokens".into());
    };
    let got = spelled(alloc, tokens.as_slice())?;
    assert_eq!(rt; got.as_str().trim(), wanted, "at {text}");
    Ok(())
}

/// A text that is refused by this rule in this line.
fn check_refused(
    rt: &impl Abort,
    alloc: Global,
    text: &str,
    name: StaticName,
    line: u32,
) -> Result<(), Fail> {
    let Err(FrontFault::Static(fault)) = lex(alloc, text.as_bytes()) else {
        return Err("no rule".into());
    };
    assert!(rt;
        fault.name == name && fault.line.number() == line,
        "at {text}"
    );
    Ok(())
}

static LEXEMES: [(&str, &str); 23] = [
    ("", ""),
    (
        "[](){}.->++--&*+-~!/%",
        "[ ] ( ) { } . -> ++ -- & * + - ~ ! / %",
    ),
    (
        "<<>>< ><=>= ==!=^|&&||?:;",
        "<< >> < > <= >= == != ^ | && || ? : ;",
    ),
    (
        "...=*=/=%=+=-=<<=>>=&=^=|=,",
        "... = *= /= %= += -= <<= >>= &= ^= |= ,",
    ),
    ("a+++++b >>= .. x.y", "a ++ ++ + b >>= . . x . y"),
    ("a<<<=b...->--->&&&|||", "a << <= b ... -> -- -> && & || |"),
    ("_a1 int while9", "_a1 int while9"),
    (
        "0 7 1 2u 3l 4ul 5LL 6uLL 7LLU 0x1f 017",
        "0i 7i 1i 2u 3l 4ul 5ll 6ull 7ull 31i 15i",
    ),
    (
        "2147483647 2147483648 4294967296",
        "2147483647i 2147483648ll 4294967296ll",
    ),
    (
        "0x7fffffff 0x80000000 0xFFFFFFFFu",
        "2147483647i 2147483648u 4294967295u",
    ),
    (
        "0xFFFFFFFFFFFFFFFF 18446744073709551615u",
        "18446744073709551615ull 18446744073709551615ull",
    ),
    (
        "9223372036854775807 037777777777",
        "9223372036854775807ll 4294967295u",
    ),
    ("0x80000000l 2147483648l", "2147483648ul 2147483648ll"),
    (
        "'a' '\\'' '\\\"' '\\?' '\\\\' '\"'",
        "'97 '39 '34 '63 '92 '34",
    ),
    (
        "'\\a' '\\b' '\\f' '\\n' '\\r' '\\t' '\\v'",
        "'7 '8 '12 '10 '13 '9 '11",
    ),
    (
        "'\\0' '\\377' '\\x41' '\\xfF' '\\101'",
        "'0 '255 '65 '255 '65",
    ),
    ("\"a\\x41\\1012\\n\"", "\"aAA2\n\""),
    ("\"a\" \"b\"\n\"c\" x \"d\"", "\"abc\" x \"d\""),
    (
        "in\\\nt 1\\\n2 \"a\\\nb\" '\\\\\nn' +\\\r\n= x",
        "int 12i \"ab\" '10 += x",
    ),
    (
        "x\r\\\n\ny 0\\\nx1\\\r\n7 '\\\\\n0' .\\\n..",
        "x y 23i '0 ...",
    ),
    ("a/**/b/*\n*/c//d\ne/ **/", "a b c e / * * /"),
    (
        "a/***/b/* * /**/c/*/ */d/\\\n/e\nf/\\\n**\\\n/g",
        "a b c d f g",
    ),
    ("\"/*\" '/' // \"\n\"//\" /* \x01 */", "\"/*\" '47 \"//\""),
];

#[test]
fn lexemes(rt: HostRuntime) -> Result<(), Fail> {
    for &(text, wanted) in &LEXEMES {
        check_tokens(&rt, rt.alloc(), text, wanted)?;
    }
    Ok(())
}

static HASH_LINES: [(&str, &str); 16] = [
    ("#define A 1\nA", "1i"),
    ("#define A (x)\nA A", "( x ) ( x )"),
    ("#define A A B\n#define B A\nA", "A A"),
    ("#define while if\nwhile", "if"),
    ("#define A\nA x A", "x"),
    ("NULL EOF", "( ( void * ) 0i ) ( - 1i )"),
    ("#define NULL 0\n#define NULL 0\nNULL", "0i"),
    ("#define A 10\n#define A 0xa\nA", "10i"),
    ("#define A 1\n#undef A\nA\n#undef A", "A"),
    ("#define A 1\nA\n#undef A\n#define A 2\nA", "1i 2i"),
    ("#include <it's> @\n#pragma omp A \"\n#\nx", "x"),
    (
        "#define A b\n#pragma css A \"x\" \"y\"\n#pragma A",
        "< b \"xy\" >",
    ),
    (
        "#pragma css task input(a)\n#pragma css",
        "< task input ( a ) > < >",
    ),
    ("#define X css\n#pragma X y\n#pragma css X", "< css >"),
    (
        "#define S \"a\"\nS \"b\"\n#pragma css \nS",
        "\"ab\" < > \"a\"",
    ),
    ("/* a\n*/ # /**/ define A /* */ 2 // x\nA", "2i"),
];

#[test]
fn hash_lines(rt: HostRuntime) -> Result<(), Fail> {
    for &(text, wanted) in &HASH_LINES {
        check_tokens(&rt, rt.alloc(), text, wanted)?;
    }
    Ok(())
}

static REFUSALS: [(&str, StaticName, u32); 40] = [
    ("a\x01", StaticName::BadByte, 1),
    ("a\n\"\x7f\"", StaticName::BadByte, 2),
    ("#include \x01", StaticName::BadByte, 1),
    ("x\n@", StaticName::BadToken, 2),
    ("a # b", StaticName::BadToken, 1),
    ("'a\nb'", StaticName::BadToken, 1),
    ("x \"a\\\"\n", StaticName::BadToken, 1),
    ("x\n/* a\n", StaticName::BadToken, 2),
    ("#pragma x /*/\n", StaticName::BadToken, 1),
    ("a\n\\ b", StaticName::BadToken, 2),
    ("a\\\\\n\nb", StaticName::BadToken, 1),
    ("#define A @", StaticName::BadToken, 1),
    ("#define A # x", StaticName::BadToken, 1),
    ("#define A 1\n#define A 2 @", StaticName::BadToken, 2),
    ("@ 08", StaticName::BadToken, 1),
    ("#define", StaticName::BadMacro, 1),
    ("#define 1 2", StaticName::BadMacro, 1),
    ("#define f(x) @", StaticName::BadMacro, 1),
    ("#define f\\\n(x)", StaticName::BadMacro, 1),
    ("#define A 1\n\n#define A 2", StaticName::BadMacro, 3),
    ("#define EOF 1\n#define EOF 2", StaticName::BadMacro, 2),
    ("\n#if \x01", StaticName::BadMacro, 2),
    ("##", StaticName::BadMacro, 1),
    ("#undef", StaticName::BadMacro, 1),
    ("#undef A B", StaticName::BadMacro, 1),
    ("#undef 1", StaticName::BadMacro, 1),
    ("08", StaticName::BadConstant, 1),
    ("x\n.5", StaticName::BadConstant, 2),
    ("1e+5 @", StaticName::BadConstant, 1),
    ("0x", StaticName::BadConstant, 1),
    ("1lul", StaticName::BadConstant, 1),
    ("9223372036854775808", StaticName::BadConstant, 1),
    ("18446744073709551616u", StaticName::BadConstant, 1),
    ("''", StaticName::BadConstant, 1),
    ("'ab'", StaticName::BadConstant, 1),
    ("'\\400'", StaticName::BadConstant, 1),
    ("'\\x100'", StaticName::BadConstant, 1),
    ("'\\x'", StaticName::BadConstant, 1),
    ("\"\\q\x01\"", StaticName::BadConstant, 1),
    ("\n#define A '\\8'", StaticName::BadConstant, 2),
];

#[test]
fn refusals(rt: HostRuntime) -> Result<(), Fail> {
    for &(text, name, line) in &REFUSALS {
        check_refused(&rt, rt.alloc(), text, name, line)?;
    }
    Ok(())
}

/// `#define` lines in which each of so many macros behind the first stands for two of the one before it.
fn doubling(alloc: Global, first: &str, macros: u32) -> Result<String, Fail> {
    let mut text = String::new(alloc);
    write!(text, "#define A0{first}\n")?;
    for number in 0..macros {
        write!(text, "#define A{} A{number} A{number}\n", number + 1)?;
    }
    Ok(text)
}

#[test]
fn hostile_texts(rt: HostRuntime) -> Result<(), Fail> {
    let mut full = doubling(rt.alloc(), " ;;;;", 18)?;
    full.push_str("A18")?;
    check_refused(&rt, rt.alloc(), full.as_str(), StaticName::BadMacro, 20)?;
    let mut empty = doubling(rt.alloc(), "", 40)?;
    empty.push_str("A40")?;
    check_refused(&rt, rt.alloc(), empty.as_str(), StaticName::BadMacro, 42)?;
    Ok(())
}

#[test]
fn places(rt: HostRuntime) -> Result<(), Fail> {
    let text = "#define A x y\nA\n ab\\\nc \"p\"\n\"q\" \n #pragma css a b \n";
    let Ok(tokens) = lex(rt.alloc(), text.as_bytes()) else {
        return Err("no tokens".into());
    };
    let wanted = [
        (2, 14, 15),
        (2, 14, 15),
        (3, 17, 22),
        (4, 23, 30),
        (6, 33, 48),
    ];
    assert!(rt; tokens.len() == wanted.len());
    for (token, (line, place, end)) in tokens.iter().zip(&wanted) {
        assert!(rt; token.line.number() == *line && token.place == *place && token.end == *end);
    }
    Ok(())
}
