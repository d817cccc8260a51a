//! Texts and the longest expressions that they begin with.
use crate::expressions::trees::write_expression;
use crate::texts::{nested, tokens_of};
use css_base::{FrontFault, Tokens};
use css_pexpr::{Level, balanced_brackets, one_expression, parse_expression, parse_part};
use css_tree::Scope;
use std::alloc::Global;
use std::process::Abort;
use std::test::Fail;

mod trees;

/// The longest expression at the front of a text and how many tokens it has, or the rule that is broken and its line.
fn read(alloc: Global, text: &str) -> Result<String, Fail> {
    let mut out = String::new(alloc);
    let tokens = tokens_of(alloc, text);
    match parse_expression(alloc, &tokens, 0) {
        Ok((tree, end)) => {
            write_expression(&mut out, &tree)?;
            write!(&mut out, " {end}")?;
        }
        Err(FrontFault::Static(fault)) => {
            write!(&mut out, "{} {}", fault.name.label(), fault.line.number())?;
        }
        Err(FrontFault::NoMemory) => out.push_str("no memory")?,
    }
    Ok(out)
}

/// Where the longest expression at the front of some tokens ends, or 0 where there is none.
fn end_of(alloc: Global, tokens: &Tokens) -> usize {
    match parse_expression(alloc, tokens, 0) {
        Ok((_, end)) => end,
        Err(_) => 0,
    }
}

static LEVELS: [(&str, &str); 15] = [
    ("a , b , c", "(, (, a b) c) 5"),
    ("a = b += c", "(Assign= a (Add= b c)) 5"),
    ("a ? b , c : d ? e : f", "(? a (, b c) (? d e f)) 11"),
    (
        "a || b && c | d ^ e & f == g < h << i + j * k",
        "(Or a (And b (BitOr c (BitXor d (BitAnd e (Equal f (Less g (ShiftLeft h (Add i (Multiply j k)))))))))) 21",
    ),
    (
        "a - b - c * d % e",
        "(Subtract (Subtract a b) (Remainder (Multiply c d) e)) 9",
    ),
    ("( a , b ) * ( ( c ) )", "(Multiply (, a b) c) 11"),
    (
        "- ! ~ * & + a",
        "(Minus (Not (Complement (Dereference (AddressOf (Plus a)))))) 7",
    ),
    ("++ a -- [ 1 ] ++", "(++_ (_++ ([] (_-- a) 1))) 7"),
    ("f ( ) + g ( a , ( b , c ) )", "(Add (f) (g a (, b c))) 14"),
    (
        "( int ) ( char * const ) - a",
        "((Int) ((Char *Const) (Minus a))) 10",
    ),
    ("sizeof ( int ) * 2", "(Multiply sizeof(Int) 2) 6"),
    ("sizeof ( x ) [ 1 ] * 2", "(Multiply (sizeof ([] x 1)) 2) 9"),
    ("sizeof sizeof - \"s\"", "(sizeof (sizeof (Minus \"s\"))) 4"),
    ("a\n+\nb *\nc", "(Add a 3:(Multiply 3:b 4:c)) 5"),
    ("(\na )\n[ b ]", "([] 2:a 3:b) 6"),
];

/// Each level of the grammar, and how operators of one level associate.
#[test]
fn levels(rt: HostRuntime) -> Result<(), Fail> {
    let alloc = rt.alloc();
    for &(text, want) in &LEVELS {
        assert_eq!(rt; read(alloc, text)?.as_str(), want, "{text}");
    }
    Ok(())
}

static FRONTS: [(&str, &str); 16] = [
    ("", "S5 Syntax 1"),
    ("\n)", "S5 Syntax 2"),
    ("a ? b :", "a 1"),
    ("a ? b : c :", "(? a b c) 5"),
    ("a + b = c", "(Add a b) 3"),
    ("f ( 1 ,", "f 1"),
    ("f ( 1 , )", "f 1"),
    ("( f ) ( 1 )", "f 3"),
    ("f ( 1 ) ( 2 )", "(f 1) 4"),
    ("( int", "S5 Syntax 1"),
    ("( int ) ;", "S5 Syntax 1"),
    ("sizeof ( int ) x", "sizeof(Int) 4"),
    ("( int ) a = b", "((Int) a) 4"),
    ("a [ b", "a 1"),
    ("a . b", "a 1"),
    ("while", "S5 Syntax 1"),
];

/// A longer attempt that fails leaves the longest front that is spelled.
#[test]
fn fronts(rt: HostRuntime) -> Result<(), Fail> {
    let alloc = rt.alloc();
    for &(text, want) in &FRONTS {
        assert_eq!(rt; read(alloc, text)?.as_str(), want, "{text}");
    }
    Ok(())
}

static LIMITS: [(&str, u32, &str, &str, usize); 14] = [
    ("- ", 498, "x", "", 499),
    ("- ", 499, "x", "", 500),
    ("- ", 500, "x", "", 0),
    ("x ? x : ", 499, "x", "", 1997),
    ("x ? x : ", 500, "x", "", 0),
    ("x = ", 499, "x", "", 999),
    ("x = ", 500, "x", "", 0),
    ("x + ", 499, "x", "", 999),
    ("x + ", 500, "x", "", 0),
    ("( ", 199, "x", ") ", 399),
    ("( ", 2000, "x", ") ", 4001),
    ("( ", 2000, "", "", 0),
    ("a [ ", 2000, "", "", 1),
    ("x ? ", 2000, "", "", 1),
];

/// 500 levels at most; parentheses add none, and failed attempts leave what stands before them.
#[test]
fn limits(rt: HostRuntime) -> Result<(), Fail> {
    let alloc = rt.alloc();
    for &(front, count, middle, back, want) in &LIMITS {
        let text = nested(alloc, ["", front, middle, back, ""], count)?;
        let tokens = tokens_of(alloc, text.as_str());
        assert_eq!(rt; end_of(alloc, &tokens), want, "{front}{count}");
    }
    Ok(())
}

static PARTS: [(&str, Scope, Level, usize, usize); 7] = [
    ("a = b , c", Scope::Block, Level::Expr, 0, 5),
    ("a = b , c", Scope::Block, Level::Assign, 0, 3),
    ("a = b , c", Scope::Block, Level::Cond, 0, 1),
    ("a = b , c", Scope::Block, Level::Cond, 4, 5),
    ("a = b , c", Scope::Block, Level::Cond, 5, 0),
    ("( static int ) a", Scope::File, Level::Expr, 0, 5),
    ("( static int ) a", Scope::Block, Level::Expr, 0, 0),
];

/// A level and a scope of the grammar, from a place on.
#[test]
fn parts(rt: HostRuntime) -> Result<(), Fail> {
    let alloc = rt.alloc();
    one_expression();
    balanced_brackets();
    for &(text, scope, level, from, want) in &PARTS {
        let tokens = tokens_of(alloc, text);
        let end = match parse_part(alloc, scope, level, tokens.as_slice(), from) {
            Ok((_, end)) => end,
            Err(_) => 0,
        };
        assert_eq!(rt; end, want, "{text}");
    }
    Ok(())
}
