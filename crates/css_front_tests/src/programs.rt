//! Texts and the trees that they spell.
use crate::programs::trees::write_item;
use crate::texts::{nested, tokens_of};
use css_base::{FrontFault, StaticName};
use css_parse::parse;
use std::alloc::Global;
use std::process::Abort;
use std::test::Fail;

mod trees;

/// The items that a text spells, or the rule that it breaks and its line.
fn read(alloc: Global, text: &str) -> Result<String, Fail> {
    let mut out = String::new(alloc);
    let tokens = tokens_of(alloc, text);
    match parse(alloc, &tokens) {
        Ok(tree) => {
            for (i, item) in tree.items.iter().enumerate() {
                if i > 0 {
                    out.push_str(" ")?;
                }
                write_item(&mut out, item)?;
            }
        }
        Err(FrontFault::Static(fault)) => {
            write!(&mut out, "{} {}", fault.name.label(), fault.line.number())?;
        }
        Err(FrontFault::NoMemory) => out.push_str("no memory")?,
    }
    Ok(out)
}

static ITEMS: [(&str, &str); 12] = [
    ("", ""),
    ("int x ;", "1:[Int] 1:x;"),
    (
        "const unsigned static int * const volatile * x ;",
        "1:[Const Unsigned Static Int] 1:*{Const Volatile}*{}x;",
    ),
    (
        "int a , * b , c [ 2 ] [ ] ;",
        "1:[Int] 1:a, 1:*{}b, 1:c[2][];",
    ),
    ("int\nx\n,\ny ;", "1:[Int] 2:x, 4:y;"),
    ("int f ( ) ;", "1-1:[Int] f();"),
    ("int f ( void ) ;", "1-1:[Int] f(void);"),
    ("int f ( void , int ) ;", "1-1:[Int] f(1:[Void], 1:[Int]);"),
    ("int f ( void * ) ;", "1-1:[Int] f(1:[Void]*{});"),
    (
        "void * f ( int a [ ] [ 3 ] , char * ) ;",
        "1-1:[Void] *{}f(1:[Int]a[][3], 1:[Char]*{});",
    ),
    (
        "#pragma css task input a\nvoid f ( void ) ;",
        "1:#3 2-2:[Void] f(void);",
    ),
    (
        "int f ( void ) { }\nint g ( void ) { }",
        "1-1:[Int] f(void)1:{} 2-2:[Int] g(void)2:{}",
    ),
];

/// A function, an object, their words and their parameters.
#[test]
fn items(rt: HostRuntime) -> Result<(), Fail> {
    let alloc = rt.alloc();
    for &(text, want) in &ITEMS {
        assert_eq!(rt; read(alloc, text)?.as_str(), want, "{text}");
    }
    Ok(())
}

static INITIALISERS: [(&str, &str); 10] = [
    ("int x = 1 , y = 2 ;", "1:[Int] 1:x=1, 1:y=2;"),
    (
        "int x = sizeof ( int * ) , y = sizeof ( x ) ;",
        "1:[Int] 1:x=sizeof(type), 1:y=sizeof(value);",
    ),
    ("char * s = \"ab\" ;", "1:[Char] 1:*{}s=1:\"ab\";"),
    ("char * s = ( \"ab\" ) ;", "1:[Char] 1:*{}s=(text);"),
    ("int a [ ] = { 1 , 2 } ;", "1:[Int] 1:a[]=1:{1 2};"),
    (
        "int a [ ] = {\n{ 1 , 2 , } , { 3 } , } ;",
        "1:[Int] 1:a[]=1:{2:{1 2} 2:{3}};",
    ),
    ("int a = { } ;", "S5 Syntax 1"),
    ("int a = { , } ;", "S5 Syntax 1"),
    ("int a = { 1 , , } ;", "S5 Syntax 1"),
    ("int a = ;", "S5 Syntax 1"),
];

/// What names begin with.
#[test]
fn initialisers(rt: HostRuntime) -> Result<(), Fail> {
    let alloc = rt.alloc();
    for &(text, want) in &INITIALISERS {
        assert_eq!(rt; read(alloc, text)?.as_str(), want, "{text}");
    }
    Ok(())
}

/// The body of a function, which begins in line 1.
fn read_body(alloc: Global, body: &str) -> Result<String, Fail> {
    let mut text = String::from_str(alloc, "int f ( ) { ")?;
    text.push_str(body)?;
    text.push_str(" }")?;
    read(alloc, text.as_str())
}

static STATEMENTS: [(&str, &str); 17] = [
    (";", "1:;"),
    ("a ;", "1:a;"),
    ("{ ; }", "1:{1:;}"),
    ("if ( a ) ;", "1:if(a)1:;"),
    ("if ( a ) b ; else c ;", "1:if(a)1:b;else 1:c;"),
    (
        "if ( a ) if ( b ) c ; else d ;",
        "1:if(a)1:if(b)1:c;else 1:d;",
    ),
    (
        "if ( a ) { if ( b ) c ; } else d ;",
        "1:if(a)1:{1:if(b)1:c;}else 1:d;",
    ),
    (
        "if ( a ) while ( b ) if ( c ) ; else d ;",
        "1:if(a)1:while(b)1:if(c)1:;else 1:d;",
    ),
    (
        "if ( a ) do if ( b ) ; while ( c ) ; else d ;",
        "1:if(a)1:do 1:if(b)1:;while(c);else 1:d;",
    ),
    (
        "if ( a ) ; else if ( b ) ; else c ;",
        "1:if(a)1:;else 1:if(b)1:;else 1:c;",
    ),
    ("while ( a ) b ;", "1:while(a)1:b;"),
    ("do a ; while ( b ) ;", "1:do 1:a;while(b);"),
    ("for ( ; ; ) ;", "1:for(;;)1:;"),
    ("for ( a ; b ; c ) ;", "1:for(a;b;c)1:;"),
    (
        "for ( int i = 0 , j ; b ; ) ;",
        "1:for(1:[Int] 1:i=0, 1:j;b;)1:;",
    ),
    (
        "break ; continue ; return ; return a ;",
        "1:break; 1:continue; 1:return; 1:return a;",
    ),
    ("int x ; x ; int y ;", "1:[Int] 1:x; 1:x; 1:[Int] 1:y;"),
];

/// Statements and what else stands in blocks. An `else` belongs to the nearest `if`.
#[test]
fn statements(rt: HostRuntime) -> Result<(), Fail> {
    let alloc = rt.alloc();
    for &(body, want) in &STATEMENTS {
        let mut whole = String::from_str(alloc, "1-1:[Int] f()1:{")?;
        whole.push_str(want)?;
        whole.push_str("}")?;
        assert_eq!(rt; read_body(alloc, body)?.as_str(), whole.as_str(), "{body}");
    }
    Ok(())
}

static SEVERAL_LINES: [(&str, &str); 5] = [
    (
        "int f ( ) {\nwhile ( a )\nb ;\n}\nint x ;",
        "1-4:[Int] f()1:{2:while(a)3:b;} 5:[Int] 5:x;",
    ),
    (
        "int f ( ) {\n#pragma css wait on a\n; }",
        "1-3:[Int] f()1:{2:#3 3:;}",
    ),
    ("int\nf (\n) ;", "1-3:[Int] f();"),
    (
        "#pragma css task input a\nvoid f ( void )\n{\n}",
        "1:#3 2-4:[Void] f(void)3:{}",
    ),
    (
        "int f ( ) { } int g ( )\n{ } int h ( ) ;",
        "1-1:[Int] f()1:{} 1-2:[Int] g()2:{} 2-2:[Int] h();",
    ),
];

/// A function begins in the line of its first word and ends in that of its last token.
#[test]
fn several_lines(rt: HostRuntime) -> Result<(), Fail> {
    let alloc = rt.alloc();
    for &(text, want) in &SEVERAL_LINES {
        assert_eq!(rt; read(alloc, text)?.as_str(), want, "{text}");
    }
    Ok(())
}

static NEAR_MISSES: [&str; 23] = [
    "static int x ;",
    "if ( a )",
    "if ( ) ;",
    "if ( a )\n#pragma css barrier\n",
    "if ( a ) int x ;",
    "else ;",
    "if ( a ) ; else",
    "if ( a ) ; else\n#pragma css barrier\n",
    "while a ;",
    "do ; while ( a )",
    "do a while ( b ) ;",
    "for ( ; ) ;",
    "for ( int i ) ;",
    "for (\n#pragma css barrier\n;",
    "break",
    "return a",
    "a",
    "int ;",
    "int x",
    "int 1 ;",
    "int if ;",
    "x int ;",
    "}",
];

/// What is spelled by no statement, declaration or directive in a block.
#[test]
fn near_misses(rt: HostRuntime) -> Result<(), Fail> {
    let alloc = rt.alloc();
    for &body in &NEAR_MISSES {
        assert_eq!(rt; read_body(alloc, body)?.as_str(), "S5 Syntax 1", "{body}");
    }
    Ok(())
}

static LINES: [(&str, &str); 15] = [
    ("int x ;\nint y ;\nint\n1 ;", "S5 Syntax 3"),
    ("int x ;\n#pragma css task\nint y ;", "S5 Syntax 2"),
    ("int x ;\n#pragma css task", "S5 Syntax 2"),
    (
        "#pragma css task\n#pragma css task\nint f ( ) ;",
        "S5 Syntax 1",
    ),
    ("\n;", "S5 Syntax 2"),
    ("int f ( ) { }\n;", "S5 Syntax 2"),
    ("int f ( ) {\nint x ;\n", "S5 Syntax 1"),
    ("int f ( ) = 1 ;", "S5 Syntax 1"),
    ("int x , f ( ) ;", "S5 Syntax 1"),
    ("int f ( int , ) ;", "S5 Syntax 1"),
    ("int f ( x ) ;", "S5 Syntax 1"),
    ("int f ( void ;", "S5 Syntax 1"),
    ("x ;", "S5 Syntax 1"),
    // Unsupported keywords come first, wherever they stand.
    ("; ;\nint goto ;", "S15 Unsupported 2"),
    (";\n#pragma css task ( struct )\nunion", "S15 Unsupported 2"),
];

/// The line of S5 is that of the first token of the first item that isn't spelled.
#[test]
fn lines(rt: HostRuntime) -> Result<(), Fail> {
    let alloc = rt.alloc();
    for &(text, want) in &LINES {
        assert_eq!(rt; read(alloc, text)?.as_str(), want, "{text}");
    }
    Ok(())
}

/// Whether a text is read, and else the rule that it breaks.
fn outcome(alloc: Global, text: &str) -> Result<Option<StaticName>, Fail> {
    let tokens = tokens_of(alloc, text);
    match parse(alloc, &tokens) {
        Ok(_) => Ok(None),
        Err(FrontFault::Static(fault)) => Ok(Some(fault.name)),
        Err(FrontFault::NoMemory) => Ok(Some(StaticName::NotBuilt)),
    }
}

static LIMITS: [([&str; 5], u32, StaticName); 10] = [
    // The function's brace and 199 others.
    (
        ["int f ( ) { ", "{ ", "", "} ", "}"],
        199,
        StaticName::TooDeep,
    ),
    (
        ["int a = ", "{ ", "1 ", "} ", ";"],
        200,
        StaticName::TooDeep,
    ),
    (
        ["int f ( ) {\n", "#pragma css ( [ {\n", "", "", "}"],
        1000,
        StaticName::NotBuilt,
    ),
    // The item, its block, 497 headers and the empty statement.
    (
        ["int f ( ) { ", "if ( a ) ", "; ", "", "}"],
        497,
        StaticName::Syntax,
    ),
    (
        ["int f ( ) { ", "if ( a ) ; else ", "; ", "", "}"],
        497,
        StaticName::Syntax,
    ),
    (
        ["int f ( ) { ", "while ( a ) ", "; ", "", "}"],
        497,
        StaticName::Syntax,
    ),
    (
        ["int f ( ) { ", "for ( ; ; ) ", "; ", "", "}"],
        497,
        StaticName::Syntax,
    ),
    (
        ["int f ( ) { ", "do ", "; ", "while ( a ) ; ", "}"],
        497,
        StaticName::Syntax,
    ),
    // One more level is the expression's.
    (
        ["int f ( ) { ", "while ( a ) ", "a ; ", "", "}"],
        496,
        StaticName::Syntax,
    ),
    // A string in a declaration adds none.
    (
        [
            "int f ( ) { ",
            "if ( a ) ",
            "{ char s [ ] = \"a\" ; } ",
            "",
            "}",
        ],
        496,
        StaticName::Syntax,
    ),
];

/// 200 open brackets and 500 levels are read, and one more of either is not.
#[test]
fn limits(rt: HostRuntime) -> Result<(), Fail> {
    let alloc = rt.alloc();
    for &(parts, most, rule) in &LIMITS {
        let last = nested(alloc, parts, most)?;
        assert!(rt;
            outcome(alloc, last.as_str())?.is_none(),
            "{most} of {}",
            parts[1]
        );
        if rule != StaticName::NotBuilt {
            let more = nested(alloc, parts, most.saturating_add(1))?;
            assert!(rt;
                outcome(alloc, more.as_str())? == Some(rule),
                "more than {most} of {}",
                parts[1]
            );
        }
    }
    Ok(())
}

/// A million tokens are read.
#[test]
fn many_tokens(rt: HostRuntime) -> Result<(), Fail> {
    let alloc = rt.alloc();
    for parts in [
        ["int f ( ) { ", "; ", "", "", "}"],
        ["", "int x ; ", "", "", ""],
        ["int x", " , x", "", "", " ;"],
    ] {
        let text = nested(alloc, parts, 300_000)?;
        assert!(rt; outcome(alloc, text.as_str())?.is_none(), "{}", parts[1]);
    }
    Ok(())
}
