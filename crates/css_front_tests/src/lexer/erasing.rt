//! Texts and what is left of them without their directives. What is wanted comes from C99 5.1.1.2 and 6.10.

use css_lex::erase;
use std::alloc::Global;
use std::process::Abort;
use std::test::Fail;

/// A text and what is left of it.
fn check_left(rt: &impl Abort, alloc: Global, text: &str, wanted: &str) -> Result<(), Fail> {
    let Ok(left) = erase(alloc, text.as_bytes()) else {
        return Err("no memory".into());
    };
    assert!(rt; left.as_slice() == wanted.as_bytes(), "at {text}");
    Ok(())
}

/// A text of which all is left.
fn check_kept(rt: &impl Abort, alloc: Global, text: &str) -> Result<(), Fail> {
    check_left(rt, alloc, text, text)
}

static DIRECTIVES: [(&str, &str); 12] = [
    ("#pragma css start\nint x;\n", "\nint x;\n"),
    ("int x;\n#pragma css start", "int x;\n"),
    (" \t# pragma /* a\nb */ css start // c\nx\n", "\n\nx\n"),
    ("#pragma css \\\n  task\nx", "\n\nx"),
    ("#pragma cs\\\ns y\n", "\n\n"),
    ("#pragma css\\\r\n y\r\nx\r\n", "\n\nx\r\n"),
    ("/* a\n */ #pragma css\nx", "\n\nx"),
    ("#/**/pragma/**/css\"a//b\\\"\" /*\n*/ c\n", "\n\n"),
    ("\"/*\" \n#pragma css y\n*/", "\"/*\" \n\n*/"),
    ("'\\'/*'\n#pragma css y\n*/", "'\\'/*'\n\n*/"),
    ("#define Q '/*'\n#pragma css x\n", "#define Q '/*'\n\n"),
    ("it's /* x\n#pragma css y\n*/", "it's /* x\n\n*/"),
];

#[test]
fn directives(rt: HostRuntime) -> Result<(), Fail> {
    for &(text, left) in &DIRECTIVES {
        check_left(&rt, rt.alloc(), text, left)?;
    }
    Ok(())
}

static OTHER_LINES: [&str; 15] = [
    "",
    "int x;\n",
    "a \\",
    "#pragma omp css\n",
    "#pragma cssx\n",
    "#pragma\ncss\n",
    "#pragma\n",
    "#\n#define css\n#undef css\n",
    "x #pragma css y\n",
    "// \\\n#pragma css\n",
    "/* #pragma css\n",
    "/\\\n* a\n#pragma css\n*/ x\n",
    "\"a\\\n#pragma css\\\n\"\n",
    "#include <it's>/*\n#pragma css x\n*/\n",
    "#pragma x '/*\n#pragma css x\n*/\n",
];

#[test]
fn other_lines(rt: HostRuntime) -> Result<(), Fail> {
    for &text in &OTHER_LINES {
        check_kept(&rt, rt.alloc(), text)?;
    }
    Ok(())
}
