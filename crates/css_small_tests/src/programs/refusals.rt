//! Texts that spell no program of the small language: what the whole language has more is S0 at line 1, and what it refuses itself
//! has its own rule and line.

use super::*;

static NEAR_MISSES: [&str; 60] = [
    // Statements.
    "int i;for(i=0;i<3;i=i+1);",
    "for(int i=0;;);",
    "do;while(1);",
    "while(1)break;",
    "while(1)continue;",
    "return;",
    "{int x;}",
    "if(1){int x;}",
    // Expressions as statements.
    "int x;x;",
    "int x;x+1;",
    "int i;i++;",
    "int i;--i;",
    "int i;i+=1;",
    "int x;int y;x=y=1;",
    "int x;x=1,x=2;",
    "putchar(1)+2;",
    "putchar();",
    "putchar(1,2);",
    "puts(\"a\");",
    // Values.
    "int x;x=x++;",
    "int x=putchar(1);",
    "int x=1?2:3;",
    "int x=(1,2);",
    "int x=(int)1;",
    "int x=sizeof(int);",
    "int x;x=sizeof x;",
    "int x;x=&x;",
    "int x=*1;",
    "int x;*&x=1;",
    "int x;x=x[0];",
    "int x;x[0]=1;",
    "p[0]=1;",
    "1=1;",
    // Constants of other types.
    "int x=2147483648;",
    "int x=0x80000000;",
    "int x=1u;",
    "int x=1L;",
    // Declarations.
    "int i,j;",
    "int x=1,y;",
    "int*p;",
    "int a[2];",
    "int a[];",
    "const int x=1;",
    "int const x;",
    "unsigned x;",
    "unsigned int x;",
    "signed int x;",
    "long x;",
    "short x;",
    "char c;",
    "auto int x;",
    "register int x;",
    "int x={1};",
    "int x=\"a\";",
    "void x;",
    // Names.
    "int x=y;",
    "x=1;int x;",
    "int x;int x;",
    "int putchar;",
    "int printf;",
];

/// What the whole language has in main's body and the small one hasn't.
#[test]
fn near_misses(rt: HostRuntime) -> Result<(), Fail> {
    let alloc = rt.alloc();
    for &body in &NEAR_MISSES {
        let text = format!(in alloc; "int main(void){{{body}}}")?;
        check(&rt, alloc, text.as_str(), "NotBuilt 1")?;
    }
    Ok(())
}

static NEAR_PROGRAMS: [&str; 14] = [
    "",
    "// int main(void){}",
    "int main(){}",
    "int main(void);",
    "int main(int x){}",
    "void main(void){}",
    "unsigned main(void){}",
    "static int main(void){}",
    "int*main(void){}",
    "int min(void){}",
    "int x;int main(void){}",
    "int main(void){}int x;",
    "int main(void){}int main(void){}",
    "\n\n\nint main(void){\nint x;\nx++;}",
];

/// What the whole language has outside main's body and the small one hasn't.
#[test]
fn near_programs(rt: HostRuntime) -> Result<(), Fail> {
    let alloc = rt.alloc();
    for &text in &NEAR_PROGRAMS {
        check(&rt, alloc, text, "NotBuilt 1")?;
    }
    Ok(())
}

static BROKEN_BODIES: [&str; 34] = [
    "int x;x=x--1;",
    "int x;x=x++x;",
    "int x=1 2;",
    "int x=();",
    "int x=(1;",
    "int x=1);",
    "int x=1+;",
    "int x;x y;",
    "int x;x=1",
    "int int;",
    "int if;",
    "int else;",
    "int 1;",
    "static int x;",
    "if=1;",
    "else;",
    "if(1);else;else;",
    "{if(1);}else;",
    "while(1);else;",
    "if(1);;else;",
    "if(1)int x;",
    "if(1);else int x;",
    "while(1)int x;",
    "if 1;",
    "if();",
    "if(1;",
    "if(1)",
    "if(1);else",
    "if(1)else;",
    "while(1)",
    "while();",
    "putchar 1;",
    "{",
    "}",
];

/// The grammar of the whole language is broken in main, which is the first item.
#[test]
fn broken_bodies(rt: HostRuntime) -> Result<(), Fail> {
    let alloc = rt.alloc();
    for &body in &BROKEN_BODIES {
        let text = format!(in alloc; "int main(void){{{body}}}")?;
        check(&rt, alloc, text.as_str(), "Syntax 1")?;
    }
    Ok(())
}

static LINES: [(&str, &str); 17] = [
    ("{}", "Syntax 1"),
    ("int main(void){};", "Syntax 1"),
    ("int main(void){}\n\n}", "Syntax 3"),
    ("void f(int*p){}\nint main(void)\n{\nint x=;\n}", "Syntax 2"),
    ("int x;x++;\nint main(void){}", "Syntax 1"),
    ("int main(void){\nint x=08;}", "BadConstant 2"),
    ("int main(void){\n\nputchar('ab');}", "BadConstant 3"),
    ("int main(void){\nint x=1$;}", "BadToken 2"),
    ("int main(void){}\n\n/* a", "BadToken 3"),
    ("/* \u{e9} */\nint main(void){}\n\u{e9}", "BadByte 3"),
    ("#define f(x) x\nint main(void){}", "BadMacro 1"),
    ("#define N 1\n#define N 2\nint main(void){}", "BadMacro 2"),
    ("\n#if 1\nint main(void){}\n#endif", "BadMacro 2"),
    ("int main(void){\nint _Bool;}", "Unsupported 2"),
    ("int main(void){\ndouble x;\nx=;}", "Unsupported 2"),
    ("int main(void){\n\nswitch(1);}", "Unsupported 3"),
    ("int main(void){goto x;\n=}", "Unsupported 1"),
];

/// The rules that the lexer and the grammar keep, each with its line. The grammar is broken at the item that isn't spelled.
#[test]
fn lines(rt: HostRuntime) -> Result<(), Fail> {
    let alloc = rt.alloc();
    for &(text, want) in &LINES {
        check(&rt, alloc, text, want)?;
    }
    Ok(())
}
