//! Texts and the programs that they spell. What is wanted comes from C99 5.1.1.2 and 6.4 to 6.10.
use css_base::FrontFault;
use css_small::{Expression, Function, Program, Statement, read_program};
use std::alloc::{AllocError, Global};
use std::process::Abort;
use std::test::Fail;

mod directives;
mod functions;
mod limits;
mod refusals;

/// Writes an expression with its operators in front and a pair of parentheses for each.
fn write_expression(out: &mut String, e: &Expression) -> Result<(), AllocError> {
    match e {
        Expression::Number(value) => write!(out, "{value}"),
        Expression::Variable(k) => write!(out, "v{k}"),
        Expression::Element(index) => {
            out.push_str("p[")?;
            write_expression(out, index)?;
            out.push_str("]")
        }
        Expression::Unary(op, a) => {
            write!(out, "({op:?} ")?;
            write_expression(out, a)?;
            out.push_str(")")
        }
        Expression::Binary(_, a, b) | Expression::And(a, b) | Expression::Or(a, b) => {
            write_operator(out, e)?;
            write_expression(out, a)?;
            out.push_str(" ")?;
            write_expression(out, b)?;
            out.push_str(")")
        }
    }
}

/// Writes what stands before the two operands.
fn write_operator(out: &mut String, e: &Expression) -> Result<(), AllocError> {
    match e {
        Expression::Binary(op, _, _) => write!(out, "({op:?} "),
        Expression::And(_, _) => out.push_str("(&& "),
        Expression::Or(_, _) => out.push_str("(|| "),
        _ => Ok(()),
    }
}

/// Writes a statement with its line, and what stands in it in brackets.
fn write_statement(out: &mut String, statement: &Statement) -> Result<(), AllocError> {
    match statement {
        Statement::Block { line, statements } => {
            write!(out, "{}:{{ ", line.number())?;
            for inner in statements {
                write_statement(out, inner)?;
                out.push_str(" ")?;
            }
            out.push_str("}")
        }
        Statement::If {
            line,
            condition,
            body,
        } => {
            write_guard(out, "if", line.number(), condition)?;
            write_statement(out, body)?;
            out.push_str("]")
        }
        Statement::IfElse {
            line,
            condition,
            body,
            other,
        } => {
            write_guard(out, "if", line.number(), condition)?;
            write_statement(out, body)?;
            out.push_str("] else [")?;
            write_statement(out, other)?;
            out.push_str("]")
        }
        Statement::While {
            line,
            condition,
            body,
        } => {
            write_guard(out, "while", line.number(), condition)?;
            write_statement(out, body)?;
            out.push_str("]")
        }
        _ => write_simple(out, statement),
    }
}

/// Writes what stands before the statement that a condition guards.
fn write_guard(
    out: &mut String,
    keyword: &str,
    line: u32,
    condition: &Expression,
) -> Result<(), AllocError> {
    write!(out, "{line}:{keyword} ")?;
    write_expression(out, condition)?;
    out.push_str(" [")
}

/// Writes a statement in which no other stands, with its line.
fn write_simple(out: &mut String, statement: &Statement) -> Result<(), AllocError> {
    match statement {
        Statement::Declare { line, variable } => write!(out, "{}:int v{variable}", line.number()),
        Statement::Initialise {
            line,
            variable,
            value,
        } => {
            write!(out, "{}:int v{variable}=", line.number())?;
            write_expression(out, value)
        }
        Statement::Empty { line } => write!(out, "{}:;", line.number()),
        Statement::Assign {
            line,
            variable,
            value,
        } => {
            write!(out, "{}:v{variable}=", line.number())?;
            write_expression(out, value)
        }
        Statement::AssignElement { line, index, value } => {
            write!(out, "{}:p[", line.number())?;
            write_expression(out, index)?;
            out.push_str("]=")?;
            write_expression(out, value)
        }
        Statement::Call {
            line,
            function,
            variable,
        } => write!(out, "{}:f{function}(v{variable})", line.number()),
        Statement::Directive { line, kind } => write!(out, "{}:{kind:?}", line.number()),
        Statement::Put { line, value } => {
            write!(out, "{}:put ", line.number())?;
            write_expression(out, value)
        }
        Statement::Return { line, value } => {
            write!(out, "{}:return ", line.number())?;
            write_expression(out, value)
        }
        _ => out.push_str("other"),
    }
}

/// Writes what stands in a function, its lines, and how many variables it has.
fn write_function(out: &mut String, function: &Function) -> Result<(), AllocError> {
    if function.is_task {
        out.push_str("task ")?;
    }
    for statement in &function.body {
        write_statement(out, statement)?;
        out.push_str(" ")?;
    }
    write!(
        out,
        "{}-{} {}",
        function.line.number(),
        function.end.number(),
        function.variables
    )
}

/// Writes the functions, each with ` | ` behind it, and main.
fn write_program(out: &mut String, program: &Program) -> Result<(), AllocError> {
    for function in &program.functions {
        write_function(out, function)?;
        out.push_str(" | ")?;
    }
    write_function(out, &program.main)
}

/// The program that a text spells, as it is written; or the rule that it breaks.
fn read(alloc: Global, text: &str) -> Result<String, Fail> {
    let mut out = String::new(alloc);
    match read_program(alloc, text.as_bytes()) {
        Ok(program) => write_program(&mut out, &program)?,
        Err(FrontFault::Static(fault)) => write!(
            &mut out,
            "{:?} {}",
            fault.name,
            fault.line.number()
        )?,
        Err(FrontFault::NoMemory) => out.push_str("no memory")?,
    }
    Ok(out)
}

/// Reads `text`, and wants `want`.
fn check(rt: &impl Abort, alloc: Global, text: &str, want: &str) -> Result<(), Fail> {
    let got = read(alloc, text)?;
    assert_eq!(rt; got.as_str(), want, "at {text}");
    Ok(())
}

static LEVELS: [(&str, &str); 24] = [
    ("2147483647", "2147483647"),
    ("1 - 2 - 3", "(Sub (Sub 1 2) 3)"),
    ("1 - (2 - 3)", "(Sub 1 (Sub 2 3))"),
    ("8 / 4 % 3 * 2", "(Mul (Rem (Div 8 4) 3) 2)"),
    ("1 + 2 * 3", "(Add 1 (Mul 2 3))"),
    ("(1 + 2) * 3", "(Mul (Add 1 2) 3)"),
    ("1 << 2 + 3 >> 4", "(Shr (Shl 1 (Add 2 3)) 4)"),
    ("1 < 2 << 3", "(Lt 1 (Shl 2 3))"),
    ("1 <= 2 > 3 >= 4", "(Ge (Gt (Le 1 2) 3) 4)"),
    ("1 < 2 == 3 != 4", "(Ne (Eq (Lt 1 2) 3) 4)"),
    ("1 & 2 == 3", "(And 1 (Eq 2 3))"),
    ("1 | 2 ^ 3 & 4", "(Or 1 (Xor 2 (And 3 4)))"),
    ("1 && 2 | 3", "(&& 1 (Or 2 3))"),
    ("1 || 2 && 3", "(|| 1 (&& 2 3))"),
    ("1 && 2 || 3", "(|| (&& 1 2) 3)"),
    ("1 || 2 || 3", "(|| (|| 1 2) 3)"),
    ("1 && 2 && 3", "(&& (&& 1 2) 3)"),
    ("- ~ ! + 1", "(Minus (Complement (Not (Plus 1))))"),
    ("-1 * 2", "(Mul (Minus 1) 2)"),
    ("1 - - 1", "(Sub 1 (Minus 1))"),
    ("-(1 + 2)", "(Minus (Add 1 2))"),
    ("((x))", "v0"),
    ("((1)+((2))*(3))", "(Add 1 (Mul 2 3))"),
    ("(-(-(1)))", "(Minus (Minus 1))"),
];

/// C99 6.5.3 and 6.5.5 to 6.5.14: the tighter operator takes the operand, and the left one of a level.
#[test]
fn levels(rt: HostRuntime) -> Result<(), Fail> {
    let alloc = rt.alloc();
    for &(expression, want) in &LEVELS {
        let text = format!(in alloc; "int main(void){{int x={expression};}}")?;
        let read = format!(in alloc; "1:int v0={want} 1-1 1")?;
        check(&rt, alloc, text.as_str(), read.as_str())?;
    }
    Ok(())
}

static BODIES: [(&str, &str); 8] = [
    ("int main(void){}", "1-1 0"),
    ("\nint main\n(void)\n{\n}", "2-5 0"),
    (
        "int main(void){;{};{{}}}",
        "1:; 1:{ } 1:; 1:{ 1:{ } } 1-1 0",
    ),
    (
        "int main(void){int x;int y=x;y\n=\nx;return\ny;}",
        "1:int v0 1:int v1=v0 1:v1=v0 3:return v1 1-4 2",
    ),
    (
        "int main(void){int a;\n{\na=1;\nputchar\n(a);}\n}",
        "1:int v0 2:{ 3:v0=1 4:put v0 } 1-6 1",
    ),
    (
        "int main(void){int main;int x=x;int putchars;main=putchars;}",
        "1:int v0 1:int v1=v1 1:int v2 1:v0=v2 1-1 3",
    ),
    (
        "int main(void){int a;\nif\n(a)\n;\nelse\nwhile(a)\nputchar(a);}",
        "1:int v0 2:if v0 [4:;] else [6:while v0 [7:put v0]] 1-7 1",
    ),
    (
        "int main(void){return 1;;int x;}",
        "1:return 1 1:; 1:int v0 1-1 1",
    ),
];

/// What main's body may be, with the lines of first tokens.
#[test]
fn bodies(rt: HostRuntime) -> Result<(), Fail> {
    let alloc = rt.alloc();
    for &(text, want) in &BODIES {
        check(&rt, alloc, text, want)?;
    }
    Ok(())
}

static BRANCHES: [(&str, &str); 11] = [
    ("if(a);", "1:if v0 [1:;]"),
    ("while(a);", "1:while v0 [1:;]"),
    ("if(a);else a=1;", "1:if v0 [1:;] else [1:v0=1]"),
    (
        "if (a) if (b) ; else ;",
        "1:if v0 [1:if v1 [1:;] else [1:;]]",
    ),
    (
        "if(a){if(b);}else;",
        "1:if v0 [1:{ 1:if v1 [1:;] }] else [1:;]",
    ),
    (
        "if(a)if(b);else;else return a;",
        "1:if v0 [1:if v1 [1:;] else [1:;]] else [1:return v0]",
    ),
    (
        "if(a)a=1;else if(b)a=2;else a=3;",
        "1:if v0 [1:v0=1] else [1:if v1 [1:v0=2] else [1:v0=3]]",
    ),
    (
        "if(a)while(b)if(1);else;else;",
        "1:if v0 [1:while v1 [1:if 1 [1:;] else [1:;]]] else [1:;]",
    ),
    (
        "if(a);else while(b)if(a);",
        "1:if v0 [1:;] else [1:while v1 [1:if v0 [1:;]]]",
    ),
    (
        "if(a);if(b);else;",
        "1:if v0 [1:;] 1:if v1 [1:;] else [1:;]",
    ),
    (
        "while(a&&b||1){a=b;}",
        "1:while (|| (&& v0 v1) 1) [1:{ 1:v0=v1 }]",
    ),
];

/// An `else` belongs to the nearest `if` that can take it (C99 6.8.4.1).
#[test]
fn branches(rt: HostRuntime) -> Result<(), Fail> {
    let alloc = rt.alloc();
    for &(statements, want) in &BRANCHES {
        let text = format!(in alloc; "int main(void){{int a;int b;{statements}}}")?;
        let read = format!(in alloc; "1:int v0 1:int v1 {want} 1-1 2")?;
        check(&rt, alloc, text.as_str(), read.as_str())?;
    }
    Ok(())
}

static LEXING: [(&str, &str); 17] = [
    ("/* a */int/* b\n */main(void)// c\n{}", "1-3 0"),
    ("// int main(void){}\nint main(void){}//", "2-2 0"),
    (
        "int main(void){int x=4/*\n*//2;}",
        "1:int v0=(Div 4 2) 1-2 1",
    ),
    ("in\\\nt main(vo\\\nid){\\\n}", "1-4 0"),
    ("int main(void){int x;\nx\\\ny=1;}", "NotBuilt 1"),
    (
        "int main(void){int xy;\nx\\\ny=1;}",
        "1:int v0 2:v0=1 1-3 1",
    ),
    (
        "#define N 3\nint main(void){int x=N;\nx=\nN;}",
        "2:int v0=3 3:v0=3 2-4 1",
    ),
    (
        "#define N M + 1\n#define M 2\nint main(void){int x=N*N;}",
        "3:int v0=(Add (Add 2 (Mul 1 2)) 1) 3-3 1",
    ),
    (
        "#define N 3\n#undef N\nint main(void){int N=1;}",
        "3:int v0=1 3-3 1",
    ),
    (
        "#define BEGIN int main(void) {\n#define END }\n\nBEGIN\nEND",
        "4-5 0",
    ),
    (
        "#include <stdio.h>\n#pragma once\n#\nint main(void){}",
        "4-4 0",
    ),
    ("int main(void){int x=0x10;}", "1:int v0=16 1-1 1"),
    (
        "int main(void){int x=0X7fffFFFF;}",
        "1:int v0=2147483647 1-1 1",
    ),
    ("int main(void){int x=010;}", "1:int v0=8 1-1 1"),
    ("int main(void){int x=0;}", "1:int v0=0 1-1 1"),
    ("int main(void){putchar('a');}", "1:put 97 1-1 0"),
    (
        "int main(void){putchar('\\n');putchar('\\x41');putchar('\\101');putchar('\\'');}",
        "1:put 10 1:put 65 1:put 65 1:put 39 1-1 0",
    ),
];

/// Comments, spliced lines, macros and constants of other bases (C99 5.1.1.2, 6.4.4, 6.4.9, 6.10.3).
#[test]
fn lexing(rt: HostRuntime) -> Result<(), Fail> {
    let alloc = rt.alloc();
    for &(text, want) in &LEXING {
        check(&rt, alloc, text, want)?;
    }
    Ok(())
}

static PARENTHESES: [(&str, &str); 7] = [
    ("int x=((1));", "1:int v0=1 1-1 1"),
    ("int x;(x)=((2));", "1:int v0 1:v0=2 1-1 1"),
    ("int x;(x=2);", "1:int v0 1:v0=2 1-1 1"),
    ("(putchar((3)));", "1:put 3 1-1 0"),
    ("if(((1)));", "1:if 1 [1:;] 1-1 0"),
    ("while(((1)));", "1:while 1 [1:;] 1-1 0"),
    ("return(4);", "1:return 4 1-1 0"),
];

/// Parentheses round an expression mean nothing (C99 6.5.1).
#[test]
fn parentheses(rt: HostRuntime) -> Result<(), Fail> {
    let alloc = rt.alloc();
    for &(body, want) in &PARENTHESES {
        let text = format!(in alloc; "int main(void){{{body}}}")?;
        check(&rt, alloc, text.as_str(), want)?;
    }
    for (body, want) in [
        ("(p)[0]=(1);", "1:p[0]=1"),
        ("((p)[(0)])=1;", "1:p[0]=1"),
        ("p[0]=(p)[((1))];", "1:p[0]=p[1]"),
    ] {
        let text = format!(in alloc; "void f(int*p){{{body}}}int main(void){{}}")?;
        let read = format!(in alloc; "{want} 1-1 0 | 1-1 0")?;
        check(&rt, alloc, text.as_str(), read.as_str())?;
    }
    for body in ["f((&x));", "f(&(x));", "(f(&x));", "((f((&(x)))));"] {
        let text = format!(in alloc; "void f(int*p){{}}int main(void){{int x;{body}}}")?;
        let read = "1-1 0 | 1:int v0 1:f0(v0) 1-1 1";
        check(&rt, alloc, text.as_str(), read)?;
    }
    Ok(())
}
