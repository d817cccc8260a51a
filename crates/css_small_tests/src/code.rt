//! The code of small programs, written out by hand.

use css_small::{numbers_fit, read_program};
use css_small_code::make_code;
use css_vm::{Code, Conversion, Function, MarkKind, Narrow, Op};
use std::alloc::Global;
use std::process::Abort;
use std::test::Fail;

const AS_INT: Op = Op::Conv(Narrow::S32);

const WRITE: Op = Op::Out(Conversion::Char);

/// The functions that stand before main in each program, a task and another one, in six lines.
const FUNCTIONS: &str = "#pragma css task inout(p)
void adding(int *p) { int t; p[0] = p[0] + 1; }
void copying(int *q) {
    int y = q[2];
    q[y] = -y;
}
";

/// The instructions of the task, each with its line.
const ADDING: &[(u32, Op)] = &[
    (2, Op::Frame(0)),
    (2, Op::Load32u),
    (2, Op::Push(0)),
    (2, Op::Push(4)),
    (2, Op::Mul),
    (2, Op::Add),
    (2, Op::Frame(0)),
    (2, Op::Load32u),
    (2, Op::Push(0)),
    (2, Op::Push(4)),
    (2, Op::Mul),
    (2, Op::Add),
    (2, Op::Load32s),
    (2, Op::Push(1)),
    (2, Op::Add),
    (2, AS_INT),
    (2, Op::Store32),
    (2, Op::Drop),
    (2, Op::Push(0)),
    (2, Op::Ret),
];

/// The instructions of the other function.
const COPYING: &[(u32, Op)] = &[
    (4, Op::Frame(8)),
    (4, Op::Frame(0)),
    (4, Op::Load32u),
    (4, Op::Push(2)),
    (4, Op::Push(4)),
    (4, Op::Mul),
    (4, Op::Add),
    (4, Op::Load32s),
    (4, Op::Store32),
    (4, Op::Drop),
    (5, Op::Frame(0)),
    (5, Op::Load32u),
    (5, Op::Frame(8)),
    (5, Op::Load32s),
    (5, Op::Push(4)),
    (5, Op::Mul),
    (5, Op::Add),
    (5, Op::Frame(8)),
    (5, Op::Load32s),
    (5, Op::Neg),
    (5, AS_INT),
    (5, Op::Store32),
    (5, Op::Drop),
    (6, Op::Push(0)),
    (6, Op::Ret),
];

/// A main, and its instructions, each with its line in main.
const ASSIGNING: (&str, &[(u32, Op)]) = (
    "int main(void) {
    int x = -5; int y;
    y = x - 2;
    return y;
}",
    &[
        (1, Op::Push(0)),
        (1, Op::Drop),
        (2, Op::Frame(0)),
        (2, Op::Push(5)),
        (2, Op::Neg),
        (2, AS_INT),
        (2, Op::Store32),
        (2, Op::Drop),
        (3, Op::Frame(8)),
        (3, Op::Frame(0)),
        (3, Op::Load32s),
        (3, Op::Push(2)),
        (3, Op::Sub),
        (3, AS_INT),
        (3, Op::Store32),
        (3, Op::Drop),
        (4, Op::Frame(8)),
        (4, Op::Load32s),
        (4, Op::Ret),
        (5, Op::Push(0)),
        (5, Op::Ret),
    ],
);

const WITH_AND: (&str, &[(u32, Op)]) = (
    "int main(void) { int x; int y; ; return y && 7; }",
    &[
        (1, Op::Frame(8)),
        (1, Op::Load32s),
        (1, Op::Jumpz(7)),
        (1, Op::Push(7)),
        (1, Op::Push(0)),
        (1, Op::Ne),
        (1, Op::Jump(8)),
        (1, Op::Push(0)),
        (1, Op::Ret),
        (1, Op::Push(0)),
        (1, Op::Ret),
    ],
);

const WITH_OR: (&str, &[(u32, Op)]) = (
    "int main(void)
{
    int x; int y;
    { putchar(y || !y); }
}",
    &[
        (1, Op::Push(0)),
        (1, Op::Drop),
        (4, Op::Frame(8)),
        (4, Op::Load32s),
        (4, Op::Jumpz(7)),
        (4, Op::Push(1)),
        (4, Op::Jump(13)),
        (4, Op::Frame(8)),
        (4, Op::Load32s),
        (4, Op::Push(0)),
        (4, Op::Eq),
        (4, Op::Push(0)),
        (4, Op::Ne),
        (4, WRITE),
        (4, Op::Drop),
        (5, Op::Push(0)),
        (5, Op::Ret),
    ],
);

const WITH_BOTH: (&str, &[(u32, Op)]) = (
    "int main(void) { int x; int y; return (4 && 5) || 6 - 7;
}",
    &[
        (1, Op::Push(4)),
        (1, Op::Jumpz(6)),
        (1, Op::Push(5)),
        (1, Op::Push(0)),
        (1, Op::Ne),
        (1, Op::Jump(7)),
        (1, Op::Push(0)),
        (1, Op::Jumpz(10)),
        (1, Op::Push(1)),
        (1, Op::Jump(16)),
        (1, Op::Push(6)),
        (1, Op::Push(7)),
        (1, Op::Sub),
        (1, AS_INT),
        (1, Op::Push(0)),
        (1, Op::Ne),
        (1, Op::Ret),
        (2, Op::Push(0)),
        (2, Op::Ret),
    ],
);

const WITH_IF: (&str, &[(u32, Op)]) = (
    "int main(void) { int x; int y;
    if (x - 3) y = 7;
    return y;
}",
    &[
        (1, Op::Push(0)),
        (1, Op::Drop),
        (2, Op::Frame(0)),
        (2, Op::Load32s),
        (2, Op::Push(3)),
        (2, Op::Sub),
        (2, AS_INT),
        (2, Op::Jumpz(12)),
        (2, Op::Frame(8)),
        (2, Op::Push(7)),
        (2, Op::Store32),
        (2, Op::Drop),
        (3, Op::Frame(8)),
        (3, Op::Load32s),
        (3, Op::Ret),
        (4, Op::Push(0)),
        (4, Op::Ret),
    ],
);

const WITH_IF_ELSE: (&str, &[(u32, Op)]) = (
    "int main(void) { int x; int y;
    if (x)
        y = 7;
    else
        x = y;
}",
    &[
        (1, Op::Push(0)),
        (1, Op::Drop),
        (2, Op::Frame(0)),
        (2, Op::Load32s),
        (2, Op::Jumpz(10)),
        (3, Op::Frame(8)),
        (3, Op::Push(7)),
        (3, Op::Store32),
        (3, Op::Drop),
        (2, Op::Jump(15)),
        (5, Op::Frame(0)),
        (5, Op::Frame(8)),
        (5, Op::Load32s),
        (5, Op::Store32),
        (5, Op::Drop),
        (6, Op::Push(0)),
        (6, Op::Ret),
    ],
);

const WITH_WHILE: (&str, &[(u32, Op)]) = (
    "int main(void) { int x; int y;
    while (x)
        { x = y; if (y) return x; }
}",
    &[
        (1, Op::Push(0)),
        (1, Op::Drop),
        (2, Op::Frame(0)),
        (2, Op::Load32s),
        (2, Op::Jumpz(18)),
        (2, Op::Turn),
        (3, Op::Frame(0)),
        (3, Op::Frame(8)),
        (3, Op::Load32s),
        (3, Op::Store32),
        (3, Op::Drop),
        (3, Op::Frame(8)),
        (3, Op::Load32s),
        (3, Op::Jumpz(17)),
        (3, Op::Frame(0)),
        (3, Op::Load32s),
        (3, Op::Ret),
        (2, Op::Jump(2)),
        (4, Op::Push(0)),
        (4, Op::Ret),
    ],
);

const WITH_TASK: (&str, &[(u32, Op)]) = (
    "int main(void) {
    int x; int y;
    x = 4;
#pragma css start
    adding(&y);
#pragma css barrier
#pragma css finish
    return y;
}",
    &[
        (1, Op::Push(0)),
        (1, Op::Drop),
        (3, Op::Frame(0)),
        (3, Op::Push(4)),
        (3, Op::Store32),
        (3, Op::Drop),
        (4, Op::Mark(MarkKind::Start)),
        (5, Op::Frame(8)),
        (5, Op::Mark(MarkKind::Started)),
        (5, Op::Jumpz(12)),
        (5, Op::Submit(0)),
        (5, Op::Jump(13)),
        (5, Op::Call(0)),
        (5, Op::Drop),
        (6, Op::Mark(MarkKind::Barrier)),
        (7, Op::Mark(MarkKind::Finish)),
        (8, Op::Frame(8)),
        (8, Op::Load32s),
        (8, Op::Ret),
        (9, Op::Push(0)),
        (9, Op::Ret),
    ],
);

const WITH_CALL: (&str, &[(u32, Op)]) = (
    "int main(void) { int x; int y; copying(&x); }",
    &[
        (1, Op::Frame(0)),
        (1, Op::Call(1)),
        (1, Op::Drop),
        (1, Op::Push(0)),
        (1, Op::Ret),
    ],
);

/// A function's instructions are these, each with its line behind so many others.
fn assert_body(rt: &impl Abort, made: &Function, before: u32, expected: &[(u32, Op)]) {
    assert_eq!(rt; made.frame, 16);
    assert_eq!(rt; made.body.len(), expected.len());
    for (place, (instr, (line, op))) in made.body.iter().zip(expected).enumerate() {
        assert_eq!(rt;
            instr.line.number().wrapping_sub(before),
            *line,
            "at {place}"
        );
        assert!(rt; instr.op == *op, "at {place}");
    }
}

/// The code of the program with this main.
fn code_with(alloc: Global, main: &str) -> Result<Code, Fail> {
    let text = format!(in alloc; "{FUNCTIONS}{main}")?;
    let Ok(program) = read_program(alloc, text.as_bytes()) else {
        return Err("no program".into());
    };
    numbers_fit();
    Ok(make_code(alloc, &program)?)
}

#[test]
fn codes_of_programs(rt: HostRuntime) -> Result<(), Fail> {
    let alloc = rt.alloc();
    for (main, expected) in [
        ASSIGNING,
        WITH_AND,
        WITH_OR,
        WITH_BOTH,
        WITH_IF,
        WITH_IF_ELSE,
        WITH_WHILE,
        WITH_TASK,
        WITH_CALL,
    ] {
        let code = code_with(alloc, main)?;
        assert_eq!(rt; code.main, 2);
        assert_eq!(rt; code.functions.len(), 3);
        assert_body(&rt, &code.functions[0], 0, ADDING);
        assert_body(&rt, &code.functions[1], 0, COPYING);
        assert_body(&rt, &code.functions[2], 6, expected);
    }
    Ok(())
}
