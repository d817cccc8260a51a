//! Directives in their places, and what they are.
use crate::texts::{check, check_behind};
use css_pragma::Place;
use std::test::Fail;

static TASKS: [(&str, &str); 14] = [
    ("task", "1 task"),
    ("task highpriority", "1 task highpriority"),
    (
        "task input(a) output(b[4]) inout(c[n][2]) highpriority",
        "1 task In(a) Out(b[4]) InOut(c[n][2]) highpriority",
    ),
    (
        "task highpriority inout(c) input(a)",
        "1 task highpriority InOut(c) In(a)",
    ),
    ("task input(a, b[n], c)", "1 task In(a, b[n], c)"),
    ("task input() output()", "1 task In() Out()"),
    ("task input(a) input(a)", "1 task In(a) In(a)"),
    ("task inout(p{8, 8, n})", "1 task InOut(p{8, 8, n})"),
    (
        "task output(a, p{n, 2 * n, n + 3}, q[4])",
        "1 task Out(a, p{n, (Multiply 2 n), (Add n 3)}, q[4])",
    ),
    (
        "task input(a[n ? 2 : 3][(n, 4)], p{(1, n), 2, 'a'})",
        "1 task In(a[(? n 2 3)][(, n 4)], p{(, 1 n), 2, 97})",
    ),
    (
        "task input(a[sizeof(int)][sizeof n][-n])",
        "1 task In(a[sizeof(type)][(sizeof n)][(Minus n)])",
    ),
    (
        "task input(a[*n][b[1]])",
        "1 task In(a[(Dereference n)][([] b 1)])",
    ),
    (
        "task input(input, task[start]) output(highpriority)",
        "1 task In(input, task[start]) Out(highpriority)",
    ),
    ("task input(a[(static int) n])", "1 task In(a[(cast n)])"),
];

/// Before a function: clauses in any order and number, dimensions, and blocks in braces.
#[test]
fn tasks(rt: HostRuntime) -> Result<(), Fail> {
    let alloc = rt.alloc();
    for &(words, want) in &TASKS {
        check(&rt, alloc, Place::BeforeFunction, words, want)?;
    }
    Ok(())
}

static IN_BLOCKS: [(&str, &str); 9] = [
    ("start", "1 start"),
    ("finish", "1 finish"),
    ("barrier", "1 barrier"),
    ("wait on(a)", "1 wait on(a)"),
    ("wait on(a, b + 1)", "1 wait on(a, (Add b 1))"),
    (
        "wait on((a, b), c[1], d)",
        "1 wait on((, a b), ([] c 1), d)",
    ),
    (
        "wait on(&c[1], n ? a : b)",
        "1 wait on((AddressOf ([] c 1)), (? n a b))",
    ),
    ("wait on((int *) a)", "1 wait on((cast a))"),
    ("wait on(on, wait)", "1 wait on(on, wait)"),
];

/// In a block: one word, or the addresses of a wait.
#[test]
fn in_blocks(rt: HostRuntime) -> Result<(), Fail> {
    let alloc = rt.alloc();
    for &(words, want) in &IN_BLOCKS {
        check(&rt, alloc, Place::InBlock, words, want)?;
    }
    Ok(())
}

static LINES: [(Place, [&str; 2], &str); 9] = [
    (Place::InBlock, ["\n", "start"], "2 start"),
    (Place::InBlock, ["\n\n", "finish"], "3 finish"),
    (Place::InBlock, ["\n\n\n", "barrier"], "4 barrier"),
    (
        Place::InBlock,
        ["\n", "wait \\\n on(\\\na)"],
        "2 wait on(a)",
    ),
    (
        Place::BeforeFunction,
        ["\n", "task \\\n input(a)"],
        "2 task In(a)",
    ),
    (
        Place::BeforeFunction,
        ["\n", "task input(a[n++])"],
        "S23 SideEffect 2",
    ),
    (
        Place::BeforeFunction,
        ["\n\n", "task input(a"],
        "S14 BadDirective 3",
    ),
    (
        Place::InBlock,
        ["\n", "wait on(\\\na,\\\nf())"],
        "S23 SideEffect 2",
    ),
    (
        Place::InBlock,
        ["\n", "wait on(\\\na,\\\n)"],
        "S14 BadDirective 2",
    ),
];

/// What is read and what is refused has the directive's line, on whichever line its words stand.
#[test]
fn lines(rt: HostRuntime) -> Result<(), Fail> {
    let alloc = rt.alloc();
    for &(place, text, want) in &LINES {
        check_behind(&rt, alloc, place, text, want)?;
    }
    Ok(())
}
