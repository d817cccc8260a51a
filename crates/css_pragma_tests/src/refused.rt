//! Words that are refused.
use crate::texts::check;
use css_pragma::{Place, never_both, one_directive, one_refusal};
use std::test::Fail;

static OTHER_WORDS: [(Place, &str); 22] = [
    (Place::BeforeFunction, ""),
    (Place::InBlock, ""),
    (Place::BeforeFunction, "tasks"),
    (Place::BeforeFunction, "Task"),
    (Place::BeforeFunction, "\"task\""),
    (Place::BeforeFunction, "task private(a)"),
    (Place::BeforeFunction, "task in(a)"),
    (Place::BeforeFunction, "task input(a) priority"),
    (Place::BeforeFunction, "input(a)"),
    (Place::BeforeFunction, "highpriority"),
    (Place::InBlock, "stop"),
    (Place::InBlock, "Start"),
    (Place::InBlock, "\"start\""),
    (Place::InBlock, "1"),
    (Place::InBlock, "'a'"),
    (Place::InBlock, "(barrier)"),
    (Place::InBlock, "on(a)"),
    (Place::InBlock, "wait"),
    (Place::InBlock, "wait on"),
    (Place::InBlock, "wait(a)"),
    (Place::InBlock, "wait for(a)"),
    (Place::InBlock, "waiton(a)"),
];

static OTHER_PLACES: [(Place, &str); 8] = [
    (Place::BeforeFunction, "start"),
    (Place::BeforeFunction, "finish"),
    (Place::BeforeFunction, "barrier"),
    (Place::BeforeFunction, "wait on(a)"),
    (Place::InBlock, "task"),
    (Place::InBlock, "task highpriority"),
    (Place::InBlock, "task input(a)"),
    (Place::InBlock, "task inout(p{8, 8, n})"),
];

static TASKS: [&str; 41] = [
    "task highpriority highpriority",
    "task highpriority input(a) highpriority",
    "task highpriority highpriority highpriority",
    "task input",
    "task input a",
    "task input a)",
    "task input(a",
    "task input(",
    "task input[a]",
    "task input{a}",
    "task input(a]",
    "task input(a[4)",
    "task input(a 4])",
    "task input(a[4]",
    "task input(a[4}[4])",
    "task input(a[])",
    "task input(a[b = 1])",
    "task input(a[b, c])",
    "task input(a[1 2])",
    "task input(,)",
    "task input(a,)",
    "task input(,a)",
    "task input(a b)",
    "task input(a; b)",
    "task input(1)",
    "task input((a))",
    "task input(*a)",
    "task input(a + 1)",
    "task input(int)",
    "task input(p{})",
    "task input(p{1, 2})",
    "task input(p{1, 2, 3, 4})",
    "task input(p{1 2 3})",
    "task input(p{1, , 3})",
    "task input(p{1, 2, n = 3})",
    "task input(p{1, 2, 3)",
    "task input(p{1, 2, 3])",
    "task input(p[2]{1, 2, 3})",
    "task input(p{1, 2, 3}[2])",
    "task input({1, 2, 3})",
    "task input(a), output(b)",
];

static WAITS: [&str; 14] = [
    "wait on()",
    "wait on a",
    "wait on a)",
    "wait on(a",
    "wait on((a)",
    "wait on[a]",
    "wait on(a]",
    "wait on(a,)",
    "wait on(,a)",
    "wait on(a b)",
    "wait on(a; b)",
    "wait on(a +)",
    "wait on(int)",
    "wait on((static int *) a)",
];

static BEHIND: [(Place, &str); 14] = [
    (Place::BeforeFunction, "task;"),
    (Place::BeforeFunction, "task()"),
    (Place::BeforeFunction, "task task"),
    (Place::BeforeFunction, "task highpriority 1"),
    (Place::BeforeFunction, "task highpriority()"),
    (Place::BeforeFunction, "task input(a))"),
    (Place::BeforeFunction, "task input(a)[4]"),
    (Place::InBlock, "start finish"),
    (Place::InBlock, "start()"),
    (Place::InBlock, "finish;"),
    (Place::InBlock, "barrier on(a)"),
    (Place::InBlock, "wait on(a))"),
    (Place::InBlock, "wait on(a) b"),
    (Place::InBlock, "wait on(a) on(b)"),
];

static BOTH_RULES: [(Place, &str); 5] = [
    (Place::InBlock, "wait on(a = 1"),
    (Place::InBlock, "wait on(f(), a) b"),
    (Place::InBlock, "task input(a[n++])"),
    (Place::BeforeFunction, "wait on(f())"),
    (
        Place::BeforeFunction,
        "task input(a[n++]) highpriority highpriority",
    ),
];

static IN_TASKS: [&str; 13] = [
    "task input(a[n++])",
    "task input(a[n--])",
    "task input(a[++n])",
    "task input(a[--n])",
    "task input(a[(n = 2)])",
    "task input(a[(n += 2)])",
    "task output(b, a[2][f(n)])",
    "task inout(a[sizeof(n--)])",
    "task input(a[sizeof f()])",
    "task input(a) output(b, c[b[++n]]) highpriority",
    "task input(p{n++, 2, 3})",
    "task input(p{1, --n, 3})",
    "task input(p{1, 2, (n = 3)})",
];

static IN_WAITS: [&str; 22] = [
    "wait on(a = b)",
    "wait on(a <<= 1)",
    "wait on(a++)",
    "wait on(a--)",
    "wait on(++a)",
    "wait on(--a)",
    "wait on(f())",
    "wait on(a, f(b, c))",
    "wait on(f(), a)",
    "wait on(a + (b = c))",
    "wait on((b = c) + a)",
    "wait on(sizeof a++)",
    "wait on(sizeof(f()))",
    "wait on(f() ? a : b)",
    "wait on(n ? f() : a)",
    "wait on(n ? a : f())",
    "wait on(a[n++])",
    "wait on(f()[1])",
    "wait on(*f())",
    "wait on((int *) f())",
    "wait on((f(), a))",
    "wait on((a, f()))",
];

/// S14: other words than a directive's.
#[test]
fn other_words(rt: HostRuntime) -> Result<(), Fail> {
    let alloc = rt.alloc();
    for &(place, words) in &OTHER_WORDS {
        check(&rt, alloc, place, words, "S14 BadDirective 1")?;
    }
    Ok(())
}

/// S14: the directives of the other place.
#[test]
fn other_places(rt: HostRuntime) -> Result<(), Fail> {
    let alloc = rt.alloc();
    for &(place, words) in &OTHER_PLACES {
        check(&rt, alloc, place, words, "S14 BadDirective 1")?;
    }
    Ok(())
}

/// S14: clauses and arguments of other forms, and `highpriority` more than once.
#[test]
fn tasks(rt: HostRuntime) -> Result<(), Fail> {
    let alloc = rt.alloc();
    one_directive();
    for &words in &TASKS {
        check(
            &rt,
            alloc,
            Place::BeforeFunction,
            words,
            "S14 BadDirective 1",
        )?;
    }
    Ok(())
}

/// S14: waits of other forms.
#[test]
fn waits(rt: HostRuntime) -> Result<(), Fail> {
    let alloc = rt.alloc();
    for &words in &WAITS {
        check(&rt, alloc, Place::InBlock, words, "S14 BadDirective 1")?;
    }
    Ok(())
}

/// S14: more behind a directive.
#[test]
fn behind(rt: HostRuntime) -> Result<(), Fail> {
    let alloc = rt.alloc();
    for &(place, words) in &BEHIND {
        check(&rt, alloc, place, words, "S14 BadDirective 1")?;
    }
    Ok(())
}

/// S14 comes before S23.
#[test]
fn both_rules(rt: HostRuntime) -> Result<(), Fail> {
    let alloc = rt.alloc();
    one_refusal();
    for &(place, words) in &BOTH_RULES {
        check(&rt, alloc, place, words, "S14 BadDirective 1")?;
    }
    Ok(())
}

/// S23: assignments, `++`, `--` and calls in the expressions of a task, wherever they stand.
#[test]
fn effects_in_tasks(rt: HostRuntime) -> Result<(), Fail> {
    let alloc = rt.alloc();
    never_both();
    for &words in &IN_TASKS {
        check(&rt, alloc, Place::BeforeFunction, words, "S23 SideEffect 1")?;
    }
    Ok(())
}

/// S23: the same in the expressions of a wait.
#[test]
fn effects_in_waits(rt: HostRuntime) -> Result<(), Fail> {
    let alloc = rt.alloc();
    for &words in &IN_WAITS {
        check(&rt, alloc, Place::InBlock, words, "S23 SideEffect 1")?;
    }
    Ok(())
}
