//! The limits on open brackets and on levels.
use crate::texts::refusal;
use css_pragma::Place;
use std::alloc::Global;
use std::process::Abort;
use std::test::Fail;

/// Some words, with a part before and a part behind the middle so many times.
fn nested(alloc: Global, parts: [&str; 5], count: u32) -> Result<String, Fail> {
    let mut words = String::from_str(alloc, parts[0])?;
    for _ in 0..count {
        words.push_str(parts[1])?;
    }
    words.push_str(parts[2])?;
    for _ in 0..count {
        words.push_str(parts[3])?;
    }
    words.push_str(parts[4])?;
    Ok(words)
}

/// Ends the test where the nested words break another rule than this, or none.
fn check(
    rt: &impl Abort,
    alloc: Global,
    place: Place,
    parts: [&str; 5],
    (count, want): (u32, &str),
) -> Result<(), Fail> {
    let words = nested(alloc, parts, count)?;
    assert_eq!(rt;
        refusal(alloc, place, words.as_str())?,
        want,
        "{}{count}",
        parts[0]
    );
    Ok(())
}

static IN_TASKS: [([&str; 5], u32, &str); 13] = [
    (["task input(a[", "(", "n", ")", "])"], 198, ""),
    (
        ["task input(a[", "(", "n", ")", "])"],
        199,
        "S14 BadDirective",
    ),
    (["task input(p{", "(", "n", ")", ", 2, 3})"], 198, ""),
    (
        ["task input(p{", "(", "n", ")", ", 2, 3})"],
        199,
        "S14 BadDirective",
    ),
    (
        ["task input(a[", "(", "n++", ")", "])"],
        198,
        "S23 SideEffect",
    ),
    (
        ["task input(a[", "(", "n++", ")", "])"],
        199,
        "S14 BadDirective",
    ),
    (["task ", "input(a[1]) ", "highpriority", "", ""], 1000, ""),
    (["task input(a[", "- ", "n", "", "])"], 499, ""),
    (
        ["task input(a[", "- ", "n", "", "])"],
        500,
        "S14 BadDirective",
    ),
    (
        ["task input(a[", "- ", "n++", "", "])"],
        498,
        "S23 SideEffect",
    ),
    (
        ["task input(a[", "- ", "n++", "", "])"],
        499,
        "S14 BadDirective",
    ),
    (["task input(p{1, 2, ", "- ", "n", "", "})"], 499, ""),
    (
        ["task input(p{1, 2, ", "- ", "n", "", "})"],
        500,
        "S14 BadDirective",
    ),
];

/// At most 200 open brackets and 500 levels in the expressions of a task. Parentheses are no levels.
#[test]
fn tasks(rt: HostRuntime) -> Result<(), Fail> {
    let alloc = rt.alloc();
    for &(parts, count, want) in &IN_TASKS {
        check(&rt, alloc, Place::BeforeFunction, parts, (count, want))?;
    }
    Ok(())
}

static IN_WAITS: [([&str; 5], u32, &str); 13] = [
    (["wait on(", "(", "a", ")", ")"], 199, ""),
    (["wait on(", "(", "a", ")", ")"], 200, "S14 BadDirective"),
    (["wait on(", "a[", "1", "]", ")"], 199, ""),
    (["wait on(", "a[", "1", "]", ")"], 200, "S14 BadDirective"),
    (["wait on(", "(", "a = b", ")", ")"], 199, "S23 SideEffect"),
    (
        ["wait on(", "(", "a = b", ")", ")"],
        200,
        "S14 BadDirective",
    ),
    (["wait on(", "(a), ", "a", "", ")"], 1000, ""),
    (["wait on(", "* ", "a", "", ")"], 499, ""),
    (["wait on(", "* ", "a", "", ")"], 500, "S14 BadDirective"),
    (["wait on(a, ", "a + ", "b", "", ")"], 499, ""),
    (
        ["wait on(a, ", "a + ", "b", "", ")"],
        500,
        "S14 BadDirective",
    ),
    (["wait on(", "a = ", "b", "", ")"], 499, "S23 SideEffect"),
    (["wait on(", "a = ", "b", "", ")"], 500, "S14 BadDirective"),
];

/// The same in the expressions of a wait; brackets that are closed, and levels of other expressions, don't count.
#[test]
fn waits(rt: HostRuntime) -> Result<(), Fail> {
    let alloc = rt.alloc();
    for &(parts, count, want) in &IN_WAITS {
        check(&rt, alloc, Place::InBlock, parts, (count, want))?;
    }
    Ok(())
}
