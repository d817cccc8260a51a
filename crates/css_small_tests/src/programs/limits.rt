//! The most of everything.

use super::*;

/// A body of `front`, so many copies of `open`, `middle`, as many of `close`, and `back`, between what stands before and behind it.
pub(super) fn nested(
    alloc: Global,
    [before, behind]: [&str; 2],
    [front, open, middle, close, back]: [&str; 5],
    count: u32,
) -> Result<String, Fail> {
    let mut text = String::from_str(alloc, before)?;
    text.push_str(front)?;
    for _ in 0..count {
        text.push_str(open)?;
    }
    text.push_str(middle)?;
    for _ in 0..count {
        text.push_str(close)?;
    }
    text.push_str(back)?;
    text.push_str(behind)?;
    Ok(text)
}

/// What stands round main's body.
const IN_MAIN: [&str; 2] = ["int main(void){", "}"];

/// What stands round a function's body.
const IN_FUNCTION: [&str; 2] = ["void f(int*p){", "}int main(void){}"];

/// The rule that the text breaks, with its line; or `read`.
fn verdict(alloc: Global, text: &str) -> Result<String, Fail> {
    match read_program(alloc, text.as_bytes()) {
        Ok(_program) => Ok(String::from_str(alloc, "read")?),
        Err(FrontFault::Static(fault)) => {
            Ok(format!(in alloc; "{:?} {}", fault.name, fault.line.number())?)
        }
        Err(FrontFault::NoMemory) => Err(Fail::from("no memory")),
    }
}

/// So many copies are read, and one more breaks a rule.
fn check_most(
    rt: &impl Abort,
    alloc: Global,
    around: [&str; 2],
    parts: [&str; 5],
    (most, broken): (u32, &str),
) -> Result<(), Fail> {
    let last = verdict(alloc, nested(alloc, around, parts, most)?.as_str())?;
    assert_eq!(rt; last.as_str(), "read", "{most} of {}", parts[1]);
    let more = nested(alloc, around, parts, most.saturating_add(1))?;
    let more = verdict(alloc, more.as_str())?;
    assert_eq!(rt;
        more.as_str(),
        broken,
        "{most} of {} and one more",
        parts[1]
    );
    Ok(())
}

static LIMITS_OF_MAIN: [([&str; 5], u32, &str); 9] = [
    // Main's brace and 199 others.
    (["int x=", "(", "1", ")", ";"], 199, "TooDeep 1"),
    (["", "{", "", "}", ""], 199, "TooDeep 1"),
    // Main, its block, the declaration, 496 operators and the constant.
    (["int x=", "~", "1", "", ";"], 496, "Syntax 1"),
    (["int x=1", "+1", "", "", ";"], 496, "Syntax 1"),
    // Main, its block, an assignment as a statement and as an expression, 495 operators and the variable.
    (["int x;x=", "~", "x", "", ";"], 495, "Syntax 1"),
    // Main, its block, ten more, a call as a statement and as an expression, 485 operators and the constant.
    (
        ["{{{{{{{{{{putchar(1", "-1", "", "", ");}}}}}}}}}}"],
        485,
        "Syntax 1",
    ),
    // Main, its block, 497 headers and the empty statement.
    (["", "if(1)", ";", "", ""], 497, "Syntax 1"),
    (["", "if(1);else ", ";", "", ""], 497, "Syntax 1"),
    // Main, its block, the loop, 496 operators and the constant.
    (["while(", "~", "1", "", ");"], 496, "Syntax 1"),
];

/// 200 open brackets and 500 levels are read in main, and one more is not.
#[test]
fn limits_of_main(rt: HostRuntime) -> Result<(), Fail> {
    let alloc = rt.alloc();
    for &(parts, most, broken) in &LIMITS_OF_MAIN {
        check_most(&rt, alloc, IN_MAIN, parts, (most, broken))?;
    }
    Ok(())
}

/// A text of more than 4,194,304 bytes isn't read.
#[test]
fn too_long(rt: HostRuntime) -> Result<(), Fail> {
    let alloc = rt.alloc();
    // Main has sixteen bytes of its own.
    let text = nested(alloc, IN_MAIN, ["", " ", "", "", ""], 4_194_289)?;
    let got = verdict(alloc, text.as_str())?;
    assert_eq!(rt; got.as_str(), "TooLong 1");
    Ok(())
}

static LIMITS_OF_FUNCTIONS: [([&str; 5], u32, &str); 6] = [
    // The function's brace and 199 others.
    (["int x=", "p[", "0", "]", ";"], 199, "TooDeep 1"),
    (["p[", "p[", "0", "]", "]=1;"], 198, "TooDeep 1"),
    // The function, its block, the declaration, ten elements, 486 operators and the constant.
    (
        ["int x=p[p[p[p[p[p[p[p[p[p[", "~", "0", "", "]]]]]]]]]];"],
        486,
        "Syntax 1",
    ),
    // The function, its block, the declaration, an operator, 165 elements with two operators each, and the constant.
    (["int x=~", "~~p[", "0", "]", ";"], 165, "Syntax 1"),
    // The function, its block, an assignment as a statement and as an expression, the element, 494 operators and the constant.
    (["p[", "~", "0", "", "]=1;"], 494, "Syntax 1"),
    // The function, its block, an assignment as a statement and as an expression, 495 operators and the constant.
    (["p[0]=", "~", "0", "", ";"], 495, "Syntax 1"),
];

/// 200 open brackets and 500 levels are read in a function too, and one more is not.
#[test]
fn limits_of_functions(rt: HostRuntime) -> Result<(), Fail> {
    let alloc = rt.alloc();
    for &(parts, most, broken) in &LIMITS_OF_FUNCTIONS {
        check_most(&rt, alloc, IN_FUNCTION, parts, (most, broken))?;
    }
    // Main, its block, 494 headers, a call as a statement and as an expression, the operator `&` and the variable.
    let around = ["void f(int*p){}int main(void){int x;", "}"];
    check_most(
        &rt,
        alloc,
        around,
        ["", "if(1)", "f(&x);", "", ""],
        (494, "Syntax 1"),
    )
}

/// A directive has no level of its own: it stands where a statement would have level 501.
#[test]
fn no_level(rt: HostRuntime) -> Result<(), Fail> {
    let alloc = rt.alloc();
    // Main, its block, 497 headers and a block.
    for (behind, want) in [
        ("{\n#pragma css barrier\n}}", "read"),
        ("{\n#pragma css barrier\n;}}", "Syntax 1"),
    ] {
        let around = ["int main(void){", behind];
        let text = nested(alloc, around, ["", "if(1)", "", "", ""], 497)?;
        let got = verdict(alloc, text.as_str())?;
        assert_eq!(rt; got.as_str(), want);
    }
    Ok(())
}

/// Main has 1,000 variables, and a function as many beside its parameter, and no more.
#[test]
fn variables(rt: HostRuntime) -> Result<(), Fail> {
    let alloc = rt.alloc();
    for [before, behind] in [IN_MAIN, IN_FUNCTION] {
        for (count, want) in [(1000, "read"), (1001, "NotBuilt 1")] {
            let mut text = String::from_str(alloc, before)?;
            for k in 0..count {
                write!(&mut text, "int a{k};")?;
            }
            text.push_str(behind)?;
            let got = verdict(alloc, text.as_str())?;
            assert_eq!(rt; got.as_str(), want, "{count}");
        }
    }
    Ok(())
}

/// However many unary operators stand in a row, no more levels are read.
#[test]
fn many_operators(rt: HostRuntime) -> Result<(), Fail> {
    let alloc = rt.alloc();
    let text = nested(alloc, IN_MAIN, ["int x=", "~", "1", "", ";"], 100_000)?;
    let got = verdict(alloc, text.as_str())?;
    assert_eq!(rt; got.as_str(), "Syntax 1");
    Ok(())
}
