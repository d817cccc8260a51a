//! Directives before functions and in main.

use super::*;

static DIRECTIVES: [(&str, &str); 4] = [
    (
        "#pragma css task inout(p)\nvoid f(int*p){p[0]=1;}\nint main(void){int x;\n#pragma css start\nf(&x);\n#pragma css finish\n}",
        "task 2:p[0]=1 2-2 0 | 3:int v0 4:Start 5:f0(v0) 6:Finish 3-7 1",
    ),
    (
        "void f(int*p){}\n#pragma css task inout(q)\nvoid g(int*q){}\nint main(void){\n#pragma css barrier\nint x;{\n#pragma css barrier\ng(&x);}}",
        "1-1 0 | task 3-3 0 | 5:Barrier 6:int v0 6:{ 7:Barrier 8:f1(v0) } 4-8 1",
    ),
    (
        "#define Q p\n # /* a */ pragma css \\\n task\tinout ( Q ) // b\nvoid f(int*p){}int main(void){}",
        "task 4-4 0 | 4-4 0",
    ),
    (
        "#pragma omp css task\nvoid f(int*p){}int main(void){\n#pragma once\n}",
        "2-2 0 | 2-4 0",
    ),
];

/// A task's directive stands before its function, and those of main among its declarations and statements.
#[test]
fn directives(rt: HostRuntime) -> Result<(), Fail> {
    let alloc = rt.alloc();
    for &(text, want) in &DIRECTIVES {
        check(&rt, alloc, text, want)?;
    }
    Ok(())
}

/// A directive with these words at the second line, between other lines.
fn check_between(
    rt: &impl Abort,
    alloc: Global,
    [before, words, behind]: [&str; 3],
    want: &str,
) -> Result<(), Fail> {
    let text = format!(in alloc; "{before}\n#pragma css {words}\n{behind}")?;
    check(rt, alloc, text.as_str(), want)
}

static NO_DIRECTIVES: [[&str; 3]; 28] = [
    ["void f(int*p){", "barrier", "}int main(void){}"],
    ["void f(int*p){{", "start", "}}int main(void){}"],
    ["void f(int*p){}", "start", "int main(void){}"],
    ["int main(void){", "", "}"],
    ["int main(void){", "start start", "}"],
    ["int main(void){", "barrier;", "}"],
    ["int main(void){", "(barrier)", "}"],
    ["int main(void){", "\"barrier\"", "}"],
    ["int main(void){", "barriers", "}"],
    ["int main(void){", "stop", "}"],
    ["int main(void){", "wait on(p)", "}"],
    ["int main(void){", "task inout(x)", "}"],
    ["", "", "void f(int*p){}int main(void){}"],
    ["", "start", "void f(int*p){}int main(void){}"],
    ["", "task inout(q)", "void f(int*p){}int main(void){}"],
    ["", "task inout(f)", "void f(int*p){}int main(void){}"],
    ["", "task", "void f(int*p){}int main(void){}"],
    ["", "task inout p", "void f(int*p){}int main(void){}"],
    ["", "task inout()", "void f(int*p){}int main(void){}"],
    ["", "task inout(p,p)", "void f(int*p){}int main(void){}"],
    ["", "task inout(p[1])", "void f(int*p){}int main(void){}"],
    ["", "task inout[p]", "void f(int*p){}int main(void){}"],
    ["", "task input(p)", "void f(int*p){}int main(void){}"],
    ["", "task output(p)", "void f(int*p){}int main(void){}"],
    [
        "",
        "task inout(p) highpriority",
        "void f(int*p){}int main(void){}",
    ],
    ["", "inout(p)", "void f(int*p){}int main(void){}"],
    ["", "task inout(p)", "int main(void){}"],
    ["", "task inout(p)", "void f(int*p);int main(void){}"],
];

/// A directive of main has one word, and stands in main alone. A task's names the parameter of its function.
#[test]
fn no_directives(rt: HostRuntime) -> Result<(), Fail> {
    let alloc = rt.alloc();
    for &parts in &NO_DIRECTIVES {
        check_between(&rt, alloc, parts, "NotBuilt 1")?;
    }
    Ok(())
}

static MISPLACED: [([&str; 3], &str); 11] = [
    (["int main(void){if(1)", "barrier", "}"], "Syntax 1"),
    (["int main(void){if(1)", "barrier", ";}"], "Syntax 1"),
    (["int main(void){if(1);else ", "barrier", "}"], "Syntax 1"),
    (["int main(void){while(1)", "barrier", "}"], "Syntax 1"),
    (["int main(void){int x", "barrier", ";}"], "Syntax 1"),
    (["int main(void){}", "finish", ""], "Syntax 2"),
    (["int main(void){}", "finish", "int x;"], "Syntax 2"),
    (
        ["void f(int*p)", "task inout(p)", "{}int main(void){}"],
        "Syntax 1",
    ),
    (
        [
            "#pragma css task inout(p)",
            "task inout(p)",
            "void f(int*p){}int main(void){}",
        ],
        "Syntax 1",
    ),
    (["int main(void){", "double", "}"], "Unsupported 2"),
    (["int main(void){", "08", "}"], "BadConstant 2"),
];

/// A directive is no statement of an `if` or a loop, and stands between no other words.
#[test]
fn misplaced(rt: HostRuntime) -> Result<(), Fail> {
    let alloc = rt.alloc();
    for &(parts, want) in &MISPLACED {
        check_between(&rt, alloc, parts, want)?;
    }
    Ok(())
}
