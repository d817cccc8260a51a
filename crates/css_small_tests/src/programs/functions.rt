//! Functions, elements and calls.

use super::*;

static FUNCTIONS: [(&str, &str); 6] = [
    ("void f(int *p){}int main(void){}", "1-1 0 | 1-1 0"),
    (
        "\nvoid f(int*p)\n{\nint x=p[p[0]];\np[x]=x;\n}int main(void){}",
        "4:int v1=p[p[0]] 5:p[v1]=v1 2-6 1 | 6-6 0",
    ),
    (
        "void f(int*p){while(-p[1]*2)if(p[0])p[p[2]]=3;else;}int main(void){}",
        "1:while (Mul (Minus p[1]) 2) [1:if p[0] [1:p[p[2]]=3] else [1:;]] 1-1 0 | 1-1 0",
    ),
    (
        "void f(int*f){f[1+2]=(f[0]);}int main(void){}",
        "1:p[(Add 1 2)]=p[0] 1-1 0 | 1-1 0",
    ),
    (
        "void f(int*p){int main;int putchars=main;}int main(void){}",
        "1:int v1 1:int v2=v1 1-1 2 | 1-1 0",
    ),
    (
        "void f(int*p){}void g(int*p){int f;f=p[0];}int main(void){}",
        "1-1 0 | 1:int v1 1:v1=p[0] 1-1 1 | 1-1 0",
    ),
];

/// Functions before main, with the elements of a parameter. A parameter is object 0 of its function (C99 6.9.1).
#[test]
fn functions(rt: HostRuntime) -> Result<(), Fail> {
    let alloc = rt.alloc();
    for &(text, want) in &FUNCTIONS {
        check(&rt, alloc, text, want)?;
    }
    Ok(())
}

static CALLS: [(&str, &str); 4] = [
    ("int x;f(&x);", "1:int v0 1:f0(v0) 1-1 1"),
    ("int x;int y;g(&y);", "1:int v0 1:int v1 1:f1(v1) 1-1 2"),
    (
        "int x;f(&x);int f;f=x;g(&f);",
        "1:int v0 1:f0(v0) 1:int v1 1:v1=v0 1:f1(v1) 1-1 2",
    ),
    (
        "int x;if(x)f(&x);else{g\n(\n&x);}",
        "1:int v0 1:if v0 [1:f0(v0)] else [1:{ 1:f1(v0) }] 1-3 1",
    ),
];

/// Calls in main. A variable hides a function of its name from its declaration on (C99 6.2.1).
#[test]
fn calls(rt: HostRuntime) -> Result<(), Fail> {
    let alloc = rt.alloc();
    for &(body, want) in &CALLS {
        let text = format!(in alloc; "void f(int*p){{}}void g(int*q){{}}int main(void){{{body}}}")?;
        let read = format!(in alloc; "1-1 0 | 1-1 0 | {want}")?;
        check(&rt, alloc, text.as_str(), read.as_str())?;
    }
    Ok(())
}

static NO_BODIES: [&str; 28] = [
    "int x=p;",
    "int x=p+1;",
    "p=1;",
    "p[p]=1;",
    "int x=*p;",
    "*p=1;",
    "int p;",
    "p[0];",
    "p[0]+=1;",
    "p[0]++;",
    "p(0)=1;",
    "p[0][0]=1;",
    "(p+1)[0]=1;",
    "int x=0[p];",
    "int x;x[0]=1;",
    "int x;int y=x[0];",
    "q[0]=1;",
    "int*q;",
    "putchar(1);",
    "if(1)putchar(p[0]);",
    "return;",
    "return 1;",
    "{return p[0];}",
    "{int x;}",
    "e(&p);",
    "e(p);",
    "int x;e(&x);",
    "int x;f(&x);",
];

/// What the whole language has in a function's body and the small one hasn't.
#[test]
fn no_bodies(rt: HostRuntime) -> Result<(), Fail> {
    let alloc = rt.alloc();
    for &body in &NO_BODIES {
        let text = format!(in alloc; "void e(int*p){{}}void f(int*p){{{body}}}int main(void){{}}")?;
        check(&rt, alloc, text.as_str(), "NotBuilt 1")?;
    }
    for body in ["p[]=1;", "p[0]=;", "p[0=1;", "[0]=1;"] {
        let text = format!(in alloc;
            "void e(int*p){{}}\nvoid f(int*p){{\n{body}}}int main(void){{}}"
        )?;
        check(&rt, alloc, text.as_str(), "Syntax 2")?;
    }
    Ok(())
}

static NO_CALLS: [&str; 22] = [
    "int x;g(&x);",
    "int x;x(&x);",
    "int x;p(&x);",
    "int f;f(&f);",
    "int f;int x;{f(&x);}",
    "f(&x);",
    "f(&f);",
    "int x;f(x);",
    "int x;f(-x);",
    "int x;f(&1);",
    "int x;f(&*&x);",
    "int x;f(&x,&x);",
    "int x;f();",
    "int x;f(&x),f(&x);",
    "int x;x=f(&x);",
    "int x;int y=f(&x);",
    "int x;f=x;",
    "int x;x=f;",
    "int x;main(&x);",
    "int x;putchar(&x);",
    "f[0]=1;",
    "p[0]=1;",
];

/// What the whole language has of calls and the small one hasn't.
#[test]
fn no_calls(rt: HostRuntime) -> Result<(), Fail> {
    let alloc = rt.alloc();
    for &body in &NO_CALLS {
        let text = format!(in alloc; "void f(int*p){{}}int main(void){{{body}}}")?;
        check(&rt, alloc, text.as_str(), "NotBuilt 1")?;
    }
    for body in ["int x;f(&x)", "int x;f(&x);;else;", "int x;(f)(&x);"] {
        let text = format!(in alloc; "void f(int*p){{}}\nint main(void){{{body}}}")?;
        check(&rt, alloc, text.as_str(), "Syntax 2")?;
    }
    Ok(())
}

static NO_FUNCTIONS: [&str; 24] = [
    "void f(int*p){}void f(int*q){}",
    "void main(int*p){}",
    "void putchar(int*p){}",
    "void f(int*printf){}",
    "void f(int p){}",
    "void f(int**p){}",
    "void f(int*const p){}",
    "void f(const int*p){}",
    "void f(unsigned*p){}",
    "void f(char*p){}",
    "void f(int p[]){}",
    "void f(int*p[2]){}",
    "void f(int*p,int*q){}",
    "void f(int*){}",
    "void f(void){}",
    "void f(){}",
    "int f(int*p){}",
    "void*f(int*p){}",
    "static void f(int*p){}",
    "void f(int*p);",
    "void f(int*p);void f(int*p){}",
    "int x;",
    "int x;void f(int*p){}",
    "void f(int*p){}const int x=1;",
];

static MISPLACED_FUNCTIONS: [&str; 4] = [
    "void f(int*p){}",
    "int main(void){}void f(int*p){}",
    "int main(void){int x;f(&x);}void f(int*p){}",
    "void f(int*p);int main(void){int x;f(&x);}void f(int*p){}",
];

static UNSPELLED_FUNCTIONS: [&str; 5] = [
    "void void(int*p){}int main(void){}",
    "void f(int*int){}int main(void){}",
    "void f(int*p){};int main(void){}",
    "void f(int*p){int main(void){}",
    "f(int*p){}int main(void){}",
];

/// What the whole language has of functions and the small one hasn't.
#[test]
fn no_functions(rt: HostRuntime) -> Result<(), Fail> {
    let alloc = rt.alloc();
    for &functions in &NO_FUNCTIONS {
        let text = format!(in alloc; "{functions}int main(void){{}}")?;
        check(&rt, alloc, text.as_str(), "NotBuilt 1")?;
    }
    for &text in &MISPLACED_FUNCTIONS {
        check(&rt, alloc, text, "NotBuilt 1")?;
    }
    for &text in &UNSPELLED_FUNCTIONS {
        check(&rt, alloc, text, "Syntax 1")?;
    }
    Ok(())
}
