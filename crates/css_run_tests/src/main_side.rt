//! A test of main's run over a yard, where main calls no task. Runs with tasks are rows of the program.
ghost use Rattle.std.specs.Prelude.{◌≡◌};
ghost use Rattle.css_vm.specs.Code.{code_of};
ghost use Rattle.css_run_tests.specs.Tasks.{task_code};

use crate::codes::dividing_code;
use css_base::{Ending, Limits, NoMemory};
use css_io::MemSink;
use css_main_side::{Ran, play};
use css_vm::Code;
use css_yard::InOrder;
use std::alloc::Global;
use std::test::Fail;

// How main's run ends over a yard in order.
fn ran(alloc: Global, code: &Code, out: &mut MemSink) -> Result<Ran, NoMemory>
    requires { code_of code.now ≡ task_code }
{
    let mut yard = InOrder::new(alloc, code, &Limits::DEFAULT)?;
    Ok(play(alloc, code, &Limits::DEFAULT, &mut yard, out))
}

#[test]
fn main_alone(rt: HostRuntime) -> Result<(), Fail> {
    let code = dividing_code(rt.alloc())?;
    let mut out = MemSink::new(rt.alloc(), 16, Vec::new(rt.alloc()))?;
    match ran(rt.alloc(), &code, &mut out)? {
        Ran::Ended(ending) => assert_eq!(&rt; ending, Ending::Result(0)),
        _ => panic!(&rt; "it has no ending"),
    }
    assert_eq!(&rt; out.written(), [].as_slice());
    Ok(())
}
