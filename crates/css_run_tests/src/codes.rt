//! Code of a main that does nothing and of a task with one window, and calls of the task.
ghost use Rattle.std.specs.Prelude.{◌≡◌, ◌≤◌, IfOk};
ghost use Rattle.css_vm.specs.Code.{code_of};
ghost use Rattle.css_run_tests.specs.Tasks.{adding, dividing, with_task, task_code, IsCall, IsGiven};

use css_base::{Buffer, Direction, Line, NoMemory};
use css_record::{TaskRecord, VersionName, Window};
use css_vm::{ArgShape, Code, Function, Instr, Op, TaskShape, Width};
use std::alloc::Global;

fn instr(op: Op, line: u32) -> Instr
    requires { 1 ≤ line }
    ensures { result ≡ record { op = op; line = line } }
{
    Instr {
        op,
        line: Line::new(line),
    }
}

// A main that does nothing, and a task with this body.
fn code_of_task(alloc: Global, body: Vec<Instr>) -> Result<Code, NoMemory>
    ensures { IfOk result (λ c. code_of c ≡ with_task body.items) }
{
    let main = Function {
        frame: 0,
        params: Vec::new(alloc),
        task: None,
        body: vec![in alloc; instr(Op::Push(0), 1), instr(Op::Ret, 2)]?,
    };
    let args = vec![in alloc;
        ArgShape::Window {
            direction: Direction::InOut,
            element: 4,
            dims: 0,
            strided: false,
        },
    ]?;
    let task = Function {
        frame: 8,
        params: vec![in alloc; Width::W32]?,
        task: Some(TaskShape { high: false, args }),
        body,
    };
    Ok(Code {
        functions: vec![in alloc; main, task]?,
        main: 0,
    })
}

/// A task that adds 1 to the number so many bytes behind the address that it is given.
pub(crate) fn adding_code(alloc: Global, offset: i64) -> Result<Code, NoMemory>
    ensures { IfOk result (λ c. code_of c ≡ with_task (adding offset)) }
{
    let body = vec![in alloc;
        instr(Op::Frame(0), 7),
        instr(Op::Load32u, 7),
        instr(Op::Push(offset), 7),
        instr(Op::Add, 7),
        instr(Op::Dup(0), 7),
        instr(Op::Load32s, 7),
        instr(Op::Push(1), 7),
        instr(Op::Add, 7),
        instr(Op::Store32, 8),
        instr(Op::Drop, 8),
        instr(Op::Push(0), 9),
        instr(Op::Ret, 9),
    ]?;
    code_of_task(alloc, body)
}

/// A task that divides 100 by the number in its window.
pub(crate) fn dividing_code(alloc: Global) -> Result<Code, NoMemory>
    ensures { IfOk result (λ c. code_of c ≡ task_code) }
{
    let body = vec![in alloc;
        instr(Op::Frame(0), 5),
        instr(Op::Load32u, 5),
        instr(Op::Push(100), 5),
        instr(Op::Dup(1), 5),
        instr(Op::Load32s, 5),
        instr(Op::Divs, 6),
        instr(Op::Store32, 7),
        instr(Op::Ret, 7),
    ]?;
    code_of_task(alloc, body)
}

/// A call of the task in line 3, with a window of 4 bytes.
pub(crate) fn call(alloc: Global, number: u64, input: VersionName) -> Result<TaskRecord, NoMemory>
    ensures { IfOk result (λ r. IsCall r number input) }
{
    Ok(TaskRecord {
        number,
        function: 1,
        scalars: Vec::new(alloc),
        windows: vec![in alloc; Window::plain(8_192, 4)]?,
        stack_place: 65_536,
        inputs: vec![in alloc; input]?,
        high: false,
        line: Line::new(3),
    })
}

/// The bytes of a number, which the task is given.
pub(crate) fn given(alloc: Global, number: u8) -> Result<Vec<Buffer>, NoMemory>
    ensures { IfOk result (λ v. IsGiven v.items) }
{
    let bytes = Vec::from_slice(alloc, &[0, 0, 0, number])?;
    Ok(vec![in alloc; Buffer::new(alloc, bytes)?]?)
}
