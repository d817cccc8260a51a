//! A task's run over buffers.
ghost use Rattle.std.specs.Prelude.{◌≡◌, List, Some, IfOk, slice_get};
ghost use Rattle.css_vm.specs.Code.{Routine, Shape, shape, routine, code_of};
ghost use Rattle.css_vm.specs.Soundness.{Spot, IsSound};
ghost use Rattle.css_record.specs.Records.{FitsCode};
ghost use Rattle.css_task.specs.Alone.{InputsOf, IsAlone, end_of};
ghost use Rattle.css_task.specs.Returned.{IsReturned};

use crate::arguments::arguments_of;
use crate::body::{BodyEnd, run_body};
use crate::room::TaskRoom;
use css_base::{Buffer, Line, NoMemory, Rule, Stop};
use css_record::TaskRecord;
use css_vm::{Code, Function, Machine, Space, TaskShape};
use std::alloc::Global;

/// How a task's run ends.
#[derive(Drop)]
pub enum SharedEnd {
    /// What its writing parameters have at the end, in order of parameters.
    Outs(Vec<Buffer>),
    /// It stops at a fault or a rule, in this line.
    Stopped { stop: Stop, line: Line },
}

/// Runs a task by itself over a copy of its windows, which have the inputs' bytes where they are read, and zeros else; with an empty
/// stack at its stack place and so many units. `NoMemory` where there is no memory for the run.
pub fn run_shared(
    alloc: Global,
    code: &Code,
    task: &TaskRecord,
    inputs: &[Buffer],
    units: u64,
) -> Result<SharedEnd, NoMemory>
    requires sound { (plans : List (List Spot)) × IsSound (code_of code.now) plans }
    requires fits { FitsCode (code_of code.now) task.now }
    requires inputs { InputsOf (code_of code.now) task.now inputs.now }
    ensures { IfOk result (λ end. IsAlone (code_of code.now) task.now inputs.now units (end_of end)) }
{
    let function = function_of(code, task.function);
    let parts = &shape_of(function).args;
    let arguments = arguments_of(alloc, parts, &task.scalars, &task.windows)?;
    let mut space = TaskRoom::new(alloc, parts, &task.windows, inputs, task.stack_place)?;
    let mut machine = Machine::new(alloc, code, task.function, &arguments, task.line)?;
    let mut left = units;
    let end = run_body(&mut machine, alloc, code, &mut space, &mut left)?;
    match end {
        BodyEnd::Returned(line) => returned(alloc, space, function.frame, line),
        BodyEnd::Stopped(stop, line) => Ok(SharedEnd::Stopped { stop, line }),
    }
}

// What comes of a task whose body has returned in a line, with a frame of so many bytes.
fn returned(
    alloc: Global,
    mut space: TaskRoom,
    frame: u32,
    line: Line,
) -> Result<SharedEnd, NoMemory>
    ensures { IfOk result (λ end. IsReturned space frame line (end_of end)) }
{
    match space.pop_frame(frame) {
        Ok(()) => {
            if space.is_written() {
                Ok(SharedEnd::Outs(space.into_buffers(alloc)?))
            } else {
                let stop = Stop::Rule(Rule::LeftUnwritten);
                Ok(SharedEnd::Stopped { stop, line })
            }
        }
        Err(stop) => Ok(SharedEnd::Stopped { stop, line }),
    }
}

// The function of a number.
fn function_of(code: &Code, number: u32) -> &Function
    requires { (f : Routine) × (slice_get (code_of code.now).functions number ≡ Some f) }
    ensures { slice_get (code_of code.now).functions number ≡ Some (routine result.now) }
{
    &code.functions[number as usize]
}

// The shape of a task.
fn shape_of(function: &Function) -> &TaskShape
    requires { (s : Shape) × ((routine function.now).task ≡ Some s) }
    ensures { (routine function.now).task ≡ Some (shape result.now) }
{
    match &function.task {
        Some(shape) => shape,
        None => unreachable!(),
    }
}
