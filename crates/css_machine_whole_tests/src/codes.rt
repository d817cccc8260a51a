//! Small codes, and what runs of them come to.
ghost use Rattle.std.specs.Prelude.{◌≡◌, [], ◌∷◌, true, false, map, Some, None, IfOk};
ghost use Rattle.css_isa.specs.Code.{routine, code_of};
ghost use Rattle.css_isa.specs.Spaces.{bytes_of};
ghost use Rattle.css_isa.specs.Steps.{Begin};
ghost use Rattle.css_isa.specs.Soundness.{Fits};
ghost use Rattle.css_machine_whole_tests.specs.Codes.{at_line, routine_of, code_with, goes_on, IsReady};

use crate::ram::Ram;
use css_base::{Line, NoMemory};
use css_isa::{ArgShape, Code, Function, Instr, Items, Name, Op, TaskShape, Width};
use css_machine::{Event, Machine};
use std::alloc::Global;

// The instructions that do this, in a line.
fn body(alloc: Global, line: Line, ops: &[Op]) -> Result<Vec<Instr>, NoMemory>
    ensures { IfOk result (λ b. b.items ≡ map (at_line line) ops.now) }
{
    let mut instrs = Vec::new(alloc);
    for op in ops {
        instrs.push(Instr { op: *op, line })?;
    }
    Ok(instrs)
}

// A function that is no task.
pub(crate) fn function(
    alloc: Global,
    frame: u32,
    params: &[Width],
    line: Line,
    ops: &[Op],
) -> Result<Function, NoMemory>
    ensures { IfOk result (λ f. routine f ≡ routine_of frame (map bytes_of params.now) None line ops.now) }
{
    let body = Items::new(body(alloc, line, ops)?);
    let name = vec![in alloc; b'f']?;
    let params = Items::new(Vec::from_slice(alloc, params)?);
    Ok(Function {
        name: Name::new(name),
        params,
        frame,
        task: None,
        body,
    })
}

// A task.
pub(crate) fn task(
    alloc: Global,
    frame: u32,
    params: &[Width],
    args: &[ArgShape],
    line: Line,
    ops: &[Op],
) -> Result<Function, NoMemory>
    ensures { IfOk result (λ f. routine f ≡ routine_of frame (map bytes_of params.now) (Some (record { high = false; arguments = args.now })) line ops.now) }
{
    let body = Items::new(body(alloc, line, ops)?);
    let name = vec![in alloc; b'f']?;
    let params = Items::new(Vec::from_slice(alloc, params)?);
    let args = Items::new(Vec::from_slice(alloc, args)?);
    Ok(Function {
        name: Name::new(name),
        params,
        frame,
        task: Some(TaskShape { high: false, args }),
        body,
    })
}

// The code of main alone.
pub(crate) fn alone(alloc: Global, main: Function) -> Result<Code, NoMemory>
    ensures { IfOk result (λ c. code_of c ≡ code_with (routine main ∷ [])) }
{
    let functions = vec![in alloc; main]?;
    Ok(code(alloc, functions))
}

// The code of main and another function.
pub(crate) fn pair(alloc: Global, main: Function, other: Function) -> Result<Code, NoMemory>
    ensures { IfOk result (λ c. code_of c ≡ code_with (routine main ∷ routine other ∷ [])) }
{
    let functions = vec![in alloc; main, other]?;
    Ok(code(alloc, functions))
}

fn code(alloc: Global, functions: Vec<Function>) -> Code
    ensures { code_of result ≡ code_with (map routine functions.items) }
{
    Code {
        globals_end: 4_096,
        datums: Items::none(alloc),
        functions: Items::new(functions),
        main: 0,
    }
}

// Whether the machine goes on behind an event.
fn goes_on(event: &Event) -> bool
    ensures { result ≡ goes_on event.now }
{
    match event {
        Event::Ended(_, _) => false,
        Event::Stopped(_, _, _) => false,
        Event::Out(_, _) => true,
        Event::In(_) => true,
        Event::Malloc(_, _) => true,
        Event::Submit(_) => true,
        Event::Mark(_, _) => true,
    }
}

// Runs a machine to the next event, and answers it.
fn advance(
    machine: &mut Machine,
    alloc: Global,
    code: &Code,
    ram: &mut Ram,
    units: &mut u64,
    answer: u64,
) -> Result<Event, NoMemory>
    requires { IsReady (code_of code.now) ram.old.place machine.old }
    ensures { IfOk result (λ e. goes_on e ≡ true → IsReady (code_of code.now) ram.new.place machine.new) }
{
    let event = machine.run_to_event(alloc, code, ram, units)?;
    if !goes_on(&event) {
        return Ok(event);
    }
    machine.answer(answer);
    Ok(event)
}

// The events of main's run with so many units, each answered by the next of these.
pub(crate) fn events(
    alloc: Global,
    code: &Code,
    mut units: u64,
    answers: &[u64],
) -> Result<Vec<Event>, NoMemory>
    requires { Fits (code_of code.now) (Begin 0 [] 1) }
{
    let mut ram = Ram::new(alloc, 256)?;
    let mut machine = Machine::new(alloc, code, 0, &[], Line::new(1))?;
    let mut events = Vec::new(alloc);
    for answer in answers {
        let event = advance(&mut machine, alloc, code, &mut ram, &mut units, *answer)?;
        let on = goes_on(&event);
        events.push(event)?;
        if !on {
            return Ok(events);
        }
    }
    Ok(events)
}
