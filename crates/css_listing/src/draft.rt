//! What is read of a code so far.
ghost use Rattle.std.specs.Prelude.{◌≡◌, IfOk};
ghost use Rattle.css_listing.specs.Reading.{Gives, opened, is_bare, as_task, with_instr, with_head, with_data, with_function, with_task, with_body, next, finished};

use crate::fault::ReadError;
use crate::listing_line::ListingLine;
use css_base::NoMemory;
use css_isa::{Code, Datum, Function, Instr, Items, Name, TaskShape, Width};
use std::alloc::Global;

/// What is read of a code so far.
#[derive(Drop)]
pub(crate) enum Draft {
    /// Nothing.
    Start,
    /// No function yet.
    InData {
        globals_end: u32,
        main: u32,
        datums: Items<Datum>,
    },
    /// The last function may get more lines.
    InFunction {
        globals_end: u32,
        main: u32,
        datums: Items<Datum>,
        functions: Items<Function>,
        last: Function,
    },
}

/// A function without instructions.
fn opened(alloc: Global, name: Name, frame: u32, params: Items<Width>) -> Function
    ensures { result ≡ opened name frame params }
{
    Function {
        name,
        params,
        frame,
        task: None,
        body: Items::none(alloc),
    }
}

/// Whether nothing is read of a function but its first line.
fn is_bare(function: &Function) -> bool
    ensures { result ≡ is_bare function.now }
{
    function.task.is_none() && function.body.as_slice().len() == 0
}

/// The function as a task.
fn as_task(function: Function, shape: TaskShape) -> Function
    ensures { result ≡ as_task function shape }
{
    Function {
        name: function.name,
        params: function.params,
        frame: function.frame,
        task: Some(shape),
        body: function.body,
    }
}

/// The function with one more instruction.
fn with_instr(function: Function, instr: Instr) -> Result<Function, NoMemory>
    ensures { IfOk result (λ f. f ≡ with_instr function instr) }
{
    let body = function.body.with(instr)?;
    Ok(Function {
        name: function.name,
        params: function.params,
        frame: function.frame,
        task: function.task,
        body,
    })
}

#[tactic(auto, unfolding(crate::specs::Reading::with_head))]
fn with_head(alloc: Global, draft: Draft, globals_end: u32, main: u32) -> Result<Draft, ReadError>
    ensures { Gives result (with_head draft globals_end main) }
{
    match draft {
        Draft::Start => Ok(Draft::InData {
            globals_end,
            main,
            datums: Items::none(alloc),
        }),
        _ => Err(ReadError::Refused),
    }
}

#[tactic(auto, unfolding(crate::specs::Reading::with_data))]
fn with_data(draft: Draft, datum: Datum) -> Result<Draft, ReadError>
    ensures { Gives result (with_data draft datum) }
{
    match draft {
        Draft::InData {
            globals_end,
            main,
            datums,
        } => {
            let datums = datums.with(datum)?;
            Ok(Draft::InData {
                globals_end,
                main,
                datums,
            })
        }
        _ => Err(ReadError::Refused),
    }
}

#[tactic(auto, unfolding(crate::specs::Reading::with_function))]
fn with_function(alloc: Global, draft: Draft, function: Function) -> Result<Draft, ReadError>
    ensures { Gives result (with_function draft function) }
{
    match draft {
        Draft::Start => Err(ReadError::Refused),
        Draft::InData {
            globals_end,
            main,
            datums,
        } => Ok(Draft::InFunction {
            globals_end,
            main,
            datums,
            functions: Items::none(alloc),
            last: function,
        }),
        Draft::InFunction {
            globals_end,
            main,
            datums,
            functions,
            last,
        } => {
            let functions = functions.with(last)?;
            Ok(Draft::InFunction {
                globals_end,
                main,
                datums,
                functions,
                last: function,
            })
        }
    }
}

#[tactic(auto, unfolding(crate::specs::Reading::with_task))]
fn with_task(draft: Draft, shape: TaskShape) -> Result<Draft, ReadError>
    ensures { Gives result (with_task draft shape) }
{
    match draft {
        Draft::InFunction {
            globals_end,
            main,
            datums,
            functions,
            last,
        } => {
            if !is_bare(&last) {
                return Err(ReadError::Refused);
            }
            Ok(Draft::InFunction {
                globals_end,
                main,
                datums,
                functions,
                last: as_task(last, shape),
            })
        }
        _ => Err(ReadError::Refused),
    }
}

#[tactic(auto, unfolding(crate::specs::Reading::with_body))]
fn with_body(draft: Draft, instr: Instr) -> Result<Draft, ReadError>
    ensures { Gives result (with_body draft instr) }
{
    match draft {
        Draft::InFunction {
            globals_end,
            main,
            datums,
            functions,
            last,
        } => {
            let last = with_instr(last, instr)?;
            Ok(Draft::InFunction {
                globals_end,
                main,
                datums,
                functions,
                last,
            })
        }
        _ => Err(ReadError::Refused),
    }
}

/// What is read with one more line.
#[tactic(auto, unfolding(crate::specs::Reading::next))]
pub(crate) fn next(alloc: Global, draft: Draft, line: ListingLine) -> Result<Draft, ReadError>
    ensures { Gives result (next draft line) }
{
    match line {
        ListingLine::Head(globals_end, main) => with_head(alloc, draft, globals_end, main),
        ListingLine::Data(datum) => with_data(draft, datum),
        ListingLine::Opens(name, frame, params) => {
            with_function(alloc, draft, opened(alloc, name, frame, params))
        }
        ListingLine::Task(shape) => with_task(draft, shape),
        ListingLine::Instr(instr) => with_body(draft, instr),
    }
}

/// The code whose listing ends here.
#[tactic(auto, unfolding(crate::specs::Reading::finished))]
pub(crate) fn finished(alloc: Global, draft: Draft) -> Result<Code, ReadError>
    ensures { Gives result (finished draft) }
{
    match draft {
        Draft::Start => Err(ReadError::Refused),
        Draft::InData {
            globals_end,
            main,
            datums,
        } => Ok(Code {
            globals_end,
            datums,
            functions: Items::none(alloc),
            main,
        }),
        Draft::InFunction {
            globals_end,
            main,
            datums,
            functions,
            last,
        } => {
            let functions = functions.with(last)?;
            Ok(Code {
                globals_end,
                datums,
                functions,
                main,
            })
        }
    }
}
