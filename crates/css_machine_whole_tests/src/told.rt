//! Texts of events.
use css_base::{FaultKind, NoMemory, Stop};
use css_machine::{Event, MarkKind, Mode, Submitted};
use std::alloc::Global;

fn stop_text(stop: Stop) -> &'static str {
    match stop {
        Stop::Fault(FaultKind::DivideByZero) => "DivideByZero",
        Stop::Fault(FaultKind::OutsideMemory) => "OutsideMemory",
        Stop::Rule(_) => "rule",
    }
}

fn mode_text(mode: Mode) -> &'static str {
    match mode {
        Mode::Plain => "plain",
        Mode::Waiting => "waiting",
        Mode::Measuring => "measuring",
    }
}

fn mark_text(alloc: Global, kind: MarkKind) -> Result<String, NoMemory> {
    match kind {
        MarkKind::Start => Ok(String::from_str(alloc, "start")?),
        MarkKind::Finish => Ok(String::from_str(alloc, "finish")?),
        MarkKind::Barrier => Ok(String::from_str(alloc, "barrier")?),
        MarkKind::Wait(address) => Ok(format!(in alloc; "wait {address}")?),
        MarkKind::Started => Ok(String::from_str(alloc, "started")?),
    }
}

fn call_text(alloc: Global, call: &Submitted) -> Result<String, NoMemory> {
    let mut text = format!(in alloc; "submit {}", call.function)?;
    for argument in &call.arguments {
        let word = format!(in alloc; " {argument}")?;
        text.push_str(word.as_str())?;
    }
    for dimension in &call.dims {
        let word = format!(in alloc; " [{dimension}]")?;
        text.push_str(word.as_str())?;
    }
    Ok(text)
}

// What an event is.
pub(crate) fn text_of(alloc: Global, event: &Event) -> Result<String, NoMemory> {
    match event {
        Event::Out(printed, _) => {
            let mut text = String::from_str(alloc, "out ")?;
            for byte in printed.as_slice() {
                text.push(char::from(*byte))?;
            }
            Ok(text)
        }
        Event::In(_) => Ok(String::from_str(alloc, "in")?),
        Event::Malloc(size, _) => Ok(format!(in alloc; "malloc {size}")?),
        Event::Submit(call) => call_text(alloc, call),
        Event::Mark(kind, _) => mark_text(alloc, *kind),
        Event::Ended(cell, _) => {
            let number = cell.cast_signed();
            Ok(format!(in alloc; "ended {number}")?)
        }
        Event::Stopped(stop, mode, _) => {
            let what = stop_text(*stop);
            let place = mode_text(*mode);
            Ok(format!(in alloc; "{what} {place}")?)
        }
    }
}
