//! The windows of a call's arguments.
ghost use Rattle.std.specs.Prelude.{◌≡◌, ◌<◌, length, slice_get, Some, IfOk};
ghost use Rattle.css_arguments.specs.declared.argument.Argument as code;
ghost use Rattle.css_arguments.specs.Arguments.{AreFit, IsWindowOf, AreWindows};

use crate::argument::Argument;
use css_base::NoMemory;
use css_record::Window;
use std::alloc::Global;

/// The window of an argument whose dimensions are fit.
pub fn window_at(arguments: &[Argument], place: usize) -> Window
    requires place { place < length arguments.now }
    requires fit { AreFit arguments.now }
    ensures value { (a : code.Argument) → slice_get arguments.now place ≡ Some a → IsWindowOf a result }
{
    match arguments[place].window() {
        Some(w) => w,
        None => unreachable!(),
    }
}

/// The windows of arguments.
pub fn windows_of(alloc: Global, arguments: &[Argument]) -> Result<Vec<Window>, NoMemory>
    requires { AreFit arguments.now }
    ensures { IfOk result (λ windows. AreWindows arguments.now windows.items) }
{
    let mut windows = Vec::new(alloc);
    for place in 0..arguments.len() {
        windows.push(window_at(arguments, place))?;
    }
    Ok(windows)
}
