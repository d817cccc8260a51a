//! The status of a run's ending.
ghost use Rattle.std.specs.Prelude.{◌≡◌};
ghost use Rattle.css_driver.specs.Answer.{ending_status};

use css_base::{Ending, Stop};

/// The status of an ending.
pub fn ending_status(ending: &Ending) -> u8
    ensures { result ≡ ending_status ending.now }
{
    match ending {
        Ending::Result(0) => 0,
        Ending::Result(_) => 1,
        Ending::Stopped {
            stop: Stop::Fault(_),
            ..
        } => 4,
        Ending::Stopped {
            stop: Stop::Rule(_),
            ..
        } => 5,
    }
}
