//! Why a yard has no answer.
ghost use Rattle.std.specs.Prelude.{◌≡◌};
ghost use Rattle.css_yard.specs.declared.answer.YardAnswer.TheVariants.{NoMemory as no_memory};

use css_base::{Line, NoMemory, Stop};

/// Why a call of a yard gives nothing.
#[derive(Drop, Debug)]
pub enum YardAnswer {
    /// The first task, in order of their numbers, that stops; and where it does.
    Stopped { task: u64, stop: Stop, line: Line },
    /// There was no memory.
    NoMemory,
}

impl From<NoMemory> for YardAnswer {
    ghost from_gives = { λ _ answer. answer ≡ no_memory };

    fn from(_error: NoMemory) -> YardAnswer {
        YardAnswer::NoMemory
    }
}
