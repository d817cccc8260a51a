//! Why a part of a tree has no meaning.
ghost use Rattle.std.specs.Prelude.{◌≡◌};
ghost use Rattle.css_operands.specs.declared.refusal.Refusal.TheVariants.{NoMemory as OutOfMemory};

use css_base::{Line, NoMemory, StaticFault, StaticName};

/// Why a construct has no meaning.
#[derive(Clone, Copy, PartialEq, Eq, Debug)]
pub enum Refusal {
    /// It breaks a static rule.
    Broken(StaticFault),
    /// There was no memory.
    NoMemory,
}

impl From<NoMemory> for Refusal {
    ghost from_gives = { λ _ e. e ≡ OutOfMemory };

    fn from(_error: NoMemory) -> Refusal {
        Refusal::NoMemory
    }
}

/// A broken rule, with its line.
pub fn broken(name: StaticName, line: Line) -> Refusal
    ensures { result ≡ Refusal.Broken (record { name = name; line = line }) }
{
    Refusal::Broken(StaticFault { name, line })
}
