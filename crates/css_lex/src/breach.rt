//! Rules that a text breaks.
use css_base::{NoMemory, StaticName};
use std::alloc::{AllocError, AllocFailed};

/// A rule that is broken at a place of the text.
#[derive(Clone, Copy, PartialEq, Eq, Debug)]
pub struct Breach {
    pub name: StaticName,
    pub place: usize,
}

/// Why a part of a text gives no tokens.
#[derive(Clone, Copy)]
pub(crate) enum LexFault {
    /// A rule is broken.
    Breach(Breach),
    /// There was no memory.
    NoMemory,
}

impl From<AllocError> for LexFault {
    ghost use Rattle.std.specs.Prelude.{◌≡◌};
    ghost use Rattle.css_lex.specs.declared.breach.LexFault.TheVariants.{NoMemory};

    ghost from_gives = { λ _ fault. fault ≡ NoMemory };

    fn from(_error: AllocError) -> LexFault {
        LexFault::NoMemory
    }
}

impl<T: Drop> From<AllocFailed<T>> for LexFault {
    ghost use Rattle.std.specs.Prelude.{◌≡◌};
    ghost use Rattle.css_lex.specs.declared.breach.LexFault.TheVariants.{NoMemory};

    ghost from_gives = { λ _ fault. fault ≡ NoMemory };

    fn from(_error: AllocFailed<T>) -> LexFault {
        LexFault::NoMemory
    }
}

impl From<NoMemory> for LexFault {
    ghost use Rattle.std.specs.Prelude.{◌≡◌};
    ghost use Rattle.css_lex.specs.declared.breach.LexFault.TheVariants.{NoMemory};

    ghost from_gives = { λ _ fault. fault ≡ NoMemory };

    fn from(_error: NoMemory) -> LexFault {
        LexFault::NoMemory
    }
}
