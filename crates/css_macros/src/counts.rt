//! How many tokens a text has, and how many macro names are replaced in it.
ghost use Rattle.std.specs.Prelude.{◌≡◌, ◌+◌, ◌≤◌, OnOk, IsErrOf};

use css_base::NoMemory;
use std::alloc::{AllocError, AllocFailed};

/// The most tokens of a text, and the most names that are replaced in it.
const MOST: u32 = 1_000_000;

/// Why a token isn't replaced.
#[derive(Clone, Copy)]
pub enum ExpansionFault {
    /// The tokens or the replaced names of the text pass 1,000,000.
    TooMany,
    /// There was no memory.
    NoMemory,
}

impl From<AllocError> for ExpansionFault {
    ghost use Rattle.std.specs.Prelude.{◌≡◌};
    ghost use Rattle.css_macros.specs.declared.counts.ExpansionFault.TheVariants.{NoMemory};

    ghost from_gives = { λ _ fault. fault ≡ NoMemory };

    fn from(_error: AllocError) -> ExpansionFault {
        ExpansionFault::NoMemory
    }
}

impl<T: Drop> From<AllocFailed<T>> for ExpansionFault {
    ghost use Rattle.std.specs.Prelude.{◌≡◌};
    ghost use Rattle.css_macros.specs.declared.counts.ExpansionFault.TheVariants.{NoMemory};

    ghost from_gives = { λ _ fault. fault ≡ NoMemory };

    fn from(_error: AllocFailed<T>) -> ExpansionFault {
        ExpansionFault::NoMemory
    }
}

impl From<NoMemory> for ExpansionFault {
    ghost use Rattle.std.specs.Prelude.{◌≡◌};
    ghost use Rattle.css_macros.specs.declared.counts.ExpansionFault.TheVariants.{NoMemory};

    ghost from_gives = { λ _ fault. fault ≡ NoMemory };

    fn from(_error: NoMemory) -> ExpansionFault {
        ExpansionFault::NoMemory
    }
}

/// How many tokens a text has so far, before strings are joined, and how many macro names were replaced in it.
#[derive(Drop)]
pub struct Counts {
    pub tokens: u32,
    pub names: u32,
    ghost few_tokens: { tokens ≤ 1000000 },
    ghost few_names: { names ≤ 1000000 },
}

impl Counts {
    /// The counts of no text.
    pub fn new() -> Counts
        ensures tokens { result.tokens ≡ 0 }
        ensures names { result.names ≡ 0 }
    {
        Counts {
            tokens: 0,
            names: 0,
        }
    }

    /// Counts one more token. `TooMany` comes exactly where there were 1,000,000, and then nothing is changed.
    pub fn count_token(&mut self) -> Result<(), ExpansionFault>
        ensures tokens { OnOk result (self.new.tokens ≡ self.old.tokens + 1) }
        ensures too_many { IsErrOf result ExpansionFault.TooMany → self.old.tokens ≡ 1000000 }
        ensures names { self.new.names ≡ self.old.names }
    {
        if self.tokens == MOST {
            return Err(ExpansionFault::TooMany);
        }
        self.tokens += 1;
        Ok(())
    }

    /// Counts one more name that is replaced. `TooMany` comes exactly where there were 1,000,000, and then nothing is
    /// changed.
    pub(crate) fn count_name(&mut self) -> Result<(), ExpansionFault>
        ensures names { OnOk result (self.new.names ≡ self.old.names + 1) }
        ensures too_many { IsErrOf result ExpansionFault.TooMany → self.old.names ≡ 1000000 }
        ensures tokens { self.new.tokens ≡ self.old.tokens }
    {
        if self.names == MOST {
            return Err(ExpansionFault::TooMany);
        }
        self.names += 1;
        Ok(())
    }
}
