//! Why words have no reading.
ghost use Rattle.std.specs.Prelude.{◌≡◌};
ghost use Rattle.css_words.specs.declared.fault.WordsFault.TheVariants.{NoMemory};

use thiserror::Error;

/// Why there is no request.
#[derive(Clone, Copy, PartialEq, Eq, Debug, Error)]
pub enum WordsFault {
    /// The words ask for nothing that the program has.
    #[error("words refused")]
    Refused,
    /// There was no memory.
    #[error("no memory")]
    NoMemory,
}

impl From<css_base::NoMemory> for WordsFault {
    ghost from_gives = { λ _ fault. fault ≡ NoMemory };

    fn from(_want: css_base::NoMemory) -> WordsFault {
        WordsFault::NoMemory
    }
}
