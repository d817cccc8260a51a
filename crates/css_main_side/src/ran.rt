//! How main's run ends.

use css_base::Ending;

/// How main's run ends.
#[derive(Drop)]
pub enum Ran {
    /// With a result, or at a fault or a rule.
    Ended(Ending),
    /// The sink failed.
    WriteFault,
    /// There was no memory.
    NoMemory,
}
