//! Gathering parts in order.
ghost use Rattle.std.specs.Prelude.{◌≡◌, [], ◌∷◌, ◌++◌, IfErr, OnOk};

use crate::unread::Unread;

/// Adds a part behind the others. The only error is `NoMemory`.
pub(crate) fn add<T: Drop>(parts: &mut Vec<T>, next: T) -> Result<(), Unread>
    ensures ok { OnOk result (parts.new.items ≡ parts.old.items ++ next ∷ []) }
    ensures no_memory { IfErr result (λ e. e ≡ Unread.NoMemory) }
{
    match parts.push(next) {
        Ok(()) => Ok(()),
        Err(_) => Err(Unread::NoMemory),
    }
}
