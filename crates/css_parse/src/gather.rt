//! Gathering parts in order.
ghost use Rattle.std.specs.Prelude.{◌≡◌, List, [], ◌∷◌, ◌++◌, IfOk, IfErr, OnOk};

use crate::unspelled::Unspelled;
use std::alloc::Global;

/// Adds a part behind the others. The only error is `NoMemory`.
pub(crate) fn add<T: Drop>(parts: &mut Vec<T>, next: T) -> Result<(), Unspelled>
    ensures ok { OnOk result (parts.new.items ≡ parts.old.items ++ next ∷ []) }
    ensures no_memory { IfErr result (λ e. e ≡ Unspelled.NoMemory) }
{
    match parts.push(next) {
        Ok(()) => Ok(()),
        Err(_) => Err(Unspelled::NoMemory),
    }
}

/// A part on the heap. The only error is `NoMemory`.
pub(crate) fn boxed<T: Drop>(alloc: Global, part: T) -> Result<Box<T>, Unspelled>
    ensures ok { IfOk result (λ boxed. boxed.value ≡ part) }
    ensures no_memory { IfErr result (λ e. e ≡ Unspelled.NoMemory) }
{
    match Box::new(alloc, part) {
        Ok(boxed) => Ok(boxed),
        Err(_) => Err(Unspelled::NoMemory),
    }
}
