//! Sources of input.
ghost use Rattle.std.specs.Prelude.{◌≡◌, ◌+◌, ◌<◌, ◌≤◌, ◌↔◌, ℕ, List, [], Option, length, take, drop, Some, IfOk, IfSome, OnErr, min};
ghost use Rattle.css_io.specs.Outside.{Rose, Gives};

use crate::failed::Failed;

/// Where input comes from.
pub trait Source {
    /// The bytes left, where the source tells them.
    ghost left: { Self → Option (List ℕ) };

    /// The number of bytes taken so far.
    ghost taken: { Self → ℕ };

    /// The count of faults.
    ghost faults: { Self → ℕ };

    /// Moves the next bytes to the front of `part`, and gives their number. For a part that isn't empty it gives 0
    /// exactly where no byte is left. On `Failed` the count rose and no byte was taken.
    fn read(&mut self, part: &mut [u8]) -> Result<usize, Failed>
        ensures within { IfOk result (λ n. n ≤ length part.old) }
        ensures gives { IfOk result (λ n. Gives (left self.old) (left self.new) (take n part.new)) }
        ensures end { IfOk result (λ n. IfSome (left self.old) (λ bytes. 0 < length part.old → ((n ≡ 0) ↔ (bytes ≡ [])))) }
        ensures counts { IfOk result (λ n. taken self.new ≡ taken self.old + n) }
        ensures failed { OnErr result (Rose (faults self.old) (faults self.new)) }
        ensures kept { OnErr result ((left self.new ≡ left self.old) × (taken self.new ≡ taken self.old)) }
        ensures never_falls { faults self.old ≤ faults self.new };
}

/// Copies the front of these bytes to the front of a part, as many as both have, and gives their number.
pub(crate) fn copy_front(from: &[u8], part: &mut [u8]) -> usize
    ensures count { result ≡ min (length part.old) (length from.now) }
    ensures copied { take result part.new ≡ take result from.now }
{
    let count = part.len().min(from.len());
    part[..count].copy_from_slice(&from[..count]);
    count
}
