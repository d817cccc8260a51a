//! Bytes over others.
ghost use Rattle.std.specs.Prelude.{◌≡◌, ◌<◌, ◌^◌, min};
ghost use Rattle.css_semantics.specs.Memory.{overlaid};

/// Writes bytes that begin at one address over those that begin at another, as far as they meet.
pub(crate) fn overlay(bytes: &mut [u8], first: usize, address: usize, new: &[u8])
    requires { min first address < 2 ^ 62 }
    ensures { bytes.new ≡ overlaid first bytes.old address new.now }
{
    let from = first.max(address);
    let to = first
        .saturating_add(bytes.len())
        .min(address.saturating_add(new.len()));
    if from < to {
        bytes[from - first..to - first].copy_from_slice(&new[from - address..to - address]);
    }
}
