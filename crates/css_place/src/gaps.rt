//! The gaps between the places out.
ghost use Rattle.std.specs.Prelude.{◌<◌, ℕ, IfSome, IfNone};
ghost use Rattle.css_place.specs.Places.{IsPlaced};
ghost use Rattle.css_place.specs.Holes.{HasRoom};
ghost use Rattle.css_place.specs.Gaps.{IsFirstGap};

use crate::stretch::Stretch;

/// A gap between places out, which are numbered from 0.
#[derive(Clone, Copy)]
pub(crate) struct Gap {
    /// The number of the place that ends it, or how many are out.
    pub index: usize,
    /// Its first address.
    pub start: u32,
}

/// The first gap that has so many bytes. None exactly where there is none.
pub(crate) fn first_gap(out: &[Stretch], size: u32, bytes: u64) -> Option<Gap>
    requires placed { IsPlaced (record { size = size; out = out.now }) }
    requires positive { 0 < bytes }
    ensures found { IfSome result (λ gap. IsFirstGap (record { size = size; out = out.now }) bytes gap) }
    ensures none { IfNone result ((start : ℕ) → ¬ HasRoom (record { size = size; out = out.now }) start bytes) }
{
    let mut start = 0;
    for (index, place) in out.iter().enumerate() {
        if bytes <= u64::from(place.start - start) {
            return Some(Gap { index, start });
        }
        start = place.start + place.length;
    }
    if bytes <= u64::from(size - start) {
        return Some(Gap {
            index: out.len(),
            start,
        });
    }
    None
}
