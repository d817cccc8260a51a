//! Stretches of a local store.
ghost use Rattle.std.specs.Prelude.{◌≡◌, Contains, slice_get};

/// Addresses of a local store in a row. Contracts see a place as one.
#[derive(Clone, Copy, PartialEq, Eq, Default)]
pub struct Stretch {
    /// The first address.
    pub start: u32,
    /// How many addresses, which are bytes.
    pub length: u32,
}

/// The number, from 0, of a stretch among some.
pub(crate) fn number_of(stretches: &[Stretch], stretch: Stretch) -> usize
    requires { Contains stretches.now stretch }
    ensures { slice_get stretches.now result ≡ Some stretch }
{
    stretches
        .iter()
        .position(|other| *other == stretch)
        .unwrap()
}
