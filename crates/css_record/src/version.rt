//! Versions of objects.

/// A version of an object.
#[derive(Clone, Copy, PartialEq, Eq)]
pub enum VersionName {
    /// The one at this place of the list that is given with a task.
    Given(u32),
    /// What a task makes of its writing parameter of this number, counted from 0 in order of parameters.
    Made { task: u64, out: u32 },
}
