//! Versions of objects.
ghost use Rattle.std.specs.Prelude.{◌≡◌, ◌++◌, is_some, OnOk, IfOk};
ghost use Rattle.std.specs.Vec.Iter.{into_iter_items};
ghost use Rattle.css_objects.specs.Table.{maker};
ghost use Rattle.css_objects.specs.Versions.{made_in, kept_first, left_by, kept_in, left_in};

use css_base::{Buffer, NoMemory};
use css_record::VersionName;
use std::vec::IntoIter;

/// The current version of an object.
#[derive(Drop)]
pub enum Held {
    /// What a task makes of its writing parameter of this number.
    Made { task: u64, out: u32 },
    /// Bytes that are there, with the task that made them, if one did.
    Kept { bytes: Buffer, by: Option<u64> },
}

impl Held {
    /// Whether a task made it.
    pub fn has_maker(&self) -> bool
        ensures { result ≡ is_some (maker self.now) }
    {
        match self {
            Held::Made { task: _, out: _ } => true,
            Held::Kept { bytes: _, by } => by.is_some(),
        }
    }

    /// The task that made it, if one did.
    pub(crate) fn maker(&self) -> Option<u64>
        ensures { result ≡ maker self.now }
    {
        match self {
            Held::Made { task, out: _ } => Some(*task),
            Held::Kept { bytes: _, by } => *by,
        }
    }

    /// The same version, whose bytes aren't copied.
    pub(crate) fn share(&self) -> Result<Held, NoMemory>
        ensures { IfOk result (λ v. v ≡ self.now) }
    {
        match self {
            Held::Made { task, out } => Ok(Held::Made {
                task: *task,
                out: *out,
            }),
            Held::Kept { bytes, by } => Ok(Held::Kept {
                bytes: bytes.share()?,
                by: *by,
            }),
        }
    }

    // Puts the next of some buffers in its place, if a task makes it.
    fn keep(&mut self, kept: &mut IntoIter<Buffer>)
        ensures version { self.new ≡ kept_first self.old (into_iter_items kept.old) }
        ensures rest { into_iter_items kept.new ≡ left_by self.old (into_iter_items kept.old) }
    {
        let task = match self {
            Held::Made { task, out: _ } => *task,
            Held::Kept { bytes: _, by: _ } => return,
        };
        match kept.next() {
            Some(bytes) => {
                *self = Held::Kept {
                    bytes,
                    by: Some(task),
                }
            }
            None => {}
        }
    }
}

/// Appends the names of the versions that tasks make. `NoMemory` may leave some of them appended.
pub(crate) fn add_made(versions: &[Held], names: &mut Vec<VersionName>) -> Result<(), NoMemory>
    ensures { OnOk result (names.new.items ≡ names.old.items ++ made_in versions.now) }
{
    for version in versions {
        match version {
            Held::Made { task, out } => names.push(VersionName::Made {
                task: *task,
                out: *out,
            })?,
            Held::Kept { bytes: _, by: _ } => {}
        }
    }
    Ok(())
}

/// Puts buffers in the places of the versions that tasks make, one after another.
pub(crate) fn keep_all(versions: &mut [Held], kept: &mut IntoIter<Buffer>)
    ensures versions { versions.new ≡ kept_in versions.old (into_iter_items kept.old) }
    ensures rest { into_iter_items kept.new ≡ left_in versions.old (into_iter_items kept.old) }
{
    for place in 0..versions.len() {
        versions[place].keep(kept);
    }
}
