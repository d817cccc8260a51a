//! What the versions that a call reads are named.
ghost use Rattle.std.specs.Vec.Iter.{into_iter_items};
ghost use Rattle.std.specs.Prelude.{ℕ, List, Option, ◌≡◌, ◌<◌, ◌≤◌, ◌^◌, ◌++◌, [], ◌∷◌, length, IfOk, OnOk};
ghost use Rattle.css_arguments.specs.Arguments.{AreFit, AreWindows};
ghost use Rattle.css_objects.specs.Naming.{AreMakers, Rises, IsTaskAdded, bytes_in, names_in};

use crate::version::Held;
use css_base::{Buffer, NoMemory};
use css_record::{VersionName, Window};
use std::alloc::Global;
use std::vec::IntoIter;

/// What a call of a task reads and makes.
#[derive(Drop)]
pub struct Named {
    /// The windows of its arguments.
    pub windows: Vec<Window>,
    /// The names of the versions that it reads, in order.
    pub inputs: Vec<VersionName>,
    /// The bytes of those that are there, in order.
    pub given: Vec<Buffer>,
    /// For each argument whether it is written and its window was pending before.
    pub renamed: Vec<bool>,
    /// The tasks that made what it reads, in rising order.
    pub producers: Vec<u64>,
}

/// The names of versions: one whose bytes are there is named by its place among those.
pub(crate) fn names_of(alloc: Global, versions: &[Held]) -> Result<Vec<VersionName>, NoMemory>
    requires { length versions.now < 2 ^ 32 }
    ensures { IfOk result (λ names. names.items ≡ names_in 0 versions.now) }
{
    let mut names = Vec::new(alloc);
    let mut given: u32 = 0;
    for version in versions {
        match version {
            Held::Made { task, out } => names.push(VersionName::Made {
                task: *task,
                out: *out,
            })?,
            Held::Kept { bytes: _, by: _ } => {
                names.push(VersionName::Given(given))?;
                given += 1;
            }
        }
    }
    Ok(names)
}

/// The bytes of those versions that are there.
pub(crate) fn bytes_of(alloc: Global, versions: &[Held]) -> Result<Vec<Buffer>, NoMemory>
    ensures { IfOk result (λ given. given.items ≡ bytes_in versions.now) }
{
    let mut given = Vec::new(alloc);
    for version in versions {
        match version {
            Held::Made { task: _, out: _ } => {}
            Held::Kept { bytes, by: _ } => given.push(bytes.share()?)?,
        }
    }
    Ok(given)
}

/// The tasks that made versions, in rising order.
pub(crate) fn makers_of(alloc: Global, versions: &[Held]) -> Result<Vec<u64>, NoMemory>
    ensures { IfOk result (λ tasks. AreMakers versions.now tasks.items) }
{
    let mut tasks = Vec::new(alloc);
    for version in versions {
        match version.maker() {
            Some(task) => add_task(&mut tasks, task)?,
            None => {}
        }
    }
    Ok(tasks)
}

// Adds a task, if it isn't there.
fn add_task(tasks: &mut Vec<u64>, task: u64) -> Result<(), NoMemory>
    requires { Rises tasks.old.items }
    ensures { OnOk result (IsTaskAdded tasks.old.items task tasks.new.items) }
{
    match tasks.binary_search(&task) {
        Ok(_) => Ok(()),
        Err(place) => {
            tasks.insert(place, task)?;
            Ok(())
        }
    }
}

/// The next of some snapshots. None where none is left.
pub(crate) fn next_of(snapshots: &mut IntoIter<Option<Buffer>>) -> Option<Buffer>
    ensures { (s : Option (List ℕ)) (rest : List (Option (List ℕ))) → into_iter_items snapshots.old ≡ s ∷ rest → (result ≡ s) × (into_iter_items snapshots.new ≡ rest) }
{
    match snapshots.next() {
        Some(s) => s,
        None => None,
    }
}
