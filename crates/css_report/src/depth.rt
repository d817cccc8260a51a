//! How long the longest chain of tasks is.
ghost use Rattle.std.specs.Prelude.{◌≤◌, IfOk, All, length, map};
ghost use Rattle.css_report.specs.Depth.{IsDepth, IsMost, depths_at};

use css_base::NoMemory;
use css_record::Call;
use std::alloc::Global;

/// How many tasks the longest chain has in which each reads what the one before made. The only error is want of memory.
pub(crate) fn depth_of(alloc: Global, calls: &[Call]) -> Result<u64, NoMemory>
    ensures { IfOk result (λ depth. IsDepth (map (λ c. c.producers.items) calls.now) depth) }
{
    // Of each task so far, how many tasks the longest chain has that ends with it.
    let mut depths: Vec<u64> = Vec::new(alloc);
    let mut greatest: u64 = 0;
    for call in calls {
        let depth = deepest(&depths, &call.producers) + 1;
        depths.push(depth)?;
        greatest = greatest.max(depth);
    }
    Ok(greatest)
}

/// The greatest of the depths at some places, or 0.
fn deepest(depths: &[u64], places: &[u64]) -> u64
    requires bounded { All (λ depth. depth ≤ length depths.now) depths.now }
    ensures is { IsMost (depths_at depths.now places.now) result }
    ensures bounded { result ≤ length depths.now }
{
    let mut most: u64 = 0;
    for place in places {
        let depth = depths.get(*place as usize).copied().unwrap_or(0);
        most = most.max(depth);
    }
    most
}
