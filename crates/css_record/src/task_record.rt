//! Records of tasks.
use crate::version::VersionName;
use crate::window::Window;
use css_base::Line;

/// A task: a call that was made one.
#[derive(Drop)]
pub struct TaskRecord {
    /// Tasks are numbered from 0 in order of their calls.
    pub number: u64,
    /// The number of its function.
    pub function: u32,
    /// Its integers in order of parameters.
    pub scalars: Vec<u64>,
    /// Its windows in order of parameters.
    pub windows: Vec<Window>,
    /// Main's stack place at the call.
    pub stack_place: u32,
    /// The versions that its reading parameters have, in order.
    pub inputs: Vec<VersionName>,
    /// Whether it goes before others.
    pub high: bool,
    /// The line of the call.
    pub line: Line,
}
