//! The limits of a run.
ghost use Rattle.std.specs.Prelude.{◌≡◌, ◌↔◌, IsTrue};

use std::default::Default;

/// What a run may use. The ranges, which `is_in_range` tests, are conditions of each call that takes limits.
#[derive(Clone, Copy, PartialEq, Eq)]
pub struct Limits {
    /// Worker threads, 1 to 16.
    pub workers: u32,
    /// The most tasks that a worker takes at once, 1 to 8.
    pub bundle: u32,
    /// Bytes of each worker's local store, 32,768 to 1,048,576, a multiple of 128.
    pub local_store: u32,
    /// Bytes of main's flat memory, 2,097,152 to 268,435,456.
    pub memory: u32,
    /// Units of main: function entries and entries of loop bodies, 1 to 2^40.
    pub main_units: u64,
    /// Units of each task call, 1 to 2^40.
    pub task_units: u64,
}

impl Limits {
    ghost use Rattle.css_base.specs.Limits.{IsInRange};

    /// The limits where no option says otherwise.
    pub const DEFAULT: Limits = Limits {
        workers: 8,
        bundle: 8,
        local_store: 262_144,
        memory: 16_777_216,
        main_units: 4_294_967_296,
        task_units: 268_435_456,
    };

    /// Whether each limit is in its range.
    pub fn is_in_range(&self) -> bool
        ensures { IsTrue result ↔ IsInRange self.now }
    {
        1 <= self.workers
            && self.workers <= 16
            && 1 <= self.bundle
            && self.bundle <= 8
            && 32_768 <= self.local_store
            && self.local_store <= 1_048_576
            && self.local_store % 128 == 0
            && 2_097_152 <= self.memory
            && self.memory <= 268_435_456
            && 1 <= self.main_units
            && self.main_units <= 1_099_511_627_776
            && 1 <= self.task_units
            && self.task_units <= 1_099_511_627_776
    }
}
