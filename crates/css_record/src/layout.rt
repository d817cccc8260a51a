//! Where main's live bytes stand.

/// The addresses at which the parts of main's memory begin and end.
#[derive(Clone, Copy, PartialEq, Eq)]
pub struct Layout {
    /// Behind the last global.
    pub globals_end: u32,
    pub heap_start: u32,
    /// Behind the last byte of the heap.
    pub heap_top: u32,
    /// The stack's first byte.
    pub stack_place: u32,
    /// Behind the last byte of the memory.
    pub end: u32,
}
