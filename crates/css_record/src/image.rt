//! Heads of images.
use css_base::Line;

/// Where an image of memory is made.
#[derive(Clone, Copy, PartialEq, Eq, Debug)]
pub enum ImageKind {
    Barrier,
    Finish,
    Wait,
}

/// What stands before an image's bytes.
#[derive(Clone, Copy, PartialEq, Eq)]
pub struct ImageHead {
    pub kind: ImageKind,
    pub line: Line,
    /// The address that was waited for, else 0.
    pub address: u32,
}
