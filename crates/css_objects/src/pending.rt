//! Pending objects as they are lent from the table.
use css_base::Buffer;
use css_record::Window;

/// The current version of an object.
#[derive(Drop)]
pub enum Version<'a> {
    /// What a task makes of its writing parameter of this number.
    Made { task: u64, out: u32 },
    /// Bytes that are there.
    Kept(&'a Buffer),
}

/// A pending object.
#[derive(Drop)]
pub struct Pending<'a> {
    pub window: Window,
    /// Whether a task may write it.
    pub written: bool,
    pub version: Version<'a>,
}

/// How a window stands to the pending objects.
#[derive(Drop)]
pub enum Probe<'a> {
    /// None shares a byte with it.
    Nothing,
    /// One is equal to it.
    Same(Pending<'a>),
    /// One shares a byte with it and none is equal: of those that do, the one of greatest base.
    Crosses(Window),
}
