//! What a trace shows of a channel.

/// One entry of a channel's history, as a trace shows it.
#[derive(Clone, Copy, PartialEq, Eq)]
pub enum ChannelLine {
    /// A group of transfers of so many bytes was issued on a tag.
    Issue { tag: u32, length: u64 },
    /// The mover took the tag's group.
    Out { tag: u32 },
    /// The tag's transfers are complete.
    Finished { tag: u32 },
    /// The tag's group was collected.
    Collected { tag: u32 },
}
