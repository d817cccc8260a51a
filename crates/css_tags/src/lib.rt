//! Blocks of a local store, groups of transfers, and the channel of tags between a worker and its mover.
#![tactic(auto)]

mod block;
mod channel;
mod copies;
mod entry;
mod group;
mod item;
pub mod laws;
mod piece;
mod slot;
mod staged;
mod transfer;

pub use block::Block;
pub use channel::{Channel, IssueRefused, NotYet};
pub use entry::{ChannelEntry, Step};
pub use group::Group;
pub use item::Item;
pub use staged::Staged;
