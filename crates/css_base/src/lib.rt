//! The types that every crate of the compiler and runtime shares.
#![tactic(auto)]

mod buffer;
mod bytes;
mod channel;
mod direction;
mod ending;
mod int_type;
mod limits;
mod line;
mod memory;
mod rule;
mod static_fault;
mod token;
mod words;

pub use buffer::Buffer;
pub use bytes::Bytes;
pub use channel::ChannelLine;
pub use direction::Direction;
pub use ending::{Ending, FaultKind, Stop, Who};
pub use int_type::IntType;
pub use limits::Limits;
pub use line::Line;
pub use memory::NoMemory;
pub use rule::Rule;
pub use static_fault::{FrontFault, StaticFault, StaticName};
pub use token::{Token, TokenKind, Tokens};
pub use words::Words;
