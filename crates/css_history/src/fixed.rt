//! What no entry of a board changes.
use css_base::Limits;
use css_vm::Code;
use std::sync::Arc;

/// The number of a board's first task, the code whose tasks it has, and the limits.
#[derive(Drop)]
pub struct Fixed {
    pub first: u64,
    pub code: Arc<Code>,
    pub limits: Limits,
}
