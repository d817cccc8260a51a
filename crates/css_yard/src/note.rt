//! The records of all submits, which contracts alone see.
use css_record::TaskRecord;
use std::snapshot::Snapshot;

/// The record of a submit, and whether it is the first one since a settle. It has no bytes.
#[derive(Drop)]
pub struct Note {
    pub is_first: Snapshot<bool>,
    pub rec: Snapshot<TaskRecord>,
}
