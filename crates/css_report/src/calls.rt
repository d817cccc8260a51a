//! The calls that a report speaks of.
use css_record::Call;
use css_traces::Name;
use css_vm::Code;

/// The calls of tasks that are shown, in order: tasks are numbered from 0, and each reads what tasks of lower numbers made.
#[derive(Clone, Copy)]
pub struct CallList<'a> {
    /// The code whose tasks are called.
    pub code: &'a Code,
    /// The name of each function of the code, in order.
    pub names: &'a [Name],
    pub calls: &'a [Call],
}
