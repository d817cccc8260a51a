//! What has become of a task.
ghost use Rattle.std.specs.Prelude.{◌≡◌};
ghost use Rattle.css_graph.specs.Tasks.{is_waiting, is_out, is_finished};

/// What has become of an added task.
#[derive(Clone, Copy, PartialEq, Eq, Debug)]
pub enum TaskState {
    /// It is neither out, finished nor stopped.
    Waiting,
    /// It was taken in a bundle.
    Out,
    /// It was taken, and has ended well.
    Finished,
    /// It was taken, and has stopped.
    Stopped,
}

impl TaskState {
    /// Whether it is `Waiting`.
    pub(crate) fn is_waiting(self) -> bool
        ensures { result ≡ is_waiting self }
    {
        matches!(self, TaskState::Waiting)
    }

    /// Whether it is `Out`.
    pub(crate) fn is_out(self) -> bool
        ensures { result ≡ is_out self }
    {
        matches!(self, TaskState::Out)
    }

    /// Whether it is `Finished`.
    pub(crate) fn is_finished(self) -> bool
        ensures { result ≡ is_finished self }
    {
        matches!(self, TaskState::Finished)
    }
}
