//! The kinds of a trace's lines, by their first words.

/// What a line is.
#[derive(Clone, Copy)]
pub(crate) enum Kind {
    /// The line with which a trace begins.
    Trace,
    /// The head of a generation's board.
    Board,
    /// The head of a worker's channel.
    Channel,
    /// The line with which a trace ends.
    End,
    /// An entry of a board.
    Entry(EntryKind),
    /// An entry of a channel.
    Transfer(TransferKind),
}

/// What an entry of a board is.
#[derive(Clone, Copy)]
pub(crate) enum EntryKind {
    Submit,
    Take,
    Finish,
    Stop,
    Back,
    Starved,
    Close,
}

/// What an entry of a channel is.
#[derive(Clone, Copy)]
pub(crate) enum TransferKind {
    Issue,
    Out,
    Finished,
    Collected,
}
