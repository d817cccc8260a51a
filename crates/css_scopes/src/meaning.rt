//! What a name means.

/// Where an object lies.
#[derive(Clone, Copy, PartialEq, Eq)]
pub enum Where {
    /// So many bytes into its function's frame.
    InFrame(u32),
    AtAddress(u32),
}

/// What a name means (C99 6.2.1), where `T` is a type.
#[derive(Drop)]
pub enum Meaning<T> {
    /// An object.
    Object {
        t: T,
        place: Where,
    },
    /// In a directive, the parameter of this number, whose value the task is given.
    Parameter {
        t: T,
        k: u32,
    },
    /// A function, with its number where it is defined somewhere in the text.
    Function {
        number: Option<u32>,
        parameters: Vec<T>,
        result: T,
    },
}
