//! The frames behind which an operand is read.
ghost use Rattle.std.specs.Prelude.{◌≡◌, []};
ghost use Rattle.css_pexpr.specs.Frames.{open_frames};
ghost use Rattle.css_pexpr.specs.Shapes.{onto};

use crate::frame::Frame;
use css_base::Line;
use std::alloc::{AllocError, Global};

/// Frames, of which the last one is next.
#[derive(Drop)]
pub(crate) struct Stack {
    pub frames: Vec<Frame>,
    /// How many of them have to be closed.
    pub unclosed: usize,
    ghost counted: { unclosed ≡ open_frames (onto frames.items []) },
}

impl Stack {
    ghost use Rattle.std.specs.Prelude.{◌≡◌, [], ◌∷◌, OnOk, IfSome, IfNone};
    ghost use Rattle.css_pexpr.specs.Frames.{is_closed, wanted, last_sizeof};
    ghost use Rattle.css_pexpr.specs.Reading.{takes_type};
    ghost use Rattle.css_pexpr.specs.Shapes.{frame};
    ghost use Rattle.css_pexpr.specs.Stacks.{stack};

    /// No frames. Takes no memory.
    pub(crate) fn new(alloc: Global) -> Stack
        ensures { stack result ≡ [] }
    {
        Stack {
            frames: Vec::new(alloc),
            unclosed: 0,
        }
    }

    /// Whether nothing has to be closed.
    pub(crate) fn is_closed(&self) -> bool
        ensures { result ≡ is_closed (stack self.now) }
    {
        self.unclosed == 0
    }

    /// One more frame.
    pub(crate) fn push(&mut self, next: Frame) -> Result<(), AllocError>
        ensures { OnOk result (stack self.new ≡ frame next ∷ stack self.old) }
    {
        let opens = next.is_open();
        self.frames.push(next)?;
        let count = self.frames.len();
        if opens {
            prove!(self.unclosed < count);
            self.unclosed += 1;
        }
        Ok(())
    }

    /// Takes the last frame.
    pub(crate) fn pop(&mut self) -> Option<Frame>
        ensures some { IfSome result (λ f. stack self.old ≡ frame f ∷ stack self.new) }
        ensures none { IfNone result ((stack self.old ≡ []) × (stack self.new ≡ [])) }
    {
        let last = self.frames.pop()?;
        if last.is_open() {
            self.unclosed -= 1;
        }
        Some(last)
    }

    /// The loosest level that is wanted behind the frames, and where there is none.
    pub(crate) fn wanted(&self, level: u8) -> u8
        ensures { result ≡ wanted level (stack self.now) }
    {
        match self.frames.last() {
            Some(last) => last.wanted(),
            None => level,
        }
    }

    /// The line of the last frame, if it is that of `sizeof`.
    pub(crate) fn last_sizeof(&self) -> Option<Line>
        ensures { result ≡ last_sizeof (stack self.now) }
    {
        match self.frames.last() {
            Some(last) => last.sizeof_line(),
            None => None,
        }
    }

    /// Whether a type may stand here: in a cast, or behind `sizeof`.
    pub(crate) fn takes_type(&self, level: u8) -> bool
        ensures { result ≡ takes_type level (stack self.now) }
    {
        self.last_sizeof().is_some() || self.wanted(level) <= 13
    }
}
