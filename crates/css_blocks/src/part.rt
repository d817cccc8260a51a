//! Structured code as a tree, which keeps its sizes.

use css_base::Line;
use css_isa::Op;

/// A way out of a loop's body.
#[derive(Clone, Copy, PartialEq, Eq, Debug)]
pub enum Way {
    Breaks,
    Continues,
}

/// The places where the ways out lead.
#[derive(Clone, Copy)]
pub struct Targets {
    pub breaks: u32,
    pub continues: u32,
}

/// A part of the code. Before each part that stands inside of another one is how many instructions it makes.
pub enum Part {
    /// One after another.
    Row(Vec<Part>),
    /// An instruction that goes on at the next place.
    Do(Line, Op),
    /// Takes the top: the second part at 0, and else the first.
    Choice(Line, u32, Box<Part>, u32, Box<Part>),
    /// Takes the top: nothing at 0, and else the part.
    When(Line, u32, Box<Part>),
    /// Again and again: the first part, a turn, the second part. It is left by a way out alone.
    Loop(Line, u32, Box<Part>, u32, Box<Part>),
    /// This way out of the part leads to its end.
    Catch(Way, u32, Box<Part>),
    /// Goes this way out.
    Exit(Line, Way),
    /// Takes the top, and goes this way out at 0.
    Unless(Line, Way),
    /// Calls the function of this number with so many arguments.
    Invoke(Line, u32, u32),
    /// Calls the task of this number with so many arguments and, above them, so many dimensions.
    Submit(Line, u32, u32, u32),
    /// Leaves the function with the top.
    Leave(Line),
}

// By hand, so that a place that lets a part go is one call in its proof.
impl Drop for Part {
    fn drop(self) {
        match self {
            Part::Row(_) => {}
            Part::Do(_, _) => {}
            Part::Choice(_, _, _, _, _) => {}
            Part::When(_, _, _) => {}
            Part::Loop(_, _, _, _, _) => {}
            Part::Catch(_, _, _) => {}
            Part::Exit(_, _) => {}
            Part::Unless(_, _) => {}
            Part::Invoke(_, _, _) => {}
            Part::Submit(_, _, _, _) => {}
            Part::Leave(_) => {}
        }
    }
}
