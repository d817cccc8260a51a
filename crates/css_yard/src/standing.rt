//! How far a yard has come.
ghost use Rattle.std.specs.Prelude.{◌≡◌, true, false, None};
ghost use Rattle.css_yard.specs.Standings.{used, settled, refused_by, closed_by};

use crate::answer::YardAnswer;
use crate::done::Halt;

/// What a yard takes.
#[derive(Clone, Copy)]
pub enum Phase {
    /// Calls.
    Open,
    /// One settle alone, because a call was refused.
    Refused,
    /// Nothing, because a settle was refused, or a call before a settle.
    Closed,
}

/// What a yard takes, and what it has answered so far.
#[derive(Clone, Copy)]
pub struct Standing {
    pub phase: Phase,
    /// It has had a call.
    pub is_used: bool,
    /// A call wanted memory.
    pub is_starved: bool,
    /// What a settle answered where it stopped.
    pub stopped: Option<Halt>,
}

impl Standing {
    // Of a yard that has had no call.
    pub(crate) fn fresh() -> Standing
        ensures { result ≡ record { phase = Phase.Open; is_used = false; is_starved = false; stopped = None } }
    {
        Standing {
            phase: Phase::Open,
            is_used: false,
            is_starved: false,
            stopped: None,
        }
    }

    // After a call that gave its answer.
    pub(crate) fn used(self) -> Standing
        ensures { result ≡ used self }
    {
        Standing {
            is_used: true,
            ..self
        }
    }

    // After a settle that gave its answer.
    pub(crate) fn settled(self) -> Standing
        ensures { result ≡ settled self }
    {
        let phase = match self.phase {
            Phase::Open => Phase::Open,
            Phase::Refused => Phase::Closed,
            Phase::Closed => Phase::Closed,
        };
        Standing {
            phase,
            is_used: true,
            ..self
        }
    }

    // After a call that was refused.
    pub(crate) fn refused(self, answer: &YardAnswer) -> Standing
        ensures { result ≡ refused_by self answer.now }
    {
        let starved = match answer {
            YardAnswer::Stopped { .. } => self.is_starved,
            YardAnswer::NoMemory => true,
        };
        Standing {
            phase: Phase::Refused,
            is_used: true,
            is_starved: starved,
            ..self
        }
    }

    // After a settle that was refused.
    pub(crate) fn closed(self, answer: &YardAnswer) -> Standing
        ensures { result ≡ closed_by self answer.now }
    {
        let closed = Standing {
            phase: Phase::Closed,
            is_used: true,
            ..self
        };
        match answer {
            YardAnswer::Stopped { task, stop, line } => {
                let halt = Halt {
                    task: *task,
                    stop: *stop,
                    line: *line,
                };
                Standing {
                    stopped: Some(halt),
                    ..closed
                }
            }
            YardAnswer::NoMemory => Standing {
                is_starved: true,
                ..closed
            },
        }
    }
}
