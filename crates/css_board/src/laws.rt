//! Laws of jobs. Each is what the contract of an empty function says.
ghost use Rattle.css_history.specs.Terms.{Terms};
ghost use Rattle.css_board.specs.Runs.{JobsRemain, JobsAreRun};

/// A job that a worker got stays one, whatever entries come.
pub fn jobs_remain()
    ensures { (b : Terms) → JobsRemain b }
{}

/// A job may be run over the values of its inputs, and what it comes to may be entered as its task's end.
pub fn jobs_are_run()
    ensures { (b : Terms) → JobsAreRun b }
{}
