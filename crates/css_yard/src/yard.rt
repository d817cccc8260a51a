//! What every yard promises.
ghost use Rattle.std.specs.Prelude.{◌≡◌, ℕ, true, [], All, IfOk, IfErr, OnOk};
ghost use Rattle.css_yard.specs.Values.{IsValue, AreValues};
ghost use Rattle.css_yard.specs.Yards.{Open, CanFetch, MaySubmit, IfRefused, IfNotSettled, Submitted, Settled, TakesSettle, NoneStops};

use crate::answer::YardAnswer;
use css_base::{Buffer, Line};
use css_record::{TaskRecord, VersionName};
use std::alloc::Global;

/// A yard runs tasks. Between two settles stands a generation. Nothing is said of when a task runs, or beside which others.
///
/// A fixed part, and the list of all calls where a yard tells it, are to be added with the yard that keeps them.
pub trait Yard {
    ghost use Rattle.css_base.specs.declared.limits.Limits.{Limits};
    ghost use Rattle.css_vm.specs.Code.{Code};
    ghost use Rattle.css_yard.specs.Yards.{State};

    /// The code whose tasks it runs.
    ghost code: { Self → Code };

    /// The limits: the units of each task, and the bytes of a local store.
    ghost limits: { Self → Limits };

    /// What it has come to.
    ghost state: { Self → State };

    /// Submits a task with the buffers that its record names as given. The only refusal is `NoMemory`.
    fn submit(
        &mut self,
        alloc: Global,
        rec: TaskRecord,
        given: Vec<Buffer>,
    ) -> Result<(), YardAnswer>
        requires open { (state self.old).phase ≡ Open }
        requires may { MaySubmit (code self.old) (limits self.old) (state self.old).submits rec given.items }
        ensures submitted { OnOk result (Submitted (state self.old) rec given.items (state self.new)) }
        ensures refused { IfErr result (λ e. IfRefused (code self.old) (limits self.old).task_units (state self.old) (state self.new) e) }
        ensures only_memory { IfErr result (λ e. e ≡ YardAnswer.NoMemory) }
        ensures kept { (code self.new ≡ code self.old) × (limits self.new ≡ limits self.old) };

    /// The value of a version that a task of this generation makes. `Stopped` names the first task of the generation that stops.
    fn fetch(
        &mut self,
        alloc: Global,
        version: VersionName,
        line: Line,
    ) -> Result<Buffer, YardAnswer>
        requires open { (state self.old).phase ≡ Open }
        requires may { CanFetch (code self.old) (state self.old).submits version }
        ensures value { IfOk result (λ bytes. IsValue (code self.old) (limits self.old).task_units (state self.old).submits [] version bytes) }
        ensures as_it_was { OnOk result (state self.new ≡ record (state self.old) { is_used = true }) }
        ensures refused { IfErr result (λ e. IfRefused (code self.old) (limits self.old).task_units (state self.old) (state self.new) e) }
        ensures kept { (code self.new ≡ code self.old) × (limits self.new ≡ limits self.old) };

    /// Ends the generation, once all its tasks have run, and gives the values of some versions, in order. `Stopped` names the first
    /// task that stops, and there is none where it gives values. Nothing is taken behind a settle that is refused, or that follows a
    /// refused call.
    fn settle(&mut self, alloc: Global, keep: &[VersionName]) -> Result<Vec<Buffer>, YardAnswer>
        requires takes { TakesSettle (state self.old).phase }
        requires may { All (CanFetch (code self.old) (state self.old).submits) keep.now }
        ensures values { IfOk result (λ values. AreValues (code self.old) (limits self.old).task_units (state self.old).submits [] keep.now values.items) }
        ensures none_stops { OnOk result (NoneStops (code self.old) (limits self.old).task_units (state self.old).submits) }
        ensures settled { OnOk result (Settled (state self.old) (state self.new)) }
        ensures refused { IfErr result (λ e. IfNotSettled (code self.old) (limits self.old).task_units (state self.old) (state self.new) e) }
        ensures kept { (code self.new ≡ code self.old) × (limits self.new ≡ limits self.old) };
}
