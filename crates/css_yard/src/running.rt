//! The run of a task that is submitted.
ghost use Rattle.std.specs.Prelude.{◌≡◌, ◌++◌, ◌∷◌, [], List, IfOk};
ghost use Rattle.css_vm.specs.Code.{code_of};
ghost use Rattle.css_vm.specs.Soundness.{Spot, IsSound};
ghost use Rattle.css_yard.specs.Yards.{MaySubmit};
ghost use Rattle.css_yard.specs.Kept.{submit_of, submits_of, CameTo, AreDone};

use crate::done::{Done, share_values};
use css_base::{Buffer, Limits, NoMemory};
use css_record::TaskRecord;
use css_task::{SharedEnd, run_shared};
use css_vm::Code;
use std::alloc::Global;
use std::snapshot::Snapshot;

// Runs a task behind those that have run, over the values of its inputs. None where one isn't there, because a task before it
// stopped.
fn run_behind(
    alloc: Global,
    code: &Code,
    limits: &Limits,
    tasks: &[Done],
    rec: &TaskRecord,
    given: &[Buffer],
) -> Result<Option<SharedEnd>, NoMemory>
    requires sound { (plans : List (List Spot)) × IsSound (code_of code.now) plans }
    requires done { AreDone (code_of code.now) limits.now tasks.now }
    requires may { MaySubmit (code_of code.now) limits.now (submits_of tasks.now) rec.now given.now }
    ensures { IfOk result (λ end. CameTo (code_of code.now) limits.now.task_units tasks.now rec.now given.now end) }
{
    match share_values(alloc, tasks, given, rec.inputs.as_slice())? {
        Some(inputs) => Ok(Some(run_shared(
            alloc,
            code,
            rec,
            inputs.as_slice(),
            limits.task_units,
        )?)),
        None => Ok(None),
    }
}

// The same with what is kept of it.
pub(crate) fn run_task(
    alloc: Global,
    code: &Code,
    limits: &Limits,
    tasks: &[Done],
    rec: &TaskRecord,
    given: &Vec<Buffer>,
) -> Result<Done, NoMemory>
    requires sound { (plans : List (List Spot)) × IsSound (code_of code.now) plans }
    requires done { AreDone (code_of code.now) limits.now tasks.now }
    requires may { MaySubmit (code_of code.now) limits.now (submits_of tasks.now) rec.now given.now.items }
    ensures is { IfOk result (λ d. submit_of d ≡ record { rec = rec.now; given = given.now.items }) }
    ensures done { IfOk result (λ d. AreDone (code_of code.now) limits.now (tasks.now ++ d ∷ [])) }
{
    let end = run_behind(alloc, code, limits, tasks, rec, given.as_slice())?;
    Ok(Done {
        number: rec.number,
        rec: Snapshot::of(rec),
        given: Snapshot::of(given),
        end,
    })
}
