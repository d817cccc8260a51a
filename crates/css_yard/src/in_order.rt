//! The yard that runs each task when it is submitted.
ghost use Rattle.std.specs.Prelude.{◌≡◌, ◌++◌, ◌∷◌, [], List, Some, None, IsOk, IfOk, IfErr, OnOk, OnErr};
ghost use Rattle.css_base.specs.Limits.{IsInRange};
ghost use Rattle.css_vm.specs.Code.{code_of};
ghost use Rattle.css_vm.specs.Soundness.{Spot, IsSound};
ghost use Rattle.css_yard.specs.Yards.{MaySubmit, fresh, is_empty, with_record};
ghost use Rattle.css_yard.specs.Kept.{submits_of, value_at, values_at, first_stop as stop_in, AnyStopped, AreDone};
ghost use Rattle.css_yard.specs.InOrders.{parts_of, IsAnswer};

use crate::answer::YardAnswer;
use crate::done::{Done, first_stop, share_value, share_values};
use crate::note::Note;
use crate::running::run_task;
use crate::standing::Standing;
use crate::yard::Yard;
use css_base::{Buffer, Limits, Line, NoMemory};
use css_record::{TaskRecord, VersionName};
use css_vm::Code;
use std::alloc::Global;
use std::marker::Model;
use std::snapshot::Snapshot;

/// Runs each task when it is submitted, over the values of its inputs. A task of which one has no value, because a task before it
/// stopped, isn't run.
#[derive(Drop)]
pub struct InOrder<'a> {
    code: &'a Code,
    limits: Limits,
    // Since the last settle.
    tasks: Vec<Done>,
    // Of all submits.
    notes: Vec<Note>,
    standing: Standing,
}

impl<'a> Model for InOrder<'a> {
    ghost use Rattle.css_vm.specs.Code.{code_of};
    ghost use Rattle.css_yard.specs.InOrders.{OrderYard, state_of, IsOrdered};

    ghost Value = { OrderYard };

    ghost view = { λ y. record { code = code_of y.code.now; limits = y.limits; state = state_of y.tasks.items y.notes.items y.standing } };

    ghost invariant = { λ y. IsOrdered (code_of y.code.now) y.limits y.tasks.items };
}

impl<'a> InOrder<'a> {
    /// A yard for the tasks of a sound code, that has had no call. Takes no memory.
    pub fn new(alloc: Global, code: &'a Code, limits: &Limits) -> Result<InOrder<'a>, NoMemory>
        requires sound { (plans : List (List Spot)) × IsSound (code_of code.now) plans }
        requires limits { IsInRange limits.now }
        ensures takes_no_memory { IsOk result }
        ensures code { IfOk result (λ y. y.code ≡ code_of code.now) }
        ensures limits { IfOk result (λ y. y.limits ≡ limits.now) }
        ensures state { IfOk result (λ y. y.state ≡ fresh) }
    {
        Ok(InOrder {
            code,
            limits: *limits,
            tasks: Vec::new(alloc),
            notes: Vec::new(alloc),
            standing: Standing::fresh(),
        })
    }
}

// Enters a task that has run, once there is room for it.
fn enter(
    tasks: &mut Vec<Done>,
    notes: &mut Vec<Note>,
    done: Done,
    note: Note,
) -> Result<(), NoMemory>
    ensures tasks { OnOk result (tasks.new.items ≡ tasks.old.items ++ done ∷ []) }
    ensures notes { OnOk result (notes.new.items ≡ notes.old.items ++ note ∷ []) }
    ensures unchanged { OnErr result ((tasks.new.items ≡ tasks.old.items) × (notes.new.items ≡ notes.old.items)) }
{
    tasks.reserve(1)?;
    notes.reserve(1)?;
    tasks.push_reserved(done);
    notes.push_reserved(note);
    Ok(())
}

// Runs a task behind the others and enters it.
fn submit_behind(
    alloc: Global,
    code: &Code,
    limits: &Limits,
    tasks: &mut Vec<Done>,
    notes: &mut Vec<Note>,
    rec: &TaskRecord,
    given: &Vec<Buffer>,
) -> Result<(), NoMemory>
    requires sound { (plans : List (List Spot)) × IsSound (code_of code.now) plans }
    requires done { AreDone (code_of code.now) limits.now tasks.old.items }
    requires may { MaySubmit (code_of code.now) limits.now (submits_of tasks.old.items) rec.now given.now.items }
    ensures tasks { OnOk result (submits_of tasks.new.items ≡ submits_of tasks.old.items ++ record { rec = rec.now; given = given.now.items } ∷ []) }
    ensures parts { OnOk result (parts_of notes.new.items ≡ with_record (parts_of notes.old.items) (is_empty (submits_of tasks.old.items)) rec.now) }
    ensures done { AreDone (code_of code.now) limits.now tasks.new.items }
    ensures unchanged { OnErr result ((tasks.new.items ≡ tasks.old.items) × (notes.new.items ≡ notes.old.items)) }
{
    let done = run_task(alloc, code, limits, tasks.as_slice(), rec, given)?;
    let note = Note {
        is_first: Snapshot::of(&tasks.is_empty()),
        rec: Snapshot::of(rec),
    };
    enter(tasks, notes, done, note)
}

// The value of a version that a task makes, or the first stop.
fn fetch_from(tasks: &[Done], version: VersionName) -> Result<Buffer, YardAnswer>
    requires { value_at tasks.now [] version ≡ None → AnyStopped tasks.now }
    ensures value { IfOk result (λ b. value_at tasks.now [] version ≡ Some b) }
    ensures answer { IfErr result (λ e. IsAnswer tasks.now e) }
{
    match share_value(tasks, &[], version)? {
        Some(value) => Ok(value),
        None => Err(stop_of(tasks)),
    }
}

// The first stop, where there is one.
fn stop_of(tasks: &[Done]) -> YardAnswer
    requires { AnyStopped tasks.now }
    ensures { IsAnswer tasks.now result }
{
    match first_stop(tasks) {
        Some(halt) => halt.answer(),
        None => unreachable!(),
    }
}

// The values of versions that tasks make, or the first stop, if there is one.
fn settle_from(
    alloc: Global,
    tasks: &[Done],
    keep: &[VersionName],
) -> Result<Vec<Buffer>, YardAnswer>
    requires { values_at tasks.now [] keep.now ≡ None → AnyStopped tasks.now }
    ensures values { IfOk result (λ v. values_at tasks.now [] keep.now ≡ Some v.items) }
    ensures none { OnOk result (stop_in tasks.now ≡ None) }
    ensures answer { IfErr result (λ e. IsAnswer tasks.now e) }
{
    if let Some(halt) = first_stop(tasks) {
        return Err(halt.answer());
    }
    match share_values(alloc, tasks, &[], keep)? {
        Some(values) => Ok(values),
        None => unreachable!(),
    }
}

impl<'a> Yard for InOrder<'a> {
    ghost code = { λ y. y.code };

    ghost limits = { λ y. y.limits };

    ghost state = { λ y. y.state };

    fn submit(
        &mut self,
        alloc: Global,
        rec: TaskRecord,
        given: Vec<Buffer>,
    ) -> Result<(), YardAnswer> {
        let entered = submit_behind(
            alloc,
            self.code,
            &self.limits,
            &mut self.tasks,
            &mut self.notes,
            &rec,
            &given,
        );
        match entered {
            Ok(()) => {
                self.standing = self.standing.used();
                Ok(())
            }
            Err(NoMemory) => {
                let answer = YardAnswer::NoMemory;
                self.standing = self.standing.refused(&answer);
                Err(answer)
            }
        }
    }

    fn fetch(
        &mut self,
        _alloc: Global,
        version: VersionName,
        _line: Line,
    ) -> Result<Buffer, YardAnswer> {
        match fetch_from(self.tasks.as_slice(), version) {
            Ok(value) => {
                self.standing = self.standing.used();
                Ok(value)
            }
            Err(answer) => {
                self.standing = self.standing.refused(&answer);
                Err(answer)
            }
        }
    }

    fn settle(&mut self, alloc: Global, keep: &[VersionName]) -> Result<Vec<Buffer>, YardAnswer> {
        match settle_from(alloc, self.tasks.as_slice(), keep) {
            Ok(values) => {
                self.tasks.clear();
                self.standing = self.standing.settled();
                Ok(values)
            }
            Err(answer) => {
                self.standing = self.standing.closed(&answer);
                Err(answer)
            }
        }
    }
}
