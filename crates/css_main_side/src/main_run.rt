//! Main's run over a yard.
ghost use Rattle.std.specs.Prelude.{◌≡◌, ◌≤◌, ◌<◌, false, [], ◌∷◌, ◌++◌, List, length, Some, None, slice_get, IfSome, IfNone, IfOk, OnOk, OnErr, IfErr};
ghost use Rattle.css_base.specs.Limits.{IsInRange};
ghost use Rattle.css_io.specs.Changes.{change};
ghost use Rattle.css_judged.specs.Judged.{main_place, broken_by_call, plain_argument};
ghost use Rattle.css_semantics.specs.Verdict.{Verdict};
ghost use Rattle.css_semantics.specs.Units.{with_units};
ghost use Rattle.css_vm.specs.Code.{Routine, code_of};
ghost use Rattle.css_vm.specs.Due.{due_at, TakesAnswer};
ghost use Rattle.css_vm.specs.Events.{IsStacked, IsOwedAt, IsWhole, base_of};
ghost use Rattle.css_vm.specs.Machine.{Begin, IsOwed, entry_line};
ghost use Rattle.css_vm.specs.Soundness.{Spot, IsSound, Fits};
ghost use Rattle.css_main_side.specs.Calls.{PointsTo, CallEnds, TaskReturns, AnswersCall, AnswersStop};
ghost use Rattle.css_main_side.specs.Events.{with_answer, Marked, MarkEnds, left_with, finished_space, reply_to_leaving};
ghost use Rattle.css_main_side.specs.OutputBuffer.{Passes};
ghost use Rattle.css_main_side.specs.Plain.{HasPlainTasks};
ghost use Rattle.css_main_side.specs.Playing.{begins, ComesToVerdict, IsFresh, IsReady, IsLeft, Stands, GoesOn, EndsRun};
ghost use Rattle.css_main_side.specs.Ran.{RanAs, Fails};
ghost use Rattle.css_main_side.specs.Sides.{side};

use crate::ends::{end, first_line, main_of, refused, result_of, stopped, unreturned};
use crate::output_buffer::OutputBuffer;
use crate::ran::Ran;
use crate::tasks::{pointer_of, record_of, run_alone};
use css_base::{Ending, Limits, Line, NoMemory, Rule, Stop, Who};
use css_io::Sink;
use css_judged::JudgedMemory;
use css_record::Window;
use css_vm::{Code, Due, Event, Machine, MarkKind, Space, Submitted};
use css_yard::{Yard, YardAnswer};
use std::alloc::Global;

/// What main's run keeps from event to event.
#[derive(Drop)]
pub(crate) struct Main {
    machine: Machine,
    memory: JudgedMemory,
    units: u64,
    is_started: bool,
    // How many tasks were called.
    called: u64,
}

/// Runs main of code whose tasks are given one pointer to four bytes that they read and write. A call of a task is submitted to the
/// yard with a copy of the object's bytes, the generation is settled, and the task's out is written back, so that main's memory is
/// always that of program order. Output goes to the sink in pieces of at most 65,536 bytes; all that main wrote before a stop is passed
/// on too. What comes of the run is the verdict on the code: its output, and its ending. Each task is a generation of the yard by
/// itself; none is left that isn't settled, unless the yard refused to settle one.
///
/// `WriteFault` only where the sink's count rose, and `NoMemory`, which comes also where 2^64 - 1 tasks were called, or 2^64 - 1 events
/// come before the next unit is taken: a prefix of the output was passed on then.
#[tactic(auto, using(crate::proofs::OneByOne::left_fresh))]
pub fn play<Y: Yard, O: Sink>(
    alloc: Global,
    code: &Code,
    limits: &Limits,
    yard: &mut Y,
    out: &mut O,
) -> Ran
    requires sound { (plans : List (List Spot)) × IsSound (code_of code.now) plans }
    requires plain { HasPlainTasks (code_of code.now) }
    requires in_range { IsInRange limits.now }
    requires fresh { IsFresh (code_of code.now) limits.now (Y.code yard.old) (Y.limits yard.old) (Y.state yard.old) }
    ensures verdict { (v : Verdict) → ComesToVerdict limits.now (begins limits.now) (code_of code.now) v → RanAs v.ending v.output (change O.written O.faults out.old out.new) result }
    ensures yard { IsLeft (code_of code.now) limits.now (Y.code yard.new) (Y.limits yard.new) (Y.state yard.new) }
{
    let Ok(mut pending) = OutputBuffer::new(alloc) else {
        return Ran::NoMemory;
    };
    let Ok(mut main) = Main::new(alloc, code, limits) else {
        return Ran::NoMemory;
    };
    loop {
        if let Some(ran) = main.run_on(alloc, code, limits, yard, &mut pending, out) {
            return ran;
        }
    }
}

impl Main {
    // Main before its entry.
    fn new(alloc: Global, code: &Code, limits: &Limits) -> Result<Main, NoMemory>
        requires sound { (plans : List (List Spot)) × IsSound (code_of code.now) plans }
        requires in_range { IsInRange limits.now }
        ensures machine { IfOk result (λ m. m.machine.state ≡ Begin code.now.main [] (entry_line (slice_get (code_of code.now).functions code.now.main))) }
        ensures due { IfOk result (λ m. m.machine.due ≡ Due.Run) }
        ensures memory { IfOk result (λ m. m.memory ≡ record { memory = (begins limits.now).memory; objects = [] }) }
        ensures units { IfOk result (λ m. m.units ≡ limits.now.main_units) }
        ensures not_started { IfOk result (λ m. m.is_started ≡ false) }
        ensures none_called { IfOk result (λ m. m.called ≡ 0) }
    {
        let line = first_line(main_of(code));
        Ok(Main {
            machine: Machine::new(alloc, code, code.main, &[], line)?,
            memory: JudgedMemory::new(alloc, limits)?,
            units: limits.main_units,
            is_started: false,
            called: 0,
        })
    }

    // Runs from event to event until one comes after a unit was taken. Some where main's run has ended.
    fn run_on<Y: Yard, O: Sink>(
        &mut self,
        alloc: Global,
        code: &Code,
        limits: &Limits,
        yard: &mut Y,
        pending: &mut OutputBuffer,
        out: &mut O,
    ) -> Option<Ran>
        requires sound { (plans : List (List Spot)) × IsSound (code_of code.now) plans }
        requires plain { HasPlainTasks (code_of code.now) }
        requires in_range { IsInRange limits.now }
        requires stands { Stands limits.now (begins limits.now) (side self.old) }
        requires due { self.old.machine.due ≡ Due.Run }
        requires fits { Fits (code_of code.now) self.old.machine.state }
        requires stacked { IsStacked (code_of code.now) (main_place self.old.memory) self.old.machine.state }
        requires ready { IsReady (code_of code.now) limits.now self.old.called (Y.code yard.old) (Y.limits yard.old) (Y.state yard.old) }
        ensures goes_on { IfNone result (GoesOn limits.now (begins limits.now) (code_of code.now) (side self.old) (side self.new) pending.old pending.new (change O.written O.faults out.old out.new)) }
        ensures stands { IfNone result (Stands limits.now (begins limits.now) (side self.new)) }
        ensures due { IfNone result (self.new.machine.due ≡ Due.Run) }
        ensures fits { IfNone result (Fits (code_of code.now) self.new.machine.state) }
        ensures stacked { IfNone result (IsStacked (code_of code.now) (main_place self.new.memory) self.new.machine.state) }
        ensures ready { IfNone result (IsReady (code_of code.now) limits.now self.new.called (Y.code yard.new) (Y.limits yard.new) (Y.state yard.new)) }
        ensures fewer { IfNone result (self.new.units < self.old.units) }
        ensures ends { IfSome result (EndsRun limits.now (begins limits.now) (code_of code.now) (side self.old) pending.old (change O.written O.faults out.old out.new)) }
        ensures left { IfSome result (λ _. IsLeft (code_of code.now) limits.now (Y.code yard.new) (Y.limits yard.new) (Y.state yard.new)) }
    {
        let before = self.units;
        for _ in 0..u64::MAX {
            if let Some(ran) = self.turn(alloc, code, limits, yard, pending, out) {
                return Some(ran);
            }
            if self.units < before {
                return None;
            }
        }
        Some(Ran::NoMemory)
    }

    // Runs to the next event and does what it asks. Some where main's run has ended.
    fn turn<Y: Yard, O: Sink>(
        &mut self,
        alloc: Global,
        code: &Code,
        limits: &Limits,
        yard: &mut Y,
        pending: &mut OutputBuffer,
        out: &mut O,
    ) -> Option<Ran>
        requires sound { (plans : List (List Spot)) × IsSound (code_of code.now) plans }
        requires plain { HasPlainTasks (code_of code.now) }
        requires in_range { IsInRange limits.now }
        requires stands { Stands limits.now (begins limits.now) (side self.old) }
        requires due { self.old.machine.due ≡ Due.Run }
        requires fits { Fits (code_of code.now) self.old.machine.state }
        requires stacked { IsStacked (code_of code.now) (main_place self.old.memory) self.old.machine.state }
        requires ready { IsReady (code_of code.now) limits.now self.old.called (Y.code yard.old) (Y.limits yard.old) (Y.state yard.old) }
        ensures goes_on { IfNone result (GoesOn limits.now (begins limits.now) (code_of code.now) (side self.old) (side self.new) pending.old pending.new (change O.written O.faults out.old out.new)) }
        ensures stands { IfNone result (Stands limits.now (begins limits.now) (side self.new)) }
        ensures due { IfNone result (self.new.machine.due ≡ Due.Run) }
        ensures fits { IfNone result (Fits (code_of code.now) self.new.machine.state) }
        ensures stacked { IfNone result (IsStacked (code_of code.now) (main_place self.new.memory) self.new.machine.state) }
        ensures ready { IfNone result (IsReady (code_of code.now) limits.now self.new.called (Y.code yard.new) (Y.limits yard.new) (Y.state yard.new)) }
        ensures ends { IfSome result (EndsRun limits.now (begins limits.now) (code_of code.now) (side self.old) pending.old (change O.written O.faults out.old out.new)) }
        ensures left { IfSome result (λ _. IsLeft (code_of code.now) limits.now (Y.code yard.new) (Y.limits yard.new) (Y.state yard.new)) }
    {
        let Ok(event) = self
            .machine
            .run_to_event(alloc, code, &mut self.memory, &mut self.units)
        else {
            return Some(Ran::NoMemory);
        };
        match event {
            Event::Out(printed) => self.print(printed.as_slice(), pending, out),
            Event::Mark(kind, line) => self.mark(kind, line, pending, out),
            Event::Submit(call) => self.call(alloc, code, limits, &call, yard, pending, out),
            Event::Ended(value, line) => Some(self.returned(value, line, code, pending, out)),
            Event::Stopped(stop, line) => Some(stopped(stop, line, Who::Main, pending, out)),
        }
    }

    // Writes what main writes.
    fn print<O: Sink>(
        &mut self,
        bytes: &[u8],
        pending: &mut OutputBuffer,
        out: &mut O,
    ) -> Option<Ran>
        requires due { self.old.machine.due ≡ Due.Value }
        requires owed { IsOwed self.old.machine.state }
        requires piece { length bytes.now ≤ 65536 }
        ensures answers { IfNone result (side self.new ≡ with_answer (length bytes.now) (side self.old)) }
        ensures due { IfNone result (self.new.machine.due ≡ Due.Run) }
        ensures passes { IfNone result (Passes (change O.written O.faults out.old out.new) (pending.old ++ bytes.now) pending.new) }
        ensures never_falls { O.faults out.old ≤ O.faults out.new }
        ensures fails { IfSome result (Fails pending.old (change O.written O.faults out.old out.new)) }
    {
        match pending.add(bytes, out) {
            Ok(()) => {
                self.machine.answer(bytes.len() as u64);
                None
            }
            Err(_) => Some(Ran::WriteFault),
        }
    }

    // Answers an event with 0: a task's call gives it, and at a mark that asks nothing the machine doesn't keep it.
    fn go_on(&mut self)
        requires { TakesAnswer self.old.machine.due self.old.machine.state }
        ensures value { self.old.machine.due ≡ Due.Value → side self.new ≡ with_answer 0 (side self.old) }
        ensures signal { self.old.machine.due ≡ Due.Signal → side self.new ≡ side self.old }
        ensures due { self.new.machine.due ≡ Due.Run }
    {
        self.machine.answer(0);
    }

    // A directive of main.
    fn mark<O: Sink>(
        &mut self,
        kind: MarkKind,
        line: Line,
        pending: &mut OutputBuffer,
        out: &mut O,
    ) -> Option<Ran>
        requires due { self.old.machine.due ≡ due_at kind }
        requires owed { IsOwedAt kind self.old.machine.state }
        ensures due { IfNone result (self.new.machine.due ≡ Due.Run) }
        ensures marked { IfNone result (Marked kind (side self.old) (side self.new)) }
        ensures nothing { IfNone result ((pending.new ≡ pending.old) × (out.new ≡ out.old)) }
        ensures ends { IfSome result (MarkEnds kind line (side self.old) pending.old (change O.written O.faults out.old out.new)) }
    {
        match kind {
            MarkKind::Started => {
                let answer = if self.is_started { 1 } else { 0 };
                self.machine.answer(answer);
                None
            }
            MarkKind::Start => self.start(line, pending, out),
            MarkKind::Finish => self.finish(line, pending, out),
            MarkKind::Barrier => {
                self.memory.settle();
                self.go_on();
                None
            }
        }
    }

    // From here on calls make tasks. Some where they do already.
    fn start<O: Sink>(&mut self, line: Line, pending: &mut OutputBuffer, out: &mut O) -> Option<Ran>
        requires due { self.old.machine.due ≡ Due.Signal }
        ensures due { IfNone result (self.new.machine.due ≡ Due.Run) }
        ensures marked { IfNone result (Marked MarkKind.Start (side self.old) (side self.new)) }
        ensures nothing { IfNone result ((pending.new ≡ pending.old) × (out.new ≡ out.old)) }
        ensures ends { IfSome result (MarkEnds MarkKind.Start line (side self.old) pending.old (change O.written O.faults out.old out.new)) }
    {
        if self.is_started {
            return Some(refused(Rule::StartTwice, line, pending, out));
        }
        self.is_started = true;
        self.go_on();
        None
    }

    // From here on calls make no tasks, and nothing is pending. Some where they make none already.
    fn finish<O: Sink>(
        &mut self,
        line: Line,
        pending: &mut OutputBuffer,
        out: &mut O,
    ) -> Option<Ran>
        requires due { self.old.machine.due ≡ Due.Signal }
        ensures due { IfNone result (self.new.machine.due ≡ Due.Run) }
        ensures marked { IfNone result (Marked MarkKind.Finish (side self.old) (side self.new)) }
        ensures nothing { IfNone result ((pending.new ≡ pending.old) × (out.new ≡ out.old)) }
        ensures ends { IfSome result (MarkEnds MarkKind.Finish line (side self.old) pending.old (change O.written O.faults out.old out.new)) }
    {
        if !self.is_started {
            return Some(refused(Rule::FinishWithout, line, pending, out));
        }
        self.is_started = false;
        self.memory.settle();
        self.go_on();
        None
    }

    // A task's call: the task is run at once, and its out is written back. Some where main's run has ended.
    fn call<Y: Yard, O: Sink>(
        &mut self,
        alloc: Global,
        code: &Code,
        limits: &Limits,
        call: &Submitted,
        yard: &mut Y,
        pending: &mut OutputBuffer,
        out: &mut O,
    ) -> Option<Ran>
        requires sound { (plans : List (List Spot)) × IsSound (code_of code.now) plans }
        requires plain { HasPlainTasks (code_of code.now) }
        requires in_range { IsInRange limits.now }
        requires stands { Stands limits.now (begins limits.now) (side self.old) }
        requires due { self.old.machine.due ≡ Due.Value }
        requires owed { IsOwed self.old.machine.state }
        requires stacked { IsStacked (code_of code.now) (main_place self.old.memory) self.old.machine.state }
        requires whole { IsWhole (code_of code.now) call.now }
        requires ready { IsReady (code_of code.now) limits.now self.old.called (Y.code yard.old) (Y.limits yard.old) (Y.state yard.old) }
        ensures due { IfNone result (self.new.machine.due ≡ Due.Run) }
        ensures returns { IfNone result (AnswersCall limits.now (code_of code.now) call.now (side self.old) (side self.new)) }
        ensures ready { IfNone result (IsReady (code_of code.now) limits.now self.new.called (Y.code yard.new) (Y.limits yard.new) (Y.state yard.new)) }
        ensures nothing { IfNone result ((pending.new ≡ pending.old) × (out.new ≡ out.old)) }
        ensures ends { IfSome result (CallEnds limits.now (code_of code.now) call.now (side self.old) pending.old (change O.written O.faults out.old out.new)) }
        ensures left { IfSome result (λ _. IsLeft (code_of code.now) limits.now (Y.code yard.new) (Y.limits yard.new) (Y.state yard.new)) }
    {
        let base = pointer_of(call);
        if let Err(rule) = self.memory.judge(limits, base) {
            return Some(refused(rule, call.line, pending, out));
        }
        match self.make_task(alloc, code, limits, call, base, yard) {
            Ok(()) => {
                self.go_on();
                None
            }
            Err(answer) => Some(unreturned(answer, pending, out)),
        }
    }

    // Runs the task of a call that breaks no rule over a copy of the object's bytes, and writes its out back.
    fn make_task<Y: Yard>(
        &mut self,
        alloc: Global,
        code: &Code,
        limits: &Limits,
        call: &Submitted,
        base: u32,
        yard: &mut Y,
    ) -> Result<(), YardAnswer>
        requires sound { (plans : List (List Spot)) × IsSound (code_of code.now) plans }
        requires plain { HasPlainTasks (code_of code.now) }
        requires in_range { IsInRange limits.now }
        requires stands { Stands limits.now (begins limits.now) (side self.old) }
        requires place { base_of self.old.machine.state ≡ main_place self.old.memory }
        requires whole { IsWhole (code_of code.now) call.now }
        requires to { PointsTo call.now base }
        requires none { broken_by_call limits.now self.old.memory (plain_argument base ∷ []) ≡ None }
        requires ready { IsReady (code_of code.now) limits.now self.old.called (Y.code yard.old) (Y.limits yard.old) (Y.state yard.old) }
        ensures machine { self.new.machine ≡ self.old.machine }
        ensures returns { OnOk result (TaskReturns limits.now (code_of code.now) call.now (side self.old) (side self.new)) }
        ensures ready { OnOk result (IsReady (code_of code.now) limits.now self.new.called (Y.code yard.new) (Y.limits yard.new) (Y.state yard.new)) }
        ensures stops { IfErr result (λ e. AnswersStop limits.now (code_of code.now) call.now (side self.old) e) }
        ensures left { OnErr result (IsLeft (code_of code.now) limits.now (Y.code yard.new) (Y.limits yard.new) (Y.state yard.new)) }
    {
        let Some(next) = self.called.checked_add(1) else {
            return Err(YardAnswer::NoMemory);
        };
        let place = self.memory.place();
        let part = Window::plain(base, 4);
        let bytes = self.memory.snapshot(alloc, part)?;
        let rec = record_of(alloc, code, call, self.called, place, part)?;
        self.memory.add(alloc, base)?;
        match run_alone(alloc, yard, rec, bytes) {
            Ok(value) => {
                self.memory.write_back(part, value.bytes());
                self.called = next;
                Ok(())
            }
            Err(answer) => Err(answer),
        }
    }

    // Leaves main's frame, behind a finish where calls make tasks, and ends with a cell as main's result.
    fn returned<O: Sink>(
        &mut self,
        value: u64,
        line: Line,
        code: &Code,
        pending: &mut OutputBuffer,
        out: &mut O,
    ) -> Ran
        requires { (f : Routine) × (slice_get (code_of code.now).functions code.now.main ≡ Some f) }
        ensures { RanAs (left_with (reply_to_leaving (code_of code.now) (finished_space self.old.is_started self.old.memory)) value line)
            pending.old (change O.written O.faults out.old out.new) result }
    {
        if self.is_started {
            self.memory.settle();
        }
        match self.memory.pop_frame(main_of(code).frame) {
            Ok(()) => end(Ending::Result(result_of(value)), pending, out),
            Err(stop) => stopped(stop, line, Who::Main, pending, out),
        }
    }
}
