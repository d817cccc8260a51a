//! A task's run on a yard that has no other.
ghost use Rattle.std.specs.Prelude.{◌≡◌, ◌⊎◌, ◌∷◌, [], ℕ, true, List, Some, slice_get, IfOk, OnOk, OnErr, IfErr};
ghost use Rattle.css_record.specs.declared.version.VersionName.TheVariants.{Given};
ghost use Rattle.css_record.specs.Windows.{window};
ghost use Rattle.css_semantics.specs.Tasks.{plain};
ghost use Rattle.css_task.specs.Alone.{Outs, IsAlone};
ghost use Rattle.css_vm.specs.Code.{Routine, Shape, code_of};
ghost use Rattle.css_vm.specs.Events.{IsWhole};
ghost use Rattle.css_yard.specs.Yards.{Open, Closed, MaySubmit, CanFetch, TakesSettle, with_record};
ghost use Rattle.css_yard.specs.declared.answer.YardAnswer.{YardAnswer};
ghost use Rattle.css_main_side.specs.Calls.{PointsTo, IsRecordOf};
ghost use Rattle.css_main_side.specs.Alone.{MayRun, ComesAlone, StopsAlone, IsQuiet, HasRefused};

use css_base::{Buffer, NoMemory};
use css_record::{TaskRecord, VersionName, Window};
use css_vm::{Code, Submitted};
use css_yard::{Yard, YardAnswer};
use std::alloc::Global;

// The record of a call, with its number among the calls.
pub(crate) fn record_of(
    alloc: Global,
    code: &Code,
    call: &Submitted,
    number: u64,
    place: u32,
    part: Window,
) -> Result<TaskRecord, NoMemory>
    requires whole { IsWhole (code_of code.now) call.now }
    ensures { (base : ℕ) → window part ≡ plain base 4 → IfOk result (λ r. IsRecordOf r (code_of code.now) call.now number place base) }
{
    let high = is_high(code, call.function);
    Ok(TaskRecord {
        number,
        function: call.function,
        scalars: Vec::new(alloc),
        windows: vec![in alloc; part]?,
        stack_place: place,
        inputs: vec![in alloc; VersionName::Given(0)]?,
        high,
        line: call.line,
    })
}

// What the one argument of a call points to.
pub(crate) fn pointer_of(call: &Submitted) -> u32
    requires { (base : ℕ) × PointsTo call.now base }
    ensures { PointsTo call.now result }
{
    call.arguments[0] as u32
}

// Whether calls of a task go before others.
fn is_high(code: &Code, function: u32) -> bool
    ensures { (f : Routine) (s : Shape) → slice_get (code_of code.now).functions function ≡ Some f → f.task ≡ Some s → result ≡ s.high }
{
    match code.functions.get(function as usize) {
        Some(f) => match &f.task {
            Some(shape) => shape.high,
            None => false,
        },
        None => false,
    }
}

// The bytes alone.
fn one(alloc: Global, bytes: Buffer) -> Result<Vec<Buffer>, NoMemory>
    ensures { IfOk result (λ given. given.items ≡ bytes ∷ []) }
{
    Ok(vec![in alloc; bytes]?)
}

// Ends a generation whose values nobody asks for.
fn give_up<Y: Yard>(alloc: Global, yard: &mut Y)
    requires takes { TakesSettle (Y.state yard.old).phase }
    ensures settled { ((Y.state yard.new).phase ≡ Closed) ⊎ ((Y.state yard.new).submits ≡ []) }
    ensures parts { (Y.state yard.new).parts ≡ (Y.state yard.old).parts }
    ensures kept { (Y.code yard.new ≡ Y.code yard.old) × (Y.limits yard.new ≡ Y.limits yard.old) }
{
    match yard.settle(alloc, &[]) {
        Ok(_) => {}
        Err(_) => {}
    }
}

// Runs a task on a yard that has no other, over the bytes that it is given, and gives what it makes.
pub(crate) fn run_alone<Y: Yard>(
    alloc: Global,
    yard: &mut Y,
    rec: TaskRecord,
    bytes: Buffer,
) -> Result<Buffer, YardAnswer>
    requires quiet { IsQuiet (Y.state yard.old) }
    requires may { MayRun (Y.code yard.old) (Y.limits yard.old) rec bytes }
    ensures value { IfOk result (λ value. ComesAlone (Y.code yard.old) rec bytes (Y.limits yard.old).task_units value) }
    ensures quiet { OnOk result (IsQuiet (Y.state yard.new)) }
    ensures stops { IfErr result (λ e. StopsAlone (Y.code yard.old) rec bytes (Y.limits yard.old).task_units e) }
    ensures parts { OnOk result ((Y.state yard.new).parts ≡ with_record (Y.state yard.old).parts true rec) }
    ensures left { OnErr result (HasRefused (Y.state yard.old) rec (Y.state yard.new)) }
    ensures kept { (Y.code yard.new ≡ Y.code yard.old) × (Y.limits yard.new ≡ Y.limits yard.old) }
{
    let made = VersionName::Made {
        task: rec.number,
        out: 0,
    };
    let given = one(alloc, bytes)?;
    if let Err(answer) = yard.submit(alloc, rec, given) {
        give_up(alloc, yard);
        return Err(answer);
    }
    match yard.settle(alloc, &[made]) {
        Ok(mut values) => match values.pop() {
            Some(value) => Ok(value),
            None => unreachable!(),
        },
        Err(answer) => Err(answer),
    }
}
