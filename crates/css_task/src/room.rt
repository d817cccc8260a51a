//! The memory of a task alone.
ghost use Rattle.std.specs.Prelude.{◌≡◌, ◌≤◌, ◌*◌, ℕ, true, false, All, length, map, get_or, IfOk};
ghost use Rattle.css_record.specs.Windows.{window};
ghost use Rattle.css_record.specs.Records.{AllAgree, InputsFit, IsClearOfStack, uses_by};
ghost use Rattle.css_task.specs.OffsetSets.{has_bit};
ghost use Rattle.css_task.specs.Cells.{addresses, flags, room};
ghost use Rattle.css_task.specs.Placing.{uses_of, AreWindows, ArePlaced};
ghost use Rattle.css_task.specs.GivenBytes.{is_new, entry_with, left_bytes};
ghost use Rattle.css_task.specs.Rooms.{outs_from};
ghost use Rattle.css_task.specs.Returned.{IsWritten, IsUnwritten};

use crate::given::{Given, given_to};
use crate::offsets::Offsets;
use crate::placed::Placed;
use crate::task_stack::TaskStack;
use crate::windows::Windows;
use css_base::{Buffer, Direction, NoMemory, Rule, Stop};
use css_record::Window;
use css_vm::{ArgShape, Space, Width, byte_count, number_of, write_number};
use std::alloc::Global;
use std::marker::Model;

/// A task's memory: the bytes of its windows, the offsets of those that it has yet to write, and its stack.
#[derive(Drop)]
pub(crate) struct TaskRoom {
    windows: Windows,
    bytes: Vec<u8>,
    unwritten: Offsets,
    stack: TaskStack,
}

impl Model for TaskRoom {
    ghost use Rattle.css_task.specs.Cells.{Kept};
    ghost use Rattle.css_task.specs.IsRoom.{kept_with, IsRoom};

    ghost Value = { Kept };

    ghost view = { λ m. kept_with m.windows.all.items m.stack m.bytes.items m.unwritten.words.items };

    ghost invariant = { λ m. IsRoom m.windows.all.items m.stack m.bytes.items m.unwritten.words.items };
}

impl TaskRoom {
    /// The memory of a task before its entry, whose parameters have these shapes: its windows with the inputs' bytes where they are
    /// read and zeros else, and an empty stack at its stack place. Takes its memory here.
    pub(crate) fn new(
        alloc: Global,
        parts: &[ArgShape],
        windows: &[Window],
        inputs: &[Buffer],
        place: u32,
    ) -> Result<TaskRoom, NoMemory>
        requires given { AreWindows parts.now (map window windows.now) }
        requires agree { AllAgree (uses_by parts.now (map window windows.now)) }
        requires high { 16384 ≤ place }
        requires clear { All (IsClearOfStack place) (uses_by parts.now (map window windows.now)) }
        requires inputs { InputsFit (uses_by parts.now (map window windows.now)) inputs.now }
        ensures { IfOk result (λ m. m ≡ entry_with (uses_by parts.now (map window windows.now)) inputs.now place) }
    {
        let Given { all, bytes } = given_to(alloc, parts, windows, inputs)?;
        let unwritten = unwritten_of(alloc, &all, bytes.len())?;
        let stack = TaskStack::new(alloc, place)?;
        let windows = Windows::new(alloc, all)?;
        Ok(TaskRoom {
            windows,
            bytes,
            unwritten,
            stack,
        })
    }

    /// Whether no byte is left that the task has yet to write.
    pub(crate) fn is_written(&self) -> bool
        ensures all { result ≡ true → IsWritten (room self.now) }
        ensures some { result ≡ false → IsUnwritten (room self.now) }
    {
        self.unwritten.is_empty()
    }

    /// The bytes of the windows that the task writes, in order.
    pub(crate) fn into_buffers(self, alloc: Global) -> Result<Vec<Buffer>, NoMemory>
        ensures { IfOk result (λ outs. outs.items ≡ outs_from (room self) self.uses) }
    {
        outs_of(alloc, &self.windows.all, &self.bytes)
    }
}

// The offsets of the bytes that are yet to be written.
fn unwritten_of(alloc: Global, all: &[Placed], count: usize) -> Result<Offsets, NoMemory>
    requires placed { ArePlaced all.now }
    requires count { count ≡ length (addresses (uses_of all.now)) }
    ensures room { IfOk result (λ s. count ≤ 64 * length s.words.items) }
    ensures are { IfOk result (λ s. (k : ℕ) → has_bit s.words.items k ≡ get_or (flags is_new (uses_of all.now)) k false) }
{
    let mut unwritten = Offsets::new(alloc, count)?;
    for placed in all {
        match placed.direction {
            Direction::Out => unwritten.add_all(placed.first, placed.window.length() as usize),
            Direction::In | Direction::InOut => {}
        }
    }
    Ok(unwritten)
}

// Of the bytes of all windows those of each window that is written.
fn outs_of(alloc: Global, all: &[Placed], bytes: &[u8]) -> Result<Vec<Buffer>, NoMemory>
    requires placed { ArePlaced all.now }
    requires long { length bytes.now ≡ length (addresses (uses_of all.now)) }
    ensures { IfOk result (λ outs. outs.items ≡ left_bytes (uses_of all.now) bytes.now) }
{
    let mut outs = Vec::new(alloc);
    for placed in all {
        if placed.is_writable() {
            let end = placed.first + placed.window.length() as usize;
            outs.push(Buffer::new(alloc, Vec::from_slice(alloc, &bytes[placed.first..end])?)?)?;
        }
    }
    Ok(outs)
}

impl Space for TaskRoom {
    ghost use Rattle.css_task.specs.Cells.{kept_place, kept_reply, kept_after};
    ghost use Rattle.css_task.specs.RoomPlaces.{enters, lowers, leaves, loads, stores};

    ghost reply = { kept_reply };

    ghost learn = { kept_after };

    ghost place = { kept_place };

    ghost place_moves = { record {
      enters = enters;
      lowers = lowers;
      leaves = leaves;
      loads = loads;
      stores = stores;
    } };

    fn load(&mut self, address: u32, width: Width) -> Result<u64, Stop> {
        if let Ok(value) = self.stack.load(address, width) {
            return Ok(value);
        }
        let count = byte_count(width);
        let Some(hit) = self.windows.find(address, count) else {
            return Err(Stop::Rule(Rule::OutsideArguments));
        };
        if self.unwritten.any(hit.offset, count) {
            return Err(Stop::Rule(Rule::ReadUnwritten));
        }
        Ok(number_of(width, &self.bytes[hit.offset..hit.offset + count]))
    }

    fn store(&mut self, address: u32, width: Width, value: u64) -> Result<(), Stop> {
        if let Ok(()) = self.stack.store(address, width, value) {
            return Ok(());
        }
        let count = byte_count(width);
        let Some(hit) = self.windows.find(address, count) else {
            return Err(Stop::Rule(Rule::OutsideArguments));
        };
        if !hit.is_writable() {
            return Err(Stop::Rule(Rule::WroteInput));
        }
        write_number(&mut self.bytes, hit.offset, width, value);
        self.unwritten.remove_all(hit.offset, count);
        Ok(())
    }

    fn push_frame(&mut self, size: u32) -> Result<u32, Stop> {
        let base = self.stack.push_frame(size)?;
        Ok(base)
    }

    fn pop_frame(&mut self, size: u32) -> Result<(), Stop> {
        self.stack.pop_frame(size)?;
        Ok(())
    }
}
