//! Main's memory under the rules on main.
ghost use Rattle.std.specs.Prelude.{◌≡◌, ◌≤◌, ℕ, [], ◌∷◌, true, length, IfOk, IfErr, OnOk, OnErr, None, Some};
ghost use Rattle.css_base.specs.Limits.{IsInRange};
ghost use Rattle.css_semantics.specs.Flat.{no_globals};
ghost use Rattle.css_semantics.specs.Dialogue.{Store, Says};
ghost use Rattle.css_semantics.specs.Memory.{is_live_byte, big_endian_bytes};
ghost use Rattle.css_semantics.specs.Pending.{with_argument};
ghost use Rattle.css_semantics.specs.WithWindow.{with_window};
ghost use Rattle.css_semantics.specs.Rules.{all_of_window};
ghost use Rattle.css_semantics.specs.Tasks as tasks;
ghost use Rattle.css_semantics.specs.Verdict.{bytes_of_window};
ghost use Rattle.css_record.specs.Windows.{window, IsWindow};
ghost use Rattle.css_vm.specs.Spaces.{bytes_of, IsRefusal};
ghost use Rattle.css_judged.specs.Judged.{broken_by_call, main_reply, main_after, main_place, plain_argument};

use crate::objects::{Objects, WIDTH};
use css_base::{Buffer, Limits, NoMemory, Rule, Stop};
use css_mem::MainMemory;
use css_record::Window;
use css_vm::{Space, Width, byte_count};
use std::alloc::Global;
use std::marker::Model;

/// Main's memory, and the objects that tasks may still read or write. Contracts see both. As a machine's space it refuses what
/// breaks a rule on main, and else replies as the flat memory does.
#[derive(Drop)]
pub struct JudgedMemory {
    // Its stack has main's limits, so that an entry which is too deep finds no room.
    memory: MainMemory,
    objects: Objects,
}

impl Model for JudgedMemory {
    ghost use Rattle.css_judged.specs.Judged.{Judged, erased, IsOfMain};

    ghost Value = { Judged };

    ghost view = { λ m. record { memory = erased m.memory; objects = m.objects } };

    ghost invariant = { λ m. IsOfMain m.memory };
}

impl JudgedMemory {
    /// A memory of the limits' bytes before main's entry, with nothing pending. Takes the memory's bytes here.
    pub fn new(alloc: Global, limits: &Limits) -> Result<JudgedMemory, NoMemory>
        requires { IsInRange limits.now }
        ensures { IfOk result (λ s. s ≡ record { memory = (no_globals limits.now.memory).memory; objects = [] }) }
    {
        let memory = MainMemory::new(alloc, limits.memory, false)?;
        Ok(JudgedMemory {
            memory,
            objects: Objects::new(alloc),
        })
    }

    /// The address of the stack's first byte, or the memory's end where no frame is open. There is always room below it for a
    /// task's stack.
    pub fn place(&self) -> u32
        ensures value { result ≡ main_place self.now }
        ensures room { 16384 ≤ main_place self.now }
        ensures bytes { length self.now.memory.stack ≤ 1048576 }
        ensures calls { self.now.memory.calls ≤ 32768 }
    {
        self.memory.place()
    }

    /// Whether a task may be called with a pointer to four bytes that it reads and writes: the first of the rules on what a call is
    /// given (X3 to X7) that this breaks.
    pub fn judge(&self, limits: &Limits, base: u32) -> Result<(), Rule>
        requires { IsInRange limits.now }
        ensures fits { OnOk result (broken_by_call limits.now self.now (plain_argument base ∷ []) ≡ None) }
        ensures breaks { IfErr result (λ rule. broken_by_call limits.now self.now (plain_argument base ∷ []) ≡ Some rule) }
    {
        // Four bytes have no dimension that could be bad, are room for each local store, and one pointer has no alias.
        let _ = limits;
        if !self.memory.has(base, WIDTH as usize) {
            return Err(Rule::DeadArgument);
        }
        if self.objects.overlaps(base) {
            return Err(Rule::PartialOverlap);
        }
        Ok(())
    }

    /// The object of such a call is pending from now on. `NoMemory` leaves all as it was.
    pub fn add(&mut self, alloc: Global, base: u32) -> Result<(), NoMemory>
        ensures added { OnOk result (self.new ≡ record self.old { objects = with_argument self.old.objects (plain_argument base) }) }
        ensures stays { OnErr result (self.new ≡ self.old) }
    {
        let _ = alloc;
        self.objects.add(base)
    }

    /// Nothing is pending any more.
    pub fn settle(&mut self)
        ensures { self.new ≡ record self.old { objects = [] } }
    {
        self.objects.clear();
    }

    /// A copy of a live window's bytes, row by row.
    pub fn snapshot(&self, alloc: Global, part: Window) -> Result<Buffer, NoMemory>
        requires is_window { IsWindow (window part) }
        requires live { all_of_window (is_live_byte self.now.memory) (window part) ≡ true }
        ensures { IfOk result (λ bytes. bytes ≡ bytes_of_window self.now.memory (window part)) }
    {
        self.memory.snapshot(alloc, part)
    }

    /// Writes bytes into a live window, row by row. What is pending stays so.
    pub fn write_back(&mut self, part: Window, bytes: &[u8])
        requires is_window { IsWindow (window part) }
        requires live { all_of_window (is_live_byte self.old.memory) (window part) ≡ true }
        requires whole { length bytes.now ≡ tasks.window_length (window part) }
        ensures { self.new ≡ record self.old { memory = with_window self.old.memory (window part) bytes.now } }
    {
        self.memory.write_back(part, bytes);
    }

    // Stores where an object may be near.
    fn store_near(&mut self, address: u32, width: Width, value: u64) -> Result<(), Stop>
        ensures says { OnOk result ((r : ℕ) × (main_reply self.old (Store address (big_endian_bytes (bytes_of width) value)) ≡ Says r)) }
        ensures refuses { IfErr result (λ stop. IsRefusal (main_reply self.old (Store address (big_endian_bytes (bytes_of width) value))) stop) }
        ensures learns { OnOk result (self.new ≡ main_after self.old (Store address (big_endian_bytes (bytes_of width) value))) }
        ensures stays { OnErr result (self.new ≡ self.old) }
    {
        let count = byte_count(width) as u32;
        if self.objects.has_written(address, count) {
            return Err(Stop::Rule(Rule::Unsynchronised));
        }
        self.memory.store(address, width, value)?;
        self.objects.remove_stored(address, count);
        Ok(())
    }
}

impl Space for JudgedMemory {
    ghost use Rattle.css_judged.specs.Judged.{main_reply, main_after, main_place};
    ghost use Rattle.css_judged.specs.Places.{enters, lowers, leaves, loads, stores};

    ghost reply = { main_reply };

    ghost learn = { main_after };

    ghost place = { main_place };

    ghost place_moves = { record {
      enters = enters;
      lowers = lowers;
      leaves = leaves;
      loads = loads;
      stores = stores;
    } };

    #[inline]
    fn load(&mut self, address: u32, width: Width) -> Result<u64, Stop> {
        if self.objects.has_written(address, byte_count(width) as u32) {
            return Err(Stop::Rule(Rule::Unsynchronised));
        }
        let value = self.memory.load(address, width)?;
        Ok(value)
    }

    #[inline]
    fn store(&mut self, address: u32, width: Width, value: u64) -> Result<(), Stop> {
        if self.objects.is_near(address, byte_count(width) as u32) {
            return self.store_near(address, width, value);
        }
        self.memory.store(address, width, value)?;
        Ok(())
    }

    fn push_frame(&mut self, size: u32) -> Result<u32, Stop> {
        let base = self.memory.push_frame(size)?;
        Ok(base)
    }

    fn pop_frame(&mut self, size: u32) -> Result<(), Stop> {
        if self.objects.has(self.memory.place(), size) {
            return Err(Stop::Rule(Rule::Unsynchronised));
        }
        self.memory.pop_frame(size)?;
        Ok(())
    }
}
