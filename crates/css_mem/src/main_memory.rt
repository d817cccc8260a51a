//! Main's flat memory. So far it has a stack alone.
ghost use Rattle.std.specs.Prelude.{◌≡◌, ◌+◌, ◌≤◌, true, length, IfOk, IfSome, is_some, if◌then◌else◌};
ghost use Rattle.css_semantics.specs.declared.TheConstants.{STACK_LIMIT};
ghost use Rattle.css_semantics.specs.Memory.{first_global, is_live, is_live_byte, stack_place};
ghost use Rattle.css_semantics.specs.Flat.{erased_stack, no_globals};
ghost use Rattle.css_semantics.specs.WithWindow.{with_window};
ghost use Rattle.css_semantics.specs.Rules.{main_stack, all_of_window};
ghost use Rattle.css_semantics.specs.Tasks as tasks;
ghost use Rattle.css_semantics.specs.Verdict.{bytes_of_window};
ghost use Rattle.css_record.specs.Windows.{window, IsWindow};

use crate::rows::{copied_rows, write_rows};
use css_base::{Buffer, FaultKind, NoMemory, Rule, Stop};
use css_record::Window;
use css_semantics::{MAIN_OPEN_CALLS, MAIN_STACK_LIMIT, OPEN_CALLS, STACK_LIMIT};
use css_vm::{Space, Width, byte_count, number_of, write_number};
use std::alloc::Global;
use std::marker::Model;

/// Main's memory. Contracts see its live bytes, its end, its open calls and its stack's limit.
#[derive(Drop)]
pub struct MainMemory {
    // All bytes that the stack may have, and the address of the first of them. They end where the memory does.
    origin: u32,
    bytes: Vec<u8>,
    // The index from which on they are live.
    start: usize,
    // How many calls are open, and how many may be.
    calls: u32,
    most_calls: u32,
}

impl Model for MainMemory {
    ghost use Rattle.std.specs.Prelude.{◌≤◌, ◌<◌, ◌+◌, ◌^◌, [], length, drop};
    ghost use Rattle.css_semantics.specs.Memory.{Memory};

    ghost Value = { Memory };

    ghost view = { λ m. record {
      globals = [];
      heap = [];
      stack = drop m.start m.bytes.items;
      end = m.origin + length m.bytes.items;
      calls = m.calls;
      limit = record { bytes = length m.bytes.items; calls = m.most_calls };
    } };

    ghost invariant = { λ m. (m.start ≤ length m.bytes.items) × (m.origin + length m.bytes.items < 2 ^ 32) };
}

impl MainMemory {
    /// A memory of so many bytes without globals, heap and frames. With `plain` the stack has the limits of a run where pragmas are
    /// erased, else main's of the other runs; room for the first lies above 4,096 in either case. Takes its memory here.
    pub fn new(alloc: Global, size: u32, plain: bool) -> Result<MainMemory, NoMemory>
        requires { first_global + STACK_LIMIT ≤ size }
        ensures { IfOk result (λ m. m ≡ record (no_globals size).memory { limit = if plain then erased_stack else main_stack }) }
    {
        let (limit, most_calls) = if plain {
            (STACK_LIMIT, OPEN_CALLS)
        } else {
            (MAIN_STACK_LIMIT, MAIN_OPEN_CALLS)
        };
        Ok(MainMemory {
            origin: size - limit,
            bytes: vec![in alloc; 0; limit as usize]?,
            start: limit as usize,
            calls: 0,
            most_calls,
        })
    }

    /// The address of the stack's first byte, or the memory's end where no frame is open.
    pub fn place(&self) -> u32
        ensures { result ≡ stack_place self.now }
    {
        self.origin + self.start as u32
    }

    /// Whether so many bytes from an address are live.
    pub fn has(&self, address: u32, count: usize) -> bool
        requires { 1 ≤ count }
        ensures { result ≡ is_live self.now address count }
    {
        self.live_offset(address, count).is_some()
    }

    /// A copy of a live window's bytes, row by row.
    pub fn snapshot(&self, alloc: Global, part: Window) -> Result<Buffer, NoMemory>
        requires is_window { IsWindow (window part) }
        requires live { all_of_window (is_live_byte self.now) (window part) ≡ true }
        ensures { IfOk result (λ bytes. bytes ≡ bytes_of_window self.now (window part)) }
    {
        let first = (part.base - self.origin) as usize;
        let bytes = copied_rows(alloc, &self.bytes, first, part)?;
        Buffer::new(alloc, bytes)
    }

    /// Writes bytes into a live window, row by row.
    pub fn write_back(&mut self, part: Window, bytes: &[u8])
        requires is_window { IsWindow (window part) }
        requires live { all_of_window (is_live_byte self.old) (window part) ≡ true }
        requires whole { length bytes.now ≡ tasks.window_length (window part) }
        ensures { self.new ≡ with_window self.old (window part) bytes.now }
    {
        let first = (part.base - self.origin) as usize;
        write_rows(&mut self.bytes, first, part, bytes);
    }

    // How far behind the stack's first byte an address is, if so many bytes from it on are live.
    fn live_offset(&self, address: u32, count: usize) -> Option<usize>
        requires { 1 ≤ count }
        ensures live { is_live self.now address count ≡ is_some result }
        ensures place { IfSome result (λ offset. stack_place self.now + offset ≡ address) }
        ensures within { IfSome result (λ offset. offset + count ≤ length self.now.stack) }
    {
        let place = self.origin as usize + self.start;
        let end = self.origin as usize + self.bytes.len();
        let address = address as usize;
        if place <= address && count <= end && address <= end - count {
            Some(address - place)
        } else {
            None
        }
    }
}

impl Space for MainMemory {
    ghost use Rattle.css_semantics.specs.Memory.{after, stack_place};
    ghost use Rattle.css_semantics.specs.Flat.{memory_reply};
    ghost use Rattle.css_semantics.proofs.StackPlaces.{enters, lowers, leaves, loads, stores};

    ghost reply = { memory_reply };

    ghost learn = { after };

    ghost place = { stack_place };

    ghost place_moves = { record {
      enters = enters;
      lowers = lowers;
      leaves = leaves;
      loads = loads;
      stores = stores;
    } };

    #[inline]
    fn load(&mut self, address: u32, width: Width) -> Result<u64, Stop> {
        let count = byte_count(width);
        let Some(offset) = self.live_offset(address, count) else {
            return Err(Stop::Fault(FaultKind::OutsideMemory));
        };
        let index = self.start + offset;
        Ok(number_of(width, &self.bytes[index..index + count]))
    }

    #[inline]
    fn store(&mut self, address: u32, width: Width, value: u64) -> Result<(), Stop> {
        let Some(offset) = self.live_offset(address, byte_count(width)) else {
            return Err(Stop::Fault(FaultKind::OutsideMemory));
        };
        write_number(&mut self.bytes, self.start + offset, width, value);
        Ok(())
    }

    fn push_frame(&mut self, size: u32) -> Result<u32, Stop> {
        let size = size as usize;
        if size > self.start || self.calls >= self.most_calls {
            return Err(Stop::Rule(Rule::MainStack));
        }
        let start = self.start - size;
        self.bytes[start..self.start].fill(0);
        self.start = start;
        self.calls += 1;
        Ok(self.origin + start as u32)
    }

    fn pop_frame(&mut self, size: u32) -> Result<(), Stop> {
        let size = size as usize;
        if self.calls == 0 || size > self.bytes.len() - self.start {
            return Err(Stop::Fault(FaultKind::OutsideMemory));
        }
        self.start += size;
        self.calls -= 1;
        Ok(())
    }
}
