//! The stack of a task alone.
ghost use Rattle.std.specs.Prelude.{◌≡◌, ◌+◌, ◌≤◌, ◌<◌, ◌^◌, [], length, IfOk, IfSome, is_some};
ghost use Rattle.css_semantics.specs.Rules.{is_in_frame};
ghost use Rattle.css_semantics.specs.TaskSpaces.{place_of, total};

use css_base::{FaultKind, NoMemory, Rule, Stop};
use css_vm::{Space, Width, byte_count, number_of, write_number};
use std::alloc::Global;
use std::marker::Model;

/// The most bytes of a task's stack.
const STACK_BYTES: usize = 16_384;

/// The most open calls of a task.
const OPEN_CALLS: usize = 1_024;

/// The stack of a task: a memory without windows. Contracts see its bytes and its frames.
#[derive(Drop)]
pub(crate) struct TaskStack {
    // All bytes that the stack may have, which end at this address, and the index from which on they are live.
    end: u32,
    stack: Vec<u8>,
    start: usize,
    // Room for the sizes of all open frames, and the index of the innermost.
    sizes: Vec<u32>,
    innermost: usize,
}

impl Model for TaskStack {
    ghost use Rattle.std.specs.Prelude.{drop, []};
    ghost use Rattle.css_semantics.specs.TaskSpaces.{TaskState};
    ghost use Rattle.css_task.specs.KeptStack.{IsStack};

    ghost Value = { TaskState };

    ghost view = { λ m. record {
      memory = record { regions = []; place = m.end; stack = drop m.start m.stack.items };
      frames = drop m.innermost m.sizes.items;
    } };

    ghost invariant = { λ m. IsStack m.end m.start m.innermost m.stack.items m.sizes.items };
}

impl TaskStack {
    /// No frame below a stack place. Takes its memory here.
    pub(crate) fn new(alloc: Global, place: u32) -> Result<TaskStack, NoMemory>
        requires room { 16384 ≤ place }
        ensures { IfOk result (λ s. s ≡ record {
          memory = record { regions = []; place = place; stack = [] };
          frames = [];
        }) }
    {
        Ok(TaskStack {
            end: place,
            stack: vec![in alloc; 0; STACK_BYTES]?,
            start: STACK_BYTES,
            sizes: vec![in alloc; 0; OPEN_CALLS]?,
            innermost: OPEN_CALLS,
        })
    }

    // The address of the stack's first live byte.
    fn place(&self) -> u32
        ensures { result ≡ place_of self.now }
    {
        self.end - (STACK_BYTES - self.start) as u32
    }

    // The index in the stack of the first of so many bytes from an address, if they are in one frame.
    fn stack_index(&self, address: u32, count: usize) -> Option<usize>
        requires { count ≤ 8 }
        ensures has { is_in_frame self.now.memory.place self.now.frames address count ≡ is_some result }
        ensures place { IfSome result (λ index. address + 16384 ≡ self.now.memory.place + index) }
        ensures within { IfSome result (λ index. (16384 ≤ index + length self.now.memory.stack) × (index + count ≤ 16384)) }
    {
        let place = self.place();
        if lies_in_frame(&self.sizes[self.innermost..], place, address, count) {
            Some(self.start + (address - place) as usize)
        } else {
            None
        }
    }
}

// Whether so many bytes from an address are in one of these frames, the first of which begins at this place.
fn lies_in_frame(sizes: &[u32], mut place: u32, address: u32, count: usize) -> bool
    requires counts { count ≤ 8 }
    requires whole { place + total sizes.now < 2 ^ 32 }
    ensures { result ≡ is_in_frame (place + total sizes.now) sizes.now address count }
{
    for i in 0..sizes.len() {
        if place <= address && address as usize + count <= (place + sizes[i]) as usize {
            return true;
        }
        place += sizes[i];
    }
    false
}

impl Space for TaskStack {
    ghost use Rattle.css_semantics.specs.TaskSpaces.{place_of, space_reply, space_after};
    ghost use Rattle.css_semantics.proofs.TaskPlaces.{enters, lowers, leaves, loads, stores};

    ghost reply = { space_reply };

    ghost learn = { space_after };

    ghost place = { place_of };

    ghost place_moves = { record {
      enters = enters;
      lowers = lowers;
      leaves = leaves;
      loads = loads;
      stores = stores;
    } };

    fn load(&mut self, address: u32, width: Width) -> Result<u64, Stop> {
        let count = byte_count(width);
        if let Some(index) = self.stack_index(address, count) {
            return Ok(number_of(width, &self.stack[index..index + count]));
        }
        Err(Stop::Rule(Rule::OutsideArguments))
    }

    fn store(&mut self, address: u32, width: Width, value: u64) -> Result<(), Stop> {
        let count = byte_count(width);
        if let Some(index) = self.stack_index(address, count) {
            write_number(&mut self.stack, index, width, value);
            return Ok(());
        }
        Err(Stop::Rule(Rule::OutsideArguments))
    }

    fn push_frame(&mut self, size: u32) -> Result<u32, Stop> {
        let place = self.place();
        let bytes = size as usize;
        if bytes > self.start || self.innermost == 0 {
            return Err(Stop::Rule(Rule::TaskStack));
        }
        let start = self.start - bytes;
        self.stack[start..self.start].fill(0);
        self.start = start;
        self.innermost -= 1;
        self.sizes[self.innermost] = size;
        Ok(place - size)
    }

    fn pop_frame(&mut self, size: u32) -> Result<(), Stop> {
        if self.innermost == OPEN_CALLS || self.sizes[self.innermost] != size {
            return Err(Stop::Fault(FaultKind::OutsideMemory));
        }
        self.start += size as usize;
        self.innermost += 1;
        Ok(())
    }
}
