//! A small memory.
ghost use Rattle.std.specs.Prelude.{◌≡◌, IfOk};

use css_base::{FaultKind, NoMemory, Rule, Stop};
use css_isa::{Space, Width, byte_count, number_of, write_number};
use std::alloc::Global;
use std::marker::Model;

// A memory of which each byte is live, from address 0 on, with frames that aren't set to zero.
#[derive(Drop)]
pub(crate) struct Ram {
    bytes: Vec<u8>,
    place: usize,
}

impl Model for Ram {
    ghost use Rattle.std.specs.Prelude.{◌≤◌, ◌<◌, ◌^◌, length};
    ghost use Rattle.css_machine_whole_tests.specs.Rams.{Seen};

    ghost Value = { Seen };

    ghost view = { λ r. record { bytes = r.bytes.items; place = r.place } };

    ghost invariant = { λ r. (r.place ≤ length r.bytes.items) × (length r.bytes.items < 2 ^ 32) };
}

impl Ram {
    // With so many bytes, and no frame.
    pub(crate) fn new(alloc: Global, size: u32) -> Result<Ram, NoMemory>
        ensures { IfOk result (λ r. r.place ≡ size) }
    {
        let mut bytes = Vec::new(alloc);
        bytes.resize(size as usize, 0)?;
        Ok(Ram {
            bytes,
            place: size as usize,
        })
    }
}

impl Space for Ram {
    ghost use Rattle.css_machine_whole_tests.specs.Rams.{ram_reply, ram_learn, ram_place};
    ghost use Rattle.css_machine_whole_tests.specs.Places.{enters, lowers, leaves, loads, stores};

    ghost reply = { ram_reply };

    ghost learn = { ram_learn };

    ghost place = { ram_place };

    ghost place_moves = { record {
      enters = enters;
      lowers = lowers;
      leaves = leaves;
      loads = loads;
      stores = stores;
    } };

    fn load(&mut self, address: u32, width: Width) -> Result<u64, Stop> {
        let start = address as usize;
        let end = start + byte_count(width);
        if end > self.bytes.len() {
            return Err(Stop::Fault(FaultKind::OutsideMemory));
        }
        Ok(number_of(width, &self.bytes[start..end]))
    }

    fn store(&mut self, address: u32, width: Width, value: u64) -> Result<(), Stop> {
        let start = address as usize;
        if start + byte_count(width) > self.bytes.len() {
            return Err(Stop::Fault(FaultKind::OutsideMemory));
        }
        write_number(&mut self.bytes, start, width, value);
        Ok(())
    }

    fn push_frame(&mut self, size: u32) -> Result<u32, Stop> {
        let size = size as usize;
        if size > self.place {
            return Err(Stop::Rule(Rule::MainStack));
        }
        self.place -= size;
        Ok(self.place as u32)
    }

    fn pop_frame(&mut self, size: u32) -> Result<(), Stop> {
        let end = self.place + size as usize;
        if end > self.bytes.len() {
            return Err(Stop::Fault(FaultKind::OutsideMemory));
        }
        self.place = end;
        Ok(())
    }
}
