//! Main's flat memory.
ghost use Rattle.std.specs.Prelude.{◌≡◌, ◌+◌, ◌≤◌, ◌<◌, ◌^◌, true, ℕ, false, List, [], ◌∷◌, ◌++◌, length, IfOk, OnOk, OnErr, IfErr, if◌then◌else◌};
ghost use Rattle.css_semantics.specs.declared.TheConstants.{STACK_LIMIT};
ghost use Rattle.css_semantics.specs.Dialogue.{Load, Store, Malloc, Says};
ghost use Rattle.css_semantics.specs.Memory.{rounded_up, first_global, heap_top, stack_place, is_live, is_live_byte, bytes_at, big_endian_bytes, stored};
ghost use Rattle.css_semantics.specs.Flat.{erased_stack};
ghost use Rattle.css_semantics.specs.WithWindow.{with_window};
ghost use Rattle.css_semantics.specs.Rules.{main_stack, all_of_window};
ghost use Rattle.css_semantics.specs.Tasks as tasks;
ghost use Rattle.css_semantics.specs.Verdict.{bytes_of_window};
ghost use Rattle.css_record.specs.Windows.{window, IsWindow};
ghost use Rattle.css_isa.specs.Code.{code_of};
ghost use Rattle.css_isa.specs.Spaces.{bytes_of, IsRefusal};
ghost use Rattle.css_memory.specs.Main.{main_reply, main_after};
ghost use Rattle.css_memory.specs.Starts.{start_of};
ghost use Rattle.css_memory.specs.Layouts.{layout_of};
ghost use Rattle.css_memory.specs.Pages.{touches, IsApart, AreMarked, MayMark};

use crate::layouts::{is_inside, is_within};
use crate::overlay::overlay;
use crate::pages::Pages;
use crate::start::first_bytes;
use css_base::{Buffer, FaultKind, Limits, NoMemory, Rule, Stop};
use css_isa::{Code, Space, Width, byte_count, number_of, write_number};
use css_record::{Layout, Window};
use css_semantics::{MAIN_OPEN_CALLS, MAIN_STACK_LIMIT, OPEN_CALLS, STACK_LIMIT};
use std::alloc::Global;
use std::marker::Model;

/// The address of the first global.
pub(crate) const FIRST: u32 = 4096;

/// Main's memory: globals, heap and stack. Contracts see the flat memory, and how many bytes of marked windows each page has. Room for
/// all of it is taken when it is made; of what isn't used yet nothing is touched but the stack.
#[derive(Drop)]
pub struct MainMemory {
    // The bytes from the first global up to the heap's top. There is room for those up to the heap's end.
    low: Vec<u8>,
    globals_end: u32,
    heap_start: u32,
    // All bytes that the stack may have, and the address of the first of them. They end where the memory does.
    high: Vec<u8>,
    origin: u32,
    // The index from which on they are live.
    start: usize,
    // How many calls are open, and how many may be.
    calls: u32,
    most_calls: u32,
    pages: Pages,
}

impl Model for MainMemory {
    ghost use Rattle.css_memory.specs.Main.{Main};
    ghost use Rattle.css_memory.specs.Held.{main, IsHeld};

    ghost Value = { Main };

    ghost view = { main };

    ghost invariant = { IsHeld };
}

impl MainMemory {
    /// The memory in which a code starts, with the limits' bytes. With `plain` the stack has the limits of a run where pragmas are
    /// erased, else main's of the other runs; room for the first lies above the heap in either case. Takes all its memory here.
    pub fn new(
        alloc: Global,
        code: &Code,
        limits: &Limits,
        plain: bool,
    ) -> Result<MainMemory, NoMemory>
        requires globals { first_global ≤ code.now.globals_end }
        requires room { rounded_up 16 code.now.globals_end + STACK_LIMIT ≤ limits.now.memory }
        ensures memory { IfOk result (λ m. m.memory ≡ start_of (code_of code.now) limits.now.memory (if plain then erased_stack else main_stack)) }
        ensures marked { IfOk result (λ m. AreMarked m.pages []) }
    {
        let (limit, most_calls) = if plain {
            (STACK_LIMIT, OPEN_CALLS)
        } else {
            (MAIN_STACK_LIMIT, MAIN_OPEN_CALLS)
        };
        let size = limits.memory;
        let heap_start = (code.globals_end + 15) / 16 * 16;
        let room = (size - STACK_LIMIT - FIRST) as usize;
        let low = first_bytes(
            alloc,
            code.datums.as_slice(),
            (heap_start - FIRST) as usize,
            room,
        )?;
        let high = vec![in alloc; 0; limit as usize]?;
        let pages = Pages::new(alloc, size)?;
        Ok(MainMemory {
            low,
            globals_end: code.globals_end,
            heap_start,
            high,
            origin: size - limit,
            start: limit as usize,
            calls: 0,
            most_calls,
            pages,
        })
    }

    /// Where its parts begin and end. The heap's top is never above the stack place.
    pub fn layout(&self) -> Layout
        ensures parts { result ≡ layout_of self.now.memory }
        ensures order { heap_top self.now.memory ≤ stack_place self.now.memory }
    {
        Layout {
            globals_end: self.globals_end,
            heap_start: self.heap_start,
            heap_top: FIRST + self.low.len() as u32,
            stack_place: self.origin + self.start as u32,
            end: self.origin + self.high.len() as u32,
        }
    }

    /// The address of the stack's first byte, or the memory's end where no frame is open.
    pub fn place(&self) -> u32
        ensures { result ≡ stack_place self.now.memory }
    {
        self.origin + self.start as u32
    }

    /// Whether so many bytes from an address are live. Of none, they are.
    pub fn live(&self, address: u32, length: u32) -> bool
        ensures { result ≡ is_live self.now.memory address length }
    {
        if length == 0 {
            return true;
        }
        is_within(
            &self.layout(),
            u64::from(address),
            u64::from(address) + u64::from(length),
        )
    }

    /// Lends the bytes of the globals. They, those of the heap and those of the stack, joined, are all live bytes.
    pub fn globals(&self) -> &[u8]
        ensures { result.now ≡ self.now.memory.globals }
    {
        &self.low[..(self.globals_end - FIRST) as usize]
    }

    /// Lends the bytes of the heap up to its top.
    pub fn heap(&self) -> &[u8]
        ensures { result.now ≡ self.now.memory.heap }
    {
        &self.low[(self.heap_start - FIRST) as usize..]
    }

    /// Lends the bytes of the stack from its place on.
    pub fn stack(&self) -> &[u8]
        ensures { result.now ≡ self.now.memory.stack }
    {
        &self.high[self.start..]
    }

    /// So many zeros more at the heap's top, up to the next multiple of 16, and their address; or 0, where they are none or the heap's
    /// end would be passed. Takes no memory.
    pub fn malloc(&mut self, length: u32) -> u32
        ensures says { main_reply self.old (Malloc length) ≡ Says result }
        ensures learns { self.new ≡ main_after self.old (Malloc length) }
    {
        let top = FIRST as usize + self.low.len();
        let more = (length as usize + 15) / 16 * 16;
        let end = self.origin as usize + self.high.len() - STACK_LIMIT as usize;
        if length == 0 || top + more > end {
            return 0;
        }
        // There is room for it.
        let grown = self.low.resize(top - FIRST as usize + more, 0);
        if grown.is_ok() { top as u32 } else { 0 }
    }

    // Reads live bytes from an address on.
    fn read(&self, address: usize, into: &mut [u8])
        requires { is_live self.now.memory address (length into.old) ≡ true }
        ensures { into.new ≡ bytes_at self.now.memory address (length into.old) }
    {
        overlay(into, address, FIRST as usize, &self.low);
        overlay(into, address, self.origin as usize, &self.high);
    }

    // Writes bytes from an address on, as far as they are live.
    fn write(&mut self, address: usize, new: &[u8])
        ensures { self.new ≡ record self.old { memory = stored self.old.memory address new.now } }
    {
        overlay(&mut self.low, FIRST as usize, address, new);
        overlay(&mut self.high, self.origin as usize, address, new);
    }

    /// A copy of a live window's bytes, row by row.
    pub fn snapshot(&self, alloc: Global, part: Window) -> Result<Buffer, NoMemory>
        requires is_window { IsWindow (window part) }
        requires live { all_of_window (is_live_byte self.now.memory) (window part) ≡ true }
        ensures { IfOk result (λ bytes. bytes ≡ bytes_of_window self.now.memory (window part)) }
    {
        let mut copied = vec![in alloc; 0; part.length() as usize]?;
        let width = part.width as usize;
        let mut at = part.base as usize;
        let mut done = 0;
        for row in 0..part.rows {
            self.read(at, &mut copied[done..done + width]);
            at += part.stride as usize;
            done += width;
        }
        Buffer::new(alloc, copied)
    }

    /// Writes bytes into a window, row by row.
    pub fn write_back(&mut self, part: Window, bytes: &[u8])
        requires is_window { IsWindow (window part) }
        requires whole { length bytes.now ≡ tasks.window_length (window part) }
        ensures { self.new ≡ record self.old { memory = with_window self.old.memory (window part) bytes.now } }
    {
        let width = part.width as usize;
        let mut at = part.base as usize;
        let mut done = 0;
        for row in 0..part.rows {
            self.write(at, &bytes[done..done + width]);
            at += part.stride as usize;
            done += width;
        }
    }

    /// With `more` a window is marked on its pages beside those that are, and else it isn't any more. Takes no memory.
    pub fn mark_pages(&mut self, part: Window, more: bool)
        requires is_window { IsWindow (window part) }
        requires live { more ≡ true → all_of_window (is_live_byte self.old.memory) (window part) ≡ true }
        requires may { MayMark more self.old.pages (window part) }
        ensures memory { self.new.memory ≡ self.old.memory }
        ensures more { more ≡ true → (before after : List tasks.Window) → AreMarked self.old.pages (before ++ after) → IsApart (before ++ after) (window part) → AreMarked self.new.pages (before ++ window part ∷ after) }
        ensures fewer { more ≡ false → (before after : List tasks.Window) → AreMarked self.old.pages (before ++ window part ∷ after) → AreMarked self.new.pages (before ++ after) }
    {
        if more {
            self.pages.mark(part);
        } else {
            self.pages.unmark(part);
        }
    }

    /// Whether one of so many bytes from an address stands on a page on which a marked window has a byte.
    #[inline]
    pub fn touches(&self, address: u32, length: u32) -> bool
        ensures { (marked : List tasks.Window) → AreMarked self.now.pages marked → result ≡ touches marked address length }
    {
        self.pages.touches(address, length)
    }

    // Loads where the bytes aren't all the stack's, the heap's or the globals': none of them are live, or they go from one part to the
    // next.
    fn load_across(&self, address: u32, width: Width) -> Result<u64, Stop>
        ensures says { IfOk result (λ value. main_reply self.now (Load address (bytes_of width)) ≡ Says value) }
        ensures refuses { IfErr result (λ stop. IsRefusal (main_reply self.now (Load address (bytes_of width))) stop) }
    {
        let count = byte_count(width);
        if !self.live(address, count as u32) {
            return Err(Stop::Fault(FaultKind::OutsideMemory));
        }
        let mut bytes = [0; 8];
        self.read(address as usize, &mut bytes[..count]);
        Ok(number_of(width, &bytes[..count]))
    }

    // Stores there.
    fn store_across(&mut self, address: u32, width: Width, value: u64) -> Result<(), Stop>
        ensures says { OnOk result ((r : ℕ) × (main_reply self.old (Store address (big_endian_bytes (bytes_of width) value)) ≡ Says r)) }
        ensures refuses { IfErr result (λ stop. IsRefusal (main_reply self.old (Store address (big_endian_bytes (bytes_of width) value))) stop) }
        ensures learns { OnOk result (self.new ≡ main_after self.old (Store address (big_endian_bytes (bytes_of width) value))) }
        ensures stays { OnErr result (self.new ≡ self.old) }
    {
        let count = byte_count(width);
        if !self.live(address, count as u32) {
            return Err(Stop::Fault(FaultKind::OutsideMemory));
        }
        let mut bytes = [0; 8];
        write_number(&mut bytes, 0, width, value);
        self.write(address as usize, &bytes[..count]);
        Ok(())
    }
}

impl Space for MainMemory {
    ghost use Rattle.css_memory.specs.Main.{main_reply, main_after, main_place, place_moves};

    ghost reply = { main_reply };

    ghost learn = { main_after };

    ghost place = { main_place };

    ghost place_moves = { place_moves };

    #[inline]
    fn load(&mut self, address: u32, width: Width) -> Result<u64, Stop> {
        let count = byte_count(width);
        let at = address as usize;
        let top = FIRST as usize + self.low.len();
        let origin = self.origin as usize;
        if is_inside(origin + self.start, origin + self.high.len(), at, count) {
            let index = at - origin;
            return Ok(number_of(width, &self.high[index..index + count]));
        }
        if is_inside(self.heap_start as usize, top, at, count) {
            let index = at - FIRST as usize;
            return Ok(number_of(width, &self.low[index..index + count]));
        }
        if is_inside(FIRST as usize, self.globals_end as usize, at, count) {
            let index = at - FIRST as usize;
            return Ok(number_of(width, &self.low[index..index + count]));
        }
        self.load_across(address, width)
    }

    #[inline]
    fn store(&mut self, address: u32, width: Width, value: u64) -> Result<(), Stop> {
        let count = byte_count(width);
        let at = address as usize;
        let top = FIRST as usize + self.low.len();
        let origin = self.origin as usize;
        if is_inside(origin + self.start, origin + self.high.len(), at, count) {
            write_number(&mut self.high, at - origin, width, value);
            return Ok(());
        }
        if is_inside(self.heap_start as usize, top, at, count) {
            write_number(&mut self.low, at - FIRST as usize, width, value);
            return Ok(());
        }
        if is_inside(FIRST as usize, self.globals_end as usize, at, count) {
            write_number(&mut self.low, at - FIRST as usize, width, value);
            return Ok(());
        }
        self.store_across(address, width, value)
    }

    fn push_frame(&mut self, size: u32) -> Result<u32, Stop> {
        let size = size as usize;
        if size > self.start || self.calls >= self.most_calls {
            return Err(Stop::Rule(Rule::MainStack));
        }
        let start = self.start - size;
        self.high[start..self.start].fill(0);
        self.start = start;
        self.calls += 1;
        Ok(self.origin + start as u32)
    }

    fn pop_frame(&mut self, size: u32) -> Result<(), Stop> {
        let size = size as usize;
        if self.calls == 0 || size > self.high.len() - self.start {
            return Err(Stop::Fault(FaultKind::OutsideMemory));
        }
        self.start += size;
        self.calls -= 1;
        Ok(())
    }
}
