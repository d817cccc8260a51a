//! The objects that tasks may still read or write.
ghost use Rattle.std.specs.Prelude.{◌≡◌, ◌<◌, ◌^◌, [], ◌∷◌, ◌++◌, false, true, not, ◌&&◌, ◌||◌, map, filter, All, OnOk, OnErr};
ghost use Rattle.std.specs.List.{list_any};
ghost use Rattle.css_semantics.specs.Pending.{some_from, with_argument, without_stored, is_named_by};
ghost use Rattle.css_semantics.specs.Rules.{meets, overlap};
ghost use Rattle.css_semantics.specs.Tasks.{plain, has_byte, is_same_window};
ghost use Rattle.css_judged.specs.Judged.{plain_argument};
ghost use Rattle.css_judged.specs.Objects.{object, IsBetween, as_row, is_left};

use css_base::NoMemory;
use std::alloc::Global;
use std::marker::Model;

/// The bytes of a plain task's window.
pub(crate) const WIDTH: u32 = 4;

/// An object, which so far is one row, and whether a task may write it.
#[derive(Clone, Copy)]
pub(crate) struct Pending {
    base: u32,
    width: u32,
    is_written: bool,
}

impl Pending {
    // Whether it has one of so many bytes from an address.
    fn meets(&self, address: u32, count: u32) -> bool
        ensures { result ≡ some_from (has_byte (plain self.now.base self.now.width)) address count }
    {
        let base = u64::from(self.base);
        let from = u64::from(address);
        let first = base.max(from);
        let end = (base + u64::from(self.width)).min(from + u64::from(count));
        first < end
    }

    // Whether it stays where so many bytes from an address are stored into.
    fn is_left(&self, address: u32, count: u32) -> bool
        ensures { result ≡ is_left self.now address count }
    {
        self.is_written || !self.meets(address, count)
    }

    // Whether it is the row of a plain task at this address.
    fn is_row(&self, base: u32) -> bool
        ensures { result ≡ is_same_window (plain base 4) (plain self.now.base self.now.width) }
    {
        self.base == base && self.width == WIDTH
    }
}

/// The pending objects. Contracts see their list.
#[derive(Drop)]
pub(crate) struct Objects {
    items: Vec<Pending>,
    // The bytes of all of them are from the lower address on, up to the higher one.
    low: u64,
    high: u64,
}

impl Model for Objects {
    ghost use Rattle.std.specs.Prelude.{List, map, All};
    ghost use Rattle.css_semantics.specs.Pending.{Object};
    ghost use Rattle.css_judged.specs.Objects.{object, IsBetween};

    ghost Value = { List Object };

    ghost view = { λ m. map object m.items.items };

    ghost invariant = { λ m. All (IsBetween m.low m.high) m.items.items };
}

impl Objects {
    /// No object.
    pub(crate) fn new(alloc: Global) -> Objects
        ensures { result ≡ [] }
    {
        Objects {
            items: Vec::new(alloc),
            low: u64::MAX,
            high: 0,
        }
    }

    /// None is pending any more.
    pub(crate) fn clear(&mut self)
        ensures { self.new ≡ [] }
    {
        self.items.clear();
        self.low = u64::MAX;
        self.high = 0;
    }

    /// Whether one of so many bytes from an address may be one of an object.
    #[inline]
    pub(crate) fn is_near(&self, address: u32, count: u32) -> bool
        ensures { result ≡ false → All (λ o. some_from (has_byte o.window) address count ≡ false) self.now }
    {
        u64::from(address) < self.high && self.low < u64::from(address) + u64::from(count)
    }

    /// Whether a task may write one of so many bytes from an address.
    pub(crate) fn has_written(&self, address: u32, count: u32) -> bool
        ensures { result ≡ meets (λ o. o.is_written) self.now address count }
    {
        self.is_near(address, count) && meets_written(&self.items, address, count)
    }

    /// Whether an object has one of so many bytes from an address.
    pub(crate) fn has(&self, address: u32, count: u32) -> bool
        ensures { result ≡ meets (λ o. true) self.now address count }
    {
        self.is_near(address, count) && meets_any(&self.items, address, count)
    }

    /// Whether the row of a plain task at this address shares a byte with an object and isn't equal to it.
    pub(crate) fn overlaps(&self, base: u32) -> bool
        ensures { result ≡ list_any (λ o. overlap (plain base 4) o.window) self.now }
    {
        self.is_near(base, WIDTH) && overlaps_one(&self.items, base)
    }

    /// With the row of a plain task at this address. `NoMemory` leaves all as it was.
    pub(crate) fn add(&mut self, base: u32) -> Result<(), NoMemory>
        ensures added { OnOk result (self.new ≡ with_argument self.old (plain_argument base)) }
        ensures stays { OnErr result (self.new ≡ self.old) }
    {
        if has_row(&self.items, base) {
            write_rows(&mut self.items, base);
            return Ok(());
        }
        self.items.push(Pending {
            base,
            width: WIDTH,
            is_written: true,
        })?;
        self.low = self.low.min(u64::from(base));
        self.high = self.high.max(u64::from(base) + u64::from(WIDTH));
        Ok(())
    }

    /// Without the objects that are only read and have one of so many bytes from an address.
    pub(crate) fn remove_stored(&mut self, address: u32, count: u32)
        ensures { self.new ≡ without_stored self.old address count }
    {
        if self.is_near(address, count) {
            self.items.retain(|o| o.is_left(address, count));
            (self.low, self.high) = bounds_of(&self.items);
        }
    }
}

// Addresses between which all bytes of some objects are: the lowest of any, and the one behind the highest.
fn bounds_of(objects: &[Pending]) -> (u64, u64)
    ensures { All (IsBetween result.0 result.1) objects.now }
{
    let mut low = u64::MAX;
    let mut high = 0;
    for o in objects {
        low = low.min(u64::from(o.base));
        high = high.max(u64::from(o.base) + u64::from(o.width));
    }
    (low, high)
}

// Whether one that a task may write has one of so many bytes from an address.
fn meets_written(objects: &[Pending], address: u32, count: u32) -> bool
    ensures { result ≡ meets (λ o. o.is_written) (map object objects.now) address count }
{
    for o in objects {
        if o.is_written && o.meets(address, count) {
            return true;
        }
    }
    false
}

// Whether one has one of so many bytes from an address.
fn meets_any(objects: &[Pending], address: u32, count: u32) -> bool
    ensures { result ≡ meets (λ o. true) (map object objects.now) address count }
{
    for o in objects {
        if o.meets(address, count) {
            return true;
        }
    }
    false
}

// Whether one shares a byte with the row of a plain task, and isn't equal to it.
fn overlaps_one(objects: &[Pending], base: u32) -> bool
    ensures { result ≡ list_any (λ o. overlap (plain base 4) o.window) (map object objects.now) }
{
    for o in objects {
        if o.meets(base, WIDTH) && !o.is_row(base) {
            return true;
        }
    }
    false
}

// Whether one is the row of a plain task.
fn has_row(objects: &[Pending], base: u32) -> bool
    ensures { result ≡ list_any (is_named_by (plain_argument base)) (map object objects.now) }
{
    for o in objects {
        if o.is_row(base) {
            return true;
        }
    }
    false
}

// A task may write those that are the row of a plain task.
fn write_rows(objects: &mut [Pending], base: u32)
    ensures { objects.new ≡ map (as_row base) objects.old }
{
    for o in objects.iter_mut() {
        if o.is_row(base) {
            o.is_written = true;
        }
    }
}
