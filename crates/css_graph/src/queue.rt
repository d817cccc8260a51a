//! Numbers in order, in reserved room.
ghost use Rattle.std.specs.Prelude.{◌≡◌, ◌<◌, ◌≤◌, [], length, take, drop, option_copied, slice_get, OnErr, OnOk, IfOk, ◌++◌, not};
ghost use Rattle.std.specs.Prelude.{filter, nat_lt};
ghost use Rattle.std.specs.List.{insert, remove};
ghost use Rattle.std.specs.VecDeque.{deque_capacity};
ghost use Rattle.css_graph.specs.Nodes.{Queue as Numbers, put, below, begins_with};

use css_base::NoMemory;
use std::alloc::Global;
use std::collections::VecDeque;
use std::marker::Model;

/// Numbers in order, none twice. Contracts see their list, and for how many there is room.
#[derive(Drop)]
pub(crate) struct Queue {
    numbers: VecDeque<u64>,
}

impl Model for Queue {
    ghost use Rattle.std.specs.VecDeque.{deque_capacity};
    ghost use Rattle.css_graph.specs.Nodes.{Queue as Numbers, IsAscending};

    ghost Value = { Numbers };

    ghost view = { λ q. record { numbers = q.numbers.items; room = deque_capacity q.numbers } };

    ghost invariant = { λ q. IsAscending q.numbers.items };
}

impl Queue {
    /// No numbers. Takes no memory.
    pub(crate) fn new(alloc: Global) -> Queue
        ensures { result.numbers ≡ [] }
    {
        Queue {
            numbers: VecDeque::new(alloc),
        }
    }

    /// Makes room for so many numbers. `NoMemory` leaves the room as it is.
    pub(crate) fn reserve(&mut self, room: usize) -> Result<(), NoMemory>
        ensures numbers { self.new.numbers ≡ self.old.numbers }
        ensures room { OnOk result (room ≤ self.new.room) }
        ensures kept { self.old.room ≤ self.new.room }
    {
        let len = self.numbers.len();
        if room > len {
            self.numbers.reserve(room - len)?;
        }
        Ok(())
    }

    /// Makes room for one more number.
    pub(crate) fn reserve_one(&mut self) -> Result<(), NoMemory>
        ensures numbers { self.new.numbers ≡ self.old.numbers }
        ensures room { OnOk result (length self.old.numbers < self.new.room) }
    {
        Ok(self.numbers.reserve(1)?)
    }

    /// How many numbers there are.
    pub(crate) fn len(&self) -> usize
        ensures { result ≡ length self.now.numbers }
    {
        self.numbers.len()
    }

    /// The number at a place, if there is one.
    pub(crate) fn get(&self, place: usize) -> Option<u64>
        ensures { result ≡ slice_get self.now.numbers place }
    {
        self.numbers.get(place).copied()
    }

    /// Appends the first so many numbers to others.
    pub(crate) fn append_front(&self, numbers: &mut Vec<u64>, most: usize) -> Result<(), NoMemory>
        ensures { OnOk result (numbers.new.items ≡ numbers.old.items ++ take most self.now.numbers) }
    {
        let count = most.min(self.numbers.len());
        numbers.reserve(count)?;
        for place in 0..count {
            if let Some(number) = self.numbers.get(place) {
                numbers.push(*number)?;
            }
        }
        Ok(())
    }

    /// How many numbers stand below this one.
    fn place_of(&self, number: u64) -> usize
        ensures before { take result self.now.numbers ≡ below number self.now.numbers }
        ensures after { drop result self.now.numbers ≡ filter (λ m. not (nat_lt m number)) self.now.numbers }
        ensures bound { result ≤ length self.now.numbers }
    {
        self.numbers.partition_point(|m| *m < number)
    }

    /// Whether a number stands at a place.
    fn stands_at(&self, place: usize, number: u64) -> bool
        ensures { result ≡ begins_with (drop place self.now.numbers) number }
    {
        match self.numbers.get(place) {
            Some(found) => *found == number,
            None => false,
        }
    }

    /// Puts a number in, or takes it out.
    pub(crate) fn put(&mut self, number: u64, wanted: bool)
        requires { length (put number wanted self.old.numbers) ≤ self.old.room }
        ensures numbers { self.new.numbers ≡ put number wanted self.old.numbers }
        ensures room { self.old.room ≤ self.new.room }
    {
        let place = self.place_of(number);
        if self.stands_at(place, number) == wanted {
            return;
        }
        if wanted {
            insert_at(&mut self.numbers, place, number);
        } else {
            remove_at(&mut self.numbers, place);
        }
    }

    /// Takes out the numbers that don't stand below this one.
    pub(crate) fn keep_below(&mut self, number: u64)
        ensures numbers { self.new.numbers ≡ below number self.old.numbers }
        ensures room { self.old.room ≤ self.new.room }
    {
        let place = self.place_of(number);
        self.numbers.truncate(place);
    }
}

/// Inserts a number at a place, where there is room.
fn insert_at(numbers: &mut VecDeque<u64>, place: usize, number: u64)
    requires within { place ≤ length numbers.old.items }
    requires room { length numbers.old.items < deque_capacity numbers.old }
    ensures items { numbers.new.items ≡ insert numbers.old.items place number }
    ensures capacity { deque_capacity numbers.old ≤ deque_capacity numbers.new }
{
    match numbers.insert(place, number) {
        Ok(()) => {}
        Err(_) => unreachable!(),
    }
}

/// Removes the number at a place.
fn remove_at(numbers: &mut VecDeque<u64>, place: usize)
    requires { place < length numbers.old.items }
    ensures items { numbers.new.items ≡ remove numbers.old.items place }
    ensures capacity { deque_capacity numbers.new ≡ deque_capacity numbers.old }
{
    match numbers.remove(place) {
        Some(_) => {}
        None => unreachable!(),
    }
}
