//! The windows of a task.
ghost use Rattle.std.specs.Prelude.{◌≡◌, ◌≤◌, ◌<◌, ◌+◌, ◌||◌, true, drop, length, map, slice_get, is_some, Some, IfSome, IfOk};
ghost use Rattle.std.specs.List.{list_any};
ghost use Rattle.css_semantics.specs.Rules.{is_in_window};
ghost use Rattle.css_semantics.specs.Tasks.{writes};
ghost use Rattle.css_task.specs.Placing.{uses_of, ArePlaced, IsHit};

use crate::placed::Placed;
use css_base::{Direction, NoMemory};
use std::alloc::Global;

/// A window's base, and its number.
#[derive(Clone, Copy)]
pub(crate) struct Based {
    base: u32,
    number: usize,
}

/// Windows in order of parameters, their bases in rising order, and the number of the one that was hit last.
#[derive(Drop)]
pub(crate) struct Windows {
    pub(crate) all: Vec<Placed>,
    by_base: Vec<Based>,
    last: usize,
}

/// Where an access is: the offset of its first byte among the bytes of all windows, and what the task does with its window.
#[derive(Clone, Copy)]
pub(crate) struct Hit {
    pub(crate) offset: usize,
    pub(crate) direction: Direction,
}

impl Hit {
    /// Whether the task may write there.
    pub(crate) fn is_writable(&self) -> bool
        ensures { result ≡ writes self.now.direction }
    {
        match self.direction {
            Direction::In => false,
            Direction::Out => true,
            Direction::InOut => true,
        }
    }
}

impl Windows {
    /// These windows, with their bases sorted.
    pub(crate) fn new(alloc: Global, all: Vec<Placed>) -> Result<Windows, NoMemory>
        ensures { IfOk result (λ w. w.all ≡ all) }
    {
        let mut by_base = Vec::new(alloc);
        for number in 0..all.len() {
            by_base.push(Based {
                base: all[number].window.base,
                number,
            })?;
        }
        by_base.sort_unstable_by_key(|w| w.base);
        Ok(Windows {
            all,
            by_base,
            last: 0,
        })
    }

    /// Where so many bytes from an address are, if they are wholly in one row of one of the windows. Tries the one that was hit last
    /// first, then the one with the greatest base up to the address, which has them where the windows don't stand between one
    /// another's rows, and then all.
    pub(crate) fn find(&mut self, address: u32, count: usize) -> Option<Hit>
        requires placed { ArePlaced self.old.all.items }
        requires some { 1 ≤ count }
        requires few { count ≤ 8 }
        ensures has { list_any (λ u. is_in_window u.window address count) (uses_of self.old.all.items) ≡ is_some result }
        ensures is { IfSome result (λ h. IsHit self.old.all.items address count h.offset h.direction) }
        ensures same { self.new.all ≡ self.old.all }
    {
        if self.last < self.all.len() {
            if let Some(hit) = self.hit(self.last, address, count) {
                return Some(hit);
            }
        }
        let near = self.near(address);
        if near < self.all.len() {
            if let Some(hit) = self.hit(near, address, count) {
                self.last = near;
                return Some(hit);
            }
        }
        for number in 0..self.all.len() {
            if let Some(hit) = self.hit(number, address, count) {
                self.last = number;
                return Some(hit);
            }
        }
        None
    }

    // The number of the window with the greatest base up to an address, by a binary search. No answer depends on it, only the time.
    fn near(&self, address: u32) -> usize {
        let behind = self.by_base.partition_point(|w| w.base <= address);
        if behind == 0 {
            return 0;
        }
        self.by_base[behind - 1].number
    }

    // Where they are in the window of a number.
    fn hit(&self, number: usize, address: u32, count: usize) -> Option<Hit>
        requires placed { ArePlaced self.now.all.items }
        requires within { number < length self.now.all.items }
        requires some { 1 ≤ count }
        requires few { count ≤ 8 }
        ensures has { list_any (λ u. is_in_window u.window address count) (uses_of (drop number self.now.all.items)) ≡ (is_some result || list_any (λ u. is_in_window u.window address count) (uses_of (drop (number + 1) self.now.all.items))) }
        ensures any { is_some result ≡ true → list_any (λ u. is_in_window u.window address count) (uses_of self.now.all.items) ≡ true }
        ensures is { IfSome result (λ h. IsHit self.now.all.items address count h.offset h.direction) }
    {
        let placed = &self.all[number];
        match placed.offset(address, count) {
            Some(offset) => Some(Hit {
                offset: placed.first + offset,
                direction: placed.direction,
            }),
            None => None,
        }
    }
}
