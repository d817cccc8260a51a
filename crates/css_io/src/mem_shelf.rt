//! A shelf in memory.
ghost use Rattle.std.specs.Prelude.{◌≡◌, ◌≢◌, ◌+◌, ◌<◌, ◌≤◌, ◌^◌, ℕ, List, length, take, slice_index, vec_len, Contains, IsNone, IsErr, IsErrOf, IfOk, IfSome, OnOk, OnErr};
ghost use Rattle.css_io.specs.Outside.{Rose};
ghost use Rattle.css_io.specs.Calls.{one_more};
ghost use Rattle.css_io.specs.MemShelf.{files_of, place_of, file_of, count_of, SharesCount, NextFails};

use crate::calls::Calls;
use crate::shelf::{Shelf, ShelfFault, first_bytes};
use std::alloc::Global;
use std::marker::Model;

/// A shelf of files in memory, which fails at the calls that it is told and at names that it hasn't.
#[derive(Drop)]
pub struct MemShelf {
    files: Vec<(String, Vec<u8>)>,
    counts: Vec<u64>,
    others: u64,
    calls: Calls,
}

impl Model for MemShelf {
    ghost use Rattle.css_io.specs.MemShelf.{ShelfInMemory, files_of};

    ghost Value = { ShelfInMemory };

    ghost view = { λ s. record {
      files = files_of s.files.items;
      counts = s.counts.items;
      others = s.others;
      next = s.calls.next;
      failing = s.calls.failing.items;
    } };
}

impl MemShelf {
    /// A shelf of these files, by name, whose calls of these numbers fail; the first call is number 0. Of two files of one
    /// name the first counts.
    pub fn new(files: Vec<(String, Vec<u8>)>, failing: Vec<u64>) -> MemShelf
        ensures files { result.files ≡ files_of files.items }
        ensures faults { (n : List ℕ) → count_of result n ≡ 0 }
        ensures next { result.next ≡ 0 }
        ensures failing { result.failing ≡ failing.items }
    {
        let counts = Vec::new(*files.allocator());
        MemShelf {
            files,
            counts,
            others: 0,
            calls: Calls::new(failing),
        }
    }
}

impl Shelf for MemShelf {
    ghost file = { file_of };

    ghost faults = { count_of };

    fn read_file(&mut self, alloc: Global, name: &str, limit: usize) -> Result<Vec<u8>, ShelfFault>
        // What each shelf says.
        ensures ok { IfOk result (λ bytes.
            IfSome (file_of self.old name.now) (λ all. bytes.items ≡ take limit all)) }
        ensures limit { IfOk result (λ bytes. length bytes.items ≤ limit) }
        ensures failed { IsErrOf result ShelfFault.Failed →
            Rose (count_of self.old name.now) (count_of self.new name.now) }
        ensures same_files { (n : List ℕ) → file_of self.new n ≡ file_of self.old n }
        ensures never_falls { (n : List ℕ) → count_of self.old n ≤ count_of self.new n }

        // When this one fails, and which counts rise.
        ensures fails { IsErrOf result ShelfFault.Failed → NextFails self.old name.now }
        ensures listed { Contains self.old.failing self.old.next → IsErr result }
        ensures missing { IsNone (file_of self.old name.now) → IsErrOf result ShelfFault.Failed }
        ensures raised { IsErrOf result ShelfFault.Failed →
            count_of self.new name.now ≡ one_more (count_of self.old name.now) }
        ensures no_fault { ¬ IsErrOf result ShelfFault.Failed →
            (n : List ℕ) → count_of self.new n ≡ count_of self.old n }
        ensures other_counts { (n : List ℕ) → ¬ SharesCount self.old n name.now →
            count_of self.new n ≡ count_of self.old n }
        ensures numbered { self.new.next ≡ one_more self.old.next }
        ensures same_failing { self.new.failing ≡ self.old.failing }
    {
        let fails = self.calls.fails_next();
        match place_of_name(&self.files, name) {
            None => {
                self.others = self.others.saturating_add(1);
                Err(ShelfFault::Failed)
            }
            Some(place) if fails => Err(fault_at(&mut self.counts, place)),
            Some(place) => first_bytes(alloc, self.files[place].1.as_slice(), limit),
        }
    }
}

/// The place of the first of these files that has this name.
fn place_of_name(files: &[(String, Vec<u8>)], name: &str) -> Option<usize>
    ensures { result ≡ place_of (files_of files.now) name.now }
{
    files.iter().position(|file| file.0.as_str() == name)
}

/// Counts one more fault at this place, where counts past the end are 0, and gives the fault. `NoMemory` where there is no
/// memory for the count, which then stays.
fn fault_at(counts: &mut Vec<u64>, place: usize) -> ShelfFault
    requires { place + 1 < 2 ^ 64 }
    ensures raised { result ≡ ShelfFault.Failed →
        slice_index counts.new.items place ≡ one_more (slice_index counts.old.items place) }
    ensures others { (k : ℕ) → k ≢ place →
        slice_index counts.new.items k ≡ slice_index counts.old.items k }
    ensures never_fall { (k : ℕ) → slice_index counts.old.items k ≤ slice_index counts.new.items k }
    ensures kept { result ≡ ShelfFault.NoMemory → counts.new.items ≡ counts.old.items }
{
    if counts.len() <= place && counts.resize(place + 1, 0).is_err() {
        return ShelfFault::NoMemory;
    }
    counts[place] = counts[place].saturating_add(1);
    ShelfFault::Failed
}
