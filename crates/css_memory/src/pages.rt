//! Which pages have bytes of marked windows.
ghost use Rattle.std.specs.Prelude.{◌≡◌, ◌+◌, ◌*◌, ◌^◌, ◌≤◌, ◌<◌, ◌++◌, ◌∷◌, [], ℕ, List, length, slice_index, true, false, IfOk};
ghost use Rattle.css_semantics.specs.Tasks as tasks;
ghost use Rattle.css_record.specs.Windows.{window, IsWindow};
ghost use Rattle.css_memory.specs.Pages.{touches, shared, bytes_on, RowsEnd, IsWithin, IsApart, AreMarked};

use css_base::NoMemory;
use css_record::Window;
use std::alloc::Global;
use std::marker::Model;

/// The bytes of a page.
const PAGE: usize = 4096;

/// How many bytes of marked windows each page has. Contracts see their list.
#[derive(Drop)]
pub(crate) struct Pages {
    counts: Vec<u16>,
}

impl Model for Pages {
    ghost use Rattle.std.specs.Prelude.{◌≤◌, ◌^◌, List, ℕ, length};

    ghost Value = { List ℕ };

    ghost view = { λ p. p.counts.items };

    ghost invariant = { λ p. length p.counts.items ≤ 2 ^ 21 };
}

impl Pages {
    /// The pages of so many bytes, with nothing marked.
    pub(crate) fn new(alloc: Global, size: u32) -> Result<Pages, NoMemory>
        ensures marked { IfOk result (λ pages. AreMarked pages []) }
        ensures size { IfOk result (λ pages. size ≤ 4096 * length pages) }
    {
        let counts = vec![in alloc; 0; size as usize / PAGE + 1]?;
        Ok(Pages { counts })
    }

    /// Marks a window beside others, with which it shares no byte.
    pub(crate) fn mark(&mut self, part: Window)
        requires within { IsWithin (4096 * length self.old) (window part) }
        requires apart { (marked : List tasks.Window) × AreMarked self.old marked × IsApart marked (window part) }
        ensures size { length self.new ≡ length self.old }
        ensures marked { (before after : List tasks.Window) → AreMarked self.old (before ++ after) → IsApart (before ++ after) (window part) → AreMarked self.new (before ++ window part ∷ after) }
    {
        add_window(&mut self.counts, part);
    }

    /// Takes one of the marked windows away.
    pub(crate) fn unmark(&mut self, part: Window)
        requires marked { (before : List tasks.Window) × (after : List tasks.Window) × AreMarked self.old (before ++ window part ∷ after) }
        ensures size { length self.new ≡ length self.old }
        ensures others { (before after : List tasks.Window) → AreMarked self.old (before ++ window part ∷ after) → AreMarked self.new (before ++ after) }
    {
        remove_window(&mut self.counts, part);
    }

    /// Whether one of so many bytes from an address is on a page that has a byte of a marked window.
    #[inline]
    pub(crate) fn touches(&self, address: u32, length: u32) -> bool
        ensures { (marked : List tasks.Window) → AreMarked self.now marked → result ≡ touches marked address length }
    {
        if length == 0 {
            return false;
        }
        let first = address as usize / PAGE;
        let last = (address as usize + length as usize - 1) / PAGE;
        has_some(&self.counts, first, last)
    }
}

// Whether one of the pages from a first to a last one has some byte.
#[inline]
fn has_some(counts: &[u16], first: usize, last: usize) -> bool
    requires { last < 2 ^ 62 }
    ensures some { result ≡ true → (page : ℕ) × (first ≤ page) × (page ≤ last) × (page < length counts.now) × (1 ≤ slice_index counts.now page) }
    ensures none { result ≡ false → (page : ℕ) → first ≤ page → page ≤ last → page < length counts.now → slice_index counts.now page ≡ 0 }
{
    for page in first..(last + 1).min(counts.len()) {
        if counts[page] != 0 {
            return true;
        }
    }
    false
}

// Adds the bytes of a window's rows to those of each page.
fn add_window(counts: &mut [u16], part: Window)
    requires few { length counts.old ≤ 2 ^ 21 }
    requires within { RowsEnd (4096 * length counts.old) part.rows part.base part.width part.stride }
    requires some { 1 ≤ part.width }
    requires fits { (page : ℕ) → page < length counts.old → slice_index counts.old page + bytes_on page (window part) ≤ 4096 }
    ensures { (page : ℕ) → page < length counts.old → slice_index counts.new page ≡ slice_index counts.old page + bytes_on page (window part) }
{
    let mut at = part.base as usize;
    for row in 0..part.rows {
        add_row(counts, at, at + part.width as usize);
        at += part.stride as usize;
    }
}

// Takes the bytes of a window's rows from those of each page.
fn remove_window(counts: &mut [u16], part: Window)
    requires few { length counts.old ≤ 2 ^ 21 }
    requires within { RowsEnd (4096 * length counts.old) part.rows part.base part.width part.stride }
    requires some { 1 ≤ part.width }
    requires enough { (page : ℕ) → page < length counts.old → bytes_on page (window part) ≤ slice_index counts.old page }
    ensures { (page : ℕ) → page < length counts.old → slice_index counts.new page + bytes_on page (window part) ≡ slice_index counts.old page }
{
    let mut at = part.base as usize;
    for row in 0..part.rows {
        remove_row(counts, at, at + part.width as usize);
        at += part.stride as usize;
    }
}

// Adds the bytes from one address up to another to those of each page.
fn add_row(counts: &mut [u16], from: usize, to: usize)
    requires few { length counts.old ≤ 2 ^ 21 }
    requires some { from < to }
    requires within { to ≤ 4096 * length counts.old }
    requires fits { (page : ℕ) → page < length counts.old → slice_index counts.old page + shared from to (4096 * page) (4096 * page + 4096) ≤ 4096 }
    ensures { (page : ℕ) → page < length counts.old → slice_index counts.new page ≡ slice_index counts.old page + shared from to (4096 * page) (4096 * page + 4096) }
{
    for page in from / PAGE..(to - 1) / PAGE + 1 {
        let first = from.max(page * PAGE);
        let end = to.min(page * PAGE + PAGE);
        counts[page] += (end - first) as u16;
    }
}

// Takes the bytes from one address up to another from those of each page.
fn remove_row(counts: &mut [u16], from: usize, to: usize)
    requires few { length counts.old ≤ 2 ^ 21 }
    requires some { from < to }
    requires within { to ≤ 4096 * length counts.old }
    requires enough { (page : ℕ) → page < length counts.old → shared from to (4096 * page) (4096 * page + 4096) ≤ slice_index counts.old page }
    ensures { (page : ℕ) → page < length counts.old → slice_index counts.new page + shared from to (4096 * page) (4096 * page + 4096) ≡ slice_index counts.old page }
{
    for page in from / PAGE..(to - 1) / PAGE + 1 {
        let first = from.max(page * PAGE);
        let end = to.min(page * PAGE + PAGE);
        counts[page] -= (end - first) as u16;
    }
}
