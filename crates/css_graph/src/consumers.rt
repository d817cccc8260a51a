//! For each added task, the tasks that need it.
ghost use Rattle.std.specs.Prelude.{◌≡◌, ℕ, ◌==◌, [], ◌∷◌, ◌++◌, map, true, OnOk, OnErr};
ghost use Rattle.std.specs.List.{list_all, list_any};
ghost use Rattle.std.specs.Prelude.{nat_lt};
ghost use Rattle.css_graph.specs.Bundle.{AreDifferent};
ghost use Rattle.css_graph.specs.Tasks.{is_among};
ghost use Rattle.css_graph.specs.Nodes.{IsAscending};
ghost use Rattle.std.specs.Prelude.{List};
ghost use Rattle.css_graph.specs.Consumers.{consumers_at, with_line, line_of, with_each, HaveRoom};
ghost use Rattle.std.specs.Prelude.{◌<◌, ◌≤◌, length, IfSome, IfNone, false, vec_capacity, vec_len, is_ok};
ghost use Rattle.std.specs.List.{HoldsAt};

use css_base::NoMemory;
use std::alloc::Global;
use std::marker::Model;

/// A task, and the numbers of the tasks that need it.
#[derive(Drop)]
struct ConsumerList {
    number: u64,
    consumers: Vec<u64>,
}

/// For each added task, in order of number, the numbers of the tasks that need it. Contracts see the pairs of a number
/// and its list.
#[derive(Drop)]
pub(crate) struct Consumers {
    lists: Vec<ConsumerList>,
}

impl Model for Consumers {
    ghost use Rattle.std.specs.Prelude.{ℕ, List, map};
    ghost use Rattle.css_graph.specs.Consumers.{line_of};

    ghost Value = { List (ℕ × List ℕ) };

    ghost view = { λ c. map line_of c.lists.items };

    ghost use Rattle.css_graph.specs.Tasks.{is_among};
    ghost use Rattle.css_graph.specs.Nodes.{IsAscending};
    ghost use Rattle.std.specs.Prelude.{List};

    ghost invariant = { λ c. IsAscending (map (λ l. l.number) c.lists.items) };
}

/// The place of the list of a number, if there is one.
fn place_of(lists: &[ConsumerList], number: u64) -> Option<usize>
    requires { IsAscending (map (λ x. x.number) lists.now) }
    ensures within { IfSome result (λ at. at < length lists.now) }
    ensures found { IfSome result (λ at. HoldsAt (λ x. x.number ≡ number) lists.now at) }
    ensures absent { IfNone result (list_any (λ x. x.number == number) lists.now ≡ false) }
{
    lists.binary_search_by_key(&number, |list| list.number).ok()
}

/// Makes room for one more number in the list of a task. `NoMemory` leaves every list as it is.
fn reserve_at(lists: &mut [ConsumerList], number: u64) -> Result<(), NoMemory>
    requires { IsAscending (map (λ x. x.number) lists.old) }
    ensures kept { map line_of lists.new ≡ map line_of lists.old }
    ensures room { OnOk result ((numbers : List ℕ) → HaveRoom numbers lists.old → HaveRoom (numbers ++ number ∷ []) lists.new) }
{
    match place_of(lists, number) {
        Some(at) => Ok(lists[at].consumers.reserve(1)?),
        None => Ok(()),
    }
}

/// Appends a number to the list of a task, which has room.
fn append_at(lists: &mut [ConsumerList], number: u64, consumer: u64)
    requires ordered { IsAscending (map (λ x. x.number) lists.old) }
    requires room { HaveRoom (number ∷ []) lists.old }
    ensures lines { map line_of lists.new ≡ with_each consumer (number ∷ []) (map line_of lists.old) }
    ensures room { (numbers : List ℕ) → is_among numbers number ≡ false → HaveRoom numbers lists.old → HaveRoom numbers lists.new }
{
    match place_of(lists, number) {
        Some(at) => lists[at].consumers.push_reserved(consumer),
        None => {}
    }
}

/// Makes room for one more number in the list of each of these tasks. `NoMemory` leaves every list as it is.
fn reserve_each(lists: &mut [ConsumerList], numbers: &[u64]) -> Result<(), NoMemory>
    requires { IsAscending (map (λ x. x.number) lists.old) }
    ensures kept { map line_of lists.new ≡ map line_of lists.old }
    ensures room { OnOk result (HaveRoom numbers.now lists.new) }
{
    for number in numbers {
        reserve_at(lists, *number)?;
    }
    Ok(())
}

/// Appends a number to the list of each of these tasks.
fn append_each(lists: &mut [ConsumerList], numbers: &[u64], consumer: u64)
    requires ordered { IsAscending (map (λ x. x.number) lists.old) }
    requires different { AreDifferent numbers.now }
    requires room { HaveRoom numbers.now lists.old }
    ensures { map line_of lists.new ≡ with_each consumer numbers.now (map line_of lists.old) }
{
    for number in numbers {
        append_at(lists, *number, consumer);
    }
}

impl Consumers {
    /// No tasks. Takes no memory.
    pub(crate) fn new(alloc: Global) -> Consumers
        ensures { result ≡ [] }
    {
        Consumers {
            lists: Vec::new(alloc),
        }
    }

    /// The numbers of the tasks that need a task; none where it isn't added.
    pub(crate) fn of(&self, number: u64) -> &[u64]
        ensures { result.now ≡ consumers_at self.now number }
    {
        match place_of(&self.lists, number) {
            Some(at) => self.lists[at].consumers.as_slice(),
            None => &[],
        }
    }

    /// Adds a task of greatest number to the lists of its producers, with no list of its own yet. `NoMemory` changes
    /// nothing.
    pub(crate) fn add(
        &mut self,
        alloc: Global,
        number: u64,
        producers: &[u64],
    ) -> Result<(), NoMemory>
        requires above { list_all (λ line. nat_lt line.0 number) self.old ≡ true }
        requires different { AreDifferent producers.now }
        ensures added { OnOk result (self.new ≡ with_line number producers.now self.old) }
        ensures unchanged { OnErr result (self.new ≡ self.old) }
    {
        self.lists.reserve(1)?;
        reserve_each(&mut self.lists, producers)?;
        append_each(&mut self.lists, producers, number);
        self.lists.push_reserved(ConsumerList {
            number,
            consumers: Vec::new(alloc),
        });
        Ok(())
    }
}
