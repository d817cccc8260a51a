//! The nodes of the added tasks, with queues of those that are ready.
ghost use Rattle.std.specs.Prelude.{◌≡◌, ℕ, ◌==◌, ◌+◌, ◌<◌, ◌≤◌, Bool, true, false, ◌&&◌, [], ◌∷◌, ◌++◌, length, map, take, IfOk, OnOk};
ghost use Rattle.std.specs.List.{list_any, list_all};
ghost use Rattle.std.specs.Prelude.{count_by, not, nat_lt};
ghost use Rattle.css_graph.specs.Tasks.{is_number_added, is_number_out, is_number_finished};
ghost use Rattle.css_graph.specs.Nodes.{Agenda as Plan, IsAscending, task_of, numbers_where, ready_high, ready_low, at_number, in_state, one_less_missing, in_state_by, less_by, is_below, lower_bound, is_ready, put};
ghost use Rattle.css_graph.specs.Chain.{missing_at, may_follow};

use crate::node::Node;
use crate::nodes::Nodes;
use crate::queue::Queue;
use crate::state::TaskState;
use css_base::NoMemory;
use std::alloc::Global;
use std::marker::Model;

/// The nodes in order of number, the queues of the ready ones, and a bound that ready ones stand below. Contracts see
/// the nodes, the bound, and for how many nodes there is room.
#[derive(Drop)]
pub(crate) struct Agenda {
    nodes: Nodes,
    bound: Option<u64>,
    high: Queue,
    low: Queue,
    room: usize,
}

impl Model for Agenda {
    ghost use Rattle.css_graph.specs.Nodes.{Agenda as Plan};

    ghost Value = { Plan };

    ghost view = { λ a. record { nodes = a.nodes.items; bound = a.bound; room = a.room } };

    ghost use Rattle.css_graph.specs.Agenda.{IsSound};

    ghost invariant = { IsSound };
}

/// Whether a node waits, misses no producer, and stands below the bound.
fn node_is_ready(node: &Node, bound: Option<u64>) -> bool
    ensures { result ≡ is_ready bound node.now }
{
    node.state.is_waiting() && node.missing == 0 && number_is_below(node.number, bound)
}

/// Whether a node waits, stands below the bound, and misses a producer.
fn node_may_follow(node: &Node, bound: Option<u64>) -> bool
    ensures { result ≡ may_follow bound node.now }
{
    node.state.is_waiting() && number_is_below(node.number, bound) && node.missing > 0
}

/// Puts a node's number into the queue that it belongs to, and takes it out of the other.
fn requeue(node: &Node, bound: Option<u64>, high: &mut Queue, low: &mut Queue)
    requires high_room { length (put node.now.number (ready_high bound node.now) high.old.numbers) ≤ high.old.room }
    requires low_room { length (put node.now.number (ready_low bound node.now) low.old.numbers) ≤ low.old.room }
    ensures high { high.new.numbers ≡ put node.now.number (ready_high bound node.now) high.old.numbers }
    ensures low { low.new.numbers ≡ put node.now.number (ready_low bound node.now) low.old.numbers }
    ensures high_room { high.old.room ≤ high.new.room }
    ensures low_room { low.old.room ≤ low.new.room }
{
    let ready = node_is_ready(node, bound);
    high.put(node.number, ready && node.high);
    low.put(node.number, ready && !node.high);
}

/// Whether a number stands below the bound.
fn number_is_below(number: u64, bound: Option<u64>) -> bool
    ensures { result ≡ is_below bound number }
{
    match bound {
        Some(bound) => number < bound,
        None => true,
    }
}

/// The lower of a bound and a number.
fn lower_of(bound: Option<u64>, number: u64) -> Option<u64>
    ensures { result ≡ lower_bound bound number }
{
    match bound {
        Some(bound) => Some(bound.min(number)),
        None => Some(number),
    }
}

impl Agenda {
    /// No nodes. Takes no memory.
    pub(crate) fn new(alloc: Global) -> Agenda
        ensures { result ≡ record { nodes = []; bound = None; room = 0 } }
    {
        Agenda {
            nodes: Nodes::new(alloc),
            bound: None,
            high: Queue::new(alloc),
            low: Queue::new(alloc),
            room: 0,
        }
    }

    /// How many nodes are ready.
    pub(crate) fn ready_count(&self) -> usize
        ensures value { result ≡ length (numbers_where (ready_high self.now.bound) self.now.nodes) + length (numbers_where (ready_low self.now.bound) self.now.nodes) }
        ensures ordered { IsAscending (map (λ x. x.number) self.now.nodes) }
    {
        self.high.len() + self.low.len()
    }

    /// The numbers of the first so many ready nodes, the high ones first.
    pub(crate) fn first_ready(&self, alloc: Global, most: usize) -> Result<Vec<u64>, NoMemory>
        ensures { IfOk result (λ numbers. numbers.items ≡ take most (numbers_where (ready_high self.now.bound) self.now.nodes ++ numbers_where (ready_low self.now.bound) self.now.nodes)) }
    {
        let mut numbers = Vec::new(alloc);
        self.high.append_front(&mut numbers, most)?;
        let rest = most.saturating_sub(numbers.len());
        self.low.append_front(&mut numbers, rest)?;
        Ok(numbers)
    }

    /// Whether the task of a number is finished.
    pub(crate) fn is_finished(&self, number: u64) -> bool
        ensures { result ≡ is_number_finished (map task_of self.now.nodes) number }
    {
        match self.nodes.find(number) {
            Some(at) => self.nodes.get(at).state.is_finished(),
            None => false,
        }
    }

    /// Whether the task of a number is out.
    pub(crate) fn is_out(&self, number: u64) -> bool
        ensures { result ≡ is_number_out (map task_of self.now.nodes) number }
    {
        match self.nodes.find(number) {
            Some(at) => self.nodes.get(at).state.is_out(),
            None => false,
        }
    }

    /// Whether there is a task of a number.
    pub(crate) fn is_added(&self, number: u64) -> bool
        ensures { result ≡ is_number_added (map task_of self.now.nodes) number }
    {
        match self.nodes.find(number) {
            Some(_at) => true,
            None => false,
        }
    }

    /// Whether a number is above those of all tasks.
    pub(crate) fn is_last(&self, number: u64) -> bool
        ensures { result ≡ list_all (λ x. nat_lt x.number number) self.now.nodes }
    {
        self.nodes.are_below(number)
    }

    /// How many of these numbers are of tasks that aren't finished.
    pub(crate) fn unfinished(&self, numbers: &[u64]) -> usize
        ensures { result ≡ count_by (λ n. not (is_number_finished (map task_of self.now.nodes) n)) numbers.now }
    {
        numbers.iter().filter(|n| !self.is_finished(**n)).count()
    }

    /// How many producers the task of a number misses.
    pub(crate) fn missing_at(&self, number: u64) -> usize
        ensures { result ≡ missing_at self.now.nodes number }
    {
        match self.nodes.find(number) {
            Some(at) => self.nodes.get(at).missing,
            None => 0,
        }
    }

    /// Whether the task of a number waits, stands below the bound, and misses a producer.
    pub(crate) fn may_follow(&self, number: u64) -> bool
        ensures { result ≡ list_any (λ x. (x.number == number) && may_follow self.now.bound x) self.now.nodes }
    {
        match self.nodes.find(number) {
            Some(at) => node_may_follow(self.nodes.get(at), self.bound),
            None => false,
        }
    }

    /// Makes room for a node. `NoMemory` changes nothing.
    pub(crate) fn reserve(&mut self) -> Result<(), NoMemory>
        ensures nodes { self.new.nodes ≡ self.old.nodes }
        ensures bound { self.new.bound ≡ self.old.bound }
        ensures room { OnOk result (length self.new.nodes < self.new.room) }
    {
        self.nodes.reserve_one()?;
        let room = self.nodes.len() + 1;
        self.high.reserve(room)?;
        self.low.reserve(room)?;
        self.room = room;
        Ok(())
    }

    /// Adds the node of greatest number.
    pub(crate) fn push(&mut self, node: Node)
        requires room { length self.old.nodes < self.old.room }
        requires above { list_all (λ x. nat_lt x.number node.number) self.old.nodes ≡ true }
        ensures nodes { self.new.nodes ≡ self.old.nodes ++ node ∷ [] }
        ensures bound { self.new.bound ≡ self.old.bound }
    {
        requeue(&node, self.bound, &mut self.high, &mut self.low);
        self.nodes.push_reserved(node);
    }

    /// Brings the tasks of these numbers to a state.
    pub(crate) fn set_states(&mut self, numbers: &[u64], state: TaskState)
        ensures nodes { self.new.nodes ≡ map (in_state_by state numbers.now) self.old.nodes }
        ensures bound { self.new.bound ≡ self.old.bound }
    {
        for number in numbers {
            self.set_state(*number, state);
        }
    }

    /// Counts one producer less as missing of the tasks of these numbers, once for each time that a number is there.
    pub(crate) fn release_each(&mut self, numbers: &[u64])
        ensures nodes { self.new.nodes ≡ map (less_by numbers.now) self.old.nodes }
        ensures bound { self.new.bound ≡ self.old.bound }
    {
        for number in numbers {
            self.release(*number);
        }
    }

    /// Brings the task of a number to a state.
    fn set_state(&mut self, number: u64, state: TaskState)
        ensures nodes { self.new.nodes ≡ at_number number (in_state state) self.old.nodes }
        ensures bound { self.new.bound ≡ self.old.bound }
    {
        match self.nodes.find(number) {
            Some(at) => {
                self.nodes.set_state(at, state);
                requeue(
                    self.nodes.get(at),
                    self.bound,
                    &mut self.high,
                    &mut self.low,
                );
            }
            None => {}
        }
    }

    /// Counts one producer of a number less as missing.
    fn release(&mut self, number: u64)
        ensures nodes { self.new.nodes ≡ at_number number one_less_missing self.old.nodes }
        ensures bound { self.new.bound ≡ self.old.bound }
    {
        match self.nodes.find(number) {
            Some(at) => {
                self.nodes.release(at);
                requeue(
                    self.nodes.get(at),
                    self.bound,
                    &mut self.high,
                    &mut self.low,
                );
            }
            None => {}
        }
    }

    /// Lowers the bound to a number.
    pub(crate) fn lower(&mut self, number: u64)
        ensures nodes { self.new.nodes ≡ self.old.nodes }
        ensures bound { self.new.bound ≡ lower_bound self.old.bound number }
    {
        self.bound = lower_of(self.bound, number);
        self.high.keep_below(number);
        self.low.keep_below(number);
    }
}
