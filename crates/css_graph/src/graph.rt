//! The dependence graph.
ghost use Rattle.std.specs.Prelude.{◌≡◌, ◌≢◌, ℕ, nat_lt, ◌≤◌, true, [], length, IsTrue, ◌↔◌, IfOk, OnOk, OnErr, ◌∷◌};
ghost use Rattle.std.specs.List.{list_all};
ghost use Rattle.css_graph.specs.Tasks.{TaskGraph, is_number_added, is_number_waiting, is_number_out, with_task, where_come};
ghost use Rattle.css_graph.specs.Bundle.{takeable, bundle, AreDifferent, IfBundle, IfNothing};

use crate::agenda::Agenda;
use crate::chain;
use crate::chosen::Chosen;
use crate::consumers::Consumers;
use crate::node::Node;
use crate::state::TaskState;
use css_base::NoMemory;
use std::alloc::Global;
use std::marker::Model;

/// The dependence graph: tasks by their numbers, each with the tasks that it needs, and what has become of it.
///
/// Contracts see the count of workers and the list of the added tasks, in order of number.
#[derive(Drop)]
pub struct Graph {
    workers: u32,
    agenda: Agenda,
    consumers: Consumers,
}

impl Model for Graph {
    ghost use Rattle.std.specs.Prelude.{map, ◌≤◌};
    ghost use Rattle.css_graph.specs.Tasks.{TaskGraph};
    ghost use Rattle.css_graph.specs.Nodes.{task_of};

    ghost Value = { TaskGraph };

    ghost view = { λ g. record { workers = g.workers; tasks = map task_of g.agenda.nodes } };

    ghost use Rattle.css_graph.specs.Graph.{IsTied};

    ghost invariant = { λ g. (1 ≤ g.workers) × IsTied g.agenda g.consumers };
}

impl Graph {
    /// A graph with no tasks, whose bundles share the tasks among so many workers. Takes no memory.
    pub fn new(alloc: Global, workers: u32) -> Graph
        requires { 1 ≤ workers }
        ensures { result ≡ record { workers = workers; tasks = [] } }
    {
        Graph {
            workers,
            agenda: Agenda::new(alloc),
            consumers: Consumers::new(alloc),
        }
    }

    /// Whether the task of this number is out.
    pub fn is_out(&self, number: u64) -> bool
        ensures { result ≡ is_number_out self.now.tasks number }
    {
        self.agenda.is_out(number)
    }

    /// Whether a task of this number that needs these others may be added: its number is above all others, and they are
    /// different tasks that are added. Looks at every task.
    pub fn may_add(&self, number: u64, producers: &[u64]) -> bool
        ensures above { IsTrue result → list_all (λ t. nat_lt t.number number) self.now.tasks ≡ true }
        ensures added { IsTrue result → list_all (is_number_added self.now.tasks) producers.now ≡ true }
        ensures different { IsTrue result → AreDifferent producers.now }
        ensures may { list_all (λ t. nat_lt t.number number) self.now.tasks ≡ true → list_all (is_number_added self.now.tasks) producers.now ≡ true → AreDifferent producers.now → IsTrue result }
    {
        if !self.is_last(number) {
            return false;
        }
        if !self.are_added(producers) {
            return false;
        }
        are_different(producers)
    }

    /// Whether a number is above those of all tasks.
    fn is_last(&self, number: u64) -> bool
        ensures { result ≡ list_all (λ t. nat_lt t.number number) self.now.tasks }
    {
        self.agenda.is_last(number)
    }

    /// Whether there are tasks of all these numbers.
    fn are_added(&self, numbers: &[u64]) -> bool
        ensures { result ≡ list_all (is_number_added self.now.tasks) numbers.now }
    {
        numbers.iter().all(|number| self.agenda.is_added(*number))
    }

    /// Adds a task that needs these others, and goes before others where it is `high`. `NoMemory` changes nothing.
    ///
    /// It also makes the room that `done`, `stopped` and `back` need.
    pub fn add(
        &mut self,
        alloc: Global,
        number: u64,
        producers: &[u64],
        high: bool,
    ) -> Result<(), NoMemory>
        requires above { list_all (λ t. nat_lt t.number number) self.old.tasks ≡ true }
        requires added { list_all (is_number_added self.old.tasks) producers.now ≡ true }
        requires different { AreDifferent producers.now }
        ensures task { OnOk result (self.new ≡ with_task self.old number producers.now high) }
        ensures unchanged { OnErr result (self.new ≡ self.old) }
    {
        let missing = self.agenda.unfinished(producers);
        let node = Node {
            number,
            producers: Vec::from_slice(alloc, producers)?,
            high,
            state: TaskState::Waiting,
            missing,
        };
        self.agenda.reserve()?;
        self.consumers.add(alloc, number, producers)?;
        self.agenda.push(node);
        Ok(())
    }

    /// Takes a bundle of at most so many tasks out, if any task may be taken. `NoMemory` changes nothing.
    pub fn choose_bundle(&mut self, alloc: Global, most: u32) -> Result<Chosen, NoMemory>
        ensures nothing { IfOk result (λ c. IfNothing c (takeable self.old.tasks ≡ [])) }
        ensures unchanged_by_nothing { IfOk result (λ c. IfNothing c (self.new ≡ self.old)) }
        ensures something { IfOk result (λ c. IfBundle c (λ _. takeable self.old.tasks ≢ [])) }
        ensures bundle { IfOk result (λ c. IfBundle c (λ numbers. numbers ≡ bundle self.old most)) }
        ensures out { IfOk result (λ c. IfBundle c (λ numbers. self.new ≡ where_come self.old TaskState.Out numbers)) }
        ensures short { IfOk result (λ c. IfBundle c (λ numbers. length numbers ≤ most)) }
        ensures different { IfOk result (λ c. IfBundle c AreDifferent) }
        ensures were_waiting { IfOk result (λ c. IfBundle c (λ numbers. list_all (is_number_waiting self.old.tasks) numbers ≡ true)) }
        ensures unchanged { OnErr result (self.new ≡ self.old) }
    {
        let ready = self.agenda.ready_count();
        if ready == 0 {
            return Ok(Chosen::Nothing);
        }
        let share = (most as usize).min(ready.div_ceil(self.workers as usize));
        let beginning = self.agenda.first_ready(alloc, share)?;
        let bundle = chain::continued(
            alloc,
            &self.agenda,
            &self.consumers,
            beginning,
            most as usize,
        )?;
        self.agenda.set_states(&bundle, TaskState::Out);
        Ok(Chosen::Bundle(bundle))
    }

    /// Whether a task may be taken, so that `choose_bundle` would not answer `Nothing`.
    pub fn may_choose(&self) -> bool
        ensures { IsTrue result ↔ (takeable self.now.tasks ≢ []) }
    {
        self.agenda.ready_count() > 0
    }

    /// The task of this number has ended well. It must be out. Takes no memory.
    pub fn done(&mut self, number: u64)
        requires { is_number_out self.old.tasks number ≡ true }
        ensures { self.new ≡ where_come self.old TaskState.Finished (number ∷ []) }
    {
        self.agenda.set_states(&[number], TaskState::Finished);
        self.agenda.release_each(self.consumers.of(number));
    }

    /// The task of this number has stopped. It must be out. Takes no memory.
    pub fn stopped(&mut self, number: u64)
        requires { is_number_out self.old.tasks number ≡ true }
        ensures { self.new ≡ where_come self.old TaskState.Stopped (number ∷ []) }
    {
        self.agenda.set_states(&[number], TaskState::Stopped);
        self.agenda.lower(number);
    }

    /// The tasks of these numbers haven't been begun, and may be taken again. They must be out. Takes no memory.
    pub fn back(&mut self, numbers: &[u64])
        requires { list_all (is_number_out self.old.tasks) numbers.now ≡ true }
        ensures { self.new ≡ where_come self.old TaskState.Waiting numbers.now }
    {
        self.agenda.set_states(numbers, TaskState::Waiting);
    }
}

/// Whether no two of the numbers are the same.
fn are_different(numbers: &[u64]) -> bool
    ensures { IsTrue result ↔ AreDifferent numbers.now }
{
    match numbers {
        [] => true,
        [first, rest @ ..] => !rest.contains(first) && are_different(rest),
    }
}
