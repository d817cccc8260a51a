//! The tasks that go on after the beginning of a bundle.
ghost use Rattle.std.specs.Prelude.{◌≡◌, ◌≢◌, ◌↔◌, if◌then◌else◌, ℕ, ◌-◌, ◌+◌, ◌==◌, ◌||◌, ◌&&◌, not, true, false, [], length, map, IfOk, OnOk, IsTrue, ◌++◌};
ghost use Rattle.std.specs.List.{list_all, list_any};
ghost use Rattle.std.specs.Prelude.{List};
ghost use Rattle.css_graph.specs.declared.node.Node.{Node};
ghost use Rattle.css_graph.specs.Tasks.{is_number_waiting};
ghost use Rattle.css_graph.specs.Bundle.{AreDifferent, continued, next_number};
ghost use Rattle.css_graph.specs.Nodes.{count_where, task_of, IsAscending};
ghost use Rattle.css_graph.specs.Consumers.{consumers_at};
ghost use Rattle.css_graph.specs.Graph.{IsTied};
ghost use Rattle.css_graph.specs.Chain.{left_at, is_member, HasCandidates, Knows, may_follow};

use crate::agenda::Agenda;
use crate::consumers::Consumers;
use crate::queue::Queue;
use css_base::NoMemory;
use std::alloc::Global;
use std::collections::{BTreeMap, BTreeSet};

/// What is known of a bundle while it is made: of the tasks that need one of its members how many producers they miss
/// besides, its members, and the tasks that go on after it.
#[derive(Drop)]
pub(crate) struct Chain {
    left: BTreeMap<u64, usize>,
    members: BTreeSet<u64>,
    candidates: Queue,
}

impl Chain {
    /// No members. Takes no memory.
    fn new(alloc: Global, agenda: &Agenda) -> Chain
        requires { IsAscending (map (λ x. x.number) agenda.now.nodes) }
        ensures { Knows result agenda.now [] }
    {
        let _ = agenda;
        Chain {
            left: BTreeMap::new(alloc),
            members: BTreeSet::new(alloc),
            candidates: Queue::new(alloc),
        }
    }

    /// How many producers the task of a number misses besides the members.
    fn left_at(&self, agenda: &Agenda, number: u64) -> usize
        ensures { result ≡ left_at self.now agenda.now.nodes number }
    {
        match self.left.get(&number) {
            Some(left) => *left,
            None => agenda.missing_at(number),
        }
    }

    /// Counts one producer of the task of a number less as missing.
    fn lessen(&mut self, agenda: &Agenda, number: u64) -> Result<(), NoMemory>
        ensures left { OnOk result ((n : ℕ) → left_at self.new agenda.now.nodes n ≡ left_at self.old agenda.now.nodes n - (if number == n then 1 else 0)) }
        ensures members { OnOk result ((n : ℕ) → is_member self.new n ≡ is_member self.old n) }
        ensures candidates { OnOk result (self.new.candidates ≡ self.old.candidates) }
    {
        let left = self.left_at(agenda, number).saturating_sub(1);
        self.left.insert(number, left)?;
        Ok(())
    }

    /// Whether the task of a number goes on, where so many producers are left to it.
    fn goes_on(&self, agenda: &Agenda, number: u64, left: usize) -> bool
        ensures { result ≡ (list_any (λ x. (x.number == number) && may_follow agenda.now.bound x) agenda.now.nodes && (not (is_member self.now number) && (left == 0))) }
    {
        agenda.may_follow(number) && (!self.members.contains(&number) && left == 0)
    }

    /// A producer of the task of this number has become a member.
    fn meet(&mut self, agenda: &Agenda, number: u64) -> Result<(), NoMemory>
        requires ordered { IsAscending (map (λ x. x.number) agenda.now.nodes) }
        requires candidates { HasCandidates self.old agenda.now }
        ensures left { OnOk result ((n : ℕ) → left_at self.new agenda.now.nodes n ≡ left_at self.old agenda.now.nodes n - (if number == n then 1 else 0)) }
        ensures members { OnOk result ((n : ℕ) → is_member self.new n ≡ is_member self.old n) }
        ensures candidates { OnOk result (HasCandidates self.new agenda.now) }
    {
        self.lessen(agenda, number)?;
        let left = self.left_at(agenda, number);
        let goes_on = self.goes_on(agenda, number, left);
        self.candidates.reserve_one()?;
        self.candidates.put(number, goes_on);
        Ok(())
    }

    /// Makes a number a member.
    fn enter(&mut self, number: u64) -> Result<(), NoMemory>
        ensures left { OnOk result ((nodes : List Node) (n : ℕ) → left_at self.new nodes n ≡ left_at self.old nodes n) }
        ensures members { OnOk result ((n : ℕ) → is_member self.new n ≡ (is_member self.old n || (number == n))) }
        ensures candidates { OnOk result (self.new.candidates ≡ self.old.candidates) }
    {
        self.members.insert(number)?;
        Ok(())
    }

    /// Makes a number a member that isn't a candidate.
    fn admit(&mut self, agenda: &Agenda, number: u64) -> Result<(), NoMemory>
        requires ordered { IsAscending (map (λ x. x.number) agenda.now.nodes) }
        requires candidates { HasCandidates self.old agenda.now }
        ensures left { OnOk result ((n : ℕ) → left_at self.new agenda.now.nodes n ≡ left_at self.old agenda.now.nodes n) }
        ensures members { OnOk result ((n : ℕ) → is_member self.new n ≡ (is_member self.old n || (number == n))) }
        ensures candidates { OnOk result (HasCandidates self.new agenda.now) }
    {
        let _ = agenda;
        self.enter(number)?;
        self.candidates.reserve_one()?;
        self.candidates.put(number, false);
        Ok(())
    }

    /// Makes a task the last member.
    fn append(
        &mut self,
        agenda: &Agenda,
        consumers: &Consumers,
        number: u64,
    ) -> Result<(), NoMemory>
        requires ordered { IsAscending (map (λ x. x.number) agenda.now.nodes) }
        requires candidates { HasCandidates self.old agenda.now }
        ensures left { OnOk result ((n : ℕ) → left_at self.new agenda.now.nodes n ≡ left_at self.old agenda.now.nodes n - count_where (λ c. c == n) (consumers_at consumers.now number)) }
        ensures members { OnOk result ((n : ℕ) → is_member self.new n ≡ (is_member self.old n || (number == n))) }
        ensures candidates { OnOk result (HasCandidates self.new agenda.now) }
    {
        self.admit(agenda, number)?;
        for consumer in consumers.of(number) {
            self.meet(agenda, *consumer)?;
        }
        Ok(())
    }
}

/// What is known of a bundle.
fn chain_of(
    alloc: Global,
    agenda: &Agenda,
    consumers: &Consumers,
    bundle: &[u64],
) -> Result<Chain, NoMemory>
    requires tied { IsTied agenda.now consumers.now }
    requires waiting { list_all (is_number_waiting (map task_of agenda.now.nodes)) bundle.now ≡ true }
    requires different { AreDifferent bundle.now }
    ensures { IfOk result (λ chain. Knows chain agenda.now bundle.now) }
{
    let mut chain = Chain::new(alloc, agenda);
    for number in bundle {
        chain.append(agenda, consumers, *number)?;
    }
    Ok(chain)
}

/// Appends the task of least number that goes on after a bundle, and says whether there is one.
fn append_next(
    agenda: &Agenda,
    consumers: &Consumers,
    bundle: &mut Vec<u64>,
    chain: &mut Chain,
) -> Result<bool, NoMemory>
    requires tied { IsTied agenda.now consumers.now }
    requires waiting { list_all (is_number_waiting (map task_of agenda.now.nodes)) bundle.old.items ≡ true }
    requires different { AreDifferent bundle.old.items }
    requires known { Knows chain.old agenda.now bundle.old.items }
    ensures next { OnOk result (bundle.new.items ≡ bundle.old.items ++ next_number (map task_of agenda.now.nodes) bundle.old.items) }
    ensures known { OnOk result (Knows chain.new agenda.now bundle.new.items) }
    ensures ends { IfOk result (λ more. IsTrue more ↔ (next_number (map task_of agenda.now.nodes) bundle.old.items ≢ [])) }
    ensures waiting { OnOk result (list_all (is_number_waiting (map task_of agenda.now.nodes)) bundle.new.items ≡ true) }
    ensures different { OnOk result (AreDifferent bundle.new.items) }
{
    let Some(number) = chain.candidates.get(0) else {
        return Ok(false);
    };
    bundle.push(number)?;
    chain.append(agenda, consumers, number)?;
    Ok(true)
}

/// A bundle that begins like this, continued up to so many tasks.
pub(crate) fn continued(
    alloc: Global,
    agenda: &Agenda,
    consumers: &Consumers,
    beginning: Vec<u64>,
    most: usize,
) -> Result<Vec<u64>, NoMemory>
    requires tied { IsTied agenda.now consumers.now }
    requires waiting { list_all (is_number_waiting (map task_of agenda.now.nodes)) beginning.items ≡ true }
    requires different { AreDifferent beginning.items }
    ensures bundle { IfOk result (λ bundle. bundle.items ≡ continued (map task_of agenda.now.nodes) (most - length beginning.items) beginning.items) }
    ensures waiting { IfOk result (λ bundle. list_all (is_number_waiting (map task_of agenda.now.nodes)) bundle.items ≡ true) }
    ensures different { IfOk result (λ bundle. AreDifferent bundle.items) }
{
    let mut chain = chain_of(alloc, agenda, consumers, &beginning)?;
    let mut bundle = beginning;
    let room = most.saturating_sub(bundle.len());
    for step in 0..room {
        if !append_next(agenda, consumers, &mut bundle, &mut chain)? {
            break;
        }
    }
    Ok(bundle)
}
