//! The nodes of the added tasks, in a slab.
ghost use Rattle.std.specs.Prelude.{◌≡◌, ◌==◌, ◌<◌, ◌≤◌, ◌^◌, false, [], ◌∷◌, ◌++◌, length, map, IfSome, IfNone, OnOk};
ghost use Rattle.std.specs.List.{HoldsAt, list_any, list_all};
ghost use Rattle.std.specs.Prelude.{nat_lt, slice_set, slice_index_or};
ghost use Rattle.css_graph.specs.declared.node.Node.{Node};
ghost use Rattle.css_graph.specs.Nodes.{IsAscending, in_state, one_less_missing};

use crate::node::Node;
use crate::state::TaskState;
use css_base::NoMemory;
use slab::Slab;
use std::alloc::Global;
use std::marker::Model;

/// A task's number, and the key of its node in the slab.
#[derive(Drop)]
pub(crate) struct Place {
    number: u64,
    key: usize,
}

/// The nodes of a graph's tasks, none of which is ever removed, and their places in order of number. Contracts see the
/// list of the nodes in that order, and for how many there is room.
#[derive(Drop)]
pub(crate) struct Nodes {
    slab: Slab<Node>,
    places: Vec<Place>,
}

impl Model for Nodes {
    ghost use Rattle.std.specs.Prelude.{min, vec_capacity};
    ghost use Rattle.css_graph.specs.Places.{NodeList, IsPlaced, nodes_at};

    ghost Value = { NodeList };

    ghost view = { λ n. record { items = nodes_at n.slab n.places.items; room = min n.slab.capacity (vec_capacity n.places) } };

    ghost invariant = { IsPlaced };
}

/// Whether a number is above those of all these places.
fn numbers_are_below(places: &[Place], number: u64) -> bool
    ensures { result ≡ list_all (λ p. nat_lt p.number number) places.now }
{
    places.iter().all(|place| place.number < number)
}

impl Nodes {
    /// No nodes. Takes no memory.
    pub(crate) fn new(alloc: Global) -> Nodes
        ensures { result.items ≡ [] }
    {
        Nodes {
            slab: Slab::new(alloc),
            places: Vec::new(alloc),
        }
    }

    /// How many nodes there are.
    pub(crate) fn len(&self) -> usize
        ensures { result ≡ length self.now.items }
    {
        self.places.len()
    }

    /// Makes room for one more node. `NoMemory` leaves every node as it is.
    pub(crate) fn reserve_one(&mut self) -> Result<(), NoMemory>
        ensures items { self.new.items ≡ self.old.items }
        ensures room { OnOk result (length self.new.items < self.new.room) }
        ensures kept { self.old.room ≤ self.new.room }
        ensures small { self.new.room < 2 ^ 63 }
    {
        self.slab.reserve(1)?;
        self.places.reserve(1)?;
        Ok(())
    }

    /// Appends a node, for which there is room.
    pub(crate) fn push_reserved(&mut self, node: Node)
        requires { length self.old.items < self.old.room }
        ensures items { self.new.items ≡ self.old.items ++ node ∷ [] }
        ensures room { self.new.room ≡ self.old.room }
    {
        let number = node.number;
        let key = self.slab.insert_reserved(node);
        self.places.push_reserved(Place { number, key });
    }

    /// The node at a place in the order of number.
    pub(crate) fn get(&self, at: usize) -> &Node
        requires { at < length self.now.items }
        ensures { (d : Node) → result.now ≡ slice_index_or self.now.items at d }
    {
        &self.slab[self.places[at].key]
    }

    /// The place of the node of a number, if there is one.
    pub(crate) fn find(&self, number: u64) -> Option<usize>
        requires { IsAscending (map (λ x. x.number) self.now.items) }
        ensures within { IfSome result (λ at. at < length self.now.items) }
        ensures found { IfSome result (λ at. HoldsAt (λ x. x.number ≡ number) self.now.items at) }
        ensures absent { IfNone result (list_any (λ x. x.number == number) self.now.items ≡ false) }
    {
        self.places
            .binary_search_by_key(&number, |place| place.number)
            .ok()
    }

    /// Whether a number is above those of all nodes.
    pub(crate) fn are_below(&self, number: u64) -> bool
        ensures { result ≡ list_all (λ x. nat_lt x.number number) self.now.items }
    {
        numbers_are_below(&self.places, number)
    }

    /// Brings the task at a place to a state.
    pub(crate) fn set_state(&mut self, at: usize, state: TaskState)
        requires { at < length self.old.items }
        ensures items { (d : Node) → self.new.items ≡ slice_set self.old.items at (in_state state (slice_index_or self.old.items at d)) }
        ensures room { self.new.room ≡ self.old.room }
    {
        let key = self.places[at].key;
        self.slab[key].state = state;
    }

    /// Counts one producer of the task at a place less as missing.
    pub(crate) fn release(&mut self, at: usize)
        requires { at < length self.old.items }
        ensures items { (d : Node) → self.new.items ≡ slice_set self.old.items at (one_less_missing (slice_index_or self.old.items at d)) }
        ensures room { self.new.room ≡ self.old.room }
    {
        let key = self.places[at].key;
        let node = &mut self.slab[key];
        node.missing = node.missing.saturating_sub(1);
    }
}
