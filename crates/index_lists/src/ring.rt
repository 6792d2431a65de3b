ghost use Rattle.std.specs.Prelude.{◌≡◌, ℕ, ◌+◌, ◌<◌, ◌≤◌, ◌==◌, [], ◌∷◌, ◌++◌, IfOk, not, ◌≢◌, ◌^◌, length, slice_index};
ghost use Rattle.index_lists.specs.Words.{count, without, before, first, after, last};
ghost use Rattle.index_lists.specs.Lists.{AreNodes};

use std::alloc::{AllocError, Global};
use std::marker::Model;

/// One list of the numbers below `nodes`, as a ring of neighbours.
///
/// The place after the last number closes the ring. A number that isn't in the list is its own next one.
#[derive(Drop)]
pub struct Ring {
    nodes: u32,
    next: Vec<u32>,
    prev: Vec<u32>,
}

impl Model for Ring {
    ghost use Rattle.index_lists.specs.Rings.{Ringed, ringed, listed, IsRing};

    ghost Value = { Ringed };

    ghost view = { λ r. ringed r.nodes r.next.items };

    ghost invariant = { λ r. IsRing r.nodes r.next.items r.prev.items (listed r.nodes r.next.items) };
}

/// The numbers from 0 to `last`.
fn numbers(alloc: Global, last: u32) -> Result<Vec<u32>, AllocError>
    requires { last < 2 ^ 31 }
    ensures len { IfOk result (λ v. length v.items ≡ last + 1) }
    ensures each { IfOk result (λ v. (b : ℕ) → b ≤ last → slice_index v.items b ≡ b) }
{
    let mut all = Vec::with_capacity(alloc, last as usize + 1)?;
    for i in 0..last + 1 {
        all.push(i)?;
    }
    Ok(all)
}

impl Ring {
    /// The empty list.
    pub fn new(alloc: Global, nodes: u32) -> Result<Ring, AllocError>
        requires { nodes < 2 ^ 31 }
        ensures { IfOk result (λ r. r ≡ record { nodes = nodes; list = [] }) }
    {
        let next = numbers(alloc, nodes)?;
        let prev = numbers(alloc, nodes)?;
        Ok(Ring { nodes, next, prev })
    }

    /// Puts a node right before a place, which is a node of the list or `nodes`.
    fn insert_at(&mut self, place: u32, node: u32)
        requires node { node < self.old.nodes }
        requires absent { count node self.old.list ≡ 0 }
        requires place { place ≢ self.old.nodes → 0 < count place self.old.list }
        ensures { self.new ≡ record { nodes = self.old.nodes; list = before place node self.old.list } }
    {
        let ahead = self.prev[place as usize];
        self.next[node as usize] = place;
        self.prev[node as usize] = ahead;
        self.next[ahead as usize] = node;
        self.prev[place as usize] = node;
    }

    /// Puts a node at the end.
    pub fn push_back(&mut self, node: u32)
        requires node { node < self.old.nodes }
        requires absent { count node self.old.list ≡ 0 }
        ensures { self.new ≡ record { nodes = self.old.nodes; list = self.old.list ++ node ∷ [] } }
    {
        self.insert_at(self.nodes, node);
    }

    /// Puts a node right before another one.
    pub fn insert_before(&mut self, place: u32, node: u32)
        requires node { node < self.old.nodes }
        requires absent { count node self.old.list ≡ 0 }
        requires place { 0 < count place self.old.list }
        ensures { self.new ≡ record { nodes = self.old.nodes; list = before place node self.old.list } }
    {
        self.insert_at(place, node);
    }

    /// Takes a node out.
    pub fn remove(&mut self, node: u32)
        requires { 0 < count node self.old.list }
        ensures value { self.new ≡ record { nodes = self.old.nodes; list = without node self.old.list } }
        ensures bound { node < self.old.nodes }
    {
        let ahead = self.prev[node as usize];
        let behind = self.next[node as usize];
        self.next[ahead as usize] = behind;
        self.prev[behind as usize] = ahead;
        self.next[node as usize] = node;
    }

    /// Moves a node to the end.
    pub fn move_to_back(&mut self, node: u32)
        requires { 0 < count node self.old.list }
        ensures { self.new ≡ record { nodes = self.old.nodes; list = last node self.old.list } }
    {
        self.remove(node);
        self.push_back(node);
    }

    /// The first node.
    pub fn front(&self) -> Option<u32>
        ensures { result ≡ first self.now.list }
    {
        let node = self.next[self.nodes as usize];
        if node == self.nodes { None } else { Some(node) }
    }

    /// The node right after another one.
    pub fn next(&self, node: u32) -> Option<u32>
        requires { 0 < count node self.now.list }
        ensures { result ≡ after node self.now.list }
    {
        let next = self.next[node as usize];
        if next == self.nodes { None } else { Some(next) }
    }

    /// Whether a node is in the list.
    pub fn contains(&self, node: u32) -> bool
        requires { node < self.now.nodes }
        ensures value { result ≡ not (count node self.now.list == 0) }
        ensures nodes { AreNodes self.now.nodes self.now.list }
    {
        self.next[node as usize] != node
    }
}
