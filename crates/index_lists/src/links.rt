ghost use Rattle.std.specs.Prelude.{◌≡◌, ℕ, ◌+◌, ◌*◌, ◌<◌, ◌≤◌, ◌==◌, [], ◌∷◌, ◌++◌, length, replicate, IfOk, not, ◌^◌};
ghost use Rattle.index_lists.specs.Words.{count, without, last, before, first, after};
ghost use Rattle.index_lists.specs.Lists.{list_at, with_list, AreNodes};

use crate::ring::Ring;
use std::alloc::{AllocError, Global};
use std::marker::Model;

/// Want of memory, where it is the only answer but success.
pub type NoMemory = AllocError;

/// Lists of the numbers below a bound, the nodes.
///
/// A node stands in a list at most once, and in several lists at once. Only the making takes memory,
/// and every other call takes a constant number of steps.
#[derive(Drop)]
pub struct Links {
    nodes: u32,
    rings: Vec<Ring>,
}

impl Model for Links {
    ghost use Rattle.std.specs.Prelude.{◌≡◌, ℕ, ◌<◌, length, get_or};
    ghost use Rattle.index_lists.specs.Lists.{Lists};
    ghost use Rattle.index_lists.specs.Rings.{Ringed, lists_of};

    ghost Value = { Lists };

    ghost view = { λ s. lists_of s.nodes s.rings.items };

    ghost invariant = { λ s. (i : ℕ) (r : Ringed) → i < length s.rings.items → (get_or s.rings.items i r).nodes ≡ s.nodes };
}

impl Links {
    /// So many empty lists of the numbers below `nodes`, or `NoMemory`.
    pub fn with_lists(alloc: Global, nodes: u32, lists: u32) -> Result<Links, NoMemory>
        requires some_nodes { 1 ≤ nodes }
        requires some_lists { 1 ≤ lists }
        requires product { nodes * lists ≤ 2 ^ 20 }
        ensures { IfOk result (λ s. s ≡ record { nodes = nodes; lists = replicate lists [] }) }
    {
        let mut rings = Vec::with_capacity(alloc, lists as usize)?;
        for _ in 0..lists {
            rings.push(Ring::new(alloc, nodes)?)?;
        }
        Ok(Links { nodes, rings })
    }

    /// Puts a node that isn't in a list at its end.
    pub fn push_back(&mut self, list: u32, node: u32)
        requires list { list < length self.old.lists }
        requires node { node < self.old.nodes }
        requires absent { count node (list_at self.old list) ≡ 0 }
        ensures { self.new ≡ with_list self.old list (list_at self.old list ++ node ∷ []) }
    {
        let ring = &mut self.rings[list as usize];
        ring.push_back(node);
    }

    /// Puts a node that isn't in a list right before `place`, a node of that list.
    pub fn insert_before(&mut self, list: u32, place: u32, node: u32)
        requires list { list < length self.old.lists }
        requires node { node < self.old.nodes }
        requires absent { count node (list_at self.old list) ≡ 0 }
        requires place { 0 < count place (list_at self.old list) }
        ensures { self.new ≡ with_list self.old list (before place node (list_at self.old list)) }
    {
        let ring = &mut self.rings[list as usize];
        ring.insert_before(place, node);
    }

    /// Takes a node out of a list.
    pub fn remove(&mut self, list: u32, node: u32)
        requires list { list < length self.old.lists }
        requires there { 0 < count node (list_at self.old list) }
        ensures { self.new ≡ with_list self.old list (without node (list_at self.old list)) }
    {
        let ring = &mut self.rings[list as usize];
        ring.remove(node);
    }

    /// Moves a node to the end of its list.
    pub fn move_to_back(&mut self, list: u32, node: u32)
        requires list { list < length self.old.lists }
        requires there { 0 < count node (list_at self.old list) }
        ensures { self.new ≡ with_list self.old list (last node (list_at self.old list)) }
    {
        let ring = &mut self.rings[list as usize];
        ring.move_to_back(node);
    }

    /// The first node of a list; `None` exactly where the list is empty.
    pub fn front(&self, list: u32) -> Option<u32>
        requires { list < length self.now.lists }
        ensures { result ≡ first (list_at self.now list) }
    {
        let ring = &self.rings[list as usize];
        ring.front()
    }

    /// The node right after another one of a list; `None` exactly at the last.
    pub fn next(&self, list: u32, node: u32) -> Option<u32>
        requires list { list < length self.now.lists }
        requires there { 0 < count node (list_at self.now list) }
        ensures { result ≡ after node (list_at self.now list) }
    {
        let ring = &self.rings[list as usize];
        ring.next(node)
    }

    /// Whether a node stands in a list.
    pub fn contains(&self, list: u32, node: u32) -> bool
        requires list { list < length self.now.lists }
        requires node { node < self.now.nodes }
        ensures value { result ≡ not (count node (list_at self.now list) == 0) }
        ensures nodes { AreNodes self.now.nodes (list_at self.now list) }
    {
        let ring = &self.rings[list as usize];
        ring.contains(node)
    }
}

#[cfg(test)]
mod tests {
    use super::*;

    #[test]
    #[tactic(auto, unfolding(crate::specs::Words::count, crate::specs::Words::without, crate::specs::Words::after))]
    fn a_node_stands_in_two_lists(rt: HostRuntime) -> Result<(), NoMemory> {
        let mut links = Links::with_lists(rt.alloc(), 4, 2)?;
        links.push_back(0, 2);
        links.push_back(0, 0);
        links.push_back(0, 3);
        links.push_back(1, 3);
        links.move_to_back(0, 2);
        links.remove(0, 3);
        assert_eq!(rt; links.front(0), Some(0));
        assert_eq!(rt; links.next(0, 0), Some(2));
        assert_eq!(rt; links.next(0, 2), None);
        assert_eq!(rt; links.front(1), Some(3));
        assert_eq!(rt; links.next(1, 3), None);
        links.insert_before(1, 3, 1);
        assert_eq!(rt; links.front(1), Some(1));
        assert_eq!(rt; (links.contains(0, 3), links.contains(1, 3)), (false, true));
        Ok(())
    }
}
