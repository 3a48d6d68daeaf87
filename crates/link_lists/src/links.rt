//! The lists, and what may be done with them.

ghost use Rattle.std.specs.Prelude.{◌≡◌, ◌≢◌, ℕ, ◌+◌, ◌<◌, ◌↔◌, List, [], ◌∷◌, ◌++◌, Some, None, IsNone, IfSome, IsTrue, IsFalse, Contains, slice_get};
ghost use Rattle.link_lists.specs.Lists.{list_at, without, IsLinked, IsFree, KeepsOthers, IsLinks};

use crate::rings::{Neighbours, RingPlace, Rings};
use std::marker::Model;

/// `L` lists of numbers below `N`, each number in at most one of them.
///
/// Each call takes a constant number of steps, but for `list_of`, which walks to the end of the list.
#[derive(Drop)]
pub struct Links<const N: usize, const L: usize> {
    rings: Rings<N, L>,
}

impl<const N: usize, const L: usize> Model for Links<N, L> {
    ghost use Rattle.std.specs.Prelude.{List, ℕ};

    ghost Value = { List (List ℕ) };

    ghost use Rattle.link_lists.specs.Rings.{lists_of, StandsFor};

    ghost view = { λ a. lists_of a.rings };

    ghost invariant = { λ a. StandsFor a.rings (lists_of a.rings) };
}

impl<const N: usize, const L: usize> Links<N, L> {
    /// Empty lists.
    pub fn new() -> Self
        ensures empty { (i : ℕ) → list_at result i ≡ [] }
        ensures links { IsLinks N L result }
    {
        Links {
            rings: Rings::new(),
        }
    }

    /// Puts a number that is in no list at the end of one.
    pub fn push_back(&mut self, list: usize, node: usize)
        requires list { list < L }
        requires node { node < N }
        requires free { IsFree self.old node }
        ensures pushed { list_at self.new list ≡ list_at self.old list ++ node ∷ [] }
        ensures others { (i : ℕ) → i ≢ list → list_at self.new i ≡ list_at self.old i }
        ensures kept { KeepsOthers self.old self.new node }
        ensures links { IsLinks N L self.new }
    {
        let end = RingPlace::End(list);
        let node = RingPlace::Node(node);
        let last = self.rings.at(end).before;
        self.rings.join(last, node);
        self.rings.join(node, end);
    }

    /// Takes the first number out of a list.
    pub fn pop_front(&mut self, list: usize) -> Option<usize>
        requires { list < L }
        ensures empty { IsNone result ↔ (list_at self.old list ≡ []) }
        ensures popped { IfSome result (λ n. list_at self.old list ≡ n ∷ list_at self.new list) }
        ensures range { IfSome result (λ n. n < N) }
        ensures freed { IfSome result (IsFree self.new) }
        ensures same { IsNone result → self.new ≡ self.old }
        ensures kept { IfSome result (KeepsOthers self.old self.new) }
        ensures others { (i : ℕ) → i ≢ list → list_at self.new i ≡ list_at self.old i }
        ensures links { IsLinks N L self.new }
    {
        let node = self.first(list)?;
        self.unlink(node);
        Some(node)
    }

    /// Takes a number out of the list that it is in.
    pub fn unlink(&mut self, node: usize)
        requires { IsLinked self.old node }
        ensures rest { (i : ℕ) → list_at self.new i ≡ without node (list_at self.old i) }
        ensures unlinked { (i : ℕ) (before after : List ℕ) → list_at self.old i ≡ before ++ node ∷ after →
            list_at self.new i ≡ before ++ after }
        ensures others { (i : ℕ) → ¬ Contains (list_at self.old i) node →
            list_at self.new i ≡ list_at self.old i }
        ensures freed { IsFree self.new node }
        ensures kept { KeepsOthers self.old self.new node }
        ensures links { IsLinks N L self.new }
    {
        let node = RingPlace::Node(node);
        let Neighbours { before, after } = self.rings.at(node);
        self.rings.join(before, after);
        self.rings.join(node, node);
    }

    /// Puts the numbers of one list behind those of another.
    pub fn move_all(&mut self, from: usize, to: usize)
        requires from { from < L }
        requires to { to < L }
        requires different { from ≢ to }
        ensures moved { list_at self.new to ≡ list_at self.old to ++ list_at self.old from }
        ensures emptied { list_at self.new from ≡ [] }
        ensures others { (i : ℕ) → i ≢ from → i ≢ to →
            list_at self.new i ≡ list_at self.old i }
        ensures kept { (n : ℕ) → IsLinked self.new n ↔ IsLinked self.old n }
        ensures links { IsLinks N L self.new }
    {
        let source = RingPlace::End(from);
        let target = RingPlace::End(to);
        let Neighbours {
            before: last,
            after: first,
        } = self.rings.at(source);
        if let RingPlace::Node(_) = first {
            let behind = self.rings.at(target).before;
            self.rings.join(behind, first);
            self.rings.join(last, target);
            self.rings.join(source, source);
        }
    }

    /// The first number of a list.
    pub fn first(&self, list: usize) -> Option<usize>
        requires { list < L }
        ensures first { result ≡ slice_get (list_at self.now list) 0 }
        ensures range { IfSome result (λ n. n < N) }
        ensures links { IsLinks N L self.now }
    {
        match self.rings.at(RingPlace::End(list)).after {
            RingPlace::Node(node) => Some(node),
            RingPlace::End(_) => None,
        }
    }

    /// The number after this one in its list.
    pub fn next(&self, node: usize) -> Option<usize>
        requires { node < N }
        ensures next { (i k : ℕ) → slice_get (list_at self.now i) k ≡ Some node →
            result ≡ slice_get (list_at self.now i) (k + 1) }
        ensures range { IfSome result (λ n. n < N) }
        ensures free { IsFree self.now node → result ≡ None }
        ensures links { IsLinks N L self.now }
    {
        match self.rings.at(RingPlace::Node(node)).after {
            RingPlace::Node(next) => (next != node).then_some(next),
            RingPlace::End(_) => None,
        }
    }

    /// Whether a number is in a list.
    pub fn is_linked(&self, node: usize) -> bool
        requires { node < N }
        ensures linked { IsTrue result ↔ IsLinked self.now node }
        ensures free { IsFalse result ↔ IsFree self.now node }
        ensures links { IsLinks N L self.now }
    {
        match self.rings.at(RingPlace::Node(node)).after {
            RingPlace::Node(next) => next != node,
            RingPlace::End(_) => true,
        }
    }

    /// The list that a number is in. This walks to the end of that list.
    pub fn list_of(&self, node: usize) -> Option<usize>
        requires { node < N }
        ensures found { IfSome result (λ i. Contains (list_at self.now i) node) }
        ensures range { IfSome result (λ i. i < L) }
        ensures free { IsNone result ↔ IsFree self.now node }
        ensures links { IsLinks N L self.now }
    {
        let rings = &self.rings;
        let mut last = node;
        while let Some(next) = self.next(last) {
            last = next;
        }
        match rings.at(RingPlace::Node(last)).after {
            RingPlace::End(list) => Some(list),
            RingPlace::Node(_) => None,
        }
    }
}
