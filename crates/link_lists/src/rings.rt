//! Nodes and ends of lists that stand in rings.
//!
//! Each place has one place before it and one after it. A list is a ring that goes from its end through its nodes and
//! back to its end; a node in no list is a ring alone. So no case is special, neither an empty list nor a first node.

ghost use Rattle.std.specs.Prelude.{◌≡◌, ◌≢◌, ◌<◌};

use std::array;

/// A place in a ring: a node, or the end of a list, which stands after its last node and before its first one.
#[derive(Clone, Copy)]
pub enum RingPlace {
    Node(usize),
    End(usize),
}

/// The places on both sides of a place.
#[derive(Clone, Copy)]
pub struct Neighbours {
    pub before: RingPlace,
    pub after: RingPlace,
}

impl Neighbours {
    /// Those of a place that is a ring alone.
    fn alone(place: RingPlace) -> Self
        ensures { result ≡ record { before = place; after = place } }
    {
        Neighbours {
            before: place,
            after: place,
        }
    }
}

/// The places on both sides of each node and of each end.
#[derive(Drop)]
pub struct Rings<const N: usize, const L: usize> {
    pub nodes: [Neighbours; N],
    pub ends: [Neighbours; L],
}

impl<const N: usize, const L: usize> Rings<N, L> {
    ghost use Rattle.link_lists.specs.declared.rings.RingPlace.{RingPlace};
    ghost use Rattle.link_lists.specs.Rings.{IsRingPlace, neighbours, place_after, place_before, Joins};

    /// Each place is alone.
    pub fn new() -> Self
        ensures { (p : RingPlace) → IsRingPlace N L p → neighbours result p ≡ record { before = p; after = p } }
    {
        Rings {
            nodes: array::from_fn(|node| Neighbours::alone(RingPlace::Node(node))),
            ends: array::from_fn(|list| Neighbours::alone(RingPlace::End(list))),
        }
    }

    /// The places on both sides of this one.
    pub fn at(&self, place: RingPlace) -> Neighbours
        requires { IsRingPlace N L place }
        ensures { result ≡ neighbours self.now place }
    {
        match place {
            RingPlace::Node(node) => self.nodes[node],
            RingPlace::End(list) => self.ends[list],
        }
    }

    /// Sets the places on both sides of this one.
    fn put(&mut self, place: RingPlace, value: Neighbours)
        requires { IsRingPlace N L place }
        ensures put { neighbours self.new place ≡ value }
        ensures others { (p : RingPlace) → p ≢ place → neighbours self.new p ≡ neighbours self.old p }
    {
        match place {
            RingPlace::Node(node) => self.nodes[node] = value,
            RingPlace::End(list) => self.ends[list] = value,
        }
    }

    /// Lets one place stand right before another.
    pub fn join(&mut self, first: RingPlace, second: RingPlace)
        requires first { IsRingPlace N L first }
        requires second { IsRingPlace N L second }
        ensures { Joins self.old self.new first second }
    {
        let before = self.at(first).before;
        self.put(
            first,
            Neighbours {
                before,
                after: second,
            },
        );
        let after = self.at(second).after;
        self.put(
            second,
            Neighbours {
                before: first,
                after,
            },
        );
    }
}
