// Copies that may be refused, and lists of keys.

ghost use Rattle.std.specs.Prelude.{◌≡◌, ◌+◌, ◌<◌, ◌^◌, IfOk, IsSome, List, [], ◌∷◌, ◌++◌, OnOk, OnErr, ℕ, length, nat_eq, slice_get};
ghost use Rattle.std.specs.List.{list_any};
ghost use Rattle.query_core.specs.Marking.{marked};

use std::alloc::{AllocError, Global};
use std::collections::HashSet;
use std::marker::Model;

/// A copy that may be refused for want of memory.
pub trait TryCopy {
    /// The same value once more.
    fn try_copy(&self) -> Result<Self, AllocError>
    where
        Self: Sized,
        ensures { IfOk result (λ copy. copy ≡ self.now) };
}

/// A list of keys, in order.
#[derive(Drop)]
pub struct Keys<K> {
    items: Vec<K>,
}

impl<K> Model for Keys<K> {
    ghost use Rattle.std.specs.Prelude.{List};

    ghost Value = { List K };

    ghost view = { λ k. k.items.items };
}

impl<K> Keys<K> {
    /// No keys.
    pub fn new(alloc: Global) -> Keys<K>
        ensures { result ≡ [] }
    {
        Keys {
            items: Vec::new(alloc),
        }
    }

    /// No keys, with room for so many.
    pub(crate) fn with_room(alloc: Global, room: usize) -> Result<Keys<K>, AllocError>
        ensures { IfOk result (λ keys. keys ≡ []) }
    {
        let items = Vec::with_capacity(alloc, room)?;
        Ok(Keys { items })
    }

    /// The list of these keys.
    pub fn from_vec(items: Vec<K>) -> Keys<K>
        ensures { result ≡ items.items }
    {
        Keys { items }
    }

    /// How many keys there are.
    pub fn len(&self) -> usize
        ensures { result ≡ length self.now }
    {
        self.items.len()
    }

    /// The keys.
    pub fn as_slice(&self) -> &[K]
        ensures { result.now ≡ self.now }
    {
        &self.items
    }
}

impl<K: Drop> Keys<K> {
    /// These keys, followed by those. After want of memory it is unchanged.
    pub fn append(&mut self, more: Keys<K>) -> Result<(), AllocError>
        ensures ok { OnOk result (self.new ≡ self.old ++ more) }
        ensures err { OnErr result (self.new ≡ self.old) }
    {
        let mut items = more.items;
        self.items.append(&mut items)
    }
}

/// The nodes that a run read, in the order of asking.
#[derive(Drop)]
pub struct Reads {
    items: Vec<u32>,
}

impl Model for Reads {
    ghost use Rattle.std.specs.Prelude.{List, ℕ};

    ghost Value = { List ℕ };

    ghost view = { λ r. r.items.items };
}

impl Reads {
    /// Nothing was read.
    pub(crate) fn new(alloc: Global) -> Reads
        ensures { result ≡ [] }
    {
        Reads {
            items: Vec::new(alloc),
        }
    }

    /// The nodes.
    pub(crate) fn as_slice(&self) -> &[u32]
        ensures { result.now ≡ self.now }
    {
        &self.items
    }
}

/// The nodes that answered what a run asked for, in the order of asking.
#[derive(Drop)]
pub(crate) struct Answered {
    reads: Vec<u32>,
    seen: HashSet<u32>,
}

impl Model for Answered {
    ghost use Rattle.std.specs.Prelude.{◌≡◌, List, ℕ, nat_eq};
    ghost use Rattle.std.specs.List.{list_any};
    ghost use Rattle.std.specs.HashSet.{contains};

    ghost Value = { List ℕ };

    ghost view = { λ a. a.reads.items };

    ghost invariant = { λ a. (node : ℕ) → contains nat_eq a.seen node ≡ list_any (nat_eq node) a.reads.items };
}

impl Answered {
    /// Nothing was answered.
    pub(crate) fn new(alloc: Global) -> Answered
        ensures { result ≡ [] }
    {
        Answered {
            reads: Vec::new(alloc),
            seen: HashSet::new(alloc),
        }
    }

    /// Nothing was answered, with room for so many answers.
    pub(crate) fn with_room(alloc: Global, room: usize) -> Result<Answered, AllocError>
        ensures { IfOk result (λ answered. answered ≡ []) }
    {
        let reads = Vec::with_capacity(alloc, room)?;
        let seen = HashSet::with_capacity(alloc, room)?;
        Ok(Answered { reads, seen })
    }

    /// How many answers there are.
    pub(crate) fn len(&self) -> usize
        ensures { result ≡ length self.now }
    {
        self.reads.len()
    }

    /// Whether the node is among the answers; in a time that doesn't depend on their number.
    pub(crate) fn contains(&self, node: u32) -> bool
        ensures { result ≡ list_any (nat_eq node) self.now }
    {
        self.seen.contains(&node)
    }

    /// One more answer.
    pub(crate) fn push(&mut self, node: u32) -> Result<(), AllocError>
        ensures ok { OnOk result (self.new ≡ self.old ++ node ∷ []) }
        ensures err { OnErr result (self.new ≡ self.old) }
    {
        self.reads.reserve(1)?;
        self.seen.insert(node).map_err(AllocError::from)?;
        self.reads.push_reserved(node);
        Ok(())
    }

    /// The node at this place in order.
    pub(crate) fn get(&self, place: usize) -> Option<u32>
        ensures value { result ≡ slice_get self.now place }
        ensures fits { IsSome result → place + 1 < 2 ^ 64 }
    {
        self.reads.get(place).copied()
    }

    /// The node that came last.
    pub(crate) fn last(&self) -> Option<u32> {
        self.reads.last().copied()
    }

    /// Adds the node, where it isn't there yet.
    #[tactic(auto, unfolding(crate::specs::Marking::marked))]
    pub(crate) fn mark(&mut self, node: u32) -> Result<(), AllocError>
        ensures ok { OnOk result (self.new ≡ marked self.old node) }
    {
        if self.contains(node) {
            return Ok(());
        }
        self.push(node)
    }

    /// The nodes in order.
    pub(crate) fn as_slice(&self) -> &[u32]
        ensures { result.now ≡ self.now }
    {
        &self.reads
    }

    /// The nodes that answered.
    pub(crate) fn into_reads(self) -> Reads
        ensures { result ≡ self }
    {
        Reads { items: self.reads }
    }
}
