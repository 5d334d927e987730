// The records of the keys: nodes in a slab, and the number of each key's node.
//
// All records that are marked as clean were last verified in one revision, which is kept once; so they are verified in another one by
// one assignment. Each other record has a stamp of its own.

ghost use Rattle.std.specs.Prelude.{◌≡◌, ◌+◌, ℕ, true, false, IfOk, OnOk, OnErr, IsSome, None, Some, [], Option, count_by, is_some};
ghost use Rattle.std.specs.Map.{lookup};
ghost use Rattle.std.specs.Option.{option_map, option_copied};
ghost use Rattle.query_core.specs.Node.{Node};
ghost use Rattle.query_core.specs.Stored.{Stored, Changes, Adds, SetsMark, Freshens, Prepares, node_at, shown, seen};
ghost use Rattle.query_core.specs.Removal.{Leaves};
ghost use Rattle.query_core.specs.Answering.{IsNumbered, pairs_at};
ghost use Rattle.std.specs.Prelude.{if◌then◌else◌};

use crate::keys::{Reads, TryCopy};
use crate::opening::{reaching, unmark_all};
use crate::readers::Readers;
use crate::record::{Record, Seen, are_same, mark_clean, next_node, reads_at, set_run, set_value};
use crate::removal::remove_unread;
use crate::tallies::{Tallies, hold};
use indexmap::IndexMap;
use slab::Slab;
use std::alloc::{AllocError, Global};
use std::hash::Hash;
use std::marker::Model;

/// Records by node, and the node of each key.
#[derive(Drop)]
pub(crate) struct Store<K: Eq + Hash, V> {
    alloc: Global,
    numbers: IndexMap<K, u32>,
    nodes: Slab<Record<K, V>>,
    readers: Readers,
    tallies: Tallies,
    /// The nodes that the tallies count as read beside recorded reads: those of the last sweep's roots.
    roots: Vec<u32>,
    /// The revision in which the clean records were last verified.
    clean_at: u64,
}

impl<K: Eq + Hash, V> Model for Store<K, V> {
    ghost use Rattle.query_core.specs.Stored.{Stored, stored};
    ghost use Rattle.query_core.specs.Known.{AreKnown};

    ghost Value = { Stored K V };

    ghost view = { λ s. stored s.nodes.slots s.numbers.entries s.clean_at };

    ghost invariant = { λ s. AreKnown s.readers s.tallies s.nodes.slots s.roots.items };
}

impl<K: Eq + Hash + TryCopy + Drop, V: Drop> Store<K, V> {
    pub(crate) fn new(alloc: Global) -> Store<K, V>
        ensures nodes { result.nodes ≡ [] }
        ensures numbers { result.numbers ≡ [] }
        ensures clean_at { result.clean_at ≡ 0 }
    {
        Store {
            alloc,
            numbers: IndexMap::new(alloc),
            nodes: Slab::new(alloc),
            readers: Readers::new(alloc),
            tallies: Tallies::new(alloc),
            roots: Vec::new(alloc),
            clean_at: 0,
        }
    }

    /// How many records there are.
    pub(crate) fn len(&self) -> usize
        ensures { result ≡ count_by is_some self.now.nodes }
    {
        self.nodes.len()
    }

    /// The node of the key.
    pub(crate) fn node_of(&self, key: &K) -> Option<u32>
        ensures { result ≡ lookup (K.eq key.now) self.now.numbers }
    {
        self.numbers.get(key).copied()
    }

    /// Whether the key has the record at this node.
    fn is_at(&self, key: &K, node: Option<u32>) -> bool
        requires { IsNumbered K.eq self.now }
        ensures { result ≡ true → lookup (K.eq key.now) self.now.numbers ≡ node }
    {
        let Some(index) = node else {
            return false;
        };
        match self.node(index) {
            Some(kept) => *key == *kept.key,
            None => false,
        }
    }

    /// The node of the key; where it is one of the two that are expected, a look at that record tells it without a look-up.
    pub(crate) fn find(&self, key: &K, expected: Option<u32>, finished: Option<u32>) -> Option<u32>
        requires { IsNumbered K.eq self.now }
        ensures { result ≡ lookup (K.eq key.now) self.now.numbers }
    {
        if self.is_at(key, expected) {
            return expected;
        }
        if self.is_at(key, finished) {
            return finished;
        }
        self.node_of(key)
    }

    /// The record at the node.
    pub(crate) fn node(&self, node: u32) -> Option<Seen<'_, K, V>>
        ensures { option_map seen result ≡ node_at self.now node }
    {
        let kept = self.nodes.get(node as usize)?;
        let verified_at = if kept.clean {
            self.clean_at
        } else {
            kept.verified_at
        };
        Some(Seen {
            key: &kept.key,
            value: &kept.value,
            reads: kept.reads.as_slice(),
            input: kept.input,
            verified_at,
            changed_at: kept.changed_at,
        })
    }

    /// The value of the key, where its record stands at one of these nodes.
    pub(crate) fn value_among(&self, key: &K, nodes: &[u32]) -> Option<&V>
        ensures { option_copied result ≡ lookup (K.eq key.now) (pairs_at self.now nodes.now) }
    {
        let mut rest = nodes;
        'nodes: while let Some((node, behind)) = rest.split_first() {
            rest = behind;
            let Some(kept) = self.node(*node) else {
                continue;
            };
            if *key == *kept.key {
                return Some(kept.value);
            }
        }
        None
    }

    /// Adds the record of a key that has none.
    pub(crate) fn add(&mut self, added: Record<K, V>) -> Result<u32, AllocError>
        requires { lookup (K.eq added.key) self.old.numbers ≡ None }
        ensures ok { IfOk result (λ i. Adds K.eq self.old self.new i (shown self.old.clean_at added)) }
        ensures marks { IfOk result (λ i. SetsMark self.old self.new i added.clean) }
        ensures clean_at { self.new.clean_at ≡ self.old.clean_at }
        ensures err { OnErr result (self.new ≡ self.old) }
    {
        self.nodes.reserve(1)?;
        let copy = added.key.try_copy()?;
        let node = next_node(&self.nodes)?;
        self.tallies.cover(node)?;
        self.tallies.list(node);
        self.readers.link(node, added.reads.as_slice())?;
        self.tallies.raise(added.reads.as_slice())?;
        let Ok(_) = self.numbers.insert(copy, node) else {
            self.tallies.lower(added.reads.as_slice());
            return Err(AllocError);
        };
        self.nodes.insert_reserved(added);
        Ok(node)
    }

    /// Removes each record that is no input's and that isn't reached from these nodes by recorded reads, where no record reaches itself, and
    /// gives how many went. It costs these nodes, what goes, and what was found without readers since the last time. After want of memory
    /// nothing is removed.
    pub(crate) fn sweep(&mut self, roots: Vec<u32>) -> Result<usize, AllocError>
        requires { IsNumbered K.eq self.old }
        ensures ok { OnOk result (Leaves K.eq roots.items self.old self.new) }
        ensures count { IfOk result (λ count. count_by is_some self.new.nodes + count ≡ count_by is_some self.old.nodes) }
        ensures err { OnErr result (self.new ≡ self.old) }
    {
        hold(&mut self.tallies, &mut self.roots, roots)?;
        let before = self.nodes.len();
        remove_unread(&mut self.nodes, &mut self.numbers, &mut self.tallies);
        Ok(before - self.nodes.len())
    }

    /// The node of the last sweep's root at this place, of those that had one.
    pub(crate) fn root_at(&self, place: usize) -> Option<u32> {
        self.roots.get(place).copied()
    }

    /// Marks the record as clean, where the clean records were verified in the revision `now`.
    pub(crate) fn verify(&mut self, node: u32, now: u64)
        requires stands { IsSome (node_at self.old node) }
        requires fresh { self.old.clean_at ≡ now }
        ensures changes { (r : Node K V) → node_at self.old node ≡ Some r → Changes self.old self.new node (record r { verified_at = now }) }
        ensures marks { SetsMark self.old self.new node true }
        ensures clean_at { self.new.clean_at ≡ self.old.clean_at }
    {
        mark_clean(&mut self.nodes, node);
    }

    /// Lets all clean records count as verified in the revision `now`.
    pub(crate) fn freshen(&mut self, now: u64)
        ensures { Freshens self.old self.new now }
    {
        self.clean_at = now;
    }
}

impl<K: Eq + Hash + TryCopy + Drop, V: Eq + Drop> Store<K, V> {
    /// Whether the record at the node has this value.
    fn has_value(&self, node: u32, value: &V) -> bool
        ensures { result ≡ true → (r : Node K V) → node_at self.now node ≡ Some r → V.eq r.value value.now ≡ true }
    {
        match self.node(node) {
            Some(kept) => *kept.value == *value,
            None => false,
        }
    }

    /// Lets no record be clean that reads the node, where the record there has another value than this one, or that reads what isn't clean
    /// any more by this call. What is seen of the records stays. It costs what is clean and reads the node, at once or by others.
    pub(crate) fn prepare(&mut self, node: u32, value: &V) -> Result<(), AllocError>
        ensures ok { OnOk result (Prepares V.eq self.old self.new node value.now) }
        ensures err { OnErr result (self.new ≡ self.old) }
    {
        if self.has_value(node, value) {
            return Ok(());
        }
        let reached = reaching(self.alloc, &self.readers, &self.nodes, node)?;
        unmark_all(&mut self.nodes, reached.as_slice(), self.clean_at);
        Ok(())
    }

    /// Gives the record of an input a value, verified in the revision `now`. The stamp of change moves to `now` exactly where the value
    /// differs from the kept one.
    pub(crate) fn set(&mut self, node: u32, value: V, now: u64)
        requires { IsSome (node_at self.old node) }
        ensures changes { (r : Node K V) → node_at self.old node ≡ Some r → Changes self.old self.new node
            (record { key = r.key; value = value; reads = r.reads; input = r.input; verified_at = now; changed_at = (if V.eq r.value value then r.changed_at else now) }) }
        ensures marks { SetsMark self.old self.new node false }
        ensures clean_at { self.new.clean_at ≡ self.old.clean_at }
    {
        set_value(&mut self.nodes, node, value, now);
    }

    /// Gives the record of a run a value and its reads. It is clean, and the clean records were verified in the revision `now`. The stamp of
    /// change moves to `now` exactly where the value differs from the kept one.
    pub(crate) fn renew(
        &mut self,
        node: u32,
        value: V,
        reads: Reads,
        now: u64,
    ) -> Result<(), AllocError>
        requires stands { IsSome (node_at self.old node) }
        requires fresh { self.old.clean_at ≡ now }
        ensures changes { OnOk result ((r : Node K V) → node_at self.old node ≡ Some r → Changes self.old self.new node
            (record { key = r.key; value = value; reads = reads; input = r.input; verified_at = now; changed_at = (if V.eq r.value value then r.changed_at else now) })) }
        ensures marks { OnOk result (SetsMark self.old self.new node true) }
        ensures clean_at { self.new.clean_at ≡ self.old.clean_at }
        ensures err { OnErr result (self.new ≡ self.old) }
    {
        let before = reads_at(&self.nodes, node);
        if are_same(before, reads.as_slice()) {
            set_run(&mut self.nodes, node, value, reads, now);
            return Ok(());
        }
        self.tallies.raise(reads.as_slice())?;
        let Ok(()) = self.readers.link(node, reads.as_slice()) else {
            self.tallies.lower(reads.as_slice());
            return Err(AllocError);
        };
        self.tallies.lower(before);
        set_run(&mut self.nodes, node, value, reads, now);
        Ok(())
    }
}
