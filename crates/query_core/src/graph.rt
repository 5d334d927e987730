// The query graph: inputs, revisions, and look-ups. The walk of a demand and the sweep stand in modules of their own.

mod sweep;
mod walk;

ghost use Rattle.std.specs.Prelude.{◌≡◌, ℕ, ◌+◌, ◌<◌, ◌^◌, [], true, None, Some, OnOk, OnErr, IsSome, count_by, is_some, Option};
ghost use Rattle.std.specs.Option.{option_map};
ghost use Rattle.query_core.specs.Stored.{seen};
ghost use Rattle.query_core.specs.Graph.{Held, at, node_of};
ghost use Rattle.query_core.specs.Soundness.{IsSound, IsUnswept};
ghost use Rattle.query_core.specs.Changes.{IsFresh, SetsInput};
ghost use Rattle.query_core.specs.Sweeping.{Sweeps};
ghost use Rattle.query_core.specs.Due.{WasDue};

use crate::keys::{Reads, TryCopy};
use crate::record::{Record, Seen};
use crate::rules::Rules;
use crate::store::Store;
use std::alloc::{AllocError, Global};
use std::marker::{Model, PhantomData};

/// Names the record of a key in the graph that gave it, for as long as that graph keeps the record.
#[derive(Clone, Copy)]
pub struct NodeId {
    index: u32,
}

impl Model for NodeId {
    ghost use Rattle.std.specs.Prelude.{ℕ};

    ghost Value = { ℕ };

    ghost view = { λ n. n.index };

    ghost inverse = { λ n. record { index = n } };
}

/// A query graph for the rules `R`: a record for each key that was set or worked out.
///
/// A revision has two parts: inputs are set by `set_input` and `drop_input`, then keys are worked out by `demand`. `next_revision` begins the
/// next one. After an edit only the keys are worked out again that read something which has changed.
#[derive(Drop)]
pub struct Graph<R: Rules> {
    alloc: Global,
    store: Store<R::Key, R::Value>,
    revision: u64,
    runs: Vec<R::Key>,
    /// How many keys were demanded in this revision in the order of the last sweep's roots; these are found without a look-up.
    demanded: usize,
    rules: PhantomData<R>,
}

impl<R: Rules> Model for Graph<R> {
    ghost use Rattle.query_core.specs.Graph.{Held};
    ghost use Rattle.query_core.specs.Freshening.{IsKept, mark_at};

    ghost Value = { Held R.Key R.Value };

    ghost view = { λ g. record { nodes = g.store.nodes; numbers = g.store.numbers; revision = g.revision; runs = g.runs.items; demanded_at = g.store.clean_at } };

    ghost invariant = { λ g. IsKept R.queries (record { nodes = g.store.nodes; numbers = g.store.numbers; revision = g.revision; runs = g.runs.items; demanded_at = g.store.clean_at }) (mark_at g.store.clean) };
}

impl<R: Rules> Graph<R> {
    /// A graph with no record, in its first revision.
    pub fn new(alloc: Global) -> Graph<R>
        ensures nodes { result.nodes ≡ [] }
        ensures numbers { result.numbers ≡ [] }
        ensures revision { result.revision ≡ 0 }
        ensures runs { result.runs ≡ [] }
        ensures demanded { result.demanded_at ≡ 0 }
        ensures sound { IsSound R.queries result }
        ensures fresh { IsFresh R.queries result }
        ensures unswept { IsUnswept R.queries result }
    {
        Graph {
            alloc,
            store: Store::new(alloc),
            revision: 0,
            runs: Vec::new(alloc),
            demanded: 0,
            rules: PhantomData,
        }
    }

    /// Sets an input; no key may have been demanded in this revision.
    ///
    /// Its stamp of change moves to this revision exactly where the value differs from the kept one, or where it had no record. After want of
    /// memory the graph is as before.
    pub fn set_input(&mut self, key: R::Key, value: R::Value) -> Result<(), AllocError>
        requires input { R.queries.is_input key ≡ true }
        requires fresh { IsFresh R.queries self.old }
        ensures ok { OnOk result (SetsInput R.queries self.old self.new key value) }
        ensures due { OnOk result ((given : R.Key → R.Value) → given key ≡ value → WasDue R.queries self.old self.new given) }
        ensures err { OnErr result (self.new ≡ self.old) }
        ensures demanded { self.new.demanded_at ≡ self.old.demanded_at }
        ensures sound { IsSound R.queries self.new }
        ensures still_fresh { IsFresh R.queries self.new }
        ensures still_unswept { IsUnswept R.queries self.old → IsUnswept R.queries self.new }
    {
        let now = self.revision;
        match self.store.node_of(&key) {
            Some(node) => {
                self.store.prepare(node, &value)?;
                self.store.set(node, value, now);
            }
            None => {
                let reads = Reads::new(self.alloc);
                self.store.add(Record {
                    key,
                    value,
                    reads,
                    input: true,
                    clean: false,
                    verified_at: now,
                    changed_at: now,
                })?;
            }
        }
        Ok(())
    }

    /// Takes an input's value away, as `set_input` with the value of inputs that aren't set. After want of memory the graph is as before.
    pub fn drop_input(&mut self, rules: &R, key: &R::Key) -> Result<(), AllocError>
        requires input { R.queries.is_input key.now ≡ true }
        requires fresh { IsFresh R.queries self.old }
        ensures ok { OnOk result (SetsInput R.queries self.old self.new key.now (R.queries.unset key.now)) }
        ensures due { OnOk result ((given : R.Key → R.Value) → given key.now ≡ R.queries.unset key.now → WasDue R.queries self.old self.new given) }
        ensures err { OnErr result (self.new ≡ self.old) }
        ensures demanded { self.new.demanded_at ≡ self.old.demanded_at }
        ensures sound { IsSound R.queries self.new }
        ensures still_fresh { IsFresh R.queries self.new }
        ensures still_unswept { IsUnswept R.queries self.old → IsUnswept R.queries self.new }
    {
        let value = rules.unset(self.alloc, key)?;
        let copy = key.try_copy()?;
        self.set_input(copy, value)
    }

    /// Begins the next revision: inputs may be set, then keys demanded. It takes no memory; each record stays as it is, and `runs` is empty.
    pub fn next_revision(&mut self)
        requires { self.old.revision < 2 ^ 63 }
        ensures kept { self.new ≡ record self.old { revision = self.old.revision + 1; runs = [] } }
        ensures due { (given : R.Key → R.Value) → WasDue R.queries self.old self.new given }
        ensures sound { IsSound R.queries self.new }
        ensures fresh { IsFresh R.queries self.new }
        ensures unswept { IsUnswept R.queries self.new }
    {
        self.revision += 1;
        self.demanded = 0;
        self.runs.clear();
    }

    /// The record at a node.
    fn node(&self, node: u32) -> Option<Seen<'_, R::Key, R::Value>>
        ensures value { option_map seen result ≡ at self.now node }
        ensures sound { IsSound R.queries self.now }
    {
        self.store.node(node)
    }

    /// The value at a node, as it was worked out or set last.
    pub fn value(&self, id: NodeId) -> &R::Value
        requires { IsSome (at self.now id) }
        ensures { Some result.now ≡ option_map (λ r. r.value) (at self.now id) }
    {
        match self.store.node(id.index) {
            Some(node) => node.value,
            None => unreachable!(),
        }
    }

    /// The node of a key, or `None` exactly where the key has no record.
    pub fn lookup(&self, key: &R::Key) -> Option<NodeId>
        ensures { result ≡ node_of R.queries self.now key.now }
    {
        let index = self.store.node_of(key)?;
        Some(NodeId { index })
    }

    /// The keys that ran in this revision, in order.
    pub fn runs(&self) -> &[R::Key]
        ensures { result.now ≡ self.now.runs }
    {
        &self.runs
    }

    /// How many records there are.
    pub fn len(&self) -> usize
        ensures { result ≡ count_by is_some self.now.nodes }
    {
        self.store.len()
    }
}
