// The record of a key, and writes to the one at a node.

ghost use Rattle.std.specs.Prelude.{◌≡◌, IfOk, true, false, Some, None, if◌then◌else◌};
ghost use Rattle.slab.specs.Slab.{ContainsKey, get, Updates};
ghost use Rattle.query_core.specs.declared.record.Record.{Record};

use crate::keys::Reads;
use slab::Slab;
use std::alloc::AllocError;

/// The record of a key, as it is kept. What each visit looks at stands first, next to one another.
#[derive(Drop)]
pub(crate) struct Record<K, V> {
    /// The key.
    pub(crate) key: K,
    /// Its value.
    pub(crate) value: V,
    /// Whether the key is an input.
    pub(crate) input: bool,
    /// Whether it was last verified with all clean records.
    pub(crate) clean: bool,
    /// The revision in which it was last verified, where it isn't clean.
    pub(crate) verified_at: u64,
    /// The revision in which its value last changed.
    pub(crate) changed_at: u64,
    /// The nodes that its run read, in the order of asking.
    pub(crate) reads: Reads,
}

/// A look at a record.
#[derive(Drop)]
pub(crate) struct Seen<'a, K, V> {
    /// The key.
    pub(crate) key: &'a K,
    /// Its value.
    pub(crate) value: &'a V,
    /// The nodes that its run read, in the order of asking.
    pub(crate) reads: &'a [u32],
    /// Whether the key is an input.
    pub(crate) input: bool,
    /// The revision in which it was last verified.
    pub(crate) verified_at: u64,
    /// The revision in which its value last changed.
    pub(crate) changed_at: u64,
}

/// The stamp of change of the record once it has this value.
fn changed_at<K, V: Eq>(kept: &Record<K, V>, value: &V, now: u64) -> u64
    ensures { result ≡ (if V.eq kept.now.value value.now then kept.now.changed_at else now) }
{
    if kept.value == *value {
        kept.changed_at
    } else {
        now
    }
}

/// The revision in which the record was last verified, where the clean ones were in this.
pub(crate) fn stamp<K, V>(kept: &Record<K, V>, clean_at: u64) -> u64
    ensures { result ≡ (if kept.now.clean then clean_at else kept.now.verified_at) }
{
    if kept.clean {
        clean_at
    } else {
        kept.verified_at
    }
}

/// The node of the next record that is added; a node is a number below 2^32.
pub(crate) fn next_node<K, V>(nodes: &Slab<Record<K, V>>) -> Result<u32, AllocError>
    ensures next { IfOk result (λ node. node ≡ nodes.now.vacant_key) }
    ensures free { IfOk result (λ node. get nodes.now node ≡ None) }
{
    match u32::try_from(nodes.vacant_key()) {
        Ok(node) => Ok(node),
        Err(_) => Err(AllocError),
    }
}

/// What the record at the node reads.
pub(crate) fn reads_at<K, V>(nodes: &Slab<Record<K, V>>, node: u32) -> &[u32]
    requires { ContainsKey nodes.now node }
    ensures { (r : Record K V) → get nodes.now node ≡ Some r → result.now ≡ r.reads }
{
    nodes[node as usize].reads.as_slice()
}

/// Whether two runs read the same.
pub(crate) fn are_same(before: &[u32], after: &[u32]) -> bool
    ensures { result ≡ true → before.now ≡ after.now }
{
    before == after
}

/// Marks the record at the node as clean.
pub(crate) fn mark_clean<K: Drop, V: Drop>(nodes: &mut Slab<Record<K, V>>, node: u32)
    ensures some { (r : Record K V) → get nodes.old node ≡ Some r → Updates nodes.old nodes.new node (Some (record r { clean = true })) }
    ensures none { get nodes.old node ≡ None → nodes.new.slots ≡ nodes.old.slots }
{
    if let Some(kept) = nodes.get_mut(node as usize) {
        kept.clean = true;
    }
}

/// Gives the record at the node a value, verified in the revision `now`; it isn't clean.
pub(crate) fn set_value<K: Drop, V: Eq + Drop>(
    nodes: &mut Slab<Record<K, V>>,
    node: u32,
    value: V,
    now: u64,
)
    ensures some { (r : Record K V) → get nodes.old node ≡ Some r → Updates nodes.old nodes.new node (Some (record r
        { value = value; clean = false; verified_at = now; changed_at = (if V.eq r.value value then r.changed_at else now) })) }
    ensures none { get nodes.old node ≡ None → nodes.new.slots ≡ nodes.old.slots }
{
    if let Some(kept) = nodes.get_mut(node as usize) {
        let changed_at = changed_at(kept, &value, now);
        kept.value = value;
        kept.clean = false;
        kept.verified_at = now;
        kept.changed_at = changed_at;
    }
}

/// Gives the record at the node the value and the reads of a run in the revision `now`; it is clean.
pub(crate) fn set_run<K: Drop, V: Eq + Drop>(
    nodes: &mut Slab<Record<K, V>>,
    node: u32,
    value: V,
    reads: Reads,
    now: u64,
)
    ensures some { (r : Record K V) → get nodes.old node ≡ Some r → Updates nodes.old nodes.new node (Some (record r
        { value = value; reads = reads; clean = true; changed_at = (if V.eq r.value value then r.changed_at else now) })) }
{
    if let Some(kept) = nodes.get_mut(node as usize) {
        let changed_at = changed_at(kept, &value, now);
        kept.value = value;
        kept.reads = reads;
        kept.clean = true;
        kept.changed_at = changed_at;
    }
}

/// Lets the record at the node not be clean, where there is one; the clean ones were verified in this revision.
pub(crate) fn unmark<K: Drop, V: Drop>(nodes: &mut Slab<Record<K, V>>, node: u32, clean_at: u64)
    ensures some { (r : Record K V) → get nodes.old node ≡ Some r → Updates nodes.old nodes.new node (Some (record r { clean = false; verified_at = (if r.clean then clean_at else r.verified_at) })) }
    ensures none { get nodes.old node ≡ None → nodes.new.slots ≡ nodes.old.slots }
{
    if let Some(kept) = nodes.get_mut(node as usize) {
        kept.verified_at = stamp(kept, clean_at);
        kept.clean = false;
    }
}
