// Records that nothing reads go, and with them what only they read.

ghost use Rattle.std.specs.Prelude.{◌≡◌, ◌+◌, ℕ, None, Some, List, cond, count_by, is_some};
ghost use Rattle.std.specs.Map.{lookup};
ghost use Rattle.slab.specs.Slab.{ContainsKey, Updates, get};
ghost use Rattle.query_core.specs.Answering.{IsNumbered};
ghost use Rattle.query_core.specs.Stored.{stored};
ghost use Rattle.query_core.specs.Tallies.{Lowers, AreTallied};
ghost use Rattle.query_core.specs.Removal.{goes, Removes};
ghost use Rattle.query_core.specs.declared.record.Record.{Record};

use crate::record::Record;
use crate::tallies::Tallies;
use indexmap::IndexMap;
use slab::Slab;
use std::hash::Hash;

/// Whether the node has a record that is no input's and that nothing reads.
fn goes<K, V>(nodes: &Slab<Record<K, V>>, tallies: &Tallies, node: u32) -> bool
    ensures { result ≡ goes nodes.now.slots tallies.now node }
{
    match nodes.get(node as usize) {
        Some(kept) => !kept.input && tallies.is_unread(node),
        None => false,
    }
}

/// Removes the record at the node, the number of its key, and its reads.
fn remove<K: Eq + Hash + Drop, V: Drop>(
    nodes: &mut Slab<Record<K, V>>,
    numbers: &mut IndexMap<K, u32>,
    tallies: &mut Tallies,
    node: u32,
)
    requires { ContainsKey nodes.old node }
    ensures removes { Updates nodes.old nodes.new node None }
    ensures len { count_by is_some nodes.new.slots + 1 ≡ count_by is_some nodes.old.slots }
    ensures numbers { (r : Record K V) → get nodes.old node ≡ Some r → (k : K) → lookup (K.eq k) numbers.new.entries ≡ cond (K.eq r.key k) None (lookup (K.eq k) numbers.old.entries) }
    ensures tallies { (r : Record K V) → get nodes.old node ≡ Some r → Lowers tallies.old tallies.new r.reads }
{
    let removed = nodes.remove(node as usize);
    numbers.swap_remove(&removed.key);
    tallies.lower(removed.reads.as_slice());
}

/// Removes each record that is no input's and that nothing reads, and goes on with what they read. It takes no memory, and looks at
/// nothing but what is listed.
pub(crate) fn remove_unread<K: Eq + Hash + Drop, V: Drop>(
    nodes: &mut Slab<Record<K, V>>,
    numbers: &mut IndexMap<K, u32>,
    tallies: &mut Tallies,
)
    ensures { (roots : List ℕ) (c : ℕ) → AreTallied nodes.old.slots tallies.old roots → IsNumbered K.eq (stored nodes.old.slots numbers.old.entries c)
        → Removes K.eq roots c nodes.old.slots nodes.new.slots numbers.new.entries tallies.new }
{
    'unread: while let Some(node) = tallies.pop() {
        if !goes(nodes, tallies, node) {
            continue;
        }
        remove(nodes, numbers, tallies, node);
    }
}
