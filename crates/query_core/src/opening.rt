// Which records a change reaches, and how they stop being clean.

ghost use Rattle.std.specs.Prelude.{◌≡◌, ◌&&◌, ◌+◌, [], cond, IfOk, OnOk, List};
ghost use Rattle.query_core.specs.Marking.{marked, all_marked};
ghost use Rattle.query_core.specs.Readers.{Reaches, clean_of, clean_readers, is_live};
ghost use Rattle.query_core.specs.Stored.{Opens, clean_in};

use crate::keys::Answered;
use crate::readers::{Reader, Readers};
use crate::record::{Record, unmark};
use slab::Slab;
use std::alloc::{AllocError, Global};

/// Whether the record at the node is clean.
fn is_clean<K, V>(nodes: &Slab<Record<K, V>>, node: u32) -> bool
    ensures { result ≡ clean_in nodes.now.slots node }
{
    match nodes.get(node as usize) {
        Some(kept) => kept.clean,
        None => false,
    }
}

/// Marks the reader, where it isn't stale and its record is clean.
fn mark_reader<K, V>(
    readers: &Readers,
    nodes: &Slab<Record<K, V>>,
    reader: Reader,
    reached: &mut Answered,
) -> Result<(), AllocError>
    ensures { OnOk result (reached.new ≡ cond (is_live readers.now reader && clean_in nodes.now.slots reader.node) (marked reached.old reader.node) reached.old) }
{
    if !readers.is_live(reader) {
        return Ok(());
    }
    if !is_clean(nodes, reader.node) {
        return Ok(());
    }
    reached.mark(reader.node)
}

/// Marks those of these readers, in order.
#[tactic(auto, using(crate::proofs::Reached::mark_step))]
fn mark_each<K, V>(
    readers: &Readers,
    nodes: &Slab<Record<K, V>>,
    entries: &[Reader],
    reached: &mut Answered,
) -> Result<(), AllocError>
    ensures { OnOk result (reached.new ≡ all_marked reached.old (clean_of readers.now (clean_in nodes.now.slots) entries.now)) }
{
    let mut rest = entries;
    'entries: while let Some((reader, behind)) = rest.split_first() {
        mark_reader(readers, nodes, *reader, reached)?;
        rest = behind;
    }
    Ok(())
}

/// Marks the clean readers of a node.
fn mark_readers<K, V>(
    readers: &Readers,
    nodes: &Slab<Record<K, V>>,
    node: u32,
    reached: &mut Answered,
) -> Result<(), AllocError>
    ensures { OnOk result (reached.new ≡ all_marked reached.old (clean_readers readers.now (clean_in nodes.now.slots) node)) }
{
    match readers.readers_of(node) {
        Some(entries) => mark_each(readers, nodes, entries, reached),
        None => Ok(()),
    }
}

/// The nodes of the clean records that read the node, or read one of them.
pub(crate) fn reaching<K, V>(
    alloc: Global,
    readers: &Readers,
    nodes: &Slab<Record<K, V>>,
    node: u32,
) -> Result<Answered, AllocError>
    ensures { IfOk result (λ reached. Reaches readers.now (clean_in nodes.now.slots) node reached) }
{
    let mut reached = Answered::new(alloc);
    mark_readers(readers, nodes, node, &mut reached)?;
    let mut place = 0;
    'places: while let Some(next) = reached.get(place) {
        mark_readers(readers, nodes, next, &mut reached)?;
        place += 1;
    }
    Ok(reached)
}

/// Lets the records at these nodes not be clean; the clean ones were verified in this revision.
pub(crate) fn unmark_all<K: Drop, V: Drop>(
    nodes: &mut Slab<Record<K, V>>,
    opened: &[u32],
    clean_at: u64,
)
    ensures { Opens nodes.old.slots nodes.new.slots opened.now clean_at }
{
    let mut rest = opened;
    'nodes: while let Some((node, behind)) = rest.split_first() {
        unmark(nodes, *node, clean_at);
        rest = behind;
    }
}
