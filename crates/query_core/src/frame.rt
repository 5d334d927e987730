// The path of a demand: a frame for each key whose value is being worked out.

use crate::keys::{Answered, Keys};

/// A key whose value is being worked out.
#[derive(Drop)]
pub(crate) struct Frame<K, S> {
    pub(crate) key: K,
    pub(crate) stage: Stage<K, S>,
}

/// A run that waits: the node of its key, what it keeps, the keys that it asked for, and the nodes that hold the values of the first of
/// them.
#[derive(Drop)]
pub(crate) struct Running<K, S> {
    pub(crate) node: Option<u32>,
    pub(crate) run: S,
    pub(crate) asked: Keys<K>,
    pub(crate) answered: Answered,
}

/// How far the work on a key has come. What a run holds stands apart, so that a frame is small.
#[derive(Drop)]
pub(crate) enum Stage<K, S> {
    /// It is an input without a record.
    Unset,
    /// It has no record, and its run isn't begun.
    Start,
    /// The reads of its record, which stands at the node, are verified and unchanged before the place.
    Check(u32, usize),
    /// It runs, and waits for a key that it asked for.
    Run(Box<Running<K, S>>),
}

/// What a step of the walk gives.
#[derive(Drop)]
pub(crate) enum Moved<K, S> {
    /// The frame waits for this key, which isn't verified and has this node.
    Waits(Frame<K, S>, K, Option<u32>),
    /// The key of the frame was verified at this node.
    Done(u32),
}

/// What spares a run look-ups: the node of its key, whose record has the reads of its last run, and the node that was finished last.
#[derive(Clone, Copy, Drop)]
pub(crate) struct Hints {
    pub(crate) node: Option<u32>,
    pub(crate) finished: Option<u32>,
}

/// Where the record of a key stands.
#[derive(Drop)]
pub(crate) enum Found {
    /// At this node, verified now.
    Current(u32),
    /// At this node, or nowhere; it isn't verified.
    Behind(Option<u32>),
}

/// What a look at one read of a record says.
#[derive(Drop)]
pub(crate) enum Look {
    /// It is verified and unchanged.
    Settled,
    /// It is verified and has changed.
    Altered,
    /// It isn't verified.
    Open,
}

/// What a look at the reads of a record says.
#[derive(Drop)]
pub(crate) enum Checked {
    /// All are verified and unchanged.
    Unchanged,
    /// One is verified and has changed.
    Changed,
    /// The one at this place isn't verified; those before it are, and are unchanged.
    Stale(usize),
}

/// Where a run halts.
#[derive(Drop)]
pub(crate) enum Halt<K, V> {
    /// At this key, which it asked for and which isn't verified and has this node.
    Pauses(K, Option<u32>),
    /// With the value of its key.
    Ends(V),
}
