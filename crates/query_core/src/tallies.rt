// How many reads name each node, and which nodes nothing reads.
//
// A node is listed once its last read went, and when its record is added. So a sweep looks at what is listed, and at nothing else.

ghost use Rattle.std.specs.Prelude.{◌≡◌, ◌+◌, ◌-◌, ◌<◌, ◌≤◌, ◌==◌, ◌^◌, ◌⊎◌, ℕ, [], cond, nat_eq, length, IfSome, IfNone, OnOk, OnErr};
ghost use Rattle.query_core.specs.Lists.{Has};
ghost use Rattle.query_core.specs.Tallies.{Tallied, Exchanges, Lowers, tally_at, reads_of, occurs};

use crate::record::are_same;
use std::alloc::{AllocError, Global};
use std::marker::Model;

/// How many reads name a node, and whether the node is listed.
#[derive(Clone, Copy, Drop)]
pub(crate) struct Tally {
    pub(crate) reads: u32,
    pub(crate) listed: bool,
}

/// The tally of each node, and the nodes that are listed.
#[derive(Drop)]
pub(crate) struct Tallies {
    tallies: Vec<Tally>,
    /// Its capacity is at least the number of tallies, so that listing takes no memory.
    unread: Vec<u32>,
}

impl Model for Tallies {
    ghost use Rattle.std.specs.Vec.{vec_capacity};
    ghost use Rattle.query_core.specs.Tallies.{Tallied, AreListed};

    ghost Value = { Tallied };

    ghost view = { λ t. record { tallies = t.tallies.items; unread = t.unread.items } };

    ghost invariant = { λ t. AreListed t.tallies.items t.unread.items (vec_capacity t.unread) };
}

impl Tallies {
    /// Nothing is read, and nothing listed.
    pub(crate) fn new(alloc: Global) -> Tallies
        ensures { result ≡ record { tallies = []; unread = [] } }
    {
        Tallies {
            tallies: Vec::new(alloc),
            unread: Vec::new(alloc),
        }
    }

    /// One more tally.
    fn grow(&mut self) -> Result<(), AllocError>
        ensures same { (j : ℕ) → tally_at self.new.tallies j ≡ tally_at self.old.tallies j }
        ensures unread { self.new.unread ≡ self.old.unread }
        ensures long { length self.old.tallies ≤ length self.new.tallies }
        ensures longer { OnOk result (length self.new.tallies ≡ length self.old.tallies + 1) }
    {
        self.tallies.reserve(1)?;
        let wanted = self.tallies.len() + 1;
        self.unread
            .reserve(wanted.saturating_sub(self.unread.len()))?;
        self.tallies.push_reserved(Tally {
            reads: 0,
            listed: false,
        });
        Ok(())
    }

    /// Makes room for the tally of a node.
    pub(crate) fn cover(&mut self, node: u32) -> Result<(), AllocError>
        ensures same { (j : ℕ) → tally_at self.new.tallies j ≡ tally_at self.old.tallies j }
        ensures unread { self.new.unread ≡ self.old.unread }
        ensures long { length self.old.tallies ≤ length self.new.tallies }
        ensures covered { OnOk result (node < length self.new.tallies) }
    {
        'places: while self.tallies.len() <= node as usize {
            self.grow()?;
        }
        Ok(())
    }

    /// Makes room for so many more reads of a node.
    fn make_ready(&mut self, node: u32, more: u32) -> Result<(), AllocError>
        ensures same { (j : ℕ) → tally_at self.new.tallies j ≡ tally_at self.old.tallies j }
        ensures unread { self.new.unread ≡ self.old.unread }
        ensures long { length self.old.tallies ≤ length self.new.tallies }
        ensures covered { OnOk result (node < length self.new.tallies) }
        ensures fits { OnOk result (reads_of self.new node + more < 2 ^ 32) }
    {
        self.cover(node)?;
        if self.tallies[node as usize].reads > u32::MAX - more {
            return Err(AllocError);
        }
        Ok(())
    }

    /// Makes room for one more read of each of these.
    fn make_all_ready(&mut self, nodes: &[u32]) -> Result<(), AllocError>
        ensures same { (j : ℕ) → tally_at self.new.tallies j ≡ tally_at self.old.tallies j }
        ensures unread { self.new.unread ≡ self.old.unread }
        ensures ready { OnOk result ((j : ℕ) → Has nodes.now j → (j < length self.new.tallies) × (reads_of self.new j + length nodes.now < 2 ^ 32)) }
    {
        let Ok(more) = u32::try_from(nodes.len()) else {
            return Err(AllocError);
        };
        let mut rest = nodes;
        'nodes: while let Some((node, behind)) = rest.split_first() {
            self.make_ready(*node, more)?;
            rest = behind;
        }
        Ok(())
    }

    /// One more read of a node.
    fn raise_one(&mut self, node: u32)
        requires covered { node < length self.old.tallies }
        requires fits { reads_of self.old node + 1 < 2 ^ 32 }
        ensures counts { (j : ℕ) → reads_of self.new j ≡ cond (nat_eq node j) (reads_of self.old j + 1) (reads_of self.old j) }
        ensures unread { self.new.unread ≡ self.old.unread }
        ensures long { length self.new.tallies ≡ length self.old.tallies }
    {
        self.tallies[node as usize].reads += 1;
    }

    /// One more read of each of these. After want of memory the reads are as before.
    pub(crate) fn raise(&mut self, nodes: &[u32]) -> Result<(), AllocError>
        ensures ok { OnOk result ((j : ℕ) → reads_of self.new j ≡ reads_of self.old j + occurs nodes.now j) }
        ensures err { OnErr result ((j : ℕ) → reads_of self.new j ≡ reads_of self.old j) }
        ensures unread { self.new.unread ≡ self.old.unread }
    {
        self.make_all_ready(nodes)?;
        let mut rest = nodes;
        'nodes: while let Some((node, behind)) = rest.split_first() {
            self.raise_one(*node);
            rest = behind;
        }
        Ok(())
    }

    /// Lists a node.
    pub(crate) fn list(&mut self, node: u32)
        requires { node < length self.old.tallies }
        ensures counts { (j : ℕ) → reads_of self.new j ≡ reads_of self.old j }
        ensures kept { (j : ℕ) → Has self.old.unread j → Has self.new.unread j }
        ensures listed { Has self.new.unread node }
        ensures long { length self.new.tallies ≡ length self.old.tallies }
        ensures bounded { length self.new.unread ≤ length self.new.tallies }
    {
        if self.tallies[node as usize].listed {
            return;
        }
        self.tallies[node as usize].listed = true;
        self.unread.push_reserved(node);
    }

    /// One read less of a node.
    fn take(&mut self, node: u32)
        ensures counts { (j : ℕ) → reads_of self.new j ≡ cond (nat_eq node j) (reads_of self.old j - 1) (reads_of self.old j) }
        ensures unread { self.new.unread ≡ self.old.unread }
        ensures long { length self.new.tallies ≡ length self.old.tallies }
    {
        if node as usize >= self.tallies.len() {
            return;
        }
        let reads = self.tallies[node as usize].reads.saturating_sub(1);
        self.tallies[node as usize].reads = reads;
    }

    /// Whether nothing reads the node.
    pub(crate) fn is_unread(&self, node: u32) -> bool
        ensures { result ≡ (reads_of self.now node == 0) }
    {
        match self.tallies.get(node as usize) {
            Some(tally) => tally.reads == 0,
            None => true,
        }
    }

    /// One read less of a node, which is listed if that was the last one.
    fn lower_one(&mut self, node: u32)
        ensures counts { (j : ℕ) → reads_of self.new j ≡ cond (nat_eq node j) (reads_of self.old j - 1) (reads_of self.old j) }
        ensures kept { (j : ℕ) → Has self.old.unread j → Has self.new.unread j }
        ensures listed { 0 < reads_of self.old node → reads_of self.new node ≡ 0 → Has self.new.unread node }
        ensures long { length self.new.tallies ≡ length self.old.tallies }
        ensures bounded { length self.old.unread ≤ length self.old.tallies → length self.new.unread ≤ length self.new.tallies }
    {
        self.take(node);
        if node as usize >= self.tallies.len() {
            return;
        }
        if !self.is_unread(node) {
            return;
        }
        self.list(node);
    }

    /// One read less of each of these; each is listed whose last one that was.
    pub(crate) fn lower(&mut self, nodes: &[u32])
        ensures { Lowers self.old self.new nodes.now }
    {
        let mut rest = nodes;
        'nodes: while let Some((node, behind)) = rest.split_first() {
            self.lower_one(*node);
            rest = behind;
        }
    }

    /// Takes a node off the list.
    pub(crate) fn pop(&mut self) -> Option<u32>
        ensures none { IfNone result (self.old.unread ≡ []) }
        ensures some { IfSome result (λ node. (j : ℕ) → Has self.old.unread j → (j ≡ node) ⊎ Has self.new.unread j) }
        ensures less { IfSome result (λ node. length self.new.unread + 1 ≡ length self.old.unread) }
        ensures bounded { length self.new.unread ≤ length self.new.tallies }
        ensures counts { (j : ℕ) → reads_of self.new j ≡ reads_of self.old j }
        ensures long { length self.new.tallies ≡ length self.old.tallies }
    {
        let node = self.unread.pop()?;
        if node as usize >= self.tallies.len() {
            return Some(node);
        }
        self.tallies[node as usize].listed = false;
        Some(node)
    }
}

/// Lets these nodes count as read in place of those that are held, and holds them. After want of memory nothing is exchanged.
pub(crate) fn hold(
    tallies: &mut Tallies,
    held: &mut Vec<u32>,
    roots: Vec<u32>,
) -> Result<(), AllocError>
    ensures held { OnOk result (held.new.items ≡ roots.items) }
    ensures ok { OnOk result (Exchanges tallies.old tallies.new held.old.items roots.items) }
    ensures stay { OnErr result (held.new.items ≡ held.old.items) }
    ensures err { OnErr result ((j : ℕ) → reads_of tallies.new j ≡ reads_of tallies.old j) }
    ensures unread { OnErr result (tallies.new.unread ≡ tallies.old.unread) }
{
    if are_same(held, &roots) {
        return Ok(());
    }
    tallies.raise(&roots)?;
    tallies.lower(held);
    *held = roots;
    Ok(())
}
