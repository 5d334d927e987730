// The graph of the web once more, as plain as can be: records by their numbers, and a demand is a recursion. Nothing is proved of it but
// that it is safe and ends; tests hold the graph against it.

use crate::web::{Knot, first_of, join, second_of};
use std::alloc::{AllocError, Global};
use std::collections::{HashMap, HashSet};

/// The record of a knot.
#[derive(Clone, Copy, Drop)]
struct Entry {
    value: u32,
    first: u32,
    second: u32,
    verified_at: u64,
    changed_at: u64,
}

/// The records, and what ran in this revision.
#[derive(Drop)]
pub struct Plain {
    alloc: Global,
    entries: HashMap<u32, Entry>,
    revision: u64,
    runs: Vec<u32>,
}

/// Knots stand less deep than this.
const DEPTH: u32 = 1000;

impl Plain {
    /// No records.
    pub fn new(alloc: Global) -> Plain {
        Plain {
            alloc,
            entries: HashMap::new(alloc),
            revision: 0,
            runs: Vec::new(alloc),
        }
    }

    /// Begins the next revision.
    pub fn next_revision(&mut self) {
        self.revision = self.revision.wrapping_add(1);
        self.runs.clear();
    }

    /// Gives a knot a value and what it read, in this revision.
    fn enter(&mut self, knot: u32, value: u32, first: u32, second: u32) -> Result<(), AllocError> {
        let revision = self.revision;
        let changed_at = match self.entries.get(&knot) {
            Some(old) => {
                if old.value == value {
                    old.changed_at
                } else {
                    revision
                }
            }
            None => revision,
        };
        let entry = Entry {
            value,
            first,
            second,
            verified_at: revision,
            changed_at,
        };
        self.entries.insert(knot, entry).map_err(AllocError::from)?;
        Ok(())
    }

    /// Sets an input.
    pub fn set_input(&mut self, knot: u32, value: u32) -> Result<(), AllocError> {
        self.enter(knot, value, 0, 0)
    }

    /// The value of a knot, worked out where it is due.
    pub fn demand(&mut self, knot: u32) -> Result<u32, AllocError> {
        self.value_of(knot, DEPTH)
    }

    #[cycle(value)]
    fn value_of(&mut self, knot: u32, depth: u32) -> Result<u32, AllocError> {
        if depth == 0 {
            return Ok(0);
        }
        let Some(old) = self.entries.get(&knot).copied() else {
            return self.run(knot, depth - 1);
        };
        if knot < 8 || old.verified_at == self.revision {
            return Ok(old.value);
        }
        self.value_of(old.first, depth - 1)?;
        if self.changed_at(old.first) > old.verified_at {
            return self.run(knot, depth - 1);
        }
        self.value_of(old.second, depth - 1)?;
        if self.changed_at(old.second) > old.verified_at {
            return self.run(knot, depth - 1);
        }
        let entry = Entry {
            verified_at: self.revision,
            ..old
        };
        self.entries.insert(knot, entry).map_err(AllocError::from)?;
        Ok(old.value)
    }

    #[cycle(value)]
    fn run(&mut self, knot: u32, depth: u32) -> Result<u32, AllocError> {
        if depth == 0 {
            return Ok(0);
        }
        if knot < 8 {
            self.enter(knot, 0, 0, 0)?;
            return Ok(0);
        }
        let before = first_of(knot);
        let first = self.value_of(before, depth - 1)?;
        let other = second_of(knot, first);
        let second = self.value_of(other, depth - 1)?;
        let value = join(first, second);
        self.runs.push(knot)?;
        self.enter(knot, value, before, other)?;
        Ok(value)
    }

    fn changed_at(&self, knot: u32) -> u64 {
        match self.entries.get(&knot) {
            Some(entry) => entry.changed_at,
            None => 0,
        }
    }

    /// Marks what a root uses.
    #[cycle(mark)]
    fn mark(&self, knot: u32, depth: u32, used: &mut HashSet<u32>) -> Result<(), AllocError> {
        if depth == 0 || used.contains(&knot) {
            return Ok(());
        }
        let Some(entry) = self.entries.get(&knot) else {
            return Ok(());
        };
        used.insert(knot).map_err(AllocError::from)?;
        if knot < 8 {
            return Ok(());
        }
        self.mark(entry.first, depth - 1, used)?;
        self.mark(entry.second, depth - 1, used)
    }

    /// Removes the records that are no inputs and that the roots don't use, of knots below a bound.
    pub fn sweep(&mut self, roots: &[Knot], bound: u32) -> Result<usize, AllocError> {
        let mut used = HashSet::new(self.alloc);
        for root in roots {
            self.mark(root.number, DEPTH, &mut used)?;
        }
        let before = self.entries.len();
        for knot in 8..bound {
            if !used.contains(&knot) {
                self.entries.remove(&knot);
            }
        }
        Ok(before.saturating_sub(self.entries.len()))
    }

    /// What ran in this revision, in order.
    pub fn runs(&self) -> &[u32] {
        &self.runs
    }

    /// How many records there are.
    pub fn len(&self) -> usize {
        self.entries.len()
    }
}
