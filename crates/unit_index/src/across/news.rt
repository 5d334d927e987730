// What units show otherwise than before.
ghost use Rattle.std.specs.Prelude.{◌≡◌, ◌||◌, ◌++◌, ◌∷◌, ◌-◌, [], true, false, ℕ, nat_eq, List, length, map, OnOk};
ghost use Rattle.std.specs.Cmp.Lexicographic.{pointwise};
ghost use Rattle.std.specs.List.{list_any};
ghost use Rattle.scope_tables.specs.declared.units.Exports.{Exports as Showing};
ghost use Rattle.unit_index.specs.Crossing.{Sight, seen, sight};
ghost use Rattle.unit_index.specs.News as spec;
ghost use Rattle.unit_index.specs.News.{AreNews};
ghost use Rattle.unit_index.specs.Unlike.{AreAhead, AreBehind, AreReplaced};

use super::sights::{is_seen_as, same_sight};
use scope_tables::{Export, Exports};
use shared_text::Name;
use std::alloc::{AllocError, Global};
use std::collections::HashSet;

/// Where a unit's names are seen otherwise: behind as many as `front`, where `gone` names stood and `come` names stand now.
#[derive(Clone, Copy, Drop)]
pub(crate) struct Shift {
    pub(crate) front: u64,
    pub(crate) gone: u64,
    pub(crate) come: u64,
}

/// What some units show otherwise than before, told of one unit after the other, in their order.
#[derive(Drop)]
pub struct News {
    // The names of which an export changed, came or went, in some unit, and those between the first and the last such one of
    // a unit.
    names: HashSet<Name>,
    shifts: Vec<Shift>,
    seen_as_before: bool,
}

#[tactic(auto, unfolding(crate::specs::News::has))]
fn no_names(alloc: Global) -> HashSet<Name>
    ensures { (q : List ℕ) → spec.has result q ≡ false }
{
    HashSet::new(alloc)
}

#[tactic(auto, unfolding(crate::specs::News::has))]
fn note(names: &mut HashSet<Name>, name: &Name) -> Result<(), AllocError>
    ensures { OnOk result ((q : List ℕ) → spec.has names.new q ≡ spec.has names.old q || pointwise nat_eq name.now q) }
{
    let name = name.share()?;
    names.insert(name).map_err(AllocError::from)?;
    Ok(())
}

/// Whether a set has a name.
#[tactic(auto, unfolding(crate::specs::News::has))]
pub(super) fn has(names: &HashSet<Name>, name: &Name) -> bool
    ensures { result ≡ spec.has names.now name.now }
{
    names.contains(name)
}

fn note_all(names: &mut HashSet<Name>, exports: &[Export]) -> Result<(), AllocError>
    ensures { OnOk result ((q : List ℕ) → spec.has names.new q ≡ spec.has names.old q || list_any (λ e. pointwise nat_eq e.name q) exports.now) }
{
    let mut rest = exports;
    'names: while let Some((export, behind)) = rest.split_first() {
        note(names, &export.name)?;
        rest = behind;
    }
    Ok(())
}

// Names that stand where others stood, behind as many as `front`.
#[derive(Clone, Copy, Drop)]
struct Replaced<'a> {
    front: u64,
    gone: &'a [Export],
    come: &'a [Export],
}

fn replaced_behind<'a>(all: &'a [Export], gone: &'a [Export], come: &'a [Export]) -> Replaced<'a>
    ensures front { result.front ≡ length all.now - length gone.now }
    ensures gone { result.gone.now ≡ gone.now }
    ensures come { result.come.now ≡ come.now }
{
    let front = all.len().saturating_sub(gone.len()) as u64;
    Replaced { front, gone, come }
}

// What is left of two lists behind all that they begin with alike.
fn behind_front<'a>(before: &'a [Export], now: &'a [Export]) -> Replaced<'a>
    ensures front { result.front ≡ length before.now - length result.gone.now }
    ensures parts { AreBehind (map seen before.now) (map seen now.now) (map seen result.gone.now) (map seen result.come.now) }
{
    let mut gone = before;
    let mut come = now;
    'names: while let Some((one, behind)) = gone.split_first() {
        let Some((other, others)) = come.split_first() else {
            return replaced_behind(before, gone, come);
        };
        if !is_seen_as(one, other) {
            return replaced_behind(before, gone, come);
        }
        gone = behind;
        come = others;
    }
    replaced_behind(before, gone, come)
}

// What is left of these in front of all that they end with alike.
fn without_end<'a>(replaced: Replaced<'a>) -> Replaced<'a>
    ensures front { result.front ≡ replaced.entry.front }
    ensures parts { AreAhead (map seen replaced.entry.gone.now) (map seen replaced.entry.come.now) (map seen result.gone.now) (map seen result.come.now) }
{
    let front = replaced.front;
    let mut gone = replaced.gone;
    let mut come = replaced.come;
    'names: while let Some((one, ahead)) = gone.split_last() {
        let Some((other, others)) = come.split_last() else {
            return Replaced { front, gone, come };
        };
        if !is_seen_as(one, other) {
            return Replaced { front, gone, come };
        }
        gone = ahead;
        come = others;
    }
    Replaced { front, gone, come }
}

// The names of a unit that were replaced: all of them where something else is known of its tags.
fn names_replaced<'a>(before: &'a Exports, now: &'a Exports) -> Replaced<'a>
    ensures { AreReplaced before.now now.now result.front (map seen result.gone.now) (map seen result.come.now) }
{
    let gone = before.names.as_slice();
    let come = now.names.as_slice();
    if before.tags.are_alike(&now.tags) {
        let left = behind_front(gone, come);
        return without_end(left);
    }
    Replaced {
        front: 0,
        gone,
        come,
    }
}

impl News {
    /// The news of no units. It takes no memory.
    pub fn new(alloc: Global) -> News
        ensures { AreNews [] [] result }
    {
        News {
            names: no_names(alloc),
            shifts: Vec::new(alloc),
            seen_as_before: true,
        }
    }

    /// A unit more, of which all is seen as before. It fails for want of memory alone.
    pub fn same(&mut self) -> Result<(), AllocError>
        ensures { OnOk result ((ss ts : List Sight) (s : Sight) → AreNews ss ts self.old → AreNews (ss ++ s ∷ []) (ts ++ s ∷ []) self.new) }
    {
        self.shifts.push(Shift {
            front: 0,
            gone: 0,
            come: 0,
        })?;
        Ok(())
    }

    fn note_replaced(&mut self, replaced: Replaced<'_>) -> Result<(), AllocError>
        ensures { OnOk result ((ss ts : List Sight) (path : List ℕ) (before now : Showing) → AreReplaced before now replaced.entry.front (map seen replaced.entry.gone.now) (map seen replaced.entry.come.now) → AreNews ss ts self.old → AreNews (ss ++ sight (record { path = path; exports = before }) ∷ []) (ts ++ sight (record { path = path; exports = now }) ∷ []) self.new) }
    {
        note_all(&mut self.names, replaced.gone)?;
        note_all(&mut self.names, replaced.come)?;
        self.shifts.push(Shift {
            front: replaced.front,
            gone: replaced.gone.len() as u64,
            come: replaced.come.len() as u64,
        })?;
        self.seen_as_before = false;
        Ok(())
    }

    /// A unit more, by what it showed before and what it shows now. It costs its names, their types and its tags. It fails for want of
    /// memory alone.
    pub fn changed(&mut self, before: &Exports, now: &Exports) -> Result<(), AllocError>
        ensures { OnOk result ((ss ts : List Sight) (path : List ℕ) → AreNews ss ts self.old → AreNews (ss ++ sight (record { path = path; exports = before.now }) ∷ []) (ts ++ sight (record { path = path; exports = now.now }) ∷ []) self.new) }
    {
        if same_sight(before, now) {
            self.same()?;
            return Ok(());
        }
        let replaced = names_replaced(before, now);
        self.note_replaced(replaced)?;
        Ok(())
    }

    /// True only where each unit is seen as before.
    pub fn is_none(&self) -> bool
        ensures { result ≡ true → (ss ts : List Sight) → AreNews ss ts self.now → ss ≡ ts }
    {
        self.seen_as_before
    }

    pub(super) fn names(&self) -> &HashSet<Name>
        ensures { result.now ≡ self.now.names }
    {
        &self.names
    }

    pub(super) fn shifts(&self) -> &[Shift]
        ensures { result.now ≡ self.now.shifts.items }
    {
        self.shifts.as_slice()
    }
}
