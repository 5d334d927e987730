// What the own items of a unit mean, kept for when it is worked out again (ISO C11 6.9).
ghost use Rattle.std.specs.Prelude.{◌≡◌, ◌≤◌, List, [], length, true, IfOk, IfSome, OnOk};
ghost use Rattle.std.specs.Vec.Iter.{into_iter_items};
ghost use Rattle.earlier_items.specs.Before.{AreBefore, said};
ghost use Rattle.earlier_items.specs.Differences.{AreSaid, IsFurther};
ghost use Rattle.scope_tables.specs.declared.meanings.HeadMeaning.{HeadMeaning as Meaning};
ghost use Rattle.stmt_checks.specs.Firm.{AreTagged, SaysNothing};
ghost use Rattle.stmt_checks.specs.Folding.{Goes, folded_of};
ghost use Rattle.stmt_checks.specs.Folds as spec;
ghost use Rattle.stmt_checks.specs.Owning.{Adding, IsLeft, IsOwn, IsTaking, TakingOver, Unit_of};
ghost use Rattle.stmt_checks.specs.Taking.{AllRead, ItemRead};

use crate::folding::{Folding, body_tokens, fold, head_part, own};
use crate::parts::{LeftOver, Part};
use earlier_items::{Changed, Earlier, note_names, same_tags, tags_of};
use elab_state::Known;
use scope_tables::{BodyMeaning, HeadMeaning, UnitEntity};
use std::alloc::{AllocError, Global};
use std::marker::Model;
use tok_data::OutToken;
use unit_items::Item;

/// What the own items of a unit mean behind those of its headers, and what they read of these. Contracts see how many items there are.
#[derive(Drop)]
pub(crate) struct KeptUnit {
    pub parts: Vec<Part>,
    pub heads: Vec<HeadMeaning>,
    pub bodies: Vec<BodyMeaning>,
    pub read: Read,
}

impl Model for KeptUnit {
    ghost use Rattle.std.specs.Prelude.{ℕ, length};
    ghost use Rattle.stmt_checks.specs.Firm.{IsKept};

    ghost Value = { ℕ };

    ghost view = { λ k. length k.parts.items };

    ghost invariant = { λ k. IsKept k.parts.items k.heads.items k.bodies.items k.read };
}

/// What the own items of a unit read of those in front of them: what these say of their names, and the tags that these declare.
#[derive(Drop)]
pub(crate) struct Read {
    pub names: Known,
    pub tags: Vec<UnitEntity>,
    /// No item stood in front, so that nothing was said.
    pub alone: bool,
}

/// The own items of a unit, without what they mean, and what they read.
#[derive(Drop)]
pub(crate) struct Noted {
    pub parts: Vec<Part>,
    pub read: Read,
}

fn note_item(
    alloc: Global,
    earlier: &Earlier,
    was: &Known,
    tokens: &[OutToken],
    names: &mut Known,
    changed: &mut Changed,
) -> Result<(), AllocError>
    requires size { length tokens.now ≤ 2000000 }
    requires noted { AreSaid earlier.now.known names.old }
    ensures noted { OnOk result (AreSaid earlier.now.known names.new) }
    ensures further { OnOk result (IsFurther earlier.now.known names.old names.new changed.old changed.new) }
    ensures read { OnOk result ((hs : List Meaning) → AreBefore hs earlier.now → ItemRead was.now names.new hs changed.new tokens.now) }
{
    note_names(alloc, earlier, was, head_part(tokens), names, changed)?;
    note_names(alloc, earlier, was, body_tokens(tokens), names, changed)?;
    Ok(())
}

// Notes what the items in front say of the names of these, and which of them they don't leave as they were.
fn note_items(
    alloc: Global,
    earlier: &Earlier,
    was: &Known,
    tokens: &[OutToken],
    items: &[Item],
    names: &mut Known,
    changed: &mut Changed,
) -> Result<(), AllocError>
    requires size { length tokens.now ≤ 2000000 }
    requires noted { AreSaid earlier.now.known names.old }
    ensures { OnOk result ((hs : List Meaning) → AreBefore hs earlier.now → AllRead was.now names.new hs changed.new tokens.now items.now) }
{
    let mut rest = items;
    'items: while let Some((item, behind)) = rest.split_first() {
        note_item(alloc, earlier, was, own(tokens, item), names, changed)?;
        rest = behind;
    }
    Ok(())
}

// What the items in front say of the names of these, and which of them they don't leave as they were. Where none stand in front there is nothing to look up.
fn read_names(
    alloc: Global,
    earlier: &Earlier,
    was: &Known,
    alone: bool,
    tokens: &[OutToken],
    items: &[Item],
) -> Result<(Known, Changed), AllocError>
    requires size { length tokens.now ≤ 2000000 }
    requires alone { alone ≡ true → AreBefore [] earlier.now }
    requires nothing { alone ≡ true → SaysNothing was.now }
    ensures read { IfOk result (λ both. (hs : List Meaning) → AreBefore hs earlier.now → AllRead was.now both.0 hs both.1 tokens.now items.now) }
    ensures nothing { IfOk result (λ both. alone ≡ true → SaysNothing both.0) }
{
    let mut names = Known::new(alloc);
    let mut changed = Changed::none(alloc);
    if alone {
        return Ok((names, changed));
    }
    note_items(alloc, earlier, was, tokens, items, &mut names, &mut changed)?;
    Ok((names, changed))
}

/// The items of a unit so far, those behind the ones in front with their parts.
#[derive(Drop)]
pub(crate) struct Owned {
    pub folding: Folding,
    pub parts: Vec<Part>,
}

// Takes items over that are as they were, up to the first that isn't. Answers the items from there on.
fn take_all<'a>(
    alloc: Global,
    owned: &mut Owned,
    tokens: &[OutToken],
    items: &'a [Item],
    left: LeftOver,
    changed: &Changed,
) -> Result<&'a [Item], AllocError>
    requires size { length tokens.now ≤ 2000000 }
    requires taking { IsTaking tokens.now changed.now owned.old.folding owned.old.parts.items items.now (into_iter_items left.parts) (into_iter_items left.heads) (into_iter_items left.bodies) }
    ensures { IfOk result (λ rest. (u : Unit_of) → (before : List Meaning) → u.tokens ≡ tokens.now → u.changed ≡ changed.now → TakingOver u owned.old.folding owned.old.parts.items items.now before (into_iter_items left.parts) (into_iter_items left.heads) (into_iter_items left.bodies) → Adding u owned.new.folding owned.new.parts.items rest.now) }
{
    let mut over = left;
    let mut rest = items;
    'items: while let Some((item, behind)) = rest.split_first() {
        let Some(kept) = over.next() else {
            return Ok(rest);
        };
        let Owned { folding, parts } = owned;
        let taken = folding.take_kept(alloc, parts, &item.name, own(tokens, item), kept, changed)?;
        if !taken {
            return Ok(rest);
        }
        rest = behind;
    }
    Ok(rest)
}

// Works items out that ask for no more than their names and what is said of tags, up to the first that does. Answers the items from there on.
fn add_all<'a>(
    alloc: Global,
    owned: &mut Owned,
    tokens: &[OutToken],
    items: &'a [Item],
) -> Result<&'a [Item], AllocError>
    requires size { length tokens.now ≤ 2000000 }
    requires known { AreBefore owned.old.folding.heads.items owned.old.folding.earlier }
    ensures { IfOk result (λ rest. (u : Unit_of) → u.tokens ≡ tokens.now → Adding u owned.old.folding owned.old.parts.items items.now → Adding u owned.new.folding owned.new.parts.items rest.now) }
{
    let mut rest = items;
    'items: while let Some((item, behind)) = rest.split_first() {
        let Owned { folding, parts } = owned;
        let added = folding.add_firm(alloc, parts, &item.name, own(tokens, item))?;
        if !added {
            return Ok(rest);
        }
        rest = behind;
    }
    Ok(rest)
}

// No item.
fn none_left(alloc: Global) -> LeftOver
    ensures parts { into_iter_items result.parts ≡ [] }
    ensures heads { into_iter_items result.heads ≡ [] }
    ensures bodies { into_iter_items result.bodies ≡ [] }
{
    LeftOver {
        parts: Vec::new(alloc).into_iter(),
        heads: Vec::new(alloc).into_iter(),
        bodies: Vec::new(alloc).into_iter(),
    }
}

// Whether what a unit read of the items in front can be compared with what these say now: they declare the same tags, and where none stand there now, none did.
fn is_comparable(read: &Read, alone: bool, tags: &[UnitEntity]) -> bool
    ensures tags { result ≡ true → read.now.tags.items ≡ tags.now }
    ensures alone { result ≡ true → alone ≡ true → read.now.alone ≡ true }
{
    (read.alone || !alone) && same_tags(&read.tags, tags)
}

// What is there to take over behind items with these tags, and what was said of its names; nothing where the two can't be compared.
fn left_over(
    alloc: Global,
    kept: Option<KeptUnit>,
    alone: bool,
    tags: &[UnitEntity],
) -> (LeftOver, Known)
    ensures left { (first : List Meaning) → AreTagged first tags.now → IsLeft first (into_iter_items result.0.parts) (into_iter_items result.0.heads) (into_iter_items result.0.bodies) result.1 }
    ensures nothing { alone ≡ true → SaysNothing result.1 }
{
    let Some(kept) = kept else {
        return (none_left(alloc), Known::new(alloc));
    };
    let KeptUnit {
        parts,
        heads,
        bodies,
        read,
    } = kept;
    if !is_comparable(&read, alone, tags) {
        return (none_left(alloc), Known::new(alloc));
    }
    let left = LeftOver {
        parts: parts.into_iter(),
        heads: heads.into_iter(),
        bodies: bodies.into_iter(),
    };
    (left, read.names)
}

// The own items: those that are as they were are taken over, then come those that are worked out. Answers the items from the first on that asks for more than its names and
// what is said of tags.
fn own_all<'a>(
    alloc: Global,
    owned: &mut Owned,
    tokens: &[OutToken],
    items: &'a [Item],
    left: LeftOver,
    changed: &Changed,
) -> Result<&'a [Item], AllocError>
    requires size { length tokens.now ≤ 2000000 }
    requires taking { IsTaking tokens.now changed.now owned.old.folding owned.old.parts.items items.now (into_iter_items left.parts) (into_iter_items left.heads) (into_iter_items left.bodies) }
    ensures { IfOk result (λ rest. (u : Unit_of) → (before : List Meaning) → u.tokens ≡ tokens.now → u.changed ≡ changed.now → TakingOver u owned.old.folding owned.old.parts.items items.now before (into_iter_items left.parts) (into_iter_items left.heads) (into_iter_items left.bodies) → Adding u owned.new.folding owned.new.parts.items rest.now) }
{
    let rest = take_all(alloc, owned, tokens, items, left, changed)?;
    let rest = add_all(alloc, owned, tokens, rest)?;
    Ok(rest)
}

// The own items behind those in front, where these declare the tags.
fn behind_tags(
    alloc: Global,
    folding: Folding,
    tokens: &[OutToken],
    items: &[Item],
    kept: Option<KeptUnit>,
    tags: Vec<UnitEntity>,
) -> Result<(Folding, Option<Noted>), AllocError>
    requires known { AreBefore folding.heads.items folding.earlier }
    requires size { length tokens.now ≤ 2000000 }
    requires tags { AreTagged folding.heads.items tags.items }
    ensures goes { IfOk result (λ made. Goes tokens.now (folded_of folding) items.now made.0 []) }
    ensures own { IfOk result (λ made. IfSome made.1 (λ noted. IsOwn folding made.0 noted.parts.items noted.read)) }
{
    let alone = folding.heads.is_empty();
    let (left, was) = left_over(alloc, kept, alone, &tags);
    let (names, changed) = read_names(alloc, &folding.earlier, &was, alone, tokens, items)?;
    let mut owned = Owned {
        folding,
        parts: Vec::new(alloc),
    };
    let rest = own_all(alloc, &mut owned, tokens, items, left, &changed)?;
    let Owned { folding, parts } = owned;
    if !rest.is_empty() {
        let folding = fold(alloc, tokens, rest, folding)?;
        return Ok((folding, None));
    }
    let mut parts = parts;
    parts.shrink_to_fit();
    let read = Read { names, tags, alone };
    Ok((folding, Some(Noted { parts, read })))
}

/// The own items of a unit, behind those in front. Those that are as they were when the unit was worked out before mean what they meant. They are noted, unless one asks for
/// more than its names and what is said of tags.
pub(crate) fn own_items(
    alloc: Global,
    folding: Folding,
    tokens: &[OutToken],
    items: &[Item],
    kept: Option<KeptUnit>,
) -> Result<(Folding, Option<Noted>), AllocError>
    requires known { AreBefore folding.heads.items folding.earlier }
    requires size { length tokens.now ≤ 2000000 }
    ensures goes { IfOk result (λ made. Goes tokens.now (folded_of folding) items.now made.0 []) }
    ensures own { IfOk result (λ made. IfSome made.1 (λ noted. IsOwn folding made.0 noted.parts.items noted.read)) }
{
    let Some(tags) = tags_of(alloc, &folding.heads)? else {
        let folding = fold(alloc, tokens, items, folding)?;
        return Ok((folding, None));
    };
    behind_tags(alloc, folding, tokens, items, kept, tags)
}
