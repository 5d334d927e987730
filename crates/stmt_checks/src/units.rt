// The items of a unit, behind what is kept of items (ISO C11 5.1.1.1, 6.9).
ghost use Rattle.std.specs.Prelude.{◌≡◌, ◌≤◌, [], ◌++◌, true, false, drop, take, length, IfOk, IfSome, IsTrue, OnOk};
ghost use Rattle.std.specs.Vec.Iter.{into_iter_items};
ghost use Rattle.earlier_items.specs.Before.{AreBefore};
ghost use Rattle.item_readings.specs.Readings.{IsReader, Reader};
ghost use Rattle.stmt_checks.specs.Folding.{Goes, TakesItem};
ghost use Rattle.stmt_checks.specs.Folds as spec;
ghost use Rattle.stmt_checks.specs.Last.{AreAlike, IsLast};
ghost use Rattle.stmt_checks.specs.Owning.{AreOwn};
ghost use Rattle.stmt_checks.specs.Units.{all_of};

use crate::folding::{Folding, Left, fold, head_part, own};
use crate::kept::{KeptUnit, Noted, own_items};
use scope_tables::{BodyMeaning, HeadMeaning, UnitMeaning};
use std::alloc::{AllocError, Global};
use std::collections::BTreeMap;
use std::marker::Model;
use tok_data::{FileId, OutToken, TokId};
use unit_items::{Item, items_of};
use unit_meaning::meaning_of;

// The items at the front of the unit that was worked out last, those of its headers, and what they mean. Contracts see how many there are.
#[derive(Drop)]
struct Front {
    tokens: Vec<OutToken>,
    items: Vec<Item>,
    heads: Vec<HeadMeaning>,
    bodies: Vec<BodyMeaning>,
}

impl Model for Front {
    ghost use Rattle.std.specs.Prelude.{ℕ, length};
    ghost use Rattle.stmt_checks.specs.Last.{IsLast};

    ghost Value = { ℕ };

    ghost view = { λ l. length l.items.items };

    ghost invariant = { λ l. IsLast l.tokens.items l.items.items l.heads.items l.bodies.items };
}

impl Front {
    fn none(alloc: Global) -> Front
        ensures { result ≡ 0 }
    {
        Front {
            tokens: Vec::new(alloc),
            items: Vec::new(alloc),
            heads: Vec::new(alloc),
            bodies: Vec::new(alloc),
        }
    }
}

/// What is kept of the items of units that were worked out. A unit takes over what the items at its front mean, those of its headers, where the unit that was worked out last
/// has them with the same names and heads, since items are judged by the heads before them. Of its own items it takes over what they meant when it was worked out before, where their
/// tokens, and what the items in front say of their names and of tags, are as they were. Contracts see how many items stood at the front of the last unit.
#[derive(Drop)]
pub struct KeptItems {
    front: Front,
    units: BTreeMap<FileId, KeptUnit>,
}

impl Model for KeptItems {
    ghost use Rattle.std.specs.Prelude.{ℕ};

    ghost Value = { ℕ };

    ghost view = { λ l. l.front };
}

impl KeptItems {
    /// No unit was worked out. It takes no memory.
    pub fn none(alloc: Global) -> KeptItems
        ensures { result ≡ 0 }
    {
        KeptItems {
            front: Front::none(alloc),
            units: BTreeMap::new(alloc),
        }
    }

    /// Nothing is kept of the own items of the unit with this text any more.
    pub fn forget(&mut self, text: &FileId)
        ensures { self.new ≡ self.old }
    {
        self.units.remove(text);
    }
}

// Whether tokens have the same kinds and spellings, wherever they stand.
fn are_alike(tokens: &[OutToken], others: &[OutToken]) -> bool
    ensures { IsTrue result → AreAlike tokens.now others.now }
{
    let mut rest = tokens;
    let mut left = others;
    'tokens: while let Some((token, behind)) = rest.split_first() {
        let Some((other, more)) = left.split_first() else {
            return false;
        };
        if token.kind != other.kind || token.spelling != other.spelling {
            return false;
        }
        rest = behind;
        left = more;
    }
    left.is_empty()
}

// Adds an item as the unit before has another one with the same name, if their heads are alike: with its body too where they are alike as a whole. Whether it was added.
fn take_item(
    alloc: Global,
    folding: &mut Folding,
    item: &Item,
    tokens: &[OutToken],
    other: &Item,
    others: &[OutToken],
    left: &mut Left,
) -> Result<bool, AllocError>
    requires known { AreBefore folding.old.heads.items folding.old.earlier }
    requires size { length tokens.now ≤ 2000000 }
    requires others { length others.now ≤ 2000000 }
    ensures known { IfOk result (λ taken. AreBefore folding.new.heads.items folding.new.earlier) }
    ensures taken { IfOk result (λ taken. taken ≡ true → TakesItem item.now tokens.now other.now others.now folding.old folding.new (into_iter_items left.old.heads) (into_iter_items left.new.heads) (into_iter_items left.old.bodies) (into_iter_items left.new.bodies)) }
    ensures missing { IfOk result (λ taken. taken ≡ false → folding.new ≡ folding.old) }
{
    if item.name != other.name {
        return Ok(false);
    }
    if are_alike(tokens, others) {
        return folding.take(alloc, others, left);
    }
    if are_alike(head_part(tokens), head_part(others)) {
        return folding.take_head(alloc, others, tokens, left);
    }
    Ok(false)
}

// What the items at the front of a unit mean, as far as the last one has them too, and the items behind them.
fn taken_over<'a>(
    alloc: Global,
    last: Front,
    tokens: &[OutToken],
    items: &'a [Item],
) -> Result<(Folding, &'a [Item]), AllocError>
    requires size { length tokens.now ≤ 2000000 }
    ensures { IfOk result (λ t. Goes tokens.now spec.nothing items.now t.0 t.1.now) }
{
    let Front {
        tokens: tokens_before,
        items: items_before,
        heads,
        bodies,
    } = last;
    let before = tokens_before.as_slice();
    let mut left = Left {
        heads: heads.into_iter(),
        bodies: bodies.into_iter(),
    };
    let mut folding = Folding::new(alloc);
    let mut rest = items;
    let mut others = items_before.as_slice();
    'items: while let Some((item, behind)) = rest.split_first() {
        let Some((other, more)) = others.split_first() else {
            return Ok((folding, rest));
        };
        let taken = take_item(
            alloc,
            &mut folding,
            item,
            own(tokens, item),
            other,
            own(before, other),
            &mut left,
        )?;
        if !taken {
            return Ok((folding, rest));
        }
        rest = behind;
        others = more;
    }
    Ok((folding, rest))
}

// What the items in front mean: those of a unit's headers.
fn front_items(
    alloc: Global,
    last: Front,
    tokens: &[OutToken],
    items: &[Item],
) -> Result<Folding, AllocError>
    requires size { length tokens.now ≤ 2000000 }
    ensures { IfOk result (λ f. Goes tokens.now spec.nothing items.now f []) }
{
    let (taken, rest) = taken_over(alloc, last, tokens, items)?;
    let folding = fold(alloc, tokens, rest, taken)?;
    Ok(folding)
}

// What all items of a unit mean, those in front first.
#[derive(Drop)]
struct AllItems {
    heads: Vec<HeadMeaning>,
    bodies: Vec<BodyMeaning>,
    // So many of them are those of the items in front.
    heads_at: usize,
    bodies_at: usize,
    // Its own items, where they can be taken over.
    own: Option<Noted>,
}

fn all_items(
    alloc: Global,
    front: Front,
    kept: Option<KeptUnit>,
    tokens: &[OutToken],
    first: &[Item],
    own: &[Item],
) -> Result<AllItems, AllocError>
    requires size { length tokens.now ≤ 2000000 }
    ensures meant { IfOk result (λ all. (r : Reader) → IsReader r → all_of all ≡ spec.all_items r tokens.now spec.nothing (first.now ++ own.now)) }
    ensures front { IfOk result (λ all. IsLast tokens.now first.now (take all.heads_at all.heads.items) (take all.bodies_at all.bodies.items)) }
    ensures own { IfOk result (λ all. IfSome all.own (λ noted. AreOwn noted all.heads.items all.heads_at all.bodies.items all.bodies_at)) }
{
    let folding = front_items(alloc, front, tokens, first)?;
    let heads_at = folding.heads.len();
    let bodies_at = folding.bodies.len();
    let (folding, own) = own_items(alloc, folding, tokens, own, kept)?;
    let Folding {
        earlier,
        heads,
        bodies,
    } = folding;
    drop(earlier);
    Ok(AllItems {
        heads,
        bodies,
        heads_at,
        bodies_at,
        own,
    })
}

// Parts the own heads and bodies of a unit from so many of those in front.
fn part_own(
    heads: &mut Vec<HeadMeaning>,
    heads_at: usize,
    bodies: &mut Vec<BodyMeaning>,
    bodies_at: usize,
) -> Result<(Vec<HeadMeaning>, Vec<BodyMeaning>), AllocError>
    requires heads { heads_at ≤ length heads.old.items }
    requires bodies { bodies_at ≤ length bodies.old.items }
    ensures heads { OnOk result (heads.new.items ≡ take heads_at heads.old.items) }
    ensures bodies { OnOk result (bodies.new.items ≡ take bodies_at bodies.old.items) }
    ensures own_heads { IfOk result (λ own. own.0.items ≡ drop heads_at heads.old.items) }
    ensures own_bodies { IfOk result (λ own. own.1.items ≡ drop bodies_at bodies.old.items) }
{
    let own_heads = heads.split_off(heads_at)?;
    match bodies.split_off(bodies_at) {
        Ok(own_bodies) => Ok((own_heads, own_bodies)),
        Err(error) => {
            drop(own_heads);
            Err(error)
        }
    }
}

fn put(
    units: &mut BTreeMap<FileId, KeptUnit>,
    text: &FileId,
    kept: KeptUnit,
) -> Result<(), AllocError> {
    let Ok(text) = text.copy() else {
        drop(kept);
        return Err(AllocError);
    };
    units.insert(text, kept)?;
    Ok(())
}

// Keeps the own items of a unit, which stand behind so many heads and bodies of those in front, and leaves these.
fn keep(
    units: &mut BTreeMap<FileId, KeptUnit>,
    text: &FileId,
    noted: Noted,
    heads: &mut Vec<HeadMeaning>,
    heads_at: usize,
    bodies: &mut Vec<BodyMeaning>,
    bodies_at: usize,
) -> Result<(), AllocError>
    requires { AreOwn noted heads.old.items heads_at bodies.old.items bodies_at }
    ensures heads { OnOk result (heads.new.items ≡ take heads_at heads.old.items) }
    ensures bodies { OnOk result (bodies.new.items ≡ take bodies_at bodies.old.items) }
{
    let Ok((own_heads, own_bodies)) = part_own(heads, heads_at, bodies, bodies_at) else {
        drop(noted);
        return Err(AllocError);
    };
    let kept = KeptUnit {
        parts: noted.parts,
        heads: own_heads,
        bodies: own_bodies,
        read: noted.read,
    };
    match put(units, text, kept) {
        Ok(()) => Ok(()),
        Err(error) => Err(error),
    }
}

// What the items in front mean; the unit's own ones are kept where they can be taken over.
fn parted(
    units: &mut BTreeMap<FileId, KeptUnit>,
    text: &FileId,
    all: AllItems,
) -> Result<(Vec<HeadMeaning>, Vec<BodyMeaning>), AllocError>
    requires { IfSome all.own (λ noted. AreOwn noted all.heads.items all.heads_at all.bodies.items all.bodies_at) }
    ensures heads { IfOk result (λ left. left.0.items ≡ take all.heads_at all.heads.items) }
    ensures bodies { IfOk result (λ left. left.1.items ≡ take all.bodies_at all.bodies.items) }
{
    let AllItems {
        heads,
        bodies,
        heads_at,
        bodies_at,
        own,
    } = all;
    let mut heads = heads;
    let mut bodies = bodies;
    match own {
        Some(noted) => keep(
            units,
            text,
            noted,
            &mut heads,
            heads_at,
            &mut bodies,
            bodies_at,
        )?,
        None => {
            heads.truncate(heads_at);
            bodies.truncate(bodies_at);
        }
    }
    Ok((heads, bodies))
}

fn is_of(tokens: &[OutToken], item: &Item, text: &FileId) -> bool {
    match tokens.get(item.start as usize) {
        Some(token) => token.site.file == *text,
        None => true,
    }
}

// How many items stand in front of the first one of this text.
fn in_front(tokens: &[OutToken], items: &[Item], text: &FileId) -> usize
    ensures { result ≤ length items.now }
{
    let mut rest = items;
    'items: while let Some((item, behind)) = rest.split_first() {
        if is_of(tokens, item, text) {
            return items.len().saturating_sub(rest.len());
        }
        rest = behind;
    }
    items.len()
}

/// What a unit means by its output tokens and the texts that it entered (ISO C11 5.1.1.1, 6.9), without what its directives show: its items in their order, each
/// judged by what the heads in front of it declare, and then the unit's end. A body is looked at where its head was read. A unit has at most 2,000,000
/// tokens; `text` is its own, and decides alone which items are taken over from where. The cost is that of the items that aren't taken over, and linear in the tokens and in
/// what the items mean: the cut, a comparison of the items that are taken over, and the unit's own lists. It fails for want of memory alone.
pub fn fold_items(
    alloc: Global,
    kept: KeptItems,
    text: &FileId,
    tokens: Vec<OutToken>,
    entered: &[(FileId, TokId)],
) -> Result<(UnitMeaning, KeptItems), AllocError>
    requires size { length tokens.items ≤ 2000000 }
    ensures { IfOk result (λ made. (r : Reader) → IsReader r → made.0 ≡ spec.unit_meaning r tokens.items entered.now) }
{
    let mut items = items_of(alloc, &tokens)?;
    let KeptItems { front, units } = kept;
    let mut units = units;
    let before = units.remove(text);
    let at = in_front(&tokens, &items, text);
    let (first, own) = items.as_slice().split_at(at);
    let all = all_items(alloc, front, before, &tokens, first, own)?;
    let meaning = meaning_of(alloc, &tokens, &items, entered, &all.heads, &all.bodies)?;
    let (heads, bodies) = parted(&mut units, text, all)?;
    items.truncate(at);
    let front = Front {
        tokens,
        items,
        heads,
        bodies,
    };
    Ok((meaning, KeptItems { front, units }))
}
