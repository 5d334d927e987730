// The items of a unit, one after another (ISO C11 5.1.1.1, 6.9).
ghost use Rattle.std.specs.Prelude.{◌≡◌, ◌<◌, ◌≤◌, List, [], ◌∷◌, ◌++◌, drop, take, length, true, false, is_some, option_map, IfOk, IfSome, IsTrue, OnOk};
ghost use Rattle.std.specs.Vec.Iter.{into_iter_items};
ghost use Rattle.std.specs.List.{list_any};
ghost use Rattle.earlier_items.specs.Before.{AreBefore};
ghost use Rattle.item_cut.specs.Items.{body_at};
ghost use Rattle.item_readings.specs.Readings.{IsReader, Reader};
ghost use Rattle.scope_tables.specs.declared.meanings.HeadMeaning.{HeadMeaning as Meaning};
ghost use Rattle.stmt_checks.specs.Firm.{Adds, AddsOne, IsBody, IsBodyPart, IsHead, IsMeant, IsPart};
ghost use Rattle.stmt_checks.specs.Taking.{BodyHolds, BodyStays, HeadHolds, HeadStays};
ghost use Rattle.elab_state.specs.Tokens.{bare_tokens};
ghost use Rattle.stmt_checks.specs.Folding.{Goes, Takes, folded_of};
ghost use Rattle.stmt_checks.specs.Folds as spec;
ghost use Rattle.stmt_checks.specs.Last.{if_any};

use crate::checking::{check_body, firm_body};
use crate::heading::{elab_head, firm_head};
use crate::meaning::share_item;
use crate::parts::{BodyPart, KeptItem, Part, are_alike, words_of};
use earlier_items::{Changed, Earlier};
use elab_state::Elab;
use item_cut::body_start;
use item_readings::readings_exist;
use scope_tables::{BodyMeaning, HeadMeaning};
use std::alloc::{AllocError, Global};
use std::vec::IntoIter;
use tok_data::OutToken;
use type_data::{Fault, ItemName};
use unit_items::Item;

/// What the items so far mean.
#[derive(Drop)]
pub(crate) struct Folding {
    pub earlier: Earlier,
    pub heads: Vec<HeadMeaning>,
    pub bodies: Vec<BodyMeaning>,
}

fn behind(tokens: &[OutToken], at: usize) -> &[OutToken]
    ensures tokens { result.now ≡ drop at tokens.now }
    ensures short { length result.now ≤ length tokens.now }
{
    if at <= tokens.len() {
        return tokens.split_at(at).1;
    }
    &[]
}

fn front(tokens: &[OutToken], len: usize) -> &[OutToken]
    ensures tokens { result.now ≡ take len tokens.now }
    ensures short { length result.now ≤ length tokens.now }
{
    if len <= tokens.len() {
        return tokens.split_at(len).0;
    }
    tokens
}

/// The tokens of an item.
pub(crate) fn own<'a>(tokens: &'a [OutToken], item: &Item) -> &'a [OutToken]
    ensures tokens { result.now ≡ spec.own tokens.now item.now }
    ensures short { length result.now ≤ length tokens.now }
{
    let len = item.end.saturating_sub(item.start);
    front(behind(tokens, item.start as usize), len as usize)
}

fn head(
    alloc: Global,
    name: &ItemName,
    tokens: &[OutToken],
    earlier: &Earlier,
) -> Result<HeadMeaning, AllocError>
    ensures { IfOk result (λ h. (r : Reader) → IsReader r → (hs : List Meaning) → AreBefore hs earlier.now → h ≡ spec.head_of r name.now tokens.now hs) }
{
    readings_exist();
    let elab = elab_head(alloc, name, tokens, earlier.known())?;
    match elab {
        Elab::Done(meaning) => Ok(meaning),
        Elab::Need(_) => unreachable!(),
    }
}

fn body(
    alloc: Global,
    tokens: &[OutToken],
    base: u32,
    head: &HeadMeaning,
    earlier: &Earlier,
) -> Result<BodyMeaning, AllocError>
    ensures { IfOk result (λ b. (r : Reader) → IsReader r → (hs : List Meaning) → AreBefore hs earlier.now → b ≡ spec.body_of r head.now.item tokens.now base head.now hs) }
{
    readings_exist();
    let elab = check_body(alloc, tokens, base, head, earlier.known())?;
    match elab {
        Elab::Done(meaning) => Ok(meaning),
        Elab::Need(_) => unreachable!(),
    }
}

fn is_syntax(fault: &Fault) -> bool
    ensures { result ≡ spec.is_syntax fault.now }
{
    fault.rule == 301 || (fault.rule == 302 || fault.rule == 303)
}

fn are_syntax(faults: &[Fault]) -> bool
    ensures { result ≡ list_any spec.is_syntax faults.now }
{
    faults.iter().any(|fault| is_syntax(fault))
}

#[tactic(auto, unfolding(crate::specs::Folds::is_read))]
fn is_read(head: &HeadMeaning) -> bool
    ensures { result ≡ spec.is_read head.now }
{
    !are_syntax(head.faults.as_slice())
}

fn is_checked(tokens: &[OutToken], at: usize, head: &HeadMeaning) -> bool
    requires at { at ≡ body_at tokens.now }
    ensures checked { result ≡ spec.is_checked tokens.now head.now }
    ensures inside { IsTrue result → at < length tokens.now }
{
    at < tokens.len() && is_read(head)
}

/// The tokens of an item's head, up to and with the `{` of a body.
pub(crate) fn head_part(tokens: &[OutToken]) -> &[OutToken]
    requires size { length tokens.now ≤ 2000000 }
    ensures tokens { result.now ≡ spec.head_tokens tokens.now }
{
    front(tokens, body_start(tokens) + 1)
}

/// The tokens of an item's body.
pub(crate) fn body_tokens(tokens: &[OutToken]) -> &[OutToken]
    requires size { length tokens.now ≤ 2000000 }
    ensures tokens { result.now ≡ spec.body_tokens tokens.now }
{
    behind(tokens, body_start(tokens))
}

// The body of an item, behind this head and at this token of the item.
fn body_at(
    alloc: Global,
    tokens: &[OutToken],
    at: usize,
    head: &HeadMeaning,
    earlier: &Earlier,
) -> Result<BodyMeaning, AllocError>
    requires at { at ≡ body_at tokens.now }
    requires inside { at < length tokens.now }
    requires size { length tokens.now ≤ 2000000 }
    ensures { IfOk result (λ b. (r : Reader) → IsReader r → (hs : List Meaning) → AreBefore hs earlier.now → b ≡ spec.body r tokens.now head.now hs) }
{
    match body(alloc, behind(tokens, at), at as u32, head, earlier) {
        Ok(meaning) => Ok(meaning),
        Err(error) => Err(error),
    }
}

fn add_body(
    alloc: Global,
    bodies: &mut Vec<BodyMeaning>,
    tokens: &[OutToken],
    at: usize,
    head: &HeadMeaning,
    earlier: &Earlier,
) -> Result<(), AllocError>
    requires at { at ≡ body_at tokens.now }
    requires size { length tokens.now ≤ 2000000 }
    ensures { OnOk result ((r : Reader) → IsReader r → (hs : List Meaning) → AreBefore hs earlier.now → bodies.new.items ≡ spec.with_bodies r tokens.now head.now hs bodies.old.items) }
{
    if !is_checked(tokens, at, head) {
        return Ok(());
    }
    let meaning = body_at(alloc, tokens, at, head, earlier)?;
    bodies.push(meaning)?;
    Ok(())
}

/// What the items of another unit mean that weren't taken over.
#[derive(Drop)]
pub(crate) struct Left {
    pub heads: IntoIter<HeadMeaning>,
    pub bodies: IntoIter<BodyMeaning>,
}

impl Left {
    // The next of the heads, and the next of the bodies where the item with these tokens has one.
    fn next(&mut self, tokens: &[OutToken]) -> Option<(HeadMeaning, Option<BodyMeaning>)>
        requires size { length tokens.now ≤ 2000000 }
        ensures heads { IfSome result (λ n. into_iter_items self.old.heads ≡ n.0 ∷ into_iter_items self.new.heads) }
        ensures bodies { IfSome result (λ n. into_iter_items self.old.bodies ≡ if_any n.1 ++ into_iter_items self.new.bodies) }
        ensures body { IfSome result (λ n. is_some n.1 ≡ spec.is_checked tokens.now n.0) }
    {
        let head = self.heads.next()?;
        if !is_checked(tokens, body_start(tokens), &head) {
            return Some((head, None));
        }
        let Some(body) = self.bodies.next() else {
            drop(head);
            return None;
        };
        Some((head, Some(body)))
    }
}

impl Folding {
    /// No item. It takes no memory.
    pub fn new(alloc: Global) -> Folding
        ensures known { AreBefore [] result.earlier }
        ensures items { folded_of result ≡ spec.nothing }
    {
        Folding {
            earlier: Earlier::new(alloc),
            heads: Vec::new(alloc),
            bodies: Vec::new(alloc),
        }
    }

    // An item's head is known from now on.
    fn add_head(&mut self, alloc: Global, head: HeadMeaning) -> Result<(), AllocError>
        ensures known { OnOk result ((hs : List Meaning) → AreBefore hs self.old.earlier → AreBefore (hs ++ head ∷ []) self.new.earlier) }
        ensures heads { OnOk result (self.new.heads.items ≡ self.old.heads.items ++ head ∷ []) }
        ensures bodies { OnOk result (self.new.bodies.items ≡ self.old.bodies.items) }
    {
        let Ok(()) = self.earlier.add(alloc, &head) else {
            drop(head);
            return Err(AllocError);
        };
        self.heads.push(head)?;
        Ok(())
    }

    /// The next item, which has the same tokens as one of another unit: with the next of that unit's heads, and of its bodies where the item has one. Whether they are
    /// there; else nothing changes here.
    pub fn take(
        &mut self,
        alloc: Global,
        tokens: &[OutToken],
        left: &mut Left,
    ) -> Result<bool, AllocError>
        requires known { AreBefore self.old.heads.items self.old.earlier }
        requires size { length tokens.now ≤ 2000000 }
        ensures known { IfOk result (λ taken. AreBefore self.new.heads.items self.new.earlier) }
        ensures taken { IfOk result (λ taken. taken ≡ true → Takes tokens.now tokens.now self.old self.new (into_iter_items left.old.heads) (into_iter_items left.new.heads) (into_iter_items left.old.bodies) (into_iter_items left.new.bodies)) }
        ensures missing { IfOk result (λ taken. taken ≡ false → self.new ≡ self.old) }
    {
        let Some((head, body)) = left.next(tokens) else {
            return Ok(false);
        };
        if let Some(body) = body {
            let Ok(()) = self.bodies.push(body) else {
                drop(head);
                return Err(AllocError);
            };
        }
        match self.add_head(alloc, head) {
            Ok(()) => Ok(true),
            Err(error) => Err(error),
        }
    }

    /// The next item, which has the head of one with other tokens of another unit, and a body of its own. Whether that unit's next head, and its next body where the other
    /// item has one, are there; else nothing changes here.
    pub fn take_head(
        &mut self,
        alloc: Global,
        others: &[OutToken],
        tokens: &[OutToken],
        left: &mut Left,
    ) -> Result<bool, AllocError>
        requires known { AreBefore self.old.heads.items self.old.earlier }
        requires others { length others.now ≤ 2000000 }
        requires size { length tokens.now ≤ 2000000 }
        ensures known { IfOk result (λ taken. AreBefore self.new.heads.items self.new.earlier) }
        ensures taken { IfOk result (λ taken. taken ≡ true → Takes others.now tokens.now self.old self.new (into_iter_items left.old.heads) (into_iter_items left.new.heads) (into_iter_items left.old.bodies) (into_iter_items left.new.bodies)) }
        ensures missing { IfOk result (λ taken. taken ≡ false → self.new ≡ self.old) }
    {
        let Some((head, body)) = left.next(others) else {
            return Ok(false);
        };
        drop(body);
        let at = body_start(tokens);
        let Ok(()) = add_body(alloc, &mut self.bodies, tokens, at, &head, &self.earlier) else {
            drop(head);
            return Err(AllocError);
        };
        match self.add_head(alloc, head) {
            Ok(()) => Ok(true),
            Err(error) => Err(error),
        }
    }

    // The next item.
    fn add(&mut self, alloc: Global, name: &ItemName, tokens: &[OutToken]) -> Result<(), AllocError>
        requires known { AreBefore self.old.heads.items self.old.earlier }
        requires size { length tokens.now ≤ 2000000 }
        ensures known { OnOk result (AreBefore self.new.heads.items self.new.earlier) }
        ensures items { OnOk result ((r : Reader) → IsReader r → folded_of self.new ≡ spec.with_head r tokens.now (spec.head r name.now tokens.now self.old.heads.items) (folded_of self.old)) }
    {
        let at = body_start(tokens);
        let head = head(alloc, name, front(tokens, at + 1), &self.earlier)?;
        add_body(alloc, &mut self.bodies, tokens, at, &head, &self.earlier)?;
        match self.add_head(alloc, head) {
            Ok(()) => Ok(()),
            Err(error) => Err(error),
        }
    }
}

fn body_part(
    alloc: Global,
    tokens: &[OutToken],
    head: &HeadMeaning,
) -> Result<Option<BodyPart>, AllocError>
    requires { length tokens.now ≤ 2000000 }
    ensures part { IfOk result (λ p. IsBodyPart tokens.now p) }
    ensures checked { IfOk result (λ p. is_some p ≡ spec.is_checked tokens.now head.now) }
{
    let at = body_start(tokens);
    if !is_checked(tokens, at, head) {
        return Ok(None);
    }
    let words = words_of(alloc, behind(tokens, at))?;
    Ok(Some(BodyPart {
        words,
        base: at as u32,
    }))
}

// The part of an item with this head.
fn part_of(
    alloc: Global,
    name: &ItemName,
    tokens: &[OutToken],
    head: &HeadMeaning,
) -> Result<Part, AllocError>
    requires { length tokens.now ≤ 2000000 }
    ensures { IfOk result (λ p. IsPart name.now tokens.now head.now p) }
{
    let name = share_item(name)?;
    let words = words_of(alloc, head_part(tokens))?;
    let body = body_part(alloc, tokens, head)?;
    Ok(Part { name, words, body })
}

// What the head of the next item means, if it asks for no more than its names and what is said of tags.
fn by_names(
    alloc: Global,
    name: &ItemName,
    tokens: &[OutToken],
    earlier: &Earlier,
) -> Result<Option<HeadMeaning>, AllocError>
    ensures { IfOk result (λ found. IfSome found (λ h. (hs : List Meaning) → AreBefore hs earlier.now → IsHead hs name.now h (bare_tokens tokens.now))) }
{
    match firm_head(alloc, name, tokens, earlier.known(), earlier.tags())? {
        Elab::Done(head) => Ok(Some(head)),
        Elab::Need(_) => Ok(None),
    }
}

/// These items of a unit, behind those that were added.
pub(crate) fn fold(
    alloc: Global,
    tokens: &[OutToken],
    items: &[Item],
    added: Folding,
) -> Result<Folding, AllocError>
    requires known { AreBefore added.heads.items added.earlier }
    requires size { length tokens.now ≤ 2000000 }
    ensures { IfOk result (λ f. Goes tokens.now (folded_of added) items.now f []) }
{
    let mut folding = added;
    'items: for item in items {
        let Ok(()) = folding.add(alloc, &item.name, own(tokens, item)) else {
            drop(folding);
            return Err(AllocError);
        };
    }
    Ok(folding)
}

// What the body with these tokens means, if it asks for no more than its names and what is said of tags.
fn body_by_names(
    alloc: Global,
    tokens: &[OutToken],
    base: u32,
    head: &HeadMeaning,
    earlier: &Earlier,
) -> Result<Option<BodyMeaning>, AllocError>
    ensures { IfOk result (λ found. IfSome found (λ b. (hs : List Meaning) → AreBefore hs earlier.now → IsBody hs head.now b (bare_tokens tokens.now) base)) }
{
    match firm_body(alloc, tokens, base, head, earlier.known(), earlier.tags())? {
        Elab::Done(body) => Ok(Some(body)),
        Elab::Need(_) => Ok(None),
    }
}

// The same of the body of an item, at this token of it.
fn firm_body_at(
    alloc: Global,
    tokens: &[OutToken],
    at: usize,
    head: &HeadMeaning,
    earlier: &Earlier,
) -> Result<Option<BodyMeaning>, AllocError>
    requires at { at ≡ body_at tokens.now }
    requires inside { at < length tokens.now }
    requires size { length tokens.now ≤ 2000000 }
    ensures { IfOk result (λ found. IfSome found (λ b. (hs : List Meaning) → AreBefore hs earlier.now → IsBody hs head.now b (bare_tokens (spec.body_tokens tokens.now)) (body_at tokens.now))) }
{
    match body_by_names(alloc, behind(tokens, at), at as u32, head, earlier) {
        Ok(found) => Ok(found),
        Err(error) => Err(error),
    }
}

fn push_body(bodies: &mut Vec<BodyMeaning>, body: Option<BodyMeaning>) -> Result<(), AllocError>
    ensures { OnOk result (bodies.new.items ≡ bodies.old.items ++ if_any body) }
{
    match body {
        Some(body) => {
            bodies.push(body)?;
            Ok(())
        }
        None => Ok(()),
    }
}

impl Folding {
    // The next item, with what it means.
    fn put(
        &mut self,
        alloc: Global,
        parts: &mut Vec<Part>,
        name: &ItemName,
        tokens: &[OutToken],
        head: HeadMeaning,
        body: Option<BodyMeaning>,
    ) -> Result<(), AllocError>
        requires known { AreBefore self.old.heads.items self.old.earlier }
        requires size { length tokens.now ≤ 2000000 }
        requires meant { IsMeant name.now tokens.now self.old.heads.items head body }
        ensures known { OnOk result (AreBefore self.new.heads.items self.new.earlier) }
        ensures added { OnOk result (Adds name.now tokens.now head self.old self.new parts.old.items parts.new.items) }
    {
        let Ok(part) = part_of(alloc, name, tokens, &head) else {
            drop(head);
            drop(body);
            return Err(AllocError);
        };
        parts.push(part)?;
        let Ok(()) = push_body(&mut self.bodies, body) else {
            drop(head);
            return Err(AllocError);
        };
        self.add_head(alloc, head)
    }

    // The next item, with this head, if its body asks for no more than its names and what is said of tags; else nothing changes.
    fn put_head(
        &mut self,
        alloc: Global,
        parts: &mut Vec<Part>,
        name: &ItemName,
        tokens: &[OutToken],
        head: HeadMeaning,
    ) -> Result<bool, AllocError>
        requires known { AreBefore self.old.heads.items self.old.earlier }
        requires size { length tokens.now ≤ 2000000 }
        requires head { IsHead self.old.heads.items name.now head (bare_tokens (spec.head_tokens tokens.now)) }
        ensures known { IfOk result (λ added. AreBefore self.new.heads.items self.new.earlier) }
        ensures added { IfOk result (λ added. added ≡ true → Adds name.now tokens.now head self.old self.new parts.old.items parts.new.items) }
        ensures missing { IfOk result (λ added. added ≡ false → self.new ≡ self.old) }
        ensures parts { IfOk result (λ added. added ≡ false → parts.new.items ≡ parts.old.items) }
    {
        let at = body_start(tokens);
        if !is_checked(tokens, at, &head) {
            self.put(alloc, parts, name, tokens, head, None)?;
            return Ok(true);
        }
        let Some(body) = firm_body_at(alloc, tokens, at, &head, &self.earlier)? else {
            drop(head);
            return Ok(false);
        };
        self.put(alloc, parts, name, tokens, head, Some(body))?;
        Ok(true)
    }

    /// The next item, if what it means asks for no more than its names and what is said of tags; else nothing changes.
    pub(crate) fn add_firm(
        &mut self,
        alloc: Global,
        parts: &mut Vec<Part>,
        name: &ItemName,
        tokens: &[OutToken],
    ) -> Result<bool, AllocError>
        requires known { AreBefore self.old.heads.items self.old.earlier }
        requires size { length tokens.now ≤ 2000000 }
        ensures known { IfOk result (λ added. AreBefore self.new.heads.items self.new.earlier) }
        ensures added { IfOk result (λ added. added ≡ true → AddsOne name.now tokens.now self.old self.new parts.old.items parts.new.items) }
        ensures missing { IfOk result (λ added. added ≡ false → self.new ≡ self.old) }
        ensures parts { IfOk result (λ added. added ≡ false → parts.new.items ≡ parts.old.items) }
    {
        let Some(head) = by_names(alloc, name, head_part(tokens), &self.earlier)? else {
            return Ok(false);
        };
        self.put_head(alloc, parts, name, tokens, head)
    }

    /// The next item as it was worked out before, if its names are as they were: with this head if its tokens are the same, and with this body if those of its body are
    /// too, else with a body that is worked out. Whether it was added; else nothing changes.
    pub(crate) fn take_kept(
        &mut self,
        alloc: Global,
        parts: &mut Vec<Part>,
        name: &ItemName,
        tokens: &[OutToken],
        kept: KeptItem,
        changed: &Changed,
    ) -> Result<bool, AllocError>
        requires known { AreBefore self.old.heads.items self.old.earlier }
        requires size { length tokens.now ≤ 2000000 }
        requires head { HeadHolds name.now tokens.now self.old.heads.items changed.now kept }
        requires body { BodyHolds tokens.now self.old.heads.items changed.now kept }
        ensures known { IfOk result (λ added. AreBefore self.new.heads.items self.new.earlier) }
        ensures added { IfOk result (λ added. added ≡ true → Adds name.now tokens.now kept.head self.old self.new parts.old.items parts.new.items) }
        ensures missing { IfOk result (λ added. added ≡ false → self.new ≡ self.old) }
        ensures parts { IfOk result (λ added. added ≡ false → parts.new.items ≡ parts.old.items) }
    {
        let KeptItem { part, head, body } = kept;
        if !head_stays(alloc, name, tokens, &part, changed)? {
            drop(head);
            return Ok(false);
        }
        let Some(body) = body else {
            return self.put_head(alloc, parts, name, tokens, head);
        };
        if !body_stays(alloc, tokens, &head, part.body.as_ref(), changed)? {
            return self.put_head(alloc, parts, name, tokens, head);
        }
        self.put(alloc, parts, name, tokens, head, Some(body))?;
        Ok(true)
    }
}

// Whether an item with these tokens has the head of this one.
fn head_stays(
    alloc: Global,
    name: &ItemName,
    tokens: &[OutToken],
    part: &Part,
    changed: &Changed,
) -> Result<bool, AllocError>
    requires { length tokens.now ≤ 2000000 }
    ensures { IfOk result (λ stays. stays ≡ true → HeadStays name.now tokens.now changed.now part.now) }
{
    let head = head_part(tokens);
    if *name != part.name || !are_alike(head, &part.words) {
        return Ok(false);
    }
    changed.leaves(alloc, head)
}

// Whether an item with these tokens and this head has this body.
fn body_stays(
    alloc: Global,
    tokens: &[OutToken],
    head: &HeadMeaning,
    part: Option<&BodyPart>,
    changed: &Changed,
) -> Result<bool, AllocError>
    requires { length tokens.now ≤ 2000000 }
    ensures { IfOk result (λ stays. stays ≡ true → BodyStays tokens.now head.now changed.now (option_map (λ p. p.now) part.entry)) }
{
    let Some(part) = part else {
        return Ok(false);
    };
    let at = body_start(tokens);
    let body = behind(tokens, at);
    if !is_checked(tokens, at, head) || part.base as usize != at || !are_alike(body, &part.words) {
        return Ok(false);
    }
    changed.leaves(alloc, body)
}
