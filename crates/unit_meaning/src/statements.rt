// The first statement of each name that is what is asked for, and the names that some head states without `inline`, or with `extern`.
ghost use Rattle.std.specs.Prelude.{◌≡◌, ◌&&◌, ◌||◌, ℕ, nat_eq, false, is_some, List, IfOk, OnOk};
ghost use Rattle.std.specs.Cmp.Lexicographic.{pointwise};
ghost use Rattle.std.specs.Option.{option_or};
ghost use Rattle.unit_meaning.specs.Exports as spec;
ghost use Rattle.unit_meaning.specs.Kept.{asks, at, has};

use crate::firsts::{no_names, note};
use crate::sites::token_in;
use scope_tables::{HeadMeaning, How, Stated};
use shared_text::Name;
use std::alloc::{AllocError, Global};
use std::collections::{HashMap, HashSet};
use tok_data::TokId;
use type_data::ItemName;

/// What is asked of a statement.
#[derive(Clone, Copy, Drop)]
pub(crate) enum Asked {
    Defined,
    Tentative,
    Refused,
}

fn defines(how: How) -> bool
    ensures { result ≡ spec.defines how }
{
    match how {
        How::Defines => true,
        How::Tentative => false,
        How::Refused => false,
        How::Declares => false,
    }
}

fn is_tentative(how: How) -> bool
    ensures { result ≡ spec.is_tentative how }
{
    match how {
        How::Tentative => true,
        How::Defines => false,
        How::Refused => false,
        How::Declares => false,
    }
}

fn is_refused(how: How) -> bool
    ensures { result ≡ spec.is_refused how }
{
    match how {
        How::Refused => true,
        How::Defines => false,
        How::Tentative => false,
        How::Declares => false,
    }
}

fn is_asked(asked: Asked, how: How) -> bool
    ensures { result ≡ asks asked how }
{
    match asked {
        Asked::Defined => defines(how),
        Asked::Tentative => is_tentative(how),
        Asked::Refused => is_refused(how),
    }
}

fn note_stated(
    alloc: Global,
    map: &mut HashMap<Name, TokId>,
    asked: Asked,
    item: &ItemName,
    stated: &Stated,
) -> Result<(), AllocError>
    ensures { OnOk result ((q : List ℕ) → at map.new q ≡ option_or (at map.old q) (spec.if_stated (asks asked) q item.now stated.now)) }
{
    if !is_asked(asked, stated.how) {
        return Ok(());
    }
    let tok = token_in(alloc, item, stated.at)?;
    note(map, &stated.name, tok)
}

fn note_item(
    alloc: Global,
    map: &mut HashMap<Name, TokId>,
    asked: Asked,
    item: &ItemName,
    list: &[Stated],
) -> Result<(), AllocError>
    ensures { OnOk result ((q : List ℕ) → at map.new q ≡ option_or (at map.old q) (spec.first_in (asks asked) q item.now list.now)) }
{
    let mut rest = list;
    'stated: while let Some((stated, behind)) = rest.split_first() {
        rest = behind;
        note_stated(alloc, map, asked, item, stated)?;
    }
    Ok(())
}

/// Of each name the token of the first statement that is what is asked for, in its item.
pub(crate) fn first_stated(
    alloc: Global,
    asked: Asked,
    heads: &[HeadMeaning],
) -> Result<HashMap<Name, TokId>, AllocError>
    ensures { IfOk result (λ map. (q : List ℕ) → at map q ≡ spec.first_stated (asks asked) q heads.now) }
{
    let mut map = no_names(alloc);
    let mut rest = heads;
    'heads: while let Some((head, behind)) = rest.split_first() {
        rest = behind;
        note_item(alloc, &mut map, asked, &head.item, head.stated.as_slice())?;
    }
    Ok(map)
}

/// For each name the tokens of the first statements of its definition, of a tentative one and of one that has a fault.
pub(crate) fn all_first_stated(
    alloc: Global,
    heads: &[HeadMeaning],
) -> Result<
    (
        HashMap<Name, TokId>,
        HashMap<Name, TokId>,
        HashMap<Name, TokId>,
    ),
    AllocError,
>
    ensures defined { IfOk result (λ r. (q : List ℕ) → at r.0 q ≡ spec.first_stated spec.defines q heads.now) }
    ensures tentative { IfOk result (λ r. (q : List ℕ) → at r.1 q ≡ spec.first_stated spec.is_tentative q heads.now) }
    ensures refused { IfOk result (λ r. (q : List ℕ) → at r.2 q ≡ spec.first_stated spec.is_refused q heads.now) }
{
    let defined = first_stated(alloc, Asked::Defined, heads)?;
    let tentative = first_stated(alloc, Asked::Tentative, heads)?;
    let refused = first_stated(alloc, Asked::Refused, heads)?;
    Ok((defined, tentative, refused))
}

#[tactic(auto, unfolding(crate::specs::Kept::has))]
fn none(alloc: Global) -> HashSet<Name>
    ensures { (q : List ℕ) → has result q ≡ false }
{
    HashSet::new(alloc)
}

/// The name is among these.
#[tactic(auto, unfolding(crate::specs::Kept::has))]
pub(crate) fn is_among(names: &HashSet<Name>, name: &Name) -> bool
    ensures { result ≡ has names.now name.now }
{
    names.contains(name)
}

#[tactic(auto, unfolding(crate::specs::Kept::has))]
fn add(names: &mut HashSet<Name>, name: &Name) -> Result<(), AllocError>
    ensures { OnOk result ((q : List ℕ) → has names.new q ≡ (pointwise nat_eq name.now q || has names.old q)) }
{
    let name = name.share()?;
    names.insert(name)?;
    Ok(())
}

fn add_stated(names: &mut HashSet<Name>, list: &[Stated]) -> Result<(), AllocError>
    ensures { OnOk result ((item : ItemName) (q : List ℕ) → has names.new q ≡ (has names.old q || is_some (spec.first_in spec.any q item list.now))) }
{
    let mut rest = list;
    'stated: while let Some((stated, behind)) = rest.split_first() {
        rest = behind;
        add(names, &stated.name)?;
    }
    Ok(())
}

fn add_outside(names: &mut HashSet<Name>, head: &HeadMeaning) -> Result<(), AllocError>
    ensures { OnOk result ((q : List ℕ) → has names.new q ≡ (has names.old q || is_some (spec.outside_in q head.now))) }
{
    if head.inline {
        return Ok(());
    }
    add_stated(names, head.stated.as_slice())
}

/// The names that some head states without `inline`, or with `extern`.
pub(crate) fn outside(alloc: Global, heads: &[HeadMeaning]) -> Result<HashSet<Name>, AllocError>
    ensures { IfOk result (λ names. (q : List ℕ) → has names q ≡ is_some (spec.outside q heads.now)) }
{
    let mut names = none(alloc);
    let mut rest = heads;
    'heads: while let Some((head, behind)) = rest.split_first() {
        rest = behind;
        add_outside(&mut names, head)?;
    }
    Ok(names)
}
