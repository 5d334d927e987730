// By what a member of a union or enumeration is found in another one (ISO C11 6.2.7p1).
ghost use Rattle.std.specs.Prelude.{◌≡◌, ◌<◌, ◌∷◌, ℕ, [], List, length, option_map, IfOk, IfSome, None, OnOk};
ghost use Rattle.std.specs.List.{filter};
ghost use Rattle.std.specs.Option.{option_map_or};
ghost use Rattle.unit_index.specs.Firsts.{given, or_else};
ghost use Rattle.unit_index.specs.Handles as spec;
ghost use Rattle.unit_index.specs.Keyed.{at};

use shared_text::Name;
use std::alloc::{AllocError, Global};
use std::cmp::Ordering;
use std::collections::HashMap;
use type_data::{CType, Member, Node, TagInfo, Tags};

fn lesser<'a>(best: Option<&'a Name>, name: Option<&'a Name>) -> Option<&'a Name>
    ensures { option_map (λ n. n.now) result ≡ spec.lesser (option_map (λ n. n.now) best.entry) (option_map (λ n. n.now) name.entry) }
{
    let Some(best) = best else {
        return name;
    };
    let Some(name) = name else {
        return Some(best);
    };
    match name.cmp(best) {
        Ordering::Less => Some(name),
        Ordering::Equal => Some(best),
        Ordering::Greater => Some(best),
    }
}

fn least(members: &[Member]) -> Option<&Name>
    ensures { option_map (λ n. n.now) result ≡ spec.least None members.now }
{
    let mut best = None;
    let mut rest = members;
    'members: while let Some((member, behind)) = rest.split_first() {
        best = lesser(best, member.name.as_ref());
        rest = behind;
    }
    best
}

fn least_of(info: Option<&TagInfo>) -> Option<&Name>
    ensures { option_map (λ n. n.now) result ≡ spec.least_of (option_map (λ i. i.now) info.entry) }
{
    let Some(info) = info else {
        return None;
    };
    match &info.members {
        Some(members) => least(members.as_slice()),
        None => None,
    }
}

fn inner<'a>(tags: &'a Tags, ty: &CType) -> Option<&'a Name>
    ensures { option_map (λ n. n.now) result ≡ spec.inner tags.now ty.now }
{
    match ty.node() {
        Node::Tagged(id) => least_of(tags.get(id)),
        Node::Void => None,
        Node::Basic(_) => None,
        Node::Enumerated(_) => None,
        Node::Pointer(_, _) => None,
        Node::Array(_, _, _) => None,
        Node::Function(_, _, _) => None,
        Node::Bad => None,
    }
}

/// The name by which a member is found.
pub(crate) fn handle<'a>(tags: &'a Tags, member: &'a Member) -> Option<&'a Name>
    ensures { option_map (λ n. n.now) result ≡ spec.handle tags.now member.now }
{
    match &member.name {
        Some(name) => Some(name),
        None => inner(tags, &member.ty),
    }
}

#[tactic(auto, unfolding(crate::specs::Keyed::at))]
fn no_members<'a>(alloc: Global) -> HashMap<Name, &'a Member>
    ensures { (q : List ℕ) → at result q ≡ None }
{
    HashMap::new(alloc)
}

/// The member that is found by a name.
#[tactic(auto, unfolding(crate::specs::Keyed::at))]
pub(crate) fn found<'a>(keyed: &HashMap<Name, &'a Member>, name: &Name) -> Option<&'a Member>
    ensures { option_map (λ m. m.now) result ≡ at keyed.now name.now }
{
    keyed.get(name).copied()
}

#[tactic(auto, unfolding(crate::specs::Keyed::at))]
fn add<'a>(
    keyed: &mut HashMap<Name, &'a Member>,
    name: &Name,
    member: &'a Member,
) -> Result<(), AllocError>
    ensures { OnOk result ((q : List ℕ) → at keyed.new q ≡ or_else (given (spec.same_text name.now q) member.now) (at keyed.old q)) }
{
    let name = name.share()?;
    keyed.insert(name, member).map_err(AllocError::from)?;
    Ok(())
}

// The first one with a name is found by it.
fn key<'a>(
    keyed: &mut HashMap<Name, &'a Member>,
    tags: &Tags,
    member: &'a Member,
) -> Result<(), AllocError>
    ensures { OnOk result ((q : List ℕ) → at keyed.new q ≡ or_else (at keyed.old q) (spec.one tags.now q member.now)) }
{
    let Some(name) = handle(tags, member) else {
        return Ok(());
    };
    if found(keyed, name).is_some() {
        return Ok(());
    }
    add(keyed, name, member)
}

/// The members by which of them is found by a name. Its cost is linear in their number, and in that of the members in those without a
/// name.
pub(crate) fn keyed<'a>(
    alloc: Global,
    tags: &Tags,
    members: &'a [Member],
) -> Result<HashMap<Name, &'a Member>, AllocError>
    ensures { IfOk result (λ keyed. (q : List ℕ) → at keyed q ≡ spec.partner tags.now members.now q) }
{
    let mut keyed = no_members(alloc);
    let mut rest = members;
    'members: while let Some((member, behind)) = rest.split_first() {
        key(&mut keyed, tags, member)?;
        rest = behind;
    }
    Ok(keyed)
}

/// The first member without a handle, and those behind it.
pub(crate) fn next_nameless<'a>(
    tags: &Tags,
    members: &'a [Member],
) -> Option<(&'a Member, &'a [Member])>
    ensures next { filter (spec.is_nameless tags.now) members.now ≡ option_map_or (λ r. r.0.now ∷ filter (spec.is_nameless tags.now) r.1.now) result [] }
    ensures shorter { IfSome result (λ r. length r.1.now < length members.now) }
{
    let mut rest = members;
    'members: while let Some((member, behind)) = rest.split_first() {
        if handle(tags, member).is_none() {
            return Some((member, behind));
        }
        rest = behind;
    }
    None
}
