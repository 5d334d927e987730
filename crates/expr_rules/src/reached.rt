// Whether a structure or union has a const member, at any depth by value (ISO C11 6.3.2.1p1).
ghost use Rattle.std.specs.Prelude.{◌≡◌, ◌∷◌, [], ◌<◌, ◌^◌, Some, None, IfOk, IfSome, OnOk, if◌then◌else◌, option_map, slice_get};
ghost use Rattle.indexmap.specs.IndexSet.{insert_key};
ghost use Rattle.type_data.specs.Same.{same_tag};
ghost use Rattle.type_rel.specs.Inside.{most_tags};
ghost use Rattle.expr_rules.specs.Members;
ghost use Rattle.expr_rules.specs.Reached as spec;

use indexmap::IndexSet;
use std::alloc::{AllocError, Global};
use std::marker::Model;
use type_data::{CType, Member, Node, TagId, TagInfo, Tags};

/// The tags that a walk has come to, in order, each once. Contracts see the list.
#[derive(Drop)]
struct Reached {
    ids: IndexSet<TagId>,
}

impl Model for Reached {
    ghost use Rattle.std.specs.Prelude.{List};
    ghost use Rattle.type_data.specs.declared.names.TagId.{TagId};

    ghost Value = { List TagId };

    ghost view = { λ r. r.ids.keys };
}

impl Reached {
    fn from_tag(alloc: Global, id: &TagId) -> Result<Reached, AllocError>
        ensures { IfOk result (λ r. r ≡ id.now ∷ []) }
    {
        let mut reached = Reached {
            ids: IndexSet::new(alloc),
        };
        reached.note(id)?;
        Ok(reached)
    }

    fn note(&mut self, id: &TagId) -> Result<(), AllocError>
        ensures { OnOk result (self.new ≡ insert_key same_tag self.old id.now) }
    {
        let id = id.share()?;
        self.ids.insert(id)?;
        Ok(())
    }

    fn at(&self, place: u64) -> Option<&TagId>
        ensures tag { option_map (λ i. i.now) result ≡ slice_get self.now place }
        ensures small { IfSome result (λ _. place < 2 ^ 63) }
    {
        self.ids.as_slice().get(place as usize)
    }
}

// The elements of an array, of whatever dimensions; `None` where those of some dimension are const.
fn innermost(ty: &CType) -> Option<&CType>
    ensures { option_map (λ t. t.now) result ≡ Members.innermost ty.now }
{
    match ty.node() {
        Node::Array(of, qual, _) => {
            if qual.is_const {
                return None;
            }
            innermost(of)
        }
        _ => Some(ty),
    }
}

// Whether the type has const elements. Else the tag that it is of, if any, is noted.
fn note_type(reached: &mut Reached, ty: &CType) -> Result<bool, AllocError>
    ensures { IfOk result (λ found. spec.noted_element reached.old (Members.innermost ty.now) ≡ (if found then None else Some reached.new)) }
{
    let Some(element) = innermost(ty) else {
        return Ok(true);
    };
    match element.node() {
        Node::Tagged(id) => {
            reached.note(id)?;
            Ok(false)
        }
        _ => Ok(false),
    }
}

// Whether one of the members is const. Else the tags of their types are noted.
fn note_all(reached: &mut Reached, members: &[Member]) -> Result<bool, AllocError>
    ensures { IfOk result (λ found. spec.noted_all reached.old members.now ≡ (if found then None else Some reached.new)) }
{
    let mut rest = members;
    'members: while let Some((member, others)) = rest.split_first() {
        if member.qual.is_const {
            return Ok(true);
        }
        if note_type(reached, &member.ty)? {
            return Ok(true);
        }
        rest = others;
    }
    Ok(false)
}

fn note_info(reached: &mut Reached, info: Option<&TagInfo>) -> Result<bool, AllocError>
    ensures { IfOk result (λ found. spec.noted_info reached.old (option_map (λ i. i.now) info.entry) ≡ (if found then None else Some reached.new)) }
{
    let Some(info) = info else {
        return Ok(false);
    };
    let Some(members) = &info.members else {
        return Ok(false);
    };
    note_all(reached, members.as_slice())
}

// Its cost is linear in the number of members of all tags that it comes to.
fn const_in(alloc: Global, tags: &Tags, id: &TagId) -> Result<bool, AllocError>
    ensures { IfOk result (λ b. b ≡ Members.const_in most_tags tags.now [] id.now) }
{
    let mut reached = Reached::from_tag(alloc, id)?;
    let mut place = 0;
    'tags: loop {
        let Some(next) = reached.at(place) else {
            return Ok(false);
        };
        let info = tags.get(next);
        if note_info(&mut reached, info)? {
            return Ok(true);
        }
        place += 1;
    }
}

/// Whether a structure or union, or elements of one, has a const member. Each tag that it holds is looked at once, however often
/// it is held.
#[tactic(auto, unfolding(crate::specs::Members::has_const))]
pub(crate) fn has_const(alloc: Global, tags: &Tags, ty: &CType) -> Result<bool, AllocError>
    ensures { IfOk result (λ b. b ≡ Members.has_const tags.now ty.now) }
{
    let Some(element) = innermost(ty) else {
        return Ok(true);
    };
    match element.node() {
        Node::Tagged(id) => const_in(alloc, tags, id),
        _ => Ok(false),
    }
}
