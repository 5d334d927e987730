// The tags that a walk through members has come to.
ghost use Rattle.std.specs.Prelude.{◌≡◌, ◌<◌, ◌^◌, [], ◌∷◌, Option, Some, None, IfOk, OnOk, IfSome, option_map, slice_get};
ghost use Rattle.indexmap.specs.IndexSet.{insert_key};
ghost use Rattle.type_data.specs.Same.{same_tag};
ghost use Rattle.elab_state.specs.Looks as spec;
ghost use Rattle.elab_state.specs.Ties as ties;

use indexmap::IndexSet;
use std::alloc::{AllocError, Global};
use std::marker::Model;
use type_data::{CType, Member, Node, TagId, TagInfo};

/// The tags that a walk has come to, in order, each once. Contracts see the list.
#[derive(Drop)]
pub(crate) struct Reached {
    ids: IndexSet<TagId>,
}

impl Model for Reached {
    ghost use Rattle.std.specs.Prelude.{List};
    ghost use Rattle.type_data.specs.declared.names.TagId.{TagId};

    ghost Value = { List TagId };

    ghost view = { λ r. r.ids.keys };
}

impl Reached {
    pub(crate) fn from_tag(alloc: Global, id: &TagId) -> Result<Reached, AllocError>
        ensures { IfOk result (λ r. r ≡ id.now ∷ []) }
    {
        let mut reached = Reached {
            ids: IndexSet::new(alloc),
        };
        reached.note(id)?;
        Ok(reached)
    }

    fn note(&mut self, id: &TagId) -> Result<(), AllocError>
        ensures { OnOk result (self.new ≡ insert_key same_tag self.old id.now) }
    {
        let id = id.share()?;
        self.ids.insert(id)?;
        Ok(())
    }

    pub(crate) fn at(&self, place: u64) -> Option<&TagId>
        ensures tag { option_map (λ i. i.now) result ≡ slice_get self.now place }
        ensures small { IfSome result (λ _. place < 2 ^ 63) }
    {
        self.ids.as_slice().get(place as usize)
    }
}

/// From which members a walk goes on: from all, or from those without a name.
#[derive(Clone, Copy, Drop)]
pub(crate) enum Through {
    Held,
    Unnamed,
}

// The structure or union of a type, or of the elements of an array.
pub(crate) fn holder(ty: &CType) -> Option<&TagId>
    ensures { option_map (λ i. i.now) result ≡ spec.holder ty.now }
{
    match ty.node() {
        Node::Array(of, _, _) => holder(of),
        Node::Tagged(id) => Some(id),
        Node::Enumerated(_) => None,
        Node::Void => None,
        Node::Basic(_) => None,
        Node::Pointer(_, _) => None,
        Node::Function(_, _, _) => None,
        Node::Bad => None,
    }
}

fn tagged(ty: &CType) -> Option<&TagId>
    ensures { option_map (λ i. i.now) result ≡ spec.tagged ty.now }
{
    match ty.node() {
        Node::Tagged(id) => Some(id),
        Node::Array(_, _, _) => None,
        Node::Enumerated(_) => None,
        Node::Void => None,
        Node::Basic(_) => None,
        Node::Pointer(_, _) => None,
        Node::Function(_, _, _) => None,
        Node::Bad => None,
    }
}

fn unnamed(member: &Member) -> Option<&TagId>
    ensures { option_map (λ i. i.now) result ≡ spec.unnamed member.now }
{
    if member.name.is_some() {
        return None;
    }
    tagged(&member.ty)
}

fn led(through: Through, member: &Member) -> Option<&TagId>
    ensures { option_map (λ i. i.now) result ≡ ties.leads through member.now }
{
    match through {
        Through::Held => holder(&member.ty),
        Through::Unnamed => unnamed(member),
    }
}

fn reach(reached: &mut Reached, id: Option<&TagId>) -> Result<(), AllocError>
    ensures { OnOk result (reached.new ≡ spec.reached reached.old (option_map (λ i. i.now) id.entry)) }
{
    match id {
        Some(id) => reached.note(id),
        None => Ok(()),
    }
}

fn reach_all(reached: &mut Reached, through: Through, members: &[Member]) -> Result<(), AllocError>
    ensures { OnOk result (reached.new ≡ spec.reached_all (ties.leads through) reached.old members.now) }
{
    let mut rest = members;
    'members: while let Some((member, others)) = rest.split_first() {
        reach(reached, led(through, member))?;
        rest = others;
    }
    Ok(())
}

/// The tags that the members of a tag lead to.
pub(crate) fn reach_info(
    reached: &mut Reached,
    through: Through,
    info: Option<&TagInfo>,
) -> Result<(), AllocError>
    ensures { OnOk result (reached.new ≡ spec.reached_info (ties.leads through) reached.old (option_map (λ i. i.now) info.entry)) }
{
    let Some(info) = info else {
        return Ok(());
    };
    let Some(members) = &info.members else {
        return Ok(());
    };
    reach_all(reached, through, members.as_slice())
}
