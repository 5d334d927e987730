// Which tags of earlier items a row tests for their members, size or completeness (ISO C11 6.2.5, 6.7.2.1).
ghost use Rattle.std.specs.Prelude.{◌≡◌, IfOk, OnOk, option_map};
ghost use Rattle.elab_state.specs.Comes.{Leads};
ghost use Rattle.elab_state.specs.Looks as spec;
ghost use Rattle.elab_state.specs.Seen.{context_of, told_of};
ghost use Rattle.elab_state.specs.Ties as ties;

use crate::around::Around;
use crate::halt::Halt;
use crate::made::Made;
use crate::names::asked;
use crate::reached::{Reached, Through, holder, reach_info};
use crate::wants::Wanted;
use scope_tables::{Entity, EntityKind};
use std::alloc::{AllocError, Global};
use type_data::{CType, ItemName, Node, TagId, Tags};

fn is_told(item: &ItemName, tags: &Tags, id: &TagId) -> bool
    ensures { result ≡ spec.is_told item.now id.now tags.now }
{
    id.item == *item || tags.get(id).is_some()
}

// What an answer says of a tag is known from now on.
fn learn(
    alloc: Global,
    made: &mut Made,
    id: &TagId,
    answer: &Option<Entity>,
) -> Result<(), AllocError>
    ensures { OnOk result (made.new ≡ spec.learned id.now answer.now made.old) }
{
    let Some(entity) = answer else {
        return Ok(());
    };
    match &entity.kind {
        EntityKind::Tag(_, info) => {
            let info = info.share(alloc)?;
            let id = id.share()?;
            made.tags.insert(id, info)?;
            Ok(())
        }
        EntityKind::Object => Ok(()),
        EntityKind::Function => Ok(()),
        EntityKind::Typedef => Ok(()),
        EntityKind::Enumerator => Ok(()),
        EntityKind::Member => Ok(()),
        EntityKind::Label => Ok(()),
    }
}

/// What is known of a tag is among the tags: that of an earlier item is asked for, where it isn't there.
pub fn tell(alloc: Global, around: &Around<'_>, made: &mut Made, id: &TagId) -> Result<(), Halt>
    ensures { Leads (told_of around.now) (spec.told (context_of around.now).item id.now made.old) result made.new }
{
    if is_told(around.item, &made.tags, id) {
        return Ok(());
    }
    let Ok(wanted) = Wanted::of_members(alloc, id) else {
        return Err(Halt::NoMemory);
    };
    match asked(around.known, wanted) {
        Ok(answer) => match learn(alloc, made, id, answer) {
            Ok(()) => Ok(()),
            Err(_) => Err(Halt::NoMemory),
        },
        Err(halt) => Err(halt),
    }
}

fn tag_of(ty: &CType) -> Option<&TagId>
    ensures { option_map (λ i. i.now) result ≡ spec.tag_of ty.now }
{
    match ty.node() {
        Node::Array(of, _, _) => tag_of(of),
        Node::Enumerated(id) => Some(id),
        Node::Tagged(id) => Some(id),
        Node::Void => None,
        Node::Basic(_) => None,
        Node::Pointer(_, _) => None,
        Node::Function(_, _, _) => None,
        Node::Bad => None,
    }
}

/// A row tests whether a type is complete, or its size: what is known of its tag, or that of an array's elements, is among the tags.
pub fn look_at(alloc: Global, around: &Around<'_>, made: &mut Made, ty: &CType) -> Result<(), Halt>
    ensures { Leads (told_of around.now) (spec.look (context_of around.now).item (spec.At ty.now) made.old) result made.new }
{
    match tag_of(ty) {
        Some(id) => tell(alloc, around, made, id),
        None => Ok(()),
    }
}

fn share_at(reached: &Reached, place: u64) -> Result<Option<TagId>, AllocError>
    ensures { IfOk result (λ id. ties.IsAt reached.now place id) }
{
    match reached.at(place) {
        Some(id) => {
            let id = id.share()?;
            Ok(Some(id))
        }
        None => Ok(None),
    }
}

// One tag of a walk: what is known of it, and where it leads.
fn pass(
    alloc: Global,
    around: &Around<'_>,
    made: &mut Made,
    through: Through,
    reached: &mut Reached,
    id: &TagId,
) -> Result<(), Halt>
    ensures { ties.Passes (told_of around.now) (spec.told (context_of around.now).item id.now made.old) through id.now reached.old result reached.new made.new }
{
    match tell(alloc, around, made, id) {
        Ok(()) => (),
        Err(halt) => return Err(halt),
    }
    match reach_info(reached, through, made.tags.get(id)) {
        Ok(()) => Ok(()),
        Err(_) => Err(Halt::NoMemory),
    }
}

// Each tag is looked at once, however often it is held.
fn walk(
    alloc: Global,
    around: &Around<'_>,
    made: &mut Made,
    through: Through,
    id: &TagId,
) -> Result<(), Halt>
    ensures { Leads (told_of around.now) (spec.walk_from (ties.leads through) (context_of around.now).item id.now made.old) result made.new }
{
    let Ok(mut reached) = Reached::from_tag(alloc, id) else {
        return Err(Halt::NoMemory);
    };
    let mut place = 0;
    'tags: loop {
        let Ok(found) = share_at(&reached, place) else {
            return Err(Halt::NoMemory);
        };
        let Some(next) = found else {
            return Ok(());
        };
        match pass(alloc, around, made, through, &mut reached, &next) {
            Ok(()) => (),
            Err(halt) => return Err(halt),
        }
        place += 1;
    }
}

/// A row tests what objects of a type hold by value, at any depth: what is known of the tags that are come to is among the tags. Its
/// cost is linear in the number of their members.
pub fn look_deep(
    alloc: Global,
    around: &Around<'_>,
    made: &mut Made,
    ty: &CType,
) -> Result<(), Halt>
    ensures { Leads (told_of around.now) (spec.look (context_of around.now).item (spec.Deep ty.now) made.old) result made.new }
{
    match holder(ty) {
        Some(id) => walk(alloc, around, made, Through::Held, id),
        None => Ok(()),
    }
}

/// A row tests the members of a structure or union, those of its anonymous ones among them (6.7.2.1p13): what is known of the tags that
/// are come to is among the tags.
pub fn look_anonymous(
    alloc: Global,
    around: &Around<'_>,
    made: &mut Made,
    id: &TagId,
) -> Result<(), Halt>
    ensures { Leads (told_of around.now) (spec.look (context_of around.now).item (spec.Anonymous id.now) made.old) result made.new }
{
    walk(alloc, around, made, Through::Unnamed, id)
}
