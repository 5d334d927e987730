// The way down to the object that an expression initializes (ISO C11 6.7.9p13, p20).
ghost use Rattle.std.specs.Prelude.{◌≡◌, IfOk, OnOk};
ghost use Rattle.init_rules.specs.Accepted;
ghost use Rattle.init_rules.specs.Descents as spec;
ghost use Rattle.type_data.specs.Types;

use crate::accepted::{Expression, takes};
use crate::parts::{after, of_tag};
use crate::places::{Places, place, unchecked};
use std::alloc::{AllocError, Global};
use type_data::{CType, Extent, Node, TagId, Tags};
use type_rel::{deeper, is_inside, most_tags};

/// What the way is about: the tags, those that it is inside of, what it is for, and how deep it may still go.
#[derive(Clone, Copy)]
struct Search<'a, 'b> {
    tags: &'a Tags,
    inside: &'b [TagId],
    e: Expression<'b>,
    bound: u64,
}

fn has_elements(extent: Extent) -> bool
    ensures { result ≡ spec.has_elements extent }
{
    match extent {
        Extent::Size(count) => !(count == 0),
        Extent::None => false,
        Extent::Unknown => true,
    }
}

fn inner<'a>(
    places: &mut Places,
    e: &Expression<'_>,
    ty: &'a CType,
) -> Result<&'a CType, AllocError>
    ensures places { OnOk result (places.new ≡ (spec.inner (Accepted.takes e.now.text e.now.judged.now e.now.converted.now) ty.now places.old).places) }
    ensures ty { IfOk result (λ t. t.now ≡ (spec.inner (Accepted.takes e.now.text e.now.judged.now e.now.converted.now) ty.now places.old).ty) }
{
    match ty.node() {
        Node::Array(of, _, extent) => {
            if takes(e, ty) || !has_elements(*extent) {
                return Ok(ty);
            }
            let array = ty.share()?;
            places.push(place(array, 1, false))?;
            inner(places, e, of)
        }
        _ => Ok(ty),
    }
}

#[cycle(search)]
fn down<'a>(
    alloc: Global,
    search: &Search<'a, '_>,
    places: &mut Places,
    ty: &'a CType,
) -> Result<&'a CType, AllocError>
    ensures places { OnOk result (places.new ≡ (spec.down (λ id qs. spec.down_in search.now.bound search.now.tags.now search.now.inside.now (Accepted.takes search.now.e.text search.now.e.judged.now search.now.e.converted.now) id qs) (Accepted.takes search.now.e.text search.now.e.judged.now search.now.e.converted.now) ty.now places.old).places) }
    ensures ty { IfOk result (λ t. t.now ≡ (spec.down (λ id qs. spec.down_in search.now.bound search.now.tags.now search.now.inside.now (Accepted.takes search.now.e.text search.now.e.judged.now search.now.e.converted.now) id qs) (Accepted.takes search.now.e.text search.now.e.judged.now search.now.e.converted.now) ty.now places.old).ty) }
{
    let end = inner(places, &search.e, ty)?;
    match end.node() {
        Node::Tagged(id) => {
            if takes(&search.e, end) {
                return Ok(end);
            }
            down_in(alloc, search, places, end, id)
        }
        Node::Bad => {
            places.push(unchecked())?;
            Ok(end)
        }
        _ => Ok(end),
    }
}

#[cycle(search)]
fn down_in<'a>(
    alloc: Global,
    search: &Search<'a, '_>,
    places: &mut Places,
    ty: &'a CType,
    id: &TagId,
) -> Result<&'a CType, AllocError>
    requires { ty.now ≡ Types.Tagged_type id.now }
    ensures places { OnOk result (places.new ≡ (spec.down_in search.now.bound search.now.tags.now search.now.inside.now (Accepted.takes search.now.e.text search.now.e.judged.now search.now.e.converted.now) id.now places.old).places) }
    ensures ty { IfOk result (λ t. t.now ≡ (spec.down_in search.now.bound search.now.tags.now search.now.inside.now (Accepted.takes search.now.e.text search.now.e.judged.now search.now.e.converted.now) id.now places.old).ty) }
{
    if search.bound == 0 {
        return Ok(ty);
    }
    if is_inside(search.inside, id) {
        return Ok(ty);
    }
    let Some(part) = of_tag(search.tags, false, 0, id) else {
        return Ok(ty);
    };
    let inside = deeper(alloc, search.inside, id)?;
    let below = Search {
        tags: search.tags,
        inside: inside.as_slice(),
        e: search.e,
        bound: search.bound - 1,
    };
    let whole = ty.share()?;
    places.push(place(whole, after(part.number), false))?;
    down(alloc, &below, places, part.ty)
}

/// Opens the objects on the way from one of this type to the one that an expression initializes, and answers that one's type.
#[tactic(auto, unfolding(crate::specs::Descents::descent))]
pub(crate) fn descend<'a>(
    alloc: Global,
    tags: &'a Tags,
    places: &mut Places,
    e: &Expression<'_>,
    ty: &'a CType,
) -> Result<&'a CType, AllocError>
    ensures places { OnOk result (places.new ≡ (spec.descent tags.now (Accepted.takes e.now.text e.now.judged.now e.now.converted.now) ty.now places.old).places) }
    ensures ty { IfOk result (λ t. t.now ≡ (spec.descent tags.now (Accepted.takes e.now.text e.now.judged.now e.now.converted.now) ty.now places.old).ty) }
{
    let inside = Vec::new(alloc);
    let search = Search {
        tags,
        inside: inside.as_slice(),
        e: *e,
        bound: most_tags(),
    };
    down(alloc, &search, places, ty)
}
