// Expressions and braces in an initializer (ISO C11 6.7.9).
ghost use Rattle.std.specs.Prelude.{◌≡◌, IfOk, OnOk, option_map, false};
ghost use Rattle.type_rel.specs.Conversion;
ghost use Rattle.init_rules.specs.Accepted;
ghost use Rattle.init_rules.specs.Places as P;
ghost use Rattle.init_rules.specs.Stacks;
ghost use Rattle.init_rules.specs.Steps as spec;
ghost use Rattle.init_rules.specs.Strings;
ghost use Rattle.init_rules.specs.declared.state.InitPiece.TheVariants as piece;

use crate::accepted::{Expression, Setting, by_text, refused, too_many_if};
use crate::descents::descend;
use crate::extents::end_step;
use crate::parts::has_parts;
use crate::places::{Places, overfill, pass, place, spot, take, to_current, unchecked};
use crate::spots::Spot;
use crate::state::InitState;
use crate::strings::{fill, fills, length_of, may_fill, may_take_text};
use std::alloc::{AllocError, Global};
use type_data::{CType, Fault, Judged, Node, Tags};
use type_rel::{converted, is_bad, is_complete, is_open_array};

fn unknown_in(places: &mut Places, ty: &CType) -> Result<(), AllocError>
    ensures { OnOk result (places.new ≡ spec.unknown_in ty.now places.old) }
{
    if has_parts(ty) {
        return places.push(unchecked());
    }
    Ok(())
}

// For the part of this type, which the places are behind.
fn in_part(
    alloc: Global,
    setting: Setting,
    tags: &Tags,
    e: &Expression<'_>,
    places: &mut Places,
    ty: &CType,
) -> Result<Option<Fault>, AllocError>
    ensures fault { IfOk result (λ f. f ≡ spec.part_fault setting.at setting.constant tags.now e.now.text e.now.judged.now e.now.converted.now ty.now places.old) }
    ensures places { OnOk result (places.new ≡ spec.part_places tags.now e.now.text e.now.judged.now e.now.converted.now ty.now places.old) }
{
    if is_bad(&e.judged.ty) {
        unknown_in(places, ty)?;
        return Ok(None);
    }
    let end = descend(alloc, tags, places, e, ty)?;
    refused(alloc, setting, end, e)
}

fn overfilled(alloc: Global, at: u32, places: &mut Places) -> Result<Option<Fault>, AllocError>
    ensures fault { IfOk result (λ f. f ≡ Accepted.too_many at places.old) }
    ensures places { OnOk result (places.new ≡ P.overfilled places.old) }
{
    let told = overfill(places)?;
    Ok(too_many_if(alloc, at, told))
}

fn at_spot(
    alloc: Global,
    setting: Setting,
    tags: &Tags,
    whole: &CType,
    e: &Expression<'_>,
    places: &mut Places,
    spot: &Spot,
) -> Result<Option<Fault>, AllocError>
    ensures fault { IfOk result (λ f. f ≡ spec.fault_at setting.at setting.constant whole.now tags.now e.now.text e.now.judged.now e.now.converted.now spot.now places.old) }
    ensures places { OnOk result (places.new ≡ spec.places_at tags.now e.now.text e.now.judged.now e.now.converted.now spot.now places.old) }
{
    match spot {
        Spot::Whole => refused(alloc, setting, whole, e),
        Spot::Unchecked => {
            pass(places)?;
            Ok(None)
        }
        Spot::Full => overfilled(alloc, setting.at, places),
        Spot::At(number, ty) => {
            take(places, *number)?;
            in_part(alloc, setting, tags, e, places, ty)
        }
    }
}

fn text_length(e: &Expression<'_>, ty: &CType) -> u64
    ensures { result ≡ spec.text_length e.now.text e.now.judged.now.ty ty.now }
{
    if e.text && may_take_text(ty, &e.judged.ty) {
        return length_of(&e.judged.ty);
    }
    0
}

fn whole_length(whole: &CType, e: &Expression<'_>, spot: &Spot) -> u64
    ensures { result ≡ spec.whole_length whole.now e.now.text e.now.judged.now spot.now }
{
    match spot {
        Spot::Whole => text_length(e, whole),
        Spot::Unchecked => 0,
        Spot::Full => 0,
        Spot::At(_, _) => 0,
    }
}

fn filled_fault(alloc: Global, at: u32, text: &CType, places: &Places) -> Option<Fault>
    ensures { result ≡ spec.filled_fault at text.now (Stacks.top places.now) }
{
    match places.top() {
        Some(p) => by_text(alloc, at, &p.ty, text),
        None => None,
    }
}

fn in_braces(
    alloc: Global,
    state: &mut InitState,
    e: &Expression<'_>,
) -> Result<Option<Fault>, AllocError>
    ensures fault { IfOk result (λ f. f ≡ spec.filled_fault state.old.at e.now.judged.now.ty (Stacks.top state.old.open_places)) }
    ensures moves { OnOk result (state.new ≡ spec.moved state.old (Strings.filled e.now.converted.now.ty state.old.open_places) false (Strings.filled_length e.now.judged.now.ty state.old.open_places)) }
{
    let fault = filled_fault(alloc, state.at, &e.judged.ty, &state.open_places);
    let length = fill(&e.judged.ty, &e.converted.ty, &mut state.open_places)?;
    end_step(state, false, length as u128);
    Ok(fault)
}

fn spot_of(
    tags: &Tags,
    designating: bool,
    e: &Expression<'_>,
    places: &Places,
) -> Result<Spot, AllocError>
    ensures { IfOk result (λ s. s ≡ spec.spot_of tags.now designating e.now.text e.now.judged.now (Stacks.top places.now)) }
{
    if e.text && may_fill(designating, &e.judged.ty, places) {
        return Ok(Spot::Unchecked);
    }
    spot(tags, designating, places)
}

fn expressed(
    alloc: Global,
    state: &mut InitState,
    tags: &Tags,
    e: &Expression<'_>,
) -> Result<Option<Fault>, AllocError>
    ensures fault { IfOk result (λ f. f ≡ spec.expressed_fault state.old tags.now e.now.text e.now.judged.now e.now.converted.now state.old.open_places) }
    ensures moves { OnOk result (state.new ≡ spec.expressed state.old tags.now e.now.text e.now.judged.now e.now.converted.now state.old.open_places) }
{
    if e.text && fills(state.designating, &e.judged.ty, &state.open_places) {
        return in_braces(alloc, state, e);
    }
    let setting = Setting {
        at: state.at,
        constant: state.constant,
    };
    let spot = spot_of(tags, state.designating, e, &state.open_places)?;
    let Ok(fault) = at_spot(
        alloc,
        setting,
        tags,
        &state.ty,
        e,
        &mut state.open_places,
        &spot,
    ) else {
        drop(spot);
        return Err(AllocError);
    };
    let length = whole_length(&state.ty, e, &spot);
    drop(spot);
    end_step(state, false, length as u128);
    Ok(fault)
}

/// An expression; `text` says that it is a string literal.
pub(crate) fn express(
    alloc: Global,
    state: &mut InitState,
    tags: &Tags,
    text: bool,
    judged: &Judged,
) -> Result<Option<Fault>, AllocError>
    ensures fault { IfOk result (λ f. f ≡ spec.expressed_fault state.old tags.now text judged.now (Conversion.converted judged.now) (spec.here state.old tags.now)) }
    ensures moves { OnOk result (state.new ≡ spec.expressed state.old tags.now text judged.now (Conversion.converted judged.now) (spec.here state.old tags.now)) }
{
    let after = converted(alloc, judged)?;
    to_current(tags, state.designating, &mut state.open_places);
    let e = Expression {
        judged,
        converted: &after,
        text,
    };
    expressed(alloc, state, tags, &e)
}

fn list_type(tags: &Tags, ty: &CType) -> Result<CType, AllocError>
    ensures { IfOk result (λ t. t ≡ spec.list_type tags.now ty.now) }
{
    if is_complete(tags, ty) || is_open_array(ty) {
        return ty.share();
    }
    Ok(CType::of(Node::Bad))
}

fn open_at(
    alloc: Global,
    at: u32,
    tags: &Tags,
    whole: &CType,
    places: &mut Places,
    spot: Spot,
) -> Result<Option<Fault>, AllocError>
    ensures fault { IfOk result (λ f. f ≡ spec.open_fault at spot places.old) }
    ensures places { OnOk result (places.new ≡ spec.opened tags.now whole.now spot places.old) }
{
    match spot {
        Spot::Whole => {
            let ty = list_type(tags, whole)?;
            places.push(place(ty, 0, true))?;
            Ok(None)
        }
        Spot::Unchecked => {
            pass(places)?;
            places.push(place(CType::of(Node::Bad), 0, true))?;
            Ok(None)
        }
        Spot::Full => {
            let fault = overfilled(alloc, at, places)?;
            places.push(place(CType::of(Node::Bad), 0, true))?;
            Ok(fault)
        }
        Spot::At(number, ty) => {
            let Ok(()) = take(places, number) else {
                drop(ty);
                return Err(AllocError);
            };
            let Ok(list) = list_type(tags, &ty) else {
                drop(ty);
                return Err(AllocError);
            };
            drop(ty);
            places.push(place(list, 0, true))?;
            Ok(None)
        }
    }
}

/// An opening brace.
pub(crate) fn open(
    alloc: Global,
    state: &mut InitState,
    tags: &Tags,
) -> Result<Option<Fault>, AllocError>
    ensures fault { IfOk result (λ f. f ≡ spec.fault_of_piece state.old tags.now piece.Open) }
    ensures moves { OnOk result (state.new ≡ spec.after_piece state.old tags.now piece.Open) }
{
    to_current(tags, state.designating, &mut state.open_places);
    let spot = spot(tags, state.designating, &state.open_places)?;
    let fault = open_at(
        alloc,
        state.at,
        tags,
        &state.ty,
        &mut state.open_places,
        spot,
    )?;
    end_step(state, false, 0);
    Ok(fault)
}
