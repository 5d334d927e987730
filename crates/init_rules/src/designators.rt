// Designators (ISO C11 6.7.9p6, p7, p17, p18).
ghost use Rattle.std.specs.Prelude.{◌≡◌, IfOk, OnOk, option_map};
ghost use Rattle.init_rules.specs.Accepted;
ghost use Rattle.init_rules.specs.Designators as spec;
ghost use Rattle.init_rules.specs.Places as P;
ghost use Rattle.init_rules.specs.Stacks;

use crate::accepted::{broken, too_many_if};
use crate::parts::{has_parts, part_at};
use crate::paths::{Path, path};
use crate::places::{
    Places, is_flexible, next_is, overfill, pass, place, take, to_list, unchecked,
};
use crate::spots::{Spot, Standing};
use crate::state::OpenPlace;
use std::alloc::{AllocError, Global};
use type_data::{CType, Extent, Fault, Node, Tags, Value};
use type_rel::is_bad;

fn aim_in(tags: &Tags, p: &OpenPlace) -> Result<Spot, AllocError>
    ensures { IfOk result (λ s. s ≡ spec.aim_in tags.now p.now) }
{
    if is_bad(&p.ty) {
        return Ok(Spot::Unchecked);
    }
    if is_flexible(p) {
        return Ok(Spot::Full);
    }
    match part_at(tags, true, &p.ty, p.next) {
        None => Ok(Spot::Full),
        Some(part) => {
            let ty = part.ty.share()?;
            Ok(Spot::At(part.number, ty))
        }
    }
}

fn aim(tags: &Tags, places: &Places) -> Result<Spot, AllocError>
    ensures { IfOk result (λ s. s ≡ spec.aim tags.now (Stacks.top places.now)) }
{
    match places.top() {
        Some(p) => aim_in(tags, p),
        None => Ok(Spot::Whole),
    }
}

fn spent() -> OpenPlace
    ensures { result ≡ spec.spent }
{
    place(CType::of(Node::Void), 1, false)
}

fn enter(places: &mut Places, spot: Spot) -> Result<(), AllocError>
    ensures { OnOk result (places.new ≡ spec.entered spot places.old) }
{
    match spot {
        Spot::Whole => Ok(()),
        Spot::Unchecked => Ok(()),
        Spot::Full => places.push(spent()),
        Spot::At(number, ty) => {
            let Ok(()) = take(places, number) else {
                drop(ty);
                return Err(AllocError);
            };
            places.push(place(ty, 0, false))
        }
    }
}

fn go_deeper(tags: &Tags, places: &mut Places) -> Result<(), AllocError>
    ensures { OnOk result (places.new ≡ spec.deeper tags.now places.old) }
{
    let spot = aim(tags, places)?;
    enter(places, spot)
}

/// Goes to the object of which a designator speaks.
pub(crate) fn to_object(
    tags: &Tags,
    designating: bool,
    places: &mut Places,
) -> Result<(), AllocError>
    ensures { OnOk result (places.new ≡ spec.object tags.now designating places.old) }
{
    if designating {
        return go_deeper(tags, places);
    }
    to_list(places);
    Ok(())
}

fn follow(tags: &Tags, places: &mut Places, path: Path) -> Result<(), AllocError>
    ensures { OnOk result (places.new ≡ spec.followed tags.now path places.old) }
{
    let mut left = path;
    let Some(first) = left.pop() else {
        return Ok(());
    };
    next_is(places, first)?;
    while let Some(number) = left.pop() {
        go_deeper(tags, places)?;
        next_is(places, number)?;
    }
    Ok(())
}

fn missed_next(p: &OpenPlace) -> u128
    ensures { result ≡ spec.missed_next p.now }
{
    if has_parts(&p.ty) { p.next } else { 1 }
}

fn miss(places: &mut Places) -> Result<(), AllocError>
    ensures { OnOk result (places.new ≡ spec.missed places.old) }
{
    match places.pop() {
        Some(p) => {
            let next = missed_next(&p);
            places.push(OpenPlace {
                ty: p.ty,
                next,
                braced: p.braced,
                overfull: p.overfull,
            })?;
            places.push(unchecked())
        }
        None => Ok(()),
    }
}

fn is_spent(p: &OpenPlace) -> bool
    ensures { result ≡ spec.is_spent p.now }
{
    !has_parts(&p.ty) && !(p.next == 0)
}

fn standing_in(p: &OpenPlace) -> Standing
    ensures { result ≡ spec.standing_in p.now }
{
    if is_bad(&p.ty) {
        return Standing::Unknown;
    }
    if is_spent(p) {
        return Standing::Spent;
    }
    Standing::Able
}

fn standing(places: &Places) -> Standing
    ensures { result ≡ spec.standing (Stacks.top places.now) }
{
    match places.top() {
        Some(p) => standing_in(p),
        None => Standing::Unlisted,
    }
}

fn too_many(alloc: Global, at: u32, places: &mut Places) -> Result<Option<Fault>, AllocError>
    ensures fault { IfOk result (λ f. f ≡ Accepted.too_many at places.old) }
    ensures places { OnOk result (places.new ≡ P.overfilled places.old) }
{
    let told = overfill(places)?;
    Ok(too_many_if(alloc, at, told))
}

fn path_from(
    alloc: Global,
    tags: &Tags,
    name: &str,
    p: &OpenPlace,
) -> Result<Option<Path>, AllocError>
    ensures { IfOk result (λ o. o ≡ spec.path_from tags.now name.now p.now.next p.now.ty) }
{
    match p.ty.node() {
        Node::Tagged(id) => path(alloc, tags, name, p.next, id),
        _ => Ok(None),
    }
}

fn path_of(
    alloc: Global,
    tags: &Tags,
    name: &str,
    places: &Places,
) -> Result<Option<Path>, AllocError>
    ensures { IfOk result (λ o. o ≡ spec.path_of tags.now name.now (Stacks.top places.now)) }
{
    match places.top() {
        Some(p) => path_from(alloc, tags, name, p),
        None => Ok(None),
    }
}

fn to_member(
    alloc: Global,
    at: u32,
    tags: &Tags,
    name: &str,
    places: &mut Places,
) -> Result<Option<Fault>, AllocError>
    ensures fault { IfOk result (λ f. f ≡ spec.no_path at (spec.path_of tags.now name.now (Stacks.top places.old))) }
    ensures places { OnOk result (places.new ≡ spec.path_or_missed tags.now places.old (spec.path_of tags.now name.now (Stacks.top places.old))) }
{
    let path = path_of(alloc, tags, name, places)?;
    match path {
        Some(path) => {
            follow(tags, places, path)?;
            Ok(None)
        }
        None => {
            miss(places)?;
            Ok(broken(alloc, at, 426))
        }
    }
}

/// A designator of a member, for the object that is open.
pub(crate) fn field(
    alloc: Global,
    at: u32,
    tags: &Tags,
    name: &str,
    places: &mut Places,
) -> Result<Option<Fault>, AllocError>
    ensures fault { IfOk result (λ f. f ≡ spec.field_fault at tags.now name.now places.old) }
    ensures places { OnOk result (places.new ≡ spec.field_places tags.now name.now places.old) }
{
    match standing(places) {
        Standing::Unlisted => Ok(broken(alloc, at, 426)),
        Standing::Unknown => Ok(None),
        Standing::Spent => too_many(alloc, at, places),
        Standing::Able => to_member(alloc, at, tags, name, places),
    }
}

fn has_element(number: u128, extent: Extent) -> bool
    ensures { result ≡ spec.has_element number extent }
{
    match extent {
        Extent::Size(count) => number < count as u128,
        Extent::None => true,
        Extent::Unknown => true,
    }
}

fn element_at(ty: &CType, number: i128) -> Option<u128>
    ensures { result ≡ spec.element_at ty.now number }
{
    match ty.node() {
        Node::Array(_, _, extent) => {
            if number < 0 {
                return None;
            }
            let number = number as u128;
            if has_element(number, *extent) {
                return Some(number);
            }
            None
        }
        _ => None,
    }
}

fn element_of(places: &Places, number: i128) -> Option<u128>
    ensures { result ≡ spec.element_of (Stacks.top places.now) number }
{
    match places.top() {
        Some(p) => element_at(&p.ty, number),
        None => None,
    }
}

fn to_element(
    alloc: Global,
    at: u32,
    number: i128,
    places: &mut Places,
) -> Result<Option<Fault>, AllocError>
    ensures fault { IfOk result (λ f. f ≡ spec.no_element at (spec.element_of (Stacks.top places.old) number)) }
    ensures places { OnOk result (places.new ≡ spec.element_or_missed places.old (spec.element_of (Stacks.top places.old) number)) }
{
    match element_of(places, number) {
        Some(number) => {
            next_is(places, number)?;
            Ok(None)
        }
        None => {
            miss(places)?;
            Ok(broken(alloc, at, 426))
        }
    }
}

fn is_array(ty: &CType) -> bool
    ensures { result ≡ spec.is_array ty.now }
{
    match ty.node() {
        Node::Array(_, _, _) => true,
        _ => false,
    }
}

fn is_in_array(places: &Places) -> bool
    ensures { result ≡ spec.is_in_array (Stacks.top places.now) }
{
    match places.top() {
        Some(p) => is_array(&p.ty),
        None => false,
    }
}

fn to_untold(
    alloc: Global,
    at: u32,
    in_array: bool,
    places: &mut Places,
) -> Result<Option<Fault>, AllocError>
    ensures fault { IfOk result (λ f. f ≡ spec.untold_fault at in_array) }
    ensures places { OnOk result (places.new ≡ spec.untold_places places.old in_array) }
{
    if in_array {
        pass(places)?;
        return Ok(None);
    }
    miss(places)?;
    Ok(broken(alloc, at, 426))
}

fn to_faulty(
    alloc: Global,
    at: u32,
    rule: u16,
    places: &mut Places,
) -> Result<Option<Fault>, AllocError>
    ensures fault { IfOk result (λ f. f ≡ spec.faulty_fault at rule) }
    ensures places { OnOk result (places.new ≡ spec.faulty_places places.old rule) }
{
    if rule == 0 {
        pass(places)?;
        return Ok(None);
    }
    miss(places)?;
    Ok(broken(alloc, at, rule))
}

fn by_value(
    alloc: Global,
    at: u32,
    value: Value,
    places: &mut Places,
) -> Result<Option<Fault>, AllocError>
    ensures fault { IfOk result (λ f. f ≡ spec.value_fault at (Stacks.top places.old) value) }
    ensures places { OnOk result (places.new ≡ spec.value_places places.old value) }
{
    match value {
        Value::Known(number) => to_element(alloc, at, number, places),
        Value::Unknown => to_untold(alloc, at, is_in_array(places), places),
        Value::Faulty(rule) => to_faulty(alloc, at, rule, places),
    }
}

/// A designator of an element, for the object that is open.
pub(crate) fn index(
    alloc: Global,
    at: u32,
    value: Value,
    places: &mut Places,
) -> Result<Option<Fault>, AllocError>
    ensures fault { IfOk result (λ f. f ≡ spec.index_fault at value places.old) }
    ensures places { OnOk result (places.new ≡ spec.index_places value places.old) }
{
    match standing(places) {
        Standing::Unlisted => Ok(broken(alloc, at, 426)),
        Standing::Unknown => Ok(None),
        Standing::Spent => too_many(alloc, at, places),
        Standing::Able => by_value(alloc, at, value, places),
    }
}
