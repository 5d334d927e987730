// The places that are open (ISO C11 6.7.9p17, p20).
ghost use Rattle.std.specs.Prelude.{◌≡◌, IfOk, OnOk, option_map};
ghost use Rattle.init_rules.specs.Places as spec;
ghost use Rattle.init_rules.specs.Stacks;

use crate::parts::{after, part_at};
use crate::spots::Spot;
use crate::stack::Stack;
use crate::state::OpenPlace;
use std::alloc::AllocError;
use type_data::{CType, Extent, Node, Tags};
use type_rel::{is_bad, is_open_array};

pub(crate) type Places = Stack<OpenPlace>;

/// An object of this type whose next part has this number.
pub(crate) fn place(ty: CType, next: u128, braced: bool) -> OpenPlace
    ensures { result ≡ spec.place ty next braced }
{
    OpenPlace {
        ty,
        next,
        braced,
        overfull: false,
    }
}

/// A place in which nothing is checked.
pub(crate) fn unchecked() -> OpenPlace
    ensures { result ≡ spec.unchecked }
{
    place(CType::of(Node::Bad), 0, false)
}

fn lacks_part(tags: &Tags, p: &OpenPlace) -> bool
    ensures { result ≡ spec.lacks_part tags.now p.now }
{
    match part_at(tags, false, &p.ty, p.next) {
        Some(_) => false,
        None => true,
    }
}

fn is_done(tags: &Tags, p: &OpenPlace) -> bool
    ensures { result ≡ spec.is_done tags.now p.now }
{
    !p.braced && !is_bad(&p.ty) && lacks_part(tags, p)
}

fn is_top_done(tags: &Tags, places: &Places) -> bool
    ensures { result ≡ spec.is_top_done tags.now (Stacks.top places.now) }
{
    match places.top() {
        Some(p) => is_done(tags, p),
        None => false,
    }
}

/// Leaves the objects that have no part left.
pub(crate) fn settle(tags: &Tags, places: &mut Places)
    ensures { places.new ≡ spec.settled tags.now places.old }
{
    while is_top_done(tags, places) {
        places.pop();
    }
}

/// Leaves them but where an object was designated.
pub(crate) fn to_current(tags: &Tags, designating: bool, places: &mut Places)
    ensures { places.new ≡ spec.current tags.now designating places.old }
{
    if designating {
        return;
    }
    settle(tags, places)
}

fn is_top_unbraced(places: &Places) -> bool
    ensures { result ≡ spec.is_top_unbraced (Stacks.top places.now) }
{
    match places.top() {
        Some(p) => !p.braced,
        None => false,
    }
}

/// Back to the object whose list this is.
pub(crate) fn to_list(places: &mut Places)
    ensures { places.new ≡ spec.listed places.old }
{
    while is_top_unbraced(places) {
        places.pop();
    }
}

/// Behind the closing brace.
pub(crate) fn close(places: &mut Places)
    ensures { places.new ≡ spec.closed places.old }
{
    to_list(places);
    places.pop();
}

/// Gives the innermost place's next part this number.
pub(crate) fn next_is(places: &mut Places, next: u128) -> Result<(), AllocError>
    ensures { OnOk result (places.new ≡ spec.next_is next places.old) }
{
    match places.pop() {
        Some(p) => places.push(OpenPlace {
            ty: p.ty,
            next,
            braced: p.braced,
            overfull: p.overfull,
        }),
        None => Ok(()),
    }
}

/// Goes behind the part with this number.
pub(crate) fn take(places: &mut Places, number: u128) -> Result<(), AllocError>
    ensures { OnOk result (places.new ≡ spec.taken number places.old) }
{
    next_is(places, after(number))
}

fn is_untold(ty: &CType) -> bool
    ensures { result ≡ spec.is_untold ty.now }
{
    match ty.node() {
        Node::Array(_, _, Extent::Unknown) => true,
        _ => false,
    }
}

fn is_lost(designating: bool, p: &OpenPlace) -> bool
    ensures { result ≡ spec.is_lost designating p.now }
{
    is_bad(&p.ty) || (!designating && !p.braced && is_untold(&p.ty) && !(p.next == 0))
}

/// A flexible array member, of which a designator speaks.
pub(crate) fn is_flexible(p: &OpenPlace) -> bool
    ensures { result ≡ spec.is_flexible p.now }
{
    !p.braced && is_open_array(&p.ty)
}

fn spot_in(tags: &Tags, designating: bool, p: &OpenPlace) -> Result<Spot, AllocError>
    ensures { IfOk result (λ s. s ≡ spec.spot_in tags.now designating p.now) }
{
    if is_lost(designating, p) {
        return Ok(Spot::Unchecked);
    }
    if is_flexible(p) {
        return Ok(Spot::Full);
    }
    match part_at(tags, designating, &p.ty, p.next) {
        None => Ok(Spot::Full),
        Some(part) => {
            if is_open_array(part.ty) {
                return Ok(Spot::Full);
            }
            let ty = part.ty.share()?;
            Ok(Spot::At(part.number, ty))
        }
    }
}

/// What the next initializer is for.
pub(crate) fn spot(tags: &Tags, designating: bool, places: &Places) -> Result<Spot, AllocError>
    ensures { IfOk result (λ s. s ≡ spec.spot tags.now designating (Stacks.top places.now)) }
{
    match places.top() {
        Some(p) => spot_in(tags, designating, p),
        None => Ok(Spot::Whole),
    }
}

/// More elements than an array has.
#[tactic(auto, unfolding(crate::specs::Places::beyond))]
pub(crate) fn beyond() -> u128
    ensures { result ≡ spec.beyond }
{
    18_446_744_073_709_551_616
}

/// Passes over what isn't checked: how many parts the list is for isn't told.
pub(crate) fn pass(places: &mut Places) -> Result<(), AllocError>
    ensures { OnOk result (places.new ≡ spec.passed places.old) }
{
    to_list(places);
    match places.pop() {
        Some(p) => {
            places.push(OpenPlace {
                ty: p.ty,
                next: beyond(),
                braced: p.braced,
                overfull: p.overfull,
            })?;
            places.push(unchecked())
        }
        None => Ok(()),
    }
}

/// Notes that it was told of a list that it has too many initializers, and answers whether it was told before.
pub(crate) fn overfill(places: &mut Places) -> Result<bool, AllocError>
    ensures told { IfOk result (λ b. b ≡ spec.is_told places.old) }
    ensures places { OnOk result (places.new ≡ spec.overfilled places.old) }
{
    to_list(places);
    match places.pop() {
        Some(p) => {
            let told = p.overfull;
            places.push(OpenPlace {
                ty: p.ty,
                next: p.next,
                braced: p.braced,
                overfull: true,
            })?;
            places.push(unchecked())?;
            Ok(told)
        }
        None => Ok(false),
    }
}
