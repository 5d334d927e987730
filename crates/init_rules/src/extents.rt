// How many elements the array that is initialized has got, and its type then (ISO C11 6.7.9p22).
ghost use Rattle.std.specs.Prelude.{◌≡◌, IfOk, option_map};
ghost use Rattle.init_rules.specs.Extents as spec;
ghost use Rattle.init_rules.specs.Stacks;
ghost use Rattle.init_rules.specs.Steps;

use crate::places::{Places, beyond};
use crate::state::InitState;
use std::alloc::{AllocError, Global};
use type_data::{CType, Extent, Node};

fn lesser(m: u128, n: u128) -> u128
    ensures { result ≡ spec.lesser m n }
{
    if m <= n { m } else { n }
}

fn greater(m: u128, n: u128) -> u128
    ensures { result ≡ spec.greater m n }
{
    if m <= n { n } else { m }
}

fn counted(ty: &CType, next: u128) -> u128
    ensures { result ≡ spec.counted ty.now next }
{
    match ty.node() {
        Node::Array(_, _, extent) => match *extent {
            Extent::Size(count) => lesser(next, count as u128),
            Extent::None => next,
            Extent::Unknown => next,
        },
        _ => 0,
    }
}

fn got(places: &Places) -> u128
    ensures { result ≡ spec.got (Stacks.bottom places.now) }
{
    match places.bottom() {
        Some(p) => counted(&p.ty, p.next),
        None => 0,
    }
}

/// Ends a step: notes whether a designation goes on, and how many elements there are; `length` is what a string told of them.
pub(crate) fn end_step(state: &mut InitState, designating: bool, length: u128)
    ensures { state.new ≡ Steps.moved state.old state.old.open_places designating length }
{
    let told = greater(state.reached, length);
    state.reached = greater(told, got(&state.open_places));
    state.designating = designating;
}

#[tactic(auto, unfolding(crate::specs::Places::beyond, crate::specs::Extents::extent_of))]
fn extent_of(count: u128) -> Extent
    ensures { result ≡ spec.extent_of count }
{
    if count == 0 {
        return Extent::None;
    }
    if count < beyond() {
        return Extent::Size(count as u64);
    }
    Extent::Unknown
}

/// The type of the object that an initializer was read for, behind it (ISO C11 6.7.9p22): an array of unknown size has got its
/// elements; where these are more than 2^64-1, a designator of its list has a value that isn't told, or initializers of its list were
/// passed over unchecked, its size isn't told. One that got none is as it was.
pub fn completed(alloc: Global, state: &InitState) -> Result<CType, AllocError>
    ensures { IfOk result (λ t. t ≡ spec.completed state.now) }
{
    match state.ty.node() {
        Node::Array(of, qual, Extent::None) => {
            let of = of.share()?;
            CType::array(alloc, of, *qual, extent_of(state.reached))
        }
        _ => state.ty.share(),
    }
}
