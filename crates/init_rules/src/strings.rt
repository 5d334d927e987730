// String literals as initializers of arrays (ISO C11 6.7.9p14, p15).
ghost use Rattle.std.specs.Prelude.{◌≡◌, IfOk, OnOk, option_map};
ghost use Rattle.init_rules.specs.Stacks;
ghost use Rattle.init_rules.specs.Strings as spec;

use crate::places::Places;
use crate::state::OpenPlace;
use std::alloc::AllocError;
use type_data::{Basic, CType, Extent, Node};
use type_rel::{compatible, is_bad};

fn is_character(ty: &CType) -> bool
    ensures { result ≡ spec.is_character ty.now }
{
    match ty.node() {
        Node::Basic(basic) => {
            *basic == Basic::Char || *basic == Basic::SChar || *basic == Basic::UChar
        }
        _ => false,
    }
}

fn is_char(ty: &CType) -> bool
    ensures { result ≡ spec.is_char ty.now }
{
    match ty.node() {
        Node::Basic(basic) => *basic == Basic::Char,
        _ => false,
    }
}

fn holds_units(ty: &CType, unit: &CType) -> bool
    ensures { result ≡ spec.holds_units ty.now unit.now }
{
    if is_char(unit) {
        return is_character(ty);
    }
    !is_bad(ty) && compatible(ty, unit)
}

/// An array that a string literal of this type may initialize.
pub(crate) fn takes_text(ty: &CType, text: &CType) -> bool
    ensures { result ≡ spec.takes_text ty.now text.now }
{
    match (ty.node(), text.node()) {
        (Node::Array(of, _, _), Node::Array(unit, _, _)) => holds_units(of, unit),
        _ => false,
    }
}

/// An array that it may initialize, for all that is known.
pub(crate) fn may_take_text(ty: &CType, text: &CType) -> bool
    ensures { result ≡ spec.may_take_text ty.now text.now }
{
    match (ty.node(), text.node()) {
        (Node::Array(of, _, _), Node::Array(unit, _, _)) => is_bad(of) || holds_units(of, unit),
        _ => false,
    }
}

/// The elements of an array whose size is told.
pub(crate) fn length_of(ty: &CType) -> u64
    ensures { result ≡ spec.length_of ty.now }
{
    match ty.node() {
        Node::Array(_, _, Extent::Size(count)) => *count,
        _ => 0,
    }
}

/// A string literal that is longer than an array, the zero at its end aside.
pub(crate) fn is_too_long(ty: &CType, text: &CType) -> bool
    ensures { result ≡ spec.is_too_long ty.now text.now }
{
    match ty.node() {
        Node::Array(_, _, Extent::Size(count)) => *count < length_of(text).saturating_sub(1),
        _ => false,
    }
}

fn fills_place(text: &CType, p: &OpenPlace) -> bool
    ensures { result ≡ spec.fills_place text.now p.now }
{
    p.braced && p.next == 0 && takes_text(&p.ty, text)
}

/// A string literal in braces, for a whole array.
pub(crate) fn fills(designating: bool, text: &CType, places: &Places) -> bool
    ensures { result ≡ spec.fills designating text.now (Stacks.top places.now) }
{
    match places.top() {
        Some(p) => !designating && fills_place(text, p),
        None => false,
    }
}

fn is_unit(ty: &CType) -> bool
    ensures { result ≡ spec.is_unit ty.now }
{
    is_character(ty)
        || compatible(ty, &CType::of(Node::Basic(Basic::Int)))
        || compatible(ty, &CType::of(Node::Basic(Basic::UShort)))
        || compatible(ty, &CType::of(Node::Basic(Basic::UInt)))
}

fn is_unsure(text: &CType, ty: &CType) -> bool
    ensures { result ≡ spec.is_unsure text.now ty.now }
{
    match ty.node() {
        Node::Array(of, _, _) => is_bad(of) || (is_bad(text) && is_unit(of)),
        _ => false,
    }
}

fn may_fill_place(text: &CType, p: &OpenPlace) -> bool
    ensures { result ≡ spec.may_fill_place text.now p.now }
{
    p.braced && p.next == 0 && is_unsure(text, &p.ty)
}

/// A string literal in braces of which it isn't known whether it is for the whole array.
pub(crate) fn may_fill(designating: bool, text: &CType, places: &Places) -> bool
    ensures { result ≡ spec.may_fill designating text.now (Stacks.top places.now) }
{
    match places.top() {
        Some(p) => !designating && may_fill_place(text, p),
        None => false,
    }
}

fn outermost_length(text: &CType, round: &Places) -> u64
    ensures { result ≡ spec.outermost_length text.now (Stacks.top round.now) }
{
    match round.top() {
        Some(_) => 0,
        None => length_of(text),
    }
}

/// A string literal of a type, which is `pointer` after its conversion, stands in place of the innermost place's array; answers how
/// many elements it tells.
pub(crate) fn fill(text: &CType, pointer: &CType, places: &mut Places) -> Result<u64, AllocError>
    ensures length { IfOk result (λ n. n ≡ spec.filled_length text.now places.old) }
    ensures places { OnOk result (places.new ≡ spec.filled pointer.now places.old) }
{
    match places.pop() {
        Some(p) => {
            let length = outermost_length(text, places);
            let braced = p.braced;
            let overfull = p.overfull;
            drop(p);
            places.push(OpenPlace {
                ty: pointer.share()?,
                next: 1,
                braced,
                overfull,
            })?;
            Ok(length)
        }
        None => Ok(0),
    }
}
