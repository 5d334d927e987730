// What an object takes as its initializer (ISO C11 6.7.9p4, p11, p13 to p15).
ghost use Rattle.std.specs.Prelude.{◌≡◌, [], ◌∷◌, IfOk, option_map};
ghost use Rattle.init_rules.specs.Accepted as spec;
ghost use Rattle.init_rules.specs.Stacks;
ghost use Rattle.init_rules.specs.Steps;

use crate::places::Places;
use crate::strings::{is_too_long, takes_text};
use shared_list::Listing;
use std::alloc::{AllocError, Global};
use type_data::{CType, Constancy, Fault, Judged, Node};
use type_rel::{assignable, is_address, is_arith, is_bad};

/// An expression, what it is after its conversion, and whether it is a string literal.
#[derive(Clone, Copy)]
pub(crate) struct Expression<'a> {
    pub judged: &'a Judged,
    pub converted: &'a Judged,
    pub text: bool,
}

/// Where an initializer stands, and whether it must be constant.
#[derive(Clone, Copy)]
pub(crate) struct Setting {
    pub at: u32,
    pub constant: bool,
}

/// A fault whose text prints nothing of the construct.
pub(crate) fn broken(alloc: Global, at: u32, rule: u16) -> Option<Fault>
    ensures { result ≡ spec.broken at rule }
{
    Some(Fault {
        rule,
        at,
        names: Listing::from_vec(Vec::new(alloc)),
        types: Listing::from_vec(Vec::new(alloc)),
    })
}

fn types_of(alloc: Global, ty: &CType, from: &CType) -> Result<Listing<CType>, AllocError>
    ensures { IfOk result (λ types. types ≡ ty.now ∷ from.now ∷ []) }
{
    let ty = ty.share()?;
    let from = from.share()?;
    let types = vec![in alloc; ty, from]?;
    Ok(Listing::from_vec(types))
}

fn mismatched(alloc: Global, at: u32, ty: &CType, from: &CType) -> Result<Option<Fault>, AllocError>
    ensures { IfOk result (λ f. f ≡ spec.mismatched at ty.now from.now) }
{
    let types = types_of(alloc, ty, from)?;
    Ok(Some(Fault {
        rule: 428,
        at,
        names: Listing::from_vec(Vec::new(alloc)),
        types,
    }))
}

/// The fault of a list with too many initializers, where it wasn't told before.
pub(crate) fn too_many_if(alloc: Global, at: u32, told: bool) -> Option<Fault>
    ensures { result ≡ spec.too_many_if at told }
{
    if told {
        return None;
    }
    broken(alloc, at, 425)
}

fn is_constant(constant: Constancy) -> bool
    ensures { result ≡ spec.is_constant constant }
{
    is_arith(constant) || is_address(constant)
}

/// An expression initializes an object of this type as a whole.
pub(crate) fn takes(e: &Expression<'_>, ty: &CType) -> bool
    ensures { result ≡ spec.takes e.now.text e.now.judged.now e.now.converted.now ty.now }
{
    assignable(ty, e.converted) || (e.text && takes_text(ty, &e.judged.ty))
}

/// The fault of a string literal for an array.
pub(crate) fn by_text(alloc: Global, at: u32, ty: &CType, text: &CType) -> Option<Fault>
    ensures { result ≡ spec.by_text at ty.now text.now }
{
    if is_too_long(ty, text) {
        return broken(alloc, at, 425);
    }
    None
}

fn by_value(
    alloc: Global,
    at: u32,
    ty: &CType,
    converted: &Judged,
) -> Result<Option<Fault>, AllocError>
    ensures { IfOk result (λ f. f ≡ spec.by_value at ty.now converted.now) }
{
    if assignable(ty, converted) {
        return Ok(None);
    }
    mismatched(alloc, at, ty, &converted.ty)
}

fn by_type(
    alloc: Global,
    at: u32,
    ty: &CType,
    e: &Expression<'_>,
) -> Result<Option<Fault>, AllocError>
    ensures { IfOk result (λ f. f ≡ spec.by_type at e.now.text ty.now e.now.judged.now e.now.converted.now) }
{
    if e.text && takes_text(ty, &e.judged.ty) {
        return Ok(by_text(alloc, at, ty, &e.judged.ty));
    }
    by_value(alloc, at, ty, e.converted)
}

fn by_constancy(
    alloc: Global,
    setting: Setting,
    ty: &CType,
    e: &Expression<'_>,
) -> Result<Option<Fault>, AllocError>
    ensures { IfOk result (λ f. f ≡ spec.by_constancy setting.at setting.constant e.now.text ty.now e.now.judged.now e.now.converted.now) }
{
    if setting.constant && !is_constant(e.converted.constant) {
        return Ok(broken(alloc, setting.at, 427));
    }
    by_type(alloc, setting.at, ty, e)
}

fn is_faulty(ty: &CType) -> bool
    ensures { result ≡ spec.is_faulty ty.now }
{
    match ty.node() {
        Node::Array(of, _, _) => is_faulty(of),
        Node::Bad => true,
        _ => false,
    }
}

/// The fault of an expression that initializes an object of this type.
pub(crate) fn refused(
    alloc: Global,
    setting: Setting,
    ty: &CType,
    e: &Expression<'_>,
) -> Result<Option<Fault>, AllocError>
    ensures { IfOk result (λ f. f ≡ spec.refused setting.at setting.constant e.now.text ty.now e.now.judged.now e.now.converted.now) }
{
    if is_faulty(ty) || is_bad(&e.judged.ty) {
        return Ok(None);
    }
    by_constancy(alloc, setting, ty, e)
}
