// Members as operands (ISO C11 6.5.2.3).
ghost use Rattle.std.specs.Prelude.{◌≡◌, ◌≢◌, Err, IfOk, option_map};
ghost use Rattle.expr_rules.specs.Members;
ghost use Rattle.expr_rules.specs.Postfix as spec;
ghost use Rattle.expr_rules.specs.Shown.{shown};
ghost use Rattle.type_data.specs.declared.judged.CheckError.TheVariants.{NoMemory};

use crate::answers::{refuse_name, refuse_type};
use crate::constants::address_if;
use crate::kinds::{both_quals, is_array};
use crate::members::{Found, member};
use shared_text::Name;
use std::alloc::{AllocError, Global};
use type_data::{CType, CheckError, Constancy, Judged, Node, Place, Qual, Tags};
use type_rel::{UNQUALIFIED, converted, has_members};

fn qualified(alloc: Global, ty: &CType, qual: Qual) -> Result<CType, AllocError>
    ensures { IfOk result (λ t. t ≡ Members.qualified ty.now qual) }
{
    match ty.node() {
        Node::Array(of, own, extent) => {
            if is_array(of) {
                let of = qualified(alloc, of, qual)?;
                return CType::array(alloc, of, *own, *extent);
            }
            let of = of.share()?;
            CType::array(alloc, of, both_quals(*own, qual), *extent)
        }
        _ => ty.share(),
    }
}

fn field_place(place: Place, width: Option<u8>) -> Place
    ensures { result ≡ spec.field_place place width }
{
    match place {
        Place::Value => Place::Value,
        Place::Register => match width {
            Some(width) => Place::BitField(width),
            None => Place::Register,
        },
        Place::Object => object_place(width),
        Place::BitField(_) => object_place(width),
        Place::Function => object_place(width),
    }
}

fn object_place(width: Option<u8>) -> Place
    ensures { result ≡ spec.object_place width }
{
    match width {
        Some(width) => Place::BitField(width),
        None => Place::Object,
    }
}

fn field_constant(place: Place, constant: Constancy) -> Constancy
    ensures { result ≡ spec.field_constant place constant }
{
    match place {
        Place::Value => Constancy::No,
        Place::Object => constant,
        Place::BitField(_) => constant,
        Place::Register => constant,
        Place::Function => constant,
    }
}

#[tactic(auto, unfolding(crate::specs::Postfix::field_qual))]
fn field_qual(ty: &CType, qual: Qual) -> Qual
    ensures { result ≡ spec.field_qual ty.now qual }
{
    if is_array(ty) { UNQUALIFIED } else { qual }
}

/// The structure or union of which a member is wanted: its type, and the place, qualifiers and constancy of the whole.
#[derive(Clone, Copy)]
struct Whole<'a> {
    ty: &'a CType,
    place: Place,
    qual: Qual,
    constant: Constancy,
}

fn field(alloc: Global, whole: &Whole<'_>, found: &Found<'_>) -> Result<Judged, AllocError>
    ensures { IfOk result (λ j. j ≡ spec.field whole.now.place whole.now.qual whole.now.constant (shown found.now)) }
{
    let qual = both_quals(whole.qual, found.qual);
    let ty = qualified(alloc, found.ty, qual)?;
    Ok(Judged {
        ty,
        qual: field_qual(found.ty, qual),
        place: field_place(whole.place, found.width),
        constant: field_constant(whole.place, whole.constant),
    })
}

fn field_of(
    alloc: Global,
    at: u32,
    name: &Name,
    whole: &Whole<'_>,
    found: Option<Found<'_>>,
) -> Result<Judged, CheckError>
    ensures { result ≢ Err NoMemory → result ≡ spec.field_of at name.now whole.now.place whole.now.qual whole.now.constant (option_map shown found.entry) }
{
    match found {
        Some(found) => match field(alloc, whole, &found) {
            Ok(field) => Ok(field),
            Err(_) => Err(CheckError::NoMemory),
        },
        None => refuse_name(alloc, at, 509, name),
    }
}

// A member; `printed` is the type that a fault prints.
fn member_of(
    alloc: Global,
    at: u32,
    tags: &Tags,
    name: &Name,
    printed: &CType,
    whole: &Whole<'_>,
) -> Result<Judged, CheckError>
    ensures { result ≢ Err NoMemory → result ≡ spec.member_of at tags.now name.now printed.now whole.now.place whole.now.qual whole.now.constant whole.now.ty.now }
{
    match whole.ty.node() {
        Node::Tagged(id) => {
            if !has_members(tags, id) {
                return refuse_type(alloc, at, 508, printed);
            }
            match member(alloc, tags, name.as_str(), id) {
                Ok(found) => field_of(alloc, at, name, whole, found),
                Err(_) => Err(CheckError::NoMemory),
            }
        }
        _ => refuse_type(alloc, at, 508, printed),
    }
}

/// `.`.
pub(crate) fn dot(
    alloc: Global,
    at: u32,
    tags: &Tags,
    name: &Name,
    e: &Judged,
) -> Result<Judged, CheckError>
    ensures { result ≢ Err NoMemory → result ≡ spec.dot at tags.now name.now e.now }
{
    let Ok(value) = converted(alloc, e) else {
        return Err(CheckError::NoMemory);
    };
    let whole = Whole {
        ty: &e.ty,
        place: e.place,
        qual: e.qual,
        constant: e.constant,
    };
    let judged = member_of(alloc, at, tags, name, &value.ty, &whole);
    drop(value);
    judged
}

fn arrow_from(
    alloc: Global,
    at: u32,
    tags: &Tags,
    name: &Name,
    pointer: &Judged,
) -> Result<Judged, CheckError>
    ensures { result ≢ Err NoMemory → result ≡ spec.arrow_from at tags.now name.now pointer.now.constant pointer.now.ty }
{
    match pointer.ty.node() {
        Node::Pointer(to, qual) => {
            let whole = Whole {
                ty: to,
                place: Place::Object,
                qual: *qual,
                constant: address_if(pointer.constant),
            };
            member_of(alloc, at, tags, name, &pointer.ty, &whole)
        }
        _ => refuse_type(alloc, at, 508, &pointer.ty),
    }
}

/// `->`.
pub(crate) fn arrow(
    alloc: Global,
    at: u32,
    tags: &Tags,
    name: &Name,
    e: &Judged,
) -> Result<Judged, CheckError>
    ensures { result ≢ Err NoMemory → result ≡ spec.arrow at tags.now name.now e.now }
{
    let Ok(pointer) = converted(alloc, e) else {
        return Err(CheckError::NoMemory);
    };
    let judged = arrow_from(alloc, at, tags, name, &pointer);
    drop(pointer);
    judged
}
