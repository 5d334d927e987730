// Modifiable lvalues (ISO C11 6.3.2.1p1), and what is done to them (6.5.2.4, 6.5.3.1, 6.5.16).
ghost use Rattle.std.specs.Prelude.{◌≡◌, ◌≢◌, Err, IfOk};
ghost use Rattle.expr_rules.specs.Assignments;
ghost use Rattle.expr_rules.specs.Postfix as spec;
ghost use Rattle.type_data.specs.declared.judged.CheckError.TheVariants.{NoMemory};

use crate::answers::refuse_type;
use crate::assignments::{assigned, operated};
use crate::kinds::{is_array, is_pointer_to_complete};
use crate::reached::has_const;
use c_literals::Op;
use std::alloc::{AllocError, Global};
use type_data::{CType, CheckError, Constancy, Judged, Place, Tags};
use type_rel::{converted, is_arithmetic, is_complete, value};

fn is_lvalue(place: Place) -> bool
    ensures { result ≡ spec.is_lvalue place }
{
    match place {
        Place::Object => true,
        Place::BitField(_) => true,
        Place::Register => true,
        Place::Value => false,
        Place::Function => false,
    }
}

fn is_modifiable(alloc: Global, tags: &Tags, e: &Judged) -> Result<bool, AllocError>
    ensures { IfOk result (λ b. b ≡ spec.is_modifiable tags.now e.now) }
{
    if !(is_lvalue(e.place) && !is_array(&e.ty) && is_complete(tags, &e.ty) && !e.qual.is_const) {
        return Ok(false);
    }
    let has = has_const(alloc, tags, &e.ty)?;
    Ok(!has)
}

fn steps(tags: &Tags, ty: &CType) -> bool
    ensures { result ≡ spec.steps tags.now ty.now }
{
    is_arithmetic(ty) || is_pointer_to_complete(tags, ty)
}

/// `++` and `--`.
pub(crate) fn stepped(alloc: Global, at: u32, tags: &Tags, e: &Judged) -> Result<Judged, CheckError>
    ensures { result ≢ Err NoMemory → result ≡ spec.stepped at tags.now e.now }
{
    let Ok(operand) = converted(alloc, e) else {
        return Err(CheckError::NoMemory);
    };
    if !steps(tags, &operand.ty) {
        let refused = refuse_type(alloc, at, 510, &operand.ty);
        drop(operand);
        return refused;
    }
    drop(operand);
    let Ok(modifiable) = is_modifiable(alloc, tags, e) else {
        return Err(CheckError::NoMemory);
    };
    if !modifiable {
        return refuse_type(alloc, at, 511, &e.ty);
    }
    let Ok(ty) = e.ty.share() else {
        return Err(CheckError::NoMemory);
    };
    Ok(value(ty, Constancy::No))
}

/// `=`.
pub(crate) fn assign(
    alloc: Global,
    at: u32,
    tags: &Tags,
    left: &Judged,
    right: &Judged,
) -> Result<Judged, CheckError>
    ensures { result ≢ Err NoMemory → result ≡ Assignments.assign at tags.now left.now right.now }
{
    let Ok(modifiable) = is_modifiable(alloc, tags, left) else {
        return Err(CheckError::NoMemory);
    };
    if !modifiable {
        return refuse_type(alloc, at, 511, &left.ty);
    }
    let Ok(right) = converted(alloc, right) else {
        return Err(CheckError::NoMemory);
    };
    let judged = assigned(alloc, at, &left.ty, &right);
    drop(right);
    judged
}

/// `op=`.
pub(crate) fn assign_by(
    alloc: Global,
    at: u32,
    tags: &Tags,
    op: Op,
    left: &Judged,
    right: &Judged,
) -> Result<Judged, CheckError>
    ensures { result ≢ Err NoMemory → result ≡ Assignments.assign_by at tags.now op left.now right.now }
{
    let Ok(modifiable) = is_modifiable(alloc, tags, left) else {
        return Err(CheckError::NoMemory);
    };
    if !modifiable {
        return refuse_type(alloc, at, 511, &left.ty);
    }
    let Ok(a) = converted(alloc, left) else {
        return Err(CheckError::NoMemory);
    };
    let Ok(b) = converted(alloc, right) else {
        drop(a);
        return Err(CheckError::NoMemory);
    };
    let judged = operated(alloc, at, tags, op, &a, &b);
    drop(b);
    drop(a);
    judged
}
