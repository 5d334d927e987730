// Casts (ISO C11 6.5.4).
ghost use Rattle.std.specs.Prelude.{◌≡◌, ◌≢◌, Err};
ghost use Rattle.expr_rules.specs.Casts as spec;
ghost use Rattle.type_rel.specs.Kinds;
ghost use Rattle.type_data.specs.declared.judged.CheckError.TheVariants.{NoMemory};

use crate::answers::refuse_types;
use crate::constants::{address_if, arith_if, brought};
use crate::kinds::{is_floating, is_pointer, is_scalar, is_void};
use std::alloc::Global;
use type_data::{CType, CheckError, Constancy, IntTy, Judged, Node, Qual};
use type_rel::{
    UNQUALIFIED, after_reading, converted, integer_type, is_arith, is_arithmetic, is_told, is_zero,
    value,
};

fn is_castable(to: &CType, from: &CType) -> bool
    ensures { result ≡ spec.is_castable to.now from.now }
{
    is_scalar(to) && is_scalar(from)
}

fn is_barred(to: &CType, from: &CType) -> bool
    ensures { result ≡ spec.is_barred to.now from.now }
{
    (is_pointer(to) && is_floating(from)) || (is_floating(to) && is_pointer(from))
}

fn to_integer(ty: IntTy, c: Constancy) -> Constancy
    ensures { result ≡ spec.to_integer ty c }
{
    match c {
        Constancy::Int(value) => Constancy::Int(brought(ty, value)),
        Constancy::Arith => Constancy::Arith,
        Constancy::No => Constancy::No,
        Constancy::Addr => Constancy::No,
        Constancy::Null => Constancy::No,
    }
}

fn is_void_pointer(to: &CType, qual: Qual) -> bool
    ensures { result ≡ spec.is_void_pointer to.now qual }
{
    is_void(to) && qual == UNQUALIFIED
}

fn to_pointer(to: &CType, qual: Qual, c: Constancy) -> Constancy
    ensures { result ≡ spec.to_pointer to.now qual c }
{
    match c {
        Constancy::Int(value) => {
            if is_zero(value) && is_void_pointer(to, qual) {
                return Constancy::Null;
            }
            if is_told(value) {
                return Constancy::Addr;
            }
            Constancy::No
        }
        Constancy::No => address_if(Constancy::No),
        Constancy::Arith => address_if(Constancy::Arith),
        Constancy::Addr => address_if(Constancy::Addr),
        Constancy::Null => address_if(Constancy::Null),
    }
}

fn cast_constancy(ty: &CType, c: Constancy) -> Constancy
    ensures { result ≡ spec.cast_constancy ty.now (Kinds.integer_type ty.now) c }
{
    match ty.node() {
        Node::Pointer(to, qual) => to_pointer(to, *qual, c),
        _ => match integer_type(ty) {
            Some(integer) => to_integer(integer, c),
            None => arith_if(is_arith(c)),
        },
    }
}

fn cast_operand(e: &Judged, value: &Judged) -> Constancy
    ensures { result ≡ spec.cast_operand e.now value.now }
{
    if is_arithmetic(&e.ty) {
        after_reading(e.place, e.constant)
    } else {
        value.constant
    }
}

fn cast_to(
    alloc: Global,
    at: u32,
    ty: &CType,
    e: &Judged,
    from: &Judged,
) -> Result<Judged, CheckError>
    ensures { result ≢ Err NoMemory → result ≡ spec.cast_to at ty.now e.now from.now }
{
    if !is_castable(ty, &from.ty) {
        return refuse_types(alloc, at, 517, ty, &from.ty);
    }
    if is_barred(ty, &from.ty) {
        return refuse_types(alloc, at, 518, ty, &from.ty);
    }
    let Ok(to) = ty.share() else {
        return Err(CheckError::NoMemory);
    };
    Ok(value(to, cast_constancy(ty, cast_operand(e, from))))
}

/// A cast to this type.
pub(crate) fn cast(alloc: Global, at: u32, ty: &CType, e: &Judged) -> Result<Judged, CheckError>
    ensures { result ≢ Err NoMemory → result ≡ spec.cast at ty.now e.now }
{
    if is_void(ty) {
        return Ok(value(CType::of(Node::Void), Constancy::No));
    }
    let Ok(from) = converted(alloc, e) else {
        return Err(CheckError::NoMemory);
    };
    let judged = cast_to(alloc, at, ty, e, &from);
    drop(from);
    judged
}
