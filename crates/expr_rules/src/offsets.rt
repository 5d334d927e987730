// The place of a member, along its member-designator (ISO C11 6.5.3.4, 7.19p3).
ghost use Rattle.std.specs.Prelude.{◌≡◌, ◌≢◌, Err};
ghost use Rattle.expr_rules.specs.Unary as spec;
ghost use Rattle.type_data.specs.declared.judged.CheckError.TheVariants.{NoMemory};

use crate::answers::{bad, refuse_name, refuse_type};
use crate::constants::{brought, result_of};
use crate::members::member;
use crate::parts::Designator;
use crate::unary::{size_type, size_value};
use c_literals::Op;
use std::alloc::Global;
use type_data::{CType, CheckError, Constancy, IntTy, Judged, Node, Tags, Value};
use type_rel::{has_members, is_complete, size_align, value};

fn bytes_of(place: Option<u128>) -> Value
    ensures { result ≡ spec.bytes_of place }
{
    match place {
        Some(bits) => Value::Known((bits / 8) as i128),
        None => Value::Unknown,
    }
}

fn plus(offset: Value, more: Value) -> Value
    ensures { result ≡ spec.plus offset more }
{
    result_of(Op::Add, IntTy::ULong, offset, more)
}

fn elements(number: Value, size: Value) -> Value
    ensures { result ≡ spec.elements number size }
{
    result_of(Op::Mul, IntTy::ULong, brought(IntTy::ULong, number), size)
}

fn at_end(
    alloc: Global,
    at: u32,
    ty: &CType,
    offset: Value,
    field: bool,
) -> Result<Judged, CheckError>
    ensures { result ≢ Err NoMemory → result ≡ spec.at_end at ty.now offset field }
{
    if field {
        return refuse_type(alloc, at, 516, ty);
    }
    Ok(value(size_type(), Constancy::Int(offset)))
}

fn offset_from(
    alloc: Global,
    at: u32,
    tags: &Tags,
    designators: &[Designator],
    ty: &CType,
    offset: Value,
    field: bool,
) -> Result<Judged, CheckError>
    ensures { result ≢ Err NoMemory → result ≡ spec.offset_from at tags.now designators.now ty.now offset field }
{
    let Some((designator, others)) = designators.split_first() else {
        return at_end(alloc, at, ty, offset, field);
    };
    match designator {
        Designator::Field(name) => match ty.node() {
            Node::Tagged(id) => {
                if !has_members(tags, id) {
                    return refuse_type(alloc, at, 516, ty);
                }
                let Ok(found) = member(alloc, tags, name.as_str(), id) else {
                    return Err(CheckError::NoMemory);
                };
                let Some(found) = found else {
                    return refuse_name(alloc, at, 509, name);
                };
                let offset = plus(offset, bytes_of(found.place));
                let field = found.width.is_some();
                offset_from(alloc, at, tags, others, found.ty, offset, field)
            }
            Node::Bad => Ok(bad()),
            _ => refuse_name(alloc, at, 509, name),
        },
        Designator::Index(number) => match ty.node() {
            Node::Array(of, _, _) => {
                let size = size_value(size_align(of, tags));
                let offset = plus(offset, elements(*number, size));
                offset_from(alloc, at, tags, others, of, offset, false)
            }
            Node::Bad => Ok(bad()),
            _ => refuse_type(alloc, at, 516, ty),
        },
    }
}

/// `__offsetof`.
pub(crate) fn offset_of(
    alloc: Global,
    at: u32,
    tags: &Tags,
    ty: &CType,
    designators: &[Designator],
) -> Result<Judged, CheckError>
    ensures { result ≢ Err NoMemory → result ≡ spec.offset_of at tags.now ty.now designators.now }
{
    if !is_complete(tags, ty) {
        return refuse_type(alloc, at, 516, ty);
    }
    offset_from(alloc, at, tags, designators, ty, Value::Known(0), false)
}
