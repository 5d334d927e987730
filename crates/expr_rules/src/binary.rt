// Binary operators (ISO C11 6.5.5 to 6.5.14). Operands are converted ones.
ghost use Rattle.std.specs.Prelude.{◌≡◌, ◌≢◌, Ok, Err};
ghost use Rattle.expr_rules.specs.Binary as spec;
ghost use Rattle.type_data.specs.declared.judged.CheckError.TheVariants.{NoMemory};

use crate::answers::refuse_types;
use crate::constants;
use crate::kinds::{is_integer, is_pointer_to_complete, is_scalar};
use crate::operands::{promoted_type, usual_type};
use c_literals::Op;
use std::alloc::Global;
use type_data::{Basic, CType, CheckError, Constancy, Judged, Node, Tags};
use type_rel::{
    compatible, converted, is_arithmetic, is_complete, is_null_pointer, is_object, is_void_beside,
    value,
};

pub(crate) fn refused(
    alloc: Global,
    at: u32,
    rule: u16,
    a: &Judged,
    b: &Judged,
) -> Result<Judged, CheckError>
    ensures { result ≢ Err NoMemory → result ≡ spec.refused at rule a.now b.now }
{
    refuse_types(alloc, at, rule, &a.ty, &b.ty)
}

pub(crate) fn are_arithmetic(a: &Judged, b: &Judged) -> bool
    ensures { result ≡ spec.are_arithmetic a.now b.now }
{
    is_arithmetic(&a.ty) && is_arithmetic(&b.ty)
}

pub(crate) fn are_integers(a: &Judged, b: &Judged) -> bool
    ensures { result ≡ spec.are_integers a.now b.now }
{
    is_integer(&a.ty) && is_integer(&b.ty)
}

fn usual_value(op: Op, ty: &CType, a: &Judged, b: &Judged) -> Result<Judged, CheckError>
    ensures { result ≢ Err NoMemory → result ≡ Ok (spec.usual_value op ty.now a.now b.now) }
{
    let constant = constants::binary(op, ty, a.constant, b.constant);
    let Ok(ty) = ty.share() else {
        return Err(CheckError::NoMemory);
    };
    Ok(value(ty, constant))
}

fn truth_value(op: Op, ty: &CType, a: &Judged, b: &Judged) -> Judged
    ensures { result ≡ spec.truth_value op ty.now a.now b.now }
{
    let constant = constants::binary(op, ty, a.constant, b.constant);
    value(CType::of(Node::Basic(Basic::Int)), constant)
}

fn int_value() -> Judged
    ensures { result ≡ spec.int_value }
{
    value(CType::of(Node::Basic(Basic::Int)), Constancy::No)
}

fn multiplicative(
    alloc: Global,
    at: u32,
    op: Op,
    ty: &CType,
    a: &Judged,
    b: &Judged,
) -> Result<Judged, CheckError>
    ensures { result ≢ Err NoMemory → result ≡ spec.multiplicative at op ty.now a.now b.now }
{
    if are_arithmetic(a, b) {
        return usual_value(op, ty, a, b);
    }
    refused(alloc, at, 519, a, b)
}

fn remainder(
    alloc: Global,
    at: u32,
    ty: &CType,
    a: &Judged,
    b: &Judged,
) -> Result<Judged, CheckError>
    ensures { result ≢ Err NoMemory → result ≡ spec.remainder at ty.now a.now b.now }
{
    if are_integers(a, b) {
        return usual_value(Op::Rem, ty, a, b);
    }
    refused(alloc, at, 519, a, b)
}

pub(crate) fn is_moved(tags: &Tags, pointer: &Judged, number: &Judged) -> bool
    ensures { result ≡ spec.is_moved tags.now pointer.now number.now }
{
    is_pointer_to_complete(tags, &pointer.ty) && is_integer(&number.ty)
}

fn moved_value(pointer: &Judged, number: &Judged) -> Result<Judged, CheckError>
    ensures { result ≢ Err NoMemory → result ≡ Ok (spec.moved_value pointer.now number.now) }
{
    let Ok(ty) = pointer.ty.share() else {
        return Err(CheckError::NoMemory);
    };
    Ok(value(ty, constants::moved(pointer.constant, number.constant)))
}

fn sum(
    alloc: Global,
    at: u32,
    tags: &Tags,
    ty: &CType,
    a: &Judged,
    b: &Judged,
) -> Result<Judged, CheckError>
    ensures { result ≢ Err NoMemory → result ≡ spec.sum at tags.now ty.now a.now b.now }
{
    if are_arithmetic(a, b) {
        return usual_value(Op::Add, ty, a, b);
    }
    if is_moved(tags, a, b) {
        return moved_value(a, b);
    }
    if is_moved(tags, b, a) {
        return moved_value(b, a);
    }
    refused(alloc, at, 520, a, b)
}

fn are_apart(tags: &Tags, a: &CType, b: &CType) -> bool
    ensures { result ≡ spec.are_apart tags.now a.now b.now }
{
    match (a.node(), b.node()) {
        (Node::Pointer(t, _), Node::Pointer(u, _)) => {
            is_complete(tags, t) && is_complete(tags, u) && compatible(t, u)
        }
        _ => false,
    }
}

fn difference(
    alloc: Global,
    at: u32,
    tags: &Tags,
    ty: &CType,
    a: &Judged,
    b: &Judged,
) -> Result<Judged, CheckError>
    ensures { result ≢ Err NoMemory → result ≡ spec.difference at tags.now ty.now a.now b.now }
{
    if are_arithmetic(a, b) {
        return usual_value(Op::Sub, ty, a, b);
    }
    if is_moved(tags, a, b) {
        return moved_value(a, b);
    }
    if are_apart(tags, &a.ty, &b.ty) {
        return Ok(value(CType::of(Node::Basic(Basic::Long)), Constancy::No));
    }
    refused(alloc, at, 520, a, b)
}

fn shift(
    alloc: Global,
    at: u32,
    op: Op,
    promoted: &CType,
    a: &Judged,
    b: &Judged,
) -> Result<Judged, CheckError>
    ensures { result ≢ Err NoMemory → result ≡ spec.shift at op promoted.now a.now b.now }
{
    if are_integers(a, b) {
        let constant = constants::shift(op, promoted, a.constant, b.constant);
        let Ok(ty) = promoted.share() else {
            return Err(CheckError::NoMemory);
        };
        return Ok(value(ty, constant));
    }
    refused(alloc, at, 521, a, b)
}

fn are_ordered(a: &CType, b: &CType) -> bool
    ensures { result ≡ spec.are_ordered a.now b.now }
{
    match (a.node(), b.node()) {
        (Node::Pointer(t, _), Node::Pointer(u, _)) => {
            is_object(t) && is_object(u) && compatible(t, u)
        }
        _ => false,
    }
}

fn relational(
    alloc: Global,
    at: u32,
    op: Op,
    ty: &CType,
    a: &Judged,
    b: &Judged,
) -> Result<Judged, CheckError>
    ensures { result ≢ Err NoMemory → result ≡ spec.relational at op ty.now a.now b.now }
{
    if are_arithmetic(a, b) {
        return Ok(truth_value(op, ty, a, b));
    }
    if are_ordered(&a.ty, &b.ty) {
        return Ok(int_value());
    }
    refused(alloc, at, 522, a, b)
}

fn are_related(a: &CType, b: &CType) -> bool
    ensures { result ≡ spec.are_related a.now b.now }
{
    match (a.node(), b.node()) {
        (Node::Pointer(t, _), Node::Pointer(u, _)) => compatible(t, u) || is_void_beside(t, u),
        _ => false,
    }
}

pub(crate) fn is_null_beside(constant: Constancy, ty: &CType) -> bool
    ensures { result ≡ spec.is_null_beside constant ty.now }
{
    match ty.node() {
        Node::Pointer(_, _) => is_null_pointer(constant),
        _ => false,
    }
}

fn are_comparable(a: &Judged, b: &Judged) -> bool
    ensures { result ≡ spec.are_comparable a.now b.now }
{
    are_related(&a.ty, &b.ty)
        || is_null_beside(a.constant, &b.ty)
        || is_null_beside(b.constant, &a.ty)
}

fn equality(
    alloc: Global,
    at: u32,
    op: Op,
    ty: &CType,
    a: &Judged,
    b: &Judged,
) -> Result<Judged, CheckError>
    ensures { result ≢ Err NoMemory → result ≡ spec.equality at op ty.now a.now b.now }
{
    if are_arithmetic(a, b) {
        return Ok(truth_value(op, ty, a, b));
    }
    if are_comparable(a, b) {
        return Ok(int_value());
    }
    refused(alloc, at, 523, a, b)
}

fn bitwise(
    alloc: Global,
    at: u32,
    op: Op,
    ty: &CType,
    a: &Judged,
    b: &Judged,
) -> Result<Judged, CheckError>
    ensures { result ≢ Err NoMemory → result ≡ spec.bitwise at op ty.now a.now b.now }
{
    if are_integers(a, b) {
        return usual_value(op, ty, a, b);
    }
    refused(alloc, at, 524, a, b)
}

fn logical(alloc: Global, at: u32, op: Op, a: &Judged, b: &Judged) -> Result<Judged, CheckError>
    ensures { result ≢ Err NoMemory → result ≡ spec.logical at op a.now b.now }
{
    if is_scalar(&a.ty) && is_scalar(&b.ty) {
        let constant = constants::logical(op, a.constant, b.constant);
        return Ok(value(CType::of(Node::Basic(Basic::Int)), constant));
    }
    refused(alloc, at, 525, a, b)
}

/// The types that the promotion of the left operand, and the usual arithmetic conversions, give.
#[derive(Clone, Copy)]
struct Types<'a> {
    promoted: &'a CType,
    usual: &'a CType,
}

fn by_operator(
    alloc: Global,
    at: u32,
    tags: &Tags,
    op: Op,
    types: &Types<'_>,
    a: &Judged,
    b: &Judged,
) -> Result<Judged, CheckError>
    ensures { result ≢ Err NoMemory → result ≡ spec.by_operator at tags.now op types.now.promoted.now types.now.usual.now a.now b.now }
{
    let promoted = types.promoted;
    let usual = types.usual;
    match op {
        Op::Mul => multiplicative(alloc, at, Op::Mul, usual, a, b),
        Op::Div => multiplicative(alloc, at, Op::Div, usual, a, b),
        Op::Rem => remainder(alloc, at, usual, a, b),
        Op::Add => sum(alloc, at, tags, usual, a, b),
        Op::Sub => difference(alloc, at, tags, usual, a, b),
        Op::Shl => shift(alloc, at, Op::Shl, promoted, a, b),
        Op::Shr => shift(alloc, at, Op::Shr, promoted, a, b),
        Op::Lt => relational(alloc, at, Op::Lt, usual, a, b),
        Op::Gt => relational(alloc, at, Op::Gt, usual, a, b),
        Op::Le => relational(alloc, at, Op::Le, usual, a, b),
        Op::Ge => relational(alloc, at, Op::Ge, usual, a, b),
        Op::Eq => equality(alloc, at, Op::Eq, usual, a, b),
        Op::Ne => equality(alloc, at, Op::Ne, usual, a, b),
        Op::BitAnd => bitwise(alloc, at, Op::BitAnd, usual, a, b),
        Op::BitXor => bitwise(alloc, at, Op::BitXor, usual, a, b),
        Op::BitOr => bitwise(alloc, at, Op::BitOr, usual, a, b),
        Op::LogAnd => logical(alloc, at, Op::LogAnd, a, b),
        Op::LogOr => logical(alloc, at, Op::LogOr, a, b),
        Op::Plus => refused(alloc, at, 515, a, b),
        Op::Minus => refused(alloc, at, 515, a, b),
        Op::BitNot => refused(alloc, at, 515, a, b),
        Op::LogNot => refused(alloc, at, 515, a, b),
    }
}

/// A binary operator.
pub(crate) fn binary(
    alloc: Global,
    at: u32,
    tags: &Tags,
    op: Op,
    left: &Judged,
    right: &Judged,
) -> Result<Judged, CheckError>
    ensures { result ≢ Err NoMemory → result ≡ spec.binary at tags.now op left.now right.now }
{
    let Ok(a) = converted(alloc, left) else {
        return Err(CheckError::NoMemory);
    };
    let Ok(b) = converted(alloc, right) else {
        drop(a);
        return Err(CheckError::NoMemory);
    };
    let promoted = promoted_type(left);
    let usual = usual_type(left, right);
    let types = Types {
        promoted: &promoted,
        usual: &usual,
    };
    let judged = by_operator(alloc, at, tags, op, &types, &a, &b);
    drop(usual);
    drop(promoted);
    drop(b);
    drop(a);
    judged
}
