// Unary operators (ISO C11 6.5.3), `++`, `--` and `__offsetof` aside.
ghost use Rattle.std.specs.Prelude.{◌≡◌, ◌≢◌, Err, option_map};
ghost use Rattle.type_rel.specs.Sizes.{size_align};
ghost use Rattle.expr_rules.specs.Unary as spec;
ghost use Rattle.type_data.specs.declared.judged.CheckError.TheVariants.{NoMemory};

use crate::answers::refuse_type;
use crate::constants;
use crate::constants::address_if;
use crate::kinds::{is_integer, is_pointer, is_scalar};
use crate::operands::promoted_type;
use crate::postfix::pointed;
use c_literals::Op;
use std::alloc::Global;
use type_data::{Basic, CType, CheckError, Constancy, Judged, Node, Place, Tags, Value};
use type_rel::{converted, is_arithmetic, is_complete, size_align, value};

fn has_address(place: Place) -> bool
    ensures { result ≡ spec.has_address place }
{
    match place {
        Place::Object => true,
        Place::Function => true,
        Place::Value => false,
        Place::BitField(_) => false,
        Place::Register => false,
    }
}

/// `&`.
pub(crate) fn address(alloc: Global, at: u32, e: &Judged) -> Result<Judged, CheckError>
    ensures { result ≢ Err NoMemory → result ≡ spec.address at e.now }
{
    if !has_address(e.place) {
        return refuse_type(alloc, at, 513, &e.ty);
    }
    let Ok(to) = e.ty.share() else {
        return Err(CheckError::NoMemory);
    };
    let Ok(ty) = CType::pointer(alloc, to, e.qual) else {
        return Err(CheckError::NoMemory);
    };
    Ok(value(ty, address_if(e.constant)))
}

fn dereferenced(alloc: Global, at: u32, e: &Judged) -> Result<Judged, CheckError>
    ensures { result ≢ Err NoMemory → result ≡ spec.dereferenced at e.now }
{
    if is_pointer(&e.ty) {
        return pointed(&e.ty, address_if(e.constant));
    }
    refuse_type(alloc, at, 514, &e.ty)
}

/// Unary `*`.
pub(crate) fn dereference(alloc: Global, at: u32, e: &Judged) -> Result<Judged, CheckError>
    ensures { result ≢ Err NoMemory → result ≡ spec.dereference at e.now }
{
    let Ok(e) = converted(alloc, e) else {
        return Err(CheckError::NoMemory);
    };
    let judged = dereferenced(alloc, at, &e);
    drop(e);
    judged
}

fn takes(op: Op, ty: &CType) -> bool
    ensures { result ≡ spec.takes op ty.now }
{
    match op {
        Op::Plus => is_arithmetic(ty),
        Op::Minus => is_arithmetic(ty),
        Op::BitNot => is_integer(ty),
        Op::LogNot => is_scalar(ty),
        Op::Mul => false,
        Op::Div => false,
        Op::Rem => false,
        Op::Add => false,
        Op::Sub => false,
        Op::Shl => false,
        Op::Shr => false,
        Op::Lt => false,
        Op::Gt => false,
        Op::Le => false,
        Op::Ge => false,
        Op::Eq => false,
        Op::Ne => false,
        Op::BitAnd => false,
        Op::BitXor => false,
        Op::BitOr => false,
        Op::LogAnd => false,
        Op::LogOr => false,
    }
}

fn unary_type(op: Op, promoted: CType) -> CType
    ensures { result ≡ spec.unary_type op promoted }
{
    match op {
        Op::LogNot => {
            drop(promoted);
            CType::of(Node::Basic(Basic::Int))
        }
        Op::Plus => promoted,
        Op::Minus => promoted,
        Op::BitNot => promoted,
        Op::Mul => promoted,
        Op::Div => promoted,
        Op::Rem => promoted,
        Op::Add => promoted,
        Op::Sub => promoted,
        Op::Shl => promoted,
        Op::Shr => promoted,
        Op::Lt => promoted,
        Op::Gt => promoted,
        Op::Le => promoted,
        Op::Ge => promoted,
        Op::Eq => promoted,
        Op::Ne => promoted,
        Op::BitAnd => promoted,
        Op::BitXor => promoted,
        Op::BitOr => promoted,
        Op::LogAnd => promoted,
        Op::LogOr => promoted,
    }
}

fn unary_by(
    alloc: Global,
    at: u32,
    op: Op,
    promoted: CType,
    e: &Judged,
) -> Result<Judged, CheckError>
    ensures { result ≢ Err NoMemory → result ≡ spec.unary_by at op promoted e.now }
{
    if takes(op, &e.ty) {
        let constant = constants::unary(op, &promoted, e.constant);
        return Ok(value(unary_type(op, promoted), constant));
    }
    drop(promoted);
    refuse_type(alloc, at, 515, &e.ty)
}

/// `+`, `-`, `~` and `!`.
pub(crate) fn unary(alloc: Global, at: u32, op: Op, e: &Judged) -> Result<Judged, CheckError>
    ensures { result ≢ Err NoMemory → result ≡ spec.unary at op e.now }
{
    let Ok(operand) = converted(alloc, e) else {
        return Err(CheckError::NoMemory);
    };
    let judged = unary_by(alloc, at, op, promoted_type(e), &operand);
    drop(operand);
    judged
}

/// The type size_t.
pub(crate) fn size_type() -> CType
    ensures { result ≡ spec.size_type }
{
    CType::of(Node::Basic(Basic::ULong))
}

pub(crate) fn size_value(size: Option<(u64, u64)>) -> Value
    ensures { result ≡ spec.size_value size }
{
    match size {
        Some((size, _)) => Value::Known(size as i128),
        None => Value::Unknown,
    }
}

fn is_bit_field(place: Place) -> bool
    ensures { result ≡ spec.is_bit_field place }
{
    match place {
        Place::BitField(_) => true,
        Place::Value => false,
        Place::Object => false,
        Place::Register => false,
        Place::Function => false,
    }
}

/// `sizeof` of a type, or of a bit-field of it.
pub(crate) fn size_of(
    alloc: Global,
    at: u32,
    tags: &Tags,
    ty: &CType,
    field: bool,
) -> Result<Judged, CheckError>
    ensures { result ≢ Err NoMemory → result ≡ spec.size_of at tags.now ty.now field }
{
    if is_complete(tags, ty) && !field {
        return Ok(value(
            size_type(),
            Constancy::Int(size_value(size_align(ty, tags))),
        ));
    }
    refuse_type(alloc, at, 516, ty)
}

/// `sizeof` of an expression.
pub(crate) fn size_of_expression(
    alloc: Global,
    at: u32,
    tags: &Tags,
    e: &Judged,
) -> Result<Judged, CheckError>
    ensures { result ≢ Err NoMemory → result ≡ spec.size_of_expression at tags.now e.now }
{
    size_of(alloc, at, tags, &e.ty, is_bit_field(e.place))
}

fn align_value(size: Option<(u64, u64)>) -> Value
    ensures { result ≡ spec.align_value size }
{
    match size {
        Some((_, align)) => Value::Known(align as i128),
        None => Value::Unknown,
    }
}

fn alignment(tags: &Tags, ty: &CType) -> Value
    ensures { result ≡ spec.alignment tags.now ty.now }
{
    match ty.node() {
        Node::Array(of, _, _) => alignment(tags, of),
        _ => align_value(size_align(ty, tags)),
    }
}

/// `_Alignof`.
pub(crate) fn align_of(
    alloc: Global,
    at: u32,
    tags: &Tags,
    ty: &CType,
) -> Result<Judged, CheckError>
    ensures { result ≢ Err NoMemory → result ≡ spec.align_of at tags.now ty.now }
{
    if is_complete(tags, ty) {
        return Ok(value(size_type(), Constancy::Int(alignment(tags, ty))));
    }
    refuse_type(alloc, at, 516, ty)
}
