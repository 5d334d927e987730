// The conditional, assignment and comma operators (ISO C11 6.5.15 to 6.5.17).
ghost use Rattle.std.specs.Prelude.{◌≡◌, ◌≢◌, Err, IfOk};
ghost use Rattle.expr_rules.specs.Assignments as spec;
ghost use Rattle.type_data.specs.declared.judged.CheckError.TheVariants.{NoMemory};

use crate::answers::{refuse_type, refuse_types};
use crate::binary::{are_arithmetic, are_integers, is_moved, is_null_beside, refused};
use crate::constants::choice;
use crate::kinds::{both_quals, is_scalar};
use crate::operands::usual_type;
use c_literals::Op;
use std::alloc::{AllocError, Global};
use type_data::{CType, CheckError, Constancy, Judged, Node, Qual, Tags};
use type_rel::{assignable, compatible, composite, converted, is_void_beside, value};

fn pointers_both(
    alloc: Global,
    t: &CType,
    q: Qual,
    u: &CType,
    r: Qual,
) -> Result<Option<CType>, AllocError>
    ensures { IfOk result (λ ty. ty ≡ spec.pointers_both t.now q u.now r) }
{
    if compatible(t, u) {
        let to = composite(alloc, t, u)?;
        let ty = CType::pointer(alloc, to, both_quals(q, r))?;
        return Ok(Some(ty));
    }
    if is_void_beside(t, u) {
        let ty = CType::pointer(alloc, CType::of(Node::Void), both_quals(q, r))?;
        return Ok(Some(ty));
    }
    Ok(None)
}

fn alike(alloc: Global, a: &CType, b: &CType) -> Result<Option<CType>, AllocError>
    ensures { IfOk result (λ ty. ty ≡ spec.alike a.now b.now) }
{
    match (a.node(), b.node()) {
        (Node::Void, Node::Void) => Ok(Some(CType::of(Node::Void))),
        (Node::Tagged(s), Node::Tagged(t)) => {
            if s == t {
                let id = s.share()?;
                return Ok(Some(CType::of(Node::Tagged(id))));
            }
            Ok(None)
        }
        (Node::Pointer(t, q), Node::Pointer(u, r)) => pointers_both(alloc, t, *q, u, *r),
        _ => Ok(None),
    }
}

fn common(alloc: Global, x: &Judged, y: &Judged) -> Result<Option<CType>, AllocError>
    ensures { IfOk result (λ ty. ty ≡ spec.common x.now y.now) }
{
    if is_null_beside(x.constant, &y.ty) {
        let ty = y.ty.share()?;
        return Ok(Some(ty));
    }
    if is_null_beside(y.constant, &x.ty) {
        let ty = x.ty.share()?;
        return Ok(Some(ty));
    }
    alike(alloc, &x.ty, &y.ty)
}

fn of_common(
    alloc: Global,
    at: u32,
    x: &Judged,
    y: &Judged,
    ty: Option<CType>,
) -> Result<Judged, CheckError>
    ensures { result ≢ Err NoMemory → result ≡ spec.of_common at x.now y.now ty }
{
    match ty {
        Some(ty) => Ok(value(ty, Constancy::No)),
        None => refused(alloc, at, 527, x, y),
    }
}

fn second_and_third(
    alloc: Global,
    at: u32,
    test: Constancy,
    ty: CType,
    x: &Judged,
    y: &Judged,
) -> Result<Judged, CheckError>
    ensures { result ≢ Err NoMemory → result ≡ spec.second_and_third at test ty x.now y.now }
{
    if are_arithmetic(x, y) {
        let constant = choice(&ty, test, x.constant, y.constant);
        return Ok(value(ty, constant));
    }
    drop(ty);
    let Ok(ty) = common(alloc, x, y) else {
        return Err(CheckError::NoMemory);
    };
    of_common(alloc, at, x, y, ty)
}

fn chosen_by(
    alloc: Global,
    at: u32,
    test: &Judged,
    ty: CType,
    x: &Judged,
    y: &Judged,
) -> Result<Judged, CheckError>
    ensures { result ≢ Err NoMemory → result ≡ spec.chosen_by at test.now ty x.now y.now }
{
    if is_scalar(&test.ty) {
        return second_and_third(alloc, at, test.constant, ty, x, y);
    }
    refuse_type(alloc, at, 526, &test.ty)
}

/// `?:`.
pub(crate) fn conditional(
    alloc: Global,
    at: u32,
    test: &Judged,
    x: &Judged,
    y: &Judged,
) -> Result<Judged, CheckError>
    ensures { result ≢ Err NoMemory → result ≡ spec.conditional at test.now x.now y.now }
{
    let Ok(test) = converted(alloc, test) else {
        return Err(CheckError::NoMemory);
    };
    let Ok(second) = converted(alloc, x) else {
        drop(test);
        return Err(CheckError::NoMemory);
    };
    let Ok(third) = converted(alloc, y) else {
        drop(second);
        drop(test);
        return Err(CheckError::NoMemory);
    };
    let ty = usual_type(x, y);
    let chosen = chosen_by(alloc, at, &test, ty, &second, &third);
    drop(third);
    drop(second);
    drop(test);
    chosen
}

pub(crate) fn assigned(alloc: Global, at: u32, ty: &CType, r: &Judged) -> Result<Judged, CheckError>
    ensures { result ≢ Err NoMemory → result ≡ spec.assigned at ty.now r.now }
{
    if !assignable(ty, r) {
        return refuse_types(alloc, at, 528, ty, &r.ty);
    }
    let Ok(ty) = ty.share() else {
        return Err(CheckError::NoMemory);
    };
    Ok(value(ty, Constancy::No))
}

fn accepted(
    alloc: Global,
    at: u32,
    rule: u16,
    holds: bool,
    a: &Judged,
    b: &Judged,
) -> Result<Judged, CheckError>
    ensures { result ≢ Err NoMemory → result ≡ spec.accepted at rule holds a.now b.now }
{
    if !holds {
        return refused(alloc, at, rule, a, b);
    }
    let Ok(ty) = a.ty.share() else {
        return Err(CheckError::NoMemory);
    };
    Ok(value(ty, Constancy::No))
}

fn adds(tags: &Tags, a: &Judged, b: &Judged) -> bool
    ensures { result ≡ spec.adds tags.now a.now b.now }
{
    are_arithmetic(a, b) || is_moved(tags, a, b)
}

pub(crate) fn operated(
    alloc: Global,
    at: u32,
    tags: &Tags,
    op: Op,
    a: &Judged,
    b: &Judged,
) -> Result<Judged, CheckError>
    ensures { result ≢ Err NoMemory → result ≡ spec.operated at tags.now op a.now b.now }
{
    match op {
        Op::Mul => accepted(alloc, at, 519, are_arithmetic(a, b), a, b),
        Op::Div => accepted(alloc, at, 519, are_arithmetic(a, b), a, b),
        Op::Rem => accepted(alloc, at, 519, are_integers(a, b), a, b),
        Op::Add => accepted(alloc, at, 529, adds(tags, a, b), a, b),
        Op::Sub => accepted(alloc, at, 529, adds(tags, a, b), a, b),
        Op::Shl => accepted(alloc, at, 521, are_integers(a, b), a, b),
        Op::Shr => accepted(alloc, at, 521, are_integers(a, b), a, b),
        Op::BitAnd => accepted(alloc, at, 524, are_integers(a, b), a, b),
        Op::BitXor => accepted(alloc, at, 524, are_integers(a, b), a, b),
        Op::BitOr => accepted(alloc, at, 524, are_integers(a, b), a, b),
        Op::Plus => refused(alloc, at, 529, a, b),
        Op::Minus => refused(alloc, at, 529, a, b),
        Op::BitNot => refused(alloc, at, 529, a, b),
        Op::LogNot => refused(alloc, at, 529, a, b),
        Op::Lt => refused(alloc, at, 529, a, b),
        Op::Gt => refused(alloc, at, 529, a, b),
        Op::Le => refused(alloc, at, 529, a, b),
        Op::Ge => refused(alloc, at, 529, a, b),
        Op::Eq => refused(alloc, at, 529, a, b),
        Op::Ne => refused(alloc, at, 529, a, b),
        Op::LogAnd => refused(alloc, at, 529, a, b),
        Op::LogOr => refused(alloc, at, 529, a, b),
    }
}

/// `,`: the right operand's value.
pub(crate) fn comma(alloc: Global, right: &Judged) -> Result<Judged, CheckError>
    ensures { result ≢ Err NoMemory → result ≡ spec.comma right.now }
{
    match converted(alloc, right) {
        Ok(right) => Ok(value(right.ty, Constancy::No)),
        Err(_) => Err(CheckError::NoMemory),
    }
}
