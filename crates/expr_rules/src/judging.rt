// The row of a construct.
ghost use Rattle.std.specs.Prelude.{◌≡◌, ◌≢◌, Ok, Err};
ghost use Rattle.expr_rules.specs.Judgements as spec;
ghost use Rattle.type_data.specs.declared.judged.CheckError.TheVariants.{NoMemory};

use crate::access::{arrow, dot};
use crate::answers::{bad, refuse};
use crate::assignments::{comma, conditional};
use crate::binary::binary;
use crate::calls::call;
use crate::casts::cast;
use crate::lvalues::{assign, assign_by, stepped};
use crate::offsets::offset_of;
use crate::parts::{Association, Form, Operator};
use crate::postfix::{compound, index};
use crate::primary::{constant, identifier, text};
use crate::selection::generic;
use crate::unary::{address, align_of, dereference, size_of, size_of_expression, unary};
use std::alloc::Global;
use type_data::{CType, CheckError, Judged, Tags};
use type_rel::is_bad;

fn is_bad_association(association: &Association) -> bool
    ensures { result ≡ spec.is_bad_association association.now }
{
    match association {
        Association::Typed(ty, _) => is_bad(ty),
        Association::Default => false,
    }
}

fn state_bad(associations: &[Association]) -> bool
    ensures { result ≡ spec.state_bad associations.now }
{
    associations.iter().any(|a| is_bad_association(a))
}

fn is_bad_type(ty: &Option<CType>) -> bool
    ensures { result ≡ spec.is_bad_type ty.now }
{
    match ty {
        Some(ty) => is_bad(ty),
        None => false,
    }
}

fn states_bad(form: &Form) -> bool
    ensures { result ≡ spec.states_bad form.now }
{
    match form {
        Form::Generic(associations) => state_bad(associations.as_slice()),
        Form::Compound(ty, _, _) => is_bad(ty),
        Form::SizeOf(ty) => is_bad_type(ty),
        Form::AlignOf(ty) => is_bad(ty),
        Form::OffsetOf(ty, _) => is_bad(ty),
        Form::Cast(ty, _) => is_bad(ty),
        _ => false,
    }
}

fn are_bad(parts: &[Judged]) -> bool
    ensures { result ≡ spec.are_bad parts.now }
{
    parts.iter().any(|part| is_bad(&part.ty))
}

fn has_bad(form: &Form, parts: &[Judged]) -> bool
    ensures { result ≡ spec.has_bad form.now parts.now }
{
    states_bad(form) || are_bad(parts)
}

fn same(part: &Judged) -> Result<Judged, CheckError>
    ensures { result ≢ Err NoMemory → result ≡ Ok part.now }
{
    match part.share() {
        Ok(part) => Ok(part),
        Err(_) => Err(CheckError::NoMemory),
    }
}

fn size_of_stated(
    alloc: Global,
    at: u32,
    tags: &Tags,
    ty: &Option<CType>,
) -> Result<Judged, CheckError>
    ensures { result ≢ Err NoMemory → result ≡ spec.size_of_stated at tags.now ty.now }
{
    match ty {
        Some(ty) => size_of(alloc, at, tags, ty, false),
        None => Ok(bad()),
    }
}

fn size_of_part(
    alloc: Global,
    at: u32,
    tags: &Tags,
    ty: &Option<CType>,
    e: &Judged,
) -> Result<Judged, CheckError>
    ensures { result ≢ Err NoMemory → result ≡ spec.size_of_part at tags.now ty.now e.now }
{
    match ty {
        None => size_of_expression(alloc, at, tags, e),
        Some(_) => Ok(bad()),
    }
}

fn of_none(alloc: Global, at: u32, tags: &Tags, form: &Form) -> Result<Judged, CheckError>
    ensures { result ≢ Err NoMemory → result ≡ spec.of_none at tags.now form.now }
{
    match form {
        Form::Ident(name, entity) => identifier(alloc, at, name, entity),
        Form::Constant(literal) => constant(alloc, at, literal),
        Form::Text(literal) => text(alloc, literal),
        Form::BadText(rule) => refuse(alloc, at, *rule),
        Form::Compound(ty, qual, scope) => compound(alloc, at, tags, ty, *qual, *scope),
        Form::SizeOf(ty) => size_of_stated(alloc, at, tags, ty),
        Form::AlignOf(ty) => align_of(alloc, at, tags, ty),
        Form::OffsetOf(ty, designators) => {
            offset_of(alloc, at, tags, ty, designators.as_slice())
        }
        _ => Ok(bad()),
    }
}

fn of_one(
    alloc: Global,
    at: u32,
    tags: &Tags,
    form: &Form,
    e: &Judged,
) -> Result<Judged, CheckError>
    ensures { result ≢ Err NoMemory → result ≡ spec.of_one at tags.now form.now e.now }
{
    match form {
        Form::Paren => same(e),
        Form::Dot(name) => dot(alloc, at, tags, name, e),
        Form::Arrow(name) => arrow(alloc, at, tags, name, e),
        Form::PreInc => stepped(alloc, at, tags, e),
        Form::PreDec => stepped(alloc, at, tags, e),
        Form::PostInc => stepped(alloc, at, tags, e),
        Form::PostDec => stepped(alloc, at, tags, e),
        Form::AddressOf => address(alloc, at, e),
        Form::Deref => dereference(alloc, at, e),
        Form::Unary(op) => unary(alloc, at, *op, e),
        Form::SizeOf(ty) => size_of_part(alloc, at, tags, ty, e),
        Form::Cast(ty, _) => cast(alloc, at, ty, e),
        _ => Ok(bad()),
    }
}

fn of_two(
    alloc: Global,
    at: u32,
    tags: &Tags,
    form: &Form,
    a: &Judged,
    b: &Judged,
) -> Result<Judged, CheckError>
    ensures { result ≢ Err NoMemory → result ≡ spec.of_two at tags.now form.now a.now b.now }
{
    match form {
        Form::Index => index(alloc, at, tags, a, b),
        Form::Binary(op) => binary(alloc, at, tags, *op, a, b),
        Form::Assign => assign(alloc, at, tags, a, b),
        Form::AssignOp(op) => assign_by(alloc, at, tags, *op, a, b),
        Form::Comma => comma(alloc, b),
        _ => Ok(bad()),
    }
}

fn of_three(
    alloc: Global,
    at: u32,
    form: &Form,
    test: &Judged,
    x: &Judged,
    y: &Judged,
) -> Result<Judged, CheckError>
    ensures { result ≢ Err NoMemory → result ≡ spec.of_three at form.now test.now x.now y.now }
{
    match form {
        Form::Conditional => conditional(alloc, at, test, x, y),
        _ => Ok(bad()),
    }
}

fn by_number(
    alloc: Global,
    at: u32,
    tags: &Tags,
    form: &Form,
    parts: &[Judged],
) -> Result<Judged, CheckError>
    ensures { result ≢ Err NoMemory → result ≡ spec.by_number at tags.now form.now parts.now }
{
    let Some((a, rest)) = parts.split_first() else {
        return of_none(alloc, at, tags, form);
    };
    let Some((b, rest)) = rest.split_first() else {
        return of_one(alloc, at, tags, form, a);
    };
    let Some((c, rest)) = rest.split_first() else {
        return of_two(alloc, at, tags, form, a, b);
    };
    let Some(_) = rest.split_first() else {
        return of_three(alloc, at, form, a, b, c);
    };
    Ok(bad())
}

fn call_of(alloc: Global, at: u32, tags: &Tags, parts: &[Judged]) -> Result<Judged, CheckError>
    ensures { result ≢ Err NoMemory → result ≡ spec.call_of at tags.now parts.now }
{
    match parts.split_first() {
        Some((function, args)) => call(alloc, at, tags, function, args),
        None => Ok(bad()),
    }
}

fn generic_of(
    alloc: Global,
    at: u32,
    tags: &Tags,
    associations: &[Association],
    parts: &[Judged],
) -> Result<Judged, CheckError>
    ensures { result ≢ Err NoMemory → result ≡ spec.generic_of at tags.now associations.now parts.now }
{
    match parts.split_first() {
        Some((controlling, others)) => {
            generic(alloc, at, tags, associations, controlling, others)
        }
        None => Ok(bad()),
    }
}

fn row(
    alloc: Global,
    at: u32,
    tags: &Tags,
    form: &Form,
    parts: &[Judged],
) -> Result<Judged, CheckError>
    ensures { result ≢ Err NoMemory → result ≡ spec.row at tags.now form.now parts.now }
{
    match form {
        Form::Call => call_of(alloc, at, tags, parts),
        Form::Generic(associations) => {
            generic_of(alloc, at, tags, associations.as_slice(), parts)
        }
        _ => by_number(alloc, at, tags, form, parts),
    }
}

/// What a construct makes of its judged parts (ISO C11 6.5, 6.6): its type with its own qualifiers, what it designates and what kind
/// of constant it is, where `tags` tells what is known of tags. The parts are its operands, in source order.
///
/// `Broken` has the first rule of the construct's row that is broken, 501 to 529, or that of a bad constant (102, 311 to 315), on
/// the token `at`. What has a faulty part is faulty, and so is a construct with another number of parts than it takes: neither
/// shows anything. A floating constant that stands alone, or in parentheses, has the constancy `Int(Unknown)`: a cast of it to an
/// integer type is an integer constant expression whose value isn't told (6.6p6). `NoMemory` comes where memory is refused.
///
/// Its cost is linear in the parts and the types that it reads and copies, but for these: a member is looked for among those of its
/// structure; what is written to a structure or union costs a look at each member of each tag that it holds by value, once for each
/// tag; and a generic selection compares each pair of its associations (6.5.1.1p2).
pub fn judge(
    alloc: Global,
    operator: &Operator,
    parts: &[Judged],
    tags: &Tags,
) -> Result<Judged, CheckError>
    ensures { result ≢ Err NoMemory → result ≡ spec.judged operator.now parts.now tags.now }
{
    if has_bad(&operator.form, parts) {
        return Ok(bad());
    }
    row(alloc, operator.at, tags, &operator.form, parts)
}
