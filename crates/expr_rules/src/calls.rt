// Function calls (ISO C11 6.5.2.2).
ghost use Rattle.std.specs.Prelude.{◌≡◌, ◌≢◌, Err, IfOk};
ghost use Rattle.expr_rules.specs.Postfix as spec;
ghost use Rattle.type_data.specs.declared.judged.CheckError.TheVariants.{NoMemory};

use crate::answers::{refuse, refuse_type, refuse_types};
use crate::kinds::{is_array, is_void};
use std::alloc::{AllocError, Global};
use type_data::{CType, CheckError, Constancy, Judged, Node, ParamList, Params, Proto, Tags};
use type_rel::{assignable, converted, is_complete, value};

// The type of the first parameter to which its argument can't be assigned, and that of the argument.
fn misfit(
    alloc: Global,
    params: &Params,
    args: &[Judged],
) -> Result<Option<(CType, CType)>, AllocError>
    ensures { IfOk result (λ m. m ≡ spec.misfit params.now args.now) }
{
    match params.list() {
        ParamList::Empty => Ok(None),
        ParamList::First(ty, _, more) => {
            let Some((arg, others)) = args.split_first() else {
                return Ok(None);
            };
            let from = converted(alloc, arg)?;
            if assignable(ty, &from) {
                drop(from);
                return misfit(alloc, more, others);
            }
            let Ok(to) = ty.share() else {
                drop(from);
                return Err(AllocError);
            };
            Ok(Some((to, from.ty)))
        }
    }
}

fn misfit_by(
    alloc: Global,
    proto: Proto,
    params: &Params,
    args: &[Judged],
) -> Result<Option<(CType, CType)>, AllocError>
    ensures { IfOk result (λ m. m ≡ spec.misfit_by proto params.now args.now) }
{
    match proto {
        Proto::Old => Ok(None),
        Proto::Fixed => misfit(alloc, params, args),
        Proto::Variadic => misfit(alloc, params, args),
    }
}

fn as_many(params: &Params, args: &[Judged]) -> bool
    ensures { result ≡ spec.as_many params.now args.now }
{
    match params.list() {
        ParamList::Empty => args.is_empty(),
        ParamList::First(_, _, more) => match args.split_first() {
            Some((_, others)) => as_many(more, others),
            None => false,
        },
    }
}

fn as_many_or_more(params: &Params, args: &[Judged]) -> bool
    ensures { result ≡ spec.as_many_or_more params.now args.now }
{
    match params.list() {
        ParamList::Empty => true,
        ParamList::First(_, _, more) => match args.split_first() {
            Some((_, others)) => as_many_or_more(more, others),
            None => false,
        },
    }
}

fn agrees(proto: Proto, params: &Params, args: &[Judged]) -> bool
    ensures { result ≡ spec.agrees proto params.now args.now }
{
    match proto {
        Proto::Old => true,
        Proto::Fixed => as_many(params, args),
        Proto::Variadic => as_many_or_more(params, args),
    }
}

fn is_returnable(tags: &Tags, ty: &CType) -> bool
    ensures { result ≡ spec.is_returnable tags.now ty.now }
{
    is_void(ty) || (is_complete(tags, ty) && !is_array(ty))
}

fn returned(
    alloc: Global,
    at: u32,
    ty: &CType,
    misfit: Option<(CType, CType)>,
) -> Result<Judged, CheckError>
    ensures { result ≢ Err NoMemory → result ≡ spec.returned at ty.now misfit }
{
    match misfit {
        None => {
            let Ok(ty) = ty.share() else {
                return Err(CheckError::NoMemory);
            };
            Ok(value(ty, Constancy::No))
        }
        Some((to, from)) => {
            let refused = refuse_types(alloc, at, 507, &to, &from);
            drop(from);
            drop(to);
            refused
        }
    }
}

fn called_with(
    alloc: Global,
    at: u32,
    ty: &CType,
    params: &Params,
    proto: Proto,
    args: &[Judged],
) -> Result<Judged, CheckError>
    ensures { result ≢ Err NoMemory → result ≡ spec.called_with at ty.now params.now proto args.now }
{
    if !agrees(proto, params, args) {
        return refuse(alloc, at, 506);
    }
    let Ok(misfit) = misfit_by(alloc, proto, params, args) else {
        return Err(CheckError::NoMemory);
    };
    returned(alloc, at, ty, misfit)
}

fn called(
    alloc: Global,
    at: u32,
    tags: &Tags,
    shown: &CType,
    args: &[Judged],
    ty: &CType,
) -> Result<Judged, CheckError>
    ensures { result ≢ Err NoMemory → result ≡ spec.called at tags.now shown.now args.now ty.now }
{
    match ty.node() {
        Node::Function(of, params, proto) => {
            if is_returnable(tags, of) {
                return called_with(alloc, at, of, params, *proto, args);
            }
            refuse_type(alloc, at, 505, shown)
        }
        _ => refuse_type(alloc, at, 505, shown),
    }
}

fn called_by(
    alloc: Global,
    at: u32,
    tags: &Tags,
    args: &[Judged],
    ty: &CType,
) -> Result<Judged, CheckError>
    ensures { result ≢ Err NoMemory → result ≡ spec.called_by at tags.now args.now ty.now }
{
    match ty.node() {
        Node::Pointer(to, _) => called(alloc, at, tags, ty, args, to),
        _ => refuse_type(alloc, at, 505, ty),
    }
}

/// A call of what comes first, with the other parts as arguments.
pub(crate) fn call(
    alloc: Global,
    at: u32,
    tags: &Tags,
    function: &Judged,
    args: &[Judged],
) -> Result<Judged, CheckError>
    ensures { result ≢ Err NoMemory → result ≡ spec.call at tags.now function.now args.now }
{
    let Ok(function) = converted(alloc, function) else {
        return Err(CheckError::NoMemory);
    };
    let judged = called_by(alloc, at, tags, args, &function.ty);
    drop(function);
    judged
}
