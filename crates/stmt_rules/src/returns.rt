// `return` (ISO C11 6.8.6.4).
ghost use Rattle.std.specs.Prelude.{◌≡◌, IfOk, option_map};
ghost use Rattle.stmt_rules.specs.Returns as spec;

use crate::faults::{fault, fault_of_types};
use std::alloc::{AllocError, Global};
use type_data::{CType, Fault, Judged, Node};
use type_rel::{assignable, converted, is_bad};

fn without_value(alloc: Global, at: u32, ty: &CType) -> Option<Fault>
    ensures { result ≡ spec.without_value at ty.now }
{
    match ty.node() {
        Node::Void => None,
        Node::Bad => None,
        _ => Some(fault(alloc, 614, at)),
    }
}

fn assigned(alloc: Global, at: u32, ty: &CType, value: &Judged) -> Result<Option<Fault>, AllocError>
    ensures { IfOk result (λ f. f ≡ spec.assigned at ty.now value.now) }
{
    if assignable(ty, value) {
        return Ok(None);
    }
    let fault = fault_of_types(alloc, 615, at, &value.ty, ty)?;
    Ok(Some(fault))
}

fn with_value(
    alloc: Global,
    at: u32,
    ty: &CType,
    value: &Judged,
) -> Result<Option<Fault>, AllocError>
    ensures { IfOk result (λ f. f ≡ spec.with_value at ty.now value.now) }
{
    match ty.node() {
        Node::Void => Ok(Some(fault(alloc, 613, at))),
        _ => assigned(alloc, at, ty, value),
    }
}

fn returned(
    alloc: Global,
    at: u32,
    ty: &CType,
    value: Option<&Judged>,
) -> Result<Option<Fault>, AllocError>
    ensures { IfOk result (λ f. f ≡ spec.returned at ty.now (option_map (λ e. e.now) value.entry)) }
{
    match value {
        Some(judged) => {
            if is_bad(&judged.ty) {
                return Ok(None);
            }
            let value = converted(alloc, judged)?;
            with_value(alloc, at, ty, &value)
        }
        None => Ok(without_value(alloc, at, ty)),
    }
}

/// What a `return`, which is `at`, breaks in a function of the given type (ISO C11 6.8.6.4p1, p3): 613 where a value is returned from a
/// function that returns void, 614 where none is returned from another one, 615 where the value, whose type after conversion is printed
/// first, can't be assigned to the type that the function returns. Nothing where the value has a fault of its own, or where the type is no
/// function type, as that of a function with a fault is none. It fails for want of memory alone.
pub fn check_return(
    alloc: Global,
    at: u32,
    function: &CType,
    value: Option<&Judged>,
) -> Result<Option<Fault>, AllocError>
    ensures { IfOk result (λ f. f ≡ spec.return_fault at function.now (option_map (λ e. e.now) value.entry)) }
{
    match function.node() {
        Node::Function(ty, _, _) => returned(alloc, at, ty, value),
        _ => Ok(None),
    }
}
