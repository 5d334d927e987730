// The conditions of `if` and of loops (ISO C11 6.8.4.1p1, 6.8.5p2).
ghost use Rattle.std.specs.Prelude.{◌≡◌, IfOk};
ghost use Rattle.stmt_rules.specs.Conditions as spec;

use crate::faults::fault_of_type;
use std::alloc::{AllocError, Global};
use type_data::{CType, Fault, Judged, Node};
use type_rel::{converted, is_arithmetic, is_bad};

fn is_pointer(ty: &CType) -> bool
    ensures { result ≡ spec.is_pointer ty.now }
{
    match ty.node() {
        Node::Pointer(_, _) => true,
        _ => false,
    }
}

fn is_scalar(ty: &CType) -> bool
    ensures { result ≡ spec.is_scalar ty.now }
{
    is_arithmetic(ty) || is_pointer(ty)
}

fn tested(alloc: Global, rule: u16, at: u32, ty: &CType) -> Result<Option<Fault>, AllocError>
    ensures { IfOk result (λ f. f ≡ spec.tested rule at ty.now) }
{
    if is_scalar(ty) {
        return Ok(None);
    }
    let fault = fault_of_type(alloc, rule, at, ty)?;
    Ok(Some(fault))
}

fn condition(
    alloc: Global,
    rule: u16,
    at: u32,
    judged: &Judged,
) -> Result<Option<Fault>, AllocError>
    ensures { IfOk result (λ f. f ≡ spec.condition rule at judged.now) }
{
    if is_bad(&judged.ty) {
        return Ok(None);
    }
    let value = converted(alloc, judged)?;
    tested(alloc, rule, at, &value.ty)
}

/// What the condition of an `if`, whose keyword is `at`, breaks (ISO C11 6.8.4.1p1): 603, with its type after conversion, where it isn't
/// scalar; nothing where it has a fault of its own. It fails for want of memory alone.
pub fn check_if(alloc: Global, at: u32, judged: &Judged) -> Result<Option<Fault>, AllocError>
    ensures { IfOk result (λ f. f ≡ spec.condition 603 at judged.now) }
{
    condition(alloc, 603, at, judged)
}

/// What the condition of a loop, whose first token is `at`, breaks (ISO C11 6.8.5p2): 608, with its type after conversion, where it isn't
/// scalar; nothing where it has a fault of its own. It fails for want of memory alone.
pub fn check_loop(alloc: Global, at: u32, judged: &Judged) -> Result<Option<Fault>, AllocError>
    ensures { IfOk result (λ f. f ≡ spec.condition 608 at judged.now) }
{
    condition(alloc, 608, at, judged)
}
