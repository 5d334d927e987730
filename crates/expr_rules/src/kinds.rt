// Sorts of types (ISO C11 6.2.5), as the operators ask for them.
ghost use Rattle.std.specs.Prelude.{◌≡◌};
ghost use Rattle.expr_rules.specs.Kinds as spec;

use type_data::{CType, Node, Qual, Tags};
use type_rel::{integer_type, is_arithmetic, is_complete};

pub(crate) fn is_void(ty: &CType) -> bool
    ensures { result ≡ spec.is_void ty.now }
{
    match ty.node() {
        Node::Void => true,
        _ => false,
    }
}

pub(crate) fn is_array(ty: &CType) -> bool
    ensures { result ≡ spec.is_array ty.now }
{
    match ty.node() {
        Node::Array(_, _, _) => true,
        _ => false,
    }
}

pub(crate) fn is_function(ty: &CType) -> bool
    ensures { result ≡ spec.is_function ty.now }
{
    match ty.node() {
        Node::Function(_, _, _) => true,
        _ => false,
    }
}

pub(crate) fn is_pointer(ty: &CType) -> bool
    ensures { result ≡ spec.is_pointer ty.now }
{
    match ty.node() {
        Node::Pointer(_, _) => true,
        _ => false,
    }
}

pub(crate) fn is_integer(ty: &CType) -> bool
    ensures { result ≡ spec.is_integer ty.now }
{
    integer_type(ty).is_some()
}

pub(crate) fn is_scalar(ty: &CType) -> bool
    ensures { result ≡ spec.is_scalar ty.now }
{
    is_arithmetic(ty) || is_pointer(ty)
}

pub(crate) fn is_floating(ty: &CType) -> bool
    ensures { result ≡ spec.is_floating ty.now }
{
    is_arithmetic(ty) && !is_integer(ty)
}

pub(crate) fn is_pointer_to_complete(tags: &Tags, ty: &CType) -> bool
    ensures { result ≡ spec.is_pointer_to_complete tags.now ty.now }
{
    match ty.node() {
        Node::Pointer(to, _) => is_complete(tags, to),
        _ => false,
    }
}

#[tactic(auto, unfolding(crate::specs::Kinds::both_quals))]
pub(crate) fn both_quals(q: Qual, r: Qual) -> Qual
    ensures { result ≡ spec.both_quals q r }
{
    Qual {
        is_const: q.is_const || r.is_const,
        is_restrict: q.is_restrict || r.is_restrict,
        is_volatile: q.is_volatile || r.is_volatile,
    }
}
