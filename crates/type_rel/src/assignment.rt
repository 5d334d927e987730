// Simple assignment (ISO C11 6.5.16.1).
ghost use Rattle.std.specs.Prelude.{◌≡◌};
ghost use Rattle.type_rel.specs.Assignable as spec;

use crate::compatibility::compatible;
use type_data::{Basic, CType, Constancy, Judged, Node, Qual, Value};

/// An integer or floating type (6.2.5p18).
pub fn is_arithmetic(ty: &CType) -> bool
    ensures { result ≡ spec.is_arithmetic ty.now }
{
    match ty.node() {
        Node::Basic(_) => true,
        Node::Enumerated(_) => true,
        _ => false,
    }
}

#[tactic(auto, unfolding(crate::specs::Assignable::includes))]
fn includes(q: Qual, r: Qual) -> bool
    ensures { result ≡ spec.includes q r }
{
    (q.is_const || !r.is_const)
        && (q.is_restrict || !r.is_restrict)
        && (q.is_volatile || !r.is_volatile)
}

/// No function type (6.2.5p1).
pub fn is_object(ty: &CType) -> bool
    ensures { result ≡ spec.is_object ty.now }
{
    match ty.node() {
        Node::Function(_, _, _) => false,
        _ => true,
    }
}

/// One of two types is void, and the other an object type.
pub fn is_void_beside(t: &CType, u: &CType) -> bool
    ensures { result ≡ spec.is_void_beside t.now u.now }
{
    match (t.node(), u.node()) {
        (Node::Void, _) => is_object(u),
        (_, Node::Void) => is_object(t),
        _ => false,
    }
}

/// It is 0, or its value isn't told.
pub fn is_zero(value: Value) -> bool
    ensures { result ≡ spec.is_zero value }
{
    match value {
        Value::Known(number) => number == 0,
        Value::Unknown => true,
        Value::Faulty(_) => false,
    }
}

/// A null pointer constant (6.3.2.3p3), as far as its constancy tells: an integer constant expression with the value 0, or such a
/// one cast to `void *`.
pub fn is_null_pointer(constant: Constancy) -> bool
    ensures { result ≡ spec.is_null_pointer constant }
{
    match constant {
        Constancy::Int(value) => is_zero(value),
        Constancy::Null => true,
        _ => false,
    }
}

fn points(t: &CType, q: Qual, u: &CType, r: Qual) -> bool
    ensures { result ≡ spec.points t.now q u.now r }
{
    includes(q, r) && (compatible(t, u) || is_void_beside(t, u))
}

/// Whether a value may be assigned to an object of a type (ISO C11 6.5.16.1p1), whatever the object's own qualifiers. A value
/// that isn't told passes as a null pointer constant, and a type with a fault as every type. It takes no memory.
pub fn assignable(to: &CType, from: &Judged) -> bool
    ensures { result ≡ spec.assignable to.now from.now }
{
    match (to.node(), from.ty.node()) {
        (Node::Bad, _) => true,
        (_, Node::Bad) => true,
        (Node::Enumerated(_), _) => is_arithmetic(&from.ty),
        (Node::Tagged(a), Node::Tagged(b)) => a == b,
        (Node::Pointer(t, q), Node::Pointer(u, r)) => {
            points(t, *q, u, *r) || is_null_pointer(from.constant)
        }
        (Node::Pointer(_, _), _) => is_null_pointer(from.constant),
        (Node::Basic(basic), Node::Pointer(_, _)) => *basic == Basic::Bool,
        (Node::Basic(_), _) => is_arithmetic(&from.ty),
        _ => false,
    }
}
