// Sorts of types (ISO C11 6.2.5), as operators and initializers ask for them.
ghost use Rattle.std.specs.Prelude.{◌≡◌};
ghost use Rattle.type_rel.specs.Kinds as spec;

use crate::arithmetic::integer_of;
use type_data::{CType, IntTy, Node, Qual};

/// No qualifiers.
pub const UNQUALIFIED: Qual = Qual {
    is_const: false,
    is_restrict: false,
    is_volatile: false,
};

/// The type of what has a fault.
pub fn is_bad(ty: &CType) -> bool
    ensures { result ≡ spec.is_bad ty.now }
{
    match ty.node() {
        Node::Bad => true,
        _ => false,
    }
}

/// The integer type whose values a type has, of those that are integer types (6.2.5p17); an enumerated type has those of `int`.
pub fn integer_type(ty: &CType) -> Option<IntTy>
    ensures { result ≡ spec.integer_type ty.now }
{
    match ty.node() {
        Node::Basic(basic) => integer_of(*basic),
        Node::Enumerated(_) => Some(IntTy::Int),
        _ => None,
    }
}
