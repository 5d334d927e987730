// A type with further qualifiers (ISO C11 6.7.3p9).
ghost use Rattle.std.specs.Prelude.{◌≡◌, IfOk};
ghost use Rattle.elab_core.specs.Qualified as spec;
ghost use Rattle.expr_rules.specs.Kinds;

use std::alloc::{AllocError, Global};
use type_data::{CType, Node, Qual};
use type_rel::UNQUALIFIED;

/// The qualifiers of both.
#[tactic(auto, unfolding(expr_rules::specs::Kinds::both_quals))]
pub(crate) fn both_quals(a: Qual, b: Qual) -> Qual
    ensures { result ≡ Kinds.both_quals a b }
{
    Qual {
        is_const: a.is_const || b.is_const,
        is_restrict: a.is_restrict || b.is_restrict,
        is_volatile: a.is_volatile || b.is_volatile,
    }
}

/// What is left for the type itself: those of an array are those of its elements, and a function type has none.
pub(crate) fn own_quals(ty: &CType, qual: Qual) -> Qual
    ensures { result ≡ spec.own_quals ty.now qual }
{
    match ty.node() {
        Node::Array(_, _, _) => UNQUALIFIED,
        Node::Function(_, _, _) => UNQUALIFIED,
        Node::Void => qual,
        Node::Basic(_) => qual,
        Node::Enumerated(_) => qual,
        Node::Tagged(_) => qual,
        Node::Pointer(_, _) => qual,
        Node::Bad => qual,
    }
}

/// The type, of an array with elements that have these qualifiers too.
pub(crate) fn qualified(alloc: Global, ty: &CType, qual: Qual) -> Result<CType, AllocError>
    ensures { IfOk result (λ t. t ≡ spec.qualified ty.now qual) }
{
    match ty.node() {
        Node::Array(of, own, extent) => {
            let own = own_quals(of, both_quals(*own, qual));
            let of = qualified(alloc, of, qual)?;
            CType::array(alloc, of, own, *extent)
        }
        _ => ty.share(),
    }
}
