// Compatible types (ISO C11 6.2.7).
ghost use Rattle.std.specs.Prelude.{◌≡◌};
ghost use Rattle.type_rel.specs.Compatible as spec;

use crate::arithmetic::promoted_basic;
use type_data::{Basic, CType, Extent, Node, ParamList, Params, Proto};

fn agrees(a: Extent, b: Extent) -> bool
    ensures { result ≡ spec.agrees a b }
{
    match (a, b) {
        (Extent::Size(m), Extent::Size(n)) => m == n,
        _ => true,
    }
}

fn argument(basic: Basic) -> Basic
    ensures { result ≡ spec.argument basic }
{
    match basic {
        Basic::Float => Basic::Double,
        _ => promoted_basic(basic, None),
    }
}

fn stays(ty: &CType) -> bool
    ensures { result ≡ spec.stays ty.now }
{
    match ty.node() {
        Node::Basic(basic) => *basic == argument(*basic),
        _ => true,
    }
}

fn all_stay(params: &Params) -> bool
    ensures { result ≡ spec.all_stay params.now }
{
    match params.list() {
        ParamList::Empty => true,
        ParamList::First(ty, _, more) => stays(ty) && all_stay(more),
    }
}

/// Whether two types of one unit are compatible (ISO C11 6.2.7p1). An enumerated type is compatible with int, two structures
/// or unions only where they are the same, and a type with a fault with every type. It takes no memory.
#[cycle(compatible)]
pub fn compatible(a: &CType, b: &CType) -> bool
    ensures { result ≡ spec.compatible a.now b.now }
{
    match (a.node(), b.node()) {
        (Node::Bad, _) => true,
        (_, Node::Bad) => true,
        (Node::Void, Node::Void) => true,
        (Node::Basic(a), Node::Basic(b)) => a == b,
        (Node::Enumerated(_), Node::Basic(b)) => *b == Basic::Int,
        (Node::Basic(a), Node::Enumerated(_)) => *a == Basic::Int,
        (Node::Enumerated(a), Node::Enumerated(b)) => a == b,
        (Node::Tagged(a), Node::Tagged(b)) => a == b,
        (Node::Pointer(a, q), Node::Pointer(b, r)) => q == r && compatible(a, b),
        (Node::Array(a, q, m), Node::Array(b, r, n)) => q == r
            && agrees(*m, *n)
            && compatible(a, b),
        (Node::Function(a, ps, p), Node::Function(b, qs, q)) => {
            compatible(a, b) && fitting(*p, *q, ps, qs)
        }
        _ => false,
    }
}

#[cycle(compatible)]
fn fitting(p: Proto, q: Proto, ps: &Params, qs: &Params) -> bool
    ensures { result ≡ spec.fitting p q (spec.all_stay ps.now) (spec.all_stay qs.now) (spec.params_agree ps.now qs.now) }
{
    match (p, q) {
        (Proto::Old, Proto::Old) => true,
        (Proto::Old, Proto::Fixed) => all_stay(qs),
        (Proto::Fixed, Proto::Old) => all_stay(ps),
        (Proto::Fixed, Proto::Fixed) => params_agree(ps, qs),
        (Proto::Variadic, Proto::Variadic) => params_agree(ps, qs),
        _ => false,
    }
}

#[cycle(compatible)]
fn params_agree(ps: &Params, qs: &Params) -> bool
    ensures { result ≡ spec.params_agree ps.now qs.now }
{
    match (ps.list(), qs.list()) {
        (ParamList::Empty, ParamList::Empty) => true,
        (ParamList::First(a, _, ps), ParamList::First(b, _, qs)) => {
            compatible(a, b) && params_agree(ps, qs)
        }
        _ => false,
    }
}
