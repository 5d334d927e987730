// Composite types (ISO C11 6.2.7).
ghost use Rattle.std.specs.Prelude.{◌≡◌, IfOk, IsTrue};
ghost use Rattle.type_rel.specs.Compatible;
ghost use Rattle.type_rel.specs.Composite as spec;

use std::alloc::{AllocError, Global};
use type_data::{CType, Extent, Node, ParamList, Params, Proto};

fn sized(m: Extent, n: Extent) -> Extent
    ensures { result ≡ spec.sized m n }
{
    match m {
        Extent::Size(size) => Extent::Size(size),
        Extent::Unknown => match n {
            Extent::Size(size) => Extent::Size(size),
            Extent::Unknown => Extent::Unknown,
            Extent::None => Extent::Unknown,
        },
        Extent::None => n,
    }
}

fn prototype(p: Proto, q: Proto) -> Proto
    ensures { result ≡ spec.prototype p q }
{
    match p {
        Proto::Old => q,
        Proto::Fixed => Proto::Fixed,
        Proto::Variadic => Proto::Variadic,
    }
}

/// The composite type of two compatible types (ISO C11 6.2.7p3). Of an enumerated type and int it is the first one, of array
/// types with a known, an untold and no size the first of these; parameters have their own qualifiers from the first type.
#[cycle(composite)]
pub fn composite(alloc: Global, a: &CType, b: &CType) -> Result<CType, AllocError>
    ensures { IfOk result (λ t. t ≡ spec.composite a.now b.now) }
{
    match (a.node(), b.node()) {
        (Node::Pointer(t, q), Node::Pointer(u, _)) => {
            let to = composite(alloc, t, u)?;
            CType::pointer(alloc, to, *q)
        }
        (Node::Array(t, q, m), Node::Array(u, _, n)) => {
            let of = composite(alloc, t, u)?;
            CType::array(alloc, of, *q, sized(*m, *n))
        }
        (Node::Function(t, ps, p), Node::Function(u, qs, q)) => {
            let returned = composite(alloc, t, u)?;
            let params = listed(alloc, *p, *q, ps, qs)?;
            CType::function(alloc, returned, params, prototype(*p, *q))
        }
        (_, Node::Bad) => Ok(CType::of(Node::Bad)),
        _ => a.share(),
    }
}

#[cycle(composite)]
fn listed(alloc: Global, p: Proto, q: Proto, ps: &Params, qs: &Params) -> Result<Params, AllocError>
    ensures { IfOk result (λ r. r ≡ spec.listed p q ps.now qs.now (spec.params_composite ps.now qs.now)) }
{
    match (p, q) {
        (Proto::Old, Proto::Old) => ps.share(),
        (Proto::Old, _) => qs.share(),
        (_, Proto::Old) => ps.share(),
        _ => params_composite(alloc, ps, qs),
    }
}

#[cycle(composite)]
fn params_composite(alloc: Global, ps: &Params, qs: &Params) -> Result<Params, AllocError>
    ensures { IfOk result (λ r. r ≡ spec.params_composite ps.now qs.now) }
{
    match (ps.list(), qs.list()) {
        (ParamList::First(t, q, more), ParamList::First(u, _, others)) => {
            let ty = composite(alloc, t, u)?;
            let rest = params_composite(alloc, more, others)?;
            Params::first(alloc, ty, *q, rest)
        }
        _ => ps.share(),
    }
}
