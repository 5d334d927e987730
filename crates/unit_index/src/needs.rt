// What types of two units need for being compatible (ISO C11 6.2.7).
ghost use Rattle.std.specs.Prelude.{◌≡◌, IfOk};
ghost use Rattle.type_data.specs.Same.{same_basic};
ghost use Rattle.type_rel.specs.Compatible as within;
ghost use Rattle.unit_index.specs.Needs as spec;
ghost use Rattle.unit_index.specs.Needs.{Needed, noted, provided};
ghost use Rattle.unit_index.specs.Pairs as tags;

use crate::pairs::Pairs;
use std::alloc::AllocError;
use type_data::{Basic, CType, Extent, Node, ParamList, Params, Proto, TagId, TagKind};

fn agree(a: Extent, b: Extent) -> bool
    ensures { result ≡ within.agrees a b }
{
    match (a, b) {
        (Extent::Size(m), Extent::Size(n)) => m == n,
        _ => true,
    }
}

// Whether the default argument promotions leave it as it is.
#[tactic(auto, unfolding(type_rel::specs::Arithmetic::fits_int, type_rel::specs::Arithmetic::promoted_integer))]
fn stays(basic: Basic) -> bool
    ensures { result ≡ same_basic basic (within.argument basic) }
{
    match basic {
        Basic::Bool => false,
        Basic::Char => false,
        Basic::SChar => false,
        Basic::UChar => false,
        Basic::Short => false,
        Basic::UShort => false,
        Basic::Int => true,
        Basic::UInt => true,
        Basic::Long => true,
        Basic::ULong => true,
        Basic::LongLong => true,
        Basic::ULongLong => true,
        Basic::Float => false,
        Basic::Double => true,
        Basic::LongDouble => true,
    }
}

fn type_stays(ty: &CType) -> bool
    ensures { result ≡ within.stays ty.now }
{
    match ty.node() {
        Node::Basic(basic) => stays(*basic),
        _ => true,
    }
}

fn all_stay(params: &Params) -> bool
    ensures { result ≡ within.all_stay params.now }
{
    match params.list() {
        ParamList::Empty => true,
        ParamList::First(ty, _, more) => type_stays(ty) && all_stay(more),
    }
}

fn note_tags(pairs: &mut Pairs, kind: TagKind, a: &TagId, b: &TagId) -> Result<bool, AllocError>
    ensures { IfOk result (λ fits. (more : Needed) → noted pairs.old (spec.with_pair (tags.pair kind a.now b.now) more) ≡ provided fits (noted pairs.new more)) }
{
    pairs.note(kind, a, b)?;
    Ok(true)
}

/// Whether two types may be compatible. If so, comes to the pairs of tags that they need.
#[cycle(noting)]
pub(crate) fn note_types(pairs: &mut Pairs, a: &CType, b: &CType) -> Result<bool, AllocError>
    ensures { IfOk result (λ fits. (more : Needed) → noted pairs.old (spec.needs a.now b.now more) ≡ provided fits (noted pairs.new more)) }
{
    match (a.node(), b.node()) {
        (Node::Bad, _) => Ok(true),
        (_, Node::Bad) => Ok(true),
        (Node::Void, Node::Void) => Ok(true),
        (Node::Basic(a), Node::Basic(b)) => Ok(a == b),
        (Node::Enumerated(_), Node::Basic(b)) => Ok(*b == Basic::Int),
        (Node::Basic(a), Node::Enumerated(_)) => Ok(*a == Basic::Int),
        (Node::Enumerated(a), Node::Enumerated(b)) => note_tags(pairs, TagKind::Enum, a, b),
        (Node::Tagged(a), Node::Tagged(b)) => note_tags(pairs, TagKind::Struct, a, b),
        (Node::Pointer(a, q), Node::Pointer(b, r)) => {
            if q == r {
                return note_types(pairs, a, b);
            }
            Ok(false)
        }
        (Node::Array(a, q, m), Node::Array(b, r, n)) => {
            if q == r && agree(*m, *n) {
                return note_types(pairs, a, b);
            }
            Ok(false)
        }
        (Node::Function(a, xs, p), Node::Function(b, ys, q)) => {
            if note_types(pairs, a, b)? {
                return note_fitting(pairs, *p, *q, xs, ys);
            }
            Ok(false)
        }
        _ => Ok(false),
    }
}

#[cycle(noting)]
fn note_fitting(
    pairs: &mut Pairs,
    p: Proto,
    q: Proto,
    xs: &Params,
    ys: &Params,
) -> Result<bool, AllocError>
    ensures { IfOk result (λ fits. (more : Needed) → noted pairs.old (spec.fitting p q (within.all_stay xs.now) (within.all_stay ys.now) (spec.params_need xs.now ys.now more) more) ≡ provided fits (noted pairs.new more)) }
{
    match (p, q) {
        (Proto::Old, Proto::Old) => Ok(true),
        (Proto::Old, Proto::Fixed) => Ok(all_stay(ys)),
        (Proto::Fixed, Proto::Old) => Ok(all_stay(xs)),
        (Proto::Fixed, Proto::Fixed) => note_params(pairs, xs, ys),
        (Proto::Variadic, Proto::Variadic) => note_params(pairs, xs, ys),
        _ => Ok(false),
    }
}

#[cycle(noting)]
fn note_params(pairs: &mut Pairs, xs: &Params, ys: &Params) -> Result<bool, AllocError>
    ensures { IfOk result (λ fits. (more : Needed) → noted pairs.old (spec.params_need xs.now ys.now more) ≡ provided fits (noted pairs.new more)) }
{
    match (xs.list(), ys.list()) {
        (ParamList::Empty, ParamList::Empty) => Ok(true),
        (ParamList::First(a, _, xs), ParamList::First(b, _, ys)) => {
            if note_types(pairs, a, b)? {
                return note_params(pairs, xs, ys);
            }
            Ok(false)
        }
        _ => Ok(false),
    }
}
