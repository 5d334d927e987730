// The text of a type round that of a declarator.
ghost use Rattle.std.specs.Prelude.{◌≡◌, ◌++◌, string_bytes, IfOk, OnOk};
ghost use Rattle.type_print.specs.Names;
ghost use Rattle.type_print.specs.Printed as spec;

use crate::declarators::Declarator;
use crate::names::{basic_name, push_spaced, push_tag, unqualified};
use std::alloc::{AllocError, Global};
use type_data::{CType, Node, ParamList, Params, Proto, Qual, TagId, TagKind, Tags};

// Adds the name of a type that isn't derived, with qualifiers, in front of a declarator.
fn push_plain(
    out: &mut String,
    name: &str,
    qual: Qual,
    declarator: &Declarator,
) -> Result<(), AllocError>
    ensures { OnOk result (string_bytes out.new ≡ string_bytes out.old ++ spec.plain name.now qual declarator.now) }
{
    push_spaced(out, qual)?;
    out.push_str(name)?;
    declarator.push_behind(out)
}

fn push_tagged(
    out: &mut String,
    kind: TagKind,
    tags: &Tags,
    id: &TagId,
    qual: Qual,
    declarator: &Declarator,
) -> Result<(), AllocError>
    ensures { OnOk result (string_bytes out.new ≡ string_bytes out.old ++ spec.plain (Names.tag_in kind tags.now id.now) qual declarator.now) }
{
    push_spaced(out, qual)?;
    push_tag(out, kind, tags, id)?;
    declarator.push_behind(out)
}

fn is_empty(params: &Params) -> bool
    ensures { result ≡ spec.is_empty params.now }
{
    match params.list() {
        ParamList::Empty => true,
        ParamList::First(_, _, _) => false,
    }
}

#[cycle(printing)]
fn push_text(
    alloc: Global,
    out: &mut String,
    ty: &CType,
    qual: Qual,
    declarator: Declarator,
    tags: &Tags,
) -> Result<(), AllocError>
    ensures { OnOk result (string_bytes out.new ≡ string_bytes out.old ++ spec.text tags.now ty.now qual declarator) }
{
    match ty.node() {
        Node::Void => push_plain(out, "void", qual, &declarator),
        Node::Basic(basic) => push_plain(out, basic_name(*basic), qual, &declarator),
        Node::Enumerated(id) => push_tagged(out, TagKind::Enum, tags, id, qual, &declarator),
        Node::Tagged(id) => push_tagged(out, TagKind::Struct, tags, id, qual, &declarator),
        Node::Pointer(to, inner) => {
            let declarator = declarator.starred(qual)?;
            push_text(alloc, out, to, *inner, declarator, tags)
        }
        Node::Array(of, inner, extent) => {
            let declarator = declarator.bracketed(alloc, *extent)?;
            push_text(alloc, out, of, *inner, declarator, tags)
        }
        Node::Function(of, params, proto) => {
            let mut list = String::new(alloc);
            push_list(alloc, &mut list, *proto, params, tags)?;
            let declarator = declarator.called(list.as_str())?;
            push_text(alloc, out, of, unqualified(), declarator, tags)
        }
        Node::Bad => push_plain(out, "?", qual, &declarator),
    }
}

#[cycle(printing)]
fn push_list(
    alloc: Global,
    out: &mut String,
    proto: Proto,
    params: &Params,
    tags: &Tags,
) -> Result<(), AllocError>
    ensures { OnOk result (string_bytes out.new ≡ string_bytes out.old ++ spec.listed proto (spec.params tags.now params.now) (spec.is_empty params.now)) }
{
    match proto {
        Proto::Old => Ok(()),
        Proto::Fixed => {
            if is_empty(params) {
                return out.push_str("void");
            }
            push_params(alloc, out, params, tags)
        }
        Proto::Variadic => {
            push_params(alloc, out, params, tags)?;
            out.push_str(", ...")
        }
    }
}

#[cycle(printing)]
fn push_params(
    alloc: Global,
    out: &mut String,
    params: &Params,
    tags: &Tags,
) -> Result<(), AllocError>
    ensures { OnOk result (string_bytes out.new ≡ string_bytes out.old ++ spec.params tags.now params.now) }
{
    match params.list() {
        ParamList::Empty => Ok(()),
        ParamList::First(ty, qual, more) => {
            let declarator = Declarator::of(alloc, "")?;
            push_text(alloc, out, ty, *qual, declarator, tags)?;
            push_more(alloc, out, more, tags)
        }
    }
}

#[cycle(printing)]
fn push_more(
    alloc: Global,
    out: &mut String,
    params: &Params,
    tags: &Tags,
) -> Result<(), AllocError>
    ensures { OnOk result (string_bytes out.new ≡ string_bytes out.old ++ spec.more_params tags.now params.now) }
{
    match params.list() {
        ParamList::Empty => Ok(()),
        ParamList::First(ty, qual, more) => {
            out.push_str(", ")?;
            let declarator = Declarator::of(alloc, "")?;
            push_text(alloc, out, ty, *qual, declarator, tags)?;
            push_more(alloc, out, more, tags)
        }
    }
}

/// The declaration of a name with a type and its own qualifiers as C spells it, or for an empty name the type itself (ISO C11
/// 6.7.6, 6.7.7). An array's size that isn't told is `?`, a tag without a name `<anonymous>`, and a type with a fault `?`. It
/// fails for want of memory alone.
pub fn print(
    alloc: Global,
    ty: &CType,
    qual: Qual,
    name: &str,
    tags: &Tags,
) -> Result<String, AllocError>
    ensures { IfOk result (λ s. string_bytes s ≡ spec.text tags.now ty.now qual name.now) }
{
    let mut out = String::new(alloc);
    let declarator = Declarator::of(alloc, name)?;
    push_text(alloc, &mut out, ty, qual, declarator, tags)?;
    Ok(out)
}
