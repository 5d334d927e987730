// The end of a list of members (ISO C11 6.7.2.1p18).
ghost use Rattle.std.specs.Prelude.{◌≡◌, ◌++◌, IfOk, OnOk};
ghost use Rattle.head_rules.specs.Flexible as spec;

use crate::faults::of_type;
use shared_text::Name;
use std::alloc::{AllocError, Global};
use type_data::{CType, Fault, Member, Node, TagId};
use type_rel::is_open_array;

fn is_misplaced(last: bool, member: &Member) -> bool
    ensures { result ≡ spec.is_misplaced last member.now }
{
    is_open_array(&member.ty) && !last
}

fn number_of(at: &Option<TagId>) -> u32
    ensures { result ≡ spec.number_of at.now }
{
    match at {
        Some(id) => id.at,
        None => 0,
    }
}

fn text_of(alloc: Global, name: &Option<Name>) -> Result<Name, AllocError>
    ensures { IfOk result (λ n. n ≡ spec.text_of name.now) }
{
    match name {
        Some(name) => name.share(),
        None => Name::from_str(alloc, ""),
    }
}

fn fault(alloc: Global, member: &Member) -> Result<Fault, AllocError>
    ensures { IfOk result (λ f. f ≡ spec.fault member.now) }
{
    let text = text_of(alloc, &member.name)?;
    of_type(alloc, 408, number_of(&member.at), &text, &member.ty)
}

fn add_fault(
    alloc: Global,
    out: &mut Vec<Fault>,
    last: bool,
    member: &Member,
) -> Result<(), AllocError>
    ensures { OnOk result (out.new.items ≡ out.old.items ++ spec.faults_of last member.now) }
{
    if !is_misplaced(last, member) {
        return Ok(());
    }
    let fault = fault(alloc, member)?;
    out.push(fault)?;
    Ok(())
}

// The faults of arrays of no size that aren't the last one.
pub(crate) fn misplaced(alloc: Global, members: &[Member]) -> Result<Vec<Fault>, AllocError>
    ensures { IfOk result (λ fs. fs.items ≡ spec.faults members.now) }
{
    let mut out = Vec::new(alloc);
    let mut rest = members;
    'members: while let Some((member, others)) = rest.split_first() {
        add_fault(alloc, &mut out, others.is_empty(), member)?;
        rest = others;
    }
    Ok(out)
}

fn settled(last: bool, member: &Member) -> Result<Member, AllocError>
    ensures { IfOk result (λ m. m ≡ spec.settled last member.now) }
{
    let mut copy = member.share()?;
    if is_misplaced(last, member) {
        copy.ty = CType::of(Node::Bad);
    }
    Ok(copy)
}

// The members behind the end of their list.
pub(crate) fn closed(alloc: Global, members: &[Member]) -> Result<Vec<Member>, AllocError>
    ensures { IfOk result (λ ms. ms.items ≡ spec.closed members.now) }
{
    let mut out = Vec::new(alloc);
    let mut rest = members;
    'members: while let Some((member, others)) = rest.split_first() {
        let member = settled(others.is_empty(), member)?;
        out.push(member)?;
        rest = others;
    }
    Ok(out)
}
