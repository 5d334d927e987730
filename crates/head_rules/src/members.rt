// What a member may be (ISO C11 6.7.2.1), and what it becomes.
ghost use Rattle.std.specs.Prelude.{◌≡◌, IfOk};
ghost use Rattle.head_rules.specs.Members as spec;
ghost use Rattle.head_rules.specs.Naming as naming;

use crate::faults::{of_name, of_type, plain};
use crate::naming::{Constant, NameToken};
use crate::parts::FieldParts;
use crate::widths::bit_width;
use scope_tables::{Anchor, Entity, EntityKind, Life, Linkage};
use shared_text::Name;
use std::alloc::{AllocError, Global};
use type_data::{CType, Fault, Member, Node, TagId, TagKind, Tags, Value};
use type_rel::{integer_type, is_bad, is_complete, is_open_array, size_align};

fn is_absent(constant: Constant) -> bool
    ensures { result ≡ spec.is_absent constant }
{
    match constant {
        Constant::Absent => true,
        Constant::Is(_) => false,
        Constant::Faulty => false,
    }
}

fn is_faulty(constant: Constant) -> bool
    ensures { result ≡ spec.is_faulty constant }
{
    match constant {
        Constant::Faulty => true,
        Constant::Absent => false,
        Constant::Is(_) => false,
    }
}

#[tactic(auto, unfolding(crate::specs::Members::has_bad_part))]
pub(crate) fn has_bad_part(parts: &FieldParts) -> bool
    ensures { result ≡ spec.has_bad_part parts.now }
{
    is_bad(&parts.ty) || is_faulty(parts.width)
}

#[tactic(auto, unfolding(crate::specs::Members::is_anonymous))]
pub(crate) fn is_anonymous(parts: &FieldParts) -> bool
    ensures { result ≡ spec.is_anonymous parts.now }
{
    parts.name.is_none() && is_absent(parts.width)
}

fn is_struct(kind: TagKind) -> bool
    ensures { result ≡ spec.is_struct kind }
{
    match kind {
        TagKind::Struct => true,
        TagKind::Union => false,
        TagKind::Enum => false,
    }
}

#[tactic(auto, unfolding(crate::specs::Members::is_member_type))]
fn is_member_type(tags: &Tags, kind: TagKind, behind: bool, parts: &FieldParts) -> bool
    ensures { result ≡ spec.is_member_type tags.now kind behind parts.now }
{
    (is_complete(tags, &parts.ty) || (is_struct(kind) && (behind && is_open_array(&parts.ty))))
        && !(is_struct(kind) && parts.flexible)
}

// The name that a fault's text prints; empty where there is none.
fn text_of(alloc: Global, name: &Option<NameToken>) -> Result<Name, AllocError>
    ensures { IfOk result (λ n. n ≡ naming.text_of name.now) }
{
    match name {
        Some(token) => token.name.share(),
        None => Name::from_str(alloc, ""),
    }
}

fn bad_width(
    alloc: Global,
    parts: &FieldParts,
    width: Option<u8>,
) -> Result<Option<Fault>, AllocError>
    ensures { IfOk result (λ f. f ≡ spec.bad_width parts.now width) }
{
    match width {
        Some(_) => Ok(None),
        None => {
            let text = text_of(alloc, &parts.name)?;
            let fault = of_name(alloc, 409, parts.at, &text)?;
            Ok(Some(fault))
        }
    }
}

#[tactic(auto, unfolding(crate::specs::Members::bad_type))]
fn bad_type(
    alloc: Global,
    tags: &Tags,
    kind: TagKind,
    behind: bool,
    parts: &FieldParts,
) -> Result<Option<Fault>, AllocError>
    ensures { IfOk result (λ f. f ≡ spec.bad_type tags.now kind behind parts.now) }
{
    if is_member_type(tags, kind, behind, parts) {
        return Ok(None);
    }
    let text = text_of(alloc, &parts.name)?;
    let fault = of_type(alloc, 408, parts.at, &text, &parts.ty)?;
    Ok(Some(fault))
}

// 408 or 409; `behind` where a named member stands in front.
#[tactic(auto, unfolding(crate::specs::Members::misshaped))]
pub(crate) fn misshaped(
    alloc: Global,
    tags: &Tags,
    kind: TagKind,
    behind: bool,
    parts: &FieldParts,
) -> Result<Option<Fault>, AllocError>
    ensures { IfOk result (λ f. f ≡ spec.misshaped tags.now kind behind parts.now parts.now.width) }
{
    match parts.width {
        Constant::Absent => bad_type(alloc, tags, kind, behind, parts),
        Constant::Is(value) => {
            let width = bit_width(integer_type(&parts.ty), parts.name.is_some(), value);
            bad_width(alloc, parts, width)
        }
        Constant::Faulty => Ok(None),
    }
}

fn is_below(number: i128, own: (u64, u64)) -> bool
    ensures { result ≡ spec.is_below number own }
{
    if number < 0 {
        return false;
    }
    let number = number as u128;
    !(number == 0) && number < u128::from(own.1)
}

fn is_less_strict(value: Value, own: Option<(u64, u64)>) -> bool
    ensures { result ≡ spec.is_less_strict value own }
{
    match value {
        Value::Known(number) => match own {
            Some(own) => is_below(number, own),
            None => false,
        },
        Value::Unknown => false,
        Value::Faulty(_) => false,
    }
}

// 417.
#[tactic(auto, unfolding(crate::specs::Members::misaligned))]
pub(crate) fn misaligned(alloc: Global, tags: &Tags, parts: &FieldParts) -> Option<Fault>
    ensures { result ≡ spec.misaligned tags.now parts.now parts.now.align }
{
    let Some(value) = parts.align else {
        return None;
    };
    if !is_absent(parts.width) || is_less_strict(value, size_align(&parts.ty, tags)) {
        return Some(plain(alloc, 417, parts.align_at));
    }
    None
}

fn known_alignment(number: i128) -> Option<u64>
    ensures { result ≡ spec.known_alignment number }
{
    if number < 0 {
        return None;
    }
    let number = number as u128;
    if number == 0 {
        return None;
    }
    if number <= 18_446_744_073_709_551_615 {
        return Some(number as u64);
    }
    None
}

#[tactic(auto, unfolding(crate::specs::Members::alignment_of))]
fn alignment_of(value: Option<Value>) -> Option<u64>
    ensures { result ≡ spec.alignment_of value }
{
    match value {
        Some(Value::Known(number)) => known_alignment(number),
        Some(Value::Unknown) => None,
        Some(Value::Faulty(_)) => None,
        None => None,
    }
}

#[tactic(auto, unfolding(crate::specs::Members::width_of))]
fn width_of(parts: &FieldParts) -> Option<u8>
    ensures { result ≡ spec.width_of parts.now parts.now.width }
{
    match parts.width {
        Constant::Absent => None,
        Constant::Is(value) => bit_width(integer_type(&parts.ty), parts.name.is_some(), value),
        Constant::Faulty => None,
    }
}

fn name_of(name: &Option<NameToken>) -> Result<Option<Name>, AllocError>
    ensures { IfOk result (λ n. n ≡ naming.name_of name.now) }
{
    match name {
        Some(token) => {
            let name = token.name.share()?;
            Ok(Some(name))
        }
        None => Ok(None),
    }
}

fn token_of(name: &Option<NameToken>) -> Result<Option<TagId>, AllocError>
    ensures { IfOk result (λ id. id ≡ naming.token_of name.now) }
{
    match name {
        Some(token) => {
            let id = token.id.share()?;
            Ok(Some(id))
        }
        None => Ok(None),
    }
}

#[tactic(auto, unfolding(crate::specs::Members::member))]
fn member(parts: &FieldParts) -> Result<Member, AllocError>
    ensures { IfOk result (λ m. m ≡ spec.member parts.now) }
{
    let name = name_of(&parts.name)?;
    let at = token_of(&parts.name)?;
    let ty = parts.ty.share()?;
    Ok(Member {
        name,
        ty,
        qual: parts.qual,
        width: width_of(parts),
        align: alignment_of(parts.align),
        value: None,
        at,
    })
}

#[tactic(auto, unfolding(crate::specs::Members::bad_member))]
fn bad_member(parts: &FieldParts) -> Result<Member, AllocError>
    ensures { IfOk result (λ m. m ≡ spec.bad_member parts.now) }
{
    let name = name_of(&parts.name)?;
    let at = token_of(&parts.name)?;
    Ok(Member {
        name,
        ty: CType::of(Node::Bad),
        qual: parts.qual,
        width: None,
        align: None,
        value: None,
        at,
    })
}

#[tactic(auto, unfolding(crate::specs::Members::refused))]
fn refused(parts: &FieldParts) -> Result<Member, AllocError>
    ensures { IfOk result (λ m. m ≡ spec.refused parts.now) }
{
    if is_anonymous(parts) {
        return member(parts);
    }
    bad_member(parts)
}

// The member that the parts become, which may have a fault.
#[tactic(auto, unfolding(crate::specs::Members::member_of))]
pub(crate) fn member_of(parts: &FieldParts, fault: &Option<Fault>) -> Result<Member, AllocError>
    ensures { IfOk result (λ m. m ≡ spec.member_of parts.now fault.now) }
{
    match fault {
        Some(_) => refused(parts),
        None => {
            if has_bad_part(parts) {
                return refused(parts);
            }
            member(parts)
        }
    }
}

// What the name of a member denotes.
#[tactic(auto, unfolding(crate::specs::Members::entity))]
pub(crate) fn entity(name: &NameToken, member: &Member) -> Result<Entity, AllocError>
    ensures { IfOk result (λ e. e ≡ spec.entity name.now member.now) }
{
    let tok = name.tok.copy()?;
    let name = name.name.share()?;
    let ty = member.ty.share()?;
    Ok(Entity {
        name,
        kind: EntityKind::Member,
        ty,
        qual: member.qual,
        linkage: Linkage::None,
        life: Life::Without,
        value: None,
        anchor: Anchor::Local(tok),
    })
}
