// Names of members in expressions, designations and `__offsetof` (ISO C11 6.5.2.3, 6.7.9p7, 7.19p3), and their occurrences.
ghost use Rattle.std.specs.Prelude.{◌≡◌, [], ◌∷◌, IfOk, OnOk};
ghost use Rattle.elab_core.specs.Accesses as spec;
ghost use Rattle.elab_state.specs.Comes.{Comes};
ghost use Rattle.init_rules.specs.Stacks;
ghost use Rattle.elab_state.specs.Seen.{context_of, told_of};

use crate::braced::fill;
use crate::members::{anchor_of, member_of, pointed, type_of};
use crate::operators::is_dot;
use crate::rows::row_of;
use crate::shapes::Filling;
use crate::tests::look_for;
use elab_state::{Around, Halt, Made, mark, name_at, spelling};
use expr_rules::{Form, Operator};
use init_rules::InitPiece;
use scope_tables::{Anchor, Role};
use shared_text::Name;
use std::alloc::{AllocError, Global};
use type_data::{CType, Judged, Node, Tags};

fn mark_if_any(
    around: &Around<'_>,
    made: &mut Made,
    at: u32,
    anchor: Option<Anchor>,
) -> Result<(), AllocError>
    ensures { OnOk result (made.new ≡ spec.occurs_if (context_of around.now) at anchor made.old) }
{
    match anchor {
        Some(anchor) => mark(around, made, at, &anchor, Role::Uses),
        None => Ok(()),
    }
}

fn anchor_in(
    alloc: Global,
    tags: &Tags,
    name: &str,
    ty: &CType,
) -> Result<Option<Anchor>, AllocError>
    ensures { IfOk result (λ a. a ≡ spec.anchor_in tags.now name.now ty.now) }
{
    let member = member_of(alloc, tags, name, ty)?;
    anchor_of(alloc, member)
}

fn use_member(
    alloc: Global,
    around: &Around<'_>,
    made: &mut Made,
    at: u32,
    ty: &CType,
) -> Result<(), AllocError>
    ensures { OnOk result (made.new ≡ spec.uses_member (context_of around.now) at ty.now made.old) }
{
    let anchor = anchor_in(alloc, &made.tags, spelling(around.tokens, at), ty)?;
    mark_if_any(around, made, at, anchor)
}

fn member_form(dot: bool, name: Name) -> Form
    ensures { result ≡ spec.member_form dot name }
{
    if dot {
        return Form::Dot(name);
    }
    Form::Arrow(name)
}

fn holder_of(dot: bool, ty: &CType) -> Result<CType, AllocError>
    ensures { IfOk result (λ t. t ≡ spec.holder_of dot ty.now) }
{
    if dot {
        return ty.share();
    }
    pointed(ty)
}

fn use_of_operand(
    alloc: Global,
    around: &Around<'_>,
    made: &mut Made,
    at: u32,
    dot: bool,
    operand: &Judged,
) -> Result<(), AllocError>
    ensures { OnOk result (made.new ≡ spec.uses_of_operand (context_of around.now) at dot operand.now made.old) }
{
    let ty = holder_of(dot, &operand.ty)?;
    use_member(alloc, around, made, at, &ty)
}

fn used_row(
    alloc: Global,
    around: &Around<'_>,
    made: &mut Made,
    operator: &Operator,
    name: u32,
    dot: bool,
    parts: &[Judged],
    operand: &Judged,
) -> Result<Judged, Halt>
    ensures { Comes (told_of around.now) (spec.used_row (context_of around.now) operator.now name dot parts.now operand.now made.old) (λ j. j) result made.new }
{
    let Ok(()) = use_of_operand(alloc, around, made, name, dot, operand) else {
        return Err(Halt::NoMemory);
    };
    row_of(alloc, around, made, operator, parts)
}

fn accessed(
    alloc: Global,
    around: &Around<'_>,
    made: &mut Made,
    operator: &Operator,
    name: u32,
    dot: bool,
    parts: &[Judged],
    operand: &Judged,
) -> Result<Judged, Halt>
    ensures { Comes (told_of around.now) (spec.accessed_by (context_of around.now) operator.now name dot parts.now operand.now made.old) (λ j. j) result made.new }
{
    match look_for(alloc, around, made, &operator.form, parts) {
        Ok(()) => (),
        Err(halt) => return Err(halt),
    }
    used_row(alloc, around, made, operator, name, dot, parts, operand)
}

/// `.` or `->`, which is the token `at`, and the name behind it: the name is an occurrence of the member that it means.
pub fn access(
    alloc: Global,
    around: &Around<'_>,
    made: &mut Made,
    at: u32,
    name: u32,
    operand: Judged,
) -> Result<Judged, Halt>
    ensures { Comes (told_of around.now) (spec.access (context_of around.now) at name operand made.old) (λ j. j) result made.new }
{
    let Ok(text) = name_at(alloc, around.tokens, name) else {
        drop(operand);
        return Err(Halt::NoMemory);
    };
    let dot = is_dot(spelling(around.tokens, at));
    let operator = Operator {
        at,
        form: member_form(dot, text),
    };
    let parts = [operand];
    let done = accessed(alloc, around, made, &operator, name, dot, &parts, &parts[0]);
    drop(operator);
    done
}

fn place_type(filling: &Filling) -> Result<CType, AllocError>
    ensures { IfOk result (λ t. t ≡ spec.place_type (Stacks.top filling.now.state.open_places)) }
{
    match filling.state.open_places.top() {
        Some(place) => place.ty.share(),
        None => Ok(CType::of(Node::Bad)),
    }
}

/// Reads a designator `.name` of an initializer: `dot` is the token of the `.`, and the name is an occurrence of the member that it means.
pub fn designate_field(
    alloc: Global,
    around: &Around<'_>,
    made: &mut Made,
    filling: &mut Filling,
    dot: u32,
    name: u32,
) -> Result<(), AllocError>
    ensures { OnOk result ((filling.new, made.new) ≡ spec.designated_field (context_of around.now) dot name filling.old made.old) }
{
    let text = name_at(alloc, around.tokens, name)?;
    let piece = InitPiece::Field(text);
    let Ok(()) = fill(alloc, made, filling, dot, &piece) else {
        drop(piece);
        return Err(AllocError);
    };
    drop(piece);
    let ty = place_type(filling)?;
    use_member(alloc, around, made, name, &ty)
}

/// A name of a member-designator of `__offsetof`, which is an occurrence of the member that it means: the type of that.
pub fn offset_field(
    alloc: Global,
    around: &Around<'_>,
    made: &mut Made,
    name: u32,
    ty: &CType,
) -> Result<CType, AllocError>
    ensures { IfOk result (λ t. (t, made.new) ≡ spec.offset_field (context_of around.now) name ty.now made.old) }
{
    let member = member_of(alloc, &made.tags, spelling(around.tokens, name), ty)?;
    let found = type_of(member)?;
    let Ok(()) = use_member(alloc, around, made, name, ty) else {
        drop(found);
        return Err(AllocError);
    };
    Ok(found)
}
