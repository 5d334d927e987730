// What a row of the operators tests of tags (ISO C11 6.5), in the order in which its condition is written.
ghost use Rattle.std.specs.Prelude.{◌≡◌};
ghost use Rattle.elab_core.specs.Tests as spec;
ghost use Rattle.expr_rules.specs.Judgements as judgements;
ghost use Rattle.elab_state.specs.Comes.{Leads};
ghost use Rattle.elab_state.specs.Seen.{context_of, told_of};

use c_literals::Op;
use elab_state::{Around, Halt, Made, look_anonymous, look_at, look_deep};
use expr_rules::{Association, Form};
use std::alloc::Global;
use type_data::{CType, Judged, Node, TagId};
use type_rel::is_bad;

fn look_at_pointee(
    alloc: Global,
    around: &Around<'_>,
    made: &mut Made,
    ty: &CType,
) -> Result<(), Halt>
    ensures { Leads (told_of around.now) (spec.pointee (context_of around.now).item ty.now made.old) result made.new }
{
    match ty.node() {
        Node::Pointer(to, _) => look_at(alloc, around, made, to),
        Node::Array(of, _, _) => look_at(alloc, around, made, of),
        Node::Void => Ok(()),
        Node::Basic(_) => Ok(()),
        Node::Enumerated(_) => Ok(()),
        Node::Tagged(_) => Ok(()),
        Node::Function(_, _, _) => Ok(()),
        Node::Bad => Ok(()),
    }
}

fn look_at_pointees(
    alloc: Global,
    around: &Around<'_>,
    made: &mut Made,
    parts: &[Judged],
) -> Result<(), Halt>
    ensures { Leads (told_of around.now) (spec.pointees (context_of around.now).item parts.now made.old) result made.new }
{
    let mut rest = parts;
    'parts: while let Some((part, others)) = rest.split_first() {
        match look_at_pointee(alloc, around, made, &part.ty) {
            Ok(()) => (),
            Err(halt) => return Err(halt),
        }
        rest = others;
    }
    Ok(())
}

fn look_at_returned(
    alloc: Global,
    around: &Around<'_>,
    made: &mut Made,
    ty: &CType,
) -> Result<(), Halt>
    ensures { Leads (told_of around.now) (spec.returned (context_of around.now).item ty.now made.old) result made.new }
{
    match ty.node() {
        Node::Function(returned, _, _) => look_at(alloc, around, made, returned),
        Node::Pointer(_, _) => Ok(()),
        Node::Array(_, _, _) => Ok(()),
        Node::Void => Ok(()),
        Node::Basic(_) => Ok(()),
        Node::Enumerated(_) => Ok(()),
        Node::Tagged(_) => Ok(()),
        Node::Bad => Ok(()),
    }
}

fn look_at_called(
    alloc: Global,
    around: &Around<'_>,
    made: &mut Made,
    ty: &CType,
) -> Result<(), Halt>
    ensures { Leads (told_of around.now) (spec.called (context_of around.now).item ty.now made.old) result made.new }
{
    match ty.node() {
        Node::Function(returned, _, _) => look_at(alloc, around, made, returned),
        Node::Pointer(to, _) => look_at_returned(alloc, around, made, to),
        Node::Array(of, _, _) => look_at_returned(alloc, around, made, of),
        Node::Void => Ok(()),
        Node::Basic(_) => Ok(()),
        Node::Enumerated(_) => Ok(()),
        Node::Tagged(_) => Ok(()),
        Node::Bad => Ok(()),
    }
}

fn look_at_tagged(
    alloc: Global,
    around: &Around<'_>,
    made: &mut Made,
    ty: &CType,
    id: &TagId,
) -> Result<(), Halt>
    ensures { Leads (told_of around.now) (spec.tagged (context_of around.now).item ty.now id.now made.old) result made.new }
{
    match look_at(alloc, around, made, ty) {
        Ok(()) => (),
        Err(halt) => return Err(halt),
    }
    look_anonymous(alloc, around, made, id)
}

fn look_at_members(
    alloc: Global,
    around: &Around<'_>,
    made: &mut Made,
    ty: &CType,
) -> Result<(), Halt>
    ensures { Leads (told_of around.now) (spec.members (context_of around.now).item ty.now made.old) result made.new }
{
    match ty.node() {
        Node::Tagged(id) => look_at_tagged(alloc, around, made, ty, id),
        Node::Function(_, _, _) => Ok(()),
        Node::Pointer(_, _) => Ok(()),
        Node::Array(_, _, _) => Ok(()),
        Node::Void => Ok(()),
        Node::Basic(_) => Ok(()),
        Node::Enumerated(_) => Ok(()),
        Node::Bad => Ok(()),
    }
}

fn look_at_pointed(
    alloc: Global,
    around: &Around<'_>,
    made: &mut Made,
    ty: &CType,
) -> Result<(), Halt>
    ensures { Leads (told_of around.now) (spec.pointed_members (context_of around.now).item ty.now made.old) result made.new }
{
    match ty.node() {
        Node::Pointer(to, _) => look_at_members(alloc, around, made, to),
        Node::Array(of, _, _) => look_at_members(alloc, around, made, of),
        Node::Tagged(_) => Ok(()),
        Node::Function(_, _, _) => Ok(()),
        Node::Void => Ok(()),
        Node::Basic(_) => Ok(()),
        Node::Enumerated(_) => Ok(()),
        Node::Bad => Ok(()),
    }
}

fn look_at_written(
    alloc: Global,
    around: &Around<'_>,
    made: &mut Made,
    ty: &CType,
) -> Result<(), Halt>
    ensures { Leads (told_of around.now) (spec.written (context_of around.now).item ty.now made.old) result made.new }
{
    match look_at(alloc, around, made, ty) {
        Ok(()) => (),
        Err(halt) => return Err(halt),
    }
    look_deep(alloc, around, made, ty)
}

fn look_at_stepped(
    alloc: Global,
    around: &Around<'_>,
    made: &mut Made,
    ty: &CType,
) -> Result<(), Halt>
    ensures { Leads (told_of around.now) (spec.stepped (context_of around.now).item ty.now made.old) result made.new }
{
    match look_at_pointee(alloc, around, made, ty) {
        Ok(()) => (),
        Err(halt) => return Err(halt),
    }
    look_at_written(alloc, around, made, ty)
}

fn is_additive(op: Op) -> bool
    ensures { result ≡ spec.is_additive op }
{
    match op {
        Op::Add => true,
        Op::Sub => true,
        _ => false,
    }
}

fn look_at_pointee_if(
    alloc: Global,
    around: &Around<'_>,
    made: &mut Made,
    op: Op,
    ty: &CType,
) -> Result<(), Halt>
    ensures { Leads (told_of around.now) (spec.pointee_if op (context_of around.now).item ty.now made.old) result made.new }
{
    if is_additive(op) {
        return look_at_pointee(alloc, around, made, ty);
    }
    Ok(())
}

fn look_at_added_to(
    alloc: Global,
    around: &Around<'_>,
    made: &mut Made,
    op: Op,
    ty: &CType,
) -> Result<(), Halt>
    ensures { Leads (told_of around.now) (spec.added_to op (context_of around.now).item ty.now made.old) result made.new }
{
    match look_at_written(alloc, around, made, ty) {
        Ok(()) => (),
        Err(halt) => return Err(halt),
    }
    look_at_pointee_if(alloc, around, made, op, ty)
}

fn look_at_added(
    alloc: Global,
    around: &Around<'_>,
    made: &mut Made,
    op: Op,
    parts: &[Judged],
) -> Result<(), Halt>
    ensures { Leads (told_of around.now) (spec.added op (context_of around.now).item parts.now made.old) result made.new }
{
    if is_additive(op) {
        return look_at_pointees(alloc, around, made, parts);
    }
    Ok(())
}

fn look_at_choice(
    alloc: Global,
    around: &Around<'_>,
    made: &mut Made,
    choice: &Association,
) -> Result<(), Halt>
    ensures { Leads (told_of around.now) (spec.choice (context_of around.now).item choice.now made.old) result made.new }
{
    match choice {
        Association::Typed(ty, _) => look_at(alloc, around, made, ty),
        Association::Default => Ok(()),
    }
}

fn look_at_stated(
    alloc: Global,
    around: &Around<'_>,
    made: &mut Made,
    choices: &[Association],
) -> Result<(), Halt>
    ensures { Leads (told_of around.now) (spec.stated (context_of around.now).item choices.now made.old) result made.new }
{
    let mut rest = choices;
    'choices: while let Some((choice, others)) = rest.split_first() {
        match look_at_choice(alloc, around, made, choice) {
            Ok(()) => (),
            Err(halt) => return Err(halt),
        }
        rest = others;
    }
    Ok(())
}

fn look_at_sized(
    alloc: Global,
    around: &Around<'_>,
    made: &mut Made,
    ty: &Option<CType>,
    parts: &[Judged],
) -> Result<(), Halt>
    ensures { Leads (told_of around.now) (spec.size_of (context_of around.now).item ty.now parts.now made.old) result made.new }
{
    if let Some(ty) = ty {
        return look_at(alloc, around, made, ty);
    }
    match parts.first() {
        Some(part) => look_at(alloc, around, made, &part.ty),
        None => Ok(()),
    }
}

// By its first part.
fn look_at_first(
    alloc: Global,
    around: &Around<'_>,
    made: &mut Made,
    form: &Form,
    ty: &CType,
) -> Result<(), Halt>
    ensures { Leads (told_of around.now) (spec.by_first (context_of around.now).item form.now ty.now made.old) result made.new }
{
    match form {
        Form::Call => look_at_called(alloc, around, made, ty),
        Form::Dot(_) => look_at_members(alloc, around, made, ty),
        Form::Arrow(_) => look_at_pointed(alloc, around, made, ty),
        Form::PreInc => look_at_stepped(alloc, around, made, ty),
        Form::PreDec => look_at_stepped(alloc, around, made, ty),
        Form::PostInc => look_at_stepped(alloc, around, made, ty),
        Form::PostDec => look_at_stepped(alloc, around, made, ty),
        Form::Assign => look_at_written(alloc, around, made, ty),
        Form::AssignOp(op) => look_at_added_to(alloc, around, made, *op, ty),
        _ => Ok(()),
    }
}

// By what it states, or by all of its parts.
fn look_at_all(
    alloc: Global,
    around: &Around<'_>,
    made: &mut Made,
    form: &Form,
    parts: &[Judged],
) -> Result<(), Halt>
    ensures { Leads (told_of around.now) (spec.by_all (context_of around.now).item form.now parts.now made.old) result made.new }
{
    match form {
        Form::Generic(choices) => look_at_stated(alloc, around, made, choices.as_slice()),
        Form::Index => look_at_pointees(alloc, around, made, parts),
        Form::Binary(op) => look_at_added(alloc, around, made, *op, parts),
        Form::Compound(ty, _, _) => look_at(alloc, around, made, ty),
        Form::SizeOf(ty) => look_at_sized(alloc, around, made, ty, parts),
        Form::AlignOf(ty) => look_at(alloc, around, made, ty),
        Form::OffsetOf(ty, _) => look_deep(alloc, around, made, ty),
        _ => Ok(()),
    }
}

fn look_at_front(
    alloc: Global,
    around: &Around<'_>,
    made: &mut Made,
    form: &Form,
    parts: &[Judged],
) -> Result<(), Halt>
    ensures { Leads (told_of around.now) (spec.front (context_of around.now).item form.now parts.now made.old) result made.new }
{
    match parts.first() {
        Some(part) => look_at_first(alloc, around, made, form, &part.ty),
        None => Ok(()),
    }
}

fn look_at_tested(
    alloc: Global,
    around: &Around<'_>,
    made: &mut Made,
    form: &Form,
    parts: &[Judged],
) -> Result<(), Halt>
    ensures { Leads (told_of around.now) (spec.tested (context_of around.now).item form.now parts.now made.old) result made.new }
{
    match look_at_all(alloc, around, made, form, parts) {
        Ok(()) => (),
        Err(halt) => return Err(halt),
    }
    look_at_front(alloc, around, made, form, parts)
}

fn is_bad_type(ty: &Option<CType>) -> bool
    ensures { result ≡ judgements.is_bad_type ty.now }
{
    match ty {
        Some(ty) => is_bad(ty),
        None => false,
    }
}

fn is_bad_choice(choice: &Association) -> bool
    ensures { result ≡ judgements.is_bad_association choice.now }
{
    match choice {
        Association::Typed(ty, _) => is_bad(ty),
        Association::Default => false,
    }
}

fn state_bad(choices: &[Association]) -> bool
    ensures { result ≡ judgements.state_bad choices.now }
{
    choices.iter().any(|choice| is_bad_choice(choice))
}

fn states_bad(form: &Form) -> bool
    ensures { result ≡ judgements.states_bad form.now }
{
    match form {
        Form::Generic(choices) => state_bad(choices.as_slice()),
        Form::Compound(ty, _, _) => is_bad(ty),
        Form::SizeOf(ty) => is_bad_type(ty),
        Form::AlignOf(ty) => is_bad(ty),
        Form::OffsetOf(ty, _) => is_bad(ty),
        Form::Cast(ty, _) => is_bad(ty),
        _ => false,
    }
}

fn are_bad(parts: &[Judged]) -> bool
    ensures { result ≡ judgements.are_bad parts.now }
{
    parts.iter().any(|part| is_bad(&part.ty))
}

fn has_bad(form: &Form, parts: &[Judged]) -> bool
    ensures { result ≡ judgements.has_bad form.now parts.now }
{
    states_bad(form) || are_bad(parts)
}

/// What the row of a construct tests of tags is among the tags; what has a faulty part tests nothing.
pub(crate) fn look_for(
    alloc: Global,
    around: &Around<'_>,
    made: &mut Made,
    form: &Form,
    parts: &[Judged],
) -> Result<(), Halt>
    ensures { Leads (told_of around.now) (spec.tests (context_of around.now).item form.now parts.now made.old) result made.new }
{
    if has_bad(form, parts) {
        return Ok(());
    }
    look_at_tested(alloc, around, made, form, parts)
}
