// The place of a member (ISO C11 7.19p3).
ghost use Rattle.std.specs.Prelude.{◌≡◌, IfOk, OnOk};
ghost use Rattle.elab_core.specs.Expressions as spec;
ghost use Rattle.elab_core.specs.Offsets as ways;
ghost use Rattle.elab_core.specs.Casts as casts;
ghost use Rattle.elab_state.specs.Comes.{Comes};
ghost use Rattle.elab_core.specs.Constants as constants;
ghost use Rattle.elab_state.specs.Seen.{context_of, told_of};
ghost use Rattle.tree_data.specs.Seen as seen;
ghost use Rattle.tree_data.specs.Seen.{tree_of};
ghost use Rattle.tree_data.specs.Trees as trees;

use crate::accesses::offset_field;
use crate::constants::needed;
use crate::ends::first_of;
use crate::expressions::judged;
use crate::members::element_of;
use crate::rows::{bad, row};
use crate::shapes::Typed;
use elab_state::{Around, Grown, Halt, Made, Where, look_deep, name_at};
use expr_rules::{Designator, Form};
use std::alloc::{AllocError, Global};
use tree_data::{Expr, Suffix};
use type_data::{CType, Judged, Value};

// The way to a member: the type that it has come to, and its steps, where none has a fault.
#[derive(Drop)]
pub(crate) struct Way {
    ty: CType,
    steps: Option<Grown<Designator>>,
}

fn started(alloc: Global, typed: &Typed) -> Result<Way, AllocError>
    ensures { IfOk result (λ way. way ≡ ways.started typed.now) }
{
    let ty = typed.ty.share()?;
    Ok(Way {
        ty,
        steps: Some(Grown::new(alloc)),
    })
}

// One step more, where none has a fault.
fn add(steps: &mut Option<Grown<Designator>>, next: Designator) -> Result<(), AllocError>
    ensures { OnOk result (steps.new ≡ casts.with_step steps.old next) }
{
    match steps {
        Some(list) => list.push(next),
        None => Ok(()),
    }
}

fn add_index(steps: &mut Option<Grown<Designator>>, value: Option<Value>) -> Result<(), AllocError>
    ensures { OnOk result (steps.new ≡ casts.with_index steps.old (constants.as_needed value)) }
{
    match value {
        Some(value) => add(steps, Designator::Index(value)),
        None => {
            *steps = None;
            Ok(())
        }
    }
}

fn by_name(
    alloc: Global,
    around: &Around<'_>,
    made: &mut Made,
    way: &mut Way,
    name: u32,
) -> Result<(), AllocError>
    ensures { OnOk result ((way.new, made.new) ≡ ways.by_name (context_of around.now) name way.old made.old) }
{
    let text = name_at(alloc, around.tokens, name)?;
    add(&mut way.steps, Designator::Field(text))?;
    way.ty = offset_field(alloc, around, made, name, &way.ty)?;
    Ok(())
}

fn by_index(
    alloc: Global,
    made: &mut Made,
    way: &mut Way,
    at: u32,
    index: &Judged,
) -> Result<(), AllocError>
    ensures { OnOk result ((way.new, made.new) ≡ ways.by_index at index.now way.old made.old) }
{
    let value = needed(alloc, made, at, index)?;
    add_index(&mut way.steps, value)?;
    way.ty = element_of(&way.ty)?;
    Ok(())
}

#[cycle(judging)]
fn index(
    alloc: Global,
    around: &Around<'_>,
    place: Where,
    made: &mut Made,
    way: &mut Way,
    inner: &Expr,
) -> Result<(), Halt>
    ensures { Comes (told_of around.now) (spec.step_to (context_of around.now) place (trees.Index_of 0 (tree_of inner.now) 0) way.old made.old) (λ _. way.new) result made.new }
{
    let value = match judged(alloc, around, place, made, inner) {
        Ok(done) => done,
        Err(halt) => return Err(halt),
    };
    let Ok(()) = by_index(alloc, made, way, first_of(inner), &value) else {
        drop(value);
        return Err(Halt::NoMemory);
    };
    drop(value);
    Ok(())
}

#[cycle(judging)]
fn step(
    alloc: Global,
    around: &Around<'_>,
    place: Where,
    made: &mut Made,
    way: &mut Way,
    next: &Suffix,
) -> Result<(), Halt>
    ensures { Comes (told_of around.now) (spec.step_to (context_of around.now) place (seen.behind_of next.now) way.old made.old) (λ _. way.new) result made.new }
{
    match next {
        Suffix::Index(_, inner, _) => index(alloc, around, place, made, way, inner),
        Suffix::Member(_, name) => {
            let Ok(()) = by_name(alloc, around, made, way, *name) else {
                return Err(Halt::NoMemory);
            };
            Ok(())
        }
        Suffix::Call(_, _) => {
            way.steps = None;
            Ok(())
        }
        Suffix::CallWith(_, _, _, _) => {
            way.steps = None;
            Ok(())
        }
        Suffix::Step(_) => {
            way.steps = None;
            Ok(())
        }
    }
}

#[cycle(judging)]
pub(crate) fn steps_to(
    alloc: Global,
    around: &Around<'_>,
    place: Where,
    made: &mut Made,
    way: &mut Way,
    list: &Vec<Suffix>,
) -> Result<(), Halt>
    ensures { Comes (told_of around.now) (spec.steps_to (context_of around.now) place (trees.behinds (seen.suffixes_of list.now.items) trees.None_behind) way.old made.old) (λ _. way.new) result made.new }
{
    'steps: for next in list {
        match step(alloc, around, place, made, way, next) {
            Ok(()) => (),
            Err(halt) => return Err(halt),
        }
    }
    Ok(())
}

/// The place of a member, whose keyword is `at`.
pub(crate) fn place_of_member(
    alloc: Global,
    around: &Around<'_>,
    made: &mut Made,
    at: u32,
    typed: Typed,
    way: Way,
) -> Result<Judged, Halt>
    ensures { Comes (told_of around.now) (casts.offset (context_of around.now) at typed way.steps made.old) (λ j. j) result made.new }
{
    let Way { ty, steps } = way;
    drop(ty);
    match steps {
        Some(list) => {
            let form = Form::OffsetOf(typed.ty, list.into_listing());
            row(alloc, around, made, at, form, &[])
        }
        None => {
            drop(typed);
            Ok(bad())
        }
    }
}

/// The way from a type by the first name.
pub(crate) fn way_from(
    alloc: Global,
    around: &Around<'_>,
    made: &mut Made,
    typed: &Typed,
    member: u32,
) -> Result<Way, Halt>
    ensures { Comes (told_of around.now) (ways.way_from (context_of around.now) typed.now member made.old) (λ way. way) result made.new }
{
    match look_deep(alloc, around, made, &typed.ty) {
        Ok(()) => (),
        Err(halt) => return Err(halt),
    }
    let Ok(mut way) = started(alloc, typed) else {
        return Err(Halt::NoMemory);
    };
    let Ok(()) = by_name(alloc, around, made, &mut way, member) else {
        drop(way);
        return Err(Halt::NoMemory);
    };
    Ok(way)
}
