// Generic selections (ISO C11 6.5.1.1).
ghost use Rattle.std.specs.Prelude.{◌≡◌, IfOk, OnOk};
ghost use Rattle.elab_core.specs.Expressions as spec;
ghost use Rattle.elab_core.specs.Generics as choosing;
ghost use Rattle.elab_state.specs.Comes.{Comes};
ghost use Rattle.elab_state.specs.Doings.{follow, gives};
ghost use Rattle.elab_state.specs.Seen.{context_of, told_of};
ghost use Rattle.tree_data.specs.Seen as seen;
ghost use Rattle.tree_data.specs.Seen.{tree_of};
ghost use Rattle.tree_data.specs.Trees as trees;

use crate::expressions::judged;
use crate::naming::type_name;
use crate::rows::row;
use elab_state::{Around, Grown, Halt, Made, Where};
use expr_rules::{Association, Form};
use std::alloc::{AllocError, Global};
use tree_data::Expr;
use type_data::Judged;

// What a generic selection chooses among: what each association asks for, and the parts, of which the controlling expression is the first.
#[derive(Drop)]
pub(crate) struct Choices {
    associations: Grown<Association>,
    parts: Grown<Judged>,
}

pub(crate) fn chosen_by(alloc: Global, control: Judged) -> Result<Choices, AllocError>
    ensures { IfOk result (λ choices. choices ≡ choosing.controlled control) }
{
    let parts = Grown::of(alloc, control)?;
    Ok(Choices {
        associations: Grown::new(alloc),
        parts,
    })
}

fn add(choices: &mut Choices, association: Association, part: Judged) -> Result<(), AllocError>
    ensures { OnOk result (choices.new ≡ choosing.with_choice association part choices.old) }
{
    let Ok(()) = choices.associations.push(association) else {
        drop(part);
        return Err(AllocError);
    };
    choices.parts.push(part)?;
    Ok(())
}

#[cycle(judging)]
fn choice(
    alloc: Global,
    around: &Around<'_>,
    place: Where,
    made: &mut Made,
    choices: &mut Choices,
    association: Association,
    part: &Expr,
) -> Result<(), Halt>
    ensures { Comes (told_of around.now) (follow (spec.judge (context_of around.now) place (tree_of part.now) made.old) (λ j. gives (choosing.with_choice association j choices.old))) (λ _. choices.new) result made.new }
{
    let part = match judged(alloc, around, place, made, part) {
        Ok(done) => done,
        Err(halt) => {
            drop(association);
            return Err(halt);
        }
    };
    let Ok(()) = add(choices, association, part) else {
        return Err(Halt::NoMemory);
    };
    Ok(())
}

#[cycle(judging)]
fn association(
    alloc: Global,
    around: &Around<'_>,
    place: Where,
    made: &mut Made,
    choices: &mut Choices,
    next: &tree_data::Association,
) -> Result<(), Halt>
    ensures { Comes (told_of around.now) (spec.association_of (context_of around.now) place (seen.association_of next.now) choices.old made.old) (λ _. choices.new) result made.new }
{
    match next {
        tree_data::Association::Typed(name, _, part) => {
            let typed = match type_name(alloc, around, place, made, name) {
                Ok(done) => done,
                Err(halt) => return Err(halt),
            };
            choice(
                alloc,
                around,
                place,
                made,
                choices,
                Association::Typed(typed.ty, typed.qual),
                part,
            )
        }
        tree_data::Association::Default(_, _, part) => choice(
            alloc,
            around,
            place,
            made,
            choices,
            Association::Default,
            part,
        ),
    }
}

#[cycle(judging)]
pub(crate) fn associations(
    alloc: Global,
    around: &Around<'_>,
    place: Where,
    made: &mut Made,
    choices: &mut Choices,
    list: &Vec<(u32, tree_data::Association)>,
) -> Result<(), Halt>
    ensures { Comes (told_of around.now) (spec.associations (context_of around.now) place (trees.associations (seen.associations_of list.now.items)) choices.old made.old) (λ _. choices.new) result made.new }
{
    'associations: for pair in list {
        match association(alloc, around, place, made, choices, &pair.1) {
            Ok(()) => (),
            Err(halt) => return Err(halt),
        }
    }
    Ok(())
}

pub(crate) fn select(
    alloc: Global,
    around: &Around<'_>,
    made: &mut Made,
    at: u32,
    choices: Choices,
) -> Result<Judged, Halt>
    ensures { Comes (told_of around.now) (choosing.selection (context_of around.now) at choices made.old) (λ j. j) result made.new }
{
    let form = Form::Generic(choices.associations.into_listing());
    row(alloc, around, made, at, form, choices.parts.as_slice())
}
