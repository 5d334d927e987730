// Parameters, behind their declarators (ISO C11 6.7.6.3).
ghost use Rattle.std.specs.Prelude.{◌≡◌, IfOk};
ghost use Rattle.elab_core.specs.Entering as spec;
ghost use Rattle.elab_state.specs.Comes.{Comes, Leads};
ghost use Rattle.elab_state.specs.Seen.{context_of, told_of};

use crate::parameters::{adjusted, parameter_of, stands_for_none};
use crate::shapes::{Gathered, Typed};
use elab_state::{Around, Halt, Made, look_at};
use std::alloc::{AllocError, Global};
use type_data::Qual;

fn look(
    alloc: Global,
    around: &Around<'_>,
    made: &mut Made,
    body: bool,
    typed: &Typed,
) -> Result<(), Halt>
    ensures { Leads (told_of around.now) (spec.looked (context_of around.now) body typed.now made.old) result made.new }
{
    if !body {
        return Ok(());
    }
    look_at(alloc, around, made, &typed.ty)
}

fn know(
    alloc: Global,
    around: &Around<'_>,
    made: &mut Made,
    body: bool,
    gathered: &Gathered,
    at: u32,
    own: Option<u32>,
    typed: Typed,
) -> Result<Option<Typed>, AllocError>
    ensures { IfOk result (λ t. (t, made.new) ≡ spec.known (context_of around.now) body gathered.now at own typed made.old) }
{
    let typed = parameter_of(alloc, around, made, body, gathered, at, own, typed)?;
    Ok(Some(typed))
}

fn enter_as(
    alloc: Global,
    around: &Around<'_>,
    made: &mut Made,
    body: bool,
    gathered: &Gathered,
    at: u32,
    own: Option<u32>,
    typed: Typed,
) -> Result<Option<Typed>, Halt>
    ensures { Comes (told_of around.now) (spec.entered_as (context_of around.now) body gathered.now at own typed made.old) (λ t. t) result made.new }
{
    match look(alloc, around, made, body, &typed) {
        Ok(()) => (),
        Err(halt) => {
            drop(typed);
            return Err(halt);
        }
    }
    match know(alloc, around, made, body, gathered, at, own, typed) {
        Ok(typed) => Ok(typed),
        Err(_) => Err(Halt::NoMemory),
    }
}

/// A parameter, whose specifiers and declarator were read: `at` is its name, or its first token where it has none, and `quals` are the
/// qualifiers in its outermost brackets. One that stands `alone` may stand for none. `body` says that it is one of a function definition: what
/// is known of its type's tag is asked for then. What has a fault has no type; the fault is noted.
pub fn enter(
    alloc: Global,
    around: &Around<'_>,
    made: &mut Made,
    body: bool,
    gathered: &Gathered,
    alone: bool,
    at: u32,
    own: Option<u32>,
    quals: Qual,
    typed: Typed,
) -> Result<Option<Typed>, Halt>
    ensures { Comes (told_of around.now) (spec.entered (context_of around.now) body gathered.now alone at own quals typed made.old) (λ t. t) result made.new }
{
    if alone && stands_for_none(gathered, own, &typed) {
        drop(typed);
        return Ok(None);
    }
    let Ok(typed) = adjusted(alloc, quals, typed) else {
        return Err(Halt::NoMemory);
    };
    enter_as(alloc, around, made, body, gathered, at, own, typed)
}
