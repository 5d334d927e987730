// Identifiers as primary expressions (ISO C11 6.5.1).
ghost use Rattle.std.specs.Prelude.{◌≡◌, IfOk, OnOk, option_map};
ghost use Rattle.elab_core.specs.Names as spec;
ghost use Rattle.elab_state.specs.Names as names;
ghost use Rattle.elab_state.specs.Comes.{Comes};
ghost use Rattle.elab_state.specs.Seen.{context_of, told_of};
ghost use Rattle.elab_state.specs.Tokens.{spelling};

use crate::rows::row;
use elab_state::{Around, Halt, Made, denoted, name_at, use_entity};
use expr_rules::Form;
use scope_tables::Entity;
use shared_text::Name;
use std::alloc::{AllocError, Global};
use type_data::{Judged, Space};

pub(crate) fn share(alloc: Global, entity: Option<&Entity>) -> Result<Option<Entity>, AllocError>
    ensures { IfOk result (λ copy. copy ≡ option_map (λ e. e.now) entity.entry) }
{
    match entity {
        Some(entity) => {
            let entity = entity.share(alloc)?;
            Ok(Some(entity))
        }
        None => Ok(None),
    }
}

fn use_if_any(
    around: &Around<'_>,
    made: &mut Made,
    counted: bool,
    at: u32,
    entity: &Option<Entity>,
) -> Result<(), AllocError>
    ensures { OnOk result (made.new ≡ spec.used_if_any (context_of around.now) counted at entity.now made.old) }
{
    match entity {
        Some(entity) => use_entity(around, made, counted, at, entity),
        None => Ok(()),
    }
}

// What a name denotes, as a copy.
fn found(
    alloc: Global,
    around: &Around<'_>,
    made: &Made,
    space: Space,
    name: &Name,
) -> Result<Option<Entity>, Halt>
    ensures { Comes (told_of around.now) (names.denoted (context_of around.now) space name.now made.now) (λ e. e) result made.now }
{
    match denoted(around, made, space, name) {
        Ok(entity) => match share(alloc, entity) {
            Ok(entity) => Ok(entity),
            Err(_) => Err(Halt::NoMemory),
        },
        Err(halt) => Err(halt),
    }
}

// What the spelling of a token denotes, as a copy.
pub(crate) fn found_at(
    alloc: Global,
    around: &Around<'_>,
    made: &Made,
    space: Space,
    at: u32,
) -> Result<Option<Entity>, Halt>
    ensures { Comes (told_of around.now) (names.denoted (context_of around.now) space (spelling (context_of around.now).tokens at) made.now) (λ e. e) result made.now }
{
    let Ok(name) = name_at(alloc, around.tokens, at) else {
        return Err(Halt::NoMemory);
    };
    found(alloc, around, made, space, &name)
}

fn used_row(
    alloc: Global,
    around: &Around<'_>,
    made: &mut Made,
    counted: bool,
    at: u32,
    entity: Option<Entity>,
) -> Result<Judged, Halt>
    ensures { Comes (told_of around.now) (spec.used_row (context_of around.now) counted at entity made.old) (λ j. j) result made.new }
{
    let Ok(()) = use_if_any(around, made, counted, at, &entity) else {
        drop(entity);
        return Err(Halt::NoMemory);
    };
    let Ok(name) = name_at(alloc, around.tokens, at) else {
        drop(entity);
        return Err(Halt::NoMemory);
    };
    row(alloc, around, made, at, Form::Ident(name, entity), &[])
}

/// An identifier: what it denotes is used there, and counts as a use where `counted` says so.
pub fn identifier(
    alloc: Global,
    around: &Around<'_>,
    made: &mut Made,
    counted: bool,
    at: u32,
) -> Result<Judged, Halt>
    ensures { Comes (told_of around.now) (spec.identifier (context_of around.now) counted at made.old) (λ j. j) result made.new }
{
    let entity = match found_at(alloc, around, made, Space::Ordinary, at) {
        Ok(entity) => entity,
        Err(halt) => return Err(halt),
    };
    used_row(alloc, around, made, counted, at, entity)
}
