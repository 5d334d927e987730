// Enumerators (ISO C11 6.7.2.2).
ghost use Rattle.std.specs.Prelude.{◌≡◌, OnOk};
ghost use Rattle.elab_core.specs.Enumerating as spec;
ghost use Rattle.elab_state.specs.Seen.{context_of};
ghost use Rattle.elab_state.specs.Tokens.{spelling};

use crate::constants::needed;
use crate::notes::{constant_of, mark_if, name_token, note_by_name};
use crate::parameters::{anchor_here, declare_by};
use elab_state::{Around, Made, name_at};
use head_rules::{Constant, Enumerated, Enumerators};
use scope_tables::{Entity, Role};
use std::alloc::{AllocError, Global};
use type_data::Judged;

fn mark_earlier(
    alloc: Global,
    around: &Around<'_>,
    made: &mut Made,
    at: u32,
) -> Result<(), AllocError>
    ensures { OnOk result (made.new ≡ spec.denoting (context_of around.now) at None made.old) }
{
    let name = name_at(alloc, around.tokens, at)?;
    let anchor = anchor_here(made, &name)?;
    let done = mark_if(around, made, at, Role::Defines, &anchor);
    drop(anchor);
    done
}

fn denote(
    alloc: Global,
    around: &Around<'_>,
    made: &mut Made,
    at: u32,
    entity: Option<Entity>,
) -> Result<(), AllocError>
    ensures { OnOk result (made.new ≡ spec.denoting (context_of around.now) at entity made.old) }
{
    match entity {
        Some(entity) => declare_by(alloc, around, made, at, Role::Defines, entity),
        None => mark_earlier(alloc, around, made, at),
    }
}

fn enumerate(
    alloc: Global,
    around: &Around<'_>,
    made: &mut Made,
    list: &mut Enumerators,
    at: u32,
    value: Constant,
) -> Result<(), AllocError>
    ensures { OnOk result ((list.new, made.new) ≡ spec.enumerated (context_of around.now) at value list.old made.old) }
{
    let name = name_token(alloc, around, at)?;
    let Ok(enumerated) = list.add(alloc, &made.names, &name, value) else {
        drop(name);
        return Err(AllocError);
    };
    drop(name);
    let Enumerated { entity, fault } = enumerated;
    let Ok(()) = note_by_name(around, made, fault) else {
        drop(entity);
        return Err(AllocError);
    };
    denote(alloc, around, made, at, entity)
}

/// An enumerator without a value, which is the token `at`. Its fault is noted: 402 or 411.
pub fn count(
    alloc: Global,
    around: &Around<'_>,
    made: &mut Made,
    list: &mut Enumerators,
    at: u32,
) -> Result<(), AllocError>
    ensures { OnOk result ((list.new, made.new) ≡ spec.counted (context_of around.now) at list.old made.old) }
{
    enumerate(alloc, around, made, list, at, Constant::Absent)
}

/// An enumerator with a value, whose expression begins with the token `begins`. Its fault is noted: 402, 411, 530 or 531.
pub fn give(
    alloc: Global,
    around: &Around<'_>,
    made: &mut Made,
    list: &mut Enumerators,
    at: u32,
    begins: u32,
    value: &Judged,
) -> Result<(), AllocError>
    ensures { OnOk result ((list.new, made.new) ≡ spec.given (context_of around.now) at begins value.now list.old made.old) }
{
    let value = needed(alloc, made, begins, value)?;
    enumerate(alloc, around, made, list, at, constant_of(value))
}
