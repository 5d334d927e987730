// What a name means (ISO C11 6.2.1p4), and what the token that spells it does.
ghost use Rattle.std.specs.Prelude.{◌≡◌, IfOk, OnOk, option_map};
ghost use Rattle.elab_state.specs.Comes.{Answers, Comes};
ghost use Rattle.elab_state.specs.Names as spec;
ghost use Rattle.elab_state.specs.Seen.{context_of, told_of};

use crate::around::Around;
use crate::halt::Halt;
use crate::known::Known;
use crate::made::Made;
use crate::numbers::own_token;
use crate::tokens::spelling;
use crate::wants::Wanted;
use scope_tables::{Anchor, Entity, Linkage, Occ, Role};
use shared_text::Name;
use std::alloc::AllocError;
use type_data::Space;

/// The answer to a question; a want of it where it isn't known.
pub(crate) fn asked(known: &Known, wanted: Wanted) -> Result<&Option<Entity>, Halt>
    ensures { Answers known.now wanted (λ a. a.now) result }
{
    match known.get(&wanted) {
        Some(answer) => Ok(answer),
        None => Err(Halt::Wants(wanted)),
    }
}

// What it denotes in the scopes of the part, else in those round it.
fn visible<'a>(
    around: &Around<'a>,
    made: &'a Made,
    space: &Space,
    name: &Name,
) -> Option<&'a Entity>
    ensures { option_map (λ e. e.now) result ≡ spec.visible (context_of around.now) space.now name.now made.now }
{
    match made.names.find(space, name.as_str()) {
        Some(entity) => Some(entity),
        None => around.outer.find(space, name.as_str()),
    }
}

fn borrowed(answer: &Option<Entity>) -> Option<&Entity>
    ensures { option_map (λ e. e.now) result ≡ answer.now }
{
    match answer {
        Some(entity) => Some(entity),
        None => None,
    }
}

/// What a name denotes in a name space (6.2.1p4): in the scopes of the part, else in those round it, else in front of the item, which is
/// asked for. It takes no memory.
pub fn denoted<'a>(
    around: &Around<'a>,
    made: &'a Made,
    space: Space,
    name: &Name,
) -> Result<Option<&'a Entity>, Halt>
    ensures { Comes (told_of around.now) (spec.denoted (context_of around.now) space name.now made.now) (λ e. option_map (λ one. one.now) e) result made.now }
{
    if let Some(entity) = visible(around, made, &space, name) {
        return Ok(Some(entity));
    }
    let Ok(name) = name.share() else {
        return Err(Halt::NoMemory);
    };
    match asked(around.known, Wanted { space, name }) {
        Ok(answer) => Ok(borrowed(answer)),
        Err(halt) => Err(halt),
    }
}

fn occ(around: &Around<'_>, at: u32, anchor: &Anchor, role: Role) -> Result<Occ, AllocError>
    ensures { IfOk result (λ o. o ≡ spec.occ (context_of around.now) at anchor.now role) }
{
    let tok = own_token(around, at)?;
    let anchor = anchor.share()?;
    Ok(Occ { tok, anchor, role })
}

/// A token is an occurrence of what has this anchor. One that spells `__func__` is none (6.4.2.2).
#[tactic(auto, unfolding(crate::specs::Names::occurs))]
pub fn mark(
    around: &Around<'_>,
    made: &mut Made,
    at: u32,
    anchor: &Anchor,
    role: Role,
) -> Result<(), AllocError>
    ensures { OnOk result (made.new ≡ spec.occurs (context_of around.now) at anchor.now role made.old) }
{
    if spelling(around.tokens, at) == "__func__" {
        return Ok(());
    }
    let occ = occ(around, at, anchor, role)?;
    made.occs.push(occ)?;
    Ok(())
}

fn counts(counted: bool, linkage: Linkage) -> bool
    ensures { result ≡ spec.counts counted linkage }
{
    match linkage {
        Linkage::None => false,
        Linkage::Internal => counted,
        Linkage::External => false,
    }
}

/// An entity is used: where that counts and it has internal linkage, its name is noted (6.9p3).
pub fn note_use(made: &mut Made, counted: bool, entity: &Entity) -> Result<(), AllocError>
    ensures { OnOk result (made.new ≡ spec.uses counted entity.now made.old) }
{
    if counts(counted, entity.linkage) {
        let name = entity.name.share()?;
        made.used.push(name)?;
    }
    Ok(())
}

/// A token uses an entity: it is an occurrence of it, and counts as a use of what has internal linkage where `counted` says so.
pub fn use_entity(
    around: &Around<'_>,
    made: &mut Made,
    counted: bool,
    at: u32,
    entity: &Entity,
) -> Result<(), AllocError>
    ensures { OnOk result (made.new ≡ spec.used (context_of around.now) counted at entity.now made.old) }
{
    mark(around, made, at, &entity.anchor, Role::Uses)?;
    note_use(made, counted, entity)
}
