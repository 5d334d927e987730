// Declarations that are a tag alone (ISO C11 6.7.2.3p7).
ghost use Rattle.std.specs.Prelude.{◌≡◌, OnOk, option_map};
ghost use Rattle.elab_core.specs.Alone as spec;
ghost use Rattle.elab_core.specs.Tags.{mention_of as mention};
ghost use Rattle.elab_core.specs.declared.tags.Mention.TheVariants.{Nothing};
ghost use Rattle.elab_state.specs.Comes.{Leads};
ghost use Rattle.elab_state.specs.Seen.{context_of, told_of};

use crate::operators::keyword_kind;
use crate::tag_bodies::{before, borrowed};
use crate::tags::{Mention, mention_of, new_tag, note_tag, same_kind};
use elab_state::{Around, Halt, Made, mark, spelling};
use scope_tables::{Anchor, Entity, Role};
use std::alloc::{AllocError, Global};
use type_data::TagKind;

fn check(
    alloc: Global,
    around: &Around<'_>,
    made: &mut Made,
    kind: TagKind,
    at: u32,
    had: TagKind,
) -> Result<(), AllocError>
    ensures { OnOk result (made.new ≡ spec.checked (context_of around.now) kind at had made.old) }
{
    if same_kind(had, kind) {
        return Ok(());
    }
    note_tag(alloc, around, made, 412, at)
}

fn again(
    alloc: Global,
    around: &Around<'_>,
    made: &mut Made,
    kind: TagKind,
    at: u32,
    anchor: &Anchor,
    had: TagKind,
) -> Result<(), AllocError>
    ensures { OnOk result (made.new ≡ spec.again (context_of around.now) kind at anchor.now had made.old) }
{
    check(alloc, around, made, kind, at, had)?;
    mark(around, made, at, anchor, Role::Declares)
}

fn open(
    alloc: Global,
    around: &Around<'_>,
    made: &mut Made,
    kind: TagKind,
    at: u32,
) -> Result<(), AllocError>
    ensures { OnOk result (made.new ≡ spec.known (context_of around.now) kind at Nothing made.old) }
{
    let typed = new_tag(alloc, around, made, kind, at)?;
    drop(typed);
    Ok(())
}

fn know(
    alloc: Global,
    around: &Around<'_>,
    made: &mut Made,
    kind: TagKind,
    at: u32,
    mention: &Mention,
) -> Result<(), AllocError>
    ensures { OnOk result (made.new ≡ spec.known (context_of around.now) kind at mention.now made.old) }
{
    match mention {
        Mention::Nothing => open(alloc, around, made, kind, at),
        Mention::Other => Ok(()),
        Mention::Tag(anchor, _, had) => again(alloc, around, made, kind, at, anchor, *had),
    }
}

fn know_found(
    alloc: Global,
    around: &Around<'_>,
    made: &mut Made,
    kind: TagKind,
    at: u32,
    entity: &Option<Entity>,
) -> Result<(), AllocError>
    ensures { OnOk result (made.new ≡ spec.known (context_of around.now) kind at (mention entity.now) made.old) }
{
    let mention = mention_of(borrowed(entity))?;
    know(alloc, around, made, kind, at, &mention)
}

fn declare(
    alloc: Global,
    around: &Around<'_>,
    made: &mut Made,
    kind: TagKind,
    at: u32,
) -> Result<(), Halt>
    ensures { Leads (told_of around.now) (spec.declared (context_of around.now) kind at made.old) result made.new }
{
    let entity = match before(alloc, around, made, at) {
        Ok(entity) => entity,
        Err(halt) => return Err(halt),
    };
    match know_found(alloc, around, made, kind, at, &entity) {
        Ok(()) => {
            drop(entity);
            Ok(())
        }
        Err(_) => {
            drop(entity);
            Err(Halt::NoMemory)
        }
    }
}

/// A declaration that is a structure's or union's tag alone, the token `at` behind its keyword: the tag is declared in the innermost scope,
/// where it isn't declared in it. What an item in front declares at file scope is asked for. Its fault is noted: 412 for a tag of another
/// kind.
pub fn declare_tag(
    alloc: Global,
    around: &Around<'_>,
    made: &mut Made,
    keyword: u32,
    at: u32,
) -> Result<(), Halt>
    ensures { Leads (told_of around.now) (spec.alone (context_of around.now) keyword at made.old) result made.new }
{
    let kind = keyword_kind(spelling(around.tokens, keyword));
    declare(alloc, around, made, kind, at)
}
