// What tags with a body, and alignment specifiers, state in a list of declaration specifiers (ISO C11 6.7).
ghost use Rattle.std.specs.Prelude.{◌≡◌, IfOk, OnOk};
ghost use Rattle.elab_core.specs.Listed as spec;
ghost use Rattle.elab_state.specs.Comes.{Comes};
ghost use Rattle.elab_state.specs.Seen.{context_of, told_of};

use crate::aligning::{align, align_as};
use crate::fielding::end_members;
use crate::operators::keyword_kind;
use crate::shapes::{Gathered, Typed};
use crate::specifiers::add_other;
use crate::tag_bodies::{OpenBody, body_type, end_body};
use elab_state::{Around, Halt, Made, spelling};
use head_rules::{Enumerators, Fields, Specified};
use std::alloc::{AllocError, Global};
use type_data::Judged;

/// `_Alignas ( constant-expression )`, whose keyword is the token `keyword` and whose expression begins with the token `begins`. Its fault is
/// noted: 417, 530 or 531.
pub fn add_alignment(
    alloc: Global,
    gathered: &mut Gathered,
    made: &mut Made,
    keyword: u32,
    begins: u32,
    size: &Judged,
) -> Result<(), AllocError>
    ensures { OnOk result ((gathered.new, made.new) ≡ spec.with_size keyword begins size.now gathered.old made.old) }
{
    let align = align(alloc, made, keyword, begins, size, gathered.align)?;
    gathered.align = align;
    Ok(())
}

/// `_Alignas ( type-name )`, whose keyword is the token `keyword`. What is known of the type's tag is asked for. Its fault is noted: 417.
pub fn add_alignment_of(
    alloc: Global,
    around: &Around<'_>,
    gathered: &mut Gathered,
    made: &mut Made,
    keyword: u32,
    typed: &Typed,
) -> Result<(), Halt>
    ensures { Comes (told_of around.now) (spec.with_size_of (context_of around.now) keyword typed.now gathered.old made.old) (λ _. gathered.new) result made.new }
{
    let align = match align_as(alloc, around, made, keyword, typed, gathered.align) {
        Ok(align) => align,
        Err(halt) => return Err(halt),
    };
    gathered.align = align;
    Ok(())
}

/// A tag without a body, whose keyword is the token `keyword`, and its type: none where it has a fault.
pub fn add_mention(around: &Around<'_>, gathered: &mut Gathered, keyword: u32, typed: Option<Typed>)
    ensures { gathered.new ≡ spec.with_mention (context_of around.now) keyword typed gathered.old }
{
    let kind = keyword_kind(spelling(around.tokens, keyword));
    add_other(gathered, typed);
    gathered.specified = Specified::Tag(kind, true);
}

fn add_body(gathered: &mut Gathered, body: &OpenBody) -> Result<(), AllocError>
    ensures { OnOk result (gathered.new ≡ spec.with_body body.now gathered.old) }
{
    let typed = body_type(body)?;
    add_other(gathered, typed);
    gathered.specified = Specified::Tag(body.kind, body.name.is_some());
    Ok(())
}

/// A structure or union behind its members: it is complete from here on.
pub fn add_members(
    alloc: Global,
    around: &Around<'_>,
    gathered: &mut Gathered,
    made: &mut Made,
    body: &OpenBody,
    fields: Fields,
) -> Result<(), AllocError>
    ensures { OnOk result ((gathered.new, made.new) ≡ spec.behind_members (context_of around.now) body.now fields gathered.old made.old) }
{
    add_body(gathered, body)?;
    let members = end_members(alloc, around, made, fields)?;
    end_body(alloc, made, body, members)
}

/// An enumeration behind its enumerators, likewise.
pub fn add_enumerators(
    alloc: Global,
    gathered: &mut Gathered,
    made: &mut Made,
    body: &OpenBody,
    list: Enumerators,
) -> Result<(), AllocError>
    ensures { OnOk result ((gathered.new, made.new) ≡ spec.behind_enumerators body.now list gathered.old made.old) }
{
    add_body(gathered, body)?;
    end_body(alloc, made, body, list.into_members())
}
