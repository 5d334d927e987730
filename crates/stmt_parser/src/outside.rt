// The identifiers in force behind a statement, as its front tells (ISO C11 6.2.1, 6.7.2.2, 6.8).
ghost use Rattle.std.specs.Prelude.{◌≡◌, if◌then◌else◌, Some, None, IfOk};
ghost use Rattle.c_parser.specs.Words.{kind_in};
ghost use Rattle.stmt_parser.specs.Steps as spec;

use crate::steps::Step;
use c_parser::{Kind, Scope};
use std::alloc::AllocError;

// Whether a label begins so.
fn begins_label(kind: Kind) -> bool
    ensures { result ≡ spec.begins_label kind }
{
    matches!(
        kind,
        Kind::Identifier | Kind::TypeName(_) | Kind::Case | Kind::Default
    )
}

// What stands in front of a lead that is no label.
fn unless_label<'a>(front: Scope<'a>, place: u32) -> Option<Scope<'a>>
    ensures { result ≡ (if spec.begins_label (kind_in front.entry place) then None else Some front.entry) }
{
    if begins_label(front.kind_at(place)) {
        return None;
    }
    Some(front)
}

// What this step at `place` tells.
fn told<'a>(
    front: Scope<'a>,
    place: u32,
    step: &Step,
    behind: &Scope<'a>,
) -> Result<Option<Scope<'a>>, AllocError>
    ensures { IfOk result (λ o. o ≡ spec.told front.entry place step.now behind.now) }
{
    match step {
        Step::Led(_) => Ok(unless_label(front, place)),
        Step::Opened(_) => Ok(Some(front)),
        Step::Whole(_) => {
            let shared = behind.share()?;
            Ok(Some(shared))
        }
    }
}

// What is known of the identifiers in force behind a statement, once a step of it was read.
pub(crate) fn outside<'a>(
    outer: Option<Scope<'a>>,
    front: Scope<'a>,
    place: u32,
    step: &Step,
    behind: &Scope<'a>,
) -> Result<Option<Scope<'a>>, AllocError>
    ensures { IfOk result (λ o. o ≡ spec.outer_of outer.entry (spec.told front.entry place step.now behind.now)) }
{
    let Some(known) = outer else {
        let told = told(front, place, step, behind)?;
        return Ok(told);
    };
    Ok(Some(known))
}
