// Whether a plan leaves what each token is and denotes.
ghost use Rattle.std.specs.Prelude.{◌≡◌, ◌≢◌, Err, IfOk};
ghost use Rattle.rename_core.specs.Clashes as spec;
ghost use Rattle.rename_core.specs.Kept.{IsKept};
ghost use Rattle.rename_core.specs.declared.error.RenameError.TheVariants.{NoMemory};

use crate::class::Plan;
use crate::comparing::{first_in_other, first_named, first_since};
use crate::error::RenameError;
use crate::lookups::{kinds_told, units_told};
use crate::views::UnitView;
use shared_text::Name;
use std::alloc::{AllocError, Global};
use tok_data::TokIds;

/// The tokens to edit, and what is put in the place of each.
#[derive(Drop)]
pub struct Edits {
    /// By the names of their texts and by number, each once.
    pub toks: TokIds,
    pub new_name: Name,
}

/// Whether the class has a name with external linkage, and the new one is another.
fn changes(plan: &Plan) -> bool
    ensures { result ≡ spec.changes plan.now.class.external plan.now.new_name }
{
    match &plan.class.external {
        Some(old) => *old != plan.new_name,
        None => false,
    }
}

fn external_taken(plan: &Plan, before: &[UnitView<'_>]) -> Result<Option<RenameError>, AllocError>
    ensures { IfOk result (λ o. o ≡ spec.external_taken plan.now before.now) }
{
    if !changes(plan) {
        return Ok(None);
    }
    let found = first_named(&plan.new_name, before)?;
    match found {
        Some(tok) => Ok(Some(RenameError::ExternalTaken(tok))),
        None => Ok(None),
    }
}

fn clash_of_kinds(
    alloc: Global,
    plan: &Plan,
    before: &[UnitView<'_>],
    after: &[UnitView<'_>],
) -> Result<Option<RenameError>, AllocError>
    ensures { IfOk result (λ o. o ≡ spec.clash_of_kinds plan.now before.now after.now) }
{
    let was = kinds_told(alloc, before)?;
    let edited = kinds_told(alloc, after)?;
    let found = first_in_other(&was, &edited, plan.class.toks.as_slice())?;
    match found {
        Some(tok) => Ok(Some(RenameError::Clash(tok))),
        None => Ok(None),
    }
}

fn clash_of_bindings(
    alloc: Global,
    plan: &Plan,
    before: &[UnitView<'_>],
    after: &[UnitView<'_>],
) -> Result<Option<RenameError>, AllocError>
    ensures { IfOk result (λ o. o ≡ spec.clash_of_bindings plan.now before.now after.now) }
{
    let units = units_told(alloc, after)?;
    let found = first_since(plan, before, &units)?;
    match found {
        Some(tok) => Ok(Some(RenameError::Clash(tok))),
        None => Ok(None),
    }
}

fn effect(
    alloc: Global,
    plan: &Plan,
    before: &[UnitView<'_>],
    after: &[UnitView<'_>],
) -> Result<Option<RenameError>, AllocError>
    ensures { IfOk result (λ o. o ≡ spec.effect plan.now before.now after.now) }
{
    let taken = external_taken(plan, before)?;
    if let Some(refusal) = taken {
        return Ok(Some(refusal));
    }
    let kinds = clash_of_kinds(alloc, plan, before, after)?;
    if let Some(refusal) = kinds {
        return Ok(Some(refusal));
    }
    let bindings = clash_of_bindings(alloc, plan, before, after)?;
    Ok(bindings)
}

/// The edits of a plan; refused where the class has a name with external linkage and some unit has the new one with external
/// linkage, where a text of the class would have other kinds of tokens or another number of them, or where a token would denote
/// something else in some unit. `before` has all units in the order of their paths, and `after` those of them that were read anew
/// with the edits made; a unit that has no view in `after` counts as it was. The views tell the kinds of the tokens of each text of
/// the class. Linear in what the views hold.
pub fn confirm(
    alloc: Global,
    plan: Plan,
    before: &[UnitView<'_>],
    after: &[UnitView<'_>],
) -> Result<Edits, RenameError>
    ensures outcome { result ≢ Err NoMemory → result ≡ spec.confirmed plan before.now after.now }
    ensures kept { IfOk result (λ _. IsKept plan before.now after.now) }
{
    let refused = match effect(alloc, &plan, before, after) {
        Ok(refused) => refused,
        Err(_) => return Err(RenameError::NoMemory),
    };
    if let Some(refusal) = refused {
        return Err(refusal);
    }
    let Plan { class, new_name } = plan;
    Ok(Edits {
        toks: class.toks,
        new_name,
    })
}
