// Labels and `goto` (ISO C11 6.8.1, 6.8.6.1).
ghost use Rattle.std.specs.Prelude.{◌≡◌, IfOk, option_map};
ghost use Rattle.stmt_rules.specs.Labels as spec;

use crate::faults::fault_of_name;
use scope_tables::{Entity, Scopes};
use shared_text::Name;
use std::alloc::{AllocError, Global};
use type_data::{Fault, Space};

fn twice(
    alloc: Global,
    at: u32,
    name: &Name,
    label: Option<&Entity>,
) -> Result<Option<Fault>, AllocError>
    ensures { IfOk result (λ f. f ≡ spec.twice at name.now (option_map (λ e. e.now) label.entry)) }
{
    match label {
        Some(_) => {
            let fault = fault_of_name(alloc, 601, at, name)?;
            Ok(Some(fault))
        }
        None => Ok(None),
    }
}

/// What a label, whose token is `at`, breaks (ISO C11 6.8.1p3): 601 where the function has one of its name in front of it. The innermost
/// scope of `labels` has those, in their name space. Nothing is declared. Its cost is one look-up; it fails for want of memory alone.
pub fn check_label(
    alloc: Global,
    at: u32,
    name: &Name,
    labels: &Scopes,
) -> Result<Option<Fault>, AllocError>
    ensures { IfOk result (λ f. f ≡ spec.label_fault at name.now labels.now) }
{
    let label = labels.find_here(&Space::Labels, name.as_str());
    twice(alloc, at, name, label)
}

fn nowhere(
    alloc: Global,
    at: u32,
    name: &Name,
    label: Option<&Entity>,
) -> Result<Option<Fault>, AllocError>
    ensures { IfOk result (λ f. f ≡ spec.nowhere at name.now (option_map (λ e. e.now) label.entry)) }
{
    match label {
        Some(_) => Ok(None),
        None => {
            let fault = fault_of_name(alloc, 610, at, name)?;
            Ok(Some(fault))
        }
    }
}

/// What a `goto` of a label, whose name's token is `at`, breaks (ISO C11 6.8.6.1p1): 610 where the function has no such label. The innermost
/// scope of `labels` has all labels of the function, so this is asked at the end of its body. Its cost is one look-up; it fails for want
/// of memory alone.
pub fn check_goto(
    alloc: Global,
    at: u32,
    name: &Name,
    labels: &Scopes,
) -> Result<Option<Fault>, AllocError>
    ensures { IfOk result (λ f. f ≡ spec.goto_fault at name.now labels.now) }
{
    let label = labels.find_here(&Space::Labels, name.as_str());
    nowhere(alloc, at, name, label)
}
