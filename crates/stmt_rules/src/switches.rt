// `switch`, and its labels (ISO C11 6.8.1, 6.8.4.2).
ghost use Rattle.std.specs.Prelude.{◌≡◌, IfOk};
ghost use Rattle.stmt_rules.specs.Switches as spec;

use crate::faults::{fault, fault_of_type};
use std::alloc::{AllocError, Global};
use std::collections::BTreeSet;
use std::marker::Model;
use type_data::{CType, Fault, IntTy, Judged, Place, Value};
use type_rel::{converted, integer_type, is_bad, promote};

mod calls;
mod labels;

// A `switch` that is entered.
#[derive(Drop)]
struct Entered {
    ty: Option<IntTy>,
    values: BTreeSet<i128>,
    defaulted: bool,
}

impl Model for Entered {
    ghost use Rattle.stmt_rules.specs.Cases.{Cases};

    ghost Value = { Cases };

    ghost view = { λ e. record { ty = e.ty; values = e.values.keys; defaulted = e.defaulted } };
}

/// The `switch` statements that a place is within. Contracts see what is known of each of them there, innermost first.
#[derive(Drop)]
pub struct Switches {
    entered: Vec<Entered>,
}

impl Model for Switches {
    ghost use Rattle.std.specs.Prelude.{List, reverse};
    ghost use Rattle.stmt_rules.specs.Cases.{Cases};

    ghost Value = { List Cases };

    ghost view = { λ s. reverse s.entered.items };
}

fn controlled(
    alloc: Global,
    at: u32,
    integer: Option<IntTy>,
    ty: &CType,
) -> Result<Option<Fault>, AllocError>
    ensures { IfOk result (λ f. f ≡ spec.controlled at integer ty.now) }
{
    match integer {
        Some(_) => Ok(None),
        None => {
            let fault = fault_of_type(alloc, 604, at, ty)?;
            Ok(Some(fault))
        }
    }
}

/// What the controlling expression of a `switch`, whose keyword is `at`, breaks (ISO C11 6.8.4.2p1): 604, with its type after conversion,
/// where that is no integer type; nothing where it has a fault of its own. It fails for want of memory alone.
pub fn check_switch(alloc: Global, at: u32, judged: &Judged) -> Result<Option<Fault>, AllocError>
    ensures { IfOk result (λ f. f ≡ spec.switch_fault at judged.now) }
{
    if is_bad(&judged.ty) {
        return Ok(None);
    }
    let value = converted(alloc, judged)?;
    controlled(alloc, at, integer_type(&judged.ty), &value.ty)
}

fn width_of(place: Place) -> Option<u8>
    ensures { result ≡ spec.width_of place }
{
    match place {
        Place::BitField(width) => Some(width),
        Place::Value => None,
        Place::Object => None,
        Place::Register => None,
        Place::Function => None,
    }
}

#[tactic(auto, unfolding(crate::specs::Switches::promoted_type))]
fn promoted_type(judged: &Judged) -> CType
    ensures { result ≡ spec.promoted_type judged.now }
{
    promote(&judged.ty, width_of(judged.place))
}
