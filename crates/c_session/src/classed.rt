// The class of a token over all units.
ghost use Rattle.std.specs.Prelude.{◌≡◌, map, IfOk};
ghost use Rattle.c_session.specs.Classed as spec;

use rename_core::{Class, class_of, classes_are_lists};
use scope_tables::Occ;
use std::alloc::{AllocError, Global};
use tok_data::TokId;

/// The class of a token, with its name and what stands in the way of another one. Each unit is given by its occurrences; units stand in the order of their
/// paths. Linear in the number of occurrences; the tokens of the class are sorted. It fails for want of memory alone.
#[tactic(auto, unfolding(crate::specs::Classed::class_in))]
pub fn class_in(alloc: Global, units: &[&[Occ]], tok: &TokId) -> Result<Class, AllocError>
    ensures { IfOk result (λ class. class ≡ spec.class_in (map (λ occs. occs.now) units.now) tok.now) }
{
    classes_are_lists();
    let class = class_of(alloc, units, tok)?;
    Ok(class)
}
