// The tokens on which warnings across units stand.
ghost use Rattle.std.specs.Prelude.{◌≡◌, ◌<◌, ◌^◌, ◌++◌, List, map, option_map, slice_get, IfOk, IfSome, OnOk};
ghost use Rattle.std.specs.List.{flat_map};
ghost use Rattle.unit_index.specs.Cross.{cross};
ghost use Rattle.unit_index.specs.Crossing as spec;
ghost use Rattle.unit_index.specs.Crossing.{sight};
ghost use Rattle.unit_index.specs.Matching.{Test};

use super::crossings::name_at;
use super::faults::unit_in;
use super::{CrossFault, UnitExports};
use crate::crossing::{Crossing, Crossings, Wrong};
use scope_tables::Export;
use std::alloc::{AllocError, Global};
use tok_data::{ShownFault, TokId};

fn rule_of(wrong: Wrong) -> u16
    ensures { result ≡ spec.rule_of wrong }
{
    match wrong {
        Wrong::OtherType => 801,
        Wrong::DefinedToo => 802,
    }
}

// The token on which such a warning falls, on a name.
fn token_of(export: &Export, wrong: Wrong) -> Option<&TokId>
    ensures { option_map (λ t. t.now) result ≡ spec.token_of export.now wrong }
{
    match wrong {
        Wrong::OtherType => Some(&export.first),
        Wrong::DefinedToo => export.defined.as_ref(),
    }
}

fn token_at<'a>(unit: &UnitExports<'a>, crossing: &Crossing) -> Option<&'a TokId>
    ensures { option_map (λ t. t.now) result ≡ spec.token_at unit.now crossing.now }
{
    match name_at(unit, crossing.nth) {
        Some(export) => token_of(export, crossing.wrong),
        None => None,
    }
}

fn add_placed(
    out: &mut Vec<CrossFault>,
    unit: &UnitExports<'_>,
    crossing: &Crossing,
) -> Result<(), AllocError>
    ensures { OnOk result (out.new.items ≡ out.old.items ++ spec.placed unit.now crossing.now) }
{
    let Some(tok) = token_at(unit, crossing) else {
        return Ok(());
    };
    let tok = tok.copy()?;
    let text = crossing.text.share()?;
    let rule = rule_of(crossing.wrong);
    let unit = unit.path().share()?;
    let fault = ShownFault { tok, rule, text };
    out.push(CrossFault { unit, fault })?;
    Ok(())
}

fn add_all_placed(
    out: &mut Vec<CrossFault>,
    unit: &UnitExports<'_>,
    crossings: &[Crossing],
) -> Result<(), AllocError>
    ensures { OnOk result (out.new.items ≡ out.old.items ++ flat_map (spec.placed unit.now) crossings.now) }
{
    let mut rest = crossings;
    'crossings: while let Some((crossing, behind)) = rest.split_first() {
        add_placed(out, unit, crossing)?;
        rest = behind;
    }
    Ok(())
}

pub(super) fn crossings_in(crossings: &[Crossings], place: u64) -> Option<&[Crossing]>
    ensures { option_map (λ cs. cs.now) result ≡ slice_get crossings.now place }
{
    match crossings.get(place as usize) {
        Some(crossings) => Some(crossings.as_slice()),
        None => None,
    }
}

/// The warnings of some units on the tokens that their names have, in the order of the units.
pub(super) fn all_placed<'a>(
    alloc: Global,
    units: &'a [UnitExports<'a>],
    crossings: &[Crossings],
) -> Result<Vec<CrossFault>, AllocError>
    ensures { IfOk result (λ v. v.items ≡ spec.all_placed units.now crossings.now) }
{
    let mut out = Vec::new(alloc);
    let mut place = 0;
    'units: loop {
        let Some(unit) = unit_in(units, place) else {
            return Ok(out);
        };
        let Some(of_unit) = crossings_in(crossings, place) else {
            return Ok(out);
        };
        add_all_placed(&mut out, unit, of_unit)?;
        place += 1;
    }
}

// The faults without their units.
fn faults_of(alloc: Global, placed: Vec<CrossFault>) -> Result<Vec<ShownFault>, AllocError>
    ensures { IfOk result (λ v. v.items ≡ map (λ c. c.fault) placed.items) }
{
    let mut out = Vec::with_capacity(alloc, placed.len())?;
    'placed: for one in placed {
        let CrossFault { unit: _, fault } = one;
        out.push(fault)?;
    }
    Ok(out)
}

/// The faults of `cross_faults`, from what `crossings` gave of units that saw the same of one another as these: each on the token that its
/// name has in these units. It costs the units and the warnings. It fails for want of memory alone.
pub fn faults_placed<'a>(
    alloc: Global,
    units: &'a [UnitExports<'a>],
    crossings: &[Crossings],
) -> Result<Vec<ShownFault>, AllocError>
    ensures { IfOk result (λ v. (test : Test) → crossings.now ≡ spec.all_crossings test (map sight units.now) → v.items ≡ map (λ c. c.fault) (cross test units.now)) }
{
    let placed = all_placed(alloc, units, crossings)?;
    let faults = faults_of(alloc, placed)?;
    Ok(faults)
}
