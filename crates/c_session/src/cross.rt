// The warnings across units.
ghost use Rattle.std.specs.Prelude.{◌≡◌, map, IfOk, IfSome};
ghost use Rattle.c_session.specs.Units.{WereCrossed, crossed, cross_faults, exported};

use std::alloc::{AllocError, Global};
use tok_data::ShownFault;
use unit_index::{
    Crossings, Index, IndexedUnit, News, UnitExports, crossings_after, faults_placed,
};

// What each of the units shows to the others.
fn exported(alloc: Global, units: &[IndexedUnit]) -> Result<Vec<UnitExports<'_>>, AllocError>
    ensures { IfOk result (λ v. v.items ≡ map exported units.now) }
{
    let mut out = Vec::new(alloc);
    'units: for unit in units {
        out.push(UnitExports {
            path: unit.path(),
            exports: unit.exports(),
        })?;
    }
    Ok(out)
}

#[tactic(auto, unfolding(crate::specs::Units::crossed))]
fn crossings_of(alloc: Global, units: &[IndexedUnit]) -> Result<Vec<Crossings>, AllocError>
    ensures { IfOk result (λ v. v.items ≡ crossed units.now) }
{
    let exports = exported(alloc, units)?;
    let index = Index::of(alloc, exports.as_slice())?;
    let all = index.crossings(alloc)?;
    Ok(all)
}

// The same from what was kept of the units, by what they show otherwise than before.
#[tactic(auto, unfolding(crate::specs::Units::crossed))]
fn crossings_by(
    alloc: Global,
    kept: Vec<Crossings>,
    news: &News,
    units: &[IndexedUnit],
) -> Result<Vec<Crossings>, AllocError>
    ensures { IfOk result (λ v. WereCrossed kept.items news.now units.now → v.items ≡ crossed units.now) }
{
    if news.is_none() {
        return Ok(kept);
    }
    let exports = exported(alloc, units)?;
    let renewed = crossings_after(alloc, exports.as_slice(), kept.as_slice(), news)?;
    Ok(renewed)
}

/// The warnings across units, which stand in order of path, without their tokens: where some were kept, these, anew on the names that the
/// news are about. The cost is linear in the number of names that the units show to one another, but for units that show what they showed;
/// and in the types that names lead to, those that the news are about, or without what was kept all names of later units.
pub(crate) fn crossings_now(
    alloc: Global,
    kept: Option<Vec<Crossings>>,
    news: &News,
    units: &[IndexedUnit],
) -> Result<Vec<Crossings>, AllocError>
    ensures { IfOk result (λ v. IfSome kept (λ k. WereCrossed k.items news.now units.now) → v.items ≡ crossed units.now) }
{
    match kept {
        Some(kept) => {
            let renewed = crossings_by(alloc, kept, news, units)?;
            Ok(renewed)
        }
        None => {
            let anew = crossings_of(alloc, units)?;
            Ok(anew)
        }
    }
}

/// The warnings across units (ISO C11 6.2.7p2, 6.9p5), on the tokens of these. It costs the units and the warnings.
#[tactic(auto, unfolding(crate::specs::Units::cross_faults, crate::specs::Units::crossed))]
pub(crate) fn cross_faults(
    alloc: Global,
    units: &[IndexedUnit],
    crossings: &[Crossings],
) -> Result<Vec<ShownFault>, AllocError>
    ensures { IfOk result (λ v. crossings.now ≡ crossed units.now → v.items ≡ cross_faults units.now) }
{
    let exports = exported(alloc, units)?;
    let faults = faults_placed(alloc, exports.as_slice(), crossings)?;
    Ok(faults)
}
