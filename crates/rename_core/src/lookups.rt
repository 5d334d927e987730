// Look-ups in views by text and by path.
ghost use Rattle.std.specs.Prelude.{◌≡◌, ℕ, List, Some, None, is_some, option_map, if◌then◌else◌, IfOk, OnOk};
ghost use Rattle.rename_core.specs.Kept.{at};
ghost use Rattle.rename_core.specs.Occurrences.{or_later};
ghost use Rattle.rename_core.specs.Views as spec;

use crate::views::{FileKinds, UnitView};
use scope_tables::Occ;
use std::alloc::{AllocError, Global};
use std::collections::HashMap;
use tok_data::{FileId, PpKind};
use uri_paths::Path;

#[tactic(auto, unfolding(crate::specs::Kept::at))]
fn no_kinds<'a>(alloc: Global) -> HashMap<FileId, &'a [PpKind]>
    ensures { (q : List ℕ) → at result q ≡ None }
{
    HashMap::new(alloc)
}

/// The kinds that are told of a text.
#[tactic(auto, unfolding(crate::specs::Kept::at))]
pub(crate) fn kinds_at<'a>(
    told: &HashMap<FileId, &'a [PpKind]>,
    file: &FileId,
) -> Option<&'a [PpKind]>
    ensures { option_map (λ k. k.now) result ≡ at told.now file.now }
{
    told.get(file).copied()
}

#[tactic(auto, unfolding(crate::specs::Kept::at))]
fn has_kinds<'a>(told: &HashMap<FileId, &'a [PpKind]>, file: &FileId) -> bool
    ensures { result ≡ is_some (at told.now file.now) }
{
    told.contains_key(file)
}

#[tactic(auto, unfolding(crate::specs::Kept::at))]
fn put_kinds<'a>(
    told: &mut HashMap<FileId, &'a [PpKind]>,
    one: &'a FileKinds,
) -> Result<(), AllocError>
    ensures { OnOk result ((q : List ℕ) → at told.new q ≡ (if spec.same_text one.now.file q then Some one.now.kinds else at told.old q)) }
{
    let file = one.file.copy()?;
    told.insert(file, one.kinds.as_slice())
        .map_err(AllocError::from)?;
    Ok(())
}

fn add_kinds<'a>(
    told: &mut HashMap<FileId, &'a [PpKind]>,
    one: &'a FileKinds,
) -> Result<(), AllocError>
    ensures { OnOk result ((q : List ℕ) → at told.new q ≡ or_later (at told.old q) (if spec.same_text q one.now.file then Some one.now.kinds else None)) }
{
    if has_kinds(told, &one.file) {
        return Ok(());
    }
    put_kinds(told, one)?;
    Ok(())
}

fn add_all<'a>(
    told: &mut HashMap<FileId, &'a [PpKind]>,
    kinds: &'a [FileKinds],
) -> Result<(), AllocError>
    ensures { OnOk result ((q : List ℕ) → at told.new q ≡ or_later (at told.old q) (spec.kinds_of q kinds.now)) }
{
    let mut rest = kinds;
    'kinds: while let Some((one, behind)) = rest.split_first() {
        add_kinds(told, one)?;
        rest = behind;
    }
    Ok(())
}

/// The kinds that the views tell of each text.
pub(crate) fn kinds_told<'a>(
    alloc: Global,
    views: &[UnitView<'a>],
) -> Result<HashMap<FileId, &'a [PpKind]>, AllocError>
    ensures { IfOk result (λ r. (q : List ℕ) → at r q ≡ spec.kinds_in views.now q) }
{
    let mut told = no_kinds(alloc);
    let mut place = 0;
    'views: loop {
        let Some(view) = views.get(place) else {
            return Ok(told);
        };
        add_all(&mut told, view.kinds())?;
        place += 1;
    }
}

#[tactic(auto, unfolding(crate::specs::Kept::at))]
fn no_occs<'a>(alloc: Global) -> HashMap<Path, &'a [Occ]>
    ensures { (q : List ℕ) → at result q ≡ None }
{
    HashMap::new(alloc)
}

/// The occurrences of a unit.
#[tactic(auto, unfolding(crate::specs::Kept::at))]
pub(crate) fn occs_at<'a>(units: &HashMap<Path, &'a [Occ]>, path: &Path) -> Option<&'a [Occ]>
    ensures { option_map (λ k. k.now) result ≡ at units.now path.now }
{
    units.get(path).copied()
}

#[tactic(auto, unfolding(crate::specs::Kept::at))]
fn has_unit<'a>(units: &HashMap<Path, &'a [Occ]>, path: &Path) -> bool
    ensures { result ≡ is_some (at units.now path.now) }
{
    units.contains_key(path)
}

#[tactic(auto, unfolding(crate::specs::Kept::at))]
fn put_unit<'a>(units: &mut HashMap<Path, &'a [Occ]>, view: &UnitView<'a>) -> Result<(), AllocError>
    ensures { OnOk result ((q : List ℕ) → at units.new q ≡ (if spec.same_text view.now.path q then Some view.now.occs else at units.old q)) }
{
    let path = view.unit().share()?;
    units.insert(path, view.occs()).map_err(AllocError::from)?;
    Ok(())
}

fn add_unit<'a>(units: &mut HashMap<Path, &'a [Occ]>, view: &UnitView<'a>) -> Result<(), AllocError>
    ensures { OnOk result ((q : List ℕ) → at units.new q ≡ or_later (at units.old q) (if spec.same_text q view.now.path then Some view.now.occs else None)) }
{
    if has_unit(units, view.unit()) {
        return Ok(());
    }
    put_unit(units, view)?;
    Ok(())
}

/// The occurrences of each unit.
pub(crate) fn units_told<'a>(
    alloc: Global,
    views: &[UnitView<'a>],
) -> Result<HashMap<Path, &'a [Occ]>, AllocError>
    ensures { IfOk result (λ r. (q : List ℕ) → at r q ≡ spec.occs_in views.now q) }
{
    let mut units = no_occs(alloc);
    let mut place = 0;
    'views: loop {
        let Some(view) = views.get(place) else {
            return Ok(units);
        };
        add_unit(&mut units, view)?;
        place += 1;
    }
}
