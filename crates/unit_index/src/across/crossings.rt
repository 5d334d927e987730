// The warnings across units without their tokens.
ghost use Rattle.std.specs.Prelude.{◌≡◌, ◌<◌, ◌^◌, ◌++◌, ◌∷◌, [], map, option_map, slice_get, IfOk, IfSome, OnOk};
ghost use Rattle.unit_index.specs.Crossing as spec;
ghost use Rattle.unit_index.specs.Crossing.{origin, seen, sight};
ghost use Rattle.unit_index.specs.Exported.{from_of};
ghost use Rattle.unit_index.specs.Matching.{IsExact, IsTest, Test, matched};

use super::faults::{definition_message, is_at, type_message, unit_in};
use super::{Index, UnitExports};
use crate::crossing::{Crossing, Crossings, Wrong};
use crate::exported::Exporter;
use crate::matching::matches;
use scope_tables::Export;
use shared_text::Name;
use std::alloc::{AllocError, Global};
use type_data::Tags;
use uri_paths::Path;

/// The nth name of a unit.
pub(super) fn name_at<'a>(unit: &UnitExports<'a>, nth: u64) -> Option<&'a Export>
    ensures name { option_map (λ e. e.now) result ≡ slice_get unit.now.exports.names nth }
    ensures small { IfSome result (λ _. nth < 2 ^ 63) }
{
    name_in(unit.exports().names.as_slice(), nth)
}

// The nth of some names.
fn name_in(names: &[Export], nth: u64) -> Option<&Export>
    ensures name { option_map (λ e. e.now) result ≡ slice_get names.now nth }
    ensures small { IfSome result (λ _. nth < 2 ^ 63) }
{
    names.get(nth as usize)
}

pub(super) fn push(
    out: &mut Vec<Crossing>,
    nth: u64,
    wrong: Wrong,
    text: Name,
) -> Result<(), AllocError>
    ensures { OnOk result (out.new.items ≡ out.old.items ++ spec.crossing nth wrong text ∷ []) }
{
    out.push(Crossing { nth, wrong, text })?;
    Ok(())
}

fn add_differs(
    alloc: Global,
    out: &mut Vec<Crossing>,
    first: &Exporter<'_>,
    tags: &Tags,
    nth: u64,
    export: &Export,
) -> Result<(), AllocError>
    ensures { OnOk result ((test : Test) → IsTest test → out.new.items ≡ out.old.items ++ spec.differs test (origin (from_of first.now)) tags.now nth (seen export.now)) }
{
    if matches(alloc, first.tags, tags, &first.export.ty, &export.ty)? {
        return Ok(());
    }
    let text = type_message(alloc, first, tags, export)?;
    push(out, nth, Wrong::OtherType, text)?;
    Ok(())
}

pub(super) fn add_typed(
    alloc: Global,
    out: &mut Vec<Crossing>,
    first: Option<Exporter<'_>>,
    path: &Path,
    tags: &Tags,
    nth: u64,
    export: &Export,
) -> Result<(), AllocError>
    ensures { OnOk result ((test : Test) → IsTest test → out.new.items ≡ out.old.items ++ spec.typed test (option_map origin (option_map from_of first.entry)) path.now tags.now nth (seen export.now)) }
{
    let Some(first) = first else {
        return Ok(());
    };
    if is_at(first.path, path) {
        return Ok(());
    }
    add_differs(alloc, out, &first, tags, nth, export)?;
    Ok(())
}

fn add_twice(
    alloc: Global,
    out: &mut Vec<Crossing>,
    first: &Path,
    nth: u64,
    export: &Export,
) -> Result<(), AllocError>
    ensures { OnOk result (out.new.items ≡ out.old.items ++ spec.twice first.now nth (seen export.now)) }
{
    if export.defined.is_none() {
        return Ok(());
    }
    let text = definition_message(alloc, first, export)?;
    push(out, nth, Wrong::DefinedToo, text)?;
    Ok(())
}

pub(super) fn add_defined(
    alloc: Global,
    out: &mut Vec<Crossing>,
    first: Option<Exporter<'_>>,
    path: &Path,
    nth: u64,
    export: &Export,
) -> Result<(), AllocError>
    ensures { OnOk result (out.new.items ≡ out.old.items ++ spec.defined (option_map origin (option_map from_of first.entry)) path.now nth (seen export.now)) }
{
    let Some(first) = first else {
        return Ok(());
    };
    if is_at(first.path, path) {
        return Ok(());
    }
    add_twice(alloc, out, first.path, nth, export)?;
    Ok(())
}

impl<'a> Index<'a> {
    fn add_on_name(
        &self,
        alloc: Global,
        out: &mut Vec<Crossing>,
        unit: &UnitExports<'_>,
        nth: u64,
        export: &Export,
    ) -> Result<(), AllocError>
        ensures { OnOk result ((test : Test) → IsTest test → out.new.items ≡ out.old.items ++ spec.on_name test (map sight self.now) unit.now.path unit.now.exports.tags nth (seen export.now)) }
    {
        let tags = &unit.exports().tags;
        let declared = self.first_declared(&export.name);
        add_typed(alloc, out, declared, unit.path(), tags, nth, export)?;
        let defined = self.first_defined(&export.name);
        add_defined(alloc, out, defined, unit.path(), nth, export)?;
        Ok(())
    }

    fn crossings_of(&self, alloc: Global, unit: &UnitExports<'_>) -> Result<Crossings, AllocError>
        ensures { IfOk result (λ cs. (test : Test) → IsTest test → cs ≡ spec.crossings test (map sight self.now) (sight unit.now)) }
    {
        let mut out = Vec::new(alloc);
        let mut nth = 0;
        'names: loop {
            let Some(export) = name_at(unit, nth) else {
                return Ok(Crossings::from_vec(out));
            };
            self.add_on_name(alloc, &mut out, unit, nth, export)?;
            nth += 1;
        }
    }

    fn all_crossings(&self, alloc: Global) -> Result<Vec<Crossings>, AllocError>
        ensures { IfOk result (λ all. (test : Test) → IsTest test → all.items ≡ spec.all_crossings test (map sight self.now)) }
    {
        let mut all = Vec::new(alloc);
        let mut place = 0;
        'units: loop {
            let Some(unit) = unit_in(self.units(), place) else {
                return Ok(all);
            };
            let of_unit = self.crossings_of(alloc, unit)?;
            all.push(of_unit)?;
            place += 1;
        }
    }

    /// The warnings of each unit without their tokens, in the order of the units, by the numbers of the names that they are on. They stand on
    /// what the units see of one another alone. The cost is linear in the number of names, and for each name of a later unit in the types
    /// that it leads to. It fails for want of memory alone.
    pub fn crossings(&self, alloc: Global) -> Result<Vec<Crossings>, AllocError>
        ensures meant { IfOk result (λ all. (test : Test) → IsExact test → all.items ≡ spec.all_crossings test (map sight self.now)) }
        ensures value { IfOk result (λ all. all.items ≡ spec.all_crossings matched (map sight self.now)) }
    {
        let all = self.all_crossings(alloc)?;
        Ok(all)
    }
}
