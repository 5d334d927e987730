// The first unit that declares or defines a name, and the warnings of the later ones.
ghost use Rattle.std.specs.Prelude.{◌≡◌, ◌<◌, ◌^◌, ◌++◌, ◌∷◌, ℕ, List, [], bytes_eq, option_map, slice_get, string_bytes, IfOk, IfSome, OnOk};
ghost use Rattle.std.specs.Option.{option_map_or};
ghost use Rattle.unit_index.specs.Exported.{Shown};
ghost use Rattle.std.specs.Bool.{Decides};
ghost use Rattle.std.specs.List.{find};
ghost use Rattle.unit_index.specs.declared.exported.Does.TheVariants as doing;
ghost use Rattle.unit_index.specs.Cross as spec;
ghost use Rattle.unit_index.specs.Exported as names;
ghost use Rattle.unit_index.specs.Exported.{at, from_of};
ghost use Rattle.unit_index.specs.Matching.{IsExact, Match, Test, matched};
ghost use Rattle.type_print.specs.Printed;

use super::placing::all_placed;
use super::{CrossFault, Index, UnitExports};
use crate::exported::{Does, Exporter, kept_at, no_names, note_unit};
use crate::matching::matches;
use scope_tables::{Export, Exports};
use shared_text::Name;
use std::alloc::{AllocError, Global};
use std::collections::HashMap;
use type_data::{CType, Qual, Tags};
use type_print::print;
use uri_paths::Path;

impl<'a> UnitExports<'a> {
    pub(super) fn path(&self) -> &'a Path
        ensures { result.now ≡ self.now.path }
    {
        self.path
    }

    pub(super) fn exports(&self) -> &'a Exports
        ensures { result.now ≡ self.now.exports }
    {
        self.exports
    }
}

pub(super) fn unit_in<'a>(units: &'a [UnitExports<'a>], place: u64) -> Option<&'a UnitExports<'a>>
    ensures unit { option_map (λ u. u.now) result ≡ slice_get units.now place }
    ensures small { IfSome result (λ _. place < 2 ^ 63) }
{
    units.get(place as usize)
}

// The first of the units that does it with each name.
fn firsts<'a>(
    alloc: Global,
    does: Does,
    units: &'a [UnitExports<'a>],
) -> Result<HashMap<Name, Exporter<'a>>, AllocError>
    ensures { IfOk result (λ map. (q : List ℕ) → at map q ≡ names.first does units.now q) }
{
    let mut found = no_names(alloc);
    let mut place = 0;
    'units: loop {
        let Some(unit) = unit_in(units, place) else {
            return Ok(found);
        };
        note_unit(&mut found, does, unit.path(), unit.exports())?;
        place += 1;
    }
}

pub(super) fn is_at(path: &Path, other: &Path) -> bool
    ensures { result ≡ bytes_eq path.now other.now }
{
    path.as_str() == other.as_str()
}

// The text of a type without qualifiers.
fn type_text(alloc: Global, ty: &CType, tags: &Tags) -> Result<String, AllocError>
    ensures { IfOk result (λ s. string_bytes s ≡ Printed.text tags.now ty.now Printed.unqualified []) }
{
    let plain = Qual {
        is_const: false,
        is_restrict: false,
        is_volatile: false,
    };
    let text = print(alloc, ty, plain, "", tags)?;
    Ok(text)
}

fn push_type(alloc: Global, text: &mut String, ty: &CType, tags: &Tags) -> Result<(), AllocError>
    ensures { OnOk result (string_bytes text.new ≡ string_bytes text.old ++ Printed.text tags.now ty.now Printed.unqualified []) }
{
    let shown = type_text(alloc, ty, tags)?;
    text.push_str(shown.as_str())?;
    Ok(())
}

pub(super) fn type_message(
    alloc: Global,
    first: &Exporter<'_>,
    tags: &Tags,
    export: &Export,
) -> Result<Name, AllocError>
    ensures { IfOk result (λ m. m ≡ spec.type_text (from_of first.now) tags.now export.now) }
{
    let mut text = String::from_str(alloc, export.name.as_str())?;
    text.push_str(" is ")?;
    push_type(alloc, &mut text, &export.ty, tags)?;
    text.push_str(" here, ")?;
    push_type(alloc, &mut text, &first.export.ty, first.tags)?;
    text.push_str(" in ")?;
    text.push_str(first.path.as_str())?;
    let message = Name::from_str(alloc, text.as_str())?;
    Ok(message)
}

pub(super) fn definition_message(
    alloc: Global,
    first: &Path,
    export: &Export,
) -> Result<Name, AllocError>
    ensures { IfOk result (λ m. m ≡ spec.definition_text first.now export.now) }
{
    let mut text = String::from_str(alloc, export.name.as_str())?;
    text.push_str(" is defined in ")?;
    text.push_str(first.as_str())?;
    text.push_str(" too")?;
    let message = Name::from_str(alloc, text.as_str())?;
    Ok(message)
}

// The tags of a unit, or others where there is none.
fn tags_or<'a>(unit: Option<&UnitExports<'a>>, none: &'a Tags) -> &'a Tags
    ensures { result.now ≡ option_map_or (λ u. u.exports.tags) (option_map (λ u. u.now) unit.entry) none.now }
{
    match unit {
        Some(unit) => &unit.exports().tags,
        None => none,
    }
}

impl<'a> Index<'a> {
    /// The index of what units show, which stand in order of path. Its cost is linear in the number of their names. It fails for want of
    /// memory alone.
    pub fn of(alloc: Global, units: &'a [UnitExports<'a>]) -> Result<Index<'a>, AllocError>
        ensures { IfOk result (λ index. index ≡ units.now) }
    {
        let declared = firsts(alloc, Does::Declares, units)?;
        let defined = firsts(alloc, Does::Defines, units)?;
        Ok(Index {
            units,
            declared,
            defined,
        })
    }

    pub(super) fn units(&self) -> &'a [UnitExports<'a>]
        ensures { result.now ≡ self.now }
    {
        self.units
    }

    pub(super) fn first_declared(&self, name: &Name) -> Option<Exporter<'a>>
        ensures { option_map from_of result ≡ names.first doing.Declares self.now name.now }
    {
        kept_at(&self.declared, name)
    }

    pub(super) fn first_defined(&self, name: &Name) -> Option<Exporter<'a>>
        ensures { option_map from_of result ≡ names.first doing.Defines self.now name.now }
    {
        kept_at(&self.defined, name)
    }

    /// The warnings across units, in the order of the units, and in a unit in that of its names: 801 on the first token of a name whose
    /// type isn't compatible with that in the first unit that declares it (6.2.7p2), the qualifiers of the name itself aside; 802 on the
    /// token that defines a name which an earlier unit defines too (6.9p5). Its cost is linear in the number of names, and for each name
    /// of a later unit in the types that it leads to. It fails for want of memory alone.
    pub fn cross_faults(&self, alloc: Global) -> Result<Vec<CrossFault>, AllocError>
        ensures meant { IfOk result (λ faults. (test : Test) → IsExact test → faults.items ≡ spec.cross test self.now) }
        ensures value { IfOk result (λ faults. faults.items ≡ spec.cross matched self.now) }
    {
        let all = self.crossings(alloc)?;
        let faults = all_placed(alloc, self.units(), all.as_slice())?;
        Ok(faults)
    }

    fn unit_at(&self, path: &Path) -> Option<&'a UnitExports<'a>>
        ensures { option_map (λ u. u.now) result ≡ find (λ u. bytes_eq u.path path.now) self.now }
    {
        let mut place = 0;
        'units: loop {
            let Some(unit) = unit_in(self.units(), place) else {
                return None;
            };
            if is_at(unit.path(), path) {
                return Some(unit);
            }
            place += 1;
        }
    }

    /// Whether a type of one unit is compatible with one of another (ISO C11 6.2.7p1), by what is known of their tags at the ends of the
    /// units. Where the units show none at a path, nothing is known of its tags. Structures, unions and enumerations match by their tags
    /// and members, all at once that lead to one another; members of unions and enumerations correspond by name, in any order. An
    /// enumerated type is compatible with int, and a type with a fault with every type. The cost is linear in the units and in the members
    /// of all pairs of tags that the types lead to. It fails for want of memory alone.
    pub fn matches_across(
        &self,
        alloc: Global,
        unit_a: &Path,
        a: &CType,
        unit_b: &Path,
        b: &CType,
    ) -> Result<bool, AllocError>
        ensures meant { IfOk result (λ yes. Decides yes (Match (spec.tags_at self.now unit_a.now) (spec.tags_at self.now unit_b.now) a.now b.now)) }
        ensures value { IfOk result (λ yes. yes ≡ matched (spec.tags_at self.now unit_a.now) (spec.tags_at self.now unit_b.now) a.now b.now) }
    {
        let none = Tags::new(alloc);
        let left = tags_or(self.unit_at(unit_a), &none);
        let right = tags_or(self.unit_at(unit_b), &none);
        let yes = matches(alloc, left, right, a, b)?;
        Ok(yes)
    }
}
