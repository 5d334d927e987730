// What units show to one another, and which of them is the first to declare or define a name (ISO C11 6.2.2).
ghost use Rattle.std.specs.Prelude.{◌≡◌, ℕ, nat_eq, List, None, option_map, OnOk};
ghost use Rattle.std.specs.Cmp.Lexicographic.{pointwise};
ghost use Rattle.unit_index.specs.Exported as spec;
ghost use Rattle.unit_index.specs.Exported.{at, from_of};
ghost use Rattle.unit_index.specs.Firsts.{first_some, given, or_else};

use scope_tables::{Export, Exports};
use shared_text::Name;
use std::alloc::{AllocError, Global};
use std::collections::HashMap;
use type_data::Tags;
use uri_paths::Path;

/// What a unit does with a name.
#[derive(Clone, Copy, Drop)]
pub(crate) enum Does {
    Declares,
    Defines,
}

/// A name of a unit.
#[derive(Clone, Copy, Drop)]
pub(crate) struct Exporter<'a> {
    pub(crate) path: &'a Path,
    pub(crate) tags: &'a Tags,
    pub(crate) export: &'a Export,
}

fn does_it(does: Does, export: &Export) -> bool
    ensures { result ≡ spec.does_it does export.now }
{
    match does {
        Does::Declares => true,
        Does::Defines => export.defined.is_some(),
    }
}

/// No names.
#[tactic(auto, unfolding(crate::specs::Exported::at))]
pub(crate) fn no_names<'a>(alloc: Global) -> HashMap<Name, Exporter<'a>>
    ensures { (q : List ℕ) → at result q ≡ None }
{
    HashMap::new(alloc)
}

/// What the map has at a name.
#[tactic(auto, unfolding(crate::specs::Exported::at))]
pub(crate) fn kept_at<'a>(names: &HashMap<Name, Exporter<'a>>, name: &Name) -> Option<Exporter<'a>>
    ensures { option_map from_of result ≡ at names.now name.now }
{
    names.get(name).copied()
}

#[tactic(auto, unfolding(crate::specs::Exported::at))]
fn add<'a>(
    names: &mut HashMap<Name, Exporter<'a>>,
    path: &'a Path,
    tags: &'a Tags,
    export: &'a Export,
) -> Result<(), AllocError>
    ensures { OnOk result ((q : List ℕ) → at names.new q ≡ or_else (given (pointwise nat_eq export.now.name q) (spec.from path.now tags.now export.now)) (at names.old q)) }
{
    let name = export.name.share()?;
    names
        .insert(name, Exporter { path, tags, export })
        .map_err(AllocError::from)?;
    Ok(())
}

/// A name, where it is the first one of that name.
pub(crate) fn note<'a>(
    names: &mut HashMap<Name, Exporter<'a>>,
    does: Does,
    path: &'a Path,
    tags: &'a Tags,
    export: &'a Export,
) -> Result<(), AllocError>
    ensures { OnOk result ((q : List ℕ) → at names.new q ≡ or_else (at names.old q) (spec.one does path.now tags.now q export.now)) }
{
    if !does_it(does, export) {
        return Ok(());
    }
    if kept_at(names, &export.name).is_some() {
        return Ok(());
    }
    add(names, path, tags, export)
}

/// The names of a unit, after those of others.
pub(crate) fn note_unit<'a>(
    names: &mut HashMap<Name, Exporter<'a>>,
    does: Does,
    path: &'a Path,
    exports: &'a Exports,
) -> Result<(), AllocError>
    ensures { OnOk result ((q : List ℕ) → at names.new q ≡ or_else (at names.old q) (first_some (spec.one does path.now exports.now.tags q) exports.now.names)) }
{
    let mut rest = exports.names.as_slice();
    'names: while let Some((export, behind)) = rest.split_first() {
        note(names, does, path, &exports.tags, export)?;
        rest = behind;
    }
    Ok(())
}
