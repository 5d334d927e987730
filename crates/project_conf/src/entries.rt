// The entries of a database as the configurations of units.
ghost use Rattle.std.specs.Prelude.{◌≡◌, ◌++◌, ◌||◌, ℕ, List, None, Some, nat_eq, bytes_eq, option_map, if◌then◌else◌, IfOk, IfSome, OnOk};
ghost use Rattle.std.specs.Option.{option_or};
ghost use Rattle.project_conf.specs.Defines.{AreUsable};
ghost use Rattle.project_conf.specs.Entries.{entry_of, with_entry, is_source, is_unit};
ghost use Rattle.project_conf.specs.Firsts.{first_at};

use crate::conf::{Conf, IncludePaths, UnitConf};
use crate::options::{Define, Defines};
use std::alloc::{AllocError, Global};
use std::collections::HashMap;
use std::marker::Model;
use uri_paths::Path;

/// The first entry of each file of a database. Contracts see all entries, in order.
#[derive(Drop)]
pub struct Entries<'a> {
    units: &'a [UnitConf],
    firsts: HashMap<Path, &'a UnitConf>,
}

impl<'a> Model for Entries<'a> {
    ghost use Rattle.std.specs.Prelude.{◌≡◌, ℕ, List};
    ghost use Rattle.project_conf.specs.declared.conf.UnitConf.{UnitConf as Unit};
    ghost use Rattle.project_conf.specs.Entries.{entry_of};
    ghost use Rattle.project_conf.specs.Firsts.{first_at};

    ghost Value = { List Unit };

    ghost view = { λ e. e.units.now };

    ghost invariant = { λ e. (q : List ℕ) → first_at e.firsts q ≡ entry_of q e.units.now };
}

#[tactic(auto, unfolding(crate::specs::Firsts::first_at))]
fn none<'a>(alloc: Global) -> HashMap<Path, &'a UnitConf>
    ensures { (q : List ℕ) → first_at result q ≡ None }
{
    HashMap::new(alloc)
}

// An entry counts where its file has none before it.
#[tactic(auto, unfolding(crate::specs::Firsts::first_at))]
fn put<'a>(firsts: &mut HashMap<Path, &'a UnitConf>, unit: &'a UnitConf) -> Result<(), AllocError>
    ensures { OnOk result ((q : List ℕ) → first_at firsts.new q ≡ option_or (first_at firsts.old q) (if bytes_eq unit.now.file q then Some unit.now else None)) }
{
    if firsts.contains_key(&unit.file) {
        return Ok(());
    }
    let file = unit.file.share()?;
    firsts.insert(file, unit).map_err(AllocError::from)?;
    Ok(())
}

#[tactic(auto, unfolding(crate::specs::Entries::entry_of))]
fn firsts_of<'a>(
    alloc: Global,
    units: &'a [UnitConf],
) -> Result<HashMap<Path, &'a UnitConf>, AllocError>
    ensures { IfOk result (λ firsts. (q : List ℕ) → first_at firsts q ≡ entry_of q units.now) }
{
    let mut firsts = none(alloc);
    let mut rest = units;
    while let Some((unit, behind)) = rest.split_first() {
        rest = behind;
        put(&mut firsts, unit)?;
    }
    Ok(firsts)
}

impl<'a> Entries<'a> {
    /// The entries of a database.
    pub fn of(alloc: Global, units: &'a [UnitConf]) -> Result<Entries<'a>, AllocError>
        ensures { IfOk result (λ entries. entries ≡ units.now) }
    {
        let firsts = firsts_of(alloc, units)?;
        Ok(Entries { units, firsts })
    }

    /// The first entry of a file, None exactly where it has none.
    #[tactic(auto, unfolding(crate::specs::Firsts::first_at))]
    pub fn get(&self, file: &Path) -> Option<&UnitConf>
        ensures { option_map (λ unit. unit.now) result ≡ entry_of file.now self.now }
    {
        self.firsts.get(file).copied()
    }
}

fn is_source(path: &Path) -> bool
    ensures { result ≡ is_source path.now }
{
    path.as_str().as_bytes().ends_with(b".c")
}

/// Whether a text at a path is a unit: without a database each path that ends in `.c` is one; with one each file that has an entry,
/// and each open document that ends in `.c`.
pub fn is_unit(entries: Option<&Entries<'_>>, is_open: bool, path: &Path) -> bool
    ensures { result ≡ is_unit (option_map (λ e. e.now) entries.entry) is_open path.now }
{
    match entries {
        Some(entries) => {
            if entries.get(path).is_some() {
                return true;
            }
            is_open && is_source(path)
        }
        None => is_source(path),
    }
}

// Behind some folders, those of a list, shared.
fn push_paths(out: &mut Vec<Path>, paths: &[Path]) -> Result<(), AllocError>
    ensures { OnOk result (out.new.items ≡ out.old.items ++ paths.now) }
{
    let mut rest = paths;
    while let Some((path, behind)) = rest.split_first() {
        rest = behind;
        out.push(path.share()?)?;
    }
    Ok(())
}

// Behind some definitions, those of a list, shared.
fn push_defines(out: &mut Vec<Define>, defines: &[Define]) -> Result<(), AllocError>
    ensures { OnOk result (out.new.items ≡ out.old.items ++ defines.now) }
{
    let mut rest = defines;
    while let Some((define, behind)) = rest.split_first() {
        rest = behind;
        out.push(define.share()?)?;
    }
    Ok(())
}

// One list of definitions behind another.
fn in_order(alloc: Global, first: &[Define], second: &[Define]) -> Result<Defines, AllocError>
    ensures { IfOk result (λ all. all ≡ first.now ++ second.now) }
{
    let mut all = Vec::new(alloc);
    push_defines(&mut all, first)?;
    push_defines(&mut all, second)?;
    Ok(Defines::from_vec(all))
}

// How a file without an entry is read.
#[tactic(auto, using(crate::proofs::Joined::usable_more))]
fn alone(alloc: Global, conf: &Conf, file: &Path) -> Result<UnitConf, AllocError>
    ensures conf { IfOk result (λ unit. unit ≡ with_entry conf.now file.now None) }
    ensures usable { AreUsable 131072 conf.now.defines → IfOk result (λ unit. AreUsable 268435456 unit.defines) }
{
    let file = file.share()?;
    let mut includes = Vec::new(alloc);
    push_paths(&mut includes, conf.includes.as_slice())?;
    let mut defines = Vec::new(alloc);
    push_defines(&mut defines, conf.defines.as_slice())?;
    Ok(UnitConf {
        file,
        includes: IncludePaths::from_vec(includes),
        defines: Defines::from_vec(defines),
    })
}

// How a file with an entry is read.
#[tactic(auto, using(crate::proofs::Joined::both_usable))]
fn joined(alloc: Global, conf: &Conf, file: &Path, entry: &UnitConf) -> Result<UnitConf, AllocError>
    ensures conf { IfOk result (λ unit. unit ≡ with_entry conf.now file.now (Some entry.now)) }
    ensures usable { AreUsable 131072 conf.now.defines → AreUsable 33554432 entry.now.defines → IfOk result (λ unit. AreUsable 268435456 unit.defines) }
{
    let file = file.share()?;
    let mut includes = Vec::new(alloc);
    push_paths(&mut includes, entry.includes.as_slice())?;
    push_paths(&mut includes, conf.includes.as_slice())?;
    let defines = in_order(alloc, conf.defines.as_slice(), entry.defines.as_slice())?;
    Ok(UnitConf {
        file,
        includes: IncludePaths::from_vec(includes),
        defines,
    })
}

/// How a file is read by the words, and by its entry where it has one: the definitions of the words stand before those of the entry,
/// and the folders of the entry before those of the words.
pub fn with_entry(
    alloc: Global,
    conf: &Conf,
    file: &Path,
    entry: Option<&UnitConf>,
) -> Result<UnitConf, AllocError>
    ensures conf { IfOk result (λ unit. unit ≡ with_entry conf.now file.now (option_map (λ e. e.now) entry.entry)) }
    ensures usable { AreUsable 131072 conf.now.defines → IfSome entry.entry (λ e. AreUsable 33554432 e.now.defines) → IfOk result (λ unit. AreUsable 268435456 unit.defines) }
{
    match entry {
        Some(entry) => joined(alloc, conf, file, entry),
        None => alone(alloc, conf, file),
    }
}
