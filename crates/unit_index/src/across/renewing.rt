// The warnings across units from those that were kept.
ghost use Rattle.std.specs.Prelude.{◌≡◌, ◌+◌, ◌++◌, ◌∷◌, ℕ, Bool, true, List, map, slice_get, IfOk, OnOk};
ghost use Rattle.unit_index.specs.declared.exported.Does.TheVariants as doing;
ghost use Rattle.unit_index.specs.Crossing.{Seen, all_crossings, seen, sight, Sight};
ghost use Rattle.unit_index.specs.Exported.{at, one, first_in};
ghost use Rattle.unit_index.specs.Firsts.{or_else};
ghost use Rattle.unit_index.specs.Matching.{IsExact, IsTest, Test, matched};
ghost use Rattle.unit_index.specs.News.{AreNews};
ghost use Rattle.unit_index.specs.News as news;
ghost use Rattle.unit_index.specs.Renewed as spec;
ghost use Rattle.unit_index.specs.Renewed.{AreFirsts};

use super::UnitExports;
use super::crossings::{add_defined, add_typed, name_at, push};
use super::faults::unit_in;
use super::news::{News, Shift, has};
use super::placing::crossings_in;
use crate::crossing::{Crossing, Crossings};
use crate::exported::{Does, Exporter, kept_at, no_names, note};
use scope_tables::{Export, Exports};
use shared_text::Name;
use std::alloc::{AllocError, Global};
use std::collections::{HashMap, HashSet};
use type_data::Tags;
use uri_paths::Path;

// Who declares and who defines each of some names first.
#[derive(Drop)]
struct Firsts<'a> {
    declared: HashMap<Name, Exporter<'a>>,
    defined: HashMap<Name, Exporter<'a>>,
}

// A name of a unit, where it is one of those.
fn note_name<'a>(
    firsts: &mut Firsts<'a>,
    names: &HashSet<Name>,
    path: &'a Path,
    tags: &'a Tags,
    export: &'a Export,
) -> Result<(), AllocError>
    ensures declared { OnOk result ((q : List ℕ) → news.has names.now q ≡ true → at firsts.new.declared q ≡ or_else (at firsts.old.declared q) (one doing.Declares path.now tags.now q export.now)) }
    ensures defined { OnOk result ((q : List ℕ) → news.has names.now q ≡ true → at firsts.new.defined q ≡ or_else (at firsts.old.defined q) (one doing.Defines path.now tags.now q export.now)) }
{
    if !has(names, &export.name) {
        return Ok(());
    }
    note(&mut firsts.declared, Does::Declares, path, tags, export)?;
    note(&mut firsts.defined, Does::Defines, path, tags, export)?;
    Ok(())
}

// The names of a unit, after those of others.
fn note_unit<'a>(
    firsts: &mut Firsts<'a>,
    names: &HashSet<Name>,
    path: &'a Path,
    exports: &'a Exports,
) -> Result<(), AllocError>
    ensures declared { OnOk result ((q : List ℕ) → news.has names.now q ≡ true → at firsts.new.declared q ≡ or_else (at firsts.old.declared q) (first_in doing.Declares q (record { path = path.now; exports = exports.now }))) }
    ensures defined { OnOk result ((q : List ℕ) → news.has names.now q ≡ true → at firsts.new.defined q ≡ or_else (at firsts.old.defined q) (first_in doing.Defines q (record { path = path.now; exports = exports.now }))) }
{
    let mut rest = exports.names.as_slice();
    'names: while let Some((export, behind)) = rest.split_first() {
        note_name(firsts, names, path, &exports.tags, export)?;
        rest = behind;
    }
    Ok(())
}

fn firsts_among<'a>(
    alloc: Global,
    names: &HashSet<Name>,
    units: &'a [UnitExports<'a>],
) -> Result<Firsts<'a>, AllocError>
    ensures { IfOk result (λ f. AreFirsts (news.has names.now) units.now (at f.declared) (at f.defined)) }
{
    let mut found = Firsts {
        declared: no_names(alloc),
        defined: no_names(alloc),
    };
    let mut place = 0;
    'units: loop {
        let Some(unit) = unit_in(units, place) else {
            return Ok(found);
        };
        note_unit(&mut found, names, unit.path(), unit.exports())?;
        place += 1;
    }
}

// The number that a name had, of those that weren't replaced.
fn number_before(shift: Shift, nth: u64) -> u128
    ensures { result ≡ spec.number_before shift nth }
{
    if nth < shift.front {
        return nth as u128;
    }
    nth.saturating_sub(shift.come) as u128 + shift.gone as u128
}

fn take_one(
    out: &mut Vec<Crossing>,
    crossing: &Crossing,
    before: u128,
    nth: u64,
) -> Result<(), AllocError>
    ensures { OnOk result (out.new.items ≡ out.old.items ++ spec.one_taken before nth crossing.now) }
{
    if crossing.nth as u128 != before {
        return Ok(());
    }
    let text = crossing.text.share()?;
    push(out, nth, crossing.wrong, text)?;
    Ok(())
}

// Takes the warnings on a name over, by the number that it had and the one that it has, and gives those behind them.
fn take_over<'k>(
    out: &mut Vec<Crossing>,
    kept: &'k [Crossing],
    before: u128,
    nth: u64,
) -> Result<&'k [Crossing], AllocError>
    ensures taken { OnOk result (out.new.items ≡ out.old.items ++ spec.taken before nth kept.now) }
    ensures left { IfOk result (λ r. r.now ≡ spec.left before kept.now) }
{
    let mut rest = kept;
    'kept: while let Some((crossing, behind)) = rest.split_first() {
        if crossing.nth as u128 > before {
            return Ok(rest);
        }
        take_one(out, crossing, before, nth)?;
        rest = behind;
    }
    Ok(rest)
}

fn judge(
    alloc: Global,
    out: &mut Vec<Crossing>,
    firsts: &Firsts<'_>,
    unit: &UnitExports<'_>,
    nth: u64,
    export: &Export,
) -> Result<(), AllocError>
    ensures { OnOk result ((test : Test) → IsTest test → (noted : List ℕ → Bool) → out.new.items ≡ out.old.items ++ spec.judged test noted (at firsts.now.declared) (at firsts.now.defined) unit.now.path unit.now.exports.tags nth (seen export.now)) }
{
    let tags = &unit.exports().tags;
    let declared = kept_at(&firsts.declared, &export.name);
    add_typed(alloc, out, declared, unit.path(), tags, nth, export)?;
    let defined = kept_at(&firsts.defined, &export.name);
    add_defined(alloc, out, defined, unit.path(), nth, export)?;
    Ok(())
}

// The warnings on a name, and what is left of those that were kept.
fn renew<'k>(
    alloc: Global,
    out: &mut Vec<Crossing>,
    names: &HashSet<Name>,
    firsts: &Firsts<'_>,
    unit: &UnitExports<'_>,
    shift: Shift,
    nth: u64,
    export: &Export,
    kept: &'k [Crossing],
) -> Result<&'k [Crossing], AllocError>
    ensures { IfOk result (λ left. (test : Test) → IsTest test → (more : List Seen) → out.new.items ++ spec.renewed test (news.has names.now) (at firsts.now.declared) (at firsts.now.defined) unit.now.path unit.now.exports.tags shift (nth + 1) more left.now ≡ out.old.items ++ spec.renewed test (news.has names.now) (at firsts.now.declared) (at firsts.now.defined) unit.now.path unit.now.exports.tags shift nth (seen export.now ∷ more) kept.now) }
{
    if has(names, &export.name) {
        judge(alloc, out, firsts, unit, nth, export)?;
        return Ok(kept);
    }
    let left = take_over(out, kept, number_before(shift, nth), nth)?;
    Ok(left)
}

fn of_unit(
    alloc: Global,
    names: &HashSet<Name>,
    firsts: &Firsts<'_>,
    unit: &UnitExports<'_>,
    shift: Shift,
    kept: &[Crossing],
) -> Result<Crossings, AllocError>
    ensures { IfOk result (λ cs. (test : Test) → IsTest test → cs ≡ spec.of_unit test (news.has names.now) (at firsts.now.declared) (at firsts.now.defined) unit.now shift kept.now) }
{
    let mut out = Vec::new(alloc);
    let mut left = kept;
    let mut nth = 0;
    'names: loop {
        let Some(export) = name_at(unit, nth) else {
            return Ok(Crossings::from_vec(out));
        };
        left = renew(
            alloc, &mut out, names, firsts, unit, shift, nth, export, left,
        )?;
        nth += 1;
    }
}

fn shift_in(shifts: &[Shift], place: u64) -> Option<Shift>
    ensures { result ≡ slice_get shifts.now place }
{
    shifts.get(place as usize).copied()
}

fn of_units<'a>(
    alloc: Global,
    names: &HashSet<Name>,
    firsts: &Firsts<'_>,
    units: &'a [UnitExports<'a>],
    shifts: &[Shift],
    kept: &[Crossings],
) -> Result<Vec<Crossings>, AllocError>
    ensures { IfOk result (λ all. (test : Test) → IsTest test → all.items ≡ spec.of_units test (news.has names.now) (at firsts.now.declared) (at firsts.now.defined) units.now shifts.now kept.now) }
{
    let mut all = Vec::new(alloc);
    let mut place = 0;
    'units: loop {
        let Some(unit) = unit_in(units, place) else {
            return Ok(all);
        };
        let Some(shift) = shift_in(shifts, place) else {
            return Ok(all);
        };
        let Some(before) = crossings_in(kept, place) else {
            return Ok(all);
        };
        let now = of_unit(alloc, names, firsts, unit, shift, before)?;
        all.push(now)?;
        place += 1;
    }
}

/// The warnings of `crossings` on units which stood at the same paths, from those that were kept of what they showed before: anew on the
/// names that the news are about, in whichever unit, and as they were on all others. The cost is linear in the number of names that the
/// units show, a look at a set each, and in what was kept; and for each name that the news are about in the types that it leads to. It
/// fails for want of memory alone.
pub fn crossings_after<'a>(
    alloc: Global,
    units: &'a [UnitExports<'a>],
    kept: &[Crossings],
    news: &News,
) -> Result<Vec<Crossings>, AllocError>
    ensures meant { IfOk result (λ all. (test : Test) → IsExact test → (ss : List Sight) → AreNews ss (map sight units.now) news.now → kept.now ≡ all_crossings test ss → all.items ≡ all_crossings test (map sight units.now)) }
    ensures value { IfOk result (λ all. (ss : List Sight) → AreNews ss (map sight units.now) news.now → kept.now ≡ all_crossings matched ss → all.items ≡ all_crossings matched (map sight units.now)) }
{
    let names = news.names();
    let shifts = news.shifts();
    let firsts = firsts_among(alloc, names, units)?;
    let all = of_units(alloc, names, &firsts, units, shifts, kept)?;
    Ok(all)
}
