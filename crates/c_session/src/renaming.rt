// What a rename comes to: what units mean with its edits made, where an answer that they asked for is another one then. What is kept stays as it is.
ghost use Rattle.std.specs.Prelude.{◌≡◌, ◌≢◌, ◌+◌, ◌≤◌, Err, None, Some, length, map, unwrap_or, IfOk, OnOk, if◌then◌else◌};
ghost use Rattle.plain_mean.specs.Confs.{IsUsable};
ghost use Rattle.plain_mean.specs.Meanings.{meaning};
ghost use Rattle.plain_mean.specs.Renewed.{are_gone, renewed};
ghost use Rattle.plain_mean.specs.Ranges.{AreShort, paths_in};
ghost use Rattle.plain_mean.specs.Shown.{units};
ghost use Rattle.rename_core.specs.Classes.{tok_cmp};
ghost use Rattle.std.specs.List.Sorted.{IsStrictlySortedBy};
ghost use Rattle.rename_core.specs.Clashes.{confirmed};
ghost use Rattle.c_session.specs.Outcomes.{after, confirmed_over, kinds_at, rename, work_of};
ghost use Rattle.rename_core.specs.declared.error.RenameError.TheVariants.{NoMemory};
ghost use Rattle.c_session.specs.Kept.{IsAnalysis, units_in};
ghost use Rattle.unit_index.specs.Occurrences.{occs_of};
ghost use Rattle.c_session.specs.Ties.Renamings.{anew_of, views_by, view_by};

use crate::analysis::Analysis;
use crate::news::prior_of;
use crate::renamable::{class_kept, occs_of};
use crate::rename_laws::names_are_short;
use crate::text_kinds::file_kinds;
use doc_texts::Docs;
use plain_mean::{
    Changes, Grounds, KeptLexings, Lexings, Meant, Reading, UnitMeaning, grounds_hold, mean,
    texts_after, units_stay,
};
use project_conf::Conf;
use rename_core::{
    Edits, FileKinds, Plan, RenameError, UnitView, classes_are_lists, confirm, plan,
};
use scope_tables::Occ;
use shared_list::Listing;
use std::alloc::{AllocError, Global};
use std::sync::ledger::Ledger;
use steps::Steps;
use tok_data::TokId;
use unit_index::IndexedUnit;

fn occs_in(meant: Meant) -> Listing<Occ>
    ensures { result ≡ meant.meaning.meaning.occs }
{
    let Meant {
        meaning,
        grounds: _,
    } = meant;
    let UnitMeaning { meaning, reads: _ } = meaning;
    meaning.occs
}

// A unit's occurrences over the texts now, where its grounds are gone; none where they hold.
fn occs_anew<L: Ledger>(
    alloc: Global,
    changes: &mut Changes<'_>,
    lexings: &mut Lexings<'_>,
    reading: &Reading<'_>,
    unit: &IndexedUnit,
    grounds: &Grounds,
    steps: &mut Steps<L>,
) -> Result<Option<Listing<Occ>>, AllocError>
    requires { lexings.old ≡ changes.old.now }
    ensures occs { IfOk result (λ o. o ≡ (if are_gone changes.old.prior changes.old.now reading.now unit.now.path grounds.now then Some (meaning changes.old.now reading.now unit.now.path).meaning.occs else None)) }
    ensures changes { changes.new ≡ changes.old }
    ensures lexings { lexings.new ≡ lexings.old }
    ensures steps { OnOk result (steps.new ≡ steps.old + (if are_gone changes.old.prior changes.old.now reading.now unit.now.path grounds.now then 1 else 0)) }
{
    let gone = changes.are_gone(lexings, reading, unit.path(), grounds)?;
    if gone {
        let meant = mean(alloc, lexings, reading, unit.path(), steps)?;
        return Ok(Some(occs_in(meant)));
    }
    Ok(None)
}

// What units mean with other texts, by the analysis that is kept of these: their occurrences, one behind the other, where an answer that they asked for is another one. Each text of the
// units that are worked out is lexed once. The other texts have the same units.
fn over_edited<L: Ledger>(
    alloc: Global,
    kept: &Analysis,
    docs: &Docs,
    edited: &Docs,
    conf: &Conf,
    steps: &mut Steps<L>,
) -> Result<Vec<Option<Listing<Occ>>>, AllocError>
    requires usable { IsUsable conf.now }
    requires kept { IsAnalysis docs.now conf.now kept.now }
    requires units { units edited.now conf.now ≡ units docs.now conf.now }
    ensures occs { IfOk result (λ all. all.items ≡ map (anew_of docs.now conf.now edited.now) (units_in kept.now)) }
    ensures steps { OnOk result (steps.new ≡ steps.old + length (renewed docs.now conf.now edited.now conf.now)) }
{
    grounds_hold();
    let prior = prior_of(alloc, docs, edited)?;
    let reading = Reading::of(alloc, conf)?;
    let (mut changes, mut lexings) = Changes::of(alloc, edited, &prior, KeptLexings::new(alloc))?;
    let mut all = Vec::new(alloc);
    let mut rest = kept.units.as_slice();
    let mut resting = kept.grounds.as_slice();
    'turn: while let Some((unit, behind)) = rest.split_first() {
        rest = behind;
        let Some((grounds, more)) = resting.split_first() else {
            return Err(AllocError);
        };
        resting = more;
        let one = occs_anew(
            alloc,
            &mut changes,
            &mut lexings,
            &reading,
            unit,
            grounds,
            steps,
        )?;
        all.push(one)?;
    }
    Ok(all)
}

// The units as they are, with their occurrences.
fn views_before<'a>(
    alloc: Global,
    units: &'a [IndexedUnit],
    occs: &'a [Listing<Occ>],
    kinds: &'a [FileKinds],
) -> Result<Vec<UnitView<'a>>, AllocError>
    requires { occs.now ≡ map occs_of units.now }
    ensures { IfOk result (λ views. views.items ≡ map (λ u. view_by kinds.now u None) units.now) }
{
    let mut views = Vec::new(alloc);
    let mut rest = units;
    let mut left = occs;
    'turn: while let Some((unit, behind)) = rest.split_first() {
        rest = behind;
        let Some((own, more)) = left.split_first() else {
            unreachable!()
        };
        left = more;
        views.push(UnitView {
            unit: unit.path(),
            kinds,
            occs: own.as_slice(),
        })?;
    }
    Ok(views)
}

fn occs_by<'a>(own: &'a Listing<Occ>, anew: &'a Option<Listing<Occ>>) -> &'a [Occ]
    ensures { result.now ≡ unwrap_or anew.now own.now }
{
    match anew {
        Some(occs) => occs.as_slice(),
        None => own.as_slice(),
    }
}

// The units with the edits made: those that were worked out anew, and the others as they are, with their occurrences.
fn views_after<'a>(
    alloc: Global,
    units: &'a [IndexedUnit],
    occs: &'a [Listing<Occ>],
    anew: &'a [Option<Listing<Occ>>],
    kinds: &'a [FileKinds],
) -> Result<Vec<UnitView<'a>>, AllocError>
    requires { occs.now ≡ map occs_of units.now }
    ensures { IfOk result (λ views. views.items ≡ views_by kinds.now units.now anew.now) }
{
    let mut views = Vec::new(alloc);
    let mut rest = units;
    let mut left = occs;
    let mut others = anew;
    'turn: while let Some((unit, behind)) = rest.split_first() {
        rest = behind;
        let Some((own, kept)) = left.split_first() else {
            unreachable!()
        };
        left = kept;
        let Some((one, more)) = others.split_first() else {
            return Ok(views);
        };
        others = more;
        views.push(UnitView {
            unit: unit.path(),
            kinds,
            occs: occs_by(own, one),
        })?;
    }
    Ok(views)
}

// What the tokens of a class's texts are, and what units mean, before and with the edits of a plan made.
#[derive(Drop)]
struct Effect {
    kinds: Vec<FileKinds>,
    kinds_after: Vec<FileKinds>,
    anew: Vec<Option<Listing<Occ>>>,
}

fn effect_of<L: Ledger>(
    kept: &Analysis,
    docs: &Docs,
    conf: &Conf,
    plan: &Plan,
    steps: &mut Steps<L>,
) -> Result<Effect, AllocError>
    requires usable { IsUsable conf.now }
    requires kept { IsAnalysis docs.now conf.now kept.now }
    requires texts { AreShort docs.now }
    requires order { IsStrictlySortedBy tok_cmp plan.now.class.toks }
    requires short { length plan.now.new_name ≤ 1023 }
    ensures kinds { IfOk result (λ e. e.kinds.items ≡ map (kinds_at docs.now) (paths_in plan.now.class.toks)) }
    ensures after { IfOk result (λ e. e.kinds_after.items ≡ map (kinds_at (after docs.now plan.now)) (paths_in plan.now.class.toks)) }
    ensures anew { IfOk result (λ e. e.anew.items ≡ map (anew_of docs.now conf.now (after docs.now plan.now)) (units_in kept.now)) }
    ensures steps { OnOk result (steps.new ≡ steps.old + length (renewed docs.now conf.now (after docs.now plan.now) conf.now)) }
{
    let alloc = kept.alloc;
    let toks = plan.class.toks.as_slice();
    let edited = texts_after(alloc, &kept.lexings, docs, toks, plan.new_name.as_str())?;
    let kinds = file_kinds(alloc, docs, toks)?;
    let kinds_after = file_kinds(alloc, &edited, toks)?;
    let anew = over_edited(alloc, kept, docs, &edited, conf, steps)?;
    Ok(Effect {
        kinds,
        kinds_after,
        anew,
    })
}

// What a plan with this effect comes to.
fn compared(
    alloc: Global,
    plan: Plan,
    units: &[IndexedUnit],
    effect: &Effect,
) -> Result<Edits, RenameError>
    ensures { result ≢ Err NoMemory → result ≡ confirmed plan (map (λ u. view_by effect.now.kinds.items u None) units.now) (views_by effect.now.kinds_after.items units.now effect.now.anew.items) }
{
    let occs = match occs_of(alloc, units) {
        Ok(occs) => occs,
        Err(_) => {
            drop(plan);
            return Err(RenameError::NoMemory);
        }
    };
    let before = match views_before(alloc, units, occs.as_slice(), effect.kinds.as_slice()) {
        Ok(before) => before,
        Err(_) => {
            drop(plan);
            return Err(RenameError::NoMemory);
        }
    };
    let after = match views_after(
        alloc,
        units,
        occs.as_slice(),
        effect.anew.as_slice(),
        effect.kinds_after.as_slice(),
    ) {
        Ok(after) => after,
        Err(_) => {
            drop(plan);
            return Err(RenameError::NoMemory);
        }
    };
    confirm(alloc, plan, before.as_slice(), after.as_slice())
}

// What a plan comes to.
fn settled<L: Ledger>(
    kept: &Analysis,
    docs: &Docs,
    conf: &Conf,
    plan: Plan,
    steps: &mut Steps<L>,
) -> Result<Edits, RenameError>
    requires usable { IsUsable conf.now }
    requires kept { IsAnalysis docs.now conf.now kept.now }
    requires texts { AreShort docs.now }
    requires order { IsStrictlySortedBy tok_cmp plan.class.toks }
    requires short { length plan.new_name ≤ 1023 }
    ensures outcome { result ≢ Err NoMemory → result ≡ confirmed_over docs.now conf.now plan }
    ensures steps { result ≢ Err NoMemory → steps.new ≡ steps.old + length (renewed docs.now conf.now (after docs.now plan) conf.now) }
{
    units_stay();
    let effect = match effect_of(kept, docs, conf, &plan, steps) {
        Ok(effect) => effect,
        Err(_) => {
            drop(plan);
            return Err(RenameError::NoMemory);
        }
    };
    compared(kept.alloc, plan, kept.units.as_slice(), &effect)
}

/// What a rename of a token comes to, by what is kept of the texts: the edits, or the first refusal that holds. Each unit of which an answer is another one with the edits
/// made is worked out once, which is one step; beside these it costs the occurrences of all units and a lexing of each text of the class. It fails for want of
/// memory alone beyond what it says.
pub(crate) fn renamed<L: Ledger>(
    kept: &Analysis,
    docs: &Docs,
    conf: &Conf,
    tok: &TokId,
    new_name: &str,
    steps: &mut Steps<L>,
) -> Result<Edits, RenameError>
    requires usable { IsUsable conf.now }
    requires kept { IsAnalysis docs.now conf.now kept.now }
    requires texts { AreShort docs.now }
    ensures outcome { result ≢ Err NoMemory → result ≡ rename docs.now conf.now tok.now new_name.now }
    ensures steps { result ≢ Err NoMemory → steps.new ≡ steps.old + work_of docs.now conf.now tok.now new_name.now }
{
    names_are_short();
    classes_are_lists();
    let class = match class_kept(kept, tok) {
        Ok(class) => class,
        Err(_) => return Err(RenameError::NoMemory),
    };
    match plan(kept.alloc, class, new_name) {
        Ok(planned) => settled(kept, docs, conf, planned, steps),
        Err(error) => Err(error),
    }
}
