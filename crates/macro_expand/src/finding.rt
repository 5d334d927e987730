// What comes of a token (ISO C11 6.10.3p9, p10).
ghost use Rattle.std.specs.Prelude.{◌≡◌, ◌<◌, IfOk, OnOk, option_copied};
ghost use Rattle.macro_expand.specs.Ties.Codes.{Names};
ghost use Rattle.macro_expand.specs.Ties.Stands.{Stands, Grows};
ghost use Rattle.macro_expand.specs.Ties.Numbers.{real, reals, real_args, real_called};
ghost use Rattle.macro_expand.specs.Tokens.{plain};
ghost use Rattle.std.specs.FinMap as map;
ghost use Rattle.macro_expand.specs.Expansion as spec;
ghost use Rattle.macro_expand.specs.Ties.Looks.{seen};
ghost use Rattle.macro_expand.specs.Ties.Steps as steps;
ghost use Rattle.macro_expand.specs.Progress as made;
ghost use Rattle.macro_expand.specs.declared.finding.Found.TheVariants.{Stays};

use crate::arguments::{ArgumentList, Called, fitted, lacks_variable, read_call};
use crate::hide::HideSet;
use crate::look::Look;
use crate::rest::Rest;
use crate::sets::Sets;
use crate::tokens::is_ident;
use crate::types::{Marked, Progress};
use macro_table::{MacroDef, MacroTable};
use std::alloc::{AllocError, Global};
use tok_data::OutToken;

// What a name means.
#[derive(Clone, Copy, Drop)]
pub(crate) enum Meaning<'a> {
    Ordinary,
    Line,
    File,
    Macro(&'a MacroDef),
}

fn macro_or(def: Option<&MacroDef>) -> Meaning<'_>
    ensures { steps.meant result ≡ spec.macro_or (option_copied def.entry) }
{
    match def {
        Some(def) => Meaning::Macro(def),
        None => Meaning::Ordinary,
    }
}

fn named<'a>(table: &'a MacroTable, name: &str) -> Meaning<'a>
    ensures { steps.meant result ≡ spec.named (map.get table.now) name.now }
{
    if name == "__LINE__" {
        return Meaning::Line;
    }
    if name == "__FILE__" {
        return Meaning::File;
    }
    macro_or(table.get(name))
}

// What a name means that is hidden from none, where anything is replaced at all.
#[tactic(auto, unfolding(crate::specs::Expansion::meaning, crate::specs::HideSets::hides))]
pub(crate) fn plain_meaning<'a>(
    table: &'a MacroTable,
    stopped: bool,
    token: &OutToken,
) -> Meaning<'a>
    ensures { steps.meant result ≡ steps.sense (map.get table.now) stopped (plain token.now) }
{
    if stopped {
        return Meaning::Ordinary;
    }
    if !is_ident(token.kind) {
        return Meaning::Ordinary;
    }
    named(table, token.spelling.as_str())
}

// What a name means, where anything is replaced at all.
#[tactic(auto, unfolding(crate::specs::Expansion::meaning, crate::specs::HideSets::hides))]
pub(crate) fn meaning_of<'a>(
    alloc: Global,
    sets: &mut Sets,
    table: &'a MacroTable,
    stopped: bool,
    token: &Look<'_>,
) -> Result<Meaning<'a>, AllocError>
    ensures grows { OnOk result (Grows sets.old sets.new) }
    ensures value { IfOk result (λ m. (f : Names → Names) → Stands f sets.new
        → steps.meant m ≡ steps.sense (map.get table.now) stopped (real f (seen token.now))) }
{
    // Most names are no macros, and a look at the table costs less than one at the hide set.
    let meaning = plain_meaning(table, stopped, token.token);
    if let Meaning::Ordinary = meaning {
        return Ok(Meaning::Ordinary);
    }
    let hidden = sets.hides(alloc, &token.hides, &token.token.spelling)?;
    if hidden {
        return Ok(Meaning::Ordinary);
    }
    Ok(meaning)
}

// What comes of a macro's name: it stays, or is replaced, by what arguments, with what hide set, and with how many tokens
// behind it.
#[derive(Drop)]
pub(crate) enum Found {
    Stays,
    Replaced {
        args: ArgumentList,
        names: HideSet,
        width: usize,
    },
}

// A fault on the name, which stays.
fn faulty_found(
    alloc: Global,
    rule: u16,
    progress: &mut Progress,
    token: &Marked,
) -> Result<Found, AllocError>
    ensures stays { IfOk result (λ r. r ≡ Stays) }
    ensures noted { OnOk result (progress.new
        ≡ made.faulty rule token.now.token.site token.now.token.spelling progress.old) }
{
    progress.faulty(
        alloc,
        rule,
        &token.token.site,
        token.token.spelling.as_str(),
    )?;
    Ok(Found::Stays)
}

fn object_found(
    alloc: Global,
    sets: &mut Sets,
    progress: &mut Progress,
    token: &Marked,
    def: &MacroDef,
) -> Result<Found, AllocError>
    ensures grows { OnOk result (Grows sets.old sets.new) }
    ensures value { IfOk result (λ r. (f : Names → Names) → Stands f sets.new
        → steps.found_of f def.now progress.new r ≡ spec.object_found progress.old (real f token.now) def.now) }
    ensures spent { IfOk result (λ r. steps.IsSpent r progress.new.left progress.old.left) }
{
    if progress.left == 0 {
        progress.refused(alloc, token)?;
        return Ok(Found::Stays);
    }
    let tok = def.tok.copy()?;
    progress.counted(token, Some(tok))?;
    let names = sets.with(alloc, &token.hides, &token.token.spelling)?;
    Ok(Found::Replaced {
        args: ArgumentList::new(alloc),
        names,
        width: 0,
    })
}

// The replacement of a call with as many arguments as parameters.
fn counted_call(
    alloc: Global,
    progress: &mut Progress,
    token: &Marked,
    def: &MacroDef,
    lacks: bool,
) -> Result<(), AllocError>
    requires { 0 < progress.old.left }
    ensures { OnOk result (progress.new ≡ spec.counted_call progress.old token.now def.now lacks) }
{
    let tok = def.tok.copy()?;
    progress.counted(token, Some(tok))?;
    if lacks {
        return progress.faulty(alloc, 211, &token.token.site, token.token.spelling.as_str());
    }
    Ok(())
}

fn fit_found(
    alloc: Global,
    sets: &mut Sets,
    progress: &mut Progress,
    token: &Marked,
    def: &MacroDef,
    lacks: bool,
    args: ArgumentList,
    names: HideSet,
    width: usize,
) -> Result<Found, AllocError>
    ensures grows { OnOk result (Grows sets.old sets.new) }
    ensures value { IfOk result (λ r. (f : Names → Names) → Stands f sets.new
        → steps.found_of f def.now progress.new r
        ≡ spec.fit_found progress.old (real f token.now) def.now lacks (real_args f args) (f names) width) }
    ensures spent { IfOk result (λ r. steps.IsSpent r progress.new.left progress.old.left) }
{
    if progress.left == 0 {
        progress.refused(alloc, token)?;
        return Ok(Found::Stays);
    }
    counted_call(alloc, progress, token, def, lacks)?;
    let both = sets.common(alloc, &token.hides, &names)?;
    let hidden = sets.with(alloc, &both, &token.token.spelling)?;
    Ok(Found::Replaced {
        args,
        names: hidden,
        width,
    })
}

fn closed_found(
    alloc: Global,
    sets: &mut Sets,
    progress: &mut Progress,
    token: &Marked,
    def: &MacroDef,
    args: ArgumentList,
    names: HideSet,
    width: usize,
) -> Result<Found, AllocError>
    ensures grows { OnOk result (Grows sets.old sets.new) }
    ensures value { IfOk result (λ r. (f : Names → Names) → Stands f sets.new
        → steps.found_of f def.now progress.new r
        ≡ spec.closed_found progress.old (real f token.now) def.now (real_args f args) (f names) width) }
    ensures spent { IfOk result (λ r. steps.IsSpent r progress.new.left progress.old.left) }
{
    let lacks = lacks_variable(def, &args);
    let fit = fitted(alloc, def, args)?;
    match fit {
        Some(fit) => {
            let found = fit_found(alloc, sets, progress, token, def, lacks, fit, names, width)?;
            Ok(found)
        }
        None => {
            let found = faulty_found(alloc, 202, progress, token)?;
            Ok(found)
        }
    }
}

fn call_found(
    alloc: Global,
    sets: &mut Sets,
    progress: &mut Progress,
    token: &Marked,
    def: &MacroDef,
    called: Called,
) -> Result<Found, AllocError>
    ensures grows { OnOk result (Grows sets.old sets.new) }
    ensures value { IfOk result (λ r. (f : Names → Names) → Stands f sets.new
        → steps.found_of f def.now progress.new r
        ≡ spec.call_found progress.old (real f token.now) def.now (real_called f called)) }
    ensures spent { IfOk result (λ r. steps.IsSpent r progress.new.left progress.old.left) }
{
    match called {
        Called::Absent => Ok(Found::Stays),
        Called::Unclosed => {
            let found = faulty_found(alloc, 203, progress, token)?;
            Ok(found)
        }
        Called::Closed { args, names, width } => {
            let found = closed_found(alloc, sets, progress, token, def, args, names, width)?;
            Ok(found)
        }
    }
}

pub(crate) fn macro_found(
    alloc: Global,
    sets: &mut Sets,
    progress: &mut Progress,
    token: &Marked,
    rest: &Rest<'_>,
    def: &MacroDef,
) -> Result<Found, AllocError>
    ensures grows { OnOk result (Grows sets.old sets.new) }
    ensures value { IfOk result (λ r. (f : Names → Names) → Stands f sets.new
        → steps.found_of f def.now progress.new r
        ≡ spec.macro_found progress.old (real f token.now) (reals f rest.now) def.now def.now.params) }
    ensures spent { IfOk result (λ r. steps.IsSpent r progress.new.left progress.old.left) }
{
    match &def.params {
        None => {
            let found = object_found(alloc, sets, progress, token, def)?;
            Ok(found)
        }
        Some(_) => {
            let called = read_call(alloc, def, rest)?;
            let found = call_found(alloc, sets, progress, token, def, called)?;
            Ok(found)
        }
    }
}
