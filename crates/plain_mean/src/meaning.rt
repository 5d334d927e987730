// What a unit means, worked out anew.
ghost use Rattle.std.specs.Prelude.{◌≡◌, ◌+◌, ◌≤◌, ◌++◌, length, map, IfOk, OnOk};
ghost use Rattle.plain_mean.specs.Meanings as spec;
ghost use Rattle.plain_mean.specs.Meanings.{meaning};
ghost use Rattle.plain_mean.specs.Renewed.{IsGrounds};

use crate::lexings::{Lexings, text_of};
use crate::messages::message;
use crate::reading::Reading;
use crate::spelled::spelled_marks;
use crate::tokens::tokens_over;
use crate::types::{Grounds, Meant, ShownFaults, UnitMeaning};
use include_units::{Entered, UnitTokens};
use item_readings::readings_exist;
use scope_tables::Occ;
use shared_list::Listing;
use std::alloc::{AllocError, Global};
use std::mem;
use std::sync::ledger::Ledger;
use steps::Steps;
use stmt_checks::{KeptItems, fold_items};
use tok_data::{FileId, OutToken, OutTokens, PpFault, ShownFault, TokId};
use unit_meaning::{all_reached, moved};
use uri_paths::Path;

// Of these a unit has no more.
const MOST_TOKENS: usize = 2_000_000;

// The texts that were entered, each with the token by which it was.
fn entries(alloc: Global, entered: &[Entered]) -> Result<Vec<(FileId, TokId)>, AllocError>
    ensures { IfOk result (λ v. v.items ≡ map spec.entry entered.now) }
{
    let mut out = Vec::new(alloc);
    let mut rest = entered;
    'entered: while let Some((one, behind)) = rest.split_first() {
        rest = behind;
        let file = one.file.copy()?;
        let by = one.by.copy()?;
        out.push((file, by))?;
    }
    Ok(out)
}

fn shown_fault(
    alloc: Global,
    reached: &[(FileId, TokId)],
    fault: &PpFault,
) -> Result<ShownFault, AllocError>
    ensures { IfOk result (λ shown. shown ≡ spec.shown_fault reached.now fault.now) }
{
    let tok = moved(reached, &fault.tok)?;
    let text = message(alloc, fault.rule, fault.text.as_str())?;
    Ok(ShownFault {
        tok,
        rule: fault.rule,
        text,
    })
}

fn all_shown(
    alloc: Global,
    reached: &[(FileId, TokId)],
    faults: &[PpFault],
) -> Result<Vec<ShownFault>, AllocError>
    ensures { IfOk result (λ shown. shown.items ≡ map (spec.shown_fault reached.now) faults.now) }
{
    let mut out = Vec::new(alloc);
    let mut rest = faults;
    'faults: while let Some((fault, behind)) = rest.split_first() {
        rest = behind;
        out.push(shown_fault(alloc, reached, fault)?)?;
    }
    Ok(out)
}

// The faults of preprocessing, as they are shown.
fn shown_faults(
    alloc: Global,
    entered: &[(FileId, TokId)],
    faults: &[PpFault],
) -> Result<Vec<ShownFault>, AllocError>
    ensures { IfOk result (λ shown. shown.items ≡ spec.shown_faults entered.now faults.now) }
{
    let reached = all_reached(alloc, entered)?;
    let shown = all_shown(alloc, &reached, faults)?;
    Ok(shown)
}

fn item_tokens(tokens: OutTokens) -> Vec<OutToken>
    ensures tokens { result.items ≡ spec.item_tokens tokens }
    ensures few { length result.items ≤ 2000000 }
{
    let mut all = tokens.into_vec();
    all.truncate(MOST_TOKENS);
    all
}

// What the items mean, and what is shown of them and of the unit's end.
#[tactic(auto, unfolding(crate::specs::Meanings::item_meaning))]
fn item_meaning(
    alloc: Global,
    kept: KeptItems,
    text: &FileId,
    tokens: OutTokens,
    entered: &[(FileId, TokId)],
) -> Result<(scope_tables::UnitMeaning, KeptItems), AllocError>
    ensures { IfOk result (λ m. m.0 ≡ spec.item_meaning tokens entered.now) }
{
    readings_exist();
    let items = item_tokens(tokens);
    match fold_items(alloc, kept, text, items, entered) {
        Ok(meaning) => Ok(meaning),
        Err(error) => Err(error),
    }
}

fn joined(faults: Vec<ShownFault>, behind: ShownFaults) -> Result<ShownFaults, AllocError>
    ensures { IfOk result (λ all. all ≡ faults.items ++ behind) }
{
    let mut all = faults;
    let mut more = behind.into_vec();
    all.append(&mut more)?;
    Ok(Listing::from_vec(all))
}

// Puts these faults in front of those of the items.
fn put_in_front(
    alloc: Global,
    meaning: &mut scope_tables::UnitMeaning,
    faults: Vec<ShownFault>,
) -> Result<(), AllocError>
    ensures { OnOk result (meaning.new ≡ spec.behind faults.items meaning.old) }
{
    let items = mem::replace(&mut meaning.faults, Listing::from_vec(Vec::new(alloc)));
    let all = joined(faults, items)?;
    meaning.faults = all;
    Ok(())
}

fn whole(
    alloc: Global,
    kept: KeptItems,
    text: &FileId,
    faults: &[PpFault],
    tokens: OutTokens,
    entered: &[(FileId, TokId)],
) -> Result<(scope_tables::UnitMeaning, KeptItems), AllocError>
    ensures { IfOk result (λ m. m.0 ≡ spec.behind (spec.shown_faults entered.now faults.now) (spec.item_meaning tokens entered.now)) }
{
    let (mut meaning, kept) = item_meaning(alloc, kept, text, tokens, entered)?;
    let faults = shown_faults(alloc, entered, faults)?;
    put_in_front(alloc, &mut meaning, faults)?;
    Ok((meaning, kept))
}

fn followed(occs: Listing<Occ>, marks: Vec<Occ>) -> Result<Listing<Occ>, AllocError>
    ensures { IfOk result (λ all. all ≡ occs ++ marks.items) }
{
    let mut all = occs.into_vec();
    let mut behind = marks;
    all.append(&mut behind)?;
    Ok(Listing::from_vec(all))
}

// Puts these marks behind the occurrences.
fn put_behind(
    alloc: Global,
    meaning: &mut scope_tables::UnitMeaning,
    marks: Vec<Occ>,
) -> Result<(), AllocError>
    ensures { OnOk result (meaning.new ≡ spec.before marks.items meaning.old) }
{
    let occs = mem::replace(&mut meaning.occs, Listing::from_vec(Vec::new(alloc)));
    let all = followed(occs, marks)?;
    meaning.occs = all;
    Ok(())
}

fn meant_by(
    alloc: Global,
    kept: KeptItems,
    text: &FileId,
    marks: Vec<Occ>,
    tokens: UnitTokens,
) -> Result<(UnitMeaning, KeptItems), AllocError>
    ensures { IfOk result (λ m. m.0 ≡ spec.meant_by marks.items tokens) }
{
    let UnitTokens {
        tokens,
        faults,
        reads,
        spelled: _,
        entered,
        macros: _,
    } = tokens;
    let entered = entries(alloc, entered.as_slice())?;
    let (mut meaning, kept) = whole(alloc, kept, text, faults.as_slice(), tokens, &entered)?;
    put_behind(alloc, &mut meaning, marks)?;
    Ok((UnitMeaning { meaning, reads }, kept))
}

/// What a unit means over the texts of a session, worked out anew but for what was lexed, for the items at its front that the unit worked out before has too, and for
/// its own items that are as they were when it was worked out before, which is one step, and what that rests on. A path without a text
/// counts as one that isn't there, and the unit's own path without a text as an empty text. It fails for want of memory, and after 2^64-1 rounds of
/// questions, whose answers no memory holds.
pub fn mean<L: Ledger>(
    alloc: Global,
    lexings: &mut Lexings<'_>,
    reading: &Reading<'_>,
    unit: &Path,
    steps: &mut Steps<L>,
) -> Result<Meant, AllocError>
    ensures meaning { IfOk result (λ m. m.meaning ≡ meaning lexings.old reading.now unit.now) }
    ensures grounds { IfOk result (λ m. IsGrounds lexings.old reading.now unit.now m.grounds) }
    ensures same { lexings.new ≡ lexings.old }
    ensures steps { steps.new ≡ steps.old + 1 }
{
    steps.tick();
    let conf = reading.unit_conf(alloc, unit)?;
    let (tokens, asked) = tokens_over(alloc, lexings, &conf)?;
    let marks = spelled_marks(alloc, lexings, &conf, &asked, &tokens)?;
    let text = text_of(alloc, unit)?;
    let (meaning, kept) = meant_by(alloc, lexings.take_items(), &text, marks, tokens)?;
    lexings.put_items(kept);
    Ok(Meant {
        meaning,
        grounds: Grounds { conf, asked },
    })
}
