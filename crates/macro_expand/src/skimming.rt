// Tokens that no macro takes, which go from the front of a list straight to what is kept.
ghost use Rattle.std.specs.Prelude.{◌≡◌, ◌∷◌, ◌≤◌, ◌<◌, ℕ, List, drop, length, map as list_map, IfOk, OnOk, IsTrue};
ghost use Rattle.tok_data.specs.declared.sources.TokId.{TokId as Site};
ghost use Rattle.macro_expand.specs.declared.types.Marked.{Marked};
ghost use Rattle.macro_expand.specs.declared.types.Progress.{Progress};
ghost use Rattle.macro_expand.specs.Ties.Codes.{Names};
ghost use Rattle.macro_expand.specs.Ties.Stands.{Stands, Grows};
ghost use Rattle.macro_expand.specs.Ties.Numbers.{real, reals};
ghost use Rattle.macro_expand.specs.Tokens.{plain};
ghost use Rattle.std.specs.FinMap as map;
ghost use Rattle.macro_expand.specs.Expansion as spec;
ghost use Rattle.macro_expand.specs.Ties.Keeping as keeping;
ghost use Rattle.macro_expand.specs.Ties.Steps as steps;

use crate::finding::{Meaning, meaning_of, plain_meaning};
use crate::keeping::Kept;
use crate::rest::Rest;
use crate::sets::Sets;
use macro_table::MacroTable;
use std::alloc::{AllocError, Global};
use tok_data::OutToken;

// The first tokens of a list of which none was replaced, as far as they stay as they are, go to what is kept; so many
// are these.
pub(crate) fn skim_plain(
    table: &MacroTable,
    room: usize,
    stopped: bool,
    tokens: &[OutToken],
    kept: &mut Kept,
) -> Result<usize, AllocError>
    ensures value { IfOk result (λ n. (lines : List (Site × ℕ)) (p : Progress) → p.stopped ≡ stopped
        → keeping.held room kept.new (spec.expansion (map.get table.now) lines p (list_map plain (drop n tokens.now)))
        ≡ keeping.held room kept.old (spec.expansion (map.get table.now) lines p (list_map plain tokens.now))) }
    ensures within { IfOk result (λ n. n ≤ length tokens.now) }
{
    let mut count = 0;
    for token in tokens {
        match plain_meaning(table, stopped, token) {
            Meaning::Ordinary => {}
            _ => return Ok(count),
        }
        kept.put_copy(room, token)?;
        count += 1;
    }
    Ok(count)
}

// There is a first token, and it stays as it is.
fn stays_first(
    alloc: Global,
    sets: &mut Sets,
    table: &MacroTable,
    stopped: bool,
    rest: &Rest<'_>,
) -> Result<bool, AllocError>
    ensures grows { OnOk result (Grows sets.old sets.new) }
    ensures value { IfOk result (λ stays. IsTrue stays → (f : Names → Names) → Stands f sets.new
        → (t : Marked) × ((rest.now ≡ t ∷ drop 1 rest.now)
        × (spec.Ordinary ≡ steps.sense (map.get table.now) stopped (real f t)))) }
    ensures some { IfOk result (λ stays. IsTrue stays → 0 < length rest.now) }
{
    let Some(token) = rest.look(0) else {
        return Ok(false);
    };
    let meaning = meaning_of(alloc, sets, table, stopped, &token)?;
    match meaning {
        Meaning::Ordinary => Ok(true),
        _ => Ok(false),
    }
}

// Goes on to the next token that doesn't stay as it is.
pub(crate) fn skim(
    alloc: Global,
    sets: &mut Sets,
    table: &MacroTable,
    room: usize,
    stopped: bool,
    rest: &mut Rest<'_>,
    kept: &mut Kept,
) -> Result<(), AllocError>
    ensures grows { OnOk result (Grows sets.old sets.new) }
    ensures value { OnOk result ((f : Names → Names) → Stands f sets.new → (lines : List (Site × ℕ)) (p : Progress)
        → p.stopped ≡ stopped
        → keeping.held room kept.new (spec.expansion (map.get table.now) lines p (reals f rest.new))
        ≡ keeping.held room kept.old (spec.expansion (map.get table.now) lines p (reals f rest.old))) }
    ensures shorter { OnOk result (length rest.new ≤ length rest.old) }
{
    'tokens: loop {
        rest.keep_plain(table, room, stopped, kept)?;
        let stays = stays_first(alloc, sets, table, stopped, rest)?;
        if !stays {
            return Ok(());
        }
        rest.keep_first(room, kept)?;
    }
}
