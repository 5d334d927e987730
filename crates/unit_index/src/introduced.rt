// Which of some tokens only use, in every unit.
ghost use Rattle.std.specs.Prelude.{◌≡◌, ◌||◌, ◌&&◌, ℕ, not, false, List, IfOk, OnOk};
ghost use Rattle.std.specs.List.{filter, list_any};
ghost use Rattle.tok_data.specs.declared.sources.TokId.{TokId as Token};
ghost use Rattle.unit_index.specs.Groups.{in_group, is_in};
ghost use Rattle.unit_index.specs.Introduced as spec;
ghost use Rattle.unit_index.specs.Occurrences.{occs_of};
ghost use Rattle.unit_index.specs.References.{is_introduced, is_wanted};
ghost use Rattle.unit_index.specs.Sets.{has_tok};
ghost use Rattle.unit_index.specs.Tokens.{is_outside};

use crate::files::introduces;
use crate::groups::{Groups, group_of, grouped};
use crate::piece::Piece;
use crate::sets::{add_token, has_token, is_outside, no_tokens};
use crate::unit::IndexedUnit;
use std::alloc::{AllocError, Global};
use std::collections::BTreeSet;
use tok_data::{FileId, TokId};

// Whether the token defines or declares something.
fn introduces_in(piece: &Piece, tok: &TokId) -> bool
    ensures { result ≡ list_any (is_introduced tok.now) piece.now }
{
    let mut walk = piece.at(tok);
    'occs: while let Some(occ) = walk.step() {
        if introduces(occ.role) {
            return true;
        }
    }
    false
}

// Whether it does in the unit.
fn introduces_here(unit: &IndexedUnit, tok: &TokId) -> bool
    ensures { result ≡ list_any (is_introduced tok.now) (occs_of unit.now) }
{
    let mut rest = unit.pieces();
    'pieces: while let Some((piece, behind)) = rest.split_first() {
        rest = behind;
        if introduces_in(piece, tok) {
            return true;
        }
    }
    false
}

fn note_token(
    found: &mut BTreeSet<TokId>,
    unit: &IndexedUnit,
    tok: &TokId,
) -> Result<(), AllocError>
    ensures { OnOk result ((q : Token) → has_tok found.new q ≡ has_tok found.old q || spec.brings unit.now q tok.now) }
{
    if !introduces_here(unit, tok) {
        return Ok(());
    }
    add_token(found, tok)
}

fn note_group(
    found: &mut BTreeSet<TokId>,
    unit: &IndexedUnit,
    group: &[TokId],
) -> Result<(), AllocError>
    ensures { OnOk result ((q : Token) → has_tok found.new q ≡ has_tok found.old q || list_any (spec.brings unit.now q) group.now) }
{
    let mut rest = group;
    'tokens: while let Some((tok, behind)) = rest.split_first() {
        note_token(found, unit, tok)?;
        rest = behind;
    }
    Ok(())
}

fn note_files(
    found: &mut BTreeSet<TokId>,
    unit: &IndexedUnit,
    groups: &Groups,
    files: &[FileId],
) -> Result<(), AllocError>
    ensures { OnOk result ((q : Token) → has_tok found.new q ≡ has_tok found.old q || list_any (λ f. list_any (spec.brings unit.now q) (in_group groups.now f)) files.now) }
{
    let mut rest = files;
    'files: while let Some((file, behind)) = rest.split_first() {
        note_group(found, unit, group_of(groups, file))?;
        rest = behind;
    }
    Ok(())
}

// Notes those of some tokens, which stand by their texts in `groups`, that the unit introduces: of each text in which it
// introduces something.
fn note_unit(
    found: &mut BTreeSet<TokId>,
    unit: &IndexedUnit,
    groups: &Groups,
) -> Result<(), AllocError>
    ensures { OnOk result ((ts : List Token) → ((f : List ℕ) → in_group groups.now f ≡ filter (is_in f) ts) → (q : Token) → has_tok found.new q ≡ has_tok found.old q || list_any (spec.brings unit.now q) ts) }
{
    note_files(found, unit, groups, unit.files())?;
    Ok(())
}

// Those of some tokens that some unit introduces.
fn all_introduced(
    alloc: Global,
    units: &[IndexedUnit],
    tokens: &[TokId],
) -> Result<BTreeSet<TokId>, AllocError>
    ensures { IfOk result (λ found. (q : Token) → has_tok found q ≡ list_any (λ u. list_any (spec.brings u q) tokens.now) units.now) }
{
    let groups = grouped(alloc, tokens)?;
    let mut found = no_tokens(alloc);
    let mut rest = units;
    'units: while let Some((unit, behind)) = rest.split_first() {
        note_unit(&mut found, unit, &groups)?;
        rest = behind;
    }
    Ok(found)
}

fn is_left(introduced: &BTreeSet<TokId>, tok: &TokId) -> bool
    ensures { result ≡ spec.is_left (has_tok introduced.now) tok.now }
{
    is_outside(tok) && !has_token(introduced, tok)
}

fn all_left(
    alloc: Global,
    introduced: &BTreeSet<TokId>,
    tokens: &[TokId],
) -> Result<Vec<TokId>, AllocError>
    ensures { IfOk result (λ out. out.items ≡ filter (spec.is_left (has_tok introduced.now)) tokens.now) }
{
    let mut out = Vec::new(alloc);
    let mut rest = tokens;
    'tokens: while let Some((tok, behind)) = rest.split_first() {
        rest = behind;
        if !is_left(introduced, tok) {
            continue;
        }
        out.push(tok.copy()?)?;
    }
    Ok(out)
}

/// Those of some tokens, outside the library's texts, that only use, in every unit. The cost is linear in their number, in that of the
/// units and of the texts in which these introduce something, and in how often a token's text is one of these.
pub(crate) fn uses_among(
    alloc: Global,
    units: &[IndexedUnit],
    tokens: &[TokId],
) -> Result<Vec<TokId>, AllocError>
    ensures { IfOk result (λ out. out.items ≡ filter (is_wanted units.now false) tokens.now) }
{
    let introduced = all_introduced(alloc, units, tokens)?;
    let out = all_left(alloc, &introduced, tokens)?;
    Ok(out)
}
