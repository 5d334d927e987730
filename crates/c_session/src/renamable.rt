// Whether what a position denotes may get another name (LSP 3.17, textDocument/prepareRename).
ghost use Rattle.std.specs.Prelude.{◌≡◌, map, slice_get, IfOk};
ghost use Rattle.lsp_answers.specs.Located.{renamable_data};
ghost use Rattle.plain_mean.specs.Given.{text_in};
ghost use Rattle.plain_mean.specs.Spelled.{spelling_of};
ghost use Rattle.serde_json.specs.Written.{compact_text};
ghost use Rattle.c_session.specs.Kept.{HasLexed, units_in};
ghost use Rattle.c_session.specs.Classed.{class_in};
ghost use Rattle.c_session.specs.Places.{range_in as ranged};
ghost use Rattle.c_session.specs.Renamable as spec;
ghost use Rattle.rename_core.specs.Refusals.{can_be_renamed};
ghost use Rattle.unit_index.specs.Occurrences.{occs_of};

use crate::analysis::Analysis;
use crate::answers::null_text;
use crate::classed::class_in;
use crate::located::range_in;
use crate::positions::token_at;
use doc_texts::Docs;
use lsp_answers::{JsonText, renamable};
use rename_core::Class;
use scope_tables::Occ;
use shared_list::Listing;
use shared_text::Name;
use std::alloc::{AllocError, Global};
use text_lines::{Encoding, Pos};
use tok_data::{PpToken, TokId};
use unit_index::IndexedUnit;
use uri_paths::Path;

/// The occurrences of each of some units, copied, since units keep them in pieces.
pub(crate) fn occs_of(alloc: Global, units: &[IndexedUnit]) -> Result<Vec<Listing<Occ>>, AllocError>
    ensures { IfOk result (λ all. all.items ≡ map occs_of units.now) }
{
    let mut all = Vec::new(alloc);
    let mut rest = units;
    'turn: while let Some((unit, behind)) = rest.split_first() {
        rest = behind;
        let occs = unit.occs(alloc)?;
        all.push(Listing::from_vec(occs))?;
    }
    Ok(all)
}

// Lists, each lent.
fn lent<'a>(alloc: Global, lists: &'a [Listing<Occ>]) -> Result<Vec<&'a [Occ]>, AllocError>
    ensures { IfOk result (λ all. map (λ occs. occs.now) all.items ≡ lists.now) }
{
    let mut all = Vec::new(alloc);
    let mut rest = lists;
    'turn: while let Some((list, behind)) = rest.split_first() {
        rest = behind;
        all.push(list.as_slice())?;
    }
    Ok(all)
}

/// The class of a token over the units that are kept. Linear in the number of occurrences of all units.
pub(crate) fn class_kept(kept: &Analysis, tok: &TokId) -> Result<Class, AllocError>
    ensures { IfOk result (λ class. class ≡ class_in (map occs_of (units_in kept.now)) tok.now) }
{
    let occs = occs_of(kept.alloc, kept.units.as_slice())?;
    let units = lent(kept.alloc, occs.as_slice())?;
    let class = class_in(kept.alloc, units.as_slice(), tok)?;
    Ok(class)
}

fn may_be_renamed(kept: &Analysis, tok: &TokId) -> Result<bool, AllocError>
    ensures { IfOk result (λ can. can ≡ can_be_renamed (class_in (map occs_of (units_in kept.now)) tok.now)) }
{
    let class = class_kept(kept, tok)?;
    let can = class.can_be_renamed();
    drop(class);
    Ok(can)
}

fn spelling_of(alloc: Global, tokens: &[PpToken], at: u32) -> Result<Name, AllocError>
    ensures { IfOk result (λ name. name ≡ spelling_of (slice_get tokens.now at)) }
{
    match tokens.get(at as usize) {
        Some(token) => token.spelling.share(),
        None => Name::from_str(alloc, ""),
    }
}

#[tactic(auto, unfolding(crate::specs::Renamable::spelling_in))]
fn spelling_in(kept: &Analysis, docs: &Docs, path: &Path, at: u32) -> Result<Name, AllocError>
    requires { HasLexed docs.now kept.now }
    ensures { IfOk result (λ name. name ≡ spec.spelling_in (text_in docs.now path.now) at) }
{
    let lexed = kept.lexings.at(docs, path)?;
    let name = spelling_of(kept.alloc, lexed.tokens.as_slice(), at)?;
    Ok(name)
}

#[tactic(auto, using(crate::proofs::Floats::renamable_has_none))]
fn shown(alloc: Global, name: &str, start: Pos, end: Pos) -> Result<JsonText, AllocError>
    ensures { IfOk result (λ t. t ≡ compact_text (renamable_data name.now start end)) }
{
    let value = renamable(alloc, name, start, end)?;
    JsonText::of(alloc, &value)
}

// The range and the spelling of the token with this number of a text.
fn told(
    kept: &Analysis,
    docs: &Docs,
    encoding: Encoding,
    path: &Path,
    at: u32,
) -> Result<JsonText, AllocError>
    requires { HasLexed docs.now kept.now }
    ensures { IfOk result (λ t. t ≡ compact_text (spec.shown (spec.spelling_in (text_in docs.now path.now) at) (ranged (text_in docs.now path.now) encoding at))) }
{
    let (start, end) = range_in(kept, docs, encoding, path, at)?;
    let name = spelling_in(kept, docs, path, at)?;
    let text = shown(kept.alloc, name.as_str(), start, end)?;
    Ok(text)
}

/// What is answered where a name may be renamed that a position denotes, and where not. Linear in the number of occurrences of all units.
#[tactic(auto, unfolding(crate::specs::Renamable::renamable))]
pub(crate) fn renamable_at(
    kept: &Analysis,
    docs: &Docs,
    encoding: Encoding,
    path: &Path,
    pos: Pos,
) -> Result<JsonText, AllocError>
    requires { HasLexed docs.now kept.now }
    ensures { IfOk result (λ t. t ≡ compact_text (spec.renamable (units_in kept.now) docs.now encoding path.now pos)) }
{
    let Some(tok) = token_at(kept, docs, encoding, path, pos)? else {
        return null_text(kept.alloc);
    };
    let can = may_be_renamed(kept, &tok)?;
    if can {
        let text = told(kept, docs, encoding, path, tok.at)?;
        return Ok(text);
    }
    null_text(kept.alloc)
}
