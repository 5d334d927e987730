// The answers to questions about a file.
ghost use Rattle.std.specs.Prelude.{◌≡◌, Some, IfOk};
ghost use Rattle.serde_json.specs.Data.{null};
ghost use Rattle.serde_json.specs.Written.{compact_text};
ghost use Rattle.c_session.specs.Definition as defining;
ghost use Rattle.c_session.specs.Hover as hovering;
ghost use Rattle.c_session.specs.Kept.{HasLexed, units_in};
ghost use Rattle.c_session.specs.Answered.{answer};
ghost use Rattle.c_session.specs.References as mentioning;
ghost use Rattle.c_session.specs.Symbols as outlining;
ghost use Rattle.unit_index.specs.Seen.{speech_of};

use crate::analysis::Analysis;
use crate::located::{all_symbols, mentions, range_in};
use crate::positions::token_at;
use crate::question::Question;
use crate::renamable::renamable_at;
use doc_texts::Docs;
use lsp_answers::{JsonText, Located, hover, locations};
use serde_json::Value;
use std::alloc::{AllocError, Global};
use text_lines::{Encoding, Pos};
use unit_index::{Speaker, definition, hover_text, references, speaking};
use uri_paths::Path;

pub(crate) fn null_text(alloc: Global) -> Result<JsonText, AllocError>
    ensures { IfOk result (λ t. t ≡ compact_text null) }
{
    JsonText::of(alloc, &Value::Null)
}

// What a unit says of an entity.
#[tactic(auto, using(crate::proofs::Floats::hover_has_none))]
fn said_by(
    alloc: Global,
    speaker: Speaker<'_>,
    start: Pos,
    end: Pos,
) -> Result<JsonText, AllocError>
    ensures { IfOk result (λ t. t ≡ compact_text (hovering.of_speech (start, end) (Some (speech_of speaker.entry)))) }
{
    let text = hover_text(alloc, speaker.entity, &speaker.unit.exports().tags)?;
    let value = hover(alloc, text.as_str(), start, end)?;
    JsonText::of(alloc, &value)
}

/// What is told of the token at a position.
#[tactic(auto, unfolding(crate::specs::Hover::hover))]
fn hover_at(
    kept: &Analysis,
    docs: &Docs,
    encoding: Encoding,
    path: &Path,
    pos: Pos,
) -> Result<JsonText, AllocError>
    requires { HasLexed docs.now kept.now }
    ensures { IfOk result (λ t. t ≡ compact_text (hovering.hover (units_in kept.now) docs.now encoding path.now pos)) }
{
    let Some(tok) = token_at(kept, docs, encoding, path, pos)? else {
        return null_text(kept.alloc);
    };
    let Some(speaker) = speaking(kept.units.as_slice(), &tok) else {
        return null_text(kept.alloc);
    };
    let (start, end) = range_in(kept, docs, encoding, path, tok.at)?;
    let text = said_by(kept.alloc, speaker, start, end)?;
    Ok(text)
}

// The places, or null where there is none.
fn or_null(alloc: Global, shown: &[Located]) -> Result<JsonText, AllocError>
    ensures { IfOk result (λ t. t ≡ compact_text (defining.or_null shown.now)) }
{
    match shown.split_first() {
        Some(_) => locations(alloc, shown),
        None => null_text(alloc),
    }
}

/// Where what a position denotes is defined.
#[tactic(auto, unfolding(crate::specs::Definition::definition))]
fn definition_of(
    kept: &Analysis,
    docs: &Docs,
    encoding: Encoding,
    path: &Path,
    pos: Pos,
) -> Result<JsonText, AllocError>
    requires { HasLexed docs.now kept.now }
    ensures { IfOk result (λ t. t ≡ compact_text (defining.definition (units_in kept.now) docs.now encoding path.now pos)) }
{
    let Some(tok) = token_at(kept, docs, encoding, path, pos)? else {
        return null_text(kept.alloc);
    };
    let toks = definition(kept.alloc, kept.units.as_slice(), &tok)?;
    let shown = mentions(kept, docs, encoding, toks.as_slice())?;
    or_null(kept.alloc, shown.as_slice())
}

/// Where what a position denotes is mentioned.
#[tactic(auto, unfolding(crate::specs::References::references))]
fn references_to(
    kept: &Analysis,
    docs: &Docs,
    encoding: Encoding,
    path: &Path,
    pos: Pos,
    declarations: bool,
) -> Result<JsonText, AllocError>
    requires { HasLexed docs.now kept.now }
    ensures { IfOk result (λ t. t ≡ compact_text (mentioning.references (units_in kept.now) docs.now encoding path.now pos declarations)) }
{
    let Some(tok) = token_at(kept, docs, encoding, path, pos)? else {
        return locations(kept.alloc, &[]);
    };
    let toks = references(kept.alloc, kept.units.as_slice(), &tok, declarations)?;
    let shown = mentions(kept, docs, encoding, toks.as_slice())?;
    locations(kept.alloc, shown.as_slice())
}

/// What a file declares at file scope.
#[tactic(auto, unfolding(crate::specs::Symbols::symbols))]
fn symbols_of(
    kept: &Analysis,
    docs: &Docs,
    encoding: Encoding,
    path: &Path,
) -> Result<JsonText, AllocError>
    requires { HasLexed docs.now kept.now }
    ensures { IfOk result (λ t. t ≡ compact_text (outlining.symbols (units_in kept.now) docs.now encoding path.now)) }
{
    let symbols = unit_index::symbols(kept.alloc, kept.units.as_slice(), path)?;
    let shown = all_symbols(kept, docs, encoding, symbols.as_slice())?;
    lsp_answers::symbols(kept.alloc, shown.as_slice())
}

/// The answer to a question about the file at a path, as the text of its value: of a hover null or what the first unit that mentions the token
/// says; of a definition null or an array of places; of whether a name may be renamed null or its range and spelling; of references and symbols an array, in order of path, then place. A path without a text
/// denotes nothing. No unit is worked out. The cost is a look-up a unit, and for each place that is answered a look-up of its file and the
/// length of its line; a text that no unit reads is lexed where a position in it is asked for. It fails for want of memory alone.
pub fn answer(
    kept: &Analysis,
    docs: &Docs,
    encoding: Encoding,
    path: &Path,
    question: Question,
) -> Result<JsonText, AllocError>
    requires { HasLexed docs.now kept.now }
    ensures { IfOk result (λ t. t ≡ compact_text (answer (units_in kept.now) docs.now encoding path.now question)) }
{
    match question {
        Question::Hover(pos) => hover_at(kept, docs, encoding, path, pos),
        Question::Definition(pos) => definition_of(kept, docs, encoding, path, pos),
        Question::References(pos, declarations) => {
            references_to(kept, docs, encoding, path, pos, declarations)
        }
        Question::Symbols => symbols_of(kept, docs, encoding, path),
        Question::Renamable(pos) => renamable_at(kept, docs, encoding, path, pos),
    }
}
