// Which token a position denotes.
ghost use Rattle.std.specs.Prelude.{◌≡◌, ◌≤◌, length, IfOk};
ghost use Rattle.plain_mean.specs.Given.{text_in};
ghost use Rattle.plain_mean.specs.Lexing.{IsLexed};
ghost use Rattle.c_session.specs.Kept.{HasLexed};
ghost use Rattle.c_session.specs.Positions as spec;

use crate::analysis::Analysis;
use doc_texts::Docs;
use plain_mean::LexedText;
use shared_text::Name;
use std::alloc::{AllocError, Global};
use text_lines::{Encoding, Pos};
use tok_data::{FileId, TokId};
use unit_index::token_under;
use uri_paths::Path;

/// The text at a path, empty where there is none.
pub(crate) fn text_in<'a>(docs: &'a Docs, path: &Path) -> &'a str
    ensures text { result.now ≡ text_in docs.now path.now }
    ensures short { length result.now ≤ 4290772992 }
{
    match docs.text(path) {
        Some(text) => text,
        None => "",
    }
}

#[tactic(auto, unfolding(crate::specs::Positions::denoted))]
fn denoted(text: &str, lexed: &LexedText, encoding: Encoding, pos: Pos) -> Option<u32>
    requires lexed { IsLexed text.now lexed.now }
    requires short { length text.now ≤ 4290772992 }
    ensures { result ≡ spec.denoted text.now encoding pos }
{
    let places = lexed.places.as_places();
    let offset = places.lines.offset(text, pos, encoding);
    token_under(lexed.tokens.as_slice(), places.places.as_slice(), offset)
}

fn token(alloc: Global, path: &Path, at: u32) -> Result<TokId, AllocError>
    ensures { IfOk result (λ tok. tok ≡ spec.token path.now at) }
{
    let file = FileId::from_name(Name::from_str(alloc, path.as_str())?);
    Ok(TokId { file, at })
}

/// The identifier that a position of the text at a path denotes, where it denotes one.
#[tactic(auto, unfolding(crate::specs::Positions::token_at))]
pub(crate) fn token_at(
    kept: &Analysis,
    docs: &Docs,
    encoding: Encoding,
    path: &Path,
    pos: Pos,
) -> Result<Option<TokId>, AllocError>
    requires { HasLexed docs.now kept.now }
    ensures { IfOk result (λ tok. tok ≡ spec.token_at docs.now encoding path.now pos) }
{
    let lexed = kept.lexings.at(docs, path)?;
    match denoted(text_in(docs, path), &lexed, encoding, pos) {
        Some(at) => {
            let tok = token(kept.alloc, path, at)?;
            Ok(Some(tok))
        }
        None => Ok(None),
    }
}
