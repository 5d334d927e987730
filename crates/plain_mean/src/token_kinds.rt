// The kinds of a text's preprocessing tokens.
ghost use Rattle.std.specs.Prelude.{◌≡◌, ◌≤◌, length, IfOk, Some};
ghost use Rattle.doc_texts.specs.Texts.{text_at};
ghost use Rattle.plain_mean.specs.TokenKinds.{kinds_of, kinds_in};

use c_tokens::lex;
use doc_texts::Docs;
use std::alloc::{AllocError, Global};
use tok_data::{PpKind, PpToken};
use uri_paths::Path;

fn kinds_of(alloc: Global, tokens: &[PpToken]) -> Result<Vec<PpKind>, AllocError>
    ensures { IfOk result (λ kinds. kinds.items ≡ kinds_of tokens.now) }
{
    let mut kinds = Vec::new(alloc);
    let mut rest = tokens;
    'turn: while let Some((token, behind)) = rest.split_first() {
        rest = behind;
        kinds.push(token.kind)?;
    }
    Ok(kinds)
}

fn kinds_in(alloc: Global, text: &str) -> Result<Vec<PpKind>, AllocError>
    requires { length text.now ≤ 4290772992 }
    ensures { IfOk result (λ kinds. kinds.items ≡ kinds_in (Some text.now)) }
{
    let lexed = lex(alloc, text)?;
    kinds_of(alloc, lexed.tokens.as_slice())
}

/// The kinds of the preprocessing tokens (6.4) of the text at a path, in order; none where there is no text. It costs one lexing of
/// the text.
pub fn kinds(alloc: Global, docs: &Docs, path: &Path) -> Result<Vec<PpKind>, AllocError>
    ensures { IfOk result (λ kinds. kinds.items ≡ kinds_in (text_at docs.now path.now)) }
{
    match docs.text(path) {
        Some(text) => kinds_in(alloc, text),
        None => Ok(Vec::new(alloc)),
    }
}
