// The tokens of a text.
use c_tokens::lex;
use shared_text::Name;
use std::alloc::{AllocError, Global};
use tok_data::{FileId, OutToken, Spelt, TokId};

// A longer text has no tokens.
const LONGEST_TEXT: usize = 4_000_000_000;

/// The tokens of a text, each spelt where it stands.
pub fn tokens_of(alloc: Global, text: &str) -> Result<Vec<OutToken>, AllocError> {
    let mut out = Vec::new(alloc);
    if LONGEST_TEXT < text.len() {
        return Ok(out);
    }
    let file = FileId::from_name(Name::from_str(alloc, "/t.c")?);
    let lexed = lex(alloc, text)?;
    let mut tok = TokId { file, at: 0 };
    for token in lexed.tokens.as_slice() {
        out.push(OutToken {
            kind: token.kind,
            spelling: token.spelling.share()?,
            space_before: token.space_before,
            spelt: Spelt::At(tok.copy()?),
            site: tok.copy()?,
        })?;
        tok.at = tok.at.saturating_add(1);
    }
    Ok(out)
}
