// The tokens of a line.
use c_tokens::lex;
use shared_text::Name;
use std::alloc::{AllocError, Global};
use tok_data::{FileId, OutToken, Spelt, TokId};

// A longer text has no tokens.
const LONGEST_TEXT: usize = 4_000_000_000;

// Adds the tokens of this text, each spelt where it stands.
fn add_tokens(
    alloc: Global,
    out: &mut Vec<OutToken>,
    file: FileId,
    text: &str,
) -> Result<(), AllocError> {
    if LONGEST_TEXT < text.len() {
        return Ok(());
    }
    let lexed = lex(alloc, text)?;
    let mut tok = TokId { file, at: 0 };
    for token in lexed.tokens.as_slice() {
        out.push(OutToken {
            kind: token.kind,
            spelling: token.spelling.share()?,
            space_before: token.space_before,
            spelt: Spelt::At(tok.copy()?),
            site: tok.copy()?,
        })?;
        tok.at = tok.at.saturating_add(1);
    }
    Ok(())
}

fn text_of(alloc: Global, path: &str) -> Result<FileId, AllocError> {
    let name = Name::from_str(alloc, path)?;
    Ok(FileId::from_name(name))
}

/// The unit's own text.
pub fn own_text(alloc: Global) -> Result<FileId, AllocError> {
    text_of(alloc, "/t.c")
}

/// The tokens of a unit: what stands in front of an `@` is the text of its header.
pub fn tokens_of(alloc: Global, line: &str) -> Result<Vec<OutToken>, AllocError> {
    let mut out = Vec::new(alloc);
    let own = own_text(alloc)?;
    match line.split_once('@') {
        Some((header, text)) => {
            add_tokens(alloc, &mut out, text_of(alloc, "/h.h")?, header)?;
            add_tokens(alloc, &mut out, own, text)?;
        }
        None => add_tokens(alloc, &mut out, own, line)?,
    }
    Ok(out)
}
