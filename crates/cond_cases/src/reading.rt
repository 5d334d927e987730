// The tokens of a text, and the macro that a `#define` line defines.
ghost use Rattle.std.specs.Prelude.{◌≤◌, length};

use c_tokens::lex;
use macro_table::{Body, MacroDef, Params};
use shared_text::Name;
use std::alloc::{AllocError, Global};
use tok_data::{FileId, OutToken, Spelt, TokId};

// A longer text has no tokens.
const LONGEST_TEXT: usize = 4_000_000_000;

/// The tokens of a text, each spelt where it stands.
pub fn tokens_of(alloc: Global, file: &str, text: &str) -> Result<Vec<OutToken>, AllocError> {
    let mut out = Vec::new(alloc);
    if LONGEST_TEXT < text.len() {
        return Ok(out);
    }
    let file = FileId::from_name(Name::from_str(alloc, file)?);
    let lexed = lex(alloc, text)?;
    let mut tok = TokId { file, at: 0 };
    for token in lexed.tokens.as_slice() {
        out.push(OutToken {
            kind: token.kind,
            spelling: token.spelling.share()?,
            space_before: token.space_before,
            spelt: Spelt::At(tok.copy()?),
            site: tok.copy()?,
        })?;
        tok.at = tok.at.saturating_add(1);
    }
    Ok(out)
}

// The parameters of a definition, whether the last is `...`, and the tokens behind them.
#[derive(Drop)]
struct Head<'a> {
    params: Option<Params>,
    variadic: bool,
    behind: &'a [OutToken],
}

// The names up to the closing parenthesis.
fn read_list<'a>(alloc: Global, tokens: &'a [OutToken]) -> Result<Head<'a>, AllocError> {
    let mut names = Vec::new(alloc);
    let mut variadic = false;
    let mut rest = tokens;
    while let Some((token, behind)) = rest.split_first() {
        rest = behind;
        match token.spelling.as_str() {
            ")" => break,
            "," => {}
            "..." => variadic = true,
            _ => names.push(token.spelling.share()?)?,
        }
    }
    Ok(Head {
        params: Some(Params::from_vec(names)),
        variadic,
        behind: rest,
    })
}

// What stands behind a macro's name.
fn read_head<'a>(alloc: Global, tokens: &'a [OutToken]) -> Result<Head<'a>, AllocError> {
    match tokens.split_first() {
        Some((token, behind)) if token.spelling.as_str() == "(" && !token.space_before => read_list(
            alloc, behind,
        ),
        _ => Ok(Head {
            params: None,
            variadic: false,
            behind: tokens,
        }),
    }
}

/// The definition of a `#define` line; none where the line has no name.
pub fn definition(alloc: Global, file: &str, line: &str) -> Result<Option<MacroDef>, AllocError> {
    let tokens = tokens_of(alloc, file, line)?;
    let [_, _, name, rest @ ..] = tokens.as_slice() else {
        return Ok(None);
    };
    let head = read_head(alloc, rest)?;
    let mut body = Vec::new(alloc);
    for token in head.behind {
        body.push(token.copy()?)?;
    }
    Ok(Some(MacroDef {
        name: name.spelling.share()?,
        tok: name.site.copy()?,
        params: head.params,
        variadic: head.variadic,
        body: Body::from_vec(body),
    }))
}
