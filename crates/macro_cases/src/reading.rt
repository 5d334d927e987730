// The tokens of a text, and the macro that a `#define` line defines.
use c_tokens::{PpToken, lex};
use macro_table::{Body, MacroDef, Params};
use shared_text::Name;
use std::alloc::{AllocError, Global};
use tok_data::{FileId, OutToken, Spelt, TokId};

// A longer text has no tokens.
const LONGEST_TEXT: usize = 4_000_000_000;

// The first token of a file.
fn first_of(alloc: Global, file: &str) -> Result<TokId, AllocError> {
    let name = Name::from_str(alloc, file)?;
    Ok(TokId {
        file: FileId::from_name(name),
        at: 0,
    })
}

// A token that is spelt where it stands.
fn standing(token: &PpToken, tok: &TokId) -> Result<OutToken, AllocError> {
    let spelling = token.spelling.share()?;
    let own = tok.copy()?;
    Ok(OutToken {
        kind: token.kind,
        spelling,
        space_before: token.space_before,
        spelt: Spelt::At(own),
        site: tok.copy()?,
    })
}

fn push_standing(out: &mut Vec<OutToken>, token: &PpToken, tok: &TokId) -> Result<(), AllocError> {
    let token = standing(token, tok)?;
    out.push(token)?;
    Ok(())
}

fn push_all(
    out: &mut Vec<OutToken>,
    tokens: &[PpToken],
    tok: &mut TokId,
) -> Result<(), AllocError> {
    for token in tokens {
        push_standing(out, token, tok)?;
        tok.at = tok.at.saturating_add(1);
    }
    Ok(())
}

/// The tokens of a text, each spelt where it stands.
pub fn tokens_of(alloc: Global, file: &str, text: &str) -> Result<Vec<OutToken>, AllocError> {
    let mut out = Vec::new(alloc);
    if LONGEST_TEXT < text.len() {
        return Ok(out);
    }
    let mut tok = first_of(alloc, file)?;
    let lexed = lex(alloc, text)?;
    push_all(&mut out, lexed.tokens.as_slice(), &mut tok)?;
    Ok(out)
}

fn push_name(out: &mut Vec<Name>, name: &Name) -> Result<(), AllocError> {
    let name = name.share()?;
    out.push(name)?;
    Ok(())
}

// The names of a parameter list, up to its closing parenthesis.
fn push_names(out: &mut Vec<Name>, tokens: &[OutToken]) -> Result<(), AllocError> {
    for token in tokens {
        match token.spelling.as_str() {
            ")" => return Ok(()),
            "," | "..." => {}
            _ => push_name(out, &token.spelling)?,
        }
    }
    Ok(())
}

fn params_of(alloc: Global, tokens: &[OutToken]) -> Result<Params, AllocError> {
    let mut names = Vec::new(alloc);
    push_names(&mut names, tokens)?;
    Ok(Params::from_vec(names))
}

// Whether a parameter list has `...`.
fn is_variadic(tokens: &[OutToken]) -> bool {
    for token in tokens {
        match token.spelling.as_str() {
            ")" => return false,
            "..." => return true,
            _ => {}
        }
    }
    false
}

// What stands behind a parameter list.
fn behind_list(tokens: &[OutToken]) -> &[OutToken] {
    let mut rest = tokens;
    while let Some((token, behind)) = rest.split_first() {
        rest = behind;
        if token.spelling.as_str() == ")" {
            return rest;
        }
    }
    rest
}

fn push_copy(out: &mut Vec<OutToken>, token: &OutToken) -> Result<(), AllocError> {
    let copy = token.copy()?;
    out.push(copy)?;
    Ok(())
}

fn body_of(alloc: Global, tokens: &[OutToken]) -> Result<Body, AllocError> {
    let mut body = Vec::new(alloc);
    for token in tokens {
        push_copy(&mut body, token)?;
    }
    Ok(Body::from_vec(body))
}

fn macro_of(
    alloc: Global,
    name: &OutToken,
    params: Option<Params>,
    variadic: bool,
    tokens: &[OutToken],
) -> Result<MacroDef, AllocError> {
    let body = body_of(alloc, tokens)?;
    let tok = name.site.copy()?;
    Ok(MacroDef {
        name: name.spelling.share()?,
        tok,
        params,
        variadic,
        body,
    })
}

// The macro of a name, with what stands behind it.
fn named(alloc: Global, name: &OutToken, tokens: &[OutToken]) -> Result<MacroDef, AllocError> {
    match tokens.split_first() {
        Some((token, list)) if token.spelling.as_str() == "(" && !token.space_before => {
            let params = params_of(alloc, list)?;
            macro_of(
                alloc,
                name,
                Some(params),
                is_variadic(list),
                behind_list(list),
            )
        }
        _ => macro_of(alloc, name, None, false, tokens),
    }
}

/// The definition of a `#define` line; none where the line has no name.
pub fn definition(alloc: Global, file: &str, line: &str) -> Result<Option<MacroDef>, AllocError> {
    let tokens = tokens_of(alloc, file, line)?;
    let [_, _, name, rest @ ..] = tokens.as_slice() else {
        return Ok(None);
    };
    let def = named(alloc, name, rest)?;
    Ok(Some(def))
}
