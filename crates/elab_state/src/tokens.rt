// The tokens of an item, which are named by their numbers in it.
ghost use Rattle.std.specs.Prelude.{◌≡◌, IfOk};
ghost use Rattle.elab_state.specs.Tokens as spec;

use shared_text::Name;
use std::alloc::{AllocError, Global};
use tok_data::{FileId, OutToken, PpKind, TokId, is_keyword};

/// The spelling of a token; empty where there is none of this number.
pub fn spelling(tokens: &[OutToken], at: u32) -> &str
    ensures { result.now ≡ spec.spelling (spec.bare_tokens tokens.now) at }
{
    match tokens.get(at as usize) {
        Some(token) => token.spelling.as_str(),
        None => "",
    }
}

/// The spelling of a token as a name; empty where there is no token of this number.
pub fn name_at(alloc: Global, tokens: &[OutToken], at: u32) -> Result<Name, AllocError>
    ensures { IfOk result (λ name. name ≡ spec.spelling (spec.bare_tokens tokens.now) at) }
{
    match tokens.get(at as usize) {
        Some(token) => token.spelling.share(),
        None => Name::from_str(alloc, ""),
    }
}

/// Whether a token is an identifier (ISO C11 6.4.2), which no keyword is (6.4.1).
pub fn is_identifier(token: &OutToken) -> bool
    ensures { result ≡ spec.is_identifier token.now }
{
    match token.kind {
        PpKind::Ident => !is_keyword(token.spelling.as_str()),
        _ => false,
    }
}

/// The first of some tokens; 0 where there is none.
pub fn first_number(numbers: &[u32]) -> u32
    ensures { result ≡ spec.first_number numbers.now }
{
    match numbers.first() {
        Some(number) => *number,
        None => 0,
    }
}

/// A token of the item whose tokens are named by this text.
pub fn token(file: &FileId, at: u32) -> Result<TokId, AllocError>
    ensures { IfOk result (λ tok. tok ≡ spec.token file.now at) }
{
    let file = file.copy()?;
    Ok(TokId { file, at })
}
