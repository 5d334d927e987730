// What a token is.
ghost use Rattle.std.specs.Prelude.{◌≡◌};
ghost use Rattle.macro_expand.specs.Tokens as spec;

use tok_data::{OutToken, PpKind};

pub(crate) fn is_ident(kind: PpKind) -> bool
    ensures { result ≡ spec.is_ident kind }
{
    match kind {
        PpKind::Ident => true,
        _ => false,
    }
}

// A character constant or a string literal.
pub(crate) fn is_literal(kind: PpKind) -> bool
    ensures { result ≡ spec.is_literal kind }
{
    match kind {
        PpKind::Char | PpKind::Str => true,
        _ => false,
    }
}

// A punctuator that is spelt so.
#[tactic(auto, unfolding(crate::specs::Tokens::is_mark))]
pub(crate) fn is_mark(text: &str, token: &OutToken) -> bool
    ensures { result ≡ spec.is_mark text.now token.now }
{
    match token.kind {
        PpKind::Punct => token.spelling.as_str() == text,
        _ => false,
    }
}

// The operator `#`.
#[tactic(auto, unfolding(crate::specs::Tokens::is_hash))]
pub(crate) fn is_hash(token: &OutToken) -> bool
    ensures { result ≡ spec.is_hash token.now }
{
    if is_mark("#", token) {
        return true;
    }
    is_mark("%:", token)
}

// The operator `##`.
#[tactic(auto, unfolding(crate::specs::Tokens::is_paste))]
pub(crate) fn is_paste(token: &OutToken) -> bool
    ensures { result ≡ spec.is_paste token.now }
{
    if is_mark("##", token) {
        return true;
    }
    is_mark("%:%:", token)
}

// `##` stands next.
pub(crate) fn begins_paste(tokens: &[OutToken]) -> bool
    ensures { result ≡ spec.begins_paste tokens.now }
{
    match tokens.split_first() {
        Some((token, _)) => is_paste(token),
        None => false,
    }
}
