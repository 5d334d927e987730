// What a token is.
ghost use Rattle.std.specs.Prelude.{◌≡◌};
ghost use Rattle.macro_expand.specs.Tokens as spec;
ghost use Rattle.pp_cond.specs.Defined.{is_word};

use tok_data::{OutToken, PpKind};

pub(crate) fn is_ident(kind: PpKind) -> bool
    ensures { result ≡ spec.is_ident kind }
{
    match kind {
        PpKind::Ident => true,
        _ => false,
    }
}

// A punctuator that is spelt so.
#[tactic(auto, unfolding(macro_expand::specs::Tokens::is_mark))]
pub(crate) fn is_mark(text: &str, token: &OutToken) -> bool
    ensures { result ≡ spec.is_mark text.now token.now }
{
    match token.kind {
        PpKind::Punct => token.spelling.as_str() == text,
        _ => false,
    }
}

// `#`.
#[tactic(auto, unfolding(macro_expand::specs::Tokens::is_hash))]
pub(crate) fn is_hash(token: &OutToken) -> bool
    ensures { result ≡ spec.is_hash token.now }
{
    if is_mark("#", token) {
        return true;
    }
    is_mark("%:", token)
}

// `##`.
#[tactic(auto, unfolding(macro_expand::specs::Tokens::is_paste))]
pub(crate) fn is_paste(token: &OutToken) -> bool
    ensures { result ≡ spec.is_paste token.now }
{
    if is_mark("##", token) {
        return true;
    }
    is_mark("%:%:", token)
}

// An identifier that is spelt so.
pub(crate) fn is_word(text: &str, token: &OutToken) -> bool
    ensures { result ≡ is_word text.now token.now }
{
    is_ident(token.kind) && token.spelling.as_str() == text
}
