// Texts of the server's own: the library texts and `<command>`.
ghost use Rattle.std.specs.Prelude.{◌≡◌, ◌≤◌, IfOk, length};
ghost use Rattle.include_units.specs.Own.{own_tokens, own_places};

use crate::shared::{PpTokens, TextPlaces};
use c_tokens::lex;
use shared_text::Name;
use std::alloc::{AllocError, Global};
use std::marker::Model;

// A text of the server's own, which is lexed once. Contracts see its bytes.
#[derive(Debug, Drop)]
pub(crate) struct OwnText {
    text: Name,
    tokens: PpTokens,
    places: TextPlaces,
}

impl Model for OwnText {
    ghost use Rattle.std.specs.Prelude.{◌≡◌, ◌≤◌, ℕ, List, length};
    ghost use Rattle.include_units.specs.Own.{own_tokens, own_places};

    ghost Value = { List ℕ };

    ghost view = { λ own. own.text };

    ghost invariant = { λ own. (own.tokens ≡ own_tokens own.text) × (own.places ≡ own_places own.text) × (length (own_tokens own.text) ≤ 4290772992) };
}

impl OwnText {
    pub(crate) fn from_str(alloc: Global, text: &str) -> Result<OwnText, AllocError>
        requires { length text.now ≤ 4290772992 }
        ensures { IfOk result (λ own. own ≡ text.now) }
    {
        let lexed = lex(alloc, text)?;
        let (tokens, places) = lexed.split(alloc, text)?;
        let tokens = PpTokens::from_vec(alloc, tokens)?;
        let places = TextPlaces::from_places(alloc, places)?;
        let text = Name::from_str(alloc, text)?;
        Ok(OwnText {
            text,
            tokens,
            places,
        })
    }

    pub(crate) fn tokens(&self) -> &PpTokens
        ensures tokens { result.now ≡ own_tokens self.now }
        ensures short { length result.now ≤ 4290772992 }
    {
        &self.tokens
    }

    pub(crate) fn places(&self) -> &TextPlaces
        ensures { result.now ≡ own_places self.now }
    {
        &self.places
    }
}
