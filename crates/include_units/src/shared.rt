// What is kept of a text, shared by all who read it.
ghost use Rattle.std.specs.Prelude.{◌≡◌, IfOk};

use c_tokens::Places;
use std::alloc::{AllocError, Global};
use std::marker::Model;
use std::rc::Rc;
use tok_data::PpToken;

/// Tokens of a text, in order. A copy shares them.
#[derive(Debug, Drop)]
pub struct PpTokens {
    items: Rc<Vec<PpToken>>,
}

impl Model for PpTokens {
    ghost use Rattle.std.specs.Prelude.{List};
    ghost use Rattle.tok_data.specs.declared.tokens.PpToken.{PpToken};

    ghost Value = { List PpToken };

    ghost view = { λ tokens. tokens.items.value.items };
}

impl PpTokens {
    /// These tokens. It fails for want of memory alone.
    pub fn from_vec(alloc: Global, items: Vec<PpToken>) -> Result<PpTokens, AllocError>
        ensures { IfOk result (λ tokens. tokens ≡ items.items) }
    {
        let items = Rc::new(alloc, items)?;
        Ok(PpTokens { items })
    }

    /// The tokens.
    pub fn as_slice(&self) -> &[PpToken]
        ensures { result.now ≡ self.now }
    {
        &self.items
    }

    /// The same tokens, shared. It takes no memory but may be refused where they are shared 2^64 times.
    pub fn share(&self) -> Result<PpTokens, AllocError>
        ensures { IfOk result (λ copy. copy ≡ self.now) }
    {
        let items = self.items.clone()?;
        Ok(PpTokens { items })
    }
}

/// The places of the tokens of a text. A copy shares them.
#[derive(Debug, Drop)]
pub struct TextPlaces {
    places: Rc<Places>,
}

impl Model for TextPlaces {
    ghost use Rattle.c_tokens.specs.declared.types.Places.{Places};

    ghost Value = { Places };

    ghost view = { λ shared. shared.places.value };
}

impl TextPlaces {
    /// These places. It fails for want of memory alone.
    pub fn from_places(alloc: Global, places: Places) -> Result<TextPlaces, AllocError>
        ensures { IfOk result (λ shared. shared ≡ places) }
    {
        let places = Rc::new(alloc, places)?;
        Ok(TextPlaces { places })
    }

    /// The places.
    pub fn as_places(&self) -> &Places
        ensures { result.now ≡ self.now }
    {
        &self.places
    }

    /// The same places, shared. It takes no memory but may be refused where they are shared 2^64 times.
    pub fn share(&self) -> Result<TextPlaces, AllocError>
        ensures { IfOk result (λ copy. copy ≡ self.now) }
    {
        let places = self.places.clone()?;
        Ok(TextPlaces { places })
    }
}
