// A token as it stands in a list.
ghost use Rattle.std.specs.Prelude.{◌≡◌, IfOk};
ghost use Rattle.macro_expand.specs.Ties.Looks.{seen};
ghost use Rattle.macro_expand.specs.Tokens.{plain};

use crate::hide::HideSet;
use crate::types::Marked;
use std::alloc::AllocError;
use tok_data::OutToken;

// A token of a list, and the names that it is hidden from there.
#[derive(Drop)]
pub(crate) struct Look<'a> {
    pub(crate) token: &'a OutToken,
    pub(crate) hides: HideSet,
}

impl<'a> Look<'a> {
    pub(crate) fn of(marked: &'a Marked) -> Look<'a>
        ensures { seen result ≡ marked.now }
    {
        Look {
            token: &marked.token,
            hides: marked.hides.copy(),
        }
    }

    pub(crate) fn plain(token: &'a OutToken) -> Look<'a>
        ensures { seen result ≡ plain token.now }
    {
        Look {
            token,
            hides: HideSet::empty(),
        }
    }

    pub(crate) fn copy(&self) -> Result<Marked, AllocError>
        ensures { IfOk result (λ t. t ≡ seen self.now) }
    {
        let token = self.token.copy()?;
        Ok(Marked {
            token,
            hides: self.hides.copy(),
        })
    }
}
