// The tokens of a text that are left to be read.
ghost use Rattle.std.specs.Prelude.{◌≡◌, ◌≤◌, IfOk, length};
ghost use Rattle.include_units.specs.Cursors.{ahead};
ghost use Rattle.include_units.specs.Fronts.{parts_after};
ghost use Rattle.include_units.specs.Texts.{parts_from};

use crate::shared::PpTokens;
use crate::texts::{Front, Part, next_part};
use shared_text::Name;
use std::alloc::{AllocError, Global};
use std::marker::Model;

// Contracts see these tokens, and the number of the first.
#[derive(Debug, Drop)]
pub(crate) struct Cursor {
    tokens: PpTokens,
    at: u32,
}

impl Model for Cursor {
    ghost use Rattle.std.specs.Prelude.{◌≤◌, length};
    ghost use Rattle.include_units.specs.Cursors.{Ahead, ahead};

    ghost Value = { Ahead };

    ghost view = { λ c. ahead c.at c.tokens };

    ghost invariant = { λ c. (c.at ≤ length c.tokens) × (length c.tokens ≤ 4290772992) };
}

impl Cursor {
    // All tokens of a text.
    pub(crate) fn at_first(tokens: PpTokens) -> Cursor
        requires { length tokens ≤ 4290772992 }
        ensures { result ≡ ahead 0 tokens }
    {
        Cursor { tokens, at: 0 }
    }

    // Takes the part in front; none where there is none.
    pub(crate) fn take_part(
        &mut self,
        alloc: Global,
        name: &Name,
    ) -> Result<Option<Part>, AllocError>
        ensures { IfOk result (λ part. parts_from name.now self.old.at self.old.tokens ≡ parts_after part (parts_from name.now self.new.at self.new.tokens)) }
    {
        let (_, rest) = self.tokens.as_slice().split_at(self.at as usize);
        match next_part(alloc, name, self.at, rest)? {
            Some(front) => {
                let Front {
                    part,
                    at,
                    behind: _,
                } = front;
                self.at = at;
                Ok(Some(part))
            }
            None => Ok(None),
        }
    }
}
