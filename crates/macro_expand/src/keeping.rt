// The output tokens of an expansion, of which no more than so many are kept.
ghost use Rattle.std.specs.Prelude.{◌≡◌, IfOk, OnOk};
ghost use Rattle.macro_expand.specs.Ties.Keeping as spec;

use crate::growing::Growing;
use crate::queue::Queue;
use crate::types::{Marked, MarkedList, Progress};
use std::alloc::{AllocError, Global};
use tok_data::{OutToken, TokId};

// The tokens that are kept, and the site of the first one that isn't.
#[derive(Drop)]
pub(crate) struct Kept {
    pub(crate) tokens: Growing<OutToken>,
    pub(crate) left_out: Option<TokId>,
}

// What was done, and what is kept of the tokens that came of it.
#[derive(Drop)]
pub(crate) struct Held {
    pub(crate) progress: Progress,
    pub(crate) kept: Kept,
}

impl Kept {
    // No token, with a place for so many.
    pub(crate) fn nothing(alloc: Global, capacity: usize) -> Result<Kept, AllocError>
        ensures { IfOk result (λ kept. kept ≡ spec.nothing_kept) }
    {
        let tokens = Growing::with_capacity(alloc, capacity)?;
        Ok(Kept {
            tokens,
            left_out: None,
        })
    }

    // A token behind those that are kept.
    #[tactic(auto, unfolding(crate::specs::Ties::Keeping::put))]
    pub(crate) fn put(&mut self, room: usize, token: OutToken) -> Result<(), AllocError>
        ensures { OnOk result (self.new ≡ spec.put room token self.old) }
    {
        if self.tokens.len() < room {
            return self.tokens.push(token);
        }
        if self.left_out.is_none() {
            let site = token.site.copy()?;
            self.left_out = Some(site);
        }
        Ok(())
    }

    // A copy of a token behind those that are kept; past the room nothing is copied.
    #[tactic(auto, unfolding(crate::specs::Ties::Keeping::put))]
    pub(crate) fn put_copy(&mut self, room: usize, token: &OutToken) -> Result<(), AllocError>
        ensures { OnOk result (self.new ≡ spec.put room token.now self.old) }
    {
        if self.tokens.len() < room {
            let copy = token.copy()?;
            return self.tokens.push(copy);
        }
        if self.left_out.is_none() {
            let site = token.site.copy()?;
            self.left_out = Some(site);
        }
        Ok(())
    }

    // Tokens behind those that are kept.
    pub(crate) fn keep(&mut self, room: usize, list: MarkedList) -> Result<(), AllocError>
        ensures { OnOk result (self.new ≡ spec.keep room (spec.bare list) self.old) }
    {
        let mut items = Queue::from_list(list).into_items();
        'tokens: while let Some(marked) = items.pop_front() {
            let Marked { token, hides: _ } = marked;
            self.put(room, token)?;
        }
        Ok(())
    }
}
