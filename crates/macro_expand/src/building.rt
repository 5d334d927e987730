// The substitution of arguments into a replacement list (ISO C11 6.10.3.1 to 6.10.3.3), but for their expansion.
ghost use Rattle.std.specs.Prelude.{◌≡◌, [], ◌∷◌, OnOk};
ghost use Rattle.macro_expand.specs.Ties.Codes.{Names};
ghost use Rattle.macro_expand.specs.Ties.Stands.{Stands, Grows};
ghost use Rattle.macro_expand.specs.Ties.Numbers.{real, reals, real_operand, real_building};
ghost use Rattle.macro_expand.specs.Ties.Building as spec;
ghost use Rattle.macro_expand.specs.Tokens.{last_of, first_spaced};

use crate::glue::pasted;
use crate::operands::Operand;
use crate::queue::Queue;
use crate::sets::Sets;
use crate::types::{Marked, MarkedList, Progress};
use std::alloc::{AllocError, Global};
use tok_data::{TokId, TokIds};

// What was made of the front of a replacement list.
#[derive(Drop)]
pub(crate) struct Building {
    pub(crate) progress: Progress,
    pub(crate) tokens: MarkedList,
    // White space that nothing took.
    pub(crate) space: bool,
    // The last operand had no tokens.
    pub(crate) empty: bool,
    // No operand was read.
    pub(crate) first: bool,
}

// The same with what one more part of the list made, and how many tokens that has besides its first.
#[derive(Drop)]
pub(crate) struct Part {
    pub(crate) built: Building,
    pub(crate) more: usize,
}

impl Building {
    pub(crate) fn begun(alloc: Global, progress: Progress, space: bool) -> Building
        ensures { result ≡ spec.begun progress space }
    {
        Building {
            progress,
            tokens: MarkedList::new(alloc),
            space,
            empty: true,
            first: true,
        }
    }

    // The white space before an operand.
    pub(crate) fn space_of(&self, space: bool) -> bool
        ensures { result ≡ spec.space_of self.now space }
    {
        if self.space {
            return true;
        }
        space && !self.first
    }

    // The tokens of an operand at the end.
    pub(crate) fn puts(&mut self, space: bool, more: MarkedList) -> Result<(), AllocError>
        ensures value { OnOk result (self.new ≡ spec.puts space more self.old) }
        ensures same { OnOk result (self.new.progress.left ≡ self.old.progress.left) }
    {
        let mut items = Queue::from_list(more).into_items();
        self.first = false;
        let Some(token) = items.pop_front() else {
            self.space = space;
            self.empty = true;
            return Ok(());
        };
        self.tokens.push(token.spaced(space))?;
        self.tokens.append(Queue::from_items(items))?;
        self.space = false;
        self.empty = false;
        Ok(())
    }

    // One token at the end.
    pub(crate) fn puts_token(&mut self, space: bool, token: Marked) -> Result<(), AllocError>
        ensures value { OnOk result (self.new ≡ spec.puts space (token ∷ []) self.old) }
        ensures same { OnOk result (self.new.progress.left ≡ self.old.progress.left) }
    {
        self.tokens.push(token.spaced(space))?;
        self.space = false;
        self.empty = false;
        self.first = false;
        Ok(())
    }

    pub(crate) fn notes(&mut self, toks: TokIds) -> Result<(), AllocError>
        ensures { OnOk result (self.new ≡ spec.with_noted toks self.old) }
    {
        self.progress.noted(toks)
    }

    fn glues(
        &mut self,
        alloc: Global,
        sets: &mut Sets,
        site: &TokId,
        space: bool,
        more: MarkedList,
    ) -> Result<(), AllocError>
        ensures grows { OnOk result (Grows sets.old sets.new) }
        ensures value { OnOk result ((f : Names → Names) → Stands f sets.new
            → real_building f self.new
            ≡ spec.glued site.now (first_spaced space (reals f more)) (real_building f self.old)) }
    {
        let mut items = Queue::from_list(more).into_items();
        let Some(right) = items.pop_front() else {
            return Ok(());
        };
        let right = right.spaced(space);
        self.pastes_to(alloc, sets, site, right, Queue::from_items(items))
    }

    // The last token with the next one, and what stands behind that.
    fn pastes_to(
        &mut self,
        alloc: Global,
        sets: &mut Sets,
        site: &TokId,
        right: Marked,
        behind: Queue,
    ) -> Result<(), AllocError>
        ensures grows { OnOk result (Grows sets.old sets.new) }
        ensures value { OnOk result ((f : Names → Names) → Stands f sets.new
            → real_building f self.new
            ≡ spec.pasted_to site.now (real f right) (reals f behind) (last_of (reals f self.old.tokens))
            (real_building f self.old)) }
    {
        let Some(left) = self.tokens.pop() else {
            self.tokens.push(right)?;
            self.tokens.append(behind)?;
            return Ok(());
        };
        let pasted = pasted(alloc, sets, &left, &right)?;
        match pasted {
            Some(token) => {
                self.tokens.push(token)?;
                self.tokens.append(behind)?;
                Ok(())
            }
            None => {
                self.tokens.push(left)?;
                self.tokens.push(right)?;
                self.tokens.append(behind)?;
                self.progress.faulty(alloc, 206, site, "")?;
                Ok(())
            }
        }
    }

    // The right operand of `##`.
    #[tactic(auto, unfolding(crate::specs::Ties::Building::joins))]
    fn joins(
        &mut self,
        alloc: Global,
        sets: &mut Sets,
        site: &TokId,
        space: bool,
        more: MarkedList,
    ) -> Result<(), AllocError>
        ensures grows { OnOk result (Grows sets.old sets.new) }
        ensures value { OnOk result ((f : Names → Names) → Stands f sets.new
            → real_building f self.new
            ≡ spec.joins site.now (first_spaced space (reals f more)) (real_building f self.old)) }
    {
        if self.empty {
            let before = self.space;
            return self.puts(before, more);
        }
        self.glues(alloc, sets, site, space, more)
    }

    pub(crate) fn joins_operand(
        &mut self,
        alloc: Global,
        sets: &mut Sets,
        site: &TokId,
        operand: Operand,
    ) -> Result<(), AllocError>
        ensures grows { OnOk result (Grows sets.old sets.new) }
        ensures value { OnOk result ((f : Names → Names) → Stands f sets.new
            → real_building f self.new
            ≡ spec.joins_operand site.now (real_building f self.old) (real_operand f operand)) }
    {
        let Operand {
            given: _,
            tokens,
            spelled,
            space,
            more: _,
        } = operand;
        self.notes(spelled)?;
        self.joins(alloc, sets, site, space, tokens)
    }
}
