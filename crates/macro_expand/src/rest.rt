// Lists of tokens that are read and written at their fronts.
ghost use Rattle.std.specs.Prelude.{◌≡◌, [], ◌∷◌, ◌++◌, ◌<◌, ◌≤◌, ◌+◌, ℕ, List, length, take, drop, map as list_map, slice_get};
ghost use Rattle.std.specs.Prelude.{IfOk, OnOk, IfSome, IfNone, IsTrue, ◌↔◌, option_map, option_to_list};
ghost use Rattle.macro_table.specs.declared.definition.MacroDef.{MacroDef};
ghost use Rattle.macro_expand.specs.declared.arguments.Called.TheVariants.{Unclosed};
ghost use Rattle.macro_expand.specs.declared.types.Progress.{Progress};
ghost use Rattle.tok_data.specs.declared.sources.TokId.{TokId as Site};
ghost use Rattle.std.specs.FinMap as map;
ghost use Rattle.macro_expand.specs.Arguments.{called};
ghost use Rattle.macro_expand.specs.Expansion.{expansion};
ghost use Rattle.macro_expand.specs.Ties.Codes.{Names};
ghost use Rattle.macro_expand.specs.Ties.Numbers.{reals};
ghost use Rattle.macro_expand.specs.Ties.Keeping as keeping;
ghost use Rattle.macro_expand.specs.Ties.Looks.{seen};
ghost use Rattle.macro_expand.specs.Ties.Parens as spec;
ghost use Rattle.macro_expand.specs.Ties.Rests.{laid};
ghost use Rattle.macro_expand.specs.Tokens as tokens;

use crate::keeping::Kept;
use crate::look::Look;
use crate::parens::{Counting, Parens};
use crate::skimming::skim_plain;
use crate::tokens::is_mark;
use crate::types::{Marked, MarkedList};
use macro_table::MacroTable;
use std::alloc::{AllocError, Global};
use std::collections::VecDeque;
use std::marker::Model;
use tok_data::OutToken;

// What is left of a list: tokens that were put in front, and behind them tokens of which none was replaced, which are
// copied where they are read. It is read from the front and written there, and tells, once its parentheses are counted,
// whether a call that it begins with is open.
#[derive(Drop)]
pub(crate) struct Rest<'a> {
    front: VecDeque<Marked>,
    behind: &'a [OutToken],
    parens: Counting,
}

impl<'a> Model for Rest<'a> {
    ghost use Rattle.std.specs.Prelude.{List, ◌≡◌};
    ghost use Rattle.macro_expand.specs.declared.types.Marked.{Marked};
    ghost use Rattle.macro_expand.specs.Ties.Parens.{counted, parens as parens_of};
    ghost use Rattle.macro_expand.specs.Ties.Rests.{laid};

    ghost Value = { List Marked };

    ghost view = { λ r. laid r.front.items r.behind.now };

    ghost invariant = { λ r. counted r.parens (parens_of (laid r.front.items r.behind.now))
        ≡ parens_of (laid r.front.items r.behind.now) };
}

// The parentheses of a list, in front of others.
fn parens_before(list: &[Marked], parens: Parens) -> Result<Parens, AllocError>
    requires { parens.0 + length list.now < 18446744073709551615 }
    ensures value { IfOk result (λ p. p ≡ spec.all_before list.now parens) }
    ensures free { IfOk result (λ p. p.0 ≤ parens.0 + length list.now) }
{
    let mut parens = parens;
    let mut front = list;
    'tokens: while let Some((last, before)) = front.split_last() {
        let more = parens.before(&last.token)?;
        parens = more;
        front = before;
    }
    Ok(parens)
}

// The parentheses of tokens of which none was replaced.
fn parens_of(alloc: Global, list: &[OutToken]) -> Result<Parens, AllocError>
    ensures { IfOk result (λ p. p ≡ spec.parens (list_map tokens.plain list.now)) }
{
    let mut parens = Parens::new(alloc);
    let mut front = list;
    'tokens: while let Some((last, before)) = front.split_last() {
        let more = parens.before(last)?;
        parens = more;
        front = before;
    }
    Ok(parens)
}

// The parentheses of tokens that were put in front, and of those behind them.
fn parens_in(
    alloc: Global,
    front: &VecDeque<Marked>,
    behind: &[OutToken],
) -> Result<Parens, AllocError>
    ensures { IfOk result (λ p. p ≡ spec.parens (laid front.now.items behind.now)) }
{
    let (first, last) = front.as_slices();
    let counted = parens_of(alloc, behind)?;
    let more = parens_before(last, counted)?;
    let all = parens_before(first, more)?;
    Ok(all)
}

impl<'a> Rest<'a> {
    pub(crate) fn from_list(list: MarkedList) -> Rest<'a>
        ensures { result ≡ list }
    {
        Rest {
            front: VecDeque::from_vec(list.into_vec()),
            behind: &[],
            parens: Counting::none(),
        }
    }

    pub(crate) fn from_slice(alloc: Global, list: &'a [OutToken]) -> Rest<'a>
        ensures { result ≡ list_map tokens.plain list.now }
    {
        Rest {
            front: VecDeque::new(alloc),
            behind: list,
            parens: Counting::none(),
        }
    }

    // The same with its parentheses counted, which is done once.
    pub(crate) fn counted(self, alloc: Global) -> Result<Rest<'a>, AllocError>
        ensures { IfOk result (λ r. r ≡ self.entry) }
    {
        if self.parens.is_counted() {
            return Ok(self);
        }
        let Rest {
            front,
            behind,
            parens: _,
        } = self;
        let parens = parens_in(alloc, &front, behind)?;
        Ok(Rest {
            front,
            behind,
            parens: Counting::of(parens),
        })
    }

    // The token at a place.
    pub(crate) fn look(&self, at: usize) -> Option<Look<'_>>
        ensures value { option_map seen result ≡ slice_get self.now at }
        ensures within { IfSome result (λ _. at < 18446744073709551614) }
    {
        let count = self.front.len();
        if at < count {
            return match self.front.get(at) {
                Some(marked) => Some(Look::of(marked)),
                None => None,
            };
        }
        match self.behind.get(at - count) {
            Some(token) => Some(Look::plain(token)),
            None => None,
        }
    }

    pub(crate) fn is_empty(&self) -> bool
        ensures { IsTrue result ↔ (self.now ≡ []) }
    {
        if self.front.is_empty() {
            return self.behind.is_empty();
        }
        false
    }

    // A call that isn't closed stands in front; it isn't seen before parentheses are counted.
    pub(crate) fn is_open(&self) -> bool
        ensures { IsTrue result → (def : MacroDef) → called def self.now ≡ Unclosed }
    {
        let Some(first) = self.look(0) else {
            return false;
        };
        if is_mark("(", first.token) {
            return self.parens.is_first_open();
        }
        false
    }

    // The same in less memory, where most of it is unused: a list may wait while others are expanded.
    pub(crate) fn slim(self) -> Rest<'a>
        ensures { result ≡ self.entry }
    {
        let Rest {
            front,
            behind,
            parens,
        } = self;
        let mut front = front;
        if front.len() < front.capacity() / 4 {
            front.shrink_to(front.len() * 2);
        }
        Rest {
            front,
            behind,
            parens,
        }
    }

    // The first token, which leaves.
    pub(crate) fn pop_front(&mut self) -> Result<Option<Marked>, AllocError>
        ensures items { IfOk result (λ o. self.old ≡ option_to_list o ++ self.new) }
        ensures ended { IfOk result (λ o. IfNone o (self.new ≡ [])) }
    {
        if let Some(token) = self.front.pop_front() {
            self.parens.leave(&token.token);
            return Ok(Some(token));
        }
        let Some((first, behind)) = self.behind.split_first() else {
            return Ok(None);
        };
        let token = first.copy()?;
        self.behind = behind;
        self.parens.leave(first);
        Ok(Some(Marked::plain(token)))
    }

    // The first token leaves, where there is one.
    pub(crate) fn skip(&mut self)
        ensures { self.new ≡ drop 1 self.old }
    {
        if let Some(token) = self.front.pop_front() {
            self.parens.leave(&token.token);
            return;
        }
        if let Some((first, behind)) = self.behind.split_first() {
            self.behind = behind;
            self.parens.leave(first);
        }
    }

    // The first token, where there is one, leaves for what is kept.
    pub(crate) fn keep_first(&mut self, room: usize, kept: &mut Kept) -> Result<(), AllocError>
        ensures rest { OnOk result (self.new ≡ drop 1 self.old) }
        ensures kept { OnOk result (kept.new ≡ keeping.keep room (keeping.bare (take 1 self.old)) kept.old) }
    {
        if let Some(marked) = self.front.pop_front() {
            self.parens.leave(&marked.token);
            let Marked { token, hides: _ } = marked;
            return kept.put(room, token);
        }
        if let Some((first, behind)) = self.behind.split_first() {
            self.behind = behind;
            self.parens.leave(first);
            return kept.put_copy(room, first);
        }
        Ok(())
    }

    // The first tokens leave for what is kept, as far as they stay as they are and nothing was put in front of them.
    pub(crate) fn keep_plain(
        &mut self,
        table: &MacroTable,
        room: usize,
        stopped: bool,
        kept: &mut Kept,
    ) -> Result<(), AllocError>
        ensures value { OnOk result ((f : Names → Names) → f [] ≡ [] → (lines : List (Site × ℕ)) (p : Progress)
            → p.stopped ≡ stopped
            → keeping.held room kept.new (expansion (map.get table.now) lines p (reals f self.new))
            ≡ keeping.held room kept.old (expansion (map.get table.now) lines p (reals f self.old))) }
        ensures shorter { OnOk result (length self.new ≤ length self.old) }
    {
        if !self.front.is_empty() {
            return Ok(());
        }
        let count = skim_plain(table, room, stopped, self.behind, kept)?;
        let (gone, behind) = self.behind.split_at(count);
        self.behind = behind;
        self.parens.leave_all(gone);
        Ok(())
    }

    // With one token more at the front.
    pub(crate) fn before(self, token: Marked) -> Result<Rest<'a>, AllocError>
        ensures { IfOk result (λ r. r ≡ token ∷ self.entry) }
    {
        let Rest {
            front,
            behind,
            parens,
        } = self;
        let parens = parens.before(&token.token)?;
        let mut front = front;
        front.push_front(token)?;
        Ok(Rest {
            front,
            behind,
            parens,
        })
    }
}
