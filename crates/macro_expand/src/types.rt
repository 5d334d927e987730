// Tokens with their hide sets, what was done so far, and what expansion gives.
ghost use Rattle.std.specs.Prelude.{◌≡◌, [], ◌++◌, ◌∷◌, ◌<◌, IfOk, OnOk, IfNone, option_map};
ghost use Rattle.macro_expand.specs.Tokens as spec;
ghost use Rattle.macro_expand.specs.Progress as made;
ghost use Rattle.macro_expand.specs.Tokens.{last_of};

use crate::growing::Growing;
use crate::hide::HideSet;
use crate::queue::Queue;
use shared_text::Name;
use std::alloc::{AllocError, Global};
use std::marker::Model;
use tok_data::{
    MacroOcc, MacroOccs, MacroRole, OutToken, OutTokens, PpFault, PpFaults, Spelt, TokId, TokIds,
};

// A token with the names that it is hidden from.
#[derive(Drop)]
pub(crate) struct Marked {
    pub(crate) token: OutToken,
    pub(crate) hides: HideSet,
}

impl Marked {
    pub(crate) fn plain(token: OutToken) -> Marked
        ensures { result ≡ spec.plain token }
    {
        Marked {
            token,
            hides: HideSet::empty(),
        }
    }

    pub(crate) fn copy(&self) -> Result<Marked, AllocError>
        ensures { IfOk result (λ copy. copy ≡ self.now) }
    {
        let token = self.token.copy()?;
        Ok(Marked {
            token,
            hides: self.hides.copy(),
        })
    }

    // The same with this white space before it.
    pub(crate) fn spaced(self, space: bool) -> Marked
        ensures { result ≡ spec.spaced space self }
    {
        let Marked { token, hides } = self;
        let OutToken {
            kind,
            spelling,
            space_before: _,
            spelt,
            site,
        } = token;
        let token = OutToken {
            kind,
            spelling,
            space_before: space,
            spelt,
            site,
        };
        Marked { token, hides }
    }
}

#[derive(Drop)]
pub(crate) struct MarkedList {
    items: Vec<Marked>,
}

impl Model for MarkedList {
    ghost use Rattle.std.specs.Prelude.{List};
    ghost use Rattle.macro_expand.specs.declared.types.Marked.{Marked};

    ghost Value = { List Marked };

    ghost view = { λ l. l.items.items };
}

impl MarkedList {
    pub(crate) fn new(alloc: Global) -> MarkedList
        ensures { result ≡ [] }
    {
        MarkedList {
            items: Vec::new(alloc),
        }
    }

    pub(crate) fn from_vec(items: Vec<Marked>) -> MarkedList
        ensures { result ≡ items.items }
    {
        MarkedList { items }
    }

    pub(crate) fn as_slice(&self) -> &[Marked]
        ensures { result.now ≡ self.now }
    {
        self.items.as_slice()
    }

    pub(crate) fn into_vec(self) -> Vec<Marked>
        ensures { result.items ≡ self }
    {
        self.items
    }

    // The list of one token.
    pub(crate) fn one(alloc: Global, token: Marked) -> Result<MarkedList, AllocError>
        ensures { IfOk result (λ list. list ≡ token ∷ []) }
    {
        let mut items = Vec::with_capacity(alloc, 1)?;
        items.push(token)?;
        Ok(MarkedList { items })
    }

    pub(crate) fn push(&mut self, token: Marked) -> Result<(), AllocError>
        ensures { OnOk result (self.new ≡ self.old ++ token ∷ []) }
    {
        self.items.push(token)?;
        Ok(())
    }

    // Another list behind it.
    pub(crate) fn append(&mut self, more: Queue) -> Result<(), AllocError>
        ensures { OnOk result (self.new ≡ self.old ++ more) }
    {
        let mut items = more.into_items();
        'tokens: while let Some(token) = items.pop_front() {
            self.items.push(token)?;
        }
        Ok(())
    }

    // The last token, which leaves.
    pub(crate) fn pop(&mut self) -> Option<Marked>
        ensures last { last_of self.old ≡ option_map (λ t. (self.new, t)) result }
        ensures ended { IfNone result (self.new ≡ []) }
    {
        let Some(token) = self.items.pop() else {
            return None;
        };
        Some(token)
    }

    pub(crate) fn copy(&self, alloc: Global) -> Result<MarkedList, AllocError>
        ensures { IfOk result (λ copy. copy ≡ self.now) }
    {
        let mut items = Vec::new(alloc);
        for token in self.items.as_slice() {
            let copy = token.copy()?;
            items.push(copy)?;
        }
        Ok(MarkedList { items })
    }
}

// What was done so far: how many replacements may still be made, and what was noted of those that were.
#[derive(Drop)]
pub(crate) struct Progress {
    pub(crate) left: u32,
    // Nothing more is replaced.
    pub(crate) stopped: bool,
    pub(crate) faults: Growing<PpFault>,
    pub(crate) spelled: Growing<TokId>,
    pub(crate) macros: Growing<MacroOcc>,
    pub(crate) asked: Option<TokId>,
}

fn is_made(spelt: &Spelt) -> bool
    ensures { result ≡ made.is_made spelt.now }
{
    match spelt {
        Spelt::At(_) => false,
        Spelt::Made => true,
    }
}

fn place(token: &OutToken) -> Result<TokId, AllocError>
    ensures { IfOk result (λ tok. tok ≡ made.place_by token.now.site token.now.spelt) }
{
    match &token.spelt {
        Spelt::At(tok) => tok.copy(),
        Spelt::Made => token.site.copy(),
    }
}

fn occurrence(token: &Marked, def: Option<TokId>) -> Result<MacroOcc, AllocError>
    ensures { IfOk result (λ occ. occ ≡ made.occurrence token.now def) }
{
    let tok = place(&token.token)?;
    let name = token.token.spelling.share()?;
    Ok(MacroOcc {
        tok,
        name,
        role: MacroRole::Uses,
        def,
        made: is_made(&token.token.spelt),
    })
}

impl Progress {
    // A fault more.
    pub(crate) fn faulty(
        &mut self,
        alloc: Global,
        rule: u16,
        tok: &TokId,
        text: &str,
    ) -> Result<(), AllocError>
        ensures { OnOk result (self.new ≡ made.faulty rule tok.now text.now self.old) }
    {
        let tok = tok.copy()?;
        let text = Name::from_str(alloc, text)?;
        self.faults.push(PpFault { rule, tok, text })
    }

    // Source tokens that were spelled.
    pub(crate) fn noted(&mut self, toks: TokIds) -> Result<(), AllocError>
        ensures { OnOk result (self.new ≡ made.noted toks self.old) }
    {
        self.spelled.append(toks)
    }

    // A replacement more.
    pub(crate) fn counted(&mut self, token: &Marked, def: Option<TokId>) -> Result<(), AllocError>
        requires { 0 < self.old.left }
        ensures { OnOk result (self.new ≡ made.counted token.now def self.old) }
    {
        let occurrence = occurrence(token, def)?;
        self.macros.push(occurrence)?;
        self.left -= 1;
        Ok(())
    }

    // A line that isn't known.
    pub(crate) fn asking(&mut self, token: &Marked) -> Result<(), AllocError>
        ensures { OnOk result (self.new ≡ made.asking token.now self.old) }
    {
        let site = token.token.site.copy()?;
        self.stopped = true;
        self.asked = Some(site);
        Ok(())
    }

    // Too many replacements.
    pub(crate) fn refused(&mut self, alloc: Global, token: &Marked) -> Result<(), AllocError>
        ensures { OnOk result (self.new ≡ made.refused token.now self.old) }
    {
        self.faulty(alloc, 207, &token.token.site, "")?;
        self.stopped = true;
        Ok(())
    }
}

// What expansion of a list made of it.
#[derive(Drop)]
pub(crate) struct Outcome {
    pub(crate) progress: Progress,
    pub(crate) tokens: MarkedList,
}

/// What macro expansion gives. Where `asked` is some, the lists are empty.
#[derive(Debug, Drop)]
pub struct Expanded {
    pub tokens: OutTokens,
    /// The number of replacements.
    pub used: u32,
    pub faults: PpFaults,
    /// The source tokens of arguments that `#` spelled.
    pub spelled: TokIds,
    /// The identifiers that were replaced.
    pub macros: MacroOccs,
    /// The first site at which `__LINE__` was to be replaced and whose line isn't known.
    pub asked: Option<TokId>,
}

/// What macro expansion gives where no more than so many output tokens are wanted.
#[derive(Debug, Drop)]
pub struct Within {
    /// The expansion with the first of its tokens, which are all where there is room for them.
    pub expanded: Expanded,
    /// The site of the first token that is left out.
    pub left_out: Option<TokId>,
}
