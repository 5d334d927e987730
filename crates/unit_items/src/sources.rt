// The tokens of items as tokens of texts.
ghost use Rattle.std.specs.Prelude.{◌≡◌, ℕ, List, Some, None, bytes_eq, option_map, if◌then◌else◌, IfOk, OnOk};
ghost use Rattle.std.specs.Option.{option_or};
ghost use Rattle.unit_items.specs.Maps.{start_at};
ghost use Rattle.unit_items.specs.Sources as spec;

use crate::items::Item;
use scope_tables::{Anchor, Occ, Role, item_file};
use std::alloc::{AllocError, Global};
use std::collections::HashMap;
use std::marker::Model;
use tok_data::{FileId, OutToken, Spelt, TokId};

/// The output tokens and the items of a unit. A token of an item is looked up at a constant cost.
#[derive(Drop)]
pub struct Sources<'a> {
    tokens: &'a [OutToken],
    items: &'a [Item],
    starts: HashMap<FileId, u32>,
}

impl<'a> Model for Sources<'a> {
    ghost use Rattle.std.specs.Prelude.{◌≡◌, ℕ, List};
    ghost use Rattle.unit_items.specs.Maps.{start_at};
    ghost use Rattle.unit_items.specs.Sources.{start_of};
    ghost use Rattle.unit_items.specs.Units.{Unit};

    ghost Value = { Unit };

    ghost view = { λ s. record { tokens = s.tokens.now; items = s.items.now } };

    ghost invariant = { λ s. (q : List ℕ) → start_at s.starts q ≡ start_of s.items.now q };
}

#[tactic(auto, unfolding(crate::specs::Maps::start_at))]
fn none(alloc: Global, capacity: usize) -> Result<HashMap<FileId, u32>, AllocError>
    ensures { IfOk result (λ starts. (q : List ℕ) → start_at starts q ≡ None) }
{
    HashMap::with_capacity(alloc, capacity)
}

// An item counts where its text has none before it.
#[tactic(auto, unfolding(crate::specs::Maps::start_at))]
fn put(starts: &mut HashMap<FileId, u32>, file: FileId, start: u32) -> Result<(), AllocError>
    ensures { OnOk result ((q : List ℕ) → start_at starts.new q ≡ option_or (start_at starts.old q) (if bytes_eq file q then Some start else None)) }
{
    starts.entry(file)?.or_insert(start);
    Ok(())
}

#[tactic(auto, unfolding(crate::specs::Sources::start_of))]
fn starts_of(alloc: Global, items: &[Item]) -> Result<HashMap<FileId, u32>, AllocError>
    ensures { IfOk result (λ starts. (q : List ℕ) → start_at starts q ≡ spec.start_of items.now q) }
{
    let mut starts = none(alloc, items.len())?;
    let mut rest = items;
    'turn: while let Some((item, behind)) = rest.split_first() {
        rest = behind;
        let file = item_file(alloc, &item.name)?;
        put(&mut starts, file, item.start)?;
    }
    Ok(starts)
}

#[tactic(auto, unfolding(crate::specs::Maps::start_at))]
fn start_in(starts: &HashMap<FileId, u32>, file: &FileId) -> Option<u32>
    ensures { result ≡ start_at starts.now file.now }
{
    starts.get(file).copied()
}

fn spelt_or(spelt: &Spelt, site: &TokId) -> Result<TokId, AllocError>
    ensures { IfOk result (λ tok. tok ≡ spec.spelt_or spelt.now site.now) }
{
    match spelt {
        Spelt::At(tok) => tok.copy(),
        Spelt::Made => site.copy(),
    }
}

fn source(token: Option<&OutToken>, tok: &TokId) -> Result<TokId, AllocError>
    ensures { IfOk result (λ r. r ≡ spec.source (option_map (λ t. t.now) token.entry) tok.now) }
{
    match token {
        Some(token) => spelt_or(&token.spelt, &token.site),
        None => tok.copy(),
    }
}

fn first_of(token: &OutToken) -> Result<Anchor, AllocError>
    ensures { IfOk result (λ anchor. anchor ≡ spec.first_of token.now.spelt token.now) }
{
    match &token.spelt {
        Spelt::At(tok) => {
            let tok = tok.copy()?;
            Ok(Anchor::Local(tok))
        }
        Spelt::Made => {
            let site = token.site.copy()?;
            let name = token.spelling.share()?;
            Ok(Anchor::Made(site, name))
        }
    }
}

fn local(token: Option<&OutToken>, tok: &TokId) -> Result<Anchor, AllocError>
    ensures { IfOk result (λ anchor. anchor ≡ spec.local (option_map (λ t. t.now) token.entry) tok.now) }
{
    match token {
        Some(token) => first_of(token),
        None => {
            let tok = tok.copy()?;
            Ok(Anchor::Local(tok))
        }
    }
}

fn role_of(token: Option<&OutToken>, role: Role) -> Role
    ensures { result ≡ spec.role_of (option_map (λ t. t.now) token.entry) role }
{
    let Some(token) = token else {
        return role;
    };
    match &token.spelt {
        Spelt::At(_) => role,
        Spelt::Made => Role::Pasted,
    }
}

impl<'a> Sources<'a> {
    /// A unit's output tokens and items.
    pub fn new(
        alloc: Global,
        tokens: &'a [OutToken],
        items: &'a [Item],
    ) -> Result<Sources<'a>, AllocError>
        ensures { IfOk result (λ sources. sources ≡ record { tokens = tokens.now; items = items.now }) }
    {
        let starts = starts_of(alloc, items)?;
        Ok(Sources {
            tokens,
            items,
            starts,
        })
    }

    /// The items.
    pub fn items(&self) -> &[Item]
        ensures { result.now ≡ self.now.items }
    {
        self.items
    }

    /// The output token that a token of an item is; None where the unit has no such item, or no token there.
    pub fn output(&self, tok: &TokId) -> Option<&OutToken>
        ensures { option_map (λ t. t.now) result ≡ spec.output self.now.tokens self.now.items tok.now }
    {
        let start = start_in(&self.starts, &tok.file)?;
        self.tokens.get(start as usize + tok.at as usize)
    }

    /// The token of a text that spells a token of an item, or the one on which it falls where it was made (6.10.3).
    pub fn source(&self, tok: &TokId) -> Result<TokId, AllocError>
        ensures { IfOk result (λ r. r ≡ spec.source (spec.output self.now.tokens self.now.items tok.now) tok.now) }
    {
        let token = self.output(tok);
        source(token, tok)
    }

    /// An anchor of an item as one of the unit: what has no external linkage is told by the token of a text that declares it
    /// first, or by where that one falls and its spelling where it was made.
    pub fn anchor(&self, anchor: &Anchor) -> Result<Anchor, AllocError>
        ensures { IfOk result (λ r. r ≡ spec.anchored self.now.tokens self.now.items anchor.now) }
    {
        match anchor {
            Anchor::Local(tok) => {
                let token = self.output(tok);
                local(token, tok)
            }
            other => other.share(),
        }
    }

    /// An occurrence in an item as one of the unit. That of a token that was made is the one on which it falls, with the role Pasted.
    pub fn occurrence(&self, occ: &Occ) -> Result<Occ, AllocError>
        ensures { IfOk result (λ r. r ≡ spec.occurrence self.now.tokens self.now.items occ.now) }
    {
        let token = self.output(&occ.tok);
        let tok = source(token, &occ.tok)?;
        let anchor = self.anchor(&occ.anchor)?;
        let role = role_of(token, occ.role);
        Ok(Occ { tok, anchor, role })
    }
}
