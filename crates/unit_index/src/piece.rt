// Occurrences that units share, with an index.
ghost use Rattle.std.specs.Prelude.{◌≡◌, ℕ, List, map, option_map, IfOk};
ghost use Rattle.std.specs.List.{filter, find, list_any};
ghost use Rattle.unit_index.specs.Codes as coded;
ghost use Rattle.unit_index.specs.Files.{introduces_in};
ghost use Rattle.unit_index.specs.Groups.{same_file};
ghost use Rattle.scope_tables.specs.Occurrences.{is_at};
ghost use Rattle.unit_index.specs.Occurrences as spec;

use crate::chains::{By, first_of_anchor, first_of_token, occ_at};
use crate::codes::{anchor_codes, token_codes};
use crate::files::files_of;
use crate::places::Places;
use crate::walks::Walk;
use indexmap::IndexSet;
use scope_tables::{Anchor, Occ};
use std::alloc::{AllocError, Global};
use std::marker::Model;
use tok_data::{FileId, TokId};

/// Occurrences that stand one behind the other, of which each question on a token or an anchor is answered at a constant cost. Contracts see
/// the occurrences.
#[derive(Drop)]
pub(crate) struct Piece {
    occs: Vec<Occ>,
    // The places of occurrences by their tokens and by their anchors.
    tokens: Places,
    anchors: Places,
    // The texts in which they define or declare something.
    files: IndexSet<FileId>,
}

impl Model for Piece {
    ghost use Rattle.std.specs.Prelude.{List};
    ghost use Rattle.scope_tables.specs.declared.entities.Occ.{Occ};
    ghost use Rattle.unit_index.specs.Files.{has_file};
    ghost use Rattle.unit_index.specs.Pieces.{IsPiece};

    ghost Value = { List Occ };

    ghost view = { λ p. p.occs.items };

    ghost invariant = { λ p. IsPiece p.occs.items p.tokens p.anchors (has_file p.files) };
}

fn token_places(alloc: Global, occs: &[Occ]) -> Result<Places, AllocError>
    ensures { IfOk result (λ p. p ≡ map coded.by_token occs.now) }
{
    let codes = token_codes(alloc, occs)?;
    let places = Places::of(alloc, codes)?;
    Ok(places)
}

fn anchor_places(alloc: Global, occs: &[Occ]) -> Result<Places, AllocError>
    ensures { IfOk result (λ p. p ≡ map coded.by_anchor occs.now) }
{
    let codes = anchor_codes(alloc, occs)?;
    let places = Places::of(alloc, codes)?;
    Ok(places)
}

impl Piece {
    /// These occurrences. Its cost is linear in their number. It fails for want of memory alone.
    pub(crate) fn of(alloc: Global, occs: Vec<Occ>) -> Result<Piece, AllocError>
        ensures { IfOk result (λ p. p ≡ occs.items) }
    {
        let Ok(tokens) = token_places(alloc, &occs) else {
            drop(occs);
            return Err(AllocError);
        };
        let Ok(anchors) = anchor_places(alloc, &occs) else {
            drop(occs);
            return Err(AllocError);
        };
        let Ok(files) = files_of(alloc, &occs) else {
            drop(occs);
            return Err(AllocError);
        };
        Ok(Piece {
            occs,
            tokens,
            anchors,
            files,
        })
    }

    /// All of them, in order.
    pub(crate) fn occs(&self) -> &[Occ]
        ensures { result.now ≡ self.now }
    {
        &self.occs
    }

    /// The occurrences of a token that denote an entity, in order.
    pub(crate) fn at(&self, tok: &TokId) -> Walk<'_>
        ensures { result ≡ filter (is_at tok.now) self.now }
    {
        let occs = self.occs();
        Walk::new(
            By::Token,
            occs,
            &self.tokens,
            first_of_token(&self.tokens, occs, tok),
        )
    }

    /// The occurrences of the entity with this anchor, in order.
    pub(crate) fn of_anchor(&self, anchor: &Anchor) -> Walk<'_>
        ensures { result ≡ filter (spec.is_of anchor.now) self.now }
    {
        let occs = self.occs();
        Walk::new(
            By::Anchor,
            occs,
            &self.anchors,
            first_of_anchor(&self.anchors, occs, anchor),
        )
    }

    /// The first occurrence of a token that denotes an entity.
    pub(crate) fn first(&self, tok: &TokId) -> Option<&Occ>
        ensures { option_map (λ o. o.now) result ≡ find (is_at tok.now) self.now }
    {
        let occs = self.occs();
        match first_of_token(&self.tokens, occs, tok) {
            Some(place) => occ_at(occs, place),
            None => None,
        }
    }

    /// The texts in which they define or declare something, each once.
    pub(crate) fn files(&self) -> &[FileId]
        ensures { (f : List ℕ) → list_any (same_file f) result.now ≡ list_any (introduces_in f) self.now }
    {
        self.files.as_slice()
    }
}
