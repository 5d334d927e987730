// The entities that a token denotes, and the tokens that mention them, over all units.
ghost use Rattle.std.specs.Prelude.{◌≡◌, ◌||◌, ◌&&◌, Bool, List, map, IfOk, OnOk};
ghost use Rattle.std.specs.List.{filter, list_any};
ghost use Rattle.scope_tables.specs.declared.entities.Anchor.{Anchor as AnyAnchor};
ghost use Rattle.tok_data.specs.declared.sources.TokId.{TokId as Token};
ghost use Rattle.scope_tables.specs.Occurrences.{is_at, same_tok};
ghost use Rattle.unit_index.specs.Occurrences as spec;
ghost use Rattle.unit_index.specs.Sets as sets;
ghost use Rattle.unit_index.specs.Shared as found;
ghost use Rattle.unit_index.specs.Tokens.{in_order};

use crate::piece::Piece;
use crate::sets::{add_anchor, add_token, no_anchors, no_tokens};
use crate::unit::IndexedUnit;
use crate::walks::Walk;
use indexmap::IndexSet;
use scope_tables::{Anchor, Occ, Role};
use std::alloc::{AllocError, Global};
use std::collections::BTreeSet;
use tok_data::TokId;

/// Which occurrences are asked for.
#[derive(Clone, Copy, Drop)]
pub(crate) enum Asked {
    All,
    Defining,
    Declaring,
}

fn is_asked(asked: Asked, role: Role) -> bool
    ensures { result ≡ found.is_asked asked role }
{
    match asked {
        Asked::All => true,
        Asked::Defining => match role {
            Role::Defines => true,
            Role::Declares => false,
            Role::Uses => false,
            Role::Pasted => false,
            Role::Spelled => false,
        },
        Asked::Declaring => match role {
            Role::Declares => true,
            Role::Defines => false,
            Role::Uses => false,
            Role::Pasted => false,
            Role::Spelled => false,
        },
    }
}

fn add_anchors_in(
    anchors: &mut IndexSet<Anchor>,
    piece: &Piece,
    tok: &TokId,
) -> Result<(), AllocError>
    ensures { OnOk result ((q : AnyAnchor) → sets.has_anchor anchors.new q ≡ sets.has_anchor anchors.old q || list_any (found.is_under q) (filter (is_at tok.now) piece.now)) }
{
    let mut walk = piece.at(tok);
    'occs: while let Some(occ) = walk.step() {
        add_anchor(anchors, &occ.anchor)?;
    }
    Ok(())
}

fn add_anchors(
    anchors: &mut IndexSet<Anchor>,
    unit: &IndexedUnit,
    tok: &TokId,
) -> Result<(), AllocError>
    ensures { OnOk result ((q : AnyAnchor) → sets.has_anchor anchors.new q ≡ sets.has_anchor anchors.old q || list_any (found.is_under q) (filter (is_at tok.now) (spec.occs_of unit.now))) }
{
    let mut rest = unit.pieces();
    'pieces: while let Some((piece, behind)) = rest.split_first() {
        rest = behind;
        add_anchors_in(anchors, piece, tok)?;
    }
    Ok(())
}

/// The anchors of the entities that a token denotes, each once.
pub(crate) fn anchors_of(
    alloc: Global,
    units: &[IndexedUnit],
    tok: &TokId,
) -> Result<IndexSet<Anchor>, AllocError>
    ensures { IfOk result (λ anchors. (q : AnyAnchor) → sets.has_anchor anchors q ≡ list_any (λ u. list_any (found.is_under q) (filter (is_at tok.now) (spec.occs_of u))) units.now) }
{
    let mut anchors = no_anchors(alloc);
    let mut rest = units;
    'units: while let Some((unit, behind)) = rest.split_first() {
        add_anchors(&mut anchors, unit, tok)?;
        rest = behind;
    }
    Ok(anchors)
}

fn add_asked(tokens: &mut BTreeSet<TokId>, asked: Asked, occ: &Occ) -> Result<(), AllocError>
    ensures { OnOk result ((q : Token) → sets.has_tok tokens.new q ≡ sets.has_tok tokens.old q || found.gives asked q occ.now) }
{
    if !is_asked(asked, occ.role) {
        return Ok(());
    }
    add_token(tokens, &occ.tok)
}

fn add_mentions_in(
    tokens: &mut BTreeSet<TokId>,
    asked: Asked,
    piece: &Piece,
    anchor: &Anchor,
) -> Result<(), AllocError>
    ensures { OnOk result ((q : Token) → sets.has_tok tokens.new q ≡ sets.has_tok tokens.old q || list_any (found.gives asked q) (filter (spec.is_of anchor.now) piece.now)) }
{
    let mut walk = piece.of_anchor(anchor);
    'occs: while let Some(occ) = walk.step() {
        add_asked(tokens, asked, occ)?;
    }
    Ok(())
}

fn add_mentions(
    tokens: &mut BTreeSet<TokId>,
    asked: Asked,
    unit: &IndexedUnit,
    anchor: &Anchor,
) -> Result<(), AllocError>
    ensures { OnOk result ((q : Token) → sets.has_tok tokens.new q ≡ sets.has_tok tokens.old q || list_any (found.gives asked q) (filter (spec.is_of anchor.now) (spec.occs_of unit.now))) }
{
    let mut rest = unit.pieces();
    'pieces: while let Some((piece, behind)) = rest.split_first() {
        rest = behind;
        add_mentions_in(tokens, asked, piece, anchor)?;
    }
    Ok(())
}

fn add_unit(
    tokens: &mut BTreeSet<TokId>,
    asked: Asked,
    unit: &IndexedUnit,
    anchors: &[Anchor],
) -> Result<(), AllocError>
    ensures { OnOk result ((q : Token) → sets.has_tok tokens.new q ≡ sets.has_tok tokens.old q || list_any (λ a. list_any (found.gives asked q) (filter (spec.is_of a) (spec.occs_of unit.now))) anchors.now) }
{
    let mut rest = anchors;
    'anchors: while let Some((anchor, behind)) = rest.split_first() {
        add_mentions(tokens, asked, unit, anchor)?;
        rest = behind;
    }
    Ok(())
}

fn mentions(
    alloc: Global,
    asked: Asked,
    units: &[IndexedUnit],
    anchors: &[Anchor],
) -> Result<BTreeSet<TokId>, AllocError>
    ensures { IfOk result (λ tokens. (q : Token) → sets.has_tok tokens q ≡ list_any (λ u. list_any (λ a. list_any (found.gives asked q) (filter (spec.is_of a) (spec.occs_of u))) anchors.now) units.now) }
{
    let mut tokens = no_tokens(alloc);
    let mut rest = units;
    'units: while let Some((unit, behind)) = rest.split_first() {
        add_unit(&mut tokens, asked, unit, anchors)?;
        rest = behind;
    }
    Ok(tokens)
}

/// The tokens of a set, ascending.
pub(crate) fn listed(alloc: Global, tokens: BTreeSet<TokId>) -> Result<Vec<TokId>, AllocError>
    ensures { IfOk result (λ list. (ts : List Token) → ((q : Token) → sets.has_tok tokens q ≡ list_any (λ t. same_tok t q) ts) → list.items ≡ in_order ts) }
{
    let mut list = Vec::with_capacity(alloc, tokens.len())?;
    let mut rest = tokens;
    'tokens: while let Some(tok) = rest.pop_first() {
        list.push(tok)?;
    }
    Ok(list)
}

/// The tokens of the occurrences that are asked for, in all units, of what a token denotes, whose anchors are given. They
/// ascend, each once.
pub(crate) fn tokens_of(
    alloc: Global,
    asked: Asked,
    units: &[IndexedUnit],
    tok: &TokId,
    anchors: &IndexSet<Anchor>,
) -> Result<Vec<TokId>, AllocError>
    requires { (q : AnyAnchor) → sets.has_anchor anchors.now q ≡ list_any (λ u. list_any (found.is_under q) (filter (is_at tok.now) (spec.occs_of u))) units.now }
    ensures { IfOk result (λ tokens. tokens.items ≡ found.tokens_of asked units.now tok.now) }
{
    let tokens = mentions(alloc, asked, units, anchors.as_slice())?;
    let list = listed(alloc, tokens)?;
    Ok(list)
}
