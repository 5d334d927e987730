// Which occurrences of a unit have the same key.
ghost use Rattle.std.specs.Prelude.{◌≡◌, ◌+◌, Some, drop, map, option_map};
ghost use Rattle.std.specs.List.{slice_get};
ghost use Rattle.unit_index.specs.Chains as spec;
ghost use Rattle.unit_index.specs.Codes as coded;
ghost use Rattle.scope_tables.specs.Occurrences as occurs;
ghost use Rattle.unit_index.specs.Occurrences;
ghost use Rattle.unit_index.specs.Speaking;

use crate::codes::{anchor_code, token_code};
use crate::places::Places;
use scope_tables::{Anchor, Occ, Role, UnitEntity};
use tok_data::TokId;

/// What the key of an occurrence is.
#[derive(Clone, Copy, Drop)]
pub(crate) enum By {
    Token,
    Anchor,
}

/// Whether a token with this role denotes an entity.
pub(crate) fn counts(role: Role) -> bool
    ensures { result ≡ occurs.counts role }
{
    match role {
        Role::Defines => true,
        Role::Declares => true,
        Role::Uses => true,
        Role::Pasted => false,
        Role::Spelled => false,
    }
}

fn is_at(tok: &TokId, occ: &Occ) -> bool
    ensures { result ≡ occurs.is_at tok.now occ.now }
{
    counts(occ.role) && occ.tok == *tok
}

fn is_of(anchor: &Anchor, occ: &Occ) -> bool
    ensures { result ≡ Occurrences.is_of anchor.now occ.now }
{
    counts(occ.role) && occ.anchor == *anchor
}

fn is_named(anchor: &Anchor, entity: &UnitEntity) -> bool
    ensures { result ≡ Speaking.is_named anchor.now entity.now }
{
    *entity.anchor() == *anchor
}

/// The occurrence at a place.
pub(crate) fn occ_at(occs: &[Occ], place: usize) -> Option<&Occ>
    ensures { option_map (λ o. o.now) result ≡ slice_get occs.now place }
{
    occs.get(place)
}

/// The entity at a place.
pub(crate) fn entity_at(entities: &[UnitEntity], place: usize) -> Option<&UnitEntity>
    ensures { option_map (λ e. e.now) result ≡ slice_get entities.now place }
{
    entities.get(place)
}

// The first occurrence of a token, from a place of its number on.
fn seek_token(places: &Places, occs: &[Occ], tok: &TokId, from: Option<usize>) -> Option<usize>
    requires codes { places.now ≡ map coded.by_token occs.now }
    requires from { spec.HasCode (coded.token_code tok.now) places.now from }
    ensures { result ≡ spec.from_place (occurs.is_at tok.now) from occs.now }
{
    let mut at = from;
    'places: while let Some(place) = at {
        let Some(occ) = occ_at(occs, place) else {
            return None;
        };
        if is_at(tok, occ) {
            return at;
        }
        at = places.next(place);
    }
    None
}

// The first occurrence of what has an anchor, from a place of the anchor's number on.
fn seek_anchor(places: &Places, occs: &[Occ], anchor: &Anchor, from: Option<usize>) -> Option<usize>
    requires codes { places.now ≡ map coded.by_anchor occs.now }
    requires from { spec.HasCode (coded.anchor_code anchor.now) places.now from }
    ensures { result ≡ spec.from_place (Occurrences.is_of anchor.now) from occs.now }
{
    let mut at = from;
    'places: while let Some(place) = at {
        let Some(occ) = occ_at(occs, place) else {
            return None;
        };
        if is_of(anchor, occ) {
            return at;
        }
        at = places.next(place);
    }
    None
}

/// The place of the first occurrence of a token.
pub(crate) fn first_of_token(places: &Places, occs: &[Occ], tok: &TokId) -> Option<usize>
    requires { places.now ≡ map coded.by_token occs.now }
    ensures { result ≡ spec.first_from (occurs.is_at tok.now) 0 occs.now }
{
    seek_token(places, occs, tok, places.first(token_code(tok)))
}

/// The place of the first occurrence of what has an anchor.
pub(crate) fn first_of_anchor(places: &Places, occs: &[Occ], anchor: &Anchor) -> Option<usize>
    requires { places.now ≡ map coded.by_anchor occs.now }
    ensures { result ≡ spec.first_from (Occurrences.is_of anchor.now) 0 occs.now }
{
    seek_anchor(places, occs, anchor, places.first(anchor_code(anchor)))
}

/// The place of the next occurrence of the key that the one at a place has.
pub(crate) fn next_alike(
    by: By,
    places: &Places,
    occs: &[Occ],
    occ: &Occ,
    place: usize,
) -> Option<usize>
    requires codes { places.now ≡ map (spec.code_by by) occs.now }
    requires there { slice_get occs.now place ≡ Some occ.now }
    ensures { result ≡ spec.first_from (spec.alike by occ.now) (place + 1) (drop (place + 1) occs.now) }
{
    let next = places.next(place);
    match by {
        By::Token => seek_token(places, occs, &occ.tok, next),
        By::Anchor => seek_anchor(places, occs, &occ.anchor, next),
    }
}

// The first entity with an anchor, from a place of its number on.
fn seek_named(
    places: &Places,
    entities: &[UnitEntity],
    anchor: &Anchor,
    from: Option<usize>,
) -> Option<usize>
    requires codes { places.now ≡ map coded.by_name entities.now }
    requires from { spec.HasCode (coded.anchor_code anchor.now) places.now from }
    ensures { result ≡ spec.from_place (Speaking.is_named anchor.now) from entities.now }
{
    let mut at = from;
    'places: while let Some(place) = at {
        let Some(entity) = entity_at(entities, place) else {
            return None;
        };
        if is_named(anchor, entity) {
            return at;
        }
        at = places.next(place);
    }
    None
}

/// The place of the first entity with an anchor.
pub(crate) fn first_named(
    places: &Places,
    entities: &[UnitEntity],
    anchor: &Anchor,
) -> Option<usize>
    requires { places.now ≡ map coded.by_name entities.now }
    ensures { result ≡ spec.first_from (Speaking.is_named anchor.now) 0 entities.now }
{
    seek_named(places, entities, anchor, places.first(anchor_code(anchor)))
}
