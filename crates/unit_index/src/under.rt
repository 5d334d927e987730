// Which token an offset denotes.
ghost use Rattle.std.specs.Prelude.{◌≡◌, ◌≤◌, ◌<◌, ◌^◌, nat_le, true, false, length, IsTrue, ◌↔◌};
ghost use Rattle.std.specs.List.Sorted.{IsPartitionPoint};
ghost use Rattle.unit_index.specs.Under as spec;

use tok_data::{PpKind, PpToken};

fn is_identifier(kind: PpKind) -> bool
    ensures { result ≡ spec.is_identifier kind }
{
    match kind {
        PpKind::Ident => true,
        PpKind::Number => false,
        PpKind::Char => false,
        PpKind::Str => false,
        PpKind::Header => false,
        PpKind::Punct => false,
        PpKind::Stray => false,
    }
}

// How many tokens end at or before the offset, by halving.
fn count_before(places: &[(u32, u32)], offset: u32) -> usize
    requires { spec.AreApart 0 places.now }
    ensures within { result ≤ length places.now }
    ensures point { IsPartitionPoint (λ place. nat_le place.1 offset ≡ true) (λ place. nat_le place.1 offset ≡ false) places.now result }
{
    places.partition_point(|place| place.1 <= offset)
}

// The range of the token with this number, where it is an identifier.
fn identifier_at(tokens: &[PpToken], places: &[(u32, u32)], at: usize) -> Option<(u32, u32)>
    ensures { result ≡ spec.identifier_at tokens.now places.now at }
{
    let Some(token) = tokens.get(at) else {
        return None;
    };
    let Some(place) = places.get(at) else {
        return None;
    };
    if is_identifier(token.kind) {
        return Some(*place);
    }
    None
}

fn begins_by(place: Option<(u32, u32)>, offset: u32) -> bool
    ensures { result ≡ spec.passes (spec.begins offset) place }
{
    match place {
        Some(place) => place.0 <= offset,
        None => false,
    }
}

fn ends_at(place: Option<(u32, u32)>, offset: u32) -> bool
    ensures { result ≡ spec.passes (spec.ends offset) place }
{
    match place {
        Some(place) => place.1 == offset,
        None => false,
    }
}

/// The number of the identifier token that an offset of a text denotes, by the text's tokens and the range of each in bytes: that
/// whose range holds it, else that which ends at it (LSP 3.17, Position). Keywords and the names of directives are identifiers. It takes no
/// memory, and time logarithmic in the number of tokens.
pub fn token_under(tokens: &[PpToken], places: &[(u32, u32)], offset: u32) -> Option<u32>
    requires apart { spec.AreApart 0 places.now }
    requires few { length places.now < 2 ^ 32 }
    ensures { result ≡ spec.under tokens.now places.now offset }
{
    let behind = count_before(places, offset);
    if begins_by(identifier_at(tokens, places, behind), offset) {
        return Some(behind as u32);
    }
    if behind == 0 {
        return None;
    }
    let before = behind - 1;
    if ends_at(identifier_at(tokens, places, before), offset) {
        return Some(before as u32);
    }
    None
}

/// Whether ranges have something in them each and stand one behind the other.
pub fn are_apart(places: &[(u32, u32)]) -> bool
    ensures { IsTrue result ↔ spec.AreApart 0 places.now }
{
    let mut from = 0;
    let mut rest = places;
    'places: while let Some((place, behind)) = rest.split_first() {
        let (start, end) = *place;
        if start < from {
            return false;
        }
        if end <= start {
            return false;
        }
        from = end;
        rest = behind;
    }
    true
}
