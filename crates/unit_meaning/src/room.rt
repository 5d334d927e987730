// Room for the lists of a unit, so that they needn't grow. No clause says how much: nothing depends on it.

use scope_tables::{BodyMeaning, HeadMeaning};

/// How many entities heads and bodies have together.
pub(crate) fn of_entities(heads: &[HeadMeaning], bodies: &[BodyMeaning]) -> usize {
    let in_heads = heads.iter().fold(0_usize, |size, head| {
        size.saturating_add(head.entities.as_slice().len())
    });
    bodies.iter().fold(in_heads, |size, body| {
        size.saturating_add(body.entities.as_slice().len())
    })
}

/// How many occurrences heads and bodies have together.
pub(crate) fn of_occs(heads: &[HeadMeaning], bodies: &[BodyMeaning]) -> usize {
    let in_heads = heads.iter().fold(0_usize, |size, head| {
        size.saturating_add(head.occs.as_slice().len())
    });
    bodies.iter().fold(in_heads, |size, body| {
        size.saturating_add(body.occs.as_slice().len())
    })
}

/// How many symbols heads have together.
pub(crate) fn of_symbols(heads: &[HeadMeaning]) -> usize {
    heads.iter().fold(0_usize, |size, head| {
        size.saturating_add(head.symbols.as_slice().len())
    })
}
