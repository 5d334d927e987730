// A unit, and what its items mean.
use scope_tables::{BodyMeaning, HeadMeaning};
use tok_data::{FileId, TokId};
use unit_items::{Item, Sources};

/// A unit with the library texts that were reached, and what its items mean.
#[derive(Clone, Copy, Drop)]
pub(crate) struct Elaborated<'a> {
    pub(crate) sources: &'a Sources<'a>,
    pub(crate) reached: &'a [(FileId, TokId)],
    pub(crate) heads: &'a [HeadMeaning],
    pub(crate) bodies: &'a [BodyMeaning],
}
