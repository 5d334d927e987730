// What a judgement reads, and doesn't change.
use crate::known::Known;
use scope_tables::Scopes;
use tok_data::{FileId, OutToken};
use type_data::ItemName;

/// What a judgement of a part of an item reads: the item, the text that its tokens are named by, the tokens that trees number, the scopes
/// round what is judged, and what is known of the names in front of the item. Trees number these tokens from 0 on, and the first of them
/// is the token `base` of the item.
#[derive(Clone, Copy, Drop)]
pub struct Around<'a> {
    pub item: &'a ItemName,
    pub file: &'a FileId,
    pub tokens: &'a [OutToken],
    pub base: u32,
    pub outer: &'a Scopes,
    pub known: &'a Known,
}

/// Where an expression or a declarator stands.
#[derive(Clone, Copy, Debug, PartialEq, Eq, Drop)]
pub struct Where {
    /// Its names count as uses of what has internal linkage (ISO C11 6.9p3): it is no operand of `sizeof` or `_Alignof`.
    pub counted: bool,
    /// It is the declarator of a function definition (6.9.1), and no parameter list stands round the place.
    pub defining: bool,
}
