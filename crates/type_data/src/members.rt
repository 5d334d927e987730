// Members of structures, unions and enumerations (ISO C11 6.7.2.1, 6.7.2.2), and name spaces (6.2.3).
use crate::layouts::Layout;
use crate::names::TagId;
use crate::qualifiers::Qual;
use crate::shared::Members;
use crate::types::CType;
use crate::values::Value;
use shared_text::Name;

/// A member of a structure or union, or an enumerator.
#[derive(PartialEq, Eq, Drop)]
pub struct Member {
    pub name: Option<Name>,
    pub ty: CType,
    pub qual: Qual,
    /// The width in bits, of a bit-field.
    pub width: Option<u8>,
    /// The strictest alignment, in bytes, that its specifiers state; none where none states a known one above 0.
    pub align: Option<u64>,
    /// The value, of an enumerator.
    pub value: Option<Value>,
    /// The token of its name, by its item and its number there; none where it has no name.
    pub at: Option<TagId>,
}

/// What a tag names (ISO C11 6.2.3).
#[derive(Clone, Copy, Debug, PartialEq, Eq, Hash, Drop)]
pub enum TagKind {
    Struct,
    Union,
    Enum,
}

/// What is known of a tag.
#[derive(PartialEq, Eq, Drop)]
pub struct TagInfo {
    pub kind: TagKind,
    pub name: Option<Name>,
    /// The members, where it is complete.
    pub members: Option<Members>,
    pub layout: Option<Layout>,
}

/// A name space (ISO C11 6.2.3).
#[derive(Debug, PartialEq, Eq, Hash, Drop)]
pub enum Space {
    Labels,
    Tags,
    /// The members of a structure or union.
    Members(TagId),
    Ordinary,
}
