// What is written of a member, and of a declaration without a declarator.
use crate::naming::{Constant, NameToken};
use scope_tables::ScopeKind;
use type_data::{CType, Qual, TagKind, Value};

/// One declarator of a member declaration (ISO C11 6.7.2.1), or an anonymous structure or union, which has neither a name nor a width.
#[derive(Drop)]
pub struct FieldParts {
    pub name: Option<NameToken>,
    /// The number of the token on which its faults stand: that of its name; without one its first token, or the `:` of a width.
    pub at: u32,
    pub ty: CType,
    pub qual: Qual,
    /// The width, of a bit-field.
    pub width: Constant,
    /// What the alignment specifiers state, where there are any, and the number of the first one's token.
    pub align: Option<Value>,
    pub align_at: u32,
    /// Its type is a structure with a flexible array member, or a union that holds one at any depth (6.7.2.1p3).
    pub flexible: bool,
}

/// What a type specifier is, as far as a declaration without a declarator asks. A tag without a name has a body.
#[derive(Clone, Copy, Debug, PartialEq, Eq, Drop)]
pub enum Specified {
    /// `struct`, `union` or `enum`, and whether it has a name.
    Tag(TagKind, bool),
    Other,
}

/// A declaration without a declarator (ISO C11 6.7p2).
#[derive(Clone, Copy, Debug, Drop)]
pub struct BareParts {
    pub specified: Specified,
    /// A specifier has a fault, which was told.
    pub faulty: bool,
    pub scope: ScopeKind,
    /// The number of its first token.
    pub at: u32,
    /// That of `auto` or `register`.
    pub storage_at: Option<u32>,
    /// That of its first function specifier.
    pub function_at: Option<u32>,
}
