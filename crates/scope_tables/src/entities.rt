// Entities and their occurrences (ISO C11 6.2.1 to 6.2.4).
ghost use Rattle.std.specs.Prelude.{◌≡◌};
ghost use Rattle.scope_tables.specs.Scopes.{is_linked};

use shared_text::Name;
use tok_data::TokId;
use type_data::{CType, Qual, TagId, TagInfo, Value};

/// What a scope reaches over (ISO C11 6.2.1p2).
#[derive(Clone, Copy, Debug, PartialEq, Eq, Hash, Drop)]
pub enum ScopeKind {
    File,
    Function,
    Block,
    Prototype,
}

/// Which declarations of a name denote the same (ISO C11 6.2.2).
#[derive(Clone, Copy, Debug, PartialEq, Eq, Hash, Drop)]
pub enum Linkage {
    None,
    Internal,
    External,
}

/// The storage duration of an object (ISO C11 6.2.4).
#[derive(Clone, Copy, Debug, PartialEq, Eq, Hash, Drop)]
pub enum Life {
    Static,
    Thread,
    Automatic,
    /// Automatic, and declared `register` (6.7.1).
    Register,
    /// That of what is no object.
    Without,
}

/// What a token does to the entity that it denotes.
#[derive(Clone, Copy, Debug, PartialEq, Eq, Hash, Drop)]
pub enum Role {
    Defines,
    Declares,
    Uses,
    /// It was made by `##` (6.10.3.3).
    Pasted,
    /// It stands in a text that `#` spelled (6.10.3.2).
    Spelled,
}

/// By what the occurrences of an entity are told.
#[derive(Debug, PartialEq, Eq, Hash, Drop)]
pub enum Anchor {
    /// The name of what has external linkage.
    External(Name),
    /// The token of the first declaration in the unit.
    Local(TokId),
    /// The place at which that token was made, and its name.
    Made(TokId, Name),
    /// The name of a macro.
    Macro(Name),
}

/// An identifier token that denotes an entity.
#[derive(PartialEq, Eq, Drop)]
pub struct Occ {
    pub tok: TokId,
    pub anchor: Anchor,
    pub role: Role,
}

/// What a name denotes (ISO C11 6.2.1p1).
#[derive(PartialEq, Eq, Drop)]
pub enum EntityKind {
    Object,
    Function,
    Typedef,
    Tag(TagId, TagInfo),
    Enumerator,
    Member,
    Label,
}

/// What a name denotes, with all that is known of it.
#[derive(PartialEq, Eq, Drop)]
pub struct Entity {
    pub name: Name,
    pub kind: EntityKind,
    pub ty: CType,
    pub qual: Qual,
    pub linkage: Linkage,
    pub life: Life,
    /// The value of an enumerator.
    pub value: Option<Value>,
    pub anchor: Anchor,
}

impl Entity {
    /// Whether it has internal or external linkage (6.2.2).
    pub fn has_linkage(&self) -> bool
        ensures { result ≡ is_linked self.now.linkage }
    {
        match self.linkage {
            Linkage::None => false,
            Linkage::Internal => true,
            Linkage::External => true,
        }
    }
}
