// What a unit means, for the questions that go over all units (ISO C11 5.1.1.1, 6.2.1, 6.2.2).
use crate::entities::Occ;
use crate::shared::UnitEntity;
use shared_list::Listing;
use shared_text::Name;
use tok_data::{ShownFault, TokId};
use type_data::{CType, Tags};

/// What kind of name a declaration at file scope declares, as an editor lists it.
#[derive(Clone, Copy, Debug, PartialEq, Eq, Hash, Drop)]
pub enum SymbolKind {
    Object,
    Function,
    /// An enumerated type's tag.
    Enumeration,
    Enumerator,
    /// The tag of a structure or union, or a typedef name.
    Structure,
}

/// A token that defines or declares a name at file scope (6.2.1p4). Tags and enumerators inside a structure, a cast or `sizeof`
/// there do; members, labels, parameters, tags in a list of parameters and what a block declares don't.
#[derive(Debug, PartialEq, Eq, Hash, Drop)]
pub struct Symbol {
    pub tok: TokId,
    /// The token's spelling.
    pub name: Name,
    /// That of what the token declares there.
    pub kind: SymbolKind,
}

/// A name with external linkage that a unit declares (6.2.2).
#[derive(PartialEq, Eq, Drop)]
pub struct Export {
    pub name: Name,
    /// Its type at the unit's end, without its own qualifiers. An array of unknown size that the unit defines tentatively has one
    /// element (6.9.2p2).
    pub ty: CType,
    /// The token on which a fault of its first declaration falls.
    pub first: TokId,
    /// That of its first definition that isn't tentative, else of its first tentative one; none where it isn't defined. An
    /// inline definition isn't external (6.7.4p7).
    pub defined: Option<TokId>,
}

/// What a unit shows to the others. Each name is there once.
#[derive(Drop)]
pub struct Exports {
    pub names: Listing<Export>,
    /// What is known of the unit's tags at its end, those of all scopes.
    pub tags: Tags,
}

/// What a unit means. Each list is in the order of first output tokens.
#[derive(Drop)]
pub struct UnitMeaning {
    pub faults: Listing<ShownFault>,
    /// The tokens that denote an entity. Behind them stand those with the role Spelled.
    pub occs: Listing<Occ>,
    /// One for each anchor that the unit declares, as its last declaration leaves it.
    pub entities: Listing<UnitEntity>,
    pub symbols: Listing<Symbol>,
    pub exports: Exports,
}
