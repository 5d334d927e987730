// What the head and the body of an item mean, as far as a unit needs it (ISO C11 6.7, 6.9).
use crate::bindings::Binding;
use crate::entities::Occ;
use crate::shared::Entities;
use crate::units::SymbolKind;
use shared_list::Listing;
use shared_text::Name;
use type_data::{Fault, ItemName};

/// What a declaration at file scope does to the object or function that it names (6.9.1, 6.9.2).
#[derive(Clone, Copy, Debug, PartialEq, Eq, Hash, Drop)]
pub enum How {
    Defines,
    /// It is a tentative definition (6.9.2p2).
    Tentative,
    /// It would define, but has a fault.
    Refused,
    Declares,
}

/// A name that an item states at file scope as that of an object or function.
#[derive(Debug, PartialEq, Eq, Drop)]
pub struct Stated {
    pub name: Name,
    /// The number of the name's token in the item.
    pub at: u32,
    pub how: How,
}

/// A token of a head that defines or declares a name at file scope (6.2.1p4).
#[derive(Debug, PartialEq, Eq, Drop)]
pub struct HeadSymbol {
    /// The token's number in the item.
    pub at: u32,
    /// The kind of what it declares there.
    pub kind: SymbolKind,
}

/// What a head means. Each list is in the order of first tokens.
#[derive(Drop)]
pub struct HeadMeaning {
    pub item: ItemName,
    /// What it declares at file scope.
    pub declared: Listing<Binding>,
    /// What the parameter list of a function definition declares.
    pub params: Listing<Binding>,
    /// Each entity that it declares, in every scope, as it stands at its end.
    pub entities: Entities,
    pub occs: Listing<Occ>,
    pub faults: Listing<Fault>,
    /// The objects and functions at file scope that it defines, tentative definitions left out.
    pub defines: Listing<Name>,
    /// The names at file scope with internal linkage that it uses outside an operand of `sizeof` or `_Alignof`.
    pub used: Listing<Name>,
    /// The objects and functions at file scope that it names, a declarator after the other.
    pub stated: Listing<Stated>,
    /// Its tokens that define or declare a name at file scope.
    pub symbols: Listing<HeadSymbol>,
    /// Its specifiers have `inline`, and no `extern` (6.7.4p7).
    pub inline: bool,
}

/// What a body means. Each list is in the order of first tokens.
#[derive(Drop)]
pub struct BodyMeaning {
    pub item: ItemName,
    /// Each entity that it declares, in every scope, as it stands at its end.
    pub entities: Entities,
    pub occs: Listing<Occ>,
    pub faults: Listing<Fault>,
    /// The names at file scope with internal linkage that it uses outside an operand of `sizeof` or `_Alignof`.
    pub used: Listing<Name>,
}
