// Names that a head declares, and integer constant expressions, as rows take them.
use shared_text::Name;
use tok_data::TokId;
use type_data::{TagId, Value};

/// A name that a structure, a union or an enumeration declares, with its token.
#[derive(Drop)]
pub struct NameToken {
    pub name: Name,
    /// The token, by the item and its number there, on which faults stand.
    pub id: TagId,
    /// The token as occurrences have it.
    pub tok: TokId,
}

/// An integer constant expression (ISO C11 6.6p6) where one may stand.
#[derive(Clone, Copy, Debug, PartialEq, Eq, Drop)]
pub enum Constant {
    /// None stands there.
    Absent,
    Is(Value),
    /// It has a fault, which was told.
    Faulty,
}
