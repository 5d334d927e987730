// An item of a unit.
use type_data::ItemName;

/// An item of a unit (ISO C11 6.9): its name, and the numbers of its first output token and of the one behind its last.
#[derive(Debug, PartialEq, Eq, Hash, Drop)]
pub struct Item {
    pub name: ItemName,
    pub start: u32,
    pub end: u32,
}
