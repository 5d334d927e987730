// What is known of an initializer while it is read piece by piece (ISO C11 6.7.9).
use crate::stack::Stack;
use shared_text::Name;
use type_data::{CType, Judged, Value};

/// An object of which some parts may still be initialized.
#[derive(Drop)]
pub struct OpenPlace {
    pub ty: CType,
    /// The number of its next member or element.
    pub next: u128,
    /// Whether a brace opened it.
    pub braced: bool,
    /// Whether it was told of its list that it has too many initializers.
    pub overfull: bool,
}

/// Where an initializer stands.
#[derive(Drop)]
pub struct InitState {
    /// The type of the object that is initialized, as it is declared.
    pub ty: CType,
    /// The places that are open, the innermost on top; none before the first brace and behind the last.
    pub open_places: Stack<OpenPlace>,
    /// The number of the token in the item on which the next piece's fault is put.
    pub at: u32,
    /// Whether initializers must be constant, as those of objects with static storage duration are (6.7.9p4).
    pub constant: bool,
    /// Whether a designation has begun.
    pub designating: bool,
    /// The number of elements that the outermost array has got.
    pub reached: u128,
}

/// A piece of an initializer.
#[derive(Drop)]
pub enum InitPiece {
    Open,
    Close,
    /// `.` and a name.
    Field(Name),
    /// The value of the integer constant expression in a designator's brackets: `Unknown` where it isn't told, `Faulty` with 530 where
    /// it is no such expression, and with 0 where it has a fault, which was told.
    Index(Value),
    Item(Judged),
    /// A string literal that stands alone.
    Text(Judged),
}
