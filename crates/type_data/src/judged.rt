// What is known of an expression (ISO C11 6.3.2.1, 6.5, 6.6), and faults.
use crate::qualifiers::Qual;
use crate::types::CType;
use crate::values::Value;
use shared_list::Listing;
use shared_text::Name;

/// What an expression designates (ISO C11 6.3.2.1).
#[derive(Clone, Copy, Debug, PartialEq, Eq, Drop)]
pub enum Place {
    /// Nothing: it is a value.
    Value,
    Object,
    /// A bit-field of this width.
    BitField(u8),
    /// An object whose address isn't taken (6.7.1p6).
    Register,
    Function,
}

/// What kind of constant an expression is (ISO C11 6.6).
#[derive(Clone, Copy, Debug, PartialEq, Eq, Drop)]
pub enum Constancy {
    /// None.
    No,
    /// An integer constant expression, with its value (6.6p6).
    Int(Value),
    /// An arithmetic constant expression (6.6p8).
    Arith,
    /// An address constant (6.6p9).
    Addr,
    /// An integer constant expression with the value 0, cast to `void *` (6.3.2.3p3).
    Null,
}

/// An expression, as far as the operators over it ask.
#[derive(PartialEq, Eq, Drop)]
pub struct Judged {
    pub ty: CType,
    pub qual: Qual,
    pub place: Place,
    pub constant: Constancy,
}

/// A fault of a construct: the rule that it breaks, the number of its token in the item, and what its text prints.
#[derive(PartialEq, Eq, Drop)]
pub struct Fault {
    pub rule: u16,
    pub at: u32,
    pub names: Listing<Name>,
    pub types: Listing<CType>,
}

/// Why a construct has no meaning.
#[derive(Drop)]
pub enum CheckError {
    /// It breaks a rule.
    Broken(Fault),
    /// Memory was refused.
    NoMemory,
}
