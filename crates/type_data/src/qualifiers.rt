// What a type says beside the types that it is made of (ISO C11 6.2.5, 6.7.3, 6.7.6).

/// Type qualifiers (ISO C11 6.7.3).
#[derive(Clone, Copy, Debug, PartialEq, Eq, Hash, Drop)]
pub struct Qual {
    pub is_const: bool,
    pub is_restrict: bool,
    pub is_volatile: bool,
}

/// The number of elements of an array (ISO C11 6.7.6.2).
#[derive(Clone, Copy, Debug, PartialEq, Eq, Hash, Drop)]
pub enum Extent {
    /// It isn't stated: the array type is incomplete.
    None,
    Size(u64),
    /// It is stated by a value that isn't told.
    Unknown,
}

/// What a function type says of its parameters (ISO C11 6.7.6.3).
#[derive(Clone, Copy, Debug, PartialEq, Eq, Hash, Drop)]
pub enum Proto {
    /// Nothing: it was declared without a prototype.
    Old,
    /// The types of all of them.
    Fixed,
    /// The types of the first ones, with `...` behind them.
    Variadic,
}
