// The values of integer constant expressions (ISO C11 6.6).

/// What is known of the value of an integer constant expression.
#[derive(Clone, Copy, Debug, PartialEq, Eq, Hash, Drop)]
pub enum Value {
    /// It is this number.
    Known(i128),
    /// It isn't told, as that of a floating constant that is converted.
    Unknown,
    /// It has none: the number of the rule that is broken.
    Faulty(u16),
}
