// The arithmetic types (ISO C11 6.2.5p18) but for the enumerated ones.

/// A basic type.
#[derive(Clone, Copy, Debug, PartialEq, Eq, Hash, Drop)]
pub enum Basic {
    Bool,
    Char,
    SChar,
    UChar,
    Short,
    UShort,
    Int,
    UInt,
    Long,
    ULong,
    LongLong,
    ULongLong,
    Float,
    Double,
    LongDouble,
}
