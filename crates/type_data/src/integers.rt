// The integer types (ISO C11 6.2.5) and their ranges (5.2.4.2.1).
ghost use Rattle.std.specs.Prelude.{◌≡◌, ◌≤◌};
ghost use Rattle.type_data.specs.Ranges;

/// A standard integer type.
#[derive(Clone, Copy, Debug, PartialEq, Eq, Hash, Drop)]
pub enum IntTy {
    Bool,
    Char,
    SChar,
    UChar,
    Short,
    UShort,
    Int,
    UInt,
    Long,
    ULong,
    LongLong,
    ULongLong,
}

impl IntTy {
    /// The number of bits of a value, from 1 to 64, that of the sign among them (ISO C11 6.2.6.2p6).
    pub fn width(self) -> u32
        ensures value { result ≡ Ranges.width self }
        ensures some { 1 ≤ result }
        ensures most { result ≤ 64 }
    {
        match self {
            IntTy::Bool => 1,
            IntTy::Char | IntTy::SChar | IntTy::UChar => 8,
            IntTy::Short | IntTy::UShort => 16,
            IntTy::Int | IntTy::UInt => 32,
            IntTy::Long | IntTy::ULong | IntTy::LongLong | IntTy::ULongLong => 64,
        }
    }

    /// Whether it has negative values; `char` has (ISO C11 6.2.5p15).
    pub fn is_signed(self) -> bool
        ensures { result ≡ Ranges.is_signed self }
    {
        match self {
            IntTy::Char
            | IntTy::SChar
            | IntTy::Short
            | IntTy::Int
            | IntTy::Long
            | IntTy::LongLong => true,
            IntTy::Bool
            | IntTy::UChar
            | IntTy::UShort
            | IntTy::UInt
            | IntTy::ULong
            | IntTy::ULongLong => false,
        }
    }
}
