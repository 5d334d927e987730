// Encoding prefixes (ISO C11 6.4.4.4p1, 6.4.5p1).

/// What an encoding prefix asks for.
#[derive(Clone, Copy, Debug, PartialEq, Eq, Drop)]
pub(crate) enum Prefix {
    /// No prefix: bytes of UTF-8.
    Narrow,
    /// `u8`: bytes of UTF-8, of a string literal.
    Utf8,
    /// `u`: units of UTF-16.
    Char16,
    /// `U`: code points.
    Char32,
    /// `L`: code points.
    Wide,
}
