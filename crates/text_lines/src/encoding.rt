// The encodings in which positions are counted (LSP 3.17, PositionEncodingKind).
ghost use Rattle.std.specs.Prelude.{◌≡◌, ◌≤◌};
ghost use Rattle.std.specs.Char.{len_utf8};
ghost use Rattle.text_lines.specs.Units.{code_units};

/// The code units in which a position's `character` is counted.
#[derive(Clone, Copy, Debug, PartialEq, Eq)]
pub enum Encoding {
    /// Bytes.
    Utf8,
    /// UTF-16 code units, two for a code point from U+10000 on.
    Utf16,
    /// Code points.
    Utf32,
}

impl Encoding {
    /// The code units of one code point.
    pub(crate) fn units(self, c: char) -> u32
        ensures value { result ≡ code_units self c }
        ensures within { result ≤ len_utf8 c }
    {
        match self {
            Encoding::Utf8 => c.len_utf8() as u32,
            Encoding::Utf16 => if (c as u32) < 0x1_0000 { 1 } else { 2 },
            Encoding::Utf32 => 1,
        }
    }
}
