// A text read one code point at a time.
ghost use Rattle.std.specs.Prelude.{◌≡◌, ◌+◌, ◌++◌, [], ◌∷◌, length, MatchOption, slice_index, ◌==◌};
ghost use Rattle.std.specs.Char.{encode_utf8, len_utf8};
ghost use Rattle.std.specs.Str.{chars};
ghost use Rattle.text_lines.specs.Lines.{is_line_end};

/// The first code point of a text, and what follows it.
pub(crate) fn split_first_char(text: &str) -> Option<(char, &str)>
    ensures points { MatchOption result (chars text.now ≡ []) (λ r. chars text.now ≡ r.0 ∷ chars r.1.now) }
    ensures bytes { MatchOption result (text.now ≡ []) (λ r. text.now ≡ encode_utf8 r.0 ++ r.1.now) }
    ensures len { MatchOption result (length text.now ≡ 0) (λ r. length text.now ≡ len_utf8 r.0 + length r.1.now) }
{
    let mut chars = text.chars();
    let c = chars.next()?;
    Some((c, chars.as_str()))
}

/// Whether a text begins with LF.
fn begins_with_line_feed(text: &str) -> bool
    ensures { result ≡ (slice_index (chars text.now) 0 == 10) }
{
    match split_first_char(text) {
        Some((c, _)) => c == '\n',
        None => false,
    }
}

/// Whether a line's end mark ends with `c`, where `behind` follows it (LSP 3.17, Position: the marks are LF, CR LF and CR).
pub(crate) fn ends_line(c: char, behind: &str) -> bool
    ensures { result ≡ is_line_end c (chars behind.now) }
{
    match c {
        '\n' => true,
        '\r' => !begins_with_line_feed(behind),
        _ => false,
    }
}

fn begins_with_feed(bytes: &[u8]) -> bool
    ensures { result ≡ (slice_index bytes.now 0 == 10) }
{
    match bytes.split_first() {
        Some((byte, _)) => *byte == b'\n',
        None => false,
    }
}

/// Whether a line's end mark ends with a byte, where these follow it: no byte of another code point is that of a mark.
pub(crate) fn ends_with(byte: u8, behind: &[u8]) -> bool
    ensures { result ≡ is_line_end byte behind.now }
{
    match byte {
        b'\n' => true,
        b'\r' => !begins_with_feed(behind),
        _ => false,
    }
}
