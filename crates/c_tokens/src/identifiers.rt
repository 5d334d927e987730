// Whether a text is an identifier (ISO C11 6.4.2.1).
ghost use Rattle.std.specs.Prelude.{◌≡◌, ℕ, slice_index};
ghost use Rattle.std.specs.List.{list_all};
ghost use Rattle.c_tokens.specs.Classes;
ghost use Rattle.c_tokens.specs.Languages;

use crate::classes::{is_nondigit, is_word_part};

fn are_word_parts(text: &[u8]) -> bool
    ensures { result ≡ list_all Classes.is_word_part text.now }
{
    text.iter().all(|c| is_word_part(*c))
}

fn begins_word(text: &[u8]) -> bool
    ensures { result ≡ Classes.is_nondigit (slice_index text.now 0) }
{
    match text.first() {
        Some(c) => is_nondigit(*c),
        None => false,
    }
}

fn is_word(text: &[u8]) -> bool
    ensures { result ≡ Languages.is_identifier text.now }
{
    begins_word(text) && are_word_parts(text)
}

/// Whether a text is an identifier (ISO C11 6.4.2.1): an ASCII letter or `_`, and letters, digits and `_` behind it.
/// Keywords are identifiers in the phases of preprocessing. What lexing would replace or remove, a trigraph sequence or
/// a backslash with a line end, makes the text none.
pub fn is_identifier(text: &str) -> bool
    ensures { result ≡ Languages.is_identifier text.now }
{
    is_word(text.as_bytes())
}
