// Character constants (ISO C11 6.4.4.4).
ghost use Rattle.std.specs.Prelude.{◌≡◌, ◌≤◌, ℕ, ◌-◌, length, drop};
ghost use Rattle.std.specs.Str.{chars};
ghost use Rattle.c_literals.specs.CChars;
ghost use Rattle.c_literals.specs.Character;
ghost use Rattle.c_literals.specs.Kept;
ghost use Rattle.c_literals.specs.Units;

use crate::escapes::{escape, split_first_char};
use crate::literal::{Literal, OPEN};
use crate::prefix::Prefix;
use crate::seen::{Seen, add_char, add_escape, value};

// What is seen with the c-char that begins with `c`, and what is behind it.
#[tactic(auto, unfolding(crate::specs::CChars::front))]
fn step(prefix: Prefix, seen: Seen, c: char, behind: &str) -> (Seen, &str)
    ensures adds { Kept.Adds prefix seen (Units.units_of prefix (CChars.front c (chars behind.now)).c_char) result.0 }
    ensures behind { chars result.1.now ≡ drop ((CChars.front c (chars behind.now)).width - 1) (chars behind.now) }
    ensures shorter { length result.1.now ≤ length behind.now }
{
    if c == '\\' {
        let (value, after) = escape(behind);
        return (add_escape(prefix, seen, value), after);
    }
    (add_char(prefix, seen, c), behind)
}

// The constant of what was seen, where this is behind the closing quote.
fn at_quote(prefix: Prefix, seen: Seen, behind: &str) -> Literal
    ensures { result ≡ Kept.goes_on prefix seen (CChars.at_end (CChars.c_chars (chars behind.now))) }
{
    match split_first_char(behind) {
        Some(_) => Literal::Bad(OPEN),
        None => value(prefix, seen),
    }
}

// The constant whose text behind the opening quote this is.
fn behind_quote(prefix: Prefix, text: &str) -> Literal
    ensures { result ≡ Character.of_c_chars prefix (CChars.closed 39 (CChars.c_chars (chars text.now))) }
{
    let mut seen = Seen::Nothing;
    let mut rest = text;
    while let Some((c, behind)) = split_first_char(rest) {
        if c == '\'' {
            return at_quote(prefix, seen, behind);
        }
        if c == '\n' || c == '\r' {
            return Literal::Bad(OPEN);
        }
        let (more, after) = step(prefix, seen, c, behind);
        seen = more;
        rest = after;
    }
    Literal::Bad(OPEN)
}

#[tactic(auto, unfolding(crate::specs::Character::quoted))]
fn quoted(prefix: Prefix, text: &str) -> Literal
    ensures { result ≡ Character.quoted prefix (chars text.now) }
{
    match split_first_char(text) {
        Some((c, behind)) if c == '\'' => behind_quote(prefix, behind),
        _ => Literal::Bad(OPEN),
    }
}

/// The constant that a character constant is (ISO C11 6.4.4.4). Without a prefix it has type int, and the value of one byte
/// of UTF-8 as that of a signed char, or of up to four bytes in base 256 as that of an int; with `L`, `u` or `U` it has
/// type wchar_t, char16_t or char32_t, and the value of its one unit. A text whose quotes aren't closed at its end is rule
/// 102, an escape that is none or past the range of its unit rule 314, another number of units rule 313, in this order.
#[tactic(auto, unfolding(crate::specs::Character::of_characters))]
pub fn character(spelling: &str) -> Literal
    ensures { result ≡ Character.character spelling.now }
{
    let Some((c, behind)) = split_first_char(spelling) else {
        return Literal::Bad(OPEN);
    };
    match c {
        'L' => quoted(Prefix::Wide, behind),
        'u' => quoted(Prefix::Char16, behind),
        'U' => quoted(Prefix::Char32, behind),
        _ => quoted(Prefix::Narrow, spelling),
    }
}
