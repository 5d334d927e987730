// The byte of a position, sought from the front of a line or of a text.
ghost use Rattle.std.specs.Prelude.{◌≡◌, ℕ, ◌+◌, ◌≤◌, length};
ghost use Rattle.std.specs.Str.{chars, IsCharBoundary};
ghost use Rattle.text_lines.specs.Lines.{content};
ghost use Rattle.text_lines.specs.Positions.{offset_of};
ghost use Rattle.text_lines.specs.Units.{units, fitting};
ghost use Rattle.text_lines.specs.Walked.{sought};
ghost use Rattle.text_lines.specs.declared.encoding.Encoding.TheVariants.{Utf8};

use crate::chars::{ends_line, split_first_char};
use crate::encoding::Encoding;
use crate::pos::Pos;

/// The bytes of the code points of the line that `rest` begins with, from its front, that lie within so many code units.
pub(crate) fn bytes_within(rest: &str, character: u32, encoding: Encoding) -> u32
    requires { length rest.now ≤ 4290772992 }
    ensures value { result ≡ units Utf8 (fitting encoding character (content (chars rest.now))) }
    ensures within { result ≤ length rest.now }
{
    let mut at: u32 = 0;
    let mut left = character;
    let mut rest = rest;
    while let Some((c, behind)) = split_first_char(rest) {
        if c == '\n' || c == '\r' {
            return at;
        }
        let units = encoding.units(c);
        if units > left {
            return at;
        }
        left -= units;
        at += c.len_utf8() as u32;
        rest = behind;
    }
    at
}

/// What follows the front of a line, or the end of a text that has no such line, with the bytes in front of it.
fn nth_line(text: &str, line: u32) -> (u32, &str)
    requires { length text.now ≤ 4290772992 }
    ensures seeks { (encoding : Encoding) (more : ℕ) (character : ℕ) → sought encoding (line + more) character (chars text.now) ≡ result.0 + sought encoding more character (chars result.1.now) }
    ensures bytes { result.0 + length result.1.now ≡ length text.now }
{
    let mut at: u32 = 0;
    let mut left = line;
    let mut rest = text;
    while let Some((c, behind)) = split_first_char(rest) {
        if left == 0 {
            return (at, rest);
        }
        if ends_line(c, behind) {
            left -= 1;
        }
        at += c.len_utf8() as u32;
        rest = behind;
    }
    (at, rest)
}

/// The bytes of two positions in a text, the second on the line of the first or on a later one, in one walk over the text.
pub(crate) fn offsets_in(text: &str, first: Pos, second: Pos, encoding: Encoding) -> (u32, u32)
    requires short { length text.now ≤ 4290772992 }
    requires order { first.line ≤ second.line }
    ensures first { result.0 ≡ offset_of text.now first encoding }
    ensures second { result.1 ≡ offset_of text.now second encoding }
    ensures first_boundary { IsCharBoundary text.now result.0 }
    ensures second_boundary { IsCharBoundary text.now result.1 }
{
    let (at, rest) = nth_line(text, first.line);
    let (more, behind) = nth_line(rest, second.line - first.line);
    let first = at + bytes_within(rest, first.character, encoding);
    let second = at + more + bytes_within(behind, second.character, encoding);
    (first, second)
}
