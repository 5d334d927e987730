// String literals (ISO C11 6.4.5).
ghost use Rattle.std.specs.Prelude.{◌≡◌, ◌≤◌, ℕ, ◌-◌, drop, length, map, OnOk, IfOk, MatchResult, MatchOption, IsTrue};
ghost use Rattle.std.specs.Str.{chars};
ghost use Rattle.c_literals.specs.CChars;
ghost use Rattle.c_literals.specs.Strings;
ghost use Rattle.c_literals.specs.Texts;
ghost use Rattle.c_literals.specs.Texts.{kept};
ghost use Rattle.c_literals.specs.Units;

use crate::escapes::{escape, split_first_char};
use crate::literal::{BAD_ESCAPE, OPEN, PREFIXES_DIFFER};
use crate::prefix::Prefix;
use crate::text::Text;
use shared_list::Listing;
use shared_text::Name;
use std::alloc::{AllocError, Global};

/// A string literal: the number of its prefix, which is 0 for none, 1 for `u8`, 2 for `u`, 3 for `U` and 4 for `L`, and its
/// units without the closing zero.
#[derive(PartialEq, Eq, Drop)]
pub struct StrValue {
    pub prefix: u8,
    pub units: Listing<u32>,
}

/// Why pieces are no string literal.
#[derive(Clone, Copy, Debug, PartialEq, Eq, Drop)]
pub enum LitError {
    /// The number of the rule that is broken.
    Bad(u16),
    NoMemory,
}

// The s-char that begins with `c`, and what is behind it.
#[tactic(auto, unfolding(crate::specs::CChars::front))]
fn add<'a>(text: &mut Text, prefix: Prefix, c: char, behind: &'a str) -> Result<&'a str, AllocError>
    ensures adds { OnOk result (kept text.new ≡ Strings.followed (kept text.old) (Strings.of_units (Units.units_of prefix (CChars.front c (chars behind.now)).c_char))) }
    ensures behind { IfOk result (λ after. chars after.now ≡ drop ((CChars.front c (chars behind.now)).width - 1) (chars behind.now)) }
    ensures shorter { IfOk result (λ after. length after.now ≤ length behind.now) }
{
    if c == '\\' {
        let (value, after) = escape(behind);
        text.add_escape(prefix, value)?;
        return Ok(after);
    }
    text.add_char(prefix, c)?;
    Ok(behind)
}

// Reads the s-chars behind an opening quote: whether the closing quote ends the text.
fn read(text: &mut Text, prefix: Prefix, piece: &str) -> Result<bool, AllocError>
    ensures { IfOk result (λ done. Texts.ended done (kept text.new) ≡ Strings.followed (kept text.old) (Strings.of_content prefix (CChars.closed 34 (CChars.c_chars (chars piece.now))))) }
{
    let mut rest = piece;
    while let Some((c, behind)) = split_first_char(rest) {
        if c == '"' {
            return match split_first_char(behind) {
                Some(_) => Ok(false),
                None => Ok(true),
            };
        }
        if c == '\n' || c == '\r' {
            return Ok(false);
        }
        rest = add(text, prefix, c, behind)?;
    }
    Ok(false)
}

#[tactic(auto, unfolding(crate::specs::Strings::quoted))]
fn quoted(prefix: Prefix, text: &str) -> Option<(Prefix, &str)>
    ensures { MatchOption result (Strings.quoted prefix (chars text.now) ≡ Strings.no_piece) (λ r. Strings.quoted prefix (chars text.now) ≡ Texts.of_parts r.0 (chars r.1.now)) }
{
    match split_first_char(text) {
        Some((c, behind)) if c == '"' => Some((prefix, behind)),
        _ => None,
    }
}

#[tactic(auto, unfolding(crate::specs::Strings::behind_u))]
fn behind_u(text: &str) -> Option<(Prefix, &str)>
    ensures { MatchOption result (Strings.behind_u (chars text.now) ≡ Strings.no_piece) (λ r. Strings.behind_u (chars text.now) ≡ Texts.of_parts r.0 (chars r.1.now)) }
{
    match split_first_char(text) {
        Some((c, behind)) if c == '8' => quoted(Prefix::Utf8, behind),
        _ => quoted(Prefix::Char16, text),
    }
}

// The prefix of a piece, and what is behind its opening quote.
#[tactic(auto, unfolding(crate::specs::Strings::of_characters, crate::specs::Strings::quoted))]
fn opened(spelling: &str) -> Option<(Prefix, &str)>
    ensures { MatchOption result (Strings.piece_of spelling.now ≡ Strings.no_piece) (λ r. Strings.piece_of spelling.now ≡ Texts.of_parts r.0 (chars r.1.now)) }
{
    let (c, behind) = split_first_char(spelling)?;
    match c {
        'L' => quoted(Prefix::Wide, behind),
        'U' => quoted(Prefix::Char32, behind),
        'u' => behind_u(behind),
        _ => quoted(Prefix::Narrow, spelling),
    }
}

fn coded(spelling: &str) -> Prefix
    ensures { result ≡ (Strings.piece_of spelling.now).coded }
{
    match opened(spelling) {
        Some((prefix, _)) => prefix,
        None => Prefix::Narrow,
    }
}

fn number(prefix: Prefix) -> u8
    ensures { result ≡ Strings.number prefix }
{
    match prefix {
        Prefix::Narrow => 0,
        Prefix::Utf8 => 1,
        Prefix::Char16 => 2,
        Prefix::Char32 => 3,
        Prefix::Wide => 4,
    }
}

#[tactic(auto, unfolding(crate::specs::Strings::meet))]
fn meet(p: Prefix, q: Prefix) -> Option<Prefix>
    ensures { result ≡ Strings.meet p q }
{
    if number(p) == 0 {
        return Some(q);
    }
    if number(q) == 0 {
        return Some(p);
    }
    if number(p) == number(q) {
        return Some(p);
    }
    None
}

fn met(p: Option<Prefix>, q: Prefix) -> Option<Prefix>
    ensures { result ≡ Strings.met p q }
{
    match p {
        Some(p) => meet(p, q),
        None => None,
    }
}

// The prefix that the pieces have in common.
fn common(pieces: &[Name]) -> Option<Prefix>
    ensures { result ≡ Strings.common (map Strings.piece_of pieces.now) }
{
    let mut prefix = Some(Prefix::Narrow);
    let mut rest = pieces;
    while let Some((piece, behind)) = rest.split_first() {
        rest = behind;
        prefix = met(prefix, coded(piece.as_str()));
    }
    prefix
}

fn range(prefix: Option<Prefix>) -> Prefix
    ensures { result ≡ Strings.range prefix }
{
    match prefix {
        Some(prefix) => prefix,
        None => Prefix::Char32,
    }
}

// One piece: whether it is closed.
fn read_piece(text: &mut Text, prefix: Prefix, spelling: &str) -> Result<bool, AllocError>
    ensures { IfOk result (λ done. Texts.ended done (kept text.new) ≡ Strings.followed (kept text.old) (Strings.of_content prefix (Strings.piece_of spelling.now).content)) }
{
    match opened(spelling) {
        Some((_, behind)) => read(text, prefix, behind),
        None => Ok(false),
    }
}

// All pieces: whether each is closed.
fn read_all(text: &mut Text, prefix: Prefix, pieces: &[Name]) -> Result<bool, AllocError>
    ensures { IfOk result (λ done. Texts.ended done (kept text.new) ≡ Strings.followed (kept text.old) (Strings.outcome prefix (map Strings.piece_of pieces.now))) }
{
    let mut rest = pieces;
    while let Some((piece, behind)) = rest.split_first() {
        rest = behind;
        if !read_piece(text, prefix, piece.as_str())? {
            return Ok(false);
        }
    }
    Ok(true)
}

/// The string literal that pieces behind one another are (ISO C11 6.4.5, 5.1.1.2p1 phase 6). Its prefix is the one that some
/// of them have. `Bad` has rule 102 where a piece isn't closed at its end, else 314 where an escape is none or past the range
/// of a unit of the prefix, else 315 where prefixes differ; with these the widest range counts.
pub fn string_pieces(alloc: Global, spellings: &[Name]) -> Result<StrValue, LitError>
    ensures { Texts.Answers result (Strings.string_pieces spellings.now) }
{
    let shared = common(spellings);
    let mut text = Text::new(alloc);
    let closed = match read_all(&mut text, range(shared), spellings) {
        Ok(closed) => closed,
        Err(_) => return Err(LitError::NoMemory),
    };
    if !closed {
        return Err(LitError::Bad(OPEN));
    }
    if text.faulty {
        return Err(LitError::Bad(BAD_ESCAPE));
    }
    match shared {
        Some(prefix) => Ok(StrValue {
            prefix: number(prefix),
            units: Listing::from_vec(text.units),
        }),
        None => Err(LitError::Bad(PREFIXES_DIFFER)),
    }
}
