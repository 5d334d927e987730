// The units of a character constant (ISO C11 6.4.4.4p9), as far as they have been read.
ghost use Rattle.std.specs.Prelude.{◌≡◌, ◌≤◌, ℕ, List, [], ◌∷◌, Some, pos};
ghost use Rattle.c_literals.specs.Character;
ghost use Rattle.c_literals.specs.Kept;
ghost use Rattle.c_literals.specs.Units;
ghost use Rattle.c_literals.specs.declared.prefix.Prefix.{Prefix};

use crate::literal::{BAD_CHARACTER, BAD_ESCAPE, Literal};
use crate::prefix::Prefix;
use crate::ranges::wrapped;
use type_data::IntTy;

/// The units that were read: up to four of them have a value.
#[derive(Clone, Copy, Debug, PartialEq, Eq, Drop)]
pub(crate) enum Seen {
    /// Something that has no unit was among them.
    Faulty,
    Nothing,
    One(u32),
    Two(u32, u32),
    Three(u32, u32, u32),
    Four(u32, u32, u32, u32),
    Many,
}

fn type_of(prefix: Prefix) -> IntTy
    ensures { result ≡ Character.type_of prefix }
{
    match prefix {
        Prefix::Narrow => IntTy::Int,
        Prefix::Utf8 => IntTy::Char,
        Prefix::Char16 => IntTy::UShort,
        Prefix::Char32 => IntTy::UInt,
        Prefix::Wide => IntTy::Int,
    }
}

fn unit_type(prefix: Prefix) -> IntTy
    ensures { result ≡ Character.unit_type prefix }
{
    match prefix {
        Prefix::Narrow => IntTy::SChar,
        Prefix::Utf8 => IntTy::Char,
        Prefix::Char16 => IntTy::UShort,
        Prefix::Char32 => IntTy::UInt,
        Prefix::Wide => IntTy::Int,
    }
}

fn of_number(prefix: Prefix, number: i128) -> Literal
    ensures { result ≡ Character.of_number prefix number }
{
    match prefix {
        Prefix::Narrow => Literal::Int(IntTy::Int, wrapped(IntTy::Int, number)),
        Prefix::Utf8 => Literal::Bad(BAD_CHARACTER),
        Prefix::Char16 => Literal::Bad(BAD_CHARACTER),
        Prefix::Char32 => Literal::Bad(BAD_CHARACTER),
        Prefix::Wide => Literal::Bad(BAD_CHARACTER),
    }
}

fn in_base_256(a: u32, b: u32, c: u32, d: u32) -> i128
    ensures { result ≡ pos (Character.base_256 (a ∷ b ∷ c ∷ d ∷ [])) }
{
    let high = (a as u128 * 256 + b as u128) * 256 + c as u128;
    (high * 256 + d as u128) as i128
}

/// The constant of the units that were read.
#[tactic(auto, unfolding(crate::specs::Character::several))]
pub(crate) fn value(prefix: Prefix, seen: Seen) -> Literal
    ensures { result ≡ Kept.with_more prefix seen (Some []) }
{
    match seen {
        Seen::Faulty => Literal::Bad(BAD_ESCAPE),
        Seen::Nothing => Literal::Bad(BAD_CHARACTER),
        Seen::One(a) => Literal::Int(type_of(prefix), wrapped(unit_type(prefix), a as i128)),
        Seen::Two(a, b) => of_number(prefix, in_base_256(0, 0, a, b)),
        Seen::Three(a, b, c) => of_number(prefix, in_base_256(0, a, b, c)),
        Seen::Four(a, b, c, d) => of_number(prefix, in_base_256(a, b, c, d)),
        Seen::Many => Literal::Bad(BAD_CHARACTER),
    }
}

/// One more unit.
fn push(seen: Seen, unit: u32) -> Seen
    ensures { (p : Prefix) → Kept.Adds p seen (Some (unit ∷ [])) result }
{
    match seen {
        Seen::Faulty => Seen::Faulty,
        Seen::Nothing => Seen::One(unit),
        Seen::One(a) => Seen::Two(a, unit),
        Seen::Two(a, b) => Seen::Three(a, b, unit),
        Seen::Three(a, b, c) => Seen::Four(a, b, c, unit),
        Seen::Four(_, _, _, _) => Seen::Many,
        Seen::Many => Seen::Many,
    }
}

fn add_bytes(seen: Seen, bytes: &[u8]) -> Seen
    ensures { (p : Prefix) → Kept.Adds p seen (Some bytes.now) result }
{
    let mut seen = seen;
    let mut rest = bytes;
    while let Some((byte, behind)) = rest.split_first() {
        rest = behind;
        seen = push(seen, *byte as u32);
    }
    seen
}

#[tactic(auto, unfolding(crate::specs::Units::utf_16))]
fn add_utf_16(seen: Seen, c: u32) -> Seen
    requires { c ≤ 1114111 }
    ensures { (p : Prefix) → Kept.Adds p seen (Some (Units.utf_16 c)) result }
{
    if c < 0x1_0000 {
        return push(seen, c);
    }
    let past = c - 0x1_0000;
    let high = push(seen, 0xD800 + past / 0x400);
    push(high, 0xDC00 + past % 0x400)
}

/// The units of one code point.
pub(crate) fn add_char(prefix: Prefix, seen: Seen, c: char) -> Seen
    ensures { Kept.Adds prefix seen (Some (Units.encoded prefix c)) result }
{
    match prefix {
        Prefix::Narrow | Prefix::Utf8 => {
            let mut buffer = [0u8; 4];
            add_bytes(seen, c.encode_utf8(&mut buffer).as_bytes())
        }
        Prefix::Char16 => add_utf_16(seen, c as u32),
        Prefix::Char32 => push(seen, c as u32),
        Prefix::Wide => push(seen, c as u32),
    }
}

/// The number behind the greatest unit.
pub(crate) fn limit(prefix: Prefix) -> u64
    ensures value { result ≡ Units.limit prefix }
    ensures bounded { result ≤ 4294967296 }
{
    match prefix {
        Prefix::Narrow | Prefix::Utf8 => 0x100,
        Prefix::Char16 => 0x1_0000,
        Prefix::Char32 => 0x1_0000_0000,
        Prefix::Wide => 0x1_0000_0000,
    }
}

/// The unit of an escape with this value; without one it is no escape.
#[tactic(auto, unfolding(crate::specs::Units::one_unit))]
pub(crate) fn add_escape(prefix: Prefix, seen: Seen, value: Option<u64>) -> Seen
    ensures { Kept.Adds prefix seen (Kept.units_at prefix value) result }
{
    let Some(value) = value else {
        return Seen::Faulty;
    };
    if value < limit(prefix) {
        return push(seen, value as u32);
    }
    Seen::Faulty
}
