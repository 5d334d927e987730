// Integer constants (ISO C11 6.4.4.1).
ghost use Rattle.std.specs.Prelude.{◌≡◌, ◌≤◌, ◌<◌, ◌^◌, pos, option_map};
ghost use Rattle.std.specs.List.{find};
ghost use Rattle.std.specs.Str.Parse.{digits_value};
ghost use Rattle.c_literals.specs.Digits;
ghost use Rattle.c_literals.specs.Integer;

use crate::digits::{begins_with, behind, byte_at, number, run};
use crate::literal::{Literal, TOO_LARGE};
use crate::suffixes::{Long, Suffix, suffix_of};
use type_data::IntTy;

static ALL: [IntTy; 6] = [
    IntTy::Int,
    IntTy::UInt,
    IntTy::Long,
    IntTy::ULong,
    IntTy::LongLong,
    IntTy::ULongLong,
];

static FROM_LONG: [IntTy; 4] = [IntTy::Long, IntTy::ULong, IntTy::LongLong, IntTy::ULongLong];

static FROM_LONG_LONG: [IntTy; 2] = [IntTy::LongLong, IntTy::ULongLong];

static SIGNED: [IntTy; 3] = [IntTy::Int, IntTy::Long, IntTy::LongLong];

static SIGNED_FROM_LONG: [IntTy; 2] = [IntTy::Long, IntTy::LongLong];

static SIGNED_FROM_LONG_LONG: [IntTy; 1] = [IntTy::LongLong];

static UNSIGNED: [IntTy; 3] = [IntTy::UInt, IntTy::ULong, IntTy::ULongLong];

static UNSIGNED_FROM_LONG: [IntTy; 2] = [IntTy::ULong, IntTy::ULongLong];

static UNSIGNED_FROM_LONG_LONG: [IntTy; 1] = [IntTy::ULongLong];

// The types that a constant with this suffix may have, in the order in which they are tried.
#[tactic(auto, unfolding(crate::specs::Integer::candidates))]
fn candidates(decimal: bool, suffix: Suffix) -> &'static [IntTy]
    ensures { result.now ≡ Integer.candidates decimal suffix.unsigned suffix.long }
{
    match suffix.long {
        Long::Short if suffix.unsigned => UNSIGNED.as_slice(),
        Long::Short if decimal => SIGNED.as_slice(),
        Long::Short => ALL.as_slice(),
        Long::Long if suffix.unsigned => UNSIGNED_FROM_LONG.as_slice(),
        Long::Long if decimal => SIGNED_FROM_LONG.as_slice(),
        Long::Long => FROM_LONG.as_slice(),
        Long::LongLong if suffix.unsigned => UNSIGNED_FROM_LONG_LONG.as_slice(),
        Long::LongLong if decimal => SIGNED_FROM_LONG_LONG.as_slice(),
        Long::LongLong => FROM_LONG_LONG.as_slice(),
    }
}

#[tactic(auto, unfolding(crate::specs::Integer::holds))]
fn holds(value: u64, ty: IntTy) -> bool
    ensures { result ≡ Integer.holds value ty }
{
    let bits = if ty.is_signed() {
        ty.width() - 1
    } else {
        ty.width()
    };
    (value as u128) < 1u128 << bits
}

fn first_holding(value: u64, types: &[IntTy]) -> Option<IntTy>
    ensures { result ≡ find (Integer.holds value) types.now }
{
    let mut rest = types;
    while let Some((ty, after)) = rest.split_first() {
        rest = after;
        if holds(value, *ty) {
            return Some(*ty);
        }
    }
    None
}

fn first_type(decimal: bool, suffix: Suffix, value: u64) -> Option<IntTy>
    ensures { result ≡ Integer.first_type decimal suffix value }
{
    first_holding(value, candidates(decimal, suffix))
}

fn typed(value: u64, ty: Option<IntTy>) -> Literal
    ensures { result ≡ Integer.typed value ty }
{
    match ty {
        Some(ty) => Literal::Int(ty, value as i128),
        None => Literal::Bad(TOO_LARGE),
    }
}

fn of_number(decimal: bool, suffix: Suffix, value: Option<u64>) -> Literal
    ensures { result ≡ Integer.of_number decimal suffix value }
{
    match value {
        Some(value) => typed(value, first_type(decimal, suffix, value)),
        None => Literal::Bad(TOO_LARGE),
    }
}

// Digits of the base and a suffix.
#[tactic(auto, unfolding(crate::specs::Integer::constant))]
fn constant(base: u8, text: &[u8]) -> Option<Literal>
    requires { 1 ≤ base }
    ensures { result ≡ Integer.constant base text.now }
{
    let count = run(base, text);
    if count == 0 {
        return None;
    }
    let (digits, after) = text.split_at(count);
    match suffix_of(after) {
        Some(suffix) => Some(of_number(base == 10, suffix, number(base, digits))),
        None => None,
    }
}

#[tactic(auto, unfolding(crate::specs::Integer::has_prefix))]
pub(crate) fn has_prefix(text: &[u8]) -> bool
    ensures { result ≡ Integer.has_prefix text.now }
{
    byte_at(text, 0) == b'0' && begins_with(b'x', b'X', behind(text, 1))
}

#[tactic(auto, unfolding(crate::specs::Integer::integer_constant))]
pub(crate) fn integer_constant(text: &[u8]) -> Option<Literal>
    ensures { result ≡ Integer.integer_constant text.now }
{
    if has_prefix(text) {
        return constant(16, behind(text, 2));
    }
    if byte_at(text, 0) == b'0' {
        return constant(8, text);
    }
    constant(10, text)
}
