// Integer types and their ranges (ISO C11 5.2.4.2.1, 6.2.5, 6.2.6.2).
ghost use Rattle.std.specs.Prelude.{◌≡◌, ◌≤◌, ◌<◌, ◌^◌, ℤ, pos, ◌-ℤ◌, ◌≤ℤ◌, ◌<ℤ◌, FitsSigned};
ghost use Rattle.std.specs.Bool.{FalseIff};
ghost use Rattle.std.specs.Int.{w128, int_wrap};
ghost use Rattle.c_literals.specs.Ranges;
ghost use Rattle.c_literals.specs.Conversions;

use type_data::{IntTy, Value};

/// The rule that a constant out of its type's range breaks.
pub const OUT_OF_RANGE: u16 = 531;

pub fn width(ty: IntTy) -> i128
    ensures { result ≡ pos (Ranges.width ty) }
{
    i128::from(ty.width())
}

/// 2 to the type's width.
pub fn modulus(ty: IntTy) -> i128
    ensures value { result ≡ pos (2 ^ Ranges.width ty) }
    ensures positive { pos 1 ≤ℤ result }
    ensures bounded { result ≤ℤ pos (2 ^ 64) }
{
    match ty {
        IntTy::Bool => 2,
        IntTy::Char | IntTy::SChar | IntTy::UChar => 0x100,
        IntTy::Short | IntTy::UShort => 0x1_0000,
        IntTy::Int | IntTy::UInt => 0x1_0000_0000,
        IntTy::Long | IntTy::ULong | IntTy::LongLong | IntTy::ULongLong => 0x1_0000_0000_0000_0000,
    }
}

/// The least value of the type.
#[tactic(auto, unfolding(crate::specs::Ranges::least))]
fn least(ty: IntTy) -> i128
    ensures { result ≡ Ranges.least ty }
{
    match ty {
        IntTy::Char | IntTy::SChar => -0x80,
        IntTy::Short => -0x8000,
        IntTy::Int => -0x8000_0000,
        IntTy::Long | IntTy::LongLong => -0x8000_0000_0000_0000,
        IntTy::Bool
        | IntTy::UChar
        | IntTy::UShort
        | IntTy::UInt
        | IntTy::ULong
        | IntTy::ULongLong => 0,
    }
}

/// The number behind the greatest value of the type.
#[tactic(auto, unfolding(crate::specs::Ranges::limit))]
pub fn limit(ty: IntTy) -> i128
    ensures value { result ≡ Ranges.limit ty }
    ensures bounded { result ≤ℤ pos (2 ^ 64) }
{
    match ty {
        IntTy::Bool => 2,
        IntTy::Char | IntTy::SChar => 0x80,
        IntTy::UChar => 0x100,
        IntTy::Short => 0x8000,
        IntTy::UShort => 0x1_0000,
        IntTy::Int => 0x8000_0000,
        IntTy::UInt => 0x1_0000_0000,
        IntTy::Long | IntTy::LongLong => 0x8000_0000_0000_0000,
        IntTy::ULong | IntTy::ULongLong => 0x1_0000_0000_0000_0000,
    }
}

/// Whether the number is a value of the type.
#[tactic(auto, unfolding(crate::specs::Ranges::fits))]
pub fn fits(ty: IntTy, number: i128) -> bool
    ensures { result ≡ Ranges.fits ty number }
{
    least(ty) <= number && number < limit(ty)
}

/// The number modulo 2 to the type's width.
#[tactic(auto, unfolding(crate::specs::Ranges::residue))]
pub fn residue(ty: IntTy, number: i128) -> i128
    ensures value { result ≡ Ranges.residue ty number }
    ensures low { pos 0 ≤ℤ result }
    ensures high { result <ℤ pos (2 ^ 64) }
{
    number.rem_euclid(modulus(ty))
}

fn lowered(rest: i128, modulus: i128) -> i128
    requires low { pos 0 ≤ℤ rest }
    requires high { modulus ≤ℤ pos (2 ^ 64) }
    requires positive { pos 1 ≤ℤ modulus }
    ensures { result ≡ rest -ℤ modulus }
{
    rest - modulus
}

/// The value of the type that equals the number modulo 2 to its width.
#[tactic(auto, unfolding(crate::specs::Conversions::wrapped))]
pub fn wrapped(ty: IntTy, number: i128) -> i128
    ensures { result ≡ Conversions.wrapped ty number }
{
    let rest = residue(ty, number);
    if rest < limit(ty) {
        rest
    } else {
        lowered(rest, modulus(ty))
    }
}

/// The number where it is a value of the type, else a fault.
fn tested(ty: IntTy, number: i128) -> Value
    ensures { result ≡ Ranges.tested ty number }
{
    if fits(ty, number) {
        Value::Known(number)
    } else {
        Value::Faulty(OUT_OF_RANGE)
    }
}

/// An operator's exact result in its type, of which `number` is what 128 bits have, and `overflowed` whether they lack
/// more.
pub fn into_type(ty: IntTy, number: i128, overflowed: bool) -> Value
    ensures { (exact : ℤ) → int_wrap w128 exact ≡ number → FalseIff overflowed (FitsSigned w128 exact) → result ≡ Ranges.into ty exact }
{
    if !ty.is_signed() {
        return Value::Known(residue(ty, number));
    }
    if overflowed {
        return Value::Faulty(OUT_OF_RANGE);
    }
    tested(ty, number)
}
