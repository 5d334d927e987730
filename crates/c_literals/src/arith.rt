// Arithmetic of one type (ISO C11 6.5.3.3, 6.5.5 to 6.5.12).
ghost use Rattle.std.specs.Prelude.{◌≡◌, ◌≢◌, ◌≤ℤ◌, ◌<ℤ◌, ◌^◌, ℤ, pos, negsuc, neg_ℤ, ◌+ℤ◌, ◌-ℤ◌, ◌*ℤ◌, int_div, int_rem, unsigned_abs, true};
ghost use Rattle.std.specs.Int.{int_div_euclid};
ghost use Rattle.c_literals.specs.Ranges;
ghost use Rattle.c_literals.specs.Operators;

use crate::ranges::{OUT_OF_RANGE, into_type};
use type_data::{IntTy, Value};

pub fn negated(ty: IntTy, x: i128) -> Value
    ensures { result ≡ Ranges.into ty (neg_ℤ x) }
{
    let (number, overflowed) = x.overflowing_neg();
    into_type(ty, number, overflowed)
}

pub fn sum(ty: IntTy, x: i128, y: i128) -> Value
    ensures { result ≡ Ranges.into ty (x +ℤ y) }
{
    let (number, overflowed) = x.overflowing_add(y);
    into_type(ty, number, overflowed)
}

pub fn difference(ty: IntTy, x: i128, y: i128) -> Value
    ensures { result ≡ Ranges.into ty (x -ℤ y) }
{
    let (number, overflowed) = x.overflowing_sub(y);
    into_type(ty, number, overflowed)
}

pub fn product(ty: IntTy, x: i128, y: i128) -> Value
    ensures { result ≡ Ranges.into ty (x *ℤ y) }
{
    let (number, overflowed) = x.overflowing_mul(y);
    into_type(ty, number, overflowed)
}

/// A number that 128 bits have, in the type.
pub fn in_type(ty: IntTy, x: i128) -> Value
    ensures { result ≡ Ranges.into ty x }
{
    into_type(ty, x, false)
}

/// The quotient, rounded toward zero.
pub fn quotient(ty: IntTy, x: i128, y: i128) -> Value
    requires { y ≢ pos 0 }
    ensures { result ≡ Ranges.into ty (int_div x y) }
{
    if y == -1 {
        return negated(ty, x);
    }
    in_type(ty, x / y)
}

/// What the quotient leaves.
pub fn remainder(ty: IntTy, x: i128, y: i128) -> Value
    requires { y ≢ pos 0 }
    ensures { result ≡ Ranges.into ty (int_rem x y) }
{
    if y == -1 {
        return in_type(ty, 0);
    }
    in_type(ty, x % y)
}

/// 2 to the power of a count below 64.
fn power(count: i128) -> i128
    requires low { pos 0 ≤ℤ count }
    requires high { count <ℤ pos 64 }
    ensures value { result ≡ pos (2 ^ unsigned_abs count) }
    ensures positive { pos 1 ≤ℤ result }
{
    (1u64 << (count as u32)) as i128
}

/// `x` times 2 to the power of a count below the type's width (6.5.7p4).
#[tactic(auto, unfolding(crate::specs::Operators::shifted_left))]
pub fn shifted_left(ty: IntTy, x: i128, count: i128) -> Value
    requires { Operators.is_count ty count ≡ true }
    ensures { result ≡ Operators.shifted_left ty x count }
{
    if ty.is_signed() && x < 0 {
        return Value::Faulty(OUT_OF_RANGE);
    }
    product(ty, x, power(count))
}

/// `x` divided by 2 to the power of a count below the type's width, rounded down (6.5.7p5).
pub fn shifted_right(ty: IntTy, x: i128, count: i128) -> Value
    requires { Operators.is_count ty count ≡ true }
    ensures { result ≡ Ranges.into ty (int_div_euclid x (pos (2 ^ unsigned_abs count))) }
{
    in_type(ty, x.div_euclid(power(count)))
}
