// Operators and conversions at values of constants (ISO C11 6.3.1, 6.5, 6.6).
ghost use Rattle.std.specs.Prelude.{◌≡◌, Bool, true, ◌<◌, ℕ, ℤ, pos, ◌≤ℤ◌, ◌<ℤ◌, ◌^◌, unsigned_abs};
ghost use Rattle.c_literals.specs.Ranges;
ghost use Rattle.c_literals.specs.Conversions;
ghost use Rattle.c_literals.specs.Operators;

use crate::arith::{
    difference, in_type, negated, product, quotient, remainder, shifted_left, shifted_right, sum,
};
use crate::ranges::{OUT_OF_RANGE, residue, width, wrapped};
use type_data::{IntTy, Value};

/// An operator: the unary ones of ISO C11 6.5.3.3, then the binary ones of 6.5.5 to 6.5.14.
#[derive(Clone, Copy, Debug, PartialEq, Eq, Hash, Drop)]
pub enum Op {
    Plus,
    Minus,
    BitNot,
    LogNot,
    Mul,
    Div,
    Rem,
    Add,
    Sub,
    Shl,
    Shr,
    Lt,
    Gt,
    Le,
    Ge,
    Eq,
    Ne,
    BitAnd,
    BitXor,
    BitOr,
    LogAnd,
    LogOr,
}

#[tactic(auto, unfolding(crate::specs::Conversions::truth))]
fn truth(number: i128) -> i128
    ensures { result ≡ Conversions.truth number }
{
    if number == 0 { 0 } else { 1 }
}

/// The value after a conversion to an integer type (6.3.1.2, 6.3.1.3): for `_Bool` 0 where it is 0 and else 1, for the
/// others the value of the type that equals it modulo 2 to the type's width. It is never a fault of its own.
pub fn convert(to: IntTy, a: Value) -> Value
    ensures { result ≡ Conversions.converted to a }
{
    match a {
        Value::Known(number) => match to {
            IntTy::Bool => Value::Known(truth(number)),
            _ => Value::Known(wrapped(to, number)),
        },
        Value::Unknown => Value::Unknown,
        Value::Faulty(rule) => Value::Faulty(rule),
    }
}

fn negation(number: i128) -> Value
    ensures { result ≡ Operators.negation number }
{
    one_if(number == 0)
}

fn applied_unary(op: Op, ty: IntTy, x: i128) -> Value
    ensures { result ≡ Operators.applied_unary op ty x }
{
    match op {
        Op::Minus => negated(ty, x),
        Op::BitNot => difference(ty, -1, x),
        Op::LogNot => negation(x),
        _ => in_type(ty, x),
    }
}

fn one_if(holds: bool) -> Value
    ensures { result ≡ Operators.one_if holds }
{
    if holds {
        Value::Known(1)
    } else {
        Value::Known(0)
    }
}

/// The bits of a number in the type.
fn bits_in(ty: IntTy, number: i128) -> u64
    ensures { result ≡ Operators.bits_in ty number }
{
    residue(ty, number) as u64
}

/// The value of the type that has these bits.
fn of_bits(ty: IntTy, bits: u64) -> Value
    ensures { result ≡ Operators.of_bits ty bits }
{
    Value::Known(wrapped(ty, bits as i128))
}

fn both_bits(ty: IntTy, x: i128, y: i128) -> Value
    ensures { result ≡ Operators.both_bits ty x y }
{
    of_bits(ty, bits_in(ty, x) & bits_in(ty, y))
}

fn either_bits(ty: IntTy, x: i128, y: i128) -> Value
    ensures { result ≡ Operators.either_bits ty x y }
{
    of_bits(ty, bits_in(ty, x) | bits_in(ty, y))
}

fn other_bits(ty: IntTy, x: i128, y: i128) -> Value
    ensures { result ≡ Operators.other_bits ty x y }
{
    of_bits(ty, bits_in(ty, x) ^ bits_in(ty, y))
}

/// Whether the number is a shift's count in the type (6.5.7p3).
fn is_count(ty: IntTy, number: i128) -> bool
    ensures { result ≡ Operators.is_count ty number }
{
    0 <= number && number < width(ty)
}

fn may_stand(op: Op, ty: IntTy, y: i128) -> bool
    ensures { result ≡ Operators.may_stand op ty y }
{
    match op {
        Op::Div | Op::Rem => y != 0,
        Op::Shl | Op::Shr => is_count(ty, y),
        _ => true,
    }
}

fn applied(op: Op, ty: IntTy, x: i128, y: i128) -> Value
    requires { Operators.may_stand op ty y ≡ true }
    ensures { result ≡ Operators.applied op ty x y }
{
    match op {
        Op::Mul => product(ty, x, y),
        Op::Div => quotient(ty, x, y),
        Op::Rem => remainder(ty, x, y),
        Op::Add => sum(ty, x, y),
        Op::Sub => difference(ty, x, y),
        Op::Shl => shifted_left(ty, x, y),
        Op::Shr => shifted_right(ty, x, y),
        Op::Lt => one_if(x < y),
        Op::Gt => one_if(y < x),
        Op::Le => one_if(x <= y),
        Op::Ge => one_if(y <= x),
        Op::Eq => one_if(x == y),
        Op::Ne => one_if(x != y),
        Op::BitAnd => both_bits(ty, x, y),
        Op::BitXor => other_bits(ty, x, y),
        Op::BitOr => either_bits(ty, x, y),
        _ => Value::Unknown,
    }
}

fn unary_value(op: Op, ty: IntTy, a: Value) -> Value
    ensures { result ≡ Operators.unary_value op ty a }
{
    match a {
        Value::Known(x) => applied_unary(op, ty, x),
        Value::Unknown => Value::Unknown,
        Value::Faulty(rule) => Value::Faulty(rule),
    }
}

fn right_value(op: Op, ty: IntTy, a: Value, y: i128) -> Value
    ensures { result ≡ Operators.right_value op ty a y }
{
    if let Value::Faulty(rule) = a {
        return Value::Faulty(rule);
    }
    if !may_stand(op, ty, y) {
        return Value::Faulty(OUT_OF_RANGE);
    }
    match a {
        Value::Known(x) => applied(op, ty, x, y),
        Value::Unknown => Value::Unknown,
        Value::Faulty(rule) => Value::Faulty(rule),
    }
}

fn binary_value(op: Op, ty: IntTy, a: Value, b: Value) -> Value
    ensures { result ≡ Operators.binary_value op ty a b }
{
    match b {
        Value::Known(y) => right_value(op, ty, a, y),
        Value::Unknown => beside_unknown(a),
        Value::Faulty(rule) => beside_fault(a, rule),
    }
}

fn beside_unknown(a: Value) -> Value
    ensures { result ≡ Operators.beside_unknown a }
{
    match a {
        Value::Faulty(rule) => Value::Faulty(rule),
        _ => Value::Unknown,
    }
}

fn beside_fault(a: Value, rule: u16) -> Value
    ensures { result ≡ Operators.beside_fault a rule }
{
    match a {
        Value::Faulty(first) => Value::Faulty(first),
        _ => Value::Faulty(rule),
    }
}

fn truth_value(a: Value) -> Value
    ensures { result ≡ Operators.truth_value a }
{
    match a {
        Value::Known(x) => Value::Known(truth(x)),
        Value::Unknown => Value::Unknown,
        Value::Faulty(rule) => Value::Faulty(rule),
    }
}

fn and_value(a: Value, b: Value) -> Value
    ensures { result ≡ Operators.and_value a b }
{
    match a {
        Value::Known(0) => Value::Known(0),
        Value::Known(_) => truth_value(b),
        Value::Unknown => Value::Unknown,
        Value::Faulty(rule) => Value::Faulty(rule),
    }
}

fn or_value(a: Value, b: Value) -> Value
    ensures { result ≡ Operators.or_value a b }
{
    match a {
        Value::Known(0) => truth_value(b),
        Value::Known(_) => Value::Known(1),
        Value::Unknown => Value::Unknown,
        Value::Faulty(rule) => Value::Faulty(rule),
    }
}

/// The value of an operator at operands of the type `ty`, the right one of a shift and those of `&&` and `||` aside; for
/// a unary one `b` isn't read. The exact result goes into the type: where that is unsigned modulo 2 to its width, where it
/// is signed and lacks the number as rule 531. A zero divisor, a count that isn't from 0 to the width less 1, and a left
/// shift of a negative value of a signed type are rule 531 too. Comparisons, `!`, `&&` and `||` give 0 or 1. The left
/// operand's fault comes before the right one's; an Unknown beside no fault is Unknown. Operands outside of the type are
/// taken as they are. (ISO C11 6.5, 6.6)
pub fn value_op(op: Op, ty: IntTy, a: Value, b: Value) -> Value
    ensures { result ≡ Operators.value_of op ty a b }
{
    match op {
        Op::Plus | Op::Minus | Op::BitNot | Op::LogNot => unary_value(op, ty, a),
        Op::LogAnd => and_value(a, b),
        Op::LogOr => or_value(a, b),
        _ => binary_value(op, ty, a, b),
    }
}
