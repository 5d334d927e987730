// Numbers of type intmax_t or uintmax_t, as which all integers of a condition act (ISO C11 6.10.1p4), and what operators
// make of them.
ghost use Rattle.std.specs.Prelude.{◌≡◌, ◌||◌};
ghost use Rattle.pp_cond.specs.Numbers as spec;

use crate::marks::Mark;
use c_literals::{Op, convert, value_op};
use type_data::{IntTy, Value};

// What isn't a constant expression where it is evaluated.
const NOT_CONSTANT: u16 = 530;

#[derive(Clone, Copy, Debug, Drop)]
pub(crate) struct Number {
    // It is of type uintmax_t.
    pub(crate) unsigned: bool,
    pub(crate) value: Value,
}

fn type_of(unsigned: bool) -> IntTy
    ensures { result ≡ spec.type_of unsigned }
{
    if unsigned { IntTy::ULong } else { IntTy::Long }
}

pub(crate) fn signed(value: Value) -> Number
    ensures { result ≡ spec.signed value }
{
    Number {
        unsigned: false,
        value,
    }
}

fn keeps_type(mark: Mark) -> bool
    ensures { result ≡ spec.keeps_type mark }
{
    match mark {
        Mark::Not => false,
        _ => true,
    }
}

pub(crate) fn unary(mark: Mark, a: Number) -> Number
    ensures { result ≡ spec.unary mark a }
{
    let value = value_op(mark.prefix_op(), type_of(a.unsigned), a.value, a.value);
    Number {
        unsigned: keeps_type(mark) && a.unsigned,
        value,
    }
}

fn logical(op: Op, a: Number, b: Number) -> Number
    ensures { result ≡ spec.logical op a b }
{
    signed(value_op(op, IntTy::Long, a.value, b.value))
}

fn shift(op: Op, a: Number, b: Number) -> Number
    ensures { result ≡ spec.shift op a b }
{
    let value = value_op(op, type_of(a.unsigned), a.value, b.value);
    Number {
        unsigned: a.unsigned,
        value,
    }
}

fn common(op: Op, unsigned: bool, a: Number, b: Number) -> Value
    ensures { result ≡ spec.common op unsigned a b }
{
    let ty = type_of(unsigned);
    value_op(op, ty, convert(ty, a.value), convert(ty, b.value))
}

fn comparison(op: Op, a: Number, b: Number) -> Number
    ensures { result ≡ spec.comparison op a b }
{
    signed(common(op, a.unsigned || b.unsigned, a, b))
}

fn arithmetic(op: Op, a: Number, b: Number) -> Number
    ensures { result ≡ spec.arithmetic op a b }
{
    let unsigned = a.unsigned || b.unsigned;
    let value = common(op, unsigned, a, b);
    Number { unsigned, value }
}

pub(crate) fn binary(mark: Mark, a: Number, b: Number) -> Number
    ensures { result ≡ spec.binary mark a b }
{
    let op = mark.op();
    match mark {
        Mark::AndAnd | Mark::OrOr => logical(op, a, b),
        Mark::ShiftLeft | Mark::ShiftRight => shift(op, a, b),
        Mark::Less
        | Mark::Greater
        | Mark::LessEqual
        | Mark::GreaterEqual
        | Mark::Equal
        | Mark::NotEqual => comparison(op, a, b),
        _ => arithmetic(op, a, b),
    }
}

fn chosen(condition: Value, a: Value, b: Value) -> Value
    ensures { result ≡ spec.chosen condition a b }
{
    match condition {
        Value::Known(0) => b,
        Value::Known(_) => a,
        Value::Unknown => Value::Unknown,
        Value::Faulty(rule) => Value::Faulty(rule),
    }
}

pub(crate) fn choice(condition: Number, a: Number, b: Number) -> Number
    ensures { result ≡ spec.choice condition a b }
{
    let unsigned = a.unsigned || b.unsigned;
    let ty = type_of(unsigned);
    let value = chosen(condition.value, convert(ty, a.value), convert(ty, b.value));
    Number { unsigned, value }
}

// What a comma gives, of which this is the right operand.
pub(crate) fn comma(b: Number) -> Number
    ensures { result ≡ spec.comma b }
{
    Number {
        unsigned: b.unsigned,
        value: Value::Faulty(NOT_CONSTANT),
    }
}
