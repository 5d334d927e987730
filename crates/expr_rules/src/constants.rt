// What kind of constant an expression is, by its operands (ISO C11 6.6).
ghost use Rattle.std.specs.Prelude.{◌≡◌};
ghost use Rattle.expr_rules.specs.Constants as spec;

use c_literals::{Op, convert, value_op};
use type_data::{CType, Constancy, IntTy, Value};
use type_rel::{integer_type, is_address, is_arith, is_told};

#[tactic(auto, unfolding(crate::specs::Constants::result_of))]
pub(crate) fn result_of(op: Op, ty: IntTy, left: Value, right: Value) -> Value
    ensures { result ≡ spec.result_of op ty left right }
{
    value_op(op, ty, left, right)
}

/// A value brought to a type.
#[tactic(auto, unfolding(crate::specs::Constants::brought))]
pub(crate) fn brought(ty: IntTy, value: Value) -> Value
    ensures { result ≡ spec.brought ty value }
{
    convert(ty, value)
}

fn int_value(constant: Constancy) -> Option<Value>
    ensures { result ≡ spec.int_value constant }
{
    match constant {
        Constancy::Int(value) => Some(value),
        Constancy::No => None,
        Constancy::Arith => None,
        Constancy::Addr => None,
        Constancy::Null => None,
    }
}

pub(crate) fn arith_if(holds: bool) -> Constancy
    ensures { result ≡ spec.arith_if holds }
{
    if holds {
        Constancy::Arith
    } else {
        Constancy::No
    }
}

fn unary_at(op: Op, ty: Option<IntTy>, value: Option<Value>, c: Constancy) -> Constancy
    ensures { result ≡ spec.unary_at op ty value c }
{
    match ty {
        Some(ty) => match value {
            Some(value) => Constancy::Int(result_of(op, ty, brought(ty, value), Value::Unknown)),
            None => arith_if(is_arith(c)),
        },
        None => arith_if(is_arith(c)),
    }
}

/// A unary operator at its promoted type.
#[tactic(auto, unfolding(crate::specs::Constants::unary))]
pub(crate) fn unary(op: Op, ty: &CType, c: Constancy) -> Constancy
    ensures { result ≡ spec.unary op ty.now c }
{
    unary_at(op, integer_type(ty), int_value(c), c)
}

fn binary_at(
    op: Op,
    ty: Option<IntTy>,
    left: Option<Value>,
    right: Option<Value>,
    c: Constancy,
    d: Constancy,
) -> Constancy
    ensures { result ≡ spec.binary_at op ty left right c d }
{
    let Some(ty) = ty else {
        return arith_if(is_arith(c) && is_arith(d));
    };
    let Some(left) = left else {
        return arith_if(is_arith(c) && is_arith(d));
    };
    let Some(right) = right else {
        return arith_if(is_arith(c) && is_arith(d));
    };
    Constancy::Int(result_of(op, ty, brought(ty, left), brought(ty, right)))
}

/// A binary operator whose operands are brought to this type.
#[tactic(auto, unfolding(crate::specs::Constants::binary))]
pub(crate) fn binary(op: Op, ty: &CType, c: Constancy, d: Constancy) -> Constancy
    ensures { result ≡ spec.binary op ty.now c d }
{
    binary_at(op, integer_type(ty), int_value(c), int_value(d), c, d)
}

fn shift_at(
    op: Op,
    ty: Option<IntTy>,
    left: Option<Value>,
    right: Option<Value>,
    c: Constancy,
    d: Constancy,
) -> Constancy
    ensures { result ≡ spec.shift_at op ty left right c d }
{
    let Some(ty) = ty else {
        return arith_if(is_arith(c) && is_arith(d));
    };
    let Some(left) = left else {
        return arith_if(is_arith(c) && is_arith(d));
    };
    let Some(right) = right else {
        return arith_if(is_arith(c) && is_arith(d));
    };
    Constancy::Int(result_of(op, ty, brought(ty, left), right))
}

#[tactic(auto, unfolding(crate::specs::Constants::shift))]
pub(crate) fn shift(op: Op, ty: &CType, c: Constancy, d: Constancy) -> Constancy
    ensures { result ≡ spec.shift op ty.now c d }
{
    shift_at(op, integer_type(ty), int_value(c), int_value(d), c, d)
}

fn logical_at(
    op: Op,
    left: Option<Value>,
    right: Option<Value>,
    c: Constancy,
    d: Constancy,
) -> Constancy
    ensures { result ≡ spec.logical_at op left right c d }
{
    let Some(left) = left else {
        return arith_if(is_arith(c) && is_arith(d));
    };
    let Some(right) = right else {
        return arith_if(is_arith(c) && is_arith(d));
    };
    Constancy::Int(result_of(op, IntTy::Int, left, right))
}

#[tactic(auto, unfolding(crate::specs::Constants::logical))]
pub(crate) fn logical(op: Op, c: Constancy, d: Constancy) -> Constancy
    ensures { result ≡ spec.logical op c d }
{
    logical_at(op, int_value(c), int_value(d), c, d)
}

fn chosen(ty: IntTy, test: Value, left: Value, right: Value) -> Value
    ensures { result ≡ spec.chosen ty test left right }
{
    match test {
        Value::Known(number) => {
            if number == 0 {
                brought(ty, right)
            } else {
                brought(ty, left)
            }
        }
        Value::Unknown => Value::Unknown,
        Value::Faulty(rule) => Value::Faulty(rule),
    }
}

fn is_number(c: Constancy) -> bool
    ensures { result ≡ spec.is_number c }
{
    match c {
        Constancy::Int(_) | Constancy::Arith => true,
        Constancy::No | Constancy::Addr | Constancy::Null => false,
    }
}

fn evaluated(test: i128, d: Constancy, e: Constancy) -> Constancy
    ensures { result ≡ spec.evaluated test d e }
{
    if test == 0 { e } else { d }
}

fn left_out(test: i128, d: Constancy, e: Constancy) -> Constancy
    ensures { result ≡ spec.left_out test d e }
{
    if test == 0 { d } else { e }
}

// Where no value is told: the operand that isn't evaluated may be out of range.
fn arith_choice(test: Option<Value>, c: Constancy, d: Constancy, e: Constancy) -> Constancy
    ensures { result ≡ spec.arith_choice test c d e }
{
    match test {
        Some(Value::Known(n)) => arith_if(
            is_arith(evaluated(n, d, e)) && is_number(left_out(n, d, e)),
        ),
        _ => arith_if(is_arith(c) && is_arith(d) && is_arith(e)),
    }
}

fn choice_at(
    ty: Option<IntTy>,
    values: (Option<Value>, Option<Value>, Option<Value>),
    c: Constancy,
    d: Constancy,
    e: Constancy,
) -> Constancy
    ensures { result ≡ spec.choice_at ty values.0 values.1 values.2 c d e }
{
    let Some(ty) = ty else {
        return arith_choice(values.0, c, d, e);
    };
    let Some(test) = values.0 else {
        return arith_choice(values.0, c, d, e);
    };
    let Some(left) = values.1 else {
        return arith_choice(values.0, c, d, e);
    };
    let Some(right) = values.2 else {
        return arith_choice(values.0, c, d, e);
    };
    Constancy::Int(chosen(ty, test, left, right))
}

/// `?:`, whose second and third operands are brought to this type.
#[tactic(auto, unfolding(crate::specs::Constants::choice))]
pub(crate) fn choice(ty: &CType, c: Constancy, d: Constancy, e: Constancy) -> Constancy
    ensures { result ≡ spec.choice ty.now c d e }
{
    let values = (int_value(c), int_value(d), int_value(e));
    choice_at(integer_type(ty), values, c, d, e)
}

fn settled_at(ty: Option<IntTy>, constant: Constancy) -> Constancy
    ensures { result ≡ spec.settled_at ty constant }
{
    match (ty, constant) {
        (None, Constancy::Int(_)) => Constancy::Arith,
        _ => constant,
    }
}

/// A floating constant's constancy where it doesn't stand alone, and any other as it is.
#[tactic(auto, unfolding(crate::specs::Constants::settled))]
pub(crate) fn settled(ty: &CType, constant: Constancy) -> Constancy
    ensures { result ≡ spec.settled ty.now constant }
{
    settled_at(integer_type(ty), constant)
}

fn is_counted(value: Option<Value>) -> bool
    ensures { result ≡ spec.is_counted value }
{
    match value {
        None => false,
        Some(value) => is_told(value),
    }
}

/// An address constant plus or minus an integer.
#[tactic(auto, unfolding(crate::specs::Constants::moved))]
pub(crate) fn moved(c: Constancy, d: Constancy) -> Constancy
    ensures { result ≡ spec.moved c d }
{
    if is_address(c) && is_counted(int_value(d)) {
        Constancy::Addr
    } else {
        Constancy::No
    }
}

/// An address that is constant stays one where nothing is read.
pub(crate) fn address_if(c: Constancy) -> Constancy
    ensures { result ≡ spec.address_if c }
{
    if is_address(c) {
        Constancy::Addr
    } else {
        Constancy::No
    }
}
