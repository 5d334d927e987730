// Kinds of constants (ISO C11 6.6).
ghost use Rattle.std.specs.Prelude.{◌≡◌};
ghost use Rattle.type_rel.specs.Constancies as spec;

use type_data::{Constancy, Value};

/// It is in the range of its type, as far as it is told.
pub fn is_told(value: Value) -> bool
    ensures { result ≡ spec.is_told value }
{
    match value {
        Value::Faulty(_) => false,
        Value::Known(_) => true,
        Value::Unknown => true,
    }
}

/// An operand of an arithmetic constant expression may have this constancy (6.6p8); one that is out of range leaves none.
pub fn is_arith(constant: Constancy) -> bool
    ensures { result ≡ spec.is_arith constant }
{
    match constant {
        Constancy::Int(value) => is_told(value),
        Constancy::Arith => true,
        Constancy::No => false,
        Constancy::Addr => false,
        Constancy::Null => false,
    }
}

/// An address constant (6.6p9); a null pointer is one.
pub fn is_address(constant: Constancy) -> bool
    ensures { result ≡ spec.is_address constant }
{
    match constant {
        Constancy::Addr => true,
        Constancy::Null => true,
        Constancy::No => false,
        Constancy::Arith => false,
        Constancy::Int(_) => false,
    }
}
