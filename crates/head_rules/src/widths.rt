// Widths of bit-fields (ISO C11 6.7.2.1p4, p5, p12).
ghost use Rattle.std.specs.Prelude.{◌≡◌, ◌≤◌};
ghost use Rattle.head_rules.specs.Widths as spec;

use type_data::{IntTy, Value};

fn object_bits(int: IntTy) -> u32
    ensures value { result ≡ spec.object_bits int }
    ensures most { result ≤ 64 }
{
    let width = int.width();
    if width < 8 { 8 } else { width }
}

fn of_number(int: IntTy, named: bool, number: i128) -> Option<u8>
    ensures { result ≡ spec.of_number int named number }
{
    if number < 0 {
        return None;
    }
    let number = number as u128;
    if number <= u128::from(int.width()) && !(named && number == 0) {
        return Some(number as u8);
    }
    None
}

fn of_value(int: IntTy, named: bool, value: Value) -> Option<u8>
    ensures { result ≡ spec.of_value int named value }
{
    match value {
        Value::Known(number) => of_number(int, named, number),
        Value::Unknown => Some(object_bits(int) as u8),
        Value::Faulty(_) => Some(object_bits(int) as u8),
    }
}

// The width; none where it is refused.
pub(crate) fn bit_width(int: Option<IntTy>, named: bool, value: Value) -> Option<u8>
    ensures { result ≡ spec.bit_width int named value }
{
    match int {
        Some(int) => of_value(int, named, value),
        None => None,
    }
}
