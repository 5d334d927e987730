// Alignment specifiers (ISO C11 6.7.5).
ghost use Rattle.std.specs.Prelude.{◌≡◌};
ghost use Rattle.decl_rules.specs.Alignment as spec;

use crate::parts::DeclParts;
use crate::sorts::{is_object, is_register};
use type_data::{Tags, Value};
use type_rel::size_align;

fn is_alignable(decl: &DeclParts) -> bool
    ensures { result ≡ spec.is_alignable decl.now }
{
    is_object(decl) && !is_register(decl.storage)
}

fn is_less_strict(value: u128, own: Option<(u64, u64)>) -> bool
    ensures { result ≡ spec.is_less_strict value own }
{
    match own {
        Some((_, align)) => value < u128::from(align),
        None => false,
    }
}

fn is_no_alignment(value: i128, own: Option<(u64, u64)>) -> bool
    ensures { result ≡ spec.is_no_alignment value own }
{
    if value < 0 {
        return true;
    }
    let value = value as u128;
    if value == 0 {
        return false;
    }
    !value.is_power_of_two() || is_less_strict(value, own)
}

fn is_bad_value(value: Value, own: Option<(u64, u64)>) -> bool
    ensures { result ≡ spec.is_bad_value value own }
{
    match value {
        Value::Known(number) => is_no_alignment(number, own),
        Value::Unknown | Value::Faulty(_) => false,
    }
}

pub(crate) fn has_bad_alignment(decl: &DeclParts, tags: &Tags) -> bool
    ensures { result ≡ spec.has_bad_alignment decl.now tags.now }
{
    match decl.align {
        Some(value) => !is_alignable(decl) || is_bad_value(value, size_align(&decl.ty, tags)),
        None => false,
    }
}
