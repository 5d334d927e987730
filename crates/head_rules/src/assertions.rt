// Static assertions (ISO C11 6.7.10).
ghost use Rattle.std.specs.Prelude.{◌≡◌, ◌++◌, IfOk, OnOk};
ghost use Rattle.std.specs.String.{string_bytes};
ghost use Rattle.head_rules.specs.Assertions as spec;

use crate::faults::of_name;
use shared_text::Name;
use std::alloc::{AllocError, Global};
use type_data::{Fault, Value};

fn is_zero(number: i128) -> bool
    ensures { result ≡ spec.is_zero number }
{
    if number < 0 {
        return false;
    }
    number as u128 == 0
}

fn fails(value: Value) -> bool
    ensures { result ≡ spec.fails value }
{
    match value {
        Value::Known(number) => is_zero(number),
        Value::Unknown => false,
        Value::Faulty(_) => false,
    }
}

fn add_all(out: &mut String, pieces: &[Name]) -> Result<(), AllocError>
    ensures { OnOk result (string_bytes out.new ≡ string_bytes out.old ++ spec.behind pieces.now) }
{
    let mut rest = pieces;
    'pieces: while let Some((piece, others)) = rest.split_first() {
        out.push_str(" ")?;
        out.push_str(piece.as_str())?;
        rest = others;
    }
    Ok(())
}

// The spellings of the pieces of a string, with a space between two.
fn joined(alloc: Global, pieces: &[Name]) -> Result<String, AllocError>
    ensures { IfOk result (λ s. string_bytes s ≡ spec.joined pieces.now) }
{
    let mut out = String::new(alloc);
    if let Some((piece, others)) = pieces.split_first() {
        out.push_str(piece.as_str())?;
        add_all(&mut out, others)?;
    }
    Ok(out)
}

fn text_of(alloc: Global, pieces: &[Name]) -> Result<Name, AllocError>
    ensures { IfOk result (λ n. n ≡ spec.joined pieces.now) }
{
    let text = joined(alloc, pieces)?;
    Name::from_str(alloc, text.as_str())
}

/// The fault of a static assertion (ISO C11 6.7.10p3), whose keyword has the number `at`, whose string has these pieces as they are
/// spelled, and whose expression has this value; none where it has a fault, which was told. It is 429 where the value is 0; a value
/// that isn't told is none. Its cost is linear in the spellings.
pub fn assertion(
    alloc: Global,
    at: u32,
    pieces: &[Name],
    value: Option<Value>,
) -> Result<Option<Fault>, AllocError>
    ensures { IfOk result (λ f. f ≡ spec.assertion at pieces.now value) }
{
    let Some(value) = value else {
        return Ok(None);
    };
    if !fails(value) {
        return Ok(None);
    }
    let text = text_of(alloc, pieces)?;
    let fault = of_name(alloc, 429, at, &text)?;
    Ok(Some(fault))
}
