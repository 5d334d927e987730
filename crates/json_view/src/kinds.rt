// JSON values as texts, arrays, numbers, truth values and ids.
ghost use Rattle.std.specs.Prelude.{◌≡◌, ◌≢◌, map, Err};
ghost use Rattle.serde_json.specs.View.{view};
ghost use Rattle.json_view.specs.Kinds.{text_in, array_in, bool_in, u32_in, i32_in, id_in};
ghost use Rattle.json_view.specs.Refusals.{NoMemory, seen};

use crate::error::ViewError;
use crate::id::{Id, IdText};
use serde_json::Value;
use std::alloc::Global;

pub(crate) fn text_in<'a>(value: &'a Value, key: &'static str) -> Result<&'a str, ViewError>
    ensures { seen (λ text. text.now) result ≡ text_in key.now (view value.now) }
{
    let Some(text) = value.as_str() else {
        return Err(ViewError::WrongKind(key));
    };
    Ok(text)
}

#[tactic(auto, using(crate::proofs::Elements::elements_viewed))]
pub(crate) fn array_in<'a>(value: &'a Value, key: &'static str) -> Result<&'a [Value], ViewError>
    ensures { seen (λ elements. map view elements.now) result ≡ array_in key.now (view value.now) }
{
    let Some(elements) = value.as_array() else {
        return Err(ViewError::WrongKind(key));
    };
    Ok(elements.as_slice())
}

pub(crate) fn bool_in(value: &Value, key: &'static str) -> Result<bool, ViewError>
    ensures { seen (λ b. b) result ≡ bool_in key.now (view value.now) }
{
    let Some(truth) = value.as_bool() else {
        return Err(ViewError::WrongKind(key));
    };
    Ok(truth)
}

pub(crate) fn u32_in(value: &Value, key: &'static str) -> Result<u32, ViewError>
    ensures { seen (λ n. n) result ≡ u32_in key.now (view value.now) }
{
    if let Some(number) = value.as_u64() {
        if number > 0xffff_ffff {
            return Err(ViewError::OutOfRange(key));
        }
        return Ok(number as u32);
    }
    if value.is_i64() {
        return Err(ViewError::OutOfRange(key));
    }
    Err(ViewError::WrongKind(key))
}

pub(crate) fn i32_in(value: &Value, key: &'static str) -> Result<i32, ViewError>
    ensures { seen (λ z. z) result ≡ i32_in key.now (view value.now) }
{
    if let Some(number) = value.as_i64() {
        if number < -0x8000_0000 || number > 0x7fff_ffff {
            return Err(ViewError::OutOfRange(key));
        }
        return Ok(number as i32);
    }
    if value.is_u64() {
        return Err(ViewError::OutOfRange(key));
    }
    Err(ViewError::WrongKind(key))
}

pub(crate) fn id_in(alloc: Global, value: &Value) -> Result<Id, ViewError>
    ensures { seen (λ id. id) result ≢ Err NoMemory → seen (λ id. id) result ≡ id_in (view value.now) }
{
    if let Some(text) = value.as_str() {
        let text = String::from_str(alloc, text)?;
        return Ok(Id::Text(IdText::from_string(text)));
    }
    if let Some(number) = value.as_i64() {
        return Ok(Id::Int(number));
    }
    if let Some(number) = value.as_u64() {
        return Ok(Id::Big(number));
    }
    Err(ViewError::WrongKind("id"))
}
