// The members of a JSON value.
ghost use Rattle.std.specs.Prelude.{◌≡◌, ◌≢◌, map, Ok, Err};
ghost use Rattle.std.specs.Option.{ok_or};
ghost use Rattle.std.specs.String.{string_bytes};
ghost use Rattle.serde_json.specs.Find.{get};
ghost use Rattle.serde_json.specs.View.{view};
ghost use Rattle.json_view.specs.Members.{text_of, object_of, array_of, bool_of, u32_of, i32_of, id_of, pos_of, range_of, line_and_character, start_and_end};
ghost use Rattle.json_view.specs.Refusals.{Missing, NoMemory, seen};

use crate::error::ViewError;
use crate::id::Id;
use crate::kinds::{array_in, bool_in, i32_in, id_in, text_in, u32_in};
use serde_json::Value;
use std::alloc::Global;
use text_lines::Pos;

/// The text that a member is, lent by the value.
pub fn get_str<'a>(value: &'a Value, key: &'static str) -> Result<&'a str, ViewError>
    ensures { seen (λ text. text.now) result ≡ text_of key.now (view value.now) }
{
    match value.get(key) {
        Some(member) => text_in(member, key),
        None => Err(ViewError::Missing(key)),
    }
}

/// A copy of the text that a member is.
pub fn get_text(alloc: Global, value: &Value, key: &'static str) -> Result<String, ViewError>
    ensures { seen string_bytes result ≢ Err NoMemory → seen string_bytes result ≡ text_of key.now (view value.now) }
{
    let text = get_str(value, key)?;
    Ok(String::from_str(alloc, text)?)
}

/// The object that a member is, lent by the value.
pub fn get_object<'a>(value: &'a Value, key: &'static str) -> Result<&'a Value, ViewError>
    ensures { seen (λ member. view member.now) result ≡ object_of key.now (view value.now) }
{
    let Some(member) = value.get(key) else {
        return Err(ViewError::Missing(key));
    };
    if !member.is_object() {
        return Err(ViewError::WrongKind(key));
    }
    Ok(member)
}

/// The elements of the array that a member is, lent by the value.
pub fn get_array<'a>(value: &'a Value, key: &'static str) -> Result<&'a [Value], ViewError>
    ensures { seen (λ elements. map view elements.now) result ≡ array_of key.now (view value.now) }
{
    match value.get(key) {
        Some(member) => array_in(member, key),
        None => Err(ViewError::Missing(key)),
    }
}

/// The truth value that a member is.
pub fn get_bool(value: &Value, key: &'static str) -> Result<bool, ViewError>
    ensures { seen (λ b. b) result ≡ bool_of key.now (view value.now) }
{
    match value.get(key) {
        Some(member) => bool_in(member, key),
        None => Err(ViewError::Missing(key)),
    }
}

/// The whole number from 0 to 2^32 - 1 that a member is.
pub fn get_u32(value: &Value, key: &'static str) -> Result<u32, ViewError>
    ensures { seen (λ n. n) result ≡ u32_of key.now (view value.now) }
{
    match value.get(key) {
        Some(member) => u32_in(member, key),
        None => Err(ViewError::Missing(key)),
    }
}

/// The whole number from -2^31 to 2^31 - 1 that a member is.
pub fn get_i32(value: &Value, key: &'static str) -> Result<i32, ViewError>
    ensures { seen (λ z. z) result ≡ i32_of key.now (view value.now) }
{
    match value.get(key) {
        Some(member) => i32_in(member, key),
        None => Err(ViewError::Missing(key)),
    }
}

/// The position that a member is (LSP 3.17, Position): its `line` is read before its `character`, and a refusal of one of
/// these carries that key.
#[tactic(auto, unfolding(crate::specs::Members::pos_of))]
pub fn get_pos(value: &Value, key: &'static str) -> Result<Pos, ViewError>
    ensures { seen (λ pos. pos) result ≡ pos_of key.now (view value.now) }
{
    let Some(member) = value.get(key) else {
        return Err(ViewError::Missing(key));
    };
    if !member.is_object() {
        return Err(ViewError::WrongKind(key));
    }
    line_and_character(member)
}

#[tactic(auto, unfolding(crate::specs::Members::line_and_character))]
fn line_and_character(value: &Value) -> Result<Pos, ViewError>
    ensures { seen (λ pos. pos) result ≡ line_and_character (view value.now) }
{
    let line = get_u32(value, "line")?;
    let character = get_u32(value, "character")?;
    Ok(Pos { line, character })
}

/// The range that a member is (LSP 3.17, Range), as its start and its end: its `start` is read before its `end`, and a refusal
/// of a member within it carries that member's key.
#[tactic(auto, unfolding(crate::specs::Members::range_of))]
pub fn get_range(value: &Value, key: &'static str) -> Result<(Pos, Pos), ViewError>
    ensures { seen (λ range. range) result ≡ range_of key.now (view value.now) }
{
    let Some(member) = value.get(key) else {
        return Err(ViewError::Missing(key));
    };
    if !member.is_object() {
        return Err(ViewError::WrongKind(key));
    }
    start_and_end(member)
}

#[tactic(auto, unfolding(crate::specs::Members::start_and_end))]
fn start_and_end(value: &Value) -> Result<(Pos, Pos), ViewError>
    ensures { seen (λ range. range) result ≡ start_and_end (view value.now) }
{
    let start = get_pos(value, "start")?;
    let end = get_pos(value, "end")?;
    Ok((start, end))
}

/// The id that the member `id` is (JSON-RPC 2.0, section 4): a text or a whole number of 64 bits.
pub fn get_id(alloc: Global, value: &Value) -> Result<Id, ViewError>
    ensures { seen (λ id. id) result ≢ Err NoMemory → seen (λ id. id) result ≡ id_of (view value.now) }
{
    match value.get("id") {
        Some(member) => id_in(alloc, member),
        None => Err(ViewError::Missing("id")),
    }
}
