// The kind of a content: a JSON-RPC 2.0 message.
ghost use Rattle.std.specs.Prelude.{◌≡◌, option_map, IfOk};
ghost use Rattle.std.specs.Result.{result_ok};
ghost use Rattle.serde_json.specs.View.{view};
ghost use Rattle.json_view.specs.Members.{id_of};
ghost use Rattle.c_session.specs.Message.{value_of, of_value, of_read};
ghost use Rattle.c_session.specs.Ties.Seen.{seen};

use json_view::{Id, ViewError, get_id};
use serde_json::Value;
use std::alloc::{AllocError, Global};

/// The kind of a content.
#[derive(Drop)]
pub enum Message<'a> {
    NotJson,
    Batch,
    NotObject,
    Ignored,
    BadId,
    BadMethod(Option<Id>),
    Notification {
        method: &'a str,
        params: Option<&'a Value>,
    },
    Request {
        id: Id,
        method: &'a str,
        params: Option<&'a Value>,
    },
}

/// The value of a content, None where it isn't UTF-8 or no JSON value is read from it.
pub fn read_content(alloc: Global, content: &[u8]) -> Result<Option<Value>, AllocError>
    ensures { IfOk result (λ o. option_map view o ≡ value_of content.now) }
{
    match Value::from_slice(alloc, content) {
        Ok(value) => Ok(Some(value)),
        Err(error) => {
            if error.is_memory() {
                Err(AllocError)
            } else {
                Ok(None)
            }
        }
    }
}

/// The id that a value has, None where it has none that is a text or a whole number of 64 bits.
fn id_of(alloc: Global, value: &Value) -> Result<Option<Id>, AllocError>
    ensures { IfOk result (λ id. id ≡ result_ok (id_of (view value.now))) }
{
    match get_id(alloc, value) {
        Ok(id) => Ok(Some(id)),
        Err(ViewError::Missing(_)) => Ok(None),
        Err(ViewError::WrongKind(_)) => Ok(None),
        Err(ViewError::OutOfRange(_)) => Ok(None),
        Err(ViewError::NoMemory) => Err(AllocError),
    }
}

/// The kind of a value (JSON-RPC 2.0, sections 4 to 6).
#[tactic(auto, unfolding(crate::specs::Message::of_value))]
fn kind_of<'a>(alloc: Global, value: &'a Value) -> Result<Message<'a>, AllocError>
    ensures { IfOk result (λ message. seen message ≡ of_value (view value.now)) }
{
    if value.is_array() {
        return Ok(Message::Batch);
    }
    if !value.is_object() {
        return Ok(Message::NotObject);
    }
    let Some(method) = value.get("method") else {
        return Ok(Message::Ignored);
    };
    let params = value.get("params");
    if value.get("id").is_none() {
        let Some(method) = method.as_str() else {
            return Ok(Message::BadMethod(None));
        };
        return Ok(Message::Notification { method, params });
    }
    let Some(id) = id_of(alloc, value)? else {
        return Ok(Message::BadId);
    };
    let Some(method) = method.as_str() else {
        return Ok(Message::BadMethod(Some(id)));
    };
    Ok(Message::Request { id, method, params })
}

/// The kind of the content whose value this is.
pub fn message_of<'a>(alloc: Global, value: &'a Option<Value>) -> Result<Message<'a>, AllocError>
    ensures { IfOk result (λ message. seen message ≡ of_read (option_map view value.now)) }
{
    match value {
        None => Ok(Message::NotJson),
        Some(value) => kind_of(alloc, value),
    }
}
