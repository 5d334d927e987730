// JSON values as their texts, so that no tree is made of what is long.
ghost use Rattle.std.specs.Prelude.{◌≡◌, string_bytes, IfOk, false};
ghost use Rattle.serde_json.specs.View.{view};
ghost use Rattle.serde_json.specs.Written.{has_float, compact_text};
ghost use Rattle.lsp_answers.specs.Replies.{id_data, IsResponse};
ghost use Rattle.lsp_answers.specs.Ties.Around.{response_text};

use crate::framing::framed;
use crate::replies::id_value;
use json_view::Id;
use serde_json::Value;
use std::alloc::{AllocError, Global};
use std::marker::Model;

/// A JSON value as its compact text (RFC 8259). Contracts see the text's bytes.
#[derive(Drop)]
pub struct JsonText {
    text: String,
}

impl Model for JsonText {
    ghost use Rattle.std.specs.Prelude.{List, ℕ, string_bytes};

    ghost Value = { List ℕ };

    ghost view = { λ t. string_bytes t.text };
}

impl JsonText {
    /// The text of a value.
    pub fn of(alloc: Global, value: &Value) -> Result<JsonText, AllocError>
        requires { has_float (view value.now) ≡ false }
        ensures { IfOk result (λ t. t ≡ compact_text (view value.now)) }
    {
        let text = value.to_string(alloc)?;
        Ok(JsonText { text })
    }

    /// So much text, that a value was written to.
    pub(crate) fn written(text: String) -> JsonText
        ensures { result ≡ string_bytes text }
    {
        JsonText { text }
    }

    /// The text.
    pub fn as_str(&self) -> &str
        ensures { result.now ≡ self.now }
    {
        self.text.as_str()
    }
}

/// The text of an id.
#[tactic(auto, using(crate::proofs::Floats::id_has_none))]
fn id_text(alloc: Global, id: &Id) -> Result<String, AllocError>
    ensures { IfOk result (λ s. string_bytes s ≡ compact_text (id_data id.now)) }
{
    let value = id_value(alloc, id)?;
    value.to_string(alloc)
}

#[tactic(auto, unfolding(crate::specs::Ties::Around::response_start))]
fn response_content(alloc: Global, id: &Id, answer: &str) -> Result<String, AllocError>
    ensures { IfOk result (λ s. string_bytes s ≡ response_text id.now answer.now) }
{
    let id = id_text(alloc, id)?;
    let mut content = String::from_str(alloc, "{\"id\":")?;
    content.push_str(id.as_str())?;
    content.push_str(",\"jsonrpc\":\"2.0\",\"result\":")?;
    content.push_str(answer)?;
    content.push_str("}")?;
    Ok(content)
}

/// A response with a result whose text is written.
pub fn response_of(alloc: Global, id: &Id, answer: &JsonText) -> Result<Vec<u8>, AllocError>
    ensures { IfOk result (λ v. IsResponse id.now answer.now v.items) }
{
    let content = response_content(alloc, id, answer.as_str())?;
    let bytes = framed(alloc, content.as_str())?;
    Ok(bytes)
}
