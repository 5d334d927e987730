// The bytes of each answer: a JSON-RPC 2.0 message behind its header (LSP 3.17, base protocol).
ghost use Rattle.std.specs.Prelude.{◌≡◌, ◌++◌, false, option_map, IfOk, OnOk};
ghost use Rattle.frame_form.specs.Written.{framed};
ghost use Rattle.serde_json.specs.View.{view};
ghost use Rattle.serde_json.specs.Written.{has_float, compact_text};
ghost use Rattle.lsp_answers.specs.Replies.{id_data, id_or_null, response_data, error_data, log_data, response, error, log, encoding_name, rename_provider, initialize_result};

use crate::framing::{framed, push_framed};
use json_view::Id;
use serde_json::{Value, json};
use std::alloc::{AllocError, Global};
use text_lines::Encoding;

pub(crate) fn id_value(alloc: Global, id: &Id) -> Result<Value, AllocError>
    ensures { IfOk result (λ v. view v ≡ id_data id.now) }
{
    match id {
        Id::Text(text) => {
            let text = String::from_str(alloc, text.as_str())?;
            Ok(Value::String(text))
        }
        Id::Int(number) => Ok(Value::from(*number)),
        Id::Big(number) => Ok(Value::from(*number)),
    }
}

/// The id's value, null where there is none.
fn id_or_null(alloc: Global, id: Option<&Id>) -> Result<Value, AllocError>
    ensures { IfOk result (λ v. view v ≡ id_or_null (option_map (λ i. i.now) id.entry)) }
{
    match id {
        Some(id) => {
            let value = id_value(alloc, id)?;
            Ok(value)
        }
        None => Ok(Value::Null),
    }
}

/// The text of a value behind its header.
fn written(alloc: Global, value: &Value) -> Result<Vec<u8>, AllocError>
    requires { has_float (view value.now) ≡ false }
    ensures { IfOk result (λ v. v.items ≡ framed (compact_text (view value.now))) }
{
    let text = value.to_string(alloc)?;
    framed(alloc, text.as_str())
}

fn response_value(alloc: Global, id: Value, answer: Value) -> Result<Value, AllocError>
    ensures { IfOk result (λ v. view v ≡ response_data (view id) (view answer)) }
{
    json!(in alloc; {"id": id, "jsonrpc": "2.0", "result": answer})
}

/// A response with a result.
#[tactic(auto, unfolding(crate::specs::Replies::response), using(crate::proofs::Floats::response_has_none))]
pub fn response(alloc: Global, id: &Id, answer: Value) -> Result<Vec<u8>, AllocError>
    requires { has_float (view answer) ≡ false }
    ensures { IfOk result (λ v. v.items ≡ response id.now (view answer)) }
{
    let id = id_value(alloc, id)?;
    let value = response_value(alloc, id, answer)?;
    written(alloc, &value)
}

fn error_value(alloc: Global, id: Value, code: i32, text: &str) -> Result<Value, AllocError>
    ensures { IfOk result (λ v. view v ≡ error_data (view id) code text.now) }
{
    json!(in alloc; {"error": {"code": code, "message": text}, "id": id, "jsonrpc": "2.0"})
}

/// A response with an error: its code and its text.
#[tactic(auto, unfolding(crate::specs::Replies::error), using(crate::proofs::Floats::error_has_none))]
pub fn error(alloc: Global, id: Option<&Id>, code: i32, text: &str) -> Result<Vec<u8>, AllocError>
    ensures { IfOk result (λ v. v.items ≡ error (option_map (λ i. i.now) id.entry) code text.now) }
{
    let id = id_or_null(alloc, id)?;
    let value = error_value(alloc, id, code, text)?;
    written(alloc, &value)
}

fn log_value(alloc: Global, text: &str) -> Result<Value, AllocError>
    ensures { IfOk result (λ v. view v ≡ log_data text.now) }
{
    json!(in alloc; {"jsonrpc": "2.0", "method": "window/logMessage", "params": {"message": text, "type": 1u8}})
}

/// Writes the notification `window/logMessage` of type 1, an error, behind what is written.
#[tactic(auto, unfolding(crate::specs::Replies::log))]
pub fn push_log(alloc: Global, out: &mut Vec<u8>, text: &str) -> Result<(), AllocError>
    ensures { OnOk result (out.new.items ≡ out.old.items ++ log text.now) }
{
    let value = log_value(alloc, text)?;
    let content = value.to_string(alloc)?;
    push_framed(alloc, out, content.as_str())?;
    Ok(())
}

/// The notification `window/logMessage` of type 1, an error.
pub fn log(alloc: Global, text: &str) -> Result<Vec<u8>, AllocError>
    ensures { IfOk result (λ v. v.items ≡ log text.now) }
{
    let mut out = Vec::new(alloc);
    push_log(alloc, &mut out, text)?;
    Ok(out)
}

/// The name of a position encoding (LSP 3.17, PositionEncodingKind).
fn encoding_name(encoding: Encoding) -> &'static str
    ensures { result.now ≡ encoding_name encoding }
{
    match encoding {
        Encoding::Utf8 => "utf-8",
        Encoding::Utf16 => "utf-16",
        Encoding::Utf32 => "utf-32",
    }
}

fn rename_provider(alloc: Global, prepare: bool) -> Result<Value, AllocError>
    ensures { IfOk result (λ v. view v ≡ rename_provider prepare) }
{
    if prepare {
        return json!(in alloc; {"prepareProvider": true});
    }
    Ok(Value::Bool(true))
}

/// The result of `initialize` (LSP 3.17, InitializeResult), for a client that can ask whether a name may be renamed or that can't.
pub fn initialize_result(
    alloc: Global,
    encoding: Encoding,
    prepare: bool,
) -> Result<Value, AllocError>
    ensures { IfOk result (λ v. view v ≡ initialize_result encoding prepare) }
{
    let name = encoding_name(encoding);
    let rename = rename_provider(alloc, prepare)?;
    json!(in alloc; {"capabilities": {"definitionProvider": true, "documentSymbolProvider": true, "hoverProvider": true, "positionEncoding": name, "referencesProvider": true, "renameProvider": rename, "textDocumentSync": {"change": 2u8, "openClose": true}}})
}
