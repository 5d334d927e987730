// The messages of a client (JSON-RPC 2.0, LSP 3.17), each as a content.
ghost use Rattle.std.specs.Prelude.{◌≡◌, false, string_bytes, IfOk};
ghost use Rattle.serde_json.specs.View.{view};
ghost use Rattle.serde_json.specs.Written.{has_float, compact_text};
ghost use Rattle.gen_project.specs.Script as spec;

use serde_json::{Value, json};
use std::alloc::{AllocError, Global};

fn written(alloc: Global, value: &Value) -> Result<String, AllocError>
    requires { has_float (view value.now) ≡ false }
    ensures { IfOk result (λ text. string_bytes text ≡ compact_text (view value.now)) }
{
    value.to_string(alloc)
}

fn initialize_value(alloc: Global) -> Result<Value, AllocError>
    ensures { IfOk result (λ v. view v ≡ spec.initialize) }
{
    json!(in alloc; {"id": 1u8, "jsonrpc": "2.0", "method": "initialize", "params": {"capabilities": {}, "processId": null, "rootUri": null}})
}

/// The request `initialize` of a client that tells nothing of itself, without a root.
pub(crate) fn initialize(alloc: Global) -> Result<String, AllocError>
    ensures { IfOk result (λ text. string_bytes text ≡ compact_text spec.initialize) }
{
    let value = initialize_value(alloc)?;
    written(alloc, &value)
}

fn initialized_value(alloc: Global) -> Result<Value, AllocError>
    ensures { IfOk result (λ v. view v ≡ spec.initialized) }
{
    json!(in alloc; {"jsonrpc": "2.0", "method": "initialized", "params": {}})
}

pub(crate) fn initialized(alloc: Global) -> Result<String, AllocError>
    ensures { IfOk result (λ text. string_bytes text ≡ compact_text spec.initialized) }
{
    let value = initialized_value(alloc)?;
    written(alloc, &value)
}

fn did_open_value(alloc: Global, uri: &str, text: &str) -> Result<Value, AllocError>
    ensures { IfOk result (λ v. view v ≡ spec.did_open uri.now text.now) }
{
    json!(in alloc; {"jsonrpc": "2.0", "method": "textDocument/didOpen", "params": {"textDocument": {"languageId": "c", "text": text, "uri": uri, "version": 1u8}}})
}

/// The notification `textDocument/didOpen`.
pub(crate) fn did_open(alloc: Global, uri: &str, text: &str) -> Result<String, AllocError>
    ensures { IfOk result (λ content. string_bytes content ≡ compact_text (spec.did_open uri.now text.now)) }
{
    let value = did_open_value(alloc, uri, text)?;
    written(alloc, &value)
}

fn did_change_value(alloc: Global, uri: &str, text: &str) -> Result<Value, AllocError>
    ensures { IfOk result (λ v. view v ≡ spec.did_change uri.now text.now) }
{
    json!(in alloc; {"jsonrpc": "2.0", "method": "textDocument/didChange", "params": {"contentChanges": [{"text": text}], "textDocument": {"uri": uri, "version": 2u8}}})
}

/// The notification `textDocument/didChange` that replaces a whole text.
pub(crate) fn did_change(alloc: Global, uri: &str, text: &str) -> Result<String, AllocError>
    ensures { IfOk result (λ content. string_bytes content ≡ compact_text (spec.did_change uri.now text.now)) }
{
    let value = did_change_value(alloc, uri, text)?;
    written(alloc, &value)
}

fn shutdown_value(alloc: Global) -> Result<Value, AllocError>
    ensures { IfOk result (λ v. view v ≡ spec.shutdown) }
{
    json!(in alloc; {"id": 2u8, "jsonrpc": "2.0", "method": "shutdown"})
}

pub(crate) fn shutdown(alloc: Global) -> Result<String, AllocError>
    ensures { IfOk result (λ text. string_bytes text ≡ compact_text spec.shutdown) }
{
    let value = shutdown_value(alloc)?;
    written(alloc, &value)
}

fn exit_value(alloc: Global) -> Result<Value, AllocError>
    ensures { IfOk result (λ v. view v ≡ spec.exit) }
{
    json!(in alloc; {"jsonrpc": "2.0", "method": "exit"})
}

pub(crate) fn exit(alloc: Global) -> Result<String, AllocError>
    ensures { IfOk result (λ text. string_bytes text ≡ compact_text spec.exit) }
{
    let value = exit_value(alloc)?;
    written(alloc, &value)
}
