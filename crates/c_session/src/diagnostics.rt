// The notification `textDocument/publishDiagnostics`, written fault by fault.
ghost use Rattle.std.specs.Prelude.{◌≡◌, ◌≤◌, ◌++◌, length, map, string_bytes, IfOk, OnOk, false};
ghost use Rattle.serde_json.specs.View.{view, items_of};
ghost use Rattle.serde_json.specs.Written.{compact_text, items_text, comma_if};
ghost use Rattle.plain_mean.specs.Within.{AreWithin};
ghost use Rattle.c_session.specs.Diagnostics.{severity, fault_data, diagnostic_data, diagnostic, publish};
ghost use Rattle.c_session.specs.Ties.Published.{number_data, publish_start, publish_end, version_part};
ghost use Rattle.serde_json.specs.Data.{string};

use lsp_answers::{push_framed, range_value};
use plain_mean::{Shown, is_warning};
use serde_json::{Value, json};
use std::alloc::{AllocError, Global};
use text_lines::{Encoding, Pos, Walk};

fn severity(rule: u16) -> u8
    ensures { result ≡ severity rule }
{
    if is_warning(rule) { 2 } else { 1 }
}

fn with_range(alloc: Global, rule: u16, message: &str, range: Value) -> Result<Value, AllocError>
    ensures { IfOk result (λ v. view v ≡ fault_data rule message.now (view range)) }
{
    let severity = severity(rule);
    json!(in alloc; {"code": rule, "message": message, "range": range, "severity": severity, "source": "c11ls"})
}

/// A Diagnostic on a range.
fn diagnostic_value(
    alloc: Global,
    rule: u16,
    message: &str,
    start: Pos,
    end: Pos,
) -> Result<Value, AllocError>
    ensures { IfOk result (λ v. view v ≡ diagnostic_data rule message.now start end) }
{
    let range = range_value(alloc, start, end)?;
    with_range(alloc, rule, message, range)
}

/// The text of a Diagnostic on a range.
fn diagnostic_text(
    alloc: Global,
    rule: u16,
    message: &str,
    start: Pos,
    end: Pos,
) -> Result<String, AllocError>
    ensures { IfOk result (λ s. string_bytes s ≡ compact_text (diagnostic_data rule message.now start end)) }
{
    let value = diagnostic_value(alloc, rule, message, start, end)?;
    value.to_string(alloc)
}

fn push_comma_if(body: &mut String, later: bool) -> Result<(), AllocError>
    ensures { OnOk result (string_bytes body.new ≡ string_bytes body.old ++ comma_if later) }
{
    if later {
        body.push_str(",")?;
    }
    Ok(())
}

/// Writes the Diagnostic of a fault behind what is written.
#[tactic(auto, unfolding(crate::specs::Diagnostics::diagnostic))]
fn push_diagnostic(
    alloc: Global,
    body: &mut String,
    walk: &mut Walk<'_>,
    fault: &Shown,
) -> Result<(), AllocError>
    requires start { fault.now.start ≤ length walk.old.text }
    requires end { fault.now.end ≤ length walk.old.text }
    ensures body { OnOk result (string_bytes body.new ≡ string_bytes body.old ++ compact_text (diagnostic walk.old.text walk.old.encoding fault.now)) }
    ensures walk { walk.new ≡ walk.old }
{
    let start = walk.pos(fault.start);
    let end = walk.pos(fault.end);
    let text = diagnostic_text(alloc, fault.rule, fault.text.as_str(), start, end)?;
    body.push_str(text.as_str())?;
    Ok(())
}

/// Writes the Diagnostics of a text's faults behind what is written, and the bracket that closes their array. The faults
/// come by where they begin, so their places are found in one walk over the text.
fn push_diagnostics(
    alloc: Global,
    body: &mut String,
    walk: &mut Walk<'_>,
    faults: &[Shown],
) -> Result<(), AllocError>
    requires { AreWithin (length walk.old.text) faults.now }
    ensures { OnOk result (string_bytes body.new ≡ string_bytes body.old
        ++ items_text false (items_of (map (diagnostic walk.old.text walk.old.encoding) faults.now))) }
{
    let mut rest = faults;
    let mut later = false;
    'faults: while let Some((fault, behind)) = rest.split_first() {
        rest = behind;
        push_comma_if(body, later)?;
        push_diagnostic(alloc, body, walk, fault)?;
        later = true;
    }
    body.push_str("]")?;
    Ok(())
}

/// The text of a text as JSON.
fn quoted(alloc: Global, text: &str) -> Result<String, AllocError>
    ensures { IfOk result (λ s. string_bytes s ≡ compact_text (string text.now)) }
{
    let value = Value::String(String::from_str(alloc, text)?);
    value.to_string(alloc)
}

/// The text of a number as JSON.
#[tactic(auto, using(lsp_answers::proofs::Floats::integer_is_none))]
fn digits(alloc: Global, number: i32) -> Result<String, AllocError>
    ensures { IfOk result (λ s. string_bytes s ≡ compact_text (number_data number)) }
{
    let value = Value::from(number);
    value.to_string(alloc)
}

/// Writes the version of a document, where there is one.
fn push_version(alloc: Global, body: &mut String, version: Option<i32>) -> Result<(), AllocError>
    ensures { OnOk result (string_bytes body.new ≡ string_bytes body.old ++ version_part version) }
{
    match version {
        None => Ok(()),
        Some(version) => {
            let version = digits(alloc, version)?;
            body.push_str(",\"version\":")?;
            body.push_str(version.as_str())?;
            Ok(())
        }
    }
}

/// Writes what follows the Diagnostics.
#[tactic(auto, unfolding(crate::specs::Ties::Published::publish_end))]
fn push_end(
    alloc: Global,
    body: &mut String,
    uri: &str,
    version: Option<i32>,
) -> Result<(), AllocError>
    ensures { OnOk result (string_bytes body.new ≡ string_bytes body.old ++ publish_end uri.now version) }
{
    let uri = quoted(alloc, uri)?;
    body.push_str(",\"uri\":")?;
    body.push_str(uri.as_str())?;
    push_version(alloc, body, version)?;
    body.push_str("}}")?;
    Ok(())
}

/// A document whose diagnostics are published: its URI and version, and its text with the faults that it shows.
#[derive(Clone, Copy)]
pub(crate) struct Showing<'a> {
    pub uri: &'a str,
    pub version: Option<i32>,
    pub text: &'a str,
    pub faults: &'a [Shown],
}

/// The content of the notification for a document.
fn publish_text(
    alloc: Global,
    encoding: Encoding,
    showing: Showing<'_>,
) -> Result<String, AllocError>
    requires short { length showing.text.now ≤ 4290772992 }
    requires within { AreWithin (length showing.text.now) showing.faults.now }
    ensures { IfOk result (λ s. string_bytes s ≡ publish_start ++ items_text false (items_of (map (diagnostic showing.entry.text.now encoding) showing.entry.faults.now))
        ++ publish_end showing.entry.uri.now showing.entry.version) }
{
    let mut walk = Walk::new(showing.text, encoding);
    let mut body = String::from_str(
        alloc,
        "{\"jsonrpc\":\"2.0\",\"method\":\"textDocument/publishDiagnostics\",\"params\":{\"diagnostics\":[",
    )?;
    push_diagnostics(alloc, &mut body, &mut walk, showing.faults)?;
    push_end(alloc, &mut body, showing.uri, showing.version)?;
    Ok(body)
}

/// Writes the notification `textDocument/publishDiagnostics` for a document behind what is written (LSP 3.17).
pub(crate) fn push_diagnostics_of(
    alloc: Global,
    out: &mut Vec<u8>,
    encoding: Encoding,
    showing: Showing<'_>,
) -> Result<(), AllocError>
    requires short { length showing.text.now ≤ 4290772992 }
    requires within { AreWithin (length showing.text.now) showing.faults.now }
    ensures { OnOk result (out.new.items ≡ out.old.items ++ publish showing.entry.uri.now showing.entry.version (map (diagnostic showing.entry.text.now encoding) showing.entry.faults.now)) }
{
    let text = publish_text(alloc, encoding, showing)?;
    push_framed(alloc, out, text.as_str())?;
    Ok(())
}
