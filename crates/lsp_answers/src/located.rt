// What the questions about a text are answered with, as the text of the value (LSP 3.17).
ghost use Rattle.std.specs.Prelude.{◌≡◌, ◌++◌, map, codes, string_bytes, IfOk, OnOk, false};
ghost use Rattle.serde_json.specs.View.{view, items_of};
ghost use Rattle.serde_json.specs.Written.{compact_text, items_text, comma_if};
ghost use Rattle.lsp_answers.specs.Located.{hover_data, renamable_data, location_data, symbol_data, listed};
ghost use Rattle.lsp_answers.specs.Ties.Forms.{element_data};

use crate::places::range_value;
use crate::texts::JsonText;
use serde_json::{Value, json};
use shared_text::Name;
use std::alloc::{AllocError, Global};
use text_lines::Pos;

/// A token of a file that is shown to the client.
#[derive(Drop)]
pub struct Located {
    /// The file's URI, as the client knows it.
    pub uri: Name,
    /// Where it begins and where it ends, in the session's position encoding.
    pub start: Pos,
    pub end: Pos,
    /// Its symbol kind (LSP 3.17, SymbolKind); 0 where none is written.
    pub kind: u8,
    /// Its spelling.
    pub name: Name,
}

// What is written of each token.
#[derive(Clone, Copy)]
enum Form {
    Location,
    Symbol,
}

fn location_value(alloc: Global, tok: &Located) -> Result<Value, AllocError>
    ensures { IfOk result (λ v. view v ≡ location_data tok.now) }
{
    let range = range_value(alloc, tok.start, tok.end)?;
    let uri = tok.uri.as_str();
    json!(in alloc; {"range": range, "uri": uri})
}

fn symbol_value(alloc: Global, tok: &Located) -> Result<Value, AllocError>
    ensures { IfOk result (λ v. view v ≡ symbol_data tok.now) }
{
    let kind = tok.kind;
    let location = location_value(alloc, tok)?;
    let name = tok.name.as_str();
    json!(in alloc; {"kind": kind, "location": location, "name": name})
}

fn element_value(alloc: Global, form: Form, tok: &Located) -> Result<Value, AllocError>
    ensures { IfOk result (λ v. view v ≡ element_data form tok.now) }
{
    match form {
        Form::Location => location_value(alloc, tok),
        Form::Symbol => symbol_value(alloc, tok),
    }
}

/// The text of what is written of a token.
#[tactic(auto, using(crate::proofs::Listing::element_has_none))]
fn element_text(alloc: Global, form: Form, tok: &Located) -> Result<String, AllocError>
    ensures { IfOk result (λ s. string_bytes s ≡ compact_text (element_data form tok.now)) }
{
    let value = element_value(alloc, form, tok)?;
    value.to_string(alloc)
}

pub(crate) fn push_comma_if(body: &mut String, later: bool) -> Result<(), AllocError>
    ensures { OnOk result (string_bytes body.new ≡ string_bytes body.old ++ comma_if later) }
{
    if later {
        body.push_str(",")?;
    }
    Ok(())
}

/// Writes what is written of each token behind what is written, and the bracket that closes their array.
fn push_elements(
    alloc: Global,
    body: &mut String,
    form: Form,
    toks: &[Located],
) -> Result<(), AllocError>
    ensures { OnOk result (string_bytes body.new ≡ string_bytes body.old ++ items_text false (items_of (map (element_data form) toks.now))) }
{
    let mut rest = toks;
    let mut later = false;
    'toks: while let Some((tok, behind)) = rest.split_first() {
        rest = behind;
        push_comma_if(body, later)?;
        let text = element_text(alloc, form, tok)?;
        body.push_str(text.as_str())?;
        later = true;
    }
    body.push_str("]")?;
    Ok(())
}

/// An array of what is written of each token.
#[tactic(auto, using(crate::proofs::Listing::array_spelled))]
fn array_of(alloc: Global, form: Form, toks: &[Located]) -> Result<JsonText, AllocError>
    ensures { IfOk result (λ t. t ≡ compact_text (listed (element_data form) toks.now)) }
{
    let mut body = String::from_str(alloc, "[")?;
    push_elements(alloc, &mut body, form, toks)?;
    Ok(JsonText::written(body))
}

/// An array of Locations. It takes as many bytes as it has, and a time that is linear in them.
pub fn locations(alloc: Global, toks: &[Located]) -> Result<JsonText, AllocError>
    ensures { IfOk result (λ t. t ≡ compact_text (listed location_data toks.now)) }
{
    array_of(alloc, Form::Location, toks)
}

/// An array of SymbolInformation. It takes as many bytes as it has, and a time that is linear in them.
pub fn symbols(alloc: Global, toks: &[Located]) -> Result<JsonText, AllocError>
    ensures { IfOk result (λ t. t ≡ compact_text (listed symbol_data toks.now)) }
{
    array_of(alloc, Form::Symbol, toks)
}

/// A Hover: plain text about what stands in a range.
pub fn hover(alloc: Global, text: &str, start: Pos, end: Pos) -> Result<Value, AllocError>
    ensures { IfOk result (λ v. view v ≡ hover_data text.now start end) }
{
    let range = range_value(alloc, start, end)?;
    json!(in alloc; {"contents": {"kind": "plaintext", "value": text}, "range": range})
}

/// The answer of `prepareRename` where a name may be renamed: its range and its spelling.
pub fn renamable(alloc: Global, name: &str, start: Pos, end: Pos) -> Result<Value, AllocError>
    ensures { IfOk result (λ v. view v ≡ renamable_data name.now start end) }
{
    let range = range_value(alloc, start, end)?;
    json!(in alloc; {"placeholder": name, "range": range})
}
