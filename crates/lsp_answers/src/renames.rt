// The edits by which tokens get a name, as the text of the value (LSP 3.17, WorkspaceEdit).
ghost use Rattle.std.specs.Prelude.{◌≡◌, ◌++◌, ℕ, List, ◌∷◌, filter, codes, string_bytes, IfOk, OnOk, None, false};
ghost use Rattle.std.specs.BTreeMap.{IsOrdered, get};
ghost use Rattle.std.specs.Cmp.Lexicographic.{slice_cmp};
ghost use Rattle.std.specs.Ordering.{nat_cmp};
ghost use Rattle.serde_json.specs.Data.{string};
ghost use Rattle.serde_json.specs.View.{view};
ghost use Rattle.serde_json.specs.Written.{compact_text, comma_if};
ghost use Rattle.lsp_answers.specs.Located.{edit_data};
ghost use Rattle.lsp_answers.specs.Renames.{is_in, edits_data};
ghost use Rattle.lsp_answers.specs.Ties.Growing.{start_of, grown, files_text};
ghost use Rattle.lsp_answers.specs.declared.located.Located.{Located};

use crate::located::{Located, push_comma_if};
use crate::places::range_value;
use crate::texts::JsonText;
use serde_json::{Value, json};
use shared_text::Name;
use std::alloc::{AllocError, Global};
use std::collections::BTreeMap;
use std::marker::Model;

/// The text of an array of TextEdits up to its last element.
#[derive(Drop)]
struct BegunArray {
    text: String,
}

impl Model for BegunArray {
    ghost use Rattle.std.specs.Prelude.{List, ℕ, string_bytes};

    ghost Value = { List ℕ };

    ghost view = { λ t. string_bytes t.text };
}

impl BegunArray {
    /// Its text.
    fn as_str(&self) -> &str
        ensures { result.now ≡ self.now }
    {
        self.text.as_str()
    }
}

/// The text that stands in front of the next element.
#[tactic(auto, unfolding(crate::specs::Ties::Growing::start_of))]
fn text_before(alloc: Global, before: Option<BegunArray>) -> Result<String, AllocError>
    ensures { IfOk result (λ s. string_bytes s ≡ start_of before) }
{
    match before {
        Some(array) => {
            let BegunArray { mut text } = array;
            text.push_str(",")?;
            Ok(text)
        }
        None => String::from_str(alloc, "["),
    }
}

fn edit_value(alloc: Global, new_name: &str, tok: &Located) -> Result<Value, AllocError>
    ensures { IfOk result (λ v. view v ≡ edit_data new_name.now tok.now) }
{
    let range = range_value(alloc, tok.start, tok.end)?;
    json!(in alloc; {"newText": new_name, "range": range})
}

/// The text of a TextEdit by which a token gets a name.
#[tactic(auto, using(crate::proofs::Renaming::edit_has_none))]
fn edit_text(alloc: Global, new_name: &str, tok: &Located) -> Result<String, AllocError>
    ensures { IfOk result (λ s. string_bytes s ≡ compact_text (edit_data new_name.now tok.now)) }
{
    let value = edit_value(alloc, new_name, tok)?;
    value.to_string(alloc)
}

/// The array with the edit of one more token; with this one alone where there is no array.
fn with_edit(
    alloc: Global,
    before: Option<BegunArray>,
    new_name: &str,
    tok: &Located,
) -> Result<BegunArray, AllocError>
    ensures { IfOk result (λ array. array ≡ start_of before ++ compact_text (edit_data new_name.now tok.now)) }
{
    let mut text = text_before(alloc, before)?;
    let edit = edit_text(alloc, new_name, tok)?;
    text.push_str(edit.as_str())?;
    Ok(BegunArray { text })
}

/// Puts the edit of a token behind those of its file.
fn put_edit(
    alloc: Global,
    files: &mut BTreeMap<Name, BegunArray>,
    new_name: &str,
    tok: &Located,
) -> Result<(), AllocError>
    ensures { OnOk result ((uri : List ℕ) (more : List Located) → grown new_name.now (get (slice_cmp nat_cmp) files.new uri) (filter (is_in uri) more) ≡ grown new_name.now (get (slice_cmp nat_cmp) files.old uri) (filter (is_in uri) (tok.now ∷ more))) }
{
    let before = files.remove(&tok.uri);
    let array = with_edit(alloc, before, new_name, tok)?;
    let uri = tok.uri.share()?;
    files.insert(uri, array)?;
    Ok(())
}

/// The edits of all tokens, by the URIs of their files.
fn edits_by_file(
    alloc: Global,
    toks: &[Located],
    new_name: &str,
) -> Result<BTreeMap<Name, BegunArray>, AllocError>
    ensures { IfOk result (λ files. (uri : List ℕ) → get (slice_cmp nat_cmp) files uri ≡ grown new_name.now None (filter (is_in uri) toks.now)) }
{
    let mut files = BTreeMap::new(alloc);
    let mut rest = toks;
    'turn: while let Some((tok, behind)) = rest.split_first() {
        rest = behind;
        put_edit(alloc, &mut files, new_name, tok)?;
    }
    Ok(files)
}

/// The text of a URI as a member's key.
fn key_text(alloc: Global, uri: &Name) -> Result<String, AllocError>
    ensures { IfOk result (λ s. string_bytes s ≡ compact_text (string uri.now)) }
{
    let value = Value::String(String::from_str(alloc, uri.as_str())?);
    value.to_string(alloc)
}

/// Writes a file's URI and its edits behind what is written.
fn push_file(
    alloc: Global,
    body: &mut String,
    later: bool,
    uri: &Name,
    array: &BegunArray,
) -> Result<(), AllocError>
    ensures { OnOk result (string_bytes body.new ≡ ((((string_bytes body.old ++ comma_if later) ++ compact_text (string uri.now)) ++ codes ":") ++ array.now) ++ codes "]") }
{
    push_comma_if(body, later)?;
    let key = key_text(alloc, uri)?;
    body.push_str(key.as_str())?;
    body.push_str(":")?;
    body.push_str(array.as_str())?;
    body.push_str("]")?;
    Ok(())
}

/// Writes all files and the bracket that closes their object behind what is written.
fn push_files(
    alloc: Global,
    body: &mut String,
    files: &BTreeMap<Name, BegunArray>,
) -> Result<(), AllocError>
    ensures written { OnOk result (string_bytes body.new ≡ string_bytes body.old ++ files_text false files.now.entries) }
    ensures ordered { IfOk result (λ _. IsOrdered (slice_cmp nat_cmp) files.now) }
{
    let mut later = false;
    for entry in files.iter() {
        push_file(alloc, body, later, entry.0, entry.1)?;
        later = true;
    }
    body.push_str("}")?;
    Ok(())
}

/// The text of all edits, file by file.
fn edits_text(alloc: Global, files: &BTreeMap<Name, BegunArray>) -> Result<String, AllocError>
    ensures written { IfOk result (λ s. string_bytes s ≡ (codes "{\"changes\":{" ++ files_text false files.now.entries) ++ codes "}") }
    ensures ordered { IfOk result (λ _. IsOrdered (slice_cmp nat_cmp) files.now) }
{
    let mut body = String::from_str(alloc, "{\"changes\":{")?;
    push_files(alloc, &mut body, files)?;
    body.push_str("}")?;
    Ok(body)
}

/// A WorkspaceEdit by which each token gets this name: the edits of each file in the order of its tokens, and the files by their
/// URIs. It takes twice as many bytes as it has, and n log n for n tokens.
pub fn edits(alloc: Global, toks: &[Located], new_name: &str) -> Result<JsonText, AllocError>
    ensures { IfOk result (λ t. t ≡ compact_text (edits_data new_name.now toks.now)) }
{
    let files = edits_by_file(alloc, toks, new_name)?;
    let text = edits_text(alloc, &files)?;
    Ok(JsonText::written(text))
}
