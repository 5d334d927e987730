// The params of messages (LSP 3.17). Each is read whole before anything is done with it, its members in the order in which
// the fields stand, and the first member that isn't as stated is the refusal.
ghost use Rattle.std.specs.Prelude.{◌≡◌, ◌≢◌, map, codes, option_map, option_and_then, Ok, Err};
ghost use Rattle.std.specs.Option.{unwrap_or};
ghost use Rattle.serde_json.specs.Data.{object, no_members};
ghost use Rattle.serde_json.specs.Find.{as_str};
ghost use Rattle.serde_json.specs.View.{view};
ghost use Rattle.json_view.specs.Members.{object_in, array_of};
ghost use Rattle.json_view.specs.Refusals.{NoMemory, seen, and_then};
ghost use Rattle.c_session.specs.Params.{given, each_in, params_of, document_in, opening_in, closing_in, change_range, change_in, changing_in, kind_in, file_change_in, watching_in};
ghost use Rattle.c_session.specs.Params.{root_uri_in, folder_uri_in, folder_uris_in, first_of, encoding_named, first_named, offers_in, chosen, support_in, can_prepare, starting_in};
ghost use Rattle.c_session.specs.Ties.SeenParams.{seen_opening, seen_changing, seen_file_change, seen_starting};

use json_view::{
    ViewError, get_array, get_bool, get_i32, get_object, get_range, get_str, get_text, get_u32,
};
use serde_json::Value;
use std::alloc::{AllocError, Global};
use text_lines::{Change, ChangeText, Encoding, Pos};

/// A document that is opened (LSP 3.17, DidOpenTextDocumentParams), lent by the params.
#[derive(Clone, Copy, Debug)]
pub struct Opening<'a> {
    pub uri: &'a str,
    pub version: i32,
    pub text: &'a str,
}

/// Changes of a document, in order (LSP 3.17, DidChangeTextDocumentParams). The URI is lent by the params.
#[derive(Debug, Drop)]
pub struct Changing<'a> {
    pub uri: &'a str,
    pub version: i32,
    pub changes: Vec<Change>,
}

/// What happened to a file (LSP 3.17, FileChangeType).
#[derive(Clone, Copy, Debug, PartialEq, Eq)]
pub enum FileChangeKind {
    Created,
    Changed,
    Deleted,
}

/// A file that has changed (LSP 3.17, FileEvent). The URI is lent by the params.
#[derive(Clone, Copy, Debug)]
pub struct FileChange<'a> {
    pub uri: &'a str,
    pub kind: FileChangeKind,
}

/// What a session begins with (LSP 3.17, InitializeParams). The URI is lent by the params.
#[derive(Clone, Copy, Debug)]
pub struct Starting<'a> {
    /// The URI of the root, else of the first folder.
    pub root: Option<&'a str>,
    /// The code units in which positions are counted.
    pub encoding: Encoding,
    /// Whether the client can ask if a name may be renamed.
    pub prepare: bool,
}

/// A member that may be left out, or be null in place of that.
fn given<'a>(member: Option<&'a Value>) -> Option<&'a Value>
    ensures { option_map (λ v. view v.now) result ≡ given (option_map (λ v. view v.now) member.entry) }
{
    match member {
        Some(value) => { if value.is_null() { None } else { Some(value) } }
        None => None,
    }
}

/// The params of a message, where it has some. They are an object.
pub(crate) fn params_in<'a>(params: Option<&'a Value>) -> Result<Option<&'a Value>, ViewError>
    ensures { seen (λ found. unwrap_or (option_map (λ v. view v.now) found) (object no_members)) result ≡ params_of (option_map (λ v. view v.now) params.entry) }
{
    let Some(value) = given(params) else {
        return Ok(None);
    };
    if !value.is_object() {
        return Err(ViewError::WrongKind("params"));
    }
    Ok(Some(value))
}

/// The member `textDocument` of some params, which is an object.
pub(crate) fn document_in<'a>(params: Option<&'a Value>) -> Result<&'a Value, ViewError>
    ensures { seen (λ document. view document.now) result ≡ document_in (option_map (λ v. view v.now) params.entry) }
{
    let found = params_in(params)?;
    match found {
        Some(params) => get_object(params, "textDocument"),
        None => Err(ViewError::Missing("textDocument")),
    }
}

/// The document that a `textDocument/didOpen` opens.
#[tactic(auto, unfolding(crate::specs::Params::opening_in))]
pub fn opening_in<'a>(params: Option<&'a Value>) -> Result<Opening<'a>, ViewError>
    ensures { seen seen_opening result ≡ opening_in (option_map (λ v. view v.now) params.entry) }
{
    let document = document_in(params)?;
    let uri = get_str(document, "uri")?;
    let version = get_i32(document, "version")?;
    let text = get_str(document, "text")?;
    Ok(Opening { uri, version, text })
}

/// The URI of the document that a `textDocument/didClose` closes.
pub fn closing_in<'a>(params: Option<&'a Value>) -> Result<&'a str, ViewError>
    ensures { seen (λ uri. uri.now) result ≡ closing_in (option_map (λ v. view v.now) params.entry) }
{
    let document = document_in(params)?;
    get_str(document, "uri")
}

/// The range of a change, where it has one.
#[tactic(auto, unfolding(json_view::specs::Members::range_of))]
fn change_range(change: &Value) -> Result<Option<(Pos, Pos)>, ViewError>
    ensures { seen (λ range. range) result ≡ change_range (view change.now) }
{
    if change.get("range").is_none() {
        return Ok(None);
    }
    let range = get_range(change, "range")?;
    Ok(Some(range))
}

#[tactic(auto, unfolding(crate::specs::Params::change_in))]
fn change_in(alloc: Global, change: &Value) -> Result<Change, ViewError>
    ensures { seen (λ change. change) result ≢ Err NoMemory → seen (λ change. change) result ≡ object_in change_in (codes "contentChanges") (view change.now) }
{
    if !change.is_object() {
        return Err(ViewError::WrongKind("contentChanges"));
    }
    let text = get_text(alloc, change, "text")?;
    let range = change_range(change)?;
    Ok(Change {
        range,
        text: ChangeText::from_string(text),
    })
}

fn changes_in(alloc: Global, elements: &[Value]) -> Result<Vec<Change>, ViewError>
    ensures { seen (λ changes. changes.items) result ≢ Err NoMemory → seen (λ changes. changes.items) result ≡ each_in (object_in change_in (codes "contentChanges")) (map view elements.now) }
{
    let mut changes = Vec::new(alloc);
    for element in elements {
        let change = change_in(alloc, element)?;
        changes.push(change).map_err(AllocError::from)?;
    }
    Ok(changes)
}

/// The member of some params that is an array, by its elements.
fn elements_in<'a>(params: Option<&'a Value>, key: &'static str) -> Result<&'a [Value], ViewError>
    ensures { seen (λ elements. map view elements.now) result ≡ and_then (params_of (option_map (λ v. view v.now) params.entry)) (array_of key.now) }
{
    let found = params_in(params)?;
    match found {
        Some(params) => get_array(params, key),
        None => Err(ViewError::Missing(key)),
    }
}

/// The changes that a `textDocument/didChange` makes. Each change's `text` is read before its `range`.
#[tactic(auto, unfolding(crate::specs::Params::changing_in))]
pub fn changing_in<'a>(alloc: Global, params: Option<&'a Value>) -> Result<Changing<'a>, ViewError>
    ensures { seen seen_changing result ≢ Err NoMemory → seen seen_changing result ≡ changing_in (option_map (λ v. view v.now) params.entry) }
{
    let document = document_in(params)?;
    let uri = get_str(document, "uri")?;
    let version = get_i32(document, "version")?;
    let elements = elements_in(params, "contentChanges")?;
    let changes = changes_in(alloc, elements)?;
    Ok(Changing {
        uri,
        version,
        changes,
    })
}

/// The kind of this number.
#[tactic(auto, unfolding(crate::specs::Params::kind_in))]
fn kind_in(number: u32) -> Result<FileChangeKind, ViewError>
    ensures { seen (λ kind. kind) result ≡ kind_in number }
{
    match number {
        1 => Ok(FileChangeKind::Created),
        2 => Ok(FileChangeKind::Changed),
        3 => Ok(FileChangeKind::Deleted),
        _ => Err(ViewError::OutOfRange("type")),
    }
}

#[tactic(auto, unfolding(crate::specs::Params::file_change_in))]
fn file_change_in<'a>(change: &'a Value) -> Result<FileChange<'a>, ViewError>
    ensures { seen seen_file_change result ≡ object_in file_change_in (codes "changes") (view change.now) }
{
    if !change.is_object() {
        return Err(ViewError::WrongKind("changes"));
    }
    let uri = get_str(change, "uri")?;
    let number = get_u32(change, "type")?;
    let kind = kind_in(number)?;
    Ok(FileChange { uri, kind })
}

/// The files that a `workspace/didChangeWatchedFiles` says have changed, in order. The `type` of each is 1, 2 or 3; another
/// whole number is out of range.
pub fn watching_in<'a>(
    alloc: Global,
    params: Option<&'a Value>,
) -> Result<Vec<FileChange<'a>>, ViewError>
    ensures { seen (λ changes. map seen_file_change changes.items) result ≢ Err NoMemory → seen (λ changes. map seen_file_change changes.items) result ≡ watching_in (option_map (λ v. view v.now) params.entry) }
{
    let elements = elements_in(params, "changes")?;
    file_changes_in(alloc, elements)
}

fn file_changes_in<'a>(
    alloc: Global,
    elements: &'a [Value],
) -> Result<Vec<FileChange<'a>>, ViewError>
    ensures { seen (λ changes. map seen_file_change changes.items) result ≢ Err NoMemory → seen (λ changes. map seen_file_change changes.items) result ≡ each_in (object_in file_change_in (codes "changes")) (map view elements.now) }
{
    let mut changes = Vec::new(alloc);
    for element in elements {
        let change = file_change_in(element)?;
        changes.push(change).map_err(AllocError::from)?;
    }
    Ok(changes)
}

/// The URI of the root, where one is given.
fn root_uri_in<'a>(params: &'a Value) -> Result<Option<&'a str>, ViewError>
    ensures { seen (option_map (λ uri. uri.now)) result ≡ root_uri_in (view params.now) }
{
    let Some(value) = given(params.get("rootUri")) else {
        return Ok(None);
    };
    let Some(uri) = value.as_str() else {
        return Err(ViewError::WrongKind("rootUri"));
    };
    Ok(Some(uri))
}

fn folder_uri_in<'a>(folder: &'a Value) -> Result<&'a str, ViewError>
    ensures { seen (λ uri. uri.now) result ≡ folder_uri_in (view folder.now) }
{
    if !folder.is_object() {
        return Err(ViewError::WrongKind("workspaceFolders"));
    }
    get_str(folder, "uri")
}

/// The URI of the first of some folders. Each is read.
fn first_uri_in<'a>(folders: &'a [Value]) -> Result<Option<&'a str>, ViewError>
    ensures { seen (option_map (λ uri. uri.now)) result ≡ and_then (each_in folder_uri_in (map view folders.now)) (λ uris. Ok (first_of uris)) }
{
    let mut first = None;
    for folder in folders {
        let uri = folder_uri_in(folder)?;
        first = first.or(Some(uri));
    }
    Ok(first)
}

/// The URI of the first folder, where there is one.
fn folder_in<'a>(params: &'a Value) -> Result<Option<&'a str>, ViewError>
    ensures { seen (option_map (λ uri. uri.now)) result ≡ and_then (folder_uris_in (view params.now)) (λ uris. Ok (first_of uris)) }
{
    if given(params.get("workspaceFolders")).is_none() {
        return Ok(None);
    }
    let folders = get_array(params, "workspaceFolders")?;
    first_uri_in(folders)
}

/// The encoding of this name.
#[tactic(auto, unfolding(crate::specs::Params::encoding_named))]
fn encoding_named(name: &str) -> Option<Encoding>
    ensures { result ≡ encoding_named name.now }
{
    match name {
        "utf-8" => Some(Encoding::Utf8),
        "utf-16" => Some(Encoding::Utf16),
        "utf-32" => Some(Encoding::Utf32),
        _ => None,
    }
}

/// The first of some offers that names an encoding.
fn first_named(offers: &[Value]) -> Option<Encoding>
    ensures { result ≡ first_named (map view offers.now) }
{
    for offer in offers {
        if let Some(encoding) = named_by(offer) {
            return Some(encoding);
        }
    }
    None
}

fn named_by(offer: &Value) -> Option<Encoding>
    ensures { result ≡ option_and_then encoding_named (as_str (view offer.now)) }
{
    match offer.as_str() {
        Some(name) => encoding_named(name),
        None => None,
    }
}

fn offers_in<'a>(params: &'a Value) -> Result<&'a [Value], ViewError>
    ensures { seen (λ offers. map view offers.now) result ≡ offers_in (view params.now) }
{
    let capabilities = get_object(params, "capabilities")?;
    let general = get_object(capabilities, "general")?;
    get_array(general, "positionEncodings")
}

/// The encoding that the client wants most. What isn't as stated in its capabilities counts as absent.
fn encoding_in(params: &Value) -> Encoding
    ensures { result ≡ chosen (offers_in (view params.now)) }
{
    match offers_in(params) {
        Ok(offers) => first_named(offers).unwrap_or(Encoding::Utf16),
        Err(_) => Encoding::Utf16,
    }
}

fn support_in(params: &Value) -> Result<bool, ViewError>
    ensures { seen (λ b. b) result ≡ support_in (view params.now) }
{
    let capabilities = get_object(params, "capabilities")?;
    let document = get_object(capabilities, "textDocument")?;
    let rename = get_object(document, "rename")?;
    get_bool(rename, "prepareSupport")
}

/// Whether the client can ask if a name may be renamed. What isn't as stated in its capabilities counts as absent.
fn prepare_in(params: &Value) -> bool
    ensures { result ≡ can_prepare (support_in (view params.now)) }
{
    match support_in(params) {
        Ok(can) => can,
        Err(_) => false,
    }
}

/// What the params of an `initialize` say. All of `workspaceFolders` is read, also where `rootUri` is given.
#[tactic(auto, unfolding(crate::specs::Params::starting_in))]
pub fn starting_in<'a>(params: Option<&'a Value>) -> Result<Starting<'a>, ViewError>
    ensures { seen seen_starting result ≡ starting_in (option_map (λ v. view v.now) params.entry) }
{
    let found = params_in(params)?;
    let Some(params) = found else {
        return Ok(Starting {
            root: None,
            encoding: Encoding::Utf16,
            prepare: false,
        });
    };
    let root = root_uri_in(params)?;
    let folder = folder_in(params)?;
    Ok(Starting {
        root: root.or(folder),
        encoding: encoding_in(params),
        prepare: prepare_in(params),
    })
}
