// Documents that are opened, changed and closed by the client (LSP 3.17, text document synchronization).
ghost use Rattle.std.specs.Prelude.{◌≡◌, option_map, IfOk, OnOk};
ghost use Rattle.serde_json.specs.View.{view};
ghost use Rattle.uri_paths.specs.Uris.{path_of_uri};
ghost use Rattle.doc_texts.specs.Prior.{remembered};
ghost use Rattle.c_session.specs.React.{opened_by, changed_by, closing_path, closed_by};
ghost use Rattle.c_session.specs.Reasons.{by_uri};
ghost use Rattle.c_session.specs.Ties.News.{KeepsPrior};
ghost use Rattle.c_session.specs.Ties.Refused.{Answers, Leaves, edited};

use crate::params::{changing_in, closing_in, opening_in};
use crate::reasons::Refusal;
use doc_texts::{Docs, PriorTexts};
use serde_json::Value;
use std::alloc::Global;
use text_lines::Encoding;
use uri_paths::{Path, path_of};

/// The path that a URI names.
pub(crate) fn path_at(alloc: Global, uri: &str) -> Result<Path, Refusal>
    ensures { Answers (λ path. path) result (by_uri (path_of_uri uri.now)) }
{
    match path_of(alloc, uri) {
        Ok(path) => Ok(path),
        Err(error) => Err(Refusal::of_uri(error)),
    }
}

/// Opens the document that the params state, and answers its path; the text that the file had before is kept. The texts
/// stay where it is refused.
#[tactic(auto, unfolding(crate::specs::React::opened_by))]
pub(crate) fn open_document(
    alloc: Global,
    docs: &mut Docs,
    prior: &mut PriorTexts,
    params: Option<&Value>,
) -> Result<Path, Refusal>
    ensures meant { Answers (edited docs.new) result (opened_by docs.old (option_map (λ v. view v.now) params.entry)) }
    ensures kept { Leaves result docs.old docs.new }
    ensures prior { IfOk result (λ path. prior.new ≡ remembered prior.old docs.old path) }
{
    let opening = match opening_in(params) {
        Ok(opening) => opening,
        Err(error) => return Err(Refusal::of_params(error)),
    };
    let path = match path_at(alloc, opening.uri) {
        Ok(path) => path,
        Err(refusal) => return Err(refusal),
    };
    match prior.remember(docs, &path) {
        Ok(()) => {}
        Err(_) => return Err(Refusal::NoMemory),
    }
    match docs.open_doc(&path, opening.uri, opening.version, opening.text) {
        Ok(()) => Ok(path),
        Err(error) => Err(Refusal::of_texts(error)),
    }
}

/// Changes the document that the params state, and answers its path; the text that the file had before is kept. The texts
/// stay where it is refused.
#[tactic(auto, unfolding(crate::specs::React::changed_by))]
pub(crate) fn change_document(
    alloc: Global,
    docs: &mut Docs,
    encoding: Encoding,
    prior: &mut PriorTexts,
    params: Option<&Value>,
) -> Result<Path, Refusal>
    ensures meant { Answers (edited docs.new) result (changed_by docs.old encoding (option_map (λ v. view v.now) params.entry)) }
    ensures kept { Leaves result docs.old docs.new }
    ensures prior { IfOk result (λ path. prior.new ≡ remembered prior.old docs.old path) }
{
    let changing = match changing_in(alloc, params) {
        Ok(changing) => changing,
        Err(error) => return Err(Refusal::of_params(error)),
    };
    let path = match path_at(alloc, changing.uri) {
        Ok(path) => path,
        Err(refusal) => return Err(refusal),
    };
    match prior.remember(docs, &path) {
        Ok(()) => {}
        Err(_) => return Err(Refusal::NoMemory),
    }
    match docs.change(
        &path,
        changing.version,
        changing.changes.as_slice(),
        encoding,
    ) {
        Ok(()) => Ok(path),
        Err(error) => Err(Refusal::of_texts(error)),
    }
}

/// The path of the document that the params state, which is to be closed.
fn closing_path(alloc: Global, params: Option<&Value>) -> Result<Path, Refusal>
    ensures { Answers (λ path. path) result (closing_path (option_map (λ v. view v.now) params.entry)) }
{
    match closing_in(params) {
        Ok(uri) => path_at(alloc, uri),
        Err(error) => Err(Refusal::of_params(error)),
    }
}

/// Closes the document that the params state, and answers its path; the text that the file had before is kept. The texts
/// stay where it is refused.
pub(crate) fn close_document(
    alloc: Global,
    docs: &mut Docs,
    prior: &mut PriorTexts,
    params: Option<&Value>,
) -> Result<Path, Refusal>
    ensures meant { Answers (edited docs.new) result (closed_by docs.old (option_map (λ v. view v.now) params.entry)) }
    ensures kept { Leaves result docs.old docs.new }
    ensures prior { OnOk result (KeepsPrior prior.old docs.old prior.new docs.new) }
{
    let path = match closing_path(alloc, params) {
        Ok(path) => path,
        Err(refusal) => return Err(refusal),
    };
    match prior.remember(docs, &path) {
        Ok(()) => {}
        Err(_) => return Err(Refusal::NoMemory),
    }
    match docs.close_doc(&path) {
        Ok(()) => Ok(path),
        Err(error) => Err(Refusal::of_texts(error)),
    }
}
