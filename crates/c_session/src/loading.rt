// Files that are read from the store into the texts.
ghost use Rattle.std.specs.Prelude.{◌≡◌, ◌++◌, ◌+◌, ◌<◌, ◌^◌, IfOk, IfErr, OnOk, OnErr, MatchResult, option_map};
ghost use Rattle.io_edges.specs.Store.{Reads, after_answer};
ghost use Rattle.doc_texts.specs.Docs.{IsDone};
ghost use Rattle.c_session.specs.Asking.{Gives};
ghost use Rattle.c_session.specs.Files.{with_found};
ghost use Rattle.c_session.specs.Handled.{Reached};
ghost use Rattle.c_session.specs.Ties.Interrupted.{Refused, IsFault, session_error};
ghost use Rattle.c_session.specs.Loading.{with_file, loads, load_log, settles, read_back};
ghost use Rattle.c_session.specs.Ties.News.{KeepsPrior};
ghost use Rattle.lsp_answers.specs.Replies.{log};
ghost use Rattle.c_session.specs.Ties.Sessions.{loading};

use crate::error::SessionError;
use crate::files::is_read;
use doc_texts::{DocError, Docs, PriorTexts};
use io_edges::{Found, Store, StoreFail};
use lsp_answers::push_log;
use std::alloc::{AllocError, Global};
use uri_paths::Path;

pub(crate) fn session_error(fail: StoreFail) -> SessionError
    ensures { result ≡ session_error fail }
{
    match fail {
        StoreFail::Failed => SessionError::StoreFault,
        StoreFail::NoMemory => SessionError::NoMemory,
    }
}

/// Reads a file from the store.
pub(crate) fn read_file<D: Store>(
    alloc: Global,
    store: &mut D,
    path: &Path,
) -> Result<Found, SessionError>
    requires { D.faults store.old + 1 < 2 ^ 64 }
    ensures found { IfOk result (λ found. D.answers store.new ≡ option_map (after_answer (Reads path.now found)) (D.answers store.old)) }
    ensures failed { OnErr result (D.answers store.new ≡ D.answers store.old) }
    ensures counted { MatchResult result (λ _. D.faults store.new ≡ D.faults store.old) (λ e. IsFault e (D.faults store.old) (D.faults store.new)) }
{
    match store.read(alloc, path.as_str()) {
        Ok(found) => Ok(found),
        Err(fail) => Err(session_error(fail)),
    }
}

/// Gives the texts what a file has now: one that isn't there has no text. The texts stay where that is refused.
pub(crate) fn set_found(docs: &mut Docs, path: &Path, found: &Found) -> Result<(), DocError>
    ensures { IsDone result docs.old docs.new (with_found docs.old path.now found.now) }
{
    match found {
        Found::Absent => docs.load(path, None),
        Found::TooLarge if docs.is_outside(path) => Err(DocError::OutsideRoot),
        Found::TooLarge => Err(DocError::TooLong),
        Found::Bytes(bytes) => docs.load(path, Some(bytes.as_slice())),
    }
}

/// Logs that a file isn't loaded.
fn push_load_log(
    alloc: Global,
    logs: &mut Vec<u8>,
    path: &Path,
    error: DocError,
) -> Result<(), AllocError>
    ensures { OnOk result (logs.new.items ≡ logs.old.items ++ log (load_log path.now error)) }
{
    let name = error.name();
    let path = path.as_str();
    let text = format!(in alloc; "load: {name}: {path}")?;
    push_log(alloc, logs, text.as_str())
}

/// Gives the texts what a file has, or logs why they refuse it.
fn load_found(
    alloc: Global,
    docs: &mut Docs,
    logs: &mut Vec<u8>,
    path: &Path,
    found: &Found,
) -> Result<(), AllocError>
    ensures { OnOk result (loading docs.new logs.new.items ≡ settles (load_log path.now) (loading docs.old logs.old.items) (with_found docs.old path.now found.now)) }
{
    match set_found(docs, path, found) {
        Ok(()) => Ok(()),
        Err(DocError::NoMemory) => Err(AllocError),
        Err(error) => push_load_log(alloc, logs, path, error),
    }
}

/// Loads a listed file with what it has. One that isn't there any more is left out.
fn load_listed(
    alloc: Global,
    docs: &mut Docs,
    logs: &mut Vec<u8>,
    path: &Path,
    found: &Found,
) -> Result<(), AllocError>
    ensures { OnOk result (loading docs.new logs.new.items ≡ with_file (loading docs.old logs.old.items) path.now found.now) }
{
    match found {
        Found::Absent => Ok(()),
        Found::TooLarge => load_found(alloc, docs, logs, path, found),
        Found::Bytes(_) => load_found(alloc, docs, logs, path, found),
    }
}

/// Reads these files from the store, and loads them.
pub(crate) fn load_files<D: Store>(
    alloc: Global,
    docs: &mut Docs,
    logs: &mut Vec<u8>,
    paths: &[Path],
    store: &mut D,
) -> Result<(), SessionError>
    requires { D.faults store.old + 1 < 2 ^ 64 }
    ensures loaded { OnOk result (Reached (loads (loading docs.old logs.old.items) paths.now) (Gives (loading docs.new logs.new.items)) (D.answers store.old) (D.answers store.new)) }
    ensures counted { OnOk result (D.faults store.new ≡ D.faults store.old) }
    ensures refused { IfErr result (λ e. Refused e (loads (loading docs.old logs.old.items) paths.now) (D.answers store.old) (D.answers store.new) (D.faults store.old) (D.faults store.new)) }
{
    let mut rest = paths;
    'files: while let Some((path, behind)) = rest.split_first() {
        rest = behind;
        let found = match read_file(alloc, store, path) {
            Ok(found) => found,
            Err(error) => return Err(error),
        };
        match load_listed(alloc, docs, logs, path, &found) {
            Ok(()) => {}
            Err(_) => return Err(SessionError::NoMemory),
        }
    }
    Ok(())
}

/// Loads a file of which the text before is kept.
fn take_back(
    alloc: Global,
    docs: &mut Docs,
    logs: &mut Vec<u8>,
    prior: &mut PriorTexts,
    path: &Path,
    found: &Found,
) -> Result<(), AllocError>
    ensures taken { OnOk result (loading docs.new logs.new.items ≡ settles (load_log path.now) (loading docs.old logs.old.items) (with_found docs.old path.now found.now)) }
    ensures prior { OnOk result (KeepsPrior prior.old docs.old prior.new docs.new) }
{
    match prior.remember(docs, path) {
        Ok(()) => {}
        Err(_) => return Err(AllocError),
    }
    match load_found(alloc, docs, logs, path, found) {
        Ok(()) => Ok(()),
        Err(_) => Err(AllocError),
    }
}

/// Reads the file of a document that was closed, where it is one that is read; the text that the file had before is kept.
pub(crate) fn read_back<D: Store>(
    alloc: Global,
    docs: &mut Docs,
    logs: &mut Vec<u8>,
    prior: &mut PriorTexts,
    path: &Path,
    store: &mut D,
) -> Result<(), SessionError>
    requires { D.faults store.old + 1 < 2 ^ 64 }
    ensures read { OnOk result (Reached (read_back (loading docs.old logs.old.items) path.now) (Gives (loading docs.new logs.new.items)) (D.answers store.old) (D.answers store.new)) }
    ensures counted { OnOk result (D.faults store.new ≡ D.faults store.old) }
    ensures refused { IfErr result (λ e. Refused e (read_back (loading docs.old logs.old.items) path.now) (D.answers store.old) (D.answers store.new) (D.faults store.old) (D.faults store.new)) }
    ensures prior { OnOk result (KeepsPrior prior.old docs.old prior.new docs.new) }
{
    match is_read(alloc, docs.root(), path) {
        Ok(true) => {}
        Ok(false) => return Ok(()),
        Err(_) => return Err(SessionError::NoMemory),
    }
    let found = match read_file(alloc, store, path) {
        Ok(found) => found,
        Err(error) => return Err(error),
    };
    match take_back(alloc, docs, logs, prior, path, &found) {
        Ok(()) => Ok(()),
        Err(_) => Err(SessionError::NoMemory),
    }
}
