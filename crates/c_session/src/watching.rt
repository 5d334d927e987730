// Files that changed outside the editor (LSP 3.17, workspace/didChangeWatchedFiles).
ghost use Rattle.std.specs.Prelude.{◌≡◌, ◌≢◌, ◌+◌, ◌<◌, ◌^◌, ◌++◌, codes, None, IfErr, OnOk, map};
ghost use Rattle.doc_texts.specs.Docs.{loaded};
ghost use Rattle.c_session.specs.Files.{with_found};
ghost use Rattle.c_session.specs.Asking.{Gives};
ghost use Rattle.c_session.specs.Handled.{Reached};
ghost use Rattle.c_session.specs.Ties.Interrupted.{Refused};
ghost use Rattle.c_session.specs.Loading.{settles, watched_log, updates, updates_at, updates_all};
ghost use Rattle.c_session.specs.Ties.News.{KeepsPrior, SameBut};
ghost use Rattle.c_session.specs.Reasons.{ByTexts, by_uri};
ghost use Rattle.c_session.specs.Ties.Refused.{reason};
ghost use Rattle.c_session.specs.declared.params.FileChangeKind.TheVariants.{Changed};
ghost use Rattle.c_session.specs.declared.reasons.Refusal.TheVariants.{NoMemory};
ghost use Rattle.lsp_answers.specs.Replies.{log};
ghost use Rattle.c_session.specs.Ties.SeenParams.{seen_file_change};
ghost use Rattle.c_session.specs.Ties.Sessions.{loading};
ghost use Rattle.uri_paths.specs.Uris.{path_of_uri};

use crate::documents::path_at;
use crate::error::SessionError;
use crate::files::is_read;
use crate::loading::{read_file, set_found};
use crate::params::{FileChange, FileChangeKind};
use crate::reasons::Refusal;
use doc_texts::{DocError, Docs, PriorTexts};
use io_edges::{Found, Store};
use lsp_answers::push_log;
use std::alloc::{AllocError, Global};
use uri_paths::Path;

/// Logs why a change is refused.
fn push_reason(alloc: Global, logs: &mut Vec<u8>, reason: &str) -> Result<(), AllocError>
    ensures { OnOk result (logs.new.items ≡ logs.old.items ++ log (codes "workspace/didChangeWatchedFiles: " ++ reason.now)) }
{
    let text = format!(in alloc; "workspace/didChangeWatchedFiles: {reason}")?;
    push_log(alloc, logs, text.as_str())
}

/// Logs that a change is refused.
fn push_refusal(alloc: Global, logs: &mut Vec<u8>, refusal: Refusal) -> Result<(), AllocError>
    ensures refused { OnOk result (refusal ≢ NoMemory) }
    ensures log { OnOk result (logs.new.items ≡ logs.old.items ++ log (watched_log (reason refusal))) }
{
    let reason = match refusal.text(alloc) {
        Ok(reason) => reason,
        Err(_) => return Err(AllocError),
    };
    match push_reason(alloc, logs, reason.as_str()) {
        Ok(()) => Ok(()),
        Err(_) => Err(AllocError),
    }
}

/// Gives the texts what a file has now, or logs why they refuse it.
fn take_found(
    alloc: Global,
    docs: &mut Docs,
    logs: &mut Vec<u8>,
    path: &Path,
    found: &Found,
) -> Result<(), AllocError>
    ensures { OnOk result (loading docs.new logs.new.items ≡ settles (λ e. watched_log (ByTexts e)) (loading docs.old logs.old.items) (with_found docs.old path.now found.now)) }
{
    match set_found(docs, path, found) {
        Ok(()) => Ok(()),
        Err(error) => match push_refusal(alloc, logs, Refusal::of_texts(error)) {
            Ok(()) => Ok(()),
            Err(_) => Err(AllocError),
        },
    }
}

/// Takes the text of a file away, or logs why the texts refuse that.
fn take_away(
    alloc: Global,
    docs: &mut Docs,
    logs: &mut Vec<u8>,
    path: &Path,
) -> Result<(), AllocError>
    ensures { OnOk result (loading docs.new logs.new.items ≡ settles (λ e. watched_log (ByTexts e)) (loading docs.old logs.old.items) (loaded docs.old path.now None)) }
{
    match docs.load(path, None) {
        Ok(()) => Ok(()),
        Err(error) => match push_refusal(alloc, logs, Refusal::of_texts(error)) {
            Ok(()) => Ok(()),
            Err(_) => Err(AllocError),
        },
    }
}

/// Reads a file of the root again.
fn reread<D: Store>(
    alloc: Global,
    docs: &mut Docs,
    logs: &mut Vec<u8>,
    path: &Path,
    store: &mut D,
) -> Result<(), SessionError>
    requires { D.faults store.old + 1 < 2 ^ 64 }
    ensures updated { OnOk result (Reached (updates (loading docs.old logs.old.items) path.now Changed) (Gives (loading docs.new logs.new.items)) (D.answers store.old) (D.answers store.new)) }
    ensures counted { OnOk result (D.faults store.new ≡ D.faults store.old) }
    ensures refused { IfErr result (λ e. Refused e (updates (loading docs.old logs.old.items) path.now Changed) (D.answers store.old) (D.answers store.new) (D.faults store.old) (D.faults store.new)) }
    ensures others { OnOk result (SameBut path.now docs.old docs.new) }
{
    let found = match read_file(alloc, store, path) {
        Ok(found) => found,
        Err(error) => return Err(error),
    };
    match take_found(alloc, docs, logs, path, &found) {
        Ok(()) => Ok(()),
        Err(_) => Err(SessionError::NoMemory),
    }
}

/// Takes over one change of a file of the root.
fn update<D: Store>(
    alloc: Global,
    docs: &mut Docs,
    logs: &mut Vec<u8>,
    path: &Path,
    kind: FileChangeKind,
    store: &mut D,
) -> Result<(), SessionError>
    requires { D.faults store.old + 1 < 2 ^ 64 }
    ensures updated { OnOk result (Reached (updates (loading docs.old logs.old.items) path.now kind) (Gives (loading docs.new logs.new.items)) (D.answers store.old) (D.answers store.new)) }
    ensures counted { OnOk result (D.faults store.new ≡ D.faults store.old) }
    ensures refused { IfErr result (λ e. Refused e (updates (loading docs.old logs.old.items) path.now kind) (D.answers store.old) (D.answers store.new) (D.faults store.old) (D.faults store.new)) }
    ensures others { OnOk result (SameBut path.now docs.old docs.new) }
{
    match kind {
        FileChangeKind::Created => reread(alloc, docs, logs, path, store),
        FileChangeKind::Changed => reread(alloc, docs, logs, path, store),
        FileChangeKind::Deleted => match take_away(alloc, docs, logs, path) {
            Ok(()) => Ok(()),
            Err(_) => Err(SessionError::NoMemory),
        },
    }
}

/// Takes over one change of a watched file, and keeps the text that the file had before.
fn update_at<D: Store>(
    alloc: Global,
    docs: &mut Docs,
    logs: &mut Vec<u8>,
    prior: &mut PriorTexts,
    change: &FileChange<'_>,
    store: &mut D,
) -> Result<(), SessionError>
    requires { D.faults store.old + 1 < 2 ^ 64 }
    ensures updated { OnOk result (Reached (updates_at (loading docs.old logs.old.items) change.now.kind (by_uri (path_of_uri change.now.uri.now))) (Gives (loading docs.new logs.new.items)) (D.answers store.old) (D.answers store.new)) }
    ensures counted { OnOk result (D.faults store.new ≡ D.faults store.old) }
    ensures refused { IfErr result (λ e. Refused e (updates_at (loading docs.old logs.old.items) change.now.kind (by_uri (path_of_uri change.now.uri.now))) (D.answers store.old) (D.answers store.new) (D.faults store.old) (D.faults store.new)) }
    ensures prior { OnOk result (KeepsPrior prior.old docs.old prior.new docs.new) }
{
    let path = match path_at(alloc, change.uri) {
        Ok(path) => path,
        Err(refusal) => {
            match push_refusal(alloc, logs, refusal) {
                Ok(()) => return Ok(()),
                Err(_) => return Err(SessionError::NoMemory),
            }
        }
    };
    match is_read(alloc, docs.root(), &path) {
        Ok(true) => {}
        Ok(false) => return Ok(()),
        Err(_) => return Err(SessionError::NoMemory),
    }
    if docs.is_outside(&path) {
        match push_refusal(alloc, logs, Refusal::Texts(DocError::OutsideRoot)) {
            Ok(()) => return Ok(()),
            Err(_) => return Err(SessionError::NoMemory),
        }
    }
    match prior.remember(docs, &path) {
        Ok(()) => {}
        Err(_) => return Err(SessionError::NoMemory),
    }
    match update(alloc, docs, logs, &path, change.kind, store) {
        Ok(()) => Ok(()),
        Err(error) => Err(error),
    }
}

/// Takes over each change of a watched file in turn, and keeps the texts that the files had before.
pub(crate) fn update_all<D: Store>(
    alloc: Global,
    docs: &mut Docs,
    logs: &mut Vec<u8>,
    prior: &mut PriorTexts,
    changes: &[FileChange<'_>],
    store: &mut D,
) -> Result<(), SessionError>
    requires { D.faults store.old + 1 < 2 ^ 64 }
    ensures updated { OnOk result (Reached (updates_all (loading docs.old logs.old.items) (map seen_file_change changes.now)) (Gives (loading docs.new logs.new.items)) (D.answers store.old) (D.answers store.new)) }
    ensures counted { OnOk result (D.faults store.new ≡ D.faults store.old) }
    ensures refused { IfErr result (λ e. Refused e (updates_all (loading docs.old logs.old.items) (map seen_file_change changes.now)) (D.answers store.old) (D.answers store.new) (D.faults store.old) (D.faults store.new)) }
    ensures prior { OnOk result (KeepsPrior prior.old docs.old prior.new docs.new) }
{
    'changes: for change in changes {
        match update_at(alloc, docs, logs, prior, change, store) {
            Ok(()) => {}
            Err(error) => return Err(error),
        }
    }
    Ok(())
}
