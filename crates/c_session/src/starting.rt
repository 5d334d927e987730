// The beginning of a session: the root, and the files under it.
ghost use Rattle.std.specs.Prelude.{◌≡◌, ◌+◌, ◌<◌, ◌^◌, IfOk, IfErr, OnOk, OnErr, MatchResult, option_map};
ghost use Rattle.io_edges.specs.Store.{Lists, after_answer};
ghost use Rattle.serde_json.specs.View.{view};
ghost use Rattle.c_session.specs.Asking.{Gives};
ghost use Rattle.c_session.specs.Handled.{Reached};
ghost use Rattle.c_session.specs.Ties.Interrupted.{Refused, IsFault};
ghost use Rattle.c_session.specs.Loading.{loads_root};
ghost use Rattle.c_session.specs.React.{root_by, beginning_by};
ghost use Rattle.c_session.specs.Ties.Refused.{Answers};
ghost use Rattle.c_session.specs.Ties.Sessions.{loading, seen_beginning};

use crate::documents::path_at;
use crate::error::SessionError;
use crate::files::{to_load, unreadable_logs};
use crate::loading::{load_files, session_error};
use crate::params::starting_in;
use crate::reasons::Refusal;
use doc_texts::Docs;
use io_edges::{Listed, Store};
use serde_json::Value;
use std::alloc::Global;
use text_lines::Encoding;
use uri_paths::Path;

/// What `initialize` states: the root, the units in which positions count, and whether the client can ask if a name may be renamed.
#[derive(Drop)]
pub(crate) struct Beginning {
    pub root: Option<Path>,
    pub encoding: Encoding,
    pub prepare: bool,
}

/// The texts of a root, and what was logged where they were loaded.
#[derive(Drop)]
pub(crate) struct Loaded {
    pub docs: Docs,
    pub logs: Vec<u8>,
}

/// The path of the root, where there is one.
fn root_at(alloc: Global, uri: Option<&str>) -> Result<Option<Path>, Refusal>
    ensures { Answers (λ root. root) result (root_by (option_map (λ u. u.now) uri.entry)) }
{
    match uri {
        None => Ok(None),
        Some(uri) => match path_at(alloc, uri) {
            Ok(path) => Ok(Some(path)),
            Err(refusal) => Err(refusal),
        },
    }
}

/// What the params of `initialize` state (LSP 3.17, InitializeParams).
#[tactic(auto, unfolding(crate::specs::React::beginning_by))]
pub(crate) fn beginning_in(alloc: Global, params: Option<&Value>) -> Result<Beginning, Refusal>
    ensures { Answers seen_beginning result (beginning_by (option_map (λ v. view v.now) params.entry)) }
{
    let starting = match starting_in(params) {
        Ok(starting) => starting,
        Err(error) => return Err(Refusal::of_params(error)),
    };
    match root_at(alloc, starting.root) {
        Ok(root) => Ok(Beginning {
            root,
            encoding: starting.encoding,
            prepare: starting.prepare,
        }),
        Err(refusal) => Err(refusal),
    }
}

/// Asks the store which files there are.
fn list_files<D: Store>(
    alloc: Global,
    store: &mut D,
    root: &Path,
) -> Result<Vec<Listed>, SessionError>
    requires { D.faults store.old + 1 < 2 ^ 64 }
    ensures listed { IfOk result (λ found. D.answers store.new ≡ option_map (after_answer (Lists root.now found.items)) (D.answers store.old)) }
    ensures failed { OnErr result (D.answers store.new ≡ D.answers store.old) }
    ensures counted { MatchResult result (λ _. D.faults store.new ≡ D.faults store.old) (λ e. IsFault e (D.faults store.old) (D.faults store.new)) }
{
    match store.list(alloc, root.as_str()) {
        Ok(found) => Ok(found),
        Err(fail) => Err(session_error(fail)),
    }
}

/// Loads the files of a root.
fn load_under<D: Store>(alloc: Global, root: Path, store: &mut D) -> Result<Loaded, SessionError>
    requires { D.faults store.old + 1 < 2 ^ 64 }
    ensures loaded { IfOk result (λ l. Reached (loads_root (Some root)) (Gives (loading l.docs l.logs.items)) (D.answers store.old) (D.answers store.new)) }
    ensures counted { OnOk result (D.faults store.new ≡ D.faults store.old) }
    ensures refused { IfErr result (λ e. Refused e (loads_root (Some root)) (D.answers store.old) (D.answers store.new) (D.faults store.old) (D.faults store.new)) }
{
    let found = match list_files(alloc, store, &root) {
        Ok(found) => found,
        Err(error) => return Err(error),
    };
    let mut logs = match unreadable_logs(alloc, found.as_slice()) {
        Ok(logs) => logs,
        Err(_) => return Err(SessionError::NoMemory),
    };
    let paths = match to_load(alloc, &root, found.as_slice()) {
        Ok(paths) => paths,
        Err(_) => return Err(SessionError::NoMemory),
    };
    let mut docs = Docs::new(alloc, Some(root));
    match load_files(alloc, &mut docs, &mut logs, paths.as_slice(), store) {
        Ok(()) => Ok(Loaded { docs, logs }),
        Err(error) => Err(error),
    }
}

/// Loads the files of the root, where there is one.
pub(crate) fn load_root<D: Store>(
    alloc: Global,
    root: Option<Path>,
    store: &mut D,
) -> Result<Loaded, SessionError>
    requires { D.faults store.old + 1 < 2 ^ 64 }
    ensures loaded { IfOk result (λ l. Reached (loads_root root) (Gives (loading l.docs l.logs.items)) (D.answers store.old) (D.answers store.new)) }
    ensures counted { OnOk result (D.faults store.new ≡ D.faults store.old) }
    ensures refused { IfErr result (λ e. Refused e (loads_root root) (D.answers store.old) (D.answers store.new) (D.faults store.old) (D.faults store.new)) }
{
    match root {
        Some(root) => load_under(alloc, root, store),
        None => Ok(Loaded {
            docs: Docs::new(alloc, None),
            logs: Vec::new(alloc),
        }),
    }
}
