// What the server keeps between two contents, and its reaction to a message.
ghost use Rattle.std.specs.Prelude.{◌≡◌, ◌≢◌, ◌+◌, ◌++◌, ◌<◌, ◌^◌, ℕ, List, [], length, None, Some, Ok, IfOk, IfErr, OnOk, option_map, map, codes};
ghost use Rattle.serde_json.specs.View.{view};
ghost use Rattle.doc_texts.specs.Short.{AllShort};
ghost use Rattle.doc_texts.specs.Texts.{texts_under};
ghost use Rattle.c_session.specs.Asking.{Gives};
ghost use Rattle.c_session.specs.Counts.{counts_of};
ghost use Rattle.c_session.specs.Handled.{Reached, IsWork, running_work};
ghost use Rattle.c_session.specs.Ties.Interrupted.{Refused};
ghost use Rattle.c_session.specs.React.{tells, edits, opened_by, changed_by, closed_by, closes, watches, starts, beginning_by, begins, did_open, did_change, running_notification, fresh_request, on_request, on_notification, on_other, on_message, rejects};
ghost use Rattle.c_session.specs.Refused.{invalid_params};
ghost use Rattle.c_session.specs.Params.{watching_in};
ghost use Rattle.c_session.specs.Reasons.{reason_text, by_params};
ghost use Rattle.c_session.specs.Ties.Refused.{reason, IsReply, IsBehind, IsKeptBy, IsWorked};
ghost use Rattle.c_session.specs.Loading.{read_back};
ghost use Rattle.c_session.specs.Ties.News.{touched_by, tidings, HasPublished};
ghost use Rattle.plain_mean.specs.Given.{text_in};
ghost use Rattle.plain_mean.specs.Lists.{shown_in};
ghost use Rattle.plain_mean.specs.Shown.{units};
ghost use Rattle.plain_mean.specs.Within.{AreWithin};
ghost use Rattle.c_session.specs.Kept.{IsAnalysis};
ghost use Rattle.project_conf.specs.Defines.{AreUsable};
ghost use Rattle.plain_mean.specs.Confs.{IsUsable};
ghost use Rattle.lsp_answers.specs.Replies.{log, error};
ghost use Rattle.c_session.specs.Ties.SeenParams.{seen_file_change};
ghost use Rattle.c_session.specs.Ties.Seen.{seen};
ghost use Rattle.c_session.specs.Ties.Sessions.{current_state, loading, outcome_of, IsKept, WereKept, WasRead, Renews, Works, WorksBeside};
ghost use Rattle.c_session.specs.Shown.{conf_in};
ghost use Rattle.c_session.specs.State.{fresh};
ghost use Rattle.c_session.specs.declared.phase.Phase.TheVariants.{Fresh};
ghost use Rattle.c_session.specs.declared.reasons.Refusal.TheVariants.{NoMemory};

use crate::analysis::{Analysis, Renewal, analysed, renewed};
use crate::counts::{Counts, fault_count};
use crate::documents::{change_document, close_document, open_document};
use crate::error::SessionError;
use crate::loading::read_back;
use crate::message::Message;
use crate::news::{Change, other_database, prior_of, push_tidings};
use crate::params::{FileChange, watching_in};
use crate::phase::Phase;
use crate::reasons::Refusal;
use crate::starting::{Beginning, Loaded, beginning_in, load_root};
use crate::unrenewed::nothing_is_renewed;
use crate::watching::update_all;
use crate::words::Words;
use doc_texts::{Docs, PriorTexts};
use io_edges::Store;
use json_view::Id;
use lsp_answers::{error, initialize_result, log, response};
use plain_mean::unit_count;
use project_conf::{Conf, Options};
use serde_json::Value;
use shared_list::Listing;
use std::alloc::{AllocError, Global};
use std::mem;
use std::sync::ledger::Ledger;
use steps::Steps;
use text_lines::Encoding;
use uri_paths::Path;

mod questions;

/// Frames for the client, one behind the other.
pub type ReplyBytes = Listing<u8>;

/// The reply to a content: frames for the client, and the status of an end where the content is an `exit`.
#[derive(Drop)]
pub struct Reply {
    pub bytes: ReplyBytes,
    pub end: Option<u8>,
}

impl Reply {
    /// The reply that goes on.
    fn of(bytes: Vec<u8>) -> Reply
        ensures bytes { result.bytes ≡ bytes.items }
        ensures end { result.end ≡ None }
    {
        Reply {
            bytes: ReplyBytes::from_vec(bytes),
            end: None,
        }
    }
}

/// What the server keeps between two contents: the current texts and the session's settings.
#[derive(Drop)]
pub(crate) struct Current {
    pub alloc: Global,
    words: Words,
    docs: Docs,
    encoding: Encoding,
    phase: Phase,
    /// What the texts come to: what the files show, and what questions are answered from.
    kept: Analysis,
    /// How the units were read when that was worked out, where it is known.
    read: Option<Conf>,
}

/// A log message: why a notification of a method is refused.
fn refusal_log(alloc: Global, method: &str, reason: &str) -> Result<Vec<u8>, AllocError>
    ensures { IfOk result (λ v. v.items ≡ log (method.now ++ codes ": " ++ reason.now)) }
{
    let text = format!(in alloc; "{method}: {reason}")?;
    log(alloc, text.as_str())
}

impl Current {
    /// What stands before the first content.
    pub fn new(alloc: Global, options: Options) -> Current
        requires { AreUsable 131072 options.defines }
        ensures state { current_state result ≡ fresh options }
        ensures kept { IsKept result }
    {
        Current {
            alloc,
            words: Words::of(options),
            docs: Docs::new(alloc, None),
            encoding: Encoding::Utf16,
            phase: Phase::Fresh,
            kept: Analysis::new(alloc),
            read: None,
        }
    }

    /// The texts are dropped, as behind an error, where nothing is told of them.
    pub fn forget(&mut self)
        ensures { self.new.docs ≡ texts_under None }
    {
        self.docs = Docs::new(self.alloc, None);
    }

    /// The log message for a notification that is refused.
    fn refuse(&self, method: &str, refusal: Refusal) -> Result<Vec<u8>, AllocError>
        ensures refused { IfOk result (λ _. refusal ≢ NoMemory) }
        ensures log { IfOk result (λ v. v.items ≡ log (method.now ++ codes ": " ++ reason_text (reason refusal))) }
    {
        let reason = match refusal.text(self.alloc) {
            Ok(reason) => reason,
            Err(_) => return Err(AllocError),
        };
        match refusal_log(self.alloc, method, reason.as_str()) {
            Ok(bytes) => Ok(bytes),
            Err(_) => Err(AllocError),
        }
    }

    /// The error response to a request whose params are refused.
    fn reject(&self, id: &Id, refusal: Refusal) -> Result<Vec<u8>, AllocError>
        ensures refused { IfOk result (λ _. refusal ≢ NoMemory) }
        ensures error { IfOk result (λ v. v.items ≡ error (Some id.now) invalid_params (reason_text (reason refusal))) }
    {
        let text = match refusal.text(self.alloc) {
            Ok(text) => text,
            Err(_) => return Err(AllocError),
        };
        match error(self.alloc, Some(id), -32602, text.as_str()) {
            Ok(bytes) => Ok(bytes),
            Err(_) => Err(AllocError),
        }
    }

    /// The reply where a document was opened or changed, or wasn't.
    fn reply_to_edit<L: Ledger>(
        &mut self,
        method: &str,
        edited: Result<Path, Refusal>,
        prior: &PriorTexts,
        steps: &mut Steps<L>,
    ) -> Result<Vec<u8>, AllocError>
        requires kept { IsKeptBy edited prior.now self.old }
        ensures reply { IfOk result (λ v. IsReply method.now self.old.docs self.old.encoding edited v.items (shown_in self.old.kept.shown) (shown_in self.new.kept.shown) prior.now) }
        ensures behind { OnOk result (IsBehind edited self.old self.new) }
        ensures steps { OnOk result (IsWorked edited prior.now self.old steps.old steps.new) }
        ensures same { OnOk result (current_state self.new ≡ current_state self.old) }
    {
        match edited {
            Ok(path) => {
                let bytes = self.finish(Vec::new(self.alloc), &[], prior, Some(&path), steps)?;
                Ok(bytes)
            }
            Err(refusal) => {
                let bytes = self.refuse(method, refusal)?;
                Ok(bytes)
            }
        }
    }

    /// `textDocument/didOpen`.
    fn on_open<L: Ledger>(
        &mut self,
        params: Option<&Value>,
        steps: &mut Steps<L>,
    ) -> Result<Vec<u8>, AllocError>
        requires { IsKept self.old }
        ensures told { IfOk result (λ v. edits (current_state self.old) did_open (opened_by self.old.docs (option_map (λ v. view v.now) params.entry)) ≡ tells (current_state self.new) v.items) }
        ensures kept { OnOk result (IsKept self.new) }
        ensures steps { OnOk result (Works (current_state self.old) (current_state self.new) steps.old steps.new) }
    {
        let mut prior = PriorTexts::new(self.alloc);
        let edited = open_document(self.alloc, &mut self.docs, &mut prior, params);
        let bytes = self.reply_to_edit("textDocument/didOpen", edited, &prior, steps)?;
        Ok(bytes)
    }

    /// `textDocument/didChange`.
    fn on_change<L: Ledger>(
        &mut self,
        params: Option<&Value>,
        steps: &mut Steps<L>,
    ) -> Result<Vec<u8>, AllocError>
        requires { IsKept self.old }
        ensures told { IfOk result (λ v. edits (current_state self.old) did_change (changed_by self.old.docs self.old.encoding (option_map (λ v. view v.now) params.entry)) ≡ tells (current_state self.new) v.items) }
        ensures kept { OnOk result (IsKept self.new) }
        ensures steps { OnOk result (Works (current_state self.old) (current_state self.new) steps.old steps.new) }
    {
        let mut prior = PriorTexts::new(self.alloc);
        let edited = change_document(
            self.alloc,
            &mut self.docs,
            self.encoding,
            &mut prior,
            params,
        );
        let bytes = self.reply_to_edit("textDocument/didChange", edited, &prior, steps)?;
        Ok(bytes)
    }

    /// How the units are read now.
    fn conf_now(&self) -> Result<Conf, AllocError>
        ensures conf { IfOk result (λ conf. conf ≡ conf_in (current_state self.now)) }
        ensures usable { IfOk result (λ conf. IsUsable conf) }
    {
        let conf = self.words.conf(self.alloc, &self.docs)?;
        Ok(conf)
    }

    /// How the units are read now: as they were, or read anew where the database has another text than before.
    fn read_now(&self, read: Option<Conf>, prior: &PriorTexts) -> Result<Conf, AllocError>
        requires { WasRead self.now.words prior.now self.now.docs read }
        ensures conf { IfOk result (λ conf. conf ≡ conf_in (current_state self.now)) }
        ensures usable { IfOk result (λ conf. IsUsable conf) }
    {
        if other_database(self.alloc, &self.docs, prior)? {
            return self.conf_now();
        }
        match read {
            Some(conf) => Ok(conf),
            None => self.conf_now(),
        }
    }

    /// What the texts come to now, by what was kept, where the units are read so. It costs what `renewed` does.
    fn renew<L: Ledger>(
        &self,
        kept: Analysis,
        conf: &Conf,
        prior: &PriorTexts,
        steps: &mut Steps<L>,
    ) -> Result<Renewal, AllocError>
        requires kept { WereKept prior.now self.now.docs kept }
        requires usable { IsUsable conf.now }
        requires conf { conf.now ≡ conf_in (current_state self.now) }
        ensures before { IfOk result (λ r. r.before ≡ kept.shown) }
        ensures analysis { IfOk result (λ r. IsAnalysis self.now.docs (conf_in (current_state self.now)) r.analysis) }
        ensures steps { OnOk result (Renews prior.now self.now.docs kept (current_state self.now) steps.old steps.new) }
    {
        let renewal = renewed(self.alloc, kept, &self.docs, conf, prior, steps)?;
        Ok(renewal)
    }

    /// Works out what the texts come to now, where that isn't kept.
    pub fn catch_up<L: Ledger>(&mut self, steps: &mut Steps<L>) -> Result<(), AllocError>
        ensures kept { OnOk result (IsKept self.new) }
        ensures steps { OnOk result (steps.new ≡ steps.old + length (units self.old.docs (conf_in (current_state self.old)))) }
        ensures same { OnOk result (current_state self.new ≡ current_state self.old) }
        ensures docs { self.new.docs ≡ self.old.docs }
    {
        let conf = self.conf_now()?;
        let Ok(kept) = analysed(self.alloc, &self.docs, &conf, steps) else {
            drop(conf);
            return Err(AllocError);
        };
        drop(conf);
        self.kept = kept;
        self.read = None;
        Ok(())
    }

    /// How many units there are, and how many faults all files show.
    #[tactic(auto, using(crate::proofs::Counting::counts_are))]
    pub fn counts(&self) -> Result<Counts, AllocError>
        requires { IsKept self.now }
        ensures { IfOk result (λ counts. counts ≡ counts_of (current_state self.now)) }
    {
        let conf = self.conf_now()?;
        let Ok(units) = unit_count(self.alloc, &self.docs, &conf) else {
            drop(conf);
            return Err(AllocError);
        };
        drop(conf);
        let paths = self.docs.paths()?;
        Ok(Counts {
            units,
            faults: fault_count(&self.kept.shown, paths.as_slice()),
        })
    }

    /// A response, and behind it log messages and the diagnostics of the files that have news, and of the one that was opened
    /// or changed.
    fn told(
        &self,
        response: Vec<u8>,
        logs: &[u8],
        change: Change<'_>,
    ) -> Result<Vec<u8>, AllocError>
        requires within { (q : List ℕ) → AreWithin (length (text_in self.now.docs q)) (shown_in change.after.now q) }
        ensures { IfOk result (λ v. v.items ≡ (response.items ++ logs.now) ++ tidings (touched_by (option_map (λ p. p.now) change.entry.touched)) self.now.encoding (shown_in change.entry.before.now) (shown_in change.entry.after.now) change.entry.prior.now self.now.docs) }
    {
        let mut out = response;
        out.extend_from_slice(logs)?;
        push_tidings(self.alloc, &mut out, &self.docs, self.encoding, change)?;
        Ok(out)
    }

    /// The same, once what the texts come to now is worked out.
    fn finish<L: Ledger>(
        &mut self,
        response: Vec<u8>,
        logs: &[u8],
        prior: &PriorTexts,
        touched: Option<&Path>,
        steps: &mut Steps<L>,
    ) -> Result<Vec<u8>, AllocError>
        requires kept { WereKept prior.now self.old.docs self.old.kept }
        requires read { WasRead self.old.words prior.now self.old.docs self.old.read }
        ensures wrote { IfOk result (λ v. v.items ≡ (response.items ++ logs.now) ++ tidings (touched_by (option_map (λ p. p.now) touched.entry)) self.old.encoding (shown_in self.old.kept.shown) (shown_in self.new.kept.shown) prior.now self.old.docs) }
        ensures kept { OnOk result (IsKept self.new) }
        ensures steps { OnOk result (Renews prior.now self.old.docs self.old.kept (current_state self.old) steps.old steps.new) }
        ensures same { OnOk result (current_state self.new ≡ current_state self.old) }
    {
        let read = mem::replace(&mut self.read, None);
        let conf = self.read_now(read, prior)?;
        let kept = mem::replace(&mut self.kept, Analysis::new(self.alloc));
        let renewal = self.renew(kept, &conf, prior, steps)?;
        let change = Change {
            before: &renewal.before,
            after: &renewal.analysis.shown,
            prior,
            touched,
        };
        let Ok(out) = self.told(response, logs, change) else {
            drop(renewal);
            drop(conf);
            return Err(AllocError);
        };
        let Renewal {
            analysis,
            before: _,
        } = renewal;
        self.kept = analysis;
        self.read = Some(conf);
        Ok(out)
    }

    /// `textDocument/didClose`.
    fn on_close<D: Store, L: Ledger>(
        &mut self,
        params: Option<&Value>,
        store: &mut D,
        steps: &mut Steps<L>,
    ) -> Result<Vec<u8>, SessionError>
        requires store { D.faults store.old + 1 < 2 ^ 64 }
        requires kept { IsKept self.old }
        ensures handled { IfOk result (λ v. Reached (closes (current_state self.old) (closed_by self.old.docs (option_map (λ v. view v.now) params.entry))) (Gives (tells (current_state self.new) v.items)) (D.answers store.old) (D.answers store.new)) }
        ensures kept { OnOk result (IsKept self.new) }
        ensures steps { OnOk result (Works (current_state self.old) (current_state self.new) steps.old steps.new) }
        ensures counted { OnOk result (D.faults store.new ≡ D.faults store.old) }
        ensures refused { IfErr result (λ e. Refused e (closes (current_state self.old) (closed_by self.old.docs (option_map (λ v. view v.now) params.entry))) (D.answers store.old) (D.answers store.new) (D.faults store.old) (D.faults store.new)) }
    {
        let mut prior = PriorTexts::new(self.alloc);
        match close_document(self.alloc, &mut self.docs, &mut prior, params) {
            Ok(path) => match self.after_close(&path, &mut prior, store, steps) {
                Ok(bytes) => Ok(bytes),
                Err(error) => Err(error),
            },
            Err(refusal) => match self.refuse("textDocument/didClose", refusal) {
                Ok(bytes) => Ok(bytes),
                Err(_) => Err(SessionError::NoMemory),
            },
        }
    }

    /// Reads the file of a document that was closed, and publishes what that changed.
    fn after_close<D: Store, L: Ledger>(
        &mut self,
        path: &Path,
        prior: &mut PriorTexts,
        store: &mut D,
        steps: &mut Steps<L>,
    ) -> Result<Vec<u8>, SessionError>
        requires store { D.faults store.old + 1 < 2 ^ 64 }
        requires kept { WereKept prior.old self.old.docs self.old.kept }
        requires read { WasRead self.old.words prior.old self.old.docs self.old.read }
        ensures handled { IfOk result (λ v. HasPublished (read_back (loading self.old.docs []) path.now) (current_state self.old) (current_state self.new) v.items (shown_in self.old.kept.shown) (shown_in self.new.kept.shown) prior.old (D.answers store.old) (D.answers store.new)) }
        ensures kept { OnOk result (IsKept self.new) }
        ensures steps { OnOk result (Renews prior.old self.old.docs self.old.kept (current_state self.new) steps.old steps.new) }
        ensures counted { OnOk result (D.faults store.new ≡ D.faults store.old) }
        ensures refused { IfErr result (λ e. Refused e (read_back (loading self.old.docs []) path.now) (D.answers store.old) (D.answers store.new) (D.faults store.old) (D.faults store.new)) }
    {
        let mut logs = Vec::new(self.alloc);
        match read_back(self.alloc, &mut self.docs, &mut logs, prior, path, store) {
            Ok(()) => {}
            Err(error) => return Err(error),
        }
        match self.finish(Vec::new(self.alloc), logs.as_slice(), prior, None, steps) {
            Ok(bytes) => Ok(bytes),
            Err(_) => Err(SessionError::NoMemory),
        }
    }

    /// `workspace/didChangeWatchedFiles`.
    fn on_watch<D: Store, L: Ledger>(
        &mut self,
        params: Option<&Value>,
        store: &mut D,
        steps: &mut Steps<L>,
    ) -> Result<Vec<u8>, SessionError>
        requires store { D.faults store.old + 1 < 2 ^ 64 }
        requires kept { IsKept self.old }
        ensures handled { IfOk result (λ v. Reached (watches (current_state self.old) (by_params (watching_in (option_map (λ v. view v.now) params.entry)))) (Gives (tells (current_state self.new) v.items)) (D.answers store.old) (D.answers store.new)) }
        ensures kept { OnOk result (IsKept self.new) }
        ensures steps { OnOk result (Works (current_state self.old) (current_state self.new) steps.old steps.new) }
        ensures counted { OnOk result (D.faults store.new ≡ D.faults store.old) }
        ensures refused { IfErr result (λ e. Refused e (watches (current_state self.old) (by_params (watching_in (option_map (λ v. view v.now) params.entry)))) (D.answers store.old) (D.answers store.new) (D.faults store.old) (D.faults store.new)) }
    {
        match watching_in(self.alloc, params) {
            Ok(changes) => match self.after_changes(changes.as_slice(), store, steps) {
                Ok(bytes) => Ok(bytes),
                Err(error) => Err(error),
            },
            Err(error) => match self.refuse(
                "workspace/didChangeWatchedFiles",
                Refusal::of_params(error),
            ) {
                Ok(bytes) => Ok(bytes),
                Err(_) => Err(SessionError::NoMemory),
            },
        }
    }

    /// Takes over changes of files, and publishes what they changed.
    fn after_changes<D: Store, L: Ledger>(
        &mut self,
        changes: &[FileChange<'_>],
        store: &mut D,
        steps: &mut Steps<L>,
    ) -> Result<Vec<u8>, SessionError>
        requires store { D.faults store.old + 1 < 2 ^ 64 }
        requires kept { IsKept self.old }
        ensures handled { IfOk result (λ v. Reached (watches (current_state self.old) (Ok (map seen_file_change changes.now))) (Gives (tells (current_state self.new) v.items)) (D.answers store.old) (D.answers store.new)) }
        ensures kept { OnOk result (IsKept self.new) }
        ensures steps { OnOk result (Works (current_state self.old) (current_state self.new) steps.old steps.new) }
        ensures counted { OnOk result (D.faults store.new ≡ D.faults store.old) }
        ensures refused { IfErr result (λ e. Refused e (watches (current_state self.old) (Ok (map seen_file_change changes.now))) (D.answers store.old) (D.answers store.new) (D.faults store.old) (D.faults store.new)) }
    {
        let mut prior = PriorTexts::new(self.alloc);
        let mut logs = Vec::new(self.alloc);
        match update_all(
            self.alloc,
            &mut self.docs,
            &mut logs,
            &mut prior,
            changes,
            store,
        ) {
            Ok(()) => {}
            Err(error) => return Err(error),
        }
        match self.finish(Vec::new(self.alloc), logs.as_slice(), &prior, None, steps) {
            Ok(bytes) => Ok(bytes),
            Err(_) => Err(SessionError::NoMemory),
        }
    }

    /// The session begins with these texts: it answers `initialize`, and publishes what they show.
    #[tactic(auto, using(crate::proofs::Floats::initialize_has_none))]
    fn begin<L: Ledger>(
        &mut self,
        id: &Id,
        encoding: Encoding,
        prepare: bool,
        loaded: Loaded,
        steps: &mut Steps<L>,
    ) -> Result<Vec<u8>, AllocError>
        requires kept { IsKept self.old }
        requires fresh { self.old.phase ≡ Fresh }
        ensures told { IfOk result (λ v. begins (current_state self.old) id.now encoding prepare (loading loaded.docs loaded.logs.items) ≡ tells (current_state self.new) v.items) }
        ensures kept { OnOk result (IsKept self.new) }
        ensures steps { OnOk result (Works (current_state self.old) (current_state self.new) steps.old steps.new) }
    {
        let Loaded { docs, logs } = loaded;
        let prior = prior_of(self.alloc, &self.docs, &docs)?;
        let answer = initialize_result(self.alloc, encoding, prepare)?;
        let bytes = response(self.alloc, id, answer)?;
        self.docs = docs;
        self.encoding = encoding;
        self.phase = Phase::Running;
        self.read = None;
        match self.finish(bytes, logs.as_slice(), &prior, None, steps) {
            Ok(bytes) => Ok(bytes),
            Err(_) => Err(AllocError),
        }
    }

    /// `initialize`.
    fn on_initialize<D: Store, L: Ledger>(
        &mut self,
        id: &Id,
        params: Option<&Value>,
        store: &mut D,
        steps: &mut Steps<L>,
    ) -> Result<Vec<u8>, SessionError>
        requires store { D.faults store.old + 1 < 2 ^ 64 }
        requires kept { IsKept self.old }
        requires fresh { self.old.phase ≡ Fresh }
        ensures handled { IfOk result (λ v. Reached (starts (current_state self.old) id.now (beginning_by (option_map (λ v. view v.now) params.entry))) (Gives (tells (current_state self.new) v.items)) (D.answers store.old) (D.answers store.new)) }
        ensures kept { OnOk result (IsKept self.new) }
        ensures steps { OnOk result (Works (current_state self.old) (current_state self.new) steps.old steps.new) }
        ensures counted { OnOk result (D.faults store.new ≡ D.faults store.old) }
        ensures refused { IfErr result (λ e. Refused e (starts (current_state self.old) id.now (beginning_by (option_map (λ v. view v.now) params.entry))) (D.answers store.old) (D.answers store.new) (D.faults store.old) (D.faults store.new)) }
    {
        let beginning = match beginning_in(self.alloc, params) {
            Ok(beginning) => beginning,
            Err(refusal) => {
                match self.reject(id, refusal) {
                    Ok(bytes) => return Ok(bytes),
                    Err(_) => return Err(SessionError::NoMemory),
                }
            }
        };
        let Beginning {
            root,
            encoding,
            prepare,
        } = beginning;
        let loaded = match load_root(self.alloc, root, store) {
            Ok(loaded) => loaded,
            Err(error) => return Err(error),
        };
        match self.begin(id, encoding, prepare, loaded, steps) {
            Ok(bytes) => Ok(bytes),
            Err(_) => Err(SessionError::NoMemory),
        }
    }

    /// A request before `initialize`.
    #[tactic(auto, unfolding(crate::specs::React::fresh_request))]
    fn on_fresh_request<D: Store, L: Ledger>(
        &mut self,
        id: &Id,
        method: &str,
        params: Option<&Value>,
        store: &mut D,
        steps: &mut Steps<L>,
    ) -> Result<Vec<u8>, SessionError>
        requires store { D.faults store.old + 1 < 2 ^ 64 }
        requires kept { IsKept self.old }
        requires fresh { self.old.phase ≡ Fresh }
        ensures handled { IfOk result (λ v. Reached (fresh_request (current_state self.old) id.now method.now (option_map (λ v. view v.now) params.entry)) (Gives (tells (current_state self.new) v.items)) (D.answers store.old) (D.answers store.new)) }
        ensures kept { OnOk result (IsKept self.new) }
        ensures steps { OnOk result (Works (current_state self.old) (current_state self.new) steps.old steps.new) }
        ensures counted { OnOk result (D.faults store.new ≡ D.faults store.old) }
        ensures refused { IfErr result (λ e. Refused e (fresh_request (current_state self.old) id.now method.now (option_map (λ v. view v.now) params.entry)) (D.answers store.old) (D.answers store.new) (D.faults store.old) (D.faults store.new)) }
    {
        if method == "initialize" {
            return self.on_initialize(id, params, store, steps);
        }
        match error(self.alloc, Some(id), -32002, "not initialized") {
            Ok(bytes) => Ok(bytes),
            Err(_) => Err(SessionError::NoMemory),
        }
    }

    fn on_request<D: Store, L: Ledger>(
        &mut self,
        id: &Id,
        method: &str,
        params: Option<&Value>,
        store: &mut D,
        steps: &mut Steps<L>,
    ) -> Result<Vec<u8>, SessionError>
        requires store { D.faults store.old + 1 < 2 ^ 64 }
        requires kept { IsKept self.old }
        requires short { AllShort self.old.docs }
        ensures handled { IfOk result (λ v. Reached (on_request self.old.phase (current_state self.old) id.now method.now (option_map (λ v. view v.now) params.entry)) (Gives (tells (current_state self.new) v.items)) (D.answers store.old) (D.answers store.new)) }
        ensures kept { OnOk result (IsKept self.new) }
        ensures steps { OnOk result (WorksBeside (running_work self.old.phase (current_state self.old) method.now (option_map (λ v. view v.now) params.entry)) (current_state self.old) (current_state self.new) steps.old steps.new) }
        ensures counted { OnOk result (D.faults store.new ≡ D.faults store.old) }
        ensures refused { IfErr result (λ e. Refused e (on_request self.old.phase (current_state self.old) id.now method.now (option_map (λ v. view v.now) params.entry)) (D.answers store.old) (D.answers store.new) (D.faults store.old) (D.faults store.new)) }
    {
        match self.phase {
            Phase::Fresh => self.on_fresh_request(id, method, params, store, steps),
            Phase::Running => match self.on_running_request(id, method, params, steps) {
                Ok(bytes) => Ok(bytes),
                Err(_) => Err(SessionError::NoMemory),
            },
            Phase::Down => match error(self.alloc, Some(id), -32600, "shut down") {
                Ok(bytes) => Ok(bytes),
                Err(_) => Err(SessionError::NoMemory),
            },
        }
    }

    /// A notification between `initialize` and `shutdown`.
    #[tactic(auto, unfolding(crate::specs::React::running_notification))]
    fn on_running_notification<D: Store, L: Ledger>(
        &mut self,
        method: &str,
        params: Option<&Value>,
        store: &mut D,
        steps: &mut Steps<L>,
    ) -> Result<Vec<u8>, SessionError>
        requires store { D.faults store.old + 1 < 2 ^ 64 }
        requires kept { IsKept self.old }
        ensures handled { IfOk result (λ v. Reached (running_notification (current_state self.old) method.now (option_map (λ v. view v.now) params.entry)) (Gives (tells (current_state self.new) v.items)) (D.answers store.old) (D.answers store.new)) }
        ensures kept { OnOk result (IsKept self.new) }
        ensures steps { OnOk result (Works (current_state self.old) (current_state self.new) steps.old steps.new) }
        ensures counted { OnOk result (D.faults store.new ≡ D.faults store.old) }
        ensures refused { IfErr result (λ e. Refused e (running_notification (current_state self.old) method.now (option_map (λ v. view v.now) params.entry)) (D.answers store.old) (D.answers store.new) (D.faults store.old) (D.faults store.new)) }
    {
        if method == "textDocument/didOpen" {
            match self.on_open(params, steps) {
                Ok(bytes) => return Ok(bytes),
                Err(_) => return Err(SessionError::NoMemory),
            }
        }
        if method == "textDocument/didChange" {
            match self.on_change(params, steps) {
                Ok(bytes) => return Ok(bytes),
                Err(_) => return Err(SessionError::NoMemory),
            }
        }
        if method == "textDocument/didClose" {
            return self.on_close(params, store, steps);
        }
        if method == "workspace/didChangeWatchedFiles" {
            return self.on_watch(params, store, steps);
        }
        Ok(Vec::new(self.alloc))
    }

    /// A notification.
    #[tactic(auto, unfolding(crate::specs::React::on_notification))]
    fn on_notification<D: Store, L: Ledger>(
        &mut self,
        method: &str,
        params: Option<&Value>,
        store: &mut D,
        steps: &mut Steps<L>,
    ) -> Result<Reply, SessionError>
        requires store { D.faults store.old + 1 < 2 ^ 64 }
        requires kept { IsKept self.old }
        ensures handled { IfOk result (λ reply. Reached (on_notification (current_state self.old) method.now (option_map (λ v. view v.now) params.entry)) (Gives (outcome_of self.new reply)) (D.answers store.old) (D.answers store.new)) }
        ensures kept { OnOk result (IsKept self.new) }
        ensures steps { OnOk result (Works (current_state self.old) (current_state self.new) steps.old steps.new) }
        ensures counted { OnOk result (D.faults store.new ≡ D.faults store.old) }
        ensures refused { IfErr result (λ e. Refused e (on_notification (current_state self.old) method.now (option_map (λ v. view v.now) params.entry)) (D.answers store.old) (D.answers store.new) (D.faults store.old) (D.faults store.new)) }
    {
        if method == "exit" {
            return Ok(Reply {
                bytes: ReplyBytes::from_vec(Vec::new(self.alloc)),
                end: Some(self.phase.exit_status()),
            });
        }
        if !self.phase.is_running() {
            return Ok(Reply::of(Vec::new(self.alloc)));
        }
        match self.on_running_notification(method, params, store, steps) {
            Ok(bytes) => Ok(Reply::of(bytes)),
            Err(error) => Err(error),
        }
    }

    /// The error response to a content that is no request, without an id or with one that may be known.
    fn on_faulty(&self, id: Option<&Id>, code: i32, text: &str) -> Result<Reply, AllocError>
        ensures { IfOk result (λ reply. rejects (current_state self.now) (option_map (λ i. i.now) id.entry) code text.now ≡ outcome_of self.now reply) }
    {
        let bytes = error(self.alloc, id, code, text)?;
        Ok(Reply::of(bytes))
    }

    /// A content that is neither a request nor a notification.
    fn on_other(&self, message: &Message<'_>) -> Result<Reply, AllocError>
        ensures { IfOk result (λ reply. on_other (current_state self.now) (seen message.now) ≡ outcome_of self.now reply) }
    {
        match message {
            Message::NotJson => self.on_faulty(None, -32700, "not JSON"),
            Message::Batch => self.on_faulty(None, -32600, "batch"),
            Message::NotObject => self.on_faulty(None, -32600, "not an object"),
            Message::BadId => self.on_faulty(None, -32600, "bad id"),
            Message::BadMethod(id) => self.on_faulty(id.as_ref(), -32600, "bad method"),
            _ => Ok(Reply::of(Vec::new(self.alloc))),
        }
    }

    /// What is done with a message. After an error this isn't used again.
    pub fn on_message<D: Store, L: Ledger>(
        &mut self,
        message: &Message<'_>,
        store: &mut D,
        steps: &mut Steps<L>,
    ) -> Result<Reply, SessionError>
        requires store { D.faults store.old + 1 < 2 ^ 64 }
        requires kept { IsKept self.old }
        requires short { AllShort self.old.docs }
        ensures handled { IfOk result (λ reply. Reached (on_message (current_state self.old) (seen message.now)) (Gives (outcome_of self.new reply)) (D.answers store.old) (D.answers store.new)) }
        ensures kept { OnOk result (IsKept self.new) }
        ensures steps { OnOk result (IsWork (seen message.now) (current_state self.old) (current_state self.new) steps.old steps.new) }
        ensures counted { OnOk result (D.faults store.new ≡ D.faults store.old) }
        ensures refused { IfErr result (λ e. Refused e (on_message (current_state self.old) (seen message.now)) (D.answers store.old) (D.answers store.new) (D.faults store.old) (D.faults store.new)) }
    {
        nothing_is_renewed();
        match message {
            Message::Request { id, method, params } => {
                match self.on_request(id, *method, *params, store, steps) {
                    Ok(bytes) => Ok(Reply::of(bytes)),
                    Err(error) => Err(error),
                }
            }
            Message::Notification { method, params } => {
                self.on_notification(*method, *params, store, steps)
            }
            _ => match self.on_other(message) {
                Ok(reply) => Ok(reply),
                Err(_) => Err(SessionError::NoMemory),
            },
        }
    }
}
