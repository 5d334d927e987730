// Requests between `initialize` and `shutdown`.
ghost use Rattle.std.specs.Prelude.{◌≡◌, ◌≢◌, ◌+◌, Some, Ok, bytes_eq, IfOk, OnOk, option_map, if◌then◌else◌};
ghost use Rattle.serde_json.specs.View.{view};
ghost use Rattle.doc_texts.specs.Short.{AllShort};
ghost use Rattle.c_session.specs.Questions.{about_in};
ghost use Rattle.c_session.specs.Handled.{wanted_work};
ghost use Rattle.c_session.specs.React.{tells, answered, answers, renames, settled, settles, running_request};
ghost use Rattle.c_session.specs.Renames.{edits_of, rename_method, renaming_in};
ghost use Rattle.c_session.specs.Ties.Renamings.{seen_renaming};
ghost use Rattle.lsp_answers.specs.Replies.{error, response};
ghost use Rattle.c_session.specs.Refused.{refusal_code, refusal_name};
ghost use Rattle.plain_mean.specs.Ranges.{AreShort};
ghost use Rattle.rename_core.specs.Classes.{tok_cmp};
ghost use Rattle.std.specs.List.Sorted.{IsStrictlySortedBy};
ghost use Rattle.rename_core.specs.declared.error.RenameError.TheVariants.{NoMemory};
ghost use Rattle.c_session.specs.Ties.Sessions.{current_state, IsKept};

use crate::answers::answer;
use crate::current::Current;
use crate::editing::located_edits;
use crate::phase::Phase;
use crate::positions::token_at;
use crate::questions::{QuestionKind, about_in, question_named};
use crate::refused::{refusal_code, refusal_name};
use crate::rename_laws::renames_keep_bindings;
use crate::renames::{Renaming, renaming_in};
use crate::renaming::renamed;
use doc_texts::texts_stay_short;
use json_view::Id;
use lsp_answers::{edits, error, response, response_of};
use plain_mean::edits_of;
use rename_core::{Edits, RenameError};
use serde_json::Value;
use std::alloc::AllocError;
use std::sync::ledger::Ledger;
use steps::Steps;

impl Current {
    /// A question about a file, which is answered from what is kept.
    fn on_question(
        &self,
        id: &Id,
        kind: QuestionKind,
        params: Option<&Value>,
    ) -> Result<Vec<u8>, AllocError>
        requires { IsKept self.now }
        ensures { IfOk result (λ v. answers (current_state self.now) id.now (answered (current_state self.now) (about_in kind (option_map (λ v. view v.now) params.entry))) ≡ tells (current_state self.now) v.items) }
    {
        match about_in(self.alloc, kind, params) {
            Ok(about) => {
                let text = answer(
                    &self.kept,
                    &self.docs,
                    self.encoding,
                    &about.path,
                    about.question,
                )?;
                let bytes = response_of(self.alloc, id, &text)?;
                Ok(bytes)
            }
            Err(refusal) => {
                let bytes = self.reject(id, refusal)?;
                Ok(bytes)
            }
        }
    }

    // The error response to a rename that is refused.
    fn refuse_rename(&self, id: &Id, refusal: RenameError) -> Result<Vec<u8>, AllocError>
        ensures refused { IfOk result (λ _. refusal ≢ NoMemory) }
        ensures error { IfOk result (λ v. v.items ≡ error (Some id.now) (refusal_code refusal) (refusal_name refusal)) }
    {
        let code = refusal_code(&refusal);
        let name = refusal_name(&refusal);
        match refusal {
            RenameError::NoMemory => {
                drop(refusal);
                Err(AllocError)
            }
            _ => {
                drop(refusal);
                match error(self.alloc, Some(id), code, name) {
                    Ok(bytes) => Ok(bytes),
                    Err(_) => Err(AllocError),
                }
            }
        }
    }

    // The response to a rename that isn't refused.
    fn edits_told(&self, id: &Id, renamed: &Edits) -> Result<Vec<u8>, AllocError>
        requires kept { IsKept self.now }
        requires short { AreShort self.now.docs }
        requires order { IsStrictlySortedBy tok_cmp renamed.now.toks }
        ensures { IfOk result (λ v. v.items ≡ response id.now (edits_of self.now.docs self.now.encoding renamed.now)) }
    {
        let made = edits_of(
            self.alloc,
            &self.kept.lexings,
            &self.docs,
            renamed.toks.as_slice(),
        )?;
        let shown = located_edits(self.alloc, &self.docs, self.encoding, made.as_slice())?;
        let text = edits(self.alloc, shown.as_slice(), renamed.new_name.as_str())?;
        let bytes = response_of(self.alloc, id, &text)?;
        Ok(bytes)
    }

    // What a rename comes to.
    fn settle<L: Ledger>(
        &self,
        id: &Id,
        renaming: &Renaming<'_>,
        steps: &mut Steps<L>,
    ) -> Result<Vec<u8>, AllocError>
        requires kept { IsKept self.now }
        requires short { AllShort self.now.docs }
        ensures told { IfOk result (λ v. settles (current_state self.now) id.now (settled (current_state self.now) (seen_renaming renaming.now)) ≡ tells (current_state self.now) v.items) }
        ensures steps { OnOk result (steps.new ≡ steps.old + wanted_work (current_state self.now) (Ok (seen_renaming renaming.now))) }
    {
        texts_stay_short();
        renames_keep_bindings();
        let found = token_at(
            &self.kept,
            &self.docs,
            self.encoding,
            &renaming.path,
            renaming.pos,
        )?;
        let Some(tok) = found else {
            let bytes = self.refuse_rename(id, RenameError::NoName)?;
            return Ok(bytes);
        };
        let conf = self.conf_now()?;
        match renamed(
            &self.kept,
            &self.docs,
            &conf,
            &tok,
            renaming.new_name,
            steps,
        ) {
            Ok(edits) => {
                drop(conf);
                let bytes = self.edits_told(id, &edits)?;
                Ok(bytes)
            }
            Err(refusal) => {
                drop(conf);
                let bytes = self.refuse_rename(id, refusal)?;
                Ok(bytes)
            }
        }
    }

    /// A rename, for which units are worked out over the texts with its edits made. What is kept stays.
    fn on_rename<L: Ledger>(
        &self,
        id: &Id,
        params: Option<&Value>,
        steps: &mut Steps<L>,
    ) -> Result<Vec<u8>, AllocError>
        requires kept { IsKept self.now }
        requires short { AllShort self.now.docs }
        ensures told { IfOk result (λ v. renames (current_state self.now) id.now (renaming_in (option_map (λ v. view v.now) params.entry)) ≡ tells (current_state self.now) v.items) }
        ensures steps { OnOk result (steps.new ≡ steps.old + wanted_work (current_state self.now) (renaming_in (option_map (λ v. view v.now) params.entry))) }
    {
        match renaming_in(self.alloc, params) {
            Ok(renaming) => {
                let bytes = self.settle(id, &renaming, steps)?;
                Ok(bytes)
            }
            Err(refusal) => {
                let bytes = self.reject(id, refusal)?;
                Ok(bytes)
            }
        }
    }

    /// A request between `initialize` and `shutdown`.
    #[tactic(auto, unfolding(crate::specs::React::running_request))]
    pub(crate) fn on_running_request<L: Ledger>(
        &mut self,
        id: &Id,
        method: &str,
        params: Option<&Value>,
        steps: &mut Steps<L>,
    ) -> Result<Vec<u8>, AllocError>
        requires kept { IsKept self.old }
        requires short { AllShort self.old.docs }
        ensures steps { OnOk result (steps.new ≡ steps.old + (if bytes_eq method.now rename_method then wanted_work (current_state self.old) (renaming_in (option_map (λ v. view v.now) params.entry)) else 0)) }
        ensures told { IfOk result (λ v. running_request (current_state self.old) id.now method.now (option_map (λ v. view v.now) params.entry) ≡ tells (current_state self.new) v.items) }
        ensures kept { OnOk result (IsKept self.new) }
    {
        if method == "initialize" {
            let bytes = error(self.alloc, Some(id), -32600, "already initialized")?;
            return Ok(bytes);
        }
        if method == "shutdown" {
            let bytes = response(self.alloc, id, Value::Null)?;
            self.phase = Phase::Down;
            return Ok(bytes);
        }
        if method == "textDocument/rename" {
            let bytes = self.on_rename(id, params, steps)?;
            return Ok(bytes);
        }
        let Some(kind) = question_named(method) else {
            let bytes = error(self.alloc, Some(id), -32601, "unknown method")?;
            return Ok(bytes);
        };
        let bytes = self.on_question(id, kind, params)?;
        Ok(bytes)
    }
}
