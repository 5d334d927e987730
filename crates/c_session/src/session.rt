// The session with one client, and how it handles a content.
ghost use Rattle.std.specs.Prelude.{◌≡◌, ◌+◌, ◌<◌, ◌^◌, true, IfOk, IfErr, OnOk};
ghost use Rattle.c_session.specs.Counts.{counts_of};
ghost use Rattle.c_session.specs.Handled.{Handled, IsWork};
ghost use Rattle.c_session.specs.Ties.Interrupted.{Refused};
ghost use Rattle.c_session.specs.Message.{message};
ghost use Rattle.c_session.specs.React.{asks};
ghost use Rattle.c_session.specs.Responses.{IsAnswered, IsRefusal};
ghost use Rattle.c_session.specs.Ties.Sessions.{state_of, handled_by, is_whole, current_state, IsKept};
ghost use Rattle.c_session.specs.State.{fresh};
ghost use Rattle.project_conf.specs.Defines.{AreUsable};

use crate::counts::Counts;
use crate::current::{Current, Reply};
use crate::error::SessionError;
use crate::message::{message_of, read_content};
use crate::rename_laws::contents_keep_limits;
use doc_texts::texts_stay_short;
use io_edges::Store;
use project_conf::Options;
use std::alloc::{AllocError, Global};
use std::marker::Model;
use std::sync::ledger::Ledger;
use steps::Steps;

/// The session with one client. Contracts see its state, and how many contents it has handled.
#[derive(Drop)]
pub struct Session {
    current: Current,
    handled: u64,
    /// What is kept is what the texts come to, as it is behind each call of `handle` that gave a reply.
    whole: bool,
}

impl Model for Session {
    ghost use Rattle.std.specs.Prelude.{◌≡◌, true};
    ghost use Rattle.c_session.specs.Ties.Sessions.{SessionView, current_state, IsKept};
    ghost use Rattle.std.specs.Coded.{codes};
    ghost use Rattle.doc_texts.specs.Short.{AllShort};
    ghost use Rattle.doc_texts.specs.Texts.{texts_code};

    ghost Value = { SessionView };

    ghost coded = { Prim.hlevel (codes, texts_code) };

    ghost view = { λ s. record { state = current_state s.current; handled = s.handled; whole = s.whole } };

    ghost invariant = { λ s. (s.whole ≡ true → IsKept s.current) × AllShort s.current.docs };
}

// What the texts come to is worked out where it isn't kept, as behind a call that failed.
fn ready<L: Ledger>(
    current: &mut Current,
    whole: bool,
    steps: &mut Steps<L>,
) -> Result<(), AllocError>
    requires { whole ≡ true → IsKept current.old }
    ensures kept { OnOk result (IsKept current.new) }
    ensures steps { OnOk result (whole ≡ true → steps.new ≡ steps.old) }
    ensures same { OnOk result (current_state current.new ≡ current_state current.old) }
    ensures docs { current.new.docs ≡ current.old.docs }
{
    if whole {
        return Ok(());
    }
    current.catch_up(steps)
}

impl Session {
    /// A session before its first content, with what the words of the command line say. The definitions among them have at most
    /// 131,072 bytes of names and texts.
    pub fn new(alloc: Global, options: Options) -> Session
        requires { AreUsable 131072 options.defines }
        ensures state { state_of result ≡ fresh options }
        ensures handled { handled_by result ≡ 0 }
        ensures whole { is_whole result ≡ true }
    {
        texts_stay_short();
        Session {
            current: Current::new(alloc, options),
            handled: 0,
            whole: true,
        }
    }

    /// To how many contents `handle` gave a reply. After an error this isn't told.
    pub fn handled(&self) -> u64
        ensures { result ≡ handled_by self.now }
    {
        self.handled
    }

    /// Handles one content: what the plain server does with it, asking the store for what that wants. Each answer that
    /// the store gives was wanted then. A content that is refused leaves the state. As long as each call gave a reply
    /// (`is_whole`), each unit of the texts that the content left is worked out once, which is one step each, that wasn't a unit before,
    /// is read in another way, or asked something of files that has another answer now, and for a rename each that would ask something that has
    /// another answer with its edits made, and no other unit. Beside these units, a content
    /// that opens, changes or closes a document or tells of files costs the texts' paths, what all units asked and read and their faults,
    /// the database's entries, its text where that is another than before and, where what units see of one another isn't what it was, the names that they show to one another with the types that these
    /// lead to; a rename costs the database's text too. After an error (`StoreFault`, `NoMemory`) the session isn't used again: its state isn't told then, its texts may be
    /// dropped, and a call that came nonetheless might work out more units.
    pub fn handle<D: Store, L: Ledger>(
        &mut self,
        content: &[u8],
        store: &mut D,
        steps: &mut Steps<L>,
    ) -> Result<Reply, SessionError>
        requires store { D.faults store.old + 1 < 2 ^ 64 }
        requires few { handled_by self.old < 2 ^ 62 }
        ensures handled { IfOk result (λ reply. Handled (state_of self.old) content.now (state_of self.new) reply.bytes reply.end (D.answers store.old) (D.answers store.new)) }
        ensures answered { IfOk result (λ reply. IsAnswered (message content.now) reply.bytes) }
        ensures kept { IfOk result (λ reply. IsRefusal (message content.now) reply.bytes → state_of self.new ≡ state_of self.old) }
        ensures count { OnOk result (handled_by self.new ≡ handled_by self.old + 1) }
        ensures whole { OnOk result (is_whole self.new ≡ true) }
        ensures steps { OnOk result (is_whole self.old ≡ true → IsWork (message content.now) (state_of self.old) (state_of self.new) steps.old steps.new) }
        ensures counted { OnOk result (D.faults store.new ≡ D.faults store.old) }
        ensures refused { IfErr result (λ e. Refused e (asks (state_of self.old) content.now) (D.answers store.old) (D.answers store.new) (D.faults store.old) (D.faults store.new)) }
    {
        texts_stay_short();
        contents_keep_limits();
        let value = match read_content(self.current.alloc, content) {
            Ok(value) => value,
            Err(_) => return Err(SessionError::NoMemory),
        };
        let message = match message_of(self.current.alloc, &value) {
            Ok(message) => message,
            Err(_) => {
                drop(value);
                return Err(SessionError::NoMemory);
            }
        };
        self.handled += 1;
        let whole = self.whole;
        self.whole = false;
        match ready(&mut self.current, whole, steps) {
            Ok(()) => {}
            Err(_) => {
                drop(message);
                drop(value);
                return Err(SessionError::NoMemory);
            }
        }
        match self.current.on_message(&message, store, steps) {
            Ok(reply) => {
                self.whole = true;
                drop(message);
                drop(value);
                Ok(reply)
            }
            Err(error) => {
                self.current.forget();
                drop(message);
                drop(value);
                Err(error)
            }
        }
    }

    /// What the texts come to: how many units there are, and how many faults all files show. It changes no text. As long as each call gave
    /// what it promises (`is_whole`) no unit is worked out. It costs the texts' paths, what they show and the database's text. After an
    /// error the session isn't used again.
    pub fn counts<L: Ledger>(&mut self, steps: &mut Steps<L>) -> Result<Counts, AllocError>
        ensures counts { IfOk result (λ counts. counts ≡ counts_of (state_of self.old)) }
        ensures same { OnOk result (state_of self.new ≡ state_of self.old) }
        ensures count { handled_by self.new ≡ handled_by self.old }
        ensures whole { OnOk result (is_whole self.new ≡ true) }
        ensures steps { OnOk result (is_whole self.old ≡ true → steps.new ≡ steps.old) }
    {
        let whole = self.whole;
        self.whole = false;
        ready(&mut self.current, whole, steps)?;
        let counts = self.current.counts()?;
        self.whole = true;
        Ok(counts)
    }
}
