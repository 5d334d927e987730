// Which bytes answer a message, as laws of the definitions.
ghost use Rattle.std.specs.Prelude.{◌≡◌, ◌≢◌, ◌++◌, ℕ, List, Option, Some, Result};
ghost use Rattle.asking.specs.InTurn.{run, Gave};
ghost use Rattle.io_edges.specs.Store.{Entry};
ghost use Rattle.json_view.specs.declared.id.Id.{Id};
ghost use Rattle.c_session.specs.Loading.{Loading, updates_at};
ghost use Rattle.c_session.specs.Message.{message};
ghost use Rattle.c_session.specs.React.{react, Replies, exit_status};
ghost use Rattle.c_session.specs.Reasons.{Reason};
ghost use Rattle.c_session.specs.Responses.{IsResponse, AreNotices, IsAnswered, IsExit, IsRefusal};
ghost use Rattle.c_session.specs.State.{State};
ghost use Rattle.c_session.specs.declared.params.FileChangeKind.{FileChangeKind};

/// A law of the definitions, which has nothing to run: whatever the state and the store's answers, a request gets one
/// response, in front of all else, a notification none, a response of the client nothing, and any other content one
/// response alone (JSON-RPC 2.0, 4 and 5).
pub fn requests_are_answered()
    ensures { (s next : State) (content bytes : List ℕ) (end : Option ℕ) (used : ℕ) (answers : List Entry) →
        react s content answers ≡ Replies next bytes end used → IsAnswered (message content) bytes }
{}

/// A law of the definitions, which has nothing to run: bytes that begin with a response are no notifications. So no
/// frame is both, no bytes answer a request as well as a notification, and a request's response is the only one.
pub fn responses_are_no_notices()
    ensures { (id : Option Id) (first rest : List ℕ) → IsResponse id first → AreNotices (first ++ rest) → ⊥ }
{}

/// A law of the definitions, which has nothing to run: the notification `exit` ends the session, with the status of its
/// phase, and nothing else does (LSP 3.17, "Exit Notification").
pub fn exits_alone_end()
    ensures alone { (s next : State) (content bytes : List ℕ) (status used : ℕ) (answers : List Entry) →
        react s content answers ≡ Replies next bytes (Some status) used → IsExit (message content) }
    ensures end { (s next : State) (content bytes : List ℕ) (end : Option ℕ) (used : ℕ) (answers : List Entry) →
        react s content answers ≡ Replies next bytes end used → IsExit (message content) → end ≡ Some (exit_status s.phase) }
{}

/// A law of the definitions, which has nothing to run: a message that is refused leaves the state, and a change of a watched
/// file that logs a refusal leaves the texts as the change before it left them.
pub fn refusals_change_nothing()
    ensures state { (s next : State) (content bytes : List ℕ) (end : Option ℕ) (used : ℕ) (answers : List Entry) →
        react s content answers ≡ Replies next bytes end used → IsRefusal (message content) bytes → next ≡ s }
    ensures watched { (old new : Loading) (kind : FileChangeKind) (path : Result (List ℕ) Reason) (answers : List Entry) (used : ℕ) →
        run (updates_at old kind path) answers ≡ Gave new used → new.logs ≢ old.logs → new.texts ≡ old.texts }
{}
