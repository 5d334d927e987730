// Handling one content, and writing its reply.
ghost use Rattle.std.specs.Prelude.{◌≡◌, ◌+◌, ◌<◌, ◌^◌, None};
ghost use Rattle.c_session.specs.Ties.Sessions.{state_of, handled_by};
ghost use Rattle.c11ls.specs.Ties.Turn.{Turned, IsCounted};

use crate::status::Status;
use crate::writing::write_reply;
use c_session::{Session, SessionError};
use io_edges::{Store, Wire};
use std::sync::ledger::Ledger;
use steps::Steps;

/// Handles one content and writes its reply. None where the call goes on, else the status that it ends with.
pub fn turn<W: Wire, D: Store, L: Ledger>(
    session: &mut Session,
    content: &[u8],
    wire: &mut W,
    store: &mut D,
    steps: &mut Steps<L>,
) -> Option<Status>
    requires sink { W.write_faults wire.old + 1 < 2 ^ 64 }
    requires store { D.faults store.old + 1 < 2 ^ 64 }
    requires few { handled_by session.old < 2 ^ 62 }
    ensures turned { Turned result (state_of session.old) content.now (state_of session.new) (W.told wire.old) (W.told wire.new) (D.answers store.old) (D.answers store.new) }
    ensures count { result ≡ None → handled_by session.new ≡ handled_by session.old + 1 }
    ensures counted { IsCounted result (W.read_faults wire.old) (W.read_faults wire.new) (W.write_faults wire.old) (W.write_faults wire.new) (D.faults store.old) (D.faults store.new) }
{
    let reply = match session.handle(content, store, steps) {
        Ok(reply) => reply,
        Err(SessionError::StoreFault) => return Some(Status::StoreFault),
        Err(SessionError::NoMemory) => return Some(Status::NoMemory),
    };
    match write_reply(wire, reply.bytes.as_slice()) {
        Ok(()) => {}
        Err(_) => return Some(Status::WriteFault),
    }
    match reply.end {
        None => None,
        Some(0) => Some(Status::Done),
        Some(_) => Some(Status::Unclean),
    }
}
