// The server's top call: from the words of the command line to the status of the process.
ghost use Rattle.std.specs.Prelude.{◌≡◌, ℕ, ◌⊎◌, ◌↔◌, ◌+◌, ◌<◌, ◌≤◌, ◌^◌, length, true, false};
ghost use Rattle.c11ls.specs.Calls.{IfTold};
ghost use Rattle.c11ls.specs.Codes.{line_of};
ghost use Rattle.c11ls.specs.Generated.{EndsRun, Generated, run_asked};
ghost use Rattle.c11ls.specs.Ties.Going.{Ended};
ghost use Rattle.c11ls.specs.Lines.{WritesLine};
ghost use Rattle.c11ls.specs.Served.{Served};
ghost use Rattle.c11ls.specs.Ties.Turn.{IsCounted};
ghost use Rattle.project_conf.specs.Words.{texts, are_grammatical, serves, options_of};
ghost use Rattle.std.specs.Prelude.{Some};

use crate::generated::run_generated;
use crate::lines::write_line;
use crate::run::run;
use crate::status::Status;
use c_session::{exits_alone_end, requests_are_answered};
use io_edges::{Sink, Store, Wire};
use project_conf::WordError;
use std::alloc::Global;
use std::sync::ledger::Ledger;
use steps::Steps;

/// What the words ask for: a client that is served until the call ends, a generated run, or nothing, where they aren't in the grammar.
fn answer<W: Wire, D: Store, L: Ledger>(
    alloc: Global,
    words: &[String],
    wire: &mut W,
    store: &mut D,
    steps: &mut Steps<L>,
) -> Status
    requires source { W.read_faults wire.old + 1 < 2 ^ 64 }
    requires sink { W.write_faults wire.old + 1 < 2 ^ 64 }
    requires store { D.faults store.old + 1 < 2 ^ 64 }
    ensures usage { result ≡ Status.Usage → are_grammatical (texts words.now) ≡ false }
    ensures refused { are_grammatical (texts words.now) ≡ false → (result ≡ Status.Usage) ⊎ (result ≡ Status.NoMemory) }
    ensures wire_stays { are_grammatical (texts words.now) ≡ false → W.told wire.new ≡ W.told wire.old }
    ensures store_stays { are_grammatical (texts words.now) ≡ false → D.answers store.new ≡ D.answers store.old }
    ensures read_stays { are_grammatical (texts words.now) ≡ false → W.read_faults wire.new ≡ W.read_faults wire.old }
    ensures write_stays { are_grammatical (texts words.now) ≡ false → W.write_faults wire.new ≡ W.write_faults wire.old }
    ensures fault_stays { are_grammatical (texts words.now) ≡ false → D.faults store.new ≡ D.faults store.old }
    ensures ended { serves (texts words.now) ≡ true → Ended (options_of (texts words.now)) result (W.told wire.old) (W.told wire.new) (D.answers store.old) (D.answers store.new) }
    ensures run { (n : ℕ) → run_asked (texts words.now) ≡ Some n → EndsRun result × IfTold (W.told wire.old) (W.told wire.new) (Generated (options_of (texts words.now)) n result) }
    ensures unread { (n : ℕ) → run_asked (texts words.now) ≡ Some n → (W.read_faults wire.new ≡ W.read_faults wire.old) × (D.answers store.new ≡ D.answers store.old) × (D.faults store.new ≡ D.faults store.old) }
    ensures counted { IsCounted (Some result) (W.read_faults wire.old) (W.read_faults wire.new) (W.write_faults wire.old) (W.write_faults wire.new) (D.faults store.old) (D.faults store.new) }
{
    let options = match project_conf::words(alloc, words) {
        Ok(options) => options,
        Err(WordError::Usage) => return Status::Usage,
        Err(WordError::NoMemory) => return Status::NoMemory,
    };
    match options.generate {
        None => run(alloc, options, wire, store, steps),
        Some(number) => run_generated(alloc, options, number, wire, steps),
    }
}

/// Writes the line of a status, or a front of it.
pub fn tell<E: Sink>(errs: &mut E, status: Status)
    requires { E.faults errs.old + 1 < 2 ^ 64 }
    ensures { WritesLine (line_of status) (E.written errs.old) (E.written errs.new) (E.faults errs.old) (E.faults errs.new) }
{
    let _ = write_line(errs, status);
}

/// Serves the client on the wire, reading files from the store, until the call ends, and says how it ended; or plays a generated session
/// and prints what its texts come to, where the words ask for that.
///
/// `words` are the words after the program's name. What the sink gets is what the plain server writes for all that the
/// source had left: it keeps only the current texts, and analyses every unit anew for each message. Where the call ends
/// early, it is a front of that.
pub fn serve<W: Wire, E: Sink, D: Store, L: Ledger>(
    alloc: Global,
    words: &[String],
    wire: &mut W,
    errs: &mut E,
    store: &mut D,
    steps: &mut Steps<L>,
) -> Status
    requires source { W.read_faults wire.old + 1 < 2 ^ 64 }
    requires sink { W.write_faults wire.old + 1 < 2 ^ 64 }
    requires store { D.faults store.old + 1 < 2 ^ 64 }
    requires errs { E.faults errs.old + 1 < 2 ^ 64 }

    // Usage: only where the words aren't in the grammar, and there, or memory was wanted. Nothing is read or written then.
    ensures usage { result ≡ Status.Usage → are_grammatical (texts words.now) ≡ false }
    ensures refused { are_grammatical (texts words.now) ≡ false → (result ≡ Status.Usage) ⊎ (result ≡ Status.NoMemory) }
    ensures untouched { are_grammatical (texts words.now) ≡ false → (W.told wire.new ≡ W.told wire.old) × (D.answers store.new ≡ D.answers store.old)
        × (W.read_faults wire.new ≡ W.read_faults wire.old) × (W.write_faults wire.new ≡ W.write_faults wire.old) × (D.faults store.new ≡ D.faults store.old) }

    // What the ends got and gave, where the wire tells it: the bytes written are those of the plain server.
    ensures served { serves (texts words.now) ≡ true → IfTold (W.told wire.old) (W.told wire.new)
        (Served (options_of (texts words.now)) result (D.answers store.old) (D.answers store.new)) }

    // A generated run, for words that ask for one: nothing is read, and the store isn't called. The sink got the three lines, or a front of
    // them where its count rose, or nothing for want of memory.
    ensures generated { (n : ℕ) → run_asked (texts words.now) ≡ Some n → EndsRun result × IfTold (W.told wire.old) (W.told wire.new)
        (Generated (options_of (texts words.now)) n result) }
    ensures unread { (n : ℕ) → run_asked (texts words.now) ≡ Some n → (W.read_faults wire.new ≡ W.read_faults wire.old)
        × (D.answers store.new ≡ D.answers store.old) × (D.faults store.new ≡ D.faults store.old) }

    // A fault: exactly where the count of that very end rose.
    ensures read_fault { (result ≡ Status.ReadFault) ↔ (W.read_faults wire.old < W.read_faults wire.new) }
    ensures write_fault { (result ≡ Status.WriteFault) ↔ (W.write_faults wire.old < W.write_faults wire.new) }
    ensures store_fault { (result ≡ Status.StoreFault) ↔ (D.faults store.old < D.faults store.new) }

    // The error sink got the status's line, or a front of it where its count rose, and nothing else.
    ensures line { WritesLine (line_of result) (E.written errs.old) (E.written errs.new) (E.faults errs.old) (E.faults errs.new) }
{
    // laws, for what answers each content
    requests_are_answered();
    exits_alone_end();
    let status = answer(alloc, words, wire, store, steps);
    tell(errs, status);
    status
}
