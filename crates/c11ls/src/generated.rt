// The generated run: a session without a client, and what its texts come to.
ghost use Rattle.std.specs.Prelude.{◌≡◌, ℕ, ◌+◌, ◌≤◌, ◌<◌, ◌^◌, [], length, map, string_bytes, Some, IfOk, OnOk};
ghost use Rattle.c_session.specs.Ties.Sessions.{state_of, handled_by};
ghost use Rattle.project_conf.specs.Defines.{AreUsable};
ghost use Rattle.c11ls.specs.Calls.{IfTold};
ghost use Rattle.c11ls.specs.Generated.{EndsRun, Generated, left_by, line, lines, printed};
ghost use Rattle.c11ls.specs.Ties.Turn.{IsCounted};

use crate::status::Status;
use crate::writing::write_reply;
use c_session::{Counts, Session};
use gen_project::generate;
use io_edges::{Found, Listed, Store, StoreFail, Wire};
use itoa::Buffer;
use project_conf::Options;
use std::alloc::{AllocError, Global};
use std::sync::ledger::Ledger;
use steps::Steps;

/// A store that gives no answer. A content that is handled over it has asked for none.
#[derive(Drop)]
struct NoStore {}

impl Store for NoStore {
    ghost use Rattle.std.specs.Prelude.{[], Some};

    ghost answers = { λ _. Some [] };

    ghost faults = { λ _. 0 };

    fn list(&mut self, _alloc: Global, _root: &str) -> Result<Vec<Listed>, StoreFail> {
        Err(StoreFail::NoMemory)
    }

    fn read(&mut self, _alloc: Global, _path: &str) -> Result<Found, StoreFail> {
        Err(StoreFail::NoMemory)
    }
}

/// Hands contents to a session.
fn hand<L: Ledger>(
    session: &mut Session,
    contents: &[String],
    steps: &mut Steps<L>,
) -> Result<(), AllocError>
    requires { handled_by session.old + length contents.now ≤ 2 ^ 62 }
    ensures { OnOk result (state_of session.new ≡ left_by (state_of session.old) (map string_bytes contents.now)) }
{
    let mut store = NoStore {};
    let mut rest = contents;
    'contents: while let Some((content, behind)) = rest.split_first() {
        rest = behind;
        match session.handle(content.as_bytes(), &mut store, steps) {
            Ok(_) => {}
            Err(_) => return Err(AllocError),
        }
    }
    Ok(())
}

fn line(alloc: Global, name: &'static str, number: u128) -> Result<String, AllocError>
    ensures { IfOk result (λ text. string_bytes text ≡ line name.now number) }
{
    let mut buffer = Buffer::new();
    let mut text = String::from_str(alloc, name)?;
    text.push_str(buffer.format(number))?;
    text.push_str("\n")?;
    Ok(text)
}

fn lines(alloc: Global, number: u32, counts: Counts) -> Result<String, AllocError>
    requires { number ≤ 512 }
    ensures { IfOk result (λ text. string_bytes text ≡ lines number counts) }
{
    let mut text = line(alloc, "messages ", (2 * number + 5) as u128)?;
    let units = line(alloc, "units ", counts.units as u128)?;
    text.push_str(units.as_str())?;
    let faults = line(alloc, "faults ", counts.faults)?;
    text.push_str(faults.as_str())?;
    Ok(text)
}

/// What a generated run of so many units prints.
#[tactic(auto, unfolding(crate::specs::Generated::printed))]
fn printed<L: Ledger>(
    alloc: Global,
    options: Options,
    number: u32,
    steps: &mut Steps<L>,
) -> Result<String, AllocError>
    requires usable { AreUsable 131072 options.defines }
    requires number { 1 ≤ number × number ≤ 512 }
    ensures { IfOk result (λ text. string_bytes text ≡ printed options number) }
{
    let contents = generate(alloc, number)?;
    let mut session = Session::new(alloc, options);
    hand(&mut session, contents.as_slice(), steps)?;
    let counts = session.counts(steps)?;
    lines(alloc, number, counts)
}

/// Plays a generated session of so many units, from 1 to 512, and writes what its texts come to: three lines, with how many messages
/// there were, how many units there are and how many faults all files show.
pub fn run_generated<W: Wire, L: Ledger>(
    alloc: Global,
    options: Options,
    number: u32,
    wire: &mut W,
    steps: &mut Steps<L>,
) -> Status
    requires usable { AreUsable 131072 options.defines }
    requires number { 1 ≤ number × number ≤ 512 }
    requires sink { W.write_faults wire.old + 1 < 2 ^ 64 }
    ensures ended { EndsRun result }
    ensures generated { IfTold (W.told wire.old) (W.told wire.new) (Generated options number result) }
    ensures unread { W.read_faults wire.new ≡ W.read_faults wire.old }
    ensures counted { (store : ℕ) → IsCounted (Some result) (W.read_faults wire.old) (W.read_faults wire.new) (W.write_faults wire.old) (W.write_faults wire.new) store store }
{
    let text = match printed(alloc, options, number, steps) {
        Ok(text) => text,
        Err(_) => return Status::NoMemory,
    };
    match write_reply(wire, text.as_bytes()) {
        Ok(()) => Status::Done,
        Err(_) => Status::WriteFault,
    }
}
