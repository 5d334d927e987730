// The tokens of a unit over the texts of a session, and what it asked for them.
ghost use Rattle.std.specs.Prelude.{◌≡◌, ◌++◌, IfOk, OnOk, map};
ghost use Rattle.asking.specs.LookUps.{asked};
ghost use Rattle.include_units.specs.Coming.{question};
ghost use Rattle.include_units.specs.Units.{unit_tokens};
ghost use Rattle.project_conf.specs.Defines.{AreUsable};
ghost use Rattle.plain_mean.specs.Given.{HasTold, given, tokens_over};

use crate::answers::tell_all;
use crate::lexings::Lexings;
use asking::entries_tell;
use include_units::{
    FileQuestions, Go, Unit, UnitTokens, Want, Wants, files_are_lawful, units_ask_in_order,
};
use project_conf::UnitConf;
use std::alloc::{AllocError, Global};

// Tells a unit all that it wants, and notes that it was asked.
fn go_on(
    lexings: &mut Lexings<'_>,
    wants: Wants,
    unit: &mut Unit,
    asked: &mut Vec<Want>,
) -> Result<(), AllocError>
    ensures told { OnOk result (HasTold lexings.old unit.old.answers unit.new.answers (map question wants)) }
    ensures asked { OnOk result (asked.new.items ≡ asked.old.items ++ wants) }
    ensures same { lexings.new ≡ lexings.old }
    ensures conf { OnOk result (unit.new.conf ≡ unit.old.conf) }
{
    tell_all(lexings, wants.as_slice(), unit)?;
    let mut more = wants.into_vec();
    asked.append(&mut more)?;
    Ok(())
}

/// The tokens of a unit over the texts of a session, and what it asked of files, each question once, in the order of asking. A path without a text counts
/// as one that isn't there, and the unit's own path without a text as an empty text. Names of definitions are identifiers, and their names and texts have
/// together at most 2^28 bytes. It fails for want of memory, and after 2^64-1 rounds of questions, whose answers no memory
/// holds.
pub(crate) fn tokens_over(
    alloc: Global,
    lexings: &mut Lexings<'_>,
    conf: &UnitConf,
) -> Result<(UnitTokens, Wants), AllocError>
    requires { AreUsable 268435456 conf.now.defines }
    ensures tokens { IfOk result (λ r. r.0 ≡ tokens_over lexings.old conf.now) }
    ensures asked { IfOk result (λ r. map question r.1 ≡ asked (given lexings.old) (unit_tokens conf.now)) }
    ensures same { lexings.new ≡ lexings.old }
{
    files_are_lawful();
    units_ask_in_order();
    entries_tell::<FileQuestions>();
    let mut unit = Unit::start(alloc, conf)?;
    let mut asked = Vec::new(alloc);
    'asks: for _ in 0..u64::MAX {
        match unit.go()? {
            Go::Done(tokens) => {
                drop(unit);
                return Ok((tokens, Wants::from_vec(asked)));
            }
            Go::Need(wants) => go_on(lexings, wants, &mut unit, &mut asked)?,
        }
    }
    drop(unit);
    Err(AllocError)
}
