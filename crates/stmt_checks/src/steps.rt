// What is done with a judged expression, and steps that ask for nothing (ISO C11 6.8).
ghost use Rattle.std.specs.Prelude.{◌≡◌, OnOk, Some, None};
ghost use Rattle.elab_core.specs.Constants.{as_needed};
ghost use Rattle.stmt_checks.specs.Acting as spec;
ghost use Rattle.stmt_checks.specs.Standings as standings;
ghost use Rattle.stmt_checks.specs.Then.{done as done_of};
ghost use Rattle.stmt_rules.specs.Jumps as rules;
ghost use Rattle.stmt_rules.specs.Returns.{return_fault};

use crate::standing::{Standing, tell};
use elab_core::needed;
use std::alloc::{AllocError, Global};
use stmt_rules::{check_break, check_continue, check_if, check_loop, check_return, check_switch};
use type_data::{CType, Judged, Value};

/// What is done with the judgement of an expression.
#[derive(Clone, Copy, Drop)]
pub(crate) enum Then {
    Nothing,
    If(u32),
    Loop(u32),
    Switch(u32),
    /// `case`, and the first token of its expression.
    Case(u32, u32),
    Return(u32),
}

fn test_if(
    alloc: Global,
    standing: &mut Standing,
    at: u32,
    judged: &Judged,
) -> Result<(), AllocError>
    ensures { OnOk result (standing.new ≡ spec.tested 603 at judged.now standing.old) }
{
    let fault = check_if(alloc, at, judged)?;
    tell(standing, fault)
}

fn test_loop(
    alloc: Global,
    standing: &mut Standing,
    at: u32,
    judged: &Judged,
) -> Result<(), AllocError>
    ensures { OnOk result (standing.new ≡ spec.tested 608 at judged.now standing.old) }
{
    let fault = check_loop(alloc, at, judged)?;
    tell(standing, fault)
}

fn enter_switch(
    alloc: Global,
    standing: &mut Standing,
    at: u32,
    judged: &Judged,
) -> Result<(), AllocError>
    ensures { OnOk result (standing.new ≡ spec.switched at judged.now standing.old) }
{
    let fault = check_switch(alloc, at, judged)?;
    tell(standing, fault)?;
    standing.switches.enter(alloc, judged)?;
    Ok(())
}

fn with_value(
    alloc: Global,
    standing: &mut Standing,
    at: u32,
    value: Option<Value>,
) -> Result<(), AllocError>
    ensures { OnOk result (standing.new ≡ spec.with_value at (as_needed value) standing.old) }
{
    match value {
        Some(value) => {
            let fault = standing.switches.case_label(alloc, at, value)?;
            tell(standing, fault)
        }
        None => Ok(()),
    }
}

// `first` is the first token of the expression.
fn label_case(
    alloc: Global,
    standing: &mut Standing,
    at: u32,
    first: u32,
    judged: &Judged,
) -> Result<(), AllocError>
    ensures { OnOk result (standing.new ≡ spec.cased at first judged.now standing.old) }
{
    let value = needed(alloc, &mut standing.made, first, judged)?;
    with_value(alloc, standing, at, value)
}

fn return_value(
    alloc: Global,
    function: &CType,
    standing: &mut Standing,
    at: u32,
    judged: &Judged,
) -> Result<(), AllocError>
    ensures { OnOk result (standing.new ≡ spec.returned function.now at judged.now standing.old) }
{
    let fault = check_return(alloc, at, function, Some(judged))?;
    tell(standing, fault)
}

/// What is done with the judgement of an expression, in a function of this type.
pub(crate) fn done(
    alloc: Global,
    function: &CType,
    standing: &mut Standing,
    then: Then,
    judged: &Judged,
) -> Result<(), AllocError>
    ensures { OnOk result (standing.new ≡ done_of function.now then judged.now standing.old) }
{
    match then {
        Then::Nothing => Ok(()),
        Then::If(at) => test_if(alloc, standing, at, judged),
        Then::Loop(at) => test_loop(alloc, standing, at, judged),
        Then::Switch(at) => enter_switch(alloc, standing, at, judged),
        Then::Case(at, first) => label_case(alloc, standing, at, first, judged),
        Then::Return(at) => return_value(alloc, function, standing, at, judged),
    }
}

/// `default` (6.8.4.2p3).
pub(crate) fn label_default(
    alloc: Global,
    standing: &mut Standing,
    at: u32,
) -> Result<(), AllocError>
    ensures { OnOk result (standing.new ≡ spec.defaulted at standing.old) }
{
    let fault = standing.switches.default_label(alloc, at);
    tell(standing, fault)
}

fn within(within: stmt_acts::Within) -> stmt_rules::Within
    ensures { result ≡ spec.within within }
{
    stmt_rules::Within {
        looping: within.looping,
        switching: within.switching,
    }
}

/// `continue` (6.8.6.2).
pub(crate) fn continue_act(
    alloc: Global,
    standing: &mut Standing,
    at: u32,
    round: stmt_acts::Within,
) -> Result<(), AllocError>
    ensures { OnOk result (standing.new ≡ standings.told (rules.continue_fault at (spec.within round)) standing.old) }
{
    let fault = check_continue(alloc, at, within(round));
    tell(standing, fault)
}

/// `break` (6.8.6.3).
pub(crate) fn break_act(
    alloc: Global,
    standing: &mut Standing,
    at: u32,
    round: stmt_acts::Within,
) -> Result<(), AllocError>
    ensures { OnOk result (standing.new ≡ standings.told (rules.break_fault at (spec.within round)) standing.old) }
{
    let fault = check_break(alloc, at, within(round));
    tell(standing, fault)
}

/// `return` without a value (6.8.6.4p1).
pub(crate) fn return_nothing(
    alloc: Global,
    function: &CType,
    standing: &mut Standing,
    at: u32,
) -> Result<(), AllocError>
    ensures { OnOk result (standing.new ≡ standings.told (return_fault at function.now None) standing.old) }
{
    let fault = check_return(alloc, at, function, None)?;
    tell(standing, fault)
}
