// One step of a body after another (ISO C11 6.8).
ghost use Rattle.std.specs.Prelude.{◌≡◌, OnOk, option_map};
ghost use Rattle.elab_state.specs.Seen.{context_of, told_of};
ghost use Rattle.stmt_rules.specs.Declarations.{for_fault};
ghost use Rattle.stmt_acts.specs.Shown.{act_of, acts_of};
ghost use Rattle.stmt_checks.specs.Acting as spec;
ghost use Rattle.stmt_checks.specs.Moves.{Moves, halted};
ghost use Rattle.stmt_checks.specs.Standings.{told};
ghost use Rattle.stmt_checks.specs.Then.{done as done_of};
ghost use Rattle.tree_data.specs.Heads.{heading_of};
ghost use Rattle.tree_data.specs.Seen.{tree_of};

use crate::begun::Function;
use crate::labels::{goto_act, label_act};
use crate::standing::{Standing, enter, leave, leave_switch, tell};
use crate::steps::{Then, break_act, continue_act, done, label_default, return_nothing};
use elab_core::{Declaration, declare_in, first_of, judged};
use elab_state::{Around, Halt, Where};
use std::alloc::{AllocError, Global};
use stmt_acts::Act;
use stmt_rules::{ForParts, check_for};
use tree_data::{Expr, Head};

fn halt(done: Result<(), AllocError>) -> Result<(), Halt>
    ensures { result ≡ halted done }
{
    match done {
        Ok(()) => Ok(()),
        Err(_) => Err(Halt::NoMemory),
    }
}

// An expression is judged; what is done with the judgement asks for nothing.
fn judge_then(
    alloc: Global,
    around: &Around<'_>,
    function: &Function,
    standing: &mut Standing,
    expr: &Expr,
    then: Then,
) -> Result<(), Halt>
    ensures { Moves (told_of around.now) (spec.judged (context_of around.now) (tree_of expr.now) (done_of function.now.ty then) standing.old) result standing.new }
{
    let place = Where {
        counted: true,
        defining: false,
    };
    let value = match judged(alloc, around, place, &mut standing.made, expr) {
        Ok(value) => value,
        Err(stop) => return Err(stop),
    };
    halt(done(alloc, &function.ty, standing, then, &value))
}

fn return_act(
    alloc: Global,
    around: &Around<'_>,
    function: &Function,
    standing: &mut Standing,
    at: u32,
    value: Option<&Expr>,
) -> Result<(), Halt>
    ensures { Moves (told_of around.now) (spec.returns (context_of around.now) function.now.ty at (option_map (λ e. tree_of e.now) value.entry) standing.old) result standing.new }
{
    match value {
        Some(value) => judge_then(alloc, around, function, standing, value, Then::Return(at)),
        None => halt(return_nothing(alloc, &function.ty, standing, at)),
    }
}

// A declaration of a block.
fn declare(
    alloc: Global,
    around: &Around<'_>,
    standing: &mut Standing,
    head: &Head,
) -> Result<(), Halt>
    ensures { Moves (told_of around.now) (spec.declared (context_of around.now) (heading_of head.now) standing.old) result standing.new }
{
    let declaration = match declare_in(alloc, around, false, &mut standing.made, head) {
        Ok(declaration) => declaration,
        Err(stop) => return Err(stop),
    };
    drop(declaration);
    Ok(())
}

fn for_parts(declaration: &Declaration) -> ForParts
    ensures { result ≡ spec.for_parts declaration.now }
{
    ForParts {
        first: declaration.first,
        storage: declaration.storage,
        storage_at: declaration.storage_at,
        thread: declaration.thread,
        function: declaration.function,
    }
}

fn test_for(
    alloc: Global,
    standing: &mut Standing,
    declaration: &Declaration,
) -> Result<(), AllocError>
    ensures { OnOk result (standing.new ≡ told (for_fault (spec.for_parts declaration.now)) standing.old) }
{
    let parts = for_parts(declaration);
    let fault = check_for(alloc, &parts);
    tell(standing, fault)
}

// One in the first part of a `for`.
fn declare_in_for(
    alloc: Global,
    around: &Around<'_>,
    standing: &mut Standing,
    head: &Head,
) -> Result<(), Halt>
    ensures { Moves (told_of around.now) (spec.declared_in_for (context_of around.now) (heading_of head.now) standing.old) result standing.new }
{
    let declaration = match declare_in(alloc, around, true, &mut standing.made, head) {
        Ok(declaration) => declaration,
        Err(stop) => return Err(stop),
    };
    halt(test_for(alloc, standing, &declaration))
}

// One step.
fn act(
    alloc: Global,
    around: &Around<'_>,
    function: &Function,
    standing: &mut Standing,
    act: Act<'_>,
) -> Result<(), Halt>
    ensures { Moves (told_of around.now) (spec.acts (context_of around.now) function.now.ty function.now.labels (act_of act.entry) standing.old) result standing.new }
{
    match act {
        Act::Enter => halt(enter(standing)),
        Act::Leave => {
            leave(standing);
            Ok(())
        }
        Act::Evaluate(expr) => judge_then(alloc, around, function, standing, expr, Then::Nothing),
        Act::IfTest(at, expr) => judge_then(alloc, around, function, standing, expr, Then::If(at)),
        Act::LoopTest(at, expr) => {
            judge_then(alloc, around, function, standing, expr, Then::Loop(at))
        }
        Act::SwitchOn(at, expr) => {
            judge_then(alloc, around, function, standing, expr, Then::Switch(at))
        }
        Act::EndSwitch => {
            leave_switch(standing);
            Ok(())
        }
        Act::CaseLabel(at, expr) => {
            let then = Then::Case(at, first_of(expr));
            judge_then(alloc, around, function, standing, expr, then)
        }
        Act::DefaultLabel(at) => halt(label_default(alloc, standing, at)),
        Act::Label(at) => halt(label_act(alloc, around, standing, at)),
        Act::Goto(at) => halt(goto_act(alloc, around, &function.labels, standing, at)),
        Act::Continue(at, within) => halt(continue_act(alloc, standing, at, within)),
        Act::Break(at, within) => halt(break_act(alloc, standing, at, within)),
        Act::Return(at, value) => return_act(alloc, around, function, standing, at, value),
        Act::Declare(head) => declare(alloc, around, standing, head),
        Act::DeclareInFor(head) => declare_in_for(alloc, around, standing, head),
    }
}

/// The steps of a body, from a place of it on. It stops where an answer is wanted: then what stands is told no more.
pub(crate) fn go(
    alloc: Global,
    around: &Around<'_>,
    function: &Function,
    standing: &mut Standing,
    acts: &[Act<'_>],
) -> Result<(), Halt>
    ensures { Moves (told_of around.now) (spec.all_acts (context_of around.now) function.now.ty function.now.labels (acts_of acts.now) standing.old) result standing.new }
{
    'acts: for one in acts {
        match act(alloc, around, function, standing, *one) {
            Ok(()) => (),
            Err(stop) => return Err(stop),
        }
    }
    Ok(())
}
