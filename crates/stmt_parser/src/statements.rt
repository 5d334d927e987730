// Statements, and what blocks consist of (ISO C11 6.8).
ghost use Rattle.std.specs.Prelude.{◌≡◌, ◌<◌, ◌≤◌, true, length, IfOk, IfErr};
ghost use Rattle.tree_data.specs.Stated.{stmt_of, item_of};
ghost use Rattle.tree_data.specs.Statements.{Stated_of};
ghost use Rattle.c_parser.specs.declared.kinds.Kind.TheVariants as kind;
ghost use Rattle.c_parser.specs.Parts.{PartsLaw};
ghost use Rattle.c_parser.specs.Words.{kind_in};
ghost use Rattle.stmt_parser.specs.Bodies.{is_block};
ghost use Rattle.stmt_parser.specs.Found.{FoundStatement, FailsStatement, FoundItem, FailsItem};
ghost use Rattle.stmt_parser.specs.Fronts as spec;
ghost use Rattle.stmt_parser.specs.InForce.{past_item};
ghost use Rattle.stmt_parser.specs.Steps.{FoundStep, behind_step};

use crate::cores::{breaks, continues, expression, goto_label, returns};
use crate::frames::Progress;
use crate::fronts::{Front, declares_at, front_at};
use crate::outside::outside;
use crate::steps::{
    Step, case_step, default_step, do_step, for_step, if_step, label_step, switch_step, taken,
    while_step,
};
use c_parser::{Kind, Scope, Stop, declaration_at, push};
use std::alloc::Global;
use tree_data::{Item, Stmt};

// A declaration or a statement of a block, and the identifiers in force behind it.
#[cycle(statements)]
fn item<'a>(alloc: Global, scope: Scope<'a>, at: u32) -> Result<(Item, Scope<'a>, u32), Stop>
    requires law { PartsLaw }
    requires size { length scope.kinds ≤ 2000000 }
    requires inside { at ≤ length scope.kinds }
    ensures found { IfOk result (λ r. FoundItem scope.entry at (item_of r.0) r.2) }
    ensures past { IfOk result (λ r. r.1 ≡ past_item scope.entry (item_of r.0)) }
    ensures fails { IfErr result (FailsItem scope.entry at) }
{
    if declares_at(&scope, at) {
        let (head, behind, end) = match declaration_at(alloc, scope, at) {
            Ok(found) => found,
            Err(stop) => return Err(stop),
        };
        let item = match Item::declared(alloc, head) {
            Ok(item) => item,
            Err(_) => return Err(Stop::NoMemory),
        };
        return Ok((item, behind, end));
    }
    match statement(alloc, &scope, at) {
        Ok((stmt, behind, end)) => Ok((Item::stated(stmt), behind, end)),
        Err(stop) => Err(stop),
    }
}

// `{ items }`
#[cycle(statements)]
pub(crate) fn block(alloc: Global, scope: &Scope<'_>, at: u32) -> Result<(Stmt, u32), Stop>
    requires law { PartsLaw }
    requires size { length scope.now.kinds ≤ 2000000 }
    requires inside { at < length scope.now.kinds }
    requires kind { kind_in scope.now at ≡ kind.OpenBrace }
    ensures found { IfOk result (λ r. FoundStatement scope.now at (stmt_of r.0) r.1) }
    ensures braced { IfOk result (λ r. is_block (stmt_of r.0) ≡ true) }
    ensures fails { IfErr result (FailsStatement scope.now at) }
{
    let mut items = Vec::new(alloc);
    let mut inner = match scope.share() {
        Ok(shared) => shared,
        Err(_) => return Err(Stop::NoMemory),
    };
    let mut place = at + 1;
    'items: loop {
        if let Kind::CloseBrace = inner.kind_at(place) {
            return Ok((Stmt::block(at, items, place), place + 1));
        }
        let (item, behind, next) = match item(alloc, inner, place) {
            Ok(found) => found,
            Err(stop) => return Err(stop),
        };
        let Ok(()) = push(&mut items, item) else {
            return Err(Stop::NoMemory);
        };
        inner = behind;
        place = next;
    }
}

// A statement in which others stand in braces, or none, and the identifiers in force behind it.
#[cycle(statements)]
fn core<'a>(
    alloc: Global,
    scope: Scope<'a>,
    at: u32,
    front: Front,
) -> Result<(Stmt, Scope<'a>, u32), Stop>
    requires law { PartsLaw }
    requires size { length scope.kinds ≤ 2000000 }
    requires inside { at ≤ length scope.kinds }
    requires front { spec.IsFront scope at front }
    requires core { spec.IsCore front }
    ensures found { IfOk result (λ r. FoundStatement scope.entry at (stmt_of r.0) r.2) }
    ensures past { IfOk result (λ r. r.1 ≡ past_item scope.entry (Stated_of (stmt_of r.0))) }
    ensures fails { IfErr result (FailsStatement scope.entry at) }
{
    match front {
        Front::Block => match block(alloc, &scope, at) {
            Ok((stmt, end)) => Ok((stmt, scope, end)),
            Err(stop) => Err(stop),
        },
        Front::Goto => goto_label(scope, at),
        Front::Continue => continues(scope, at),
        Front::Break => breaks(scope, at),
        Front::Return => returns(alloc, scope, at),
        _ => expression(alloc, scope, at),
    }
}

// What stands at the front of a statement.
#[cycle(statements)]
fn step_at<'a>(alloc: Global, scope: Scope<'a>, at: u32) -> Result<(Step, Scope<'a>, u32), Stop>
    requires law { PartsLaw }
    requires size { length scope.kinds ≤ 2000000 }
    requires inside { at ≤ length scope.kinds }
    ensures found { IfOk result (λ r. FoundStep scope.entry at r.0 r.2) }
    ensures past { IfOk result (λ r. r.1 ≡ behind_step scope.entry r.0) }
    ensures fails { IfErr result (FailsStatement scope.entry at) }
{
    let front = front_at(&scope, at);
    match front {
        Front::If => if_step(alloc, scope, at),
        Front::Do => Ok(do_step(scope, at)),
        Front::For => for_step(alloc, scope, at),
        Front::Label => Ok(label_step(scope, at)),
        Front::Case => case_step(alloc, scope, at),
        Front::Default => default_step(scope, at),
        Front::Switch => switch_step(alloc, scope, at),
        Front::While => while_step(alloc, scope, at),
        _ => match core(alloc, scope, at, front) {
            Ok((stmt, behind, end)) => Ok((Step::Whole(stmt), behind, end)),
            Err(stop) => Err(stop),
        },
    }
}

// A statement, from left to right, and the identifiers in force behind it: what awaits a statement waits on a list of its own, so that only
// braces need the machine's stack.
#[cycle(statements)]
fn statement<'a>(alloc: Global, scope: &Scope<'a>, at: u32) -> Result<(Stmt, Scope<'a>, u32), Stop>
    requires law { PartsLaw }
    requires size { length scope.now.kinds ≤ 2000000 }
    requires inside { at ≤ length scope.now.kinds }
    ensures found { IfOk result (λ r. FoundStatement scope.now at (stmt_of r.0) r.2) }
    ensures past { IfOk result (λ r. r.1 ≡ past_item scope.now (Stated_of (stmt_of r.0))) }
    ensures fails { IfErr result (FailsStatement scope.now at) }
{
    let mut frames = Vec::new(alloc);
    let mut leads = Vec::new(alloc);
    let mut inner = match scope.share() {
        Ok(shared) => shared,
        Err(_) => return Err(Stop::NoMemory),
    };
    let mut outer = None;
    let mut place = at;
    'steps: loop {
        let Ok(front) = inner.share() else {
            return Err(Stop::NoMemory);
        };
        let (step, behind, next) = match step_at(alloc, inner, place) {
            Ok(found) => found,
            Err(stop) => return Err(stop),
        };
        let Ok(known) = outside(outer, front, place, &step, &behind) else {
            drop(step);
            return Err(Stop::NoMemory);
        };
        let progress = match taken(alloc, scope, at, frames, leads, place, step, behind, next) {
            Ok(progress) => progress,
            Err(stop) => return Err(stop),
        };
        match progress {
            Progress::Whole(stmt, end) => {
                let Some(last) = known else {
                    drop(stmt);
                    return Err(Stop::NoMemory);
                };
                return Ok((stmt, last, end));
            }
            Progress::Goes(more, front, within, end) => {
                frames = more;
                leads = front;
                inner = within;
                outer = known;
                place = end;
            }
        }
    }
}
