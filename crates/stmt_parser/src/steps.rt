// What stands at the front of a statement, and how it goes on behind that (ISO C11 6.8).
ghost use Rattle.std.specs.Prelude.{◌≡◌, ◌<◌, ◌≤◌, true, length, IfOk, IfErr};
ghost use Rattle.tree_data.specs.Stated.{leads_of};
ghost use Rattle.c_parser.specs.declared.kinds.Kind.TheVariants as kind;
ghost use Rattle.c_parser.specs.Parts.{PartsLaw};
ghost use Rattle.c_parser.specs.Words.{kind_in};
ghost use Rattle.stmt_parser.specs.Found.{FailsStatement};
ghost use Rattle.stmt_parser.specs.Frames.{Goes, GoesPast};
ghost use Rattle.stmt_parser.specs.Fronts as spec;
ghost use Rattle.stmt_parser.specs.Steps.{FoundStep, Stepped, GoesOn, behind_step};

use crate::frames::{Frame, Opener, Progress, close, inside_opener, opened};
use crate::leads::{case, default_label, for_lead, label, switch, while_test};
use crate::parts::test;
use c_parser::{Scope, Stop, push};
use std::alloc::Global;
use tree_data::{Lead, Stmt};

// Something that stands in front of one more statement, what awaits one, or a whole statement.
#[derive(Drop)]
pub(crate) enum Step {
    Led(Lead),
    Opened(Opener),
    Whole(Stmt),
}

// `case`.
pub(crate) fn case_step<'a>(
    alloc: Global,
    scope: Scope<'a>,
    at: u32,
) -> Result<(Step, Scope<'a>, u32), Stop>
    requires law { PartsLaw }
    requires size { length scope.kinds ≤ 2000000 }
    requires inside { at < length scope.kinds }
    requires kind { kind_in scope at ≡ kind.Case }
    ensures found { IfOk result (λ r. FoundStep scope.entry at r.0 r.2) }
    ensures past { IfOk result (λ r. r.1 ≡ behind_step scope.entry r.0) }
    ensures fails { IfErr result (FailsStatement scope.entry at) }
{
    match case(alloc, scope, at) {
        Ok((lead, inside, end)) => Ok((Step::Led(lead), inside, end)),
        Err(stop) => Err(stop),
    }
}

// `default`.
pub(crate) fn default_step<'a>(scope: Scope<'a>, at: u32) -> Result<(Step, Scope<'a>, u32), Stop>
    requires law { PartsLaw }
    requires size { length scope.kinds ≤ 2000000 }
    requires inside { at < length scope.kinds }
    requires kind { kind_in scope at ≡ kind.Default }
    ensures found { IfOk result (λ r. FoundStep scope.entry at r.0 r.2) }
    ensures past { IfOk result (λ r. r.1 ≡ behind_step scope.entry r.0) }
    ensures fails { IfErr result (FailsStatement scope.entry at) }
{
    match default_label(&scope, at) {
        Ok((lead, end)) => Ok((Step::Led(lead), scope, end)),
        Err(stop) => Err(stop),
    }
}

// `switch`.
pub(crate) fn switch_step<'a>(
    alloc: Global,
    scope: Scope<'a>,
    at: u32,
) -> Result<(Step, Scope<'a>, u32), Stop>
    requires law { PartsLaw }
    requires size { length scope.kinds ≤ 2000000 }
    requires inside { at < length scope.kinds }
    requires kind { kind_in scope at ≡ kind.Switch }
    ensures found { IfOk result (λ r. FoundStep scope.entry at r.0 r.2) }
    ensures past { IfOk result (λ r. r.1 ≡ behind_step scope.entry r.0) }
    ensures fails { IfErr result (FailsStatement scope.entry at) }
{
    match switch(alloc, scope, at) {
        Ok((lead, inside, end)) => Ok((Step::Led(lead), inside, end)),
        Err(stop) => Err(stop),
    }
}

// `while`.
pub(crate) fn while_step<'a>(
    alloc: Global,
    scope: Scope<'a>,
    at: u32,
) -> Result<(Step, Scope<'a>, u32), Stop>
    requires law { PartsLaw }
    requires size { length scope.kinds ≤ 2000000 }
    requires inside { at < length scope.kinds }
    requires kind { kind_in scope at ≡ kind.While }
    ensures found { IfOk result (λ r. FoundStep scope.entry at r.0 r.2) }
    ensures past { IfOk result (λ r. r.1 ≡ behind_step scope.entry r.0) }
    ensures fails { IfErr result (FailsStatement scope.entry at) }
{
    match while_test(alloc, scope, at) {
        Ok((lead, inside, end)) => Ok((Step::Led(lead), inside, end)),
        Err(stop) => Err(stop),
    }
}

// A label.
pub(crate) fn label_step<'a>(scope: Scope<'a>, at: u32) -> (Step, Scope<'a>, u32)
    requires size { length scope.kinds ≤ 2000000 }
    requires inside { at ≤ length scope.kinds }
    requires kind { spec.labels_at scope at ≡ true }
    ensures found { FoundStep scope.entry at result.0 result.2 }
    ensures past { result.1 ≡ behind_step scope.entry result.0 }
{
    let (lead, end) = label(&scope, at);
    (Step::Led(lead), scope, end)
}

// `for`.
pub(crate) fn for_step<'a>(
    alloc: Global,
    scope: Scope<'a>,
    at: u32,
) -> Result<(Step, Scope<'a>, u32), Stop>
    requires law { PartsLaw }
    requires size { length scope.kinds ≤ 2000000 }
    requires inside { at < length scope.kinds }
    requires kind { kind_in scope at ≡ kind.For }
    ensures found { IfOk result (λ r. FoundStep scope.entry at r.0 r.2) }
    ensures past { IfOk result (λ r. r.1 ≡ behind_step scope.entry r.0) }
    ensures fails { IfErr result (FailsStatement scope.entry at) }
{
    match for_lead(alloc, scope, at) {
        Ok((lead, inside, end)) => Ok((Step::Led(lead), inside, end)),
        Err(stop) => Err(stop),
    }
}

// `if`.
pub(crate) fn if_step<'a>(
    alloc: Global,
    scope: Scope<'a>,
    at: u32,
) -> Result<(Step, Scope<'a>, u32), Stop>
    requires law { PartsLaw }
    requires size { length scope.kinds ≤ 2000000 }
    requires inside { at < length scope.kinds }
    requires kind { kind_in scope at ≡ kind.If }
    ensures found { IfOk result (λ r. FoundStep scope.entry at r.0 r.2) }
    ensures past { IfOk result (λ r. r.1 ≡ behind_step scope.entry r.0) }
    ensures fails { IfErr result (FailsStatement scope.entry at) }
{
    match test(alloc, &scope, at + 1) {
        Ok((value, closing)) => Ok((Step::Opened(Opener::If(value, closing)), scope, closing + 1)),
        Err(stop) => Err(stop),
    }
}

// `do`.
pub(crate) fn do_step<'a>(scope: Scope<'a>, at: u32) -> (Step, Scope<'a>, u32)
    requires size { length scope.kinds ≤ 2000000 }
    requires inside { at < length scope.kinds }
    requires kind { kind_in scope at ≡ kind.Do }
    ensures found { FoundStep scope.entry at result.0 result.2 }
    ensures past { result.1 ≡ behind_step scope.entry result.0 }
{
    (Step::Opened(Opener::Do), scope, at + 1)
}

// A step at `place`, up to `next`: `behind` is in force there.
pub(crate) fn taken<'a>(
    alloc: Global,
    scope: &Scope<'_>,
    at: u32,
    frames: Vec<Frame<'a>>,
    leads: Vec<Lead>,
    place: u32,
    step: Step,
    behind: Scope<'a>,
    next: u32,
) -> Result<Progress<'a>, Stop>
    requires law { PartsLaw }
    requires size { length scope.now.kinds ≤ 2000000 }
    requires stepped { Stepped scope.now at frames.items (leads_of leads.items) place step behind next }
    ensures goes { IfOk result (Goes scope.now at) }
    ensures forth { IfOk result (GoesPast place) }
    ensures led { IfOk result (GoesOn step behind.entry next) }
    ensures fails { IfErr result (FailsStatement scope.now at) }
{
    match step {
        Step::Led(lead) => {
            let mut leads = leads;
            let Ok(()) = push(&mut leads, lead) else {
                return Err(Stop::NoMemory);
            };
            Ok(Progress::Goes(frames, leads, behind, next))
        }
        Step::Opened(opener) => {
            let Ok(inner) = inside_opener(alloc, &behind, place, &opener) else {
                return Err(Stop::NoMemory);
            };
            match opened(frames, leads, place, opener, behind) {
                Ok(frames) => Ok(Progress::Goes(frames, Vec::new(alloc), inner, next)),
                Err(_) => Err(Stop::NoMemory),
            }
        }
        Step::Whole(core) => close(alloc, scope, at, frames, leads, core, next),
    }
}
