// Conditional inclusion (ISO C11 6.10.1).
ghost use Rattle.std.specs.Prelude.{◌≡◌, ◌∷◌, [], IfOk, OnOk, IfSome};
ghost use Rattle.std.specs.FinMap as map;
ghost use Rattle.pp_cond.specs.Defined.{is_defined};
ghost use Rattle.include_units.specs.Coming.{Comes, AtNeed};
ghost use Rattle.include_units.specs.Conditionals as spec;

use crate::made::{Made, is_predefined};
use crate::runs::lines_in;
use crate::stop::Stop;
use crate::texts::Text;
use crate::tokens::is_ident;
use crate::told::Told;
use macro_table::MacroTable;
use pp_cond::{Cond, Truth, condition};
use std::alloc::{AllocError, Global};
use std::collections::VecDeque;
use std::marker::Model;
use tok_data::{MacroRole, OutToken, TokId};

// A conditional whose `#endif` isn't read yet.
#[derive(Debug, Drop)]
pub(crate) struct Open {
    // The name of the directive that opened it.
    pub(crate) name: TokId,
    // It stands in a group that is taken.
    pub(crate) outer: bool,
    // Its group that is read is taken.
    pub(crate) taken: bool,
    // None of its groups was taken so far, and one may be.
    pub(crate) more: bool,
    // Its `#else` was read.
    pub(crate) last: bool,
}

// The conditionals of a text that are open, the innermost first.
#[derive(Debug, Drop)]
pub(crate) struct Opens {
    items: VecDeque<Open>,
}

impl Model for Opens {
    ghost use Rattle.std.specs.Prelude.{List};
    ghost use Rattle.include_units.specs.declared.conditionals.Open.{Open};

    ghost Value = { List Open };

    ghost view = { λ o. o.items.items };
}

impl Opens {
    pub(crate) fn new(alloc: Global) -> Opens
        ensures { result ≡ [] }
    {
        Opens {
            items: VecDeque::new(alloc),
        }
    }

    fn push(&mut self, one: Open) -> Result<(), AllocError>
        ensures { OnOk result (self.new ≡ one ∷ self.old) }
    {
        self.items.push_front(one)?;
        Ok(())
    }

    fn pop(&mut self) -> Option<Open>
        ensures innermost { result ≡ spec.innermost self.old }
        ensures rest { self.new ≡ spec.others self.old }
        ensures whole { IfSome result (λ one. self.old ≡ one ∷ self.new) }
    {
        self.items.pop_front()
    }

    // The group that is read is taken.
    pub(crate) fn is_taken(&self) -> bool
        ensures { result ≡ spec.is_taken self.now }
    {
        match self.items.front() {
            Some(one) => one.taken,
            None => true,
        }
    }

    // The innermost conditional stands in a group that is taken.
    pub(crate) fn is_outer_taken(&self) -> bool
        ensures { result ≡ spec.outer_taken self.now }
    {
        match self.items.front() {
            Some(one) => one.outer,
            None => true,
        }
    }
}

fn holds(truth: &Truth) -> bool
    ensures { result ≡ spec.holds truth.now }
{
    match truth {
        Truth::Yes => true,
        Truth::No => false,
        Truth::Bad => false,
        Truth::Asks(_) => false,
    }
}

fn opened(name: &OutToken, outer: bool, value: bool) -> Result<Open, AllocError>
    ensures { IfOk result (λ one. one ≡ spec.opened name.now outer value) }
{
    let name = name.site.copy()?;
    Ok(Open {
        name,
        outer,
        taken: outer && value,
        more: outer && !value,
        last: false,
    })
}

fn next_group(value: bool, one: Open) -> Open
    ensures { result ≡ spec.next_group value one }
{
    let Open {
        name,
        outer,
        taken: _,
        more,
        last,
    } = one;
    Open {
        name,
        outer,
        taken: more && value,
        more: more && !value,
        last,
    }
}

fn last_group(one: Open) -> Open
    ensures { result ≡ spec.last_group one }
{
    let Open {
        name,
        outer,
        taken: _,
        more,
        last: _,
    } = one;
    Open {
        name,
        outer,
        taken: more,
        more: false,
        last: true,
    }
}

fn condition_again(
    alloc: Global,
    files: &Told,
    text: &Text,
    tokens: &[OutToken],
    made: &Made,
) -> Result<Cond, Stop>
    ensures { Comes files.now (spec.condition_again text.now tokens.now made.now) (λ c. c) result }
{
    match lines_in(alloc, files, &text.source, tokens) {
        Ok(lines) => {
            let again = condition(alloc, tokens, &made.table, lines.as_slice(), made.left)?;
            Ok(again)
        }
        Err(stop) => Err(stop),
    }
}

fn asks(truth: &Truth) -> bool
    ensures { result ≡ spec.asks truth.now }
{
    match truth {
        Truth::Asks(_) => true,
        Truth::Yes => false,
        Truth::No => false,
        Truth::Bad => false,
    }
}

fn condition_in(
    alloc: Global,
    files: &Told,
    text: &Text,
    tokens: &[OutToken],
    made: &Made,
) -> Result<Cond, Stop>
    ensures { Comes files.now (spec.condition_in text.now tokens.now made.now) (λ c. c) result }
{
    let first = condition(alloc, tokens, &made.table, &[], made.left)?;
    if asks(&first.truth) {
        return condition_again(alloc, files, text, tokens, made);
    }
    Ok(first)
}

fn tell_bad(
    alloc: Global,
    name: &OutToken,
    truth: &Truth,
    made: &mut Made,
) -> Result<(), AllocError>
    ensures { OnOk result (made.new ≡ spec.told_bad name.now truth.now made.old) }
{
    match truth {
        Truth::Bad => made.add_fault(alloc, 224, &name.site, ""),
        Truth::Yes => Ok(()),
        Truth::No => Ok(()),
        Truth::Asks(_) => Ok(()),
    }
}

fn tell(alloc: Global, name: &OutToken, cond: Cond, made: &mut Made) -> Result<bool, AllocError>
    ensures { IfOk result (λ value. spec.decided value made.new ≡ spec.told name.now cond made.old) }
{
    let Cond {
        truth,
        used,
        macros,
    } = cond;
    made.left = made.left.saturating_sub(used);
    made.macros.extend(macros.into_vec())?;
    tell_bad(alloc, name, &truth, made)?;
    Ok(holds(&truth))
}

// Whether the group behind a condition is taken.
fn decide(
    alloc: Global,
    files: &Told,
    text: &Text,
    name: &OutToken,
    tokens: &[OutToken],
    made: &mut Made,
) -> Result<bool, Stop>
    ensures decided { Comes files.now (spec.decide text.now name.now tokens.now made.old) (λ value. spec.decided value made.new) result }
    ensures kept { AtNeed result (made.new ≡ made.old) }
{
    match condition_in(alloc, files, text, tokens, made) {
        Ok(cond) => {
            let value = tell(alloc, name, cond, made)?;
            Ok(value)
        }
        Err(stop) => Err(stop),
    }
}

fn open_one(name: &OutToken, outer: bool, value: bool, opens: &mut Opens) -> Result<(), AllocError>
    ensures { OnOk result (opens.new ≡ spec.opened name.now outer value ∷ opens.old) }
{
    let one = opened(name, outer, value)?;
    opens.push(one)
}

// `#if`.
pub(crate) fn if_group(
    alloc: Global,
    files: &Told,
    text: &Text,
    name: &OutToken,
    tokens: &[OutToken],
    opens: &mut Opens,
    made: &mut Made,
) -> Result<(), Stop>
    ensures group { Comes files.now (spec.if_group text.now name.now tokens.now opens.old made.old) (λ _. spec.stand opens.new made.new) result }
    ensures kept { AtNeed result ((opens.new ≡ opens.old) × (made.new ≡ made.old)) }
{
    if !opens.is_taken() {
        open_one(name, false, false, opens)?;
        return Ok(());
    }
    match decide(alloc, files, text, name, tokens, made) {
        Ok(value) => {
            open_one(name, true, value, opens)?;
            Ok(())
        }
        Err(stop) => Err(stop),
    }
}

fn is_defined(table: &MacroTable, name: &str) -> bool
    ensures { result ≡ is_defined (map.get table.now) name.now }
{
    is_predefined(name) || table.get(name).is_some()
}

fn faulty(alloc: Global, name: &OutToken, made: &mut Made) -> Result<bool, AllocError>
    ensures { IfOk result (λ value. spec.decided value made.new ≡ spec.faulty name.now made.old) }
{
    made.add_fault(alloc, 221, &name.site, "")?;
    Ok(false)
}

// Whether the one identifier behind `#ifdef` is defined, or behind `#ifndef` isn't; false where the line has another form.
fn tested(
    alloc: Global,
    name: &OutToken,
    wanted: bool,
    tokens: &[OutToken],
    made: &mut Made,
) -> Result<bool, AllocError>
    ensures { IfOk result (λ value. spec.decided value made.new ≡ spec.tested name.now wanted tokens.now made.old) }
{
    let Some((token, behind)) = tokens.split_first() else {
        return faulty(alloc, name, made);
    };
    if !is_ident(token.kind) {
        return faulty(alloc, name, made);
    }
    made.add_occurrence(MacroRole::Tests, token)?;
    let None = behind.split_first() else {
        return faulty(alloc, name, made);
    };
    let defined = is_defined(&made.table, token.spelling.as_str());
    if wanted {
        return Ok(defined);
    }
    Ok(!defined)
}

// `#ifdef`, and `#ifndef`, which doesn't want its name to be defined.
pub(crate) fn ifdef_group(
    alloc: Global,
    name: &OutToken,
    wanted: bool,
    tokens: &[OutToken],
    opens: &mut Opens,
    made: &mut Made,
) -> Result<(), AllocError>
    ensures { OnOk result (spec.stand opens.new made.new ≡ spec.ifdef_group name.now wanted tokens.now opens.old made.old) }
{
    if !opens.is_taken() {
        return open_one(name, false, false, opens);
    }
    let value = tested(alloc, name, wanted, tokens, made)?;
    open_one(name, true, value, opens)
}

// A fault where the directive stands in a group that is taken.
pub(crate) fn fault_where(
    alloc: Global,
    taken: bool,
    rule: u16,
    tok: &TokId,
    made: &mut Made,
) -> Result<(), AllocError>
    ensures { OnOk result (made.new ≡ spec.fault_where taken rule tok.now made.old) }
{
    if taken {
        return made.add_fault(alloc, rule, tok, "");
    }
    Ok(())
}

// `#elif`, where its condition is read.
fn elif_by(
    alloc: Global,
    files: &Told,
    text: &Text,
    name: &OutToken,
    tokens: &[OutToken],
    one: Open,
    opens: &mut Opens,
    made: &mut Made,
) -> Result<(), Stop>
    ensures group { Comes files.now (spec.elif_decided text.now name.now tokens.now one opens.old made.old) (λ _. spec.stand opens.new made.new) result }
    ensures kept { AtNeed result ((opens.new ≡ one ∷ opens.old) × (made.new ≡ made.old)) }
{
    match decide(alloc, files, text, name, tokens, made) {
        Ok(value) => {
            opens.push(next_group(value, one))?;
            Ok(())
        }
        Err(stop) => {
            opens.push(one)?;
            Err(stop)
        }
    }
}

// `#elif`.
pub(crate) fn elif_group(
    alloc: Global,
    files: &Told,
    text: &Text,
    name: &OutToken,
    tokens: &[OutToken],
    opens: &mut Opens,
    made: &mut Made,
) -> Result<(), Stop>
    ensures group { Comes files.now (spec.elif_group text.now name.now tokens.now opens.old made.old) (λ _. spec.stand opens.new made.new) result }
    ensures kept { AtNeed result ((opens.new ≡ opens.old) × (made.new ≡ made.old)) }
{
    let Some(one) = opens.pop() else {
        made.add_fault(alloc, 225, &name.site, "")?;
        return Ok(());
    };
    if one.last {
        fault_where(alloc, one.outer, 221, &name.site, made)?;
        opens.push(one)?;
        return Ok(());
    }
    if one.more {
        return elif_by(alloc, files, text, name, tokens, one, opens, made);
    }
    opens.push(next_group(false, one))?;
    Ok(())
}

// Tokens behind `#else` and `#endif` are a warning.
fn extra(alloc: Global, shown: bool, tokens: &[OutToken], made: &mut Made) -> Result<(), AllocError>
    ensures { OnOk result (made.new ≡ spec.extra shown tokens.now made.old) }
{
    match tokens.split_first() {
        Some((token, _)) => fault_where(alloc, shown, 230, &token.site, made),
        None => Ok(()),
    }
}

// `#else`.
pub(crate) fn else_group(
    alloc: Global,
    name: &OutToken,
    tokens: &[OutToken],
    opens: &mut Opens,
    made: &mut Made,
) -> Result<(), AllocError>
    ensures { OnOk result (spec.stand opens.new made.new ≡ spec.else_group name.now tokens.now opens.old made.old) }
{
    let Some(one) = opens.pop() else {
        return made.add_fault(alloc, 225, &name.site, "");
    };
    if one.last {
        fault_where(alloc, one.outer, 221, &name.site, made)?;
        return opens.push(one);
    }
    extra(alloc, one.outer, tokens, made)?;
    opens.push(last_group(one))
}

// `#endif`.
pub(crate) fn endif_line(
    alloc: Global,
    name: &OutToken,
    tokens: &[OutToken],
    opens: &mut Opens,
    made: &mut Made,
) -> Result<(), AllocError>
    ensures { OnOk result (spec.stand opens.new made.new ≡ spec.endif_line name.now tokens.now opens.old made.old) }
{
    let Some(one) = opens.pop() else {
        return made.add_fault(alloc, 225, &name.site, "");
    };
    extra(alloc, one.outer, tokens, made)
}

// The end of a text, whose innermost open conditional is a fault.
pub(crate) fn unclosed(alloc: Global, opens: &Opens, made: &mut Made) -> Result<(), AllocError>
    ensures { OnOk result (made.new ≡ spec.unclosed opens.now made.old) }
{
    match opens.items.front() {
        Some(one) => made.add_fault(alloc, 226, &one.name, ""),
        None => Ok(()),
    }
}
