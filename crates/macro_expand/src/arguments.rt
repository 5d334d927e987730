// The arguments of a function-like macro (ISO C11 6.10.3p4, p10 to p12).
ghost use Rattle.std.specs.Prelude.{◌≡◌, [], ◌++◌, ◌∷◌, ◌≤◌, ◌<◌};
ghost use Rattle.std.specs.Prelude.{◌+◌, length, IfOk, OnOk, option_copied};
ghost use Rattle.macro_expand.specs.Arguments as spec;
ghost use Rattle.macro_expand.specs.Ties.Looks.{seen};
ghost use Rattle.macro_expand.specs.Ties.Reading as turns;

use crate::hide::HideSet;
use crate::look::Look;
use crate::rest::Rest;
use crate::tokens::{is_ident, is_mark};
use crate::types::MarkedList;
use macro_table::MacroDef;
use shared_text::Name;
use std::alloc::{AllocError, Global};
use std::marker::Model;
use std::mem;
use tok_data::OutToken;

// Lists of tokens, one an argument.
#[derive(Drop)]
pub(crate) struct ArgumentList {
    items: Vec<MarkedList>,
}

impl Model for ArgumentList {
    ghost use Rattle.std.specs.Prelude.{List};
    ghost use Rattle.macro_expand.specs.declared.types.Marked.{Marked};

    ghost Value = { List (List Marked) };

    ghost view = { λ l. l.items.items };
}

impl ArgumentList {
    pub(crate) fn new(alloc: Global) -> ArgumentList
        ensures { result ≡ [] }
    {
        ArgumentList {
            items: Vec::new(alloc),
        }
    }

    pub(crate) fn as_slice(&self) -> &[MarkedList]
        ensures { result.now ≡ self.now }
    {
        self.items.as_slice()
    }

    pub(crate) fn push(&mut self, argument: MarkedList) -> Result<(), AllocError>
        ensures { OnOk result (self.new ≡ self.old ++ argument ∷ []) }
    {
        self.items.push(argument)?;
        Ok(())
    }
}

// What is known of a call that is being read: how many parentheses are open, the arguments that are read, and the one
// that is being read.
#[derive(Drop)]
pub(crate) struct Reading {
    depth: usize,
    done: ArgumentList,
    current: MarkedList,
}

// What stands behind the name of a function-like macro.
#[derive(Drop)]
pub(crate) enum Called {
    // No opening parenthesis.
    Absent,
    // No closing parenthesis.
    Unclosed,
    // The arguments, the hide set of the closing parenthesis, and how many tokens all of it has.
    Closed {
        args: ArgumentList,
        names: HideSet,
        width: usize,
    },
}

// How many parameters have a name.
pub(crate) fn name_count(def: &MacroDef) -> usize
    ensures { result ≡ length (spec.names_of def.now.params) }
{
    match &def.params {
        Some(names) => names.as_slice().len(),
        None => 0,
    }
}

fn take_token(reading: &mut Reading, token: &Look<'_>) -> Result<(), AllocError>
    ensures { OnOk result (reading.new ≡ turns.taken (seen token.now) reading.old) }
{
    let copy = token.copy()?;
    reading.current.push(copy)
}

fn part_arguments(alloc: Global, reading: &mut Reading) -> Result<(), AllocError>
    ensures { OnOk result (reading.new ≡ turns.parted reading.old) }
{
    let current = mem::replace(&mut reading.current, MarkedList::new(alloc));
    reading.done.push(current)
}

#[tactic(auto, unfolding(crate::specs::Ties::Reading::parts))]
fn parts(def: &MacroDef, reading: &Reading, token: &OutToken) -> bool
    ensures { result ≡ turns.parts def.now reading.now token.now }
{
    if !is_mark(",", token) {
        return false;
    }
    if reading.depth != 1 {
        return false;
    }
    !def.variadic || reading.done.as_slice().len() < name_count(def)
}

fn open_paren(reading: &mut Reading, token: &Look<'_>) -> Result<(), AllocError>
    requires { reading.old.depth < 18446744073709551615 }
    ensures value { OnOk result (reading.new ≡ turns.opened (seen token.now) reading.old) }
    ensures deep { OnOk result (reading.new.depth ≤ reading.old.depth + 1) }
{
    if reading.depth == 0 {
        reading.depth = 1;
        return Ok(());
    }
    take_token(reading, token)?;
    reading.depth += 1;
    Ok(())
}

fn close_paren(
    alloc: Global,
    reading: &mut Reading,
    token: &Look<'_>,
    at: usize,
) -> Result<Option<Called>, AllocError>
    requires depth { 0 < reading.old.depth }
    requires place { at < 18446744073709551615 }
    ensures value { IfOk result (λ called. turns.turned_to reading.new called
        ≡ turns.closed (seen token.now) reading.old at) }
    ensures deep { OnOk result (reading.new.depth ≤ reading.old.depth) }
{
    if reading.depth == 1 {
        part_arguments(alloc, reading)?;
        let done = mem::replace(&mut reading.done, ArgumentList::new(alloc));
        return Ok(Some(Called::Closed {
            args: done,
            names: token.hides.copy(),
            width: at + 1,
        }));
    }
    take_token(reading, token)?;
    reading.depth -= 1;
    Ok(None)
}

// One token more; the call, where it ends.
#[tactic(auto, unfolding(crate::specs::Ties::Reading::turn))]
fn take_turn(
    alloc: Global,
    def: &MacroDef,
    at: usize,
    reading: &mut Reading,
    token: &Look<'_>,
) -> Result<Option<Called>, AllocError>
    requires depth { reading.old.depth ≤ at }
    requires place { at < 18446744073709551615 }
    ensures value { IfOk result (λ called. turns.turned_to reading.new called
        ≡ turns.turn def.now at reading.old (seen token.now)) }
    ensures deep { OnOk result (reading.new.depth ≤ at + 1) }
{
    if is_mark("(", token.token) {
        open_paren(reading, token)?;
        return Ok(None);
    }
    if reading.depth == 0 {
        return Ok(Some(Called::Absent));
    }
    if is_mark(")", token.token) {
        return close_paren(alloc, reading, token, at);
    }
    if parts(def, reading, token.token) {
        part_arguments(alloc, reading)?;
        return Ok(None);
    }
    take_token(reading, token)?;
    Ok(None)
}

fn at_end(reading: &Reading) -> Called
    ensures { result ≡ turns.at_end reading.now }
{
    if reading.depth == 0 {
        Called::Absent
    } else {
        Called::Unclosed
    }
}

// The call that the tokens behind a name begin with. One that isn't closed isn't read.
pub(crate) fn read_call(
    alloc: Global,
    def: &MacroDef,
    rest: &Rest<'_>,
) -> Result<Called, AllocError>
    ensures { IfOk result (λ c. c ≡ spec.called def.now rest.now) }
{
    if rest.is_open() {
        return Ok(Called::Unclosed);
    }
    let mut reading = Reading {
        depth: 0,
        done: ArgumentList::new(alloc),
        current: MarkedList::new(alloc),
    };
    let mut at = 0;
    'tokens: loop {
        let Some(token) = rest.look(at) else {
            return Ok(at_end(&reading));
        };
        let ended = take_turn(alloc, def, at, &mut reading, &token)?;
        if let Some(called) = ended {
            return Ok(called);
        }
        at += 1;
    }
}

fn is_nothing(args: &ArgumentList) -> bool
    ensures { result ≡ spec.is_nothing args.now }
{
    match args.as_slice() {
        [] => true,
        [only] => only.as_slice().is_empty(),
        _ => false,
    }
}

// The arguments as the parameters take them; none where they are too few or too many.
#[tactic(auto, unfolding(crate::specs::Arguments::fitted))]
pub(crate) fn fitted(
    alloc: Global,
    def: &MacroDef,
    args: ArgumentList,
) -> Result<Option<ArgumentList>, AllocError>
    ensures { IfOk result (λ r. r ≡ spec.fitted def.now args) }
{
    let count = args.as_slice().len();
    let names = name_count(def);
    if def.variadic {
        if count == names {
            let mut all = args;
            all.push(MarkedList::new(alloc))?;
            return Ok(Some(all));
        }
        if 0 < count && count - 1 == names {
            return Ok(Some(args));
        }
        return Ok(None);
    }
    if names == 0 && is_nothing(&args) {
        return Ok(Some(ArgumentList::new(alloc)));
    }
    if count == names {
        Ok(Some(args))
    } else {
        Ok(None)
    }
}

// The variable argument is absent.
#[tactic(auto, unfolding(crate::specs::Arguments::lacks_variable))]
pub(crate) fn lacks_variable(def: &MacroDef, args: &ArgumentList) -> bool
    ensures { result ≡ spec.lacks_variable def.now args.now }
{
    if !def.variadic {
        return false;
    }
    args.as_slice().len() == name_count(def)
}

fn arg_by<'a>(
    variadic: bool,
    names: &[Name],
    args: &'a [MarkedList],
    name: &str,
) -> Option<&'a MarkedList>
    ensures { option_copied result ≡ spec.arg_by variadic names.now args.now name.now }
{
    let mut names = names;
    let mut args = args;
    'parameters: loop {
        let Some((arg, behind)) = args.split_first() else {
            return None;
        };
        let Some((first, more)) = names.split_first() else {
            if variadic && name == "__VA_ARGS__" {
                return Some(arg);
            }
            return None;
        };
        if first.as_str() == name {
            return Some(arg);
        }
        names = more;
        args = behind;
    }
}

fn names_of(def: &MacroDef) -> &[Name]
    ensures { result.now ≡ spec.names_of def.now.params }
{
    match &def.params {
        Some(names) => names.as_slice(),
        None => &[],
    }
}

// The argument of a parameter.
#[tactic(auto, unfolding(crate::specs::Arguments::arg_of))]
pub(crate) fn arg_of<'a>(
    def: &MacroDef,
    args: &'a [MarkedList],
    token: &OutToken,
) -> Option<&'a MarkedList>
    ensures { option_copied result ≡ spec.arg_of def.now args.now token.now }
{
    if !is_ident(token.kind) {
        return None;
    }
    arg_by(def.variadic, names_of(def), args, token.spelling.as_str())
}
