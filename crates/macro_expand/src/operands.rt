// What stands at the front of a replacement list, and what `#` spells (ISO C11 6.10.3.2).
ghost use Rattle.std.specs.Prelude.{◌≡◌, ◌++◌, ◌≤◌, IfOk, OnOk, IsTrue, option_copied, string_bytes, true};
ghost use Rattle.macro_expand.specs.Spelling as spelling;
ghost use Rattle.macro_expand.specs.Ties.Building as spec;

use crate::arguments::arg_of;
use crate::tokens::{is_hash, is_literal};
use crate::types::{Marked, MarkedList};
use macro_table::MacroDef;
use shared_text::Name;
use std::alloc::{AllocError, Global};
use tok_data::{OutToken, PpKind, Spelt, TokIds};

// An operand: its tokens as they are written, the source tokens that it spells, the white space before it, and how many
// tokens of the list it has besides its first.
#[derive(Drop)]
pub(crate) struct Operand {
    // It is a parameter.
    pub(crate) given: bool,
    pub(crate) tokens: MarkedList,
    pub(crate) spelled: TokIds,
    pub(crate) space: bool,
    pub(crate) more: usize,
}

#[tactic(auto, unfolding(crate::specs::Spelling::escaped_char))]
fn push_escaped_char(out: &mut String, c: char) -> Result<(), AllocError>
    ensures { OnOk result (string_bytes out.new ≡ string_bytes out.old ++ spelling.escaped_char c) }
{
    if c == '"' || c == '\\' {
        out.push('\\')?;
        return out.push(c);
    }
    out.push(c)
}

fn push_escaped(out: &mut String, text: &str) -> Result<(), AllocError>
    ensures { OnOk result (string_bytes out.new ≡ string_bytes out.old ++ spelling.escaped text.now) }
{
    for c in text.chars() {
        push_escaped_char(out, c)?;
    }
    Ok(())
}

#[tactic(auto, unfolding(crate::specs::Spelling::shown))]
fn push_shown(out: &mut String, token: &OutToken) -> Result<(), AllocError>
    ensures { OnOk result (string_bytes out.new ≡ string_bytes out.old ++ spelling.shown token.now) }
{
    if is_literal(token.kind) {
        push_escaped(out, token.spelling.as_str())
    } else {
        out.push_str(token.spelling.as_str())
    }
}

fn push_blank(out: &mut String, first: bool, space: bool) -> Result<(), AllocError>
    ensures { OnOk result (string_bytes out.new ≡ string_bytes out.old ++ spelling.blank first space) }
{
    if first {
        return Ok(());
    }
    if space { out.push(' ') } else { Ok(()) }
}

fn push_joined(out: &mut String, tokens: &[Marked]) -> Result<(), AllocError>
    ensures { OnOk result (string_bytes out.new ≡ string_bytes out.old ++ spelling.joined true tokens.now) }
{
    let mut rest = tokens;
    let mut first = true;
    while let Some((token, behind)) = rest.split_first() {
        rest = behind;
        push_blank(out, first, token.token.space_before)?;
        push_shown(out, &token.token)?;
        first = false;
    }
    Ok(())
}

fn quoted_joined(alloc: Global, tokens: &[Marked]) -> Result<Name, AllocError>
    ensures { IfOk result (λ name. name ≡ spelling.quoted (spelling.joined true tokens.now)) }
{
    let mut out = String::new(alloc);
    out.push('"')?;
    push_joined(&mut out, tokens)?;
    out.push('"')?;
    Name::from_str(alloc, out.as_str())
}

// A text as a string literal.
pub(crate) fn quoted_text(alloc: Global, text: &str) -> Result<Name, AllocError>
    ensures { IfOk result (λ name. name ≡ spelling.quoted (spelling.escaped text.now)) }
{
    let mut out = String::new(alloc);
    out.push('"')?;
    push_escaped(&mut out, text)?;
    out.push('"')?;
    Name::from_str(alloc, out.as_str())
}

// The string literal that stands for an argument.
#[tactic(auto, unfolding(crate::specs::Spelling::string_of))]
fn string_of(alloc: Global, hash: &OutToken, arg: &[Marked]) -> Result<Marked, AllocError>
    ensures { IfOk result (λ t. t ≡ spelling.string_of hash.now arg.now) }
{
    let spelling = quoted_joined(alloc, arg)?;
    let site = hash.site.copy()?;
    Ok(Marked::plain(OutToken {
        kind: PpKind::Str,
        spelling,
        space_before: hash.space_before,
        spelt: Spelt::Made,
        site,
    }))
}

fn sources(alloc: Global, tokens: &[Marked]) -> Result<TokIds, AllocError>
    ensures { IfOk result (λ toks. toks ≡ spelling.sources tokens.now) }
{
    let mut out = Vec::new(alloc);
    for token in tokens {
        match &token.token.spelt {
            Spelt::At(tok) => {
                let copy = tok.copy()?;
                out.push(copy)?;
            }
            Spelt::Made => {}
        }
    }
    Ok(TokIds::from_vec(out))
}

fn plain_operand(alloc: Global, token: &OutToken) -> Result<Operand, AllocError>
    ensures { IfOk result (λ o. o ≡ spec.plain_operand token.now) }
{
    let copy = token.copy()?;
    let tokens = MarkedList::one(alloc, Marked::plain(copy))?;
    Ok(Operand {
        given: false,
        tokens,
        spelled: TokIds::from_vec(Vec::new(alloc)),
        space: token.space_before,
        more: 0,
    })
}

fn string_operand(alloc: Global, token: &OutToken, arg: &MarkedList) -> Result<Operand, AllocError>
    ensures { IfOk result (λ o. o ≡ spec.string_operand token.now arg.now) }
{
    let string = string_of(alloc, token, arg.as_slice())?;
    let tokens = MarkedList::one(alloc, string)?;
    let spelled = sources(alloc, arg.as_slice())?;
    Ok(Operand {
        given: false,
        tokens,
        spelled,
        space: token.space_before,
        more: 1,
    })
}

fn argument_operand(
    alloc: Global,
    token: &OutToken,
    arg: &MarkedList,
) -> Result<Operand, AllocError>
    ensures { IfOk result (λ o. o ≡ spec.argument_operand token.now arg.now) }
{
    let tokens = arg.copy(alloc)?;
    Ok(Operand {
        given: true,
        tokens,
        spelled: TokIds::from_vec(Vec::new(alloc)),
        space: token.space_before,
        more: 0,
    })
}

fn first_arg<'a>(
    def: &MacroDef,
    args: &'a [MarkedList],
    tokens: &[OutToken],
) -> Option<&'a MarkedList>
    ensures { option_copied result ≡ spec.first_arg def.now args.now tokens.now }
{
    match tokens.split_first() {
        Some((token, _)) => arg_of(def, args, token),
        None => None,
    }
}

// A token of a replacement list that stands for itself: it is no parameter, and no `#` in front of one.
#[tactic(auto, unfolding(crate::specs::Ties::Building::operand))]
pub(crate) fn is_itself(
    def: &MacroDef,
    args: &[MarkedList],
    token: &OutToken,
    behind: &[OutToken],
) -> bool
    ensures { IsTrue result → spec.operand def.now args.now token.now behind.now ≡ spec.plain_operand token.now }
{
    if is_hash(token) {
        match first_arg(def, args, behind) {
            Some(_) => false,
            None => true,
        }
    } else {
        match arg_of(def, args, token) {
            Some(_) => false,
            None => true,
        }
    }
}

// What stands at the front of a replacement list.
#[tactic(auto, unfolding(crate::specs::Ties::Building::operand))]
pub(crate) fn read_operand(
    alloc: Global,
    def: &MacroDef,
    args: &[MarkedList],
    token: &OutToken,
    behind: &[OutToken],
) -> Result<Operand, AllocError>
    ensures value { IfOk result (λ o. o ≡ spec.operand def.now args.now token.now behind.now) }
    ensures small { IfOk result (λ o. o.more ≤ 1) }
{
    if is_hash(token) {
        match first_arg(def, args, behind) {
            Some(arg) => string_operand(alloc, token, arg),
            None => plain_operand(alloc, token),
        }
    } else {
        match arg_of(def, args, token) {
            Some(arg) => argument_operand(alloc, token, arg),
            None => plain_operand(alloc, token),
        }
    }
}
