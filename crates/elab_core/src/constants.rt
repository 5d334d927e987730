// Constants and string literals (ISO C11 6.4.4, 6.4.5), and integer constant expressions where one is needed (6.6).
ghost use Rattle.std.specs.Prelude.{◌≡◌, map, slice_get, IfOk};
ghost use Rattle.c_literals.specs.Strings;
ghost use Rattle.elab_core.specs.Constants as spec;
ghost use Rattle.elab_state.specs.Comes.{Comes};
ghost use Rattle.elab_state.specs.Seen.{context_of, told_of};
ghost use Rattle.elab_state.specs.Tokens.{bare_tokens, spelling};

use crate::rows::row;
use c_literals::{LitError, Literal, character, integer, string_pieces};
use elab_state::{Around, Halt, Made, fault_at, first_number, name_at};
use expr_rules::Form;
use shared_text::Name;
use std::alloc::{AllocError, Global};
use tok_data::{OutToken, PpKind};
use type_data::{Constancy, Judged, Value};
use type_rel::{converted, is_bad};

fn by_kind(kind: PpKind, text: &str) -> Literal
    ensures { result ≡ spec.by_kind kind text.now }
{
    match kind {
        PpKind::Char => character(text),
        PpKind::Number => integer(text),
        PpKind::Ident => integer(text),
        PpKind::Str => integer(text),
        PpKind::Header => integer(text),
        PpKind::Punct => integer(text),
        PpKind::Stray => integer(text),
    }
}

fn literal_at(tokens: &[OutToken], at: u32) -> Literal
    ensures { result ≡ spec.literal_of (slice_get (bare_tokens tokens.now) at) }
{
    match tokens.get(at as usize) {
        Some(token) => by_kind(token.kind, token.spelling.as_str()),
        None => integer(""),
    }
}

/// A constant.
pub fn constant(
    alloc: Global,
    around: &Around<'_>,
    made: &mut Made,
    at: u32,
) -> Result<Judged, Halt>
    ensures { Comes (told_of around.now) (spec.constant (context_of around.now) at made.old) (λ j. j) result made.new }
{
    let literal = literal_at(around.tokens, at);
    row(alloc, around, made, at, Form::Constant(literal), &[])
}

pub(crate) fn spellings(
    alloc: Global,
    tokens: &[OutToken],
    numbers: &[u32],
) -> Result<Vec<Name>, AllocError>
    ensures { IfOk result (λ names. names.items ≡ map (spelling (bare_tokens tokens.now)) numbers.now) }
{
    let mut names = Vec::new(alloc);
    let mut rest = numbers;
    'numbers: while let Some((number, others)) = rest.split_first() {
        let name = name_at(alloc, tokens, *number)?;
        names.push(name)?;
        rest = others;
    }
    Ok(names)
}

fn text_form(alloc: Global, names: &[Name]) -> Result<Form, AllocError>
    ensures { IfOk result (λ f. f ≡ spec.text_form (Strings.string_pieces names.now)) }
{
    match string_pieces(alloc, names) {
        Ok(value) => Ok(Form::Text(value)),
        Err(LitError::Bad(rule)) => Ok(Form::BadText(rule)),
        Err(LitError::NoMemory) => Err(AllocError),
    }
}

fn form_of(alloc: Global, tokens: &[OutToken], pieces: &[u32]) -> Result<Form, AllocError>
    ensures { IfOk result (λ f. f ≡ spec.text_form (Strings.string_pieces (map (spelling (bare_tokens tokens.now)) pieces.now))) }
{
    let names = spellings(alloc, tokens, pieces)?;
    text_form(alloc, names.as_slice())
}

/// A string literal, by its pieces.
pub fn text(
    alloc: Global,
    around: &Around<'_>,
    made: &mut Made,
    pieces: &[u32],
) -> Result<Judged, Halt>
    ensures { Comes (told_of around.now) (spec.text (context_of around.now) pieces.now made.old) (λ j. j) result made.new }
{
    let Ok(form) = form_of(alloc, around.tokens, pieces) else {
        return Err(Halt::NoMemory);
    };
    row(alloc, around, made, first_number(pieces), form, &[])
}

fn tell(alloc: Global, made: &mut Made, rule: u16, at: u32) -> Result<Option<Value>, AllocError>
    ensures { IfOk result (λ v. (spec.as_needed v, made.new) ≡ spec.told rule at made.old) }
{
    made.faults.push(fault_at(alloc, rule, at))?;
    Ok(None)
}

fn of_value(
    alloc: Global,
    made: &mut Made,
    at: u32,
    value: Value,
) -> Result<Option<Value>, AllocError>
    ensures { IfOk result (λ v. (spec.as_needed v, made.new) ≡ spec.of_value at value made.old) }
{
    match value {
        Value::Known(_) => Ok(Some(value)),
        Value::Unknown => Ok(Some(value)),
        Value::Faulty(_) => tell(alloc, made, 531, at),
    }
}

fn of_constancy(
    alloc: Global,
    made: &mut Made,
    at: u32,
    constant: Constancy,
) -> Result<Option<Value>, AllocError>
    ensures { IfOk result (λ v. (spec.as_needed v, made.new) ≡ spec.of_constancy at constant made.old) }
{
    match constant {
        Constancy::Int(value) => of_value(alloc, made, at, value),
        Constancy::No => tell(alloc, made, 530, at),
        Constancy::Arith => tell(alloc, made, 530, at),
        Constancy::Addr => tell(alloc, made, 530, at),
        Constancy::Null => tell(alloc, made, 530, at),
    }
}

/// The value of an expression where an integer constant expression is needed, whose first token is `at`. `None` where it has a fault, which
/// is noted: 530 where it is none, 531 where it has no value.
pub fn needed(
    alloc: Global,
    made: &mut Made,
    at: u32,
    judged: &Judged,
) -> Result<Option<Value>, AllocError>
    ensures { IfOk result (λ v. (spec.as_needed v, made.new) ≡ spec.needed at judged.now made.old) }
{
    if is_bad(&judged.ty) {
        return Ok(None);
    }
    let value = converted(alloc, judged)?;
    of_constancy(alloc, made, at, value.constant)
}
