// The symbols of constant expressions that tokens are (ISO C11 6.10.1p4).
ghost use Rattle.std.specs.Prelude.{◌≡◌, ◌==◌, ◌||◌};
ghost use Rattle.std.specs.List.{list_any};
ghost use Rattle.pp_cond.specs.Symbols as spec;

use crate::marks::{Mark, mark_of};
use crate::numbers::{Number, signed};
use c_literals::{Literal, character, integer};
use tok_data::{OutToken, PpKind};
use type_data::{IntTy, Value};

// The greatest number of type intmax_t.
const GREATEST: i128 = 9_223_372_036_854_775_807;

#[derive(Clone, Copy, Debug, Drop)]
pub(crate) enum Symbol {
    Constant(Number),
    // A punctuator, or what has no place in such an expression.
    Mark(Mark),
}

fn has_unsigned_suffix(text: &[u8]) -> bool
    ensures { result ≡ spec.has_unsigned_suffix text.now }
{
    text.iter().any(|c| *c == b'u' || *c == b'U')
}

fn number(spelling: &str) -> Symbol
    ensures { result ≡ spec.number spelling.now }
{
    match integer(spelling) {
        Literal::Int(_, value) => Symbol::Constant(Number {
            unsigned: has_unsigned_suffix(spelling.as_bytes()) || GREATEST < value,
            value: Value::Known(value),
        }),
        Literal::Floating(_) | Literal::Bad(_) => Symbol::Mark(Mark::Other),
    }
}

fn character_constant(spelling: &str) -> Symbol
    ensures { result ≡ spec.character_constant spelling.now }
{
    match character(spelling) {
        Literal::Int(ty, value) => Symbol::Constant(Number {
            unsigned: !ty.is_signed(),
            value: Value::Known(value),
        }),
        Literal::Floating(_) | Literal::Bad(_) => Symbol::Mark(Mark::Other),
    }
}

// 1 where it holds, else 0.
pub(crate) fn one_if(holds: bool) -> Symbol
    ensures { result ≡ spec.one_if holds }
{
    Symbol::Constant(signed(Value::Known(if holds { 1 } else { 0 })))
}

fn word(spelling: &str) -> Symbol
    ensures { result ≡ spec.word spelling.now }
{
    if spelling == "defined" {
        return Symbol::Mark(Mark::Other);
    }
    one_if(false)
}

pub(crate) fn symbol_of(token: &OutToken) -> Symbol
    ensures { result ≡ spec.symbol_of token.now }
{
    let spelling = token.spelling.as_str();
    match token.kind {
        PpKind::Ident => word(spelling),
        PpKind::Number => number(spelling),
        PpKind::Char => character_constant(spelling),
        PpKind::Punct => Symbol::Mark(mark_of(spelling)),
        PpKind::Str | PpKind::Header | PpKind::Stray => Symbol::Mark(Mark::Other),
    }
}
