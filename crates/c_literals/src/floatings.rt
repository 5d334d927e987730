// Floating constants (ISO C11 6.4.4.2), and preprocessing numbers as constants.
ghost use Rattle.std.specs.Prelude.{◌≡◌};
ghost use Rattle.c_literals.specs.Floating;

use crate::digits::{begins_with, behind, byte_at, run};
use crate::integers::{has_prefix, integer_constant};
use crate::literal::{BAD_NUMBER, Literal};
use type_data::Basic;

#[tactic(auto, unfolding(crate::specs::Floating::floating_suffix))]
fn floating_suffix(text: &[u8]) -> Option<Basic>
    ensures { result ≡ Floating.floating_suffix text.now }
{
    if text.len() == 0 {
        return Some(Basic::Double);
    }
    if text.len() == 1 && begins_with(b'f', b'F', text) {
        return Some(Basic::Float);
    }
    if text.len() == 1 && begins_with(b'l', b'L', text) {
        return Some(Basic::LongDouble);
    }
    None
}

fn without_sign(text: &[u8]) -> &[u8]
    ensures { result.now ≡ Floating.without_sign text.now }
{
    if begins_with(b'+', b'-', text) {
        return behind(text, 1);
    }
    text
}

// An exponent behind its letter, and the suffix.
#[tactic(auto, unfolding(crate::specs::Floating::exponent))]
fn exponent(text: &[u8]) -> Option<Basic>
    ensures { result ≡ Floating.exponent text.now }
{
    let digits = without_sign(text);
    let count = run(10, digits);
    if count == 0 {
        return None;
    }
    floating_suffix(behind(digits, count))
}

fn begins_exponent(base: u8, text: &[u8]) -> bool
    ensures { result ≡ Floating.begins_exponent base text.now }
{
    if base == 16 {
        return begins_with(b'p', b'P', text);
    }
    begins_with(b'e', b'E', text)
}

// What follows the digits and the point.
#[tactic(auto, unfolding(crate::specs::Floating::ending))]
fn ending(base: u8, pointed: bool, text: &[u8]) -> Option<Basic>
    ensures { result ≡ Floating.ending base pointed text.now }
{
    if begins_exponent(base, text) {
        return exponent(behind(text, 1));
    }
    if pointed && base == 10 {
        return floating_suffix(text);
    }
    None
}

// What follows the point; `some` says that a digit stands before it.
#[tactic(auto, unfolding(crate::specs::Floating::fraction))]
fn fraction(base: u8, some: bool, text: &[u8]) -> Option<Basic>
    ensures { result ≡ Floating.fraction base some text.now }
{
    let count = run(base, text);
    if some || count != 0 {
        return ending(base, true, behind(text, count));
    }
    None
}

#[tactic(auto, unfolding(crate::specs::Floating::floating))]
fn floating(base: u8, text: &[u8]) -> Option<Basic>
    ensures { result ≡ Floating.floating base text.now }
{
    let count = run(base, text);
    let rest = behind(text, count);
    if byte_at(rest, 0) == b'.' {
        return fraction(base, count != 0, behind(rest, 1));
    }
    if count == 0 {
        return None;
    }
    ending(base, false, rest)
}

#[tactic(auto, unfolding(crate::specs::Floating::floating_constant))]
fn floating_constant(text: &[u8]) -> Option<Basic>
    ensures { result ≡ Floating.floating_constant text.now }
{
    if has_prefix(text) {
        return floating(16, behind(text, 2));
    }
    floating(10, text)
}

/// The constant that a preprocessing number is: an integer constant has the first type of its list (ISO C11 6.4.4.1p5)
/// that has its value, and is rule 311 where none has; a floating one has the type of its suffix (6.4.4.2p4); every other
/// spelling is rule 312.
pub fn integer(spelling: &str) -> Literal
    ensures { result ≡ Floating.integer spelling.now }
{
    let text = spelling.as_bytes();
    if let Some(found) = integer_constant(text) {
        return found;
    }
    match floating_constant(text) {
        Some(ty) => Literal::Floating(ty),
        None => Literal::Bad(BAD_NUMBER),
    }
}
