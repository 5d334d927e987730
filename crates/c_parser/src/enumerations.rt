// Which tokens are enumeration constants where an enumerator declares them, whatever is declared else (ISO C11 6.7.2.2, 6.2.1p7).
ghost use Rattle.std.specs.Prelude.{◌≡◌, ℕ, ◌+◌, ◌<◌, ◌≤◌, ◌&&◌, if◌then◌else◌, length, false, [], IfOk, OnOk, slice_index_or};
ghost use Rattle.std.specs.List.{list_any};
ghost use Rattle.c_parser.specs.Enumerations as spec;

use crate::brackets::{closes, opens};
use crate::kinds::Kind;
use crate::scope::token_at;
use std::alloc::{AllocError, Global};

// Of each token of a unit whether it is an enumeration constant where an enumerator declares it, and of each identifier the number behind the last
// such token in front of it that has its name, or 0.
#[derive(Drop)]
pub(crate) struct Marks {
    constants: Vec<bool>,
    earlier: Vec<u32>,
}

// Whether a list of enumerators opens at this token.
#[tactic(auto, unfolding(crate::specs::Enumerations::opens_list))]
fn opens_list(tokens: &[Kind], at: u32) -> bool
    ensures { result ≡ spec.opens_list tokens.now at }
{
    let before = token_at(tokens, at.saturating_sub(1));
    token_at(tokens, at).is_brace()
        && (before.is_enum()
            || (before.is_word() && token_at(tokens, at.saturating_sub(2)).is_enum()))
}

// Whether `enum` is among them.
fn has_enum(tokens: &[Kind]) -> bool
    ensures { result ≡ list_any spec.is_enum tokens.now }
{
    tokens.iter().any(|kind| kind.is_enum())
}

// The brackets that are open behind this token, the innermost last.
#[tactic(auto, unfolding(crate::specs::Enumerations::open_behind))]
fn open_behind(levels: Vec<bool>, kind: Kind, list: bool) -> Result<Vec<bool>, AllocError>
    ensures { IfOk result (λ v. v.items ≡ spec.open_behind levels.items kind list) }
{
    let mut levels = levels;
    if opens(kind) {
        levels.push(list)?;
        return Ok(levels);
    }
    if closes(kind) {
        let outer = levels.len().saturating_sub(1);
        levels.truncate(outer);
        return Ok(levels);
    }
    Ok(levels)
}

// Whether enumerators stand in the innermost bracket.
fn innermost(levels: &[bool]) -> bool
    ensures { result ≡ spec.innermost levels.now }
{
    flag_at(levels, levels.len().saturating_sub(1))
}

// Whether this token, with these brackets open in front of it, is the constant of an enumerator.
#[tactic(auto, unfolding(crate::specs::Enumerations::is_constant))]
fn is_constant(tokens: &[Kind], at: u32, levels: &[bool]) -> bool
    ensures { result ≡ spec.is_constant tokens.now at levels.now }
{
    let before = token_at(tokens, at.saturating_sub(1));
    innermost(levels) && token_at(tokens, at).is_word() && (before.is_brace() || before.is_comma())
}

// Of each token whether it is such a constant.
fn constants_of(alloc: Global, tokens: &[Kind]) -> Result<Vec<bool>, AllocError>
    requires { length tokens.now ≤ 2000000 }
    ensures { IfOk result (λ v. (i : ℕ) → slice_index_or v.items i false ≡ spec.enumerates tokens.now i) }
{
    let mut constants = Vec::new(alloc);
    let mut levels = Vec::new(alloc);
    let mut at = 0u32;
    'tokens: while (at as usize) < tokens.len() {
        constants.push(is_constant(tokens, at, levels.as_slice()))?;
        levels = open_behind(levels, token_at(tokens, at), opens_list(tokens, at))?;
        at += 1;
    }
    Ok(constants)
}

// Makes room for what is known of this name.
fn cover(latest: &mut Vec<u32>, number: u32) -> Result<(), AllocError>
    ensures same { (n : ℕ) → slice_index_or latest.new.items n 0 ≡ slice_index_or latest.old.items n 0 }
    ensures covered { OnOk result (number < length latest.new.items) }
{
    'names: while latest.len() <= number as usize {
        latest.push(0)?;
    }
    Ok(())
}

// Of the token with this number: the number behind the last constant in front of it that has its name, or 0; and notes it, if it is one.
fn noted(latest: &mut Vec<u32>, kind: Kind, constant: bool, at: u32) -> Result<u32, AllocError>
    requires { at ≤ 2000000 }
    ensures known { IfOk result (λ k. k ≡ spec.known latest.old.items kind) }
    ensures latest { OnOk result ((n : ℕ) → slice_index_or latest.new.items n 0
        ≡ (if constant && spec.is_name n kind then at + 1 else slice_index_or latest.old.items n 0)) }
{
    let Kind::TypeName(number) = kind else {
        return Ok(0);
    };
    cover(latest, number)?;
    let known = latest[number as usize];
    if !constant {
        return Ok(known);
    }
    latest[number as usize] = at + 1;
    Ok(known)
}

// The flag with this number, if there is one.
fn flag_at(flags: &[bool], at: usize) -> bool
    ensures { result ≡ slice_index_or flags.now at false }
{
    match flags.get(at) {
        Some(flag) => *flag,
        None => false,
    }
}

// Of each token the number behind the last constant in front of it that has its name, or 0.
fn earlier_of(alloc: Global, tokens: &[Kind], constants: &[bool]) -> Result<Vec<u32>, AllocError>
    requires size { length tokens.now ≤ 2000000 }
    requires constants { (i : ℕ) → slice_index_or constants.now i false ≡ spec.enumerates tokens.now i }
    ensures { IfOk result (λ v. (i : ℕ) → slice_index_or v.items i 0 ≡ spec.earlier tokens.now i) }
{
    let mut earlier = Vec::new(alloc);
    let mut latest = Vec::new(alloc);
    let mut at = 0u32;
    'tokens: while (at as usize) < tokens.len() {
        let known = noted(
            &mut latest,
            token_at(tokens, at),
            flag_at(constants, at as usize),
            at,
        )?;
        earlier.push(known)?;
        at += 1;
    }
    Ok(earlier)
}

// No token is marked.
fn unmarked(alloc: Global) -> Marks
    ensures constants { result.constants.items ≡ [] }
    ensures earlier { result.earlier.items ≡ [] }
{
    Marks {
        constants: Vec::new(alloc),
        earlier: Vec::new(alloc),
    }
}

impl Marks {
    // Of these tokens. Linear, and of tokens without `enum`, as most items are, no memory.
    pub(crate) fn of(alloc: Global, tokens: &[Kind]) -> Result<Marks, AllocError>
        requires { length tokens.now ≤ 2000000 }
        ensures { IfOk result (λ m. spec.AreMarks tokens.now m.constants.items m.earlier.items) }
    {
        if !has_enum(tokens) {
            return Ok(unmarked(alloc));
        }
        let constants = constants_of(alloc, tokens)?;
        let earlier = earlier_of(alloc, tokens, constants.as_slice())?;
        Ok(Marks { constants, earlier })
    }

    // Whether this token is such a constant.
    pub(crate) fn enumerates(&self, at: u32) -> bool
        ensures { result ≡ slice_index_or self.now.constants.items at false }
    {
        flag_at(self.constants.as_slice(), at as usize)
    }

    // The number behind the last such constant in front of this token that has its name, or 0.
    pub(crate) fn earlier(&self, at: u32) -> u32
        ensures { result ≡ slice_index_or self.now.earlier.items at 0 }
    {
        match self.earlier.get(at as usize) {
            Some(behind) => *behind,
            None => 0,
        }
    }
}
