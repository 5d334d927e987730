// A condition as a whole.
ghost use Rattle.std.specs.Prelude.{◌≡◌, ◌++◌, option_map, IfOk, true, false, if◌then◌else◌};
ghost use Rattle.std.specs.List.{list_any};
ghost use Rattle.std.specs.FinMap as map;
ghost use Rattle.pp_cond.specs.Conditions as spec;
ghost use Rattle.pp_cond.specs.Defined as reading;
ghost use Rattle.pp_cond.specs.Machine as machine;

use crate::defined::{is_defined, mentions_defined, prepared, read};
use crate::numbers::Number;
use crate::occurrences::occurrences;
use crate::reader::Reader;
use crate::symbols::{Symbol, one_if, symbol_of};
use crate::types::{Cond, Truth};
use macro_expand::{Expanded, expand};
use macro_table::MacroTable;
use std::alloc::{AllocError, Global};
use tok_data::{MacroOcc, MacroOccs, OutToken, PpFault, TokId};
use type_data::Value;

// The rule that warns of an absent variable argument.
const ABSENT: u16 = 211;

fn symbol(table: &MacroTable, token: &OutToken, operand: Option<&OutToken>) -> Symbol
    ensures { result ≡ reading.symbol (map.get table.now) (reading.piece token.now (option_map (λ u. u.now) operand.entry)) }
{
    match operand {
        Some(name) => one_if(is_defined(table, name.spelling.as_str())),
        None => symbol_of(token),
    }
}

// The value of the expression that the tokens are, where they are one.
fn value(
    alloc: Global,
    table: &MacroTable,
    tokens: &[OutToken],
) -> Result<Option<Number>, AllocError>
    ensures { IfOk result (λ v. v ≡ machine.run machine.at_first (reading.symbols (map.get table.now) tokens.now)) }
{
    let mut reader = Reader::new(alloc);
    let mut rest = tokens;
    while let Some((token, behind)) = rest.split_first() {
        let (operand, after) = read(token, behind);
        rest = after;
        let more = reader.with(symbol(table, token, operand))?;
        reader = more;
    }
    Ok(reader.finished())
}

fn truth_of(value: Value) -> Truth
    ensures { result ≡ spec.truth_of value }
{
    match value {
        Value::Known(0) => Truth::No,
        Value::Known(_) => Truth::Yes,
        Value::Unknown | Value::Faulty(_) => Truth::Bad,
    }
}

fn has_error(faults: &[PpFault]) -> bool
    ensures { result ≡ spec.has_error faults.now }
{
    faults.iter().any(|fault| fault.rule != ABSENT)
}

fn found(value: Option<Number>) -> Truth
    ensures { result ≡ spec.found value }
{
    match value {
        Some(number) => truth_of(number.value),
        None => Truth::Bad,
    }
}

// What the tokens say, if their expansion has no error.
fn decided(
    alloc: Global,
    table: &MacroTable,
    faults: &[PpFault],
    tokens: &[OutToken],
) -> Result<Truth, AllocError>
    ensures { IfOk result (λ truth. truth ≡ (if spec.has_error faults.now then Truth.Bad else spec.found (machine.run machine.at_first (reading.symbols (map.get table.now) tokens.now)))) }
{
    if has_error(faults) {
        return Ok(Truth::Bad);
    }
    let number = value(alloc, table, tokens)?;
    Ok(found(number))
}

fn all_occurrences(
    alloc: Global,
    table: &MacroTable,
    tokens: &[OutToken],
    replaced: MacroOccs,
    left: &[OutToken],
) -> Result<MacroOccs, AllocError>
    ensures { IfOk result (λ m. m ≡ (reading.occurrences (map.get table.now) false tokens.now ++ replaced) ++ reading.occurrences (map.get table.now) true left.now) }
{
    let mut all = occurrences(alloc, table, false, tokens)?;
    let mut replaced = replaced.into_vec();
    all.append(&mut replaced)?;
    let mut left = occurrences(alloc, table, true, left)?;
    all.append(&mut left)?;
    Ok(MacroOccs::from_vec(all))
}

fn told(
    alloc: Global,
    table: &MacroTable,
    tokens: &[OutToken],
    expanded: Expanded,
) -> Result<Cond, AllocError>
    ensures truth { IfOk result (λ c. c.truth ≡ spec.truth (map.get table.now) expanded) }
    ensures used { IfOk result (λ c. c.used ≡ expanded.used) }
    ensures macros { IfOk result (λ c. c.macros ≡ spec.macros (map.get table.now) tokens.now expanded expanded.asked) }
{
    let Expanded {
        tokens: left,
        used,
        faults,
        spelled: _,
        macros,
        asked,
    } = expanded;
    if let Some(site) = asked {
        return Ok(Cond {
            truth: Truth::Asks(site),
            used,
            macros: MacroOccs::from_vec(Vec::new(alloc)),
        });
    }
    let truth = decided(alloc, table, faults.as_slice(), left.as_slice())?;
    let macros = all_occurrences(alloc, table, tokens, macros, left.as_slice())?;
    Ok(Cond {
        truth,
        used,
        macros,
    })
}

// What is left of the tokens; they are copied only where one is `defined`.
#[tactic(auto, using(crate::proofs::Pieces::prepared_same))]
fn expansion(
    alloc: Global,
    tokens: &[OutToken],
    table: &MacroTable,
    lines: &[(TokId, u32)],
    budget: u32,
) -> Result<Expanded, AllocError>
    ensures { IfOk result (λ e. e ≡ spec.expansion (map.get table.now) lines.now budget tokens.now) }
{
    if !mentions_defined(tokens) {
        return expand(alloc, tokens, table, lines, budget);
    }
    let written = prepared(alloc, table, tokens)?;
    expand(alloc, written.as_slice(), table, lines, budget)
}

/// Whether the group behind an `#if` or `#elif` with these tokens is taken (ISO C11 6.10.1), with the macros of `table`.
/// `lines` gives the lines of sites, from 1, for `__LINE__`, and `budget` is the number of replacements that may be made.
///
/// `defined` is read before the expansion and after it; identifiers that are left, keywords too, are 0, and all numbers
/// act as if of type intmax_t or uintmax_t. The line is Bad where what comes of it is no constant expression (6.6) of
/// integers, where its value has a fault as that of `1 / 0` has, and where its expansion has an error; a warning of the
/// expansion is dropped. It fails for want of memory alone. Beyond the expansion its cost is linear in the tokens, also
/// where parentheses are nested.
pub fn condition(
    alloc: Global,
    tokens: &[OutToken],
    table: &MacroTable,
    lines: &[(TokId, u32)],
    budget: u32,
) -> Result<Cond, AllocError>
    ensures truth { IfOk result (λ c. c.truth ≡ spec.truth (map.get table.now) (spec.expansion (map.get table.now) lines.now budget tokens.now)) }
    ensures meaning { IfOk result (λ c. let e = spec.expansion (map.get table.now) lines.now budget tokens.now in spec.IsAnswer (map.get table.now) e e.asked c.truth) }
    ensures used { IfOk result (λ c. c.used ≡ (spec.expansion (map.get table.now) lines.now budget tokens.now).used) }
    ensures macros { IfOk result (λ c. let e = spec.expansion (map.get table.now) lines.now budget tokens.now in c.macros ≡ spec.macros (map.get table.now) tokens.now e e.asked) }
{
    let expanded = expansion(alloc, tokens, table, lines, budget)?;
    let cond = told(alloc, table, tokens, expanded)?;
    Ok(cond)
}
