// What a file declares at file scope.
ghost use Rattle.std.specs.Prelude.{◌≡◌, ◌&&◌, ◌||◌, ℕ, List, None, Some, map, bytes_eq, option_map, if◌then◌else◌, IfOk, OnOk};
ghost use Rattle.std.specs.List.{filter, find, list_any, slice_get};
ghost use Rattle.tok_data.specs.declared.sources.TokId.{TokId as Token};
ghost use Rattle.unit_index.specs.Chains.{at_tok, first_from};
ghost use Rattle.scope_tables.specs.Occurrences.{same_tok};
ghost use Rattle.unit_index.specs.Sets as sets;
ghost use Rattle.unit_index.specs.Symbols as spec;
ghost use Rattle.unit_index.specs.Tokens.{in_order};

use crate::sets::{add_token, no_tokens};
use crate::shared::listed;
use crate::unit::IndexedUnit;
use scope_tables::{Symbol, SymbolKind};
use std::alloc::{AllocError, Global};
use std::collections::{BTreeSet, HashMap};
use tok_data::TokId;
use uri_paths::Path;

/// The number of a kind of symbol in the protocol (LSP 3.17, SymbolKind): Variable for an object, Function, Enum, EnumMember, and
/// Struct for structures, unions and typedef names.
pub fn symbol_number(kind: SymbolKind) -> u8
    ensures { result ≡ spec.number kind }
{
    match kind {
        SymbolKind::Object => 13,
        SymbolKind::Function => 12,
        SymbolKind::Enumeration => 10,
        SymbolKind::Enumerator => 22,
        SymbolKind::Structure => 23,
    }
}

fn reads(unit: &IndexedUnit, path: &Path) -> bool
    ensures { result ≡ spec.reads_it path.now unit.now }
{
    let mut rest = unit.reads();
    'paths: while let Some((read, behind)) = rest.split_first() {
        if read.as_str() == path.as_str() {
            return true;
        }
        rest = behind;
    }
    false
}

fn reader<'a>(units: &'a [IndexedUnit], path: &Path) -> Option<&'a IndexedUnit>
    ensures { option_map (λ u. u.now) result ≡ find (spec.reads_it path.now) units.now }
{
    let mut rest = units;
    'units: while let Some((unit, behind)) = rest.split_first() {
        if reads(unit, path) {
            return Some(unit);
        }
        rest = behind;
    }
    None
}

fn is_in(symbol: &Symbol, path: &Path) -> bool
    ensures { result ≡ spec.in_file path.now symbol.now }
{
    symbol.tok.file.as_str() == path.as_str()
}

fn add_symbol(tokens: &mut BTreeSet<TokId>, symbol: &Symbol, path: &Path) -> Result<(), AllocError>
    ensures { OnOk result ((q : Token) → sets.has_tok tokens.new q ≡ sets.has_tok tokens.old q || (spec.in_file path.now symbol.now && same_tok symbol.now.tok q)) }
{
    if !is_in(symbol, path) {
        return Ok(());
    }
    add_token(tokens, &symbol.tok)
}

fn tokens_in(alloc: Global, symbols: &[Symbol], path: &Path) -> Result<BTreeSet<TokId>, AllocError>
    ensures { IfOk result (λ tokens. (q : Token) → sets.has_tok tokens q ≡ list_any (λ s. spec.in_file path.now s && same_tok s.tok q) symbols.now) }
{
    let mut tokens = no_tokens(alloc);
    let mut rest = symbols;
    'symbols: while let Some((symbol, behind)) = rest.split_first() {
        add_symbol(&mut tokens, symbol, path)?;
        rest = behind;
    }
    Ok(tokens)
}

// The tokens of a file that declare at file scope, ascending.
fn in_file(alloc: Global, symbols: &[Symbol], path: &Path) -> Result<Vec<TokId>, AllocError>
    ensures { IfOk result (λ list. list.items ≡ in_order (map (λ s. s.tok) (filter (spec.in_file path.now) symbols.now))) }
{
    let tokens = tokens_in(alloc, symbols, path)?;
    let list = listed(alloc, tokens)?;
    Ok(list)
}

#[tactic(auto, unfolding(crate::specs::Chains::at_tok))]
fn no_places(alloc: Global) -> HashMap<TokId, usize>
    ensures { (q : Token) → at_tok result q ≡ None }
{
    HashMap::new(alloc)
}

#[tactic(auto, unfolding(crate::specs::Chains::at_tok))]
fn first_at(places: &HashMap<TokId, usize>, tok: &TokId) -> Option<usize>
    ensures { result ≡ at_tok places.now tok.now }
{
    places.get(tok).copied()
}

// The place of a token from now on.
#[tactic(auto, unfolding(crate::specs::Chains::at_tok))]
fn put_token(
    places: &mut HashMap<TokId, usize>,
    tok: &TokId,
    place: usize,
) -> Result<(), AllocError>
    ensures places { OnOk result ((q : Token) → at_tok places.new q ≡ (if same_tok tok.now q then Some place else at_tok places.old q)) }
{
    let tok = tok.copy()?;
    places.insert(tok, place).map_err(AllocError::from)?;
    Ok(())
}

// The place of the first symbol of each token.
fn place_symbols(alloc: Global, symbols: &[Symbol]) -> Result<HashMap<TokId, usize>, AllocError>
    ensures { IfOk result (λ r. (q : Token) → at_tok r q ≡ first_from (spec.is_symbol q) 0 symbols.now) }
{
    let mut first = no_places(alloc);
    let mut rest = symbols;
    'symbols: while let Some((symbol, before)) = rest.split_last() {
        put_token(&mut first, &symbol.tok, before.len())?;
        rest = before;
    }
    Ok(first)
}

fn symbol_at(symbols: &[Symbol], place: usize) -> Option<&Symbol>
    ensures { option_map (λ s. s.now) result ≡ slice_get symbols.now place }
{
    symbols.get(place)
}

fn first_symbol<'a>(
    symbols: &'a [Symbol],
    places: &HashMap<TokId, usize>,
    tok: &TokId,
) -> Option<&'a Symbol>
    requires { (q : Token) → at_tok places.now q ≡ first_from (spec.is_symbol q) 0 symbols.now }
    ensures { option_map (λ s. s.now) result ≡ find (spec.is_symbol tok.now) symbols.now }
{
    match first_at(places, tok) {
        Some(place) => symbol_at(symbols, place),
        None => None,
    }
}

fn share_symbol(symbol: &Symbol) -> Result<Symbol, AllocError>
    ensures { IfOk result (λ copy. copy ≡ symbol.now) }
{
    let tok = symbol.tok.copy()?;
    let name = symbol.name.share()?;
    Ok(Symbol {
        tok,
        name,
        kind: symbol.kind,
    })
}

// The first symbol of each token.
fn gather(
    alloc: Global,
    symbols: &[Symbol],
    places: &HashMap<TokId, usize>,
    tokens: &[TokId],
) -> Result<Vec<Symbol>, AllocError>
    requires { (q : Token) → at_tok places.now q ≡ first_from (spec.is_symbol q) 0 symbols.now }
    ensures { IfOk result (λ out. out.items ≡ spec.gathered (λ t. find (spec.is_symbol t) symbols.now) tokens.now) }
{
    let mut out = Vec::new(alloc);
    let mut rest = tokens;
    'tokens: while let Some((tok, behind)) = rest.split_first() {
        rest = behind;
        let Some(symbol) = first_symbol(symbols, places, tok) else {
            continue;
        };
        out.push(share_symbol(symbol)?)?;
    }
    Ok(out)
}

fn of_file(alloc: Global, symbols: &[Symbol], path: &Path) -> Result<Vec<Symbol>, AllocError>
    ensures { IfOk result (λ out. out.items ≡ spec.of_file path.now symbols.now) }
{
    let tokens = in_file(alloc, symbols, path)?;
    let places = place_symbols(alloc, symbols)?;
    let out = gather(alloc, symbols, &places, tokens.as_slice())?;
    Ok(out)
}

/// What a file declares at file scope, by the first unit that reads it: each token that defines or declares a name there, in order,
/// with the kind of what it declares first. A file that no unit reads has none. The cost is linear in what the units before read and
/// in what that unit declares at file scope, times the logarithm of the latter. It fails for want of memory alone.
#[tactic(auto, unfolding(crate::specs::Symbols::symbols))]
pub fn symbols(alloc: Global, units: &[IndexedUnit], path: &Path) -> Result<Vec<Symbol>, AllocError>
    ensures { IfOk result (λ out. out.items ≡ spec.symbols units.now path.now) }
{
    match reader(units, path) {
        Some(unit) => of_file(alloc, unit.symbols(), path),
        None => Ok(Vec::new(alloc)),
    }
}
