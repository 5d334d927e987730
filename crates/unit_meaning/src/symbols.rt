// The symbols of a unit.
ghost use Rattle.std.specs.Prelude.{◌≡◌, ◌++◌, IfOk, OnOk, option_map};
ghost use Rattle.unit_items.specs.Sources.{output};
ghost use Rattle.unit_meaning.specs.Symbols as spec;

use crate::room;
use scope_tables::{HeadMeaning, HeadSymbol, Symbol, SymbolKind, item_file};
use std::alloc::{AllocError, Global};
use tok_data::{FileId, OutToken, Spelt, TokId};
use type_data::ItemName;
use unit_items::Sources;

fn spelt_as(token: &OutToken, kind: SymbolKind) -> Result<Option<Symbol>, AllocError>
    ensures { IfOk result (λ r. r ≡ spec.spelt_as token.now.spelt token.now.spelling kind) }
{
    match &token.spelt {
        Spelt::At(tok) => {
            let tok = tok.copy()?;
            let name = token.spelling.share()?;
            Ok(Some(Symbol { tok, name, kind }))
        }
        Spelt::Made => Ok(None),
    }
}

fn of_token(token: Option<&OutToken>, kind: SymbolKind) -> Result<Option<Symbol>, AllocError>
    ensures { IfOk result (λ r. r ≡ spec.of_token (option_map (λ t. t.now) token.entry) kind) }
{
    match token {
        Some(token) => spelt_as(token, kind),
        None => Ok(None),
    }
}

// `file` names the tokens of the symbol's item.
fn symbol(
    sources: &Sources<'_>,
    file: &FileId,
    told: &HeadSymbol,
) -> Result<Option<Symbol>, AllocError>
    ensures { IfOk result (λ r. r ≡ spec.of_token (output sources.now.tokens sources.now.items (record { file = file.now; at = told.now.at })) told.now.kind) }
{
    let file = file.copy()?;
    let tok = TokId { file, at: told.at };
    let symbol = of_token(sources.output(&tok), told.kind)?;
    Ok(symbol)
}

fn add_item(
    alloc: Global,
    out: &mut Vec<Symbol>,
    sources: &Sources<'_>,
    item: &ItemName,
    declared: &[HeadSymbol],
) -> Result<(), AllocError>
    ensures { OnOk result (out.new.items ≡ out.old.items ++ spec.of_item sources.now item.now declared.now) }
{
    let file = item_file(alloc, item)?;
    let mut rest = declared;
    'declared: while let Some((told, behind)) = rest.split_first() {
        rest = behind;
        let one = symbol(sources, &file, told)?;
        let Some(one) = one else {
            continue;
        };
        out.push(one)?;
    }
    Ok(())
}

/// The symbols of a unit, by its heads.
pub(crate) fn symbols(
    alloc: Global,
    sources: &Sources<'_>,
    heads: &[HeadMeaning],
) -> Result<Vec<Symbol>, AllocError>
    ensures { IfOk result (λ out. out.items ≡ spec.symbols sources.now heads.now) }
{
    let mut out = Vec::with_capacity(alloc, room::of_symbols(heads))?;
    let mut rest = heads;
    'heads: while let Some((head, behind)) = rest.split_first() {
        rest = behind;
        add_item(
            alloc,
            &mut out,
            sources,
            &head.item,
            head.symbols.as_slice(),
        )?;
    }
    Ok(out)
}
