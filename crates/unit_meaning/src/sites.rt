// Where faults fall.
ghost use Rattle.std.specs.Prelude.{◌≡◌, [], IfOk, OnOk, option_map};
ghost use Rattle.unit_meaning.specs.Sites as spec;

use scope_tables::item_file;
use std::alloc::{AllocError, Global};
use tok_data::{FileId, OutToken, TokId};
use type_data::ItemName;
use unit_items::Sources;

fn is_library(file: &FileId) -> bool
    ensures { result ≡ spec.is_library file.now }
{
    match file.as_str().as_bytes().split_first() {
        None => false,
        Some((first, _)) => *first == b'<',
    }
}

// The token of the first entry of a text, or the token itself where there is none.
fn entry_of<'a>(reached: &'a [(FileId, TokId)], tok: &'a TokId) -> &'a TokId
    ensures { result.now ≡ spec.entry_of reached.now tok.now }
{
    let mut rest = reached;
    'reached: while let Some((entry, behind)) = rest.split_first() {
        rest = behind;
        if entry.0 == tok.file {
            return &entry.1;
        }
    }
    tok
}

/// Where a fault on a token falls: on itself, or, where it stands in a library text, on the directive by which the unit reached that. `reached`
/// is what `all_reached` gives. It fails for want of memory alone.
pub fn moved(reached: &[(FileId, TokId)], tok: &TokId) -> Result<TokId, AllocError>
    ensures { IfOk result (λ r. r ≡ spec.moved reached.now tok.now) }
{
    if is_library(&tok.file) {
        return entry_of(reached, tok).copy();
    }
    tok.copy()
}

fn is_reached(reached: &[(FileId, TokId)], file: &FileId) -> bool
    ensures { result ≡ spec.is_reached reached.now file.now }
{
    reached.iter().any(|entry| entry.0 == *file)
}

fn also_reached(
    reached: &mut Vec<(FileId, TokId)>,
    entry: &(FileId, TokId),
) -> Result<(), AllocError>
    ensures { OnOk result (reached.new.items ≡ spec.also_reached reached.old.items entry.now) }
{
    if !is_library(&entry.0) {
        return Ok(());
    }
    if is_reached(reached.as_slice(), &entry.0) {
        return Ok(());
    }
    let file = entry.0.copy()?;
    let by = moved(reached.as_slice(), &entry.1)?;
    reached.push((file, by))?;
    Ok(())
}

/// The library texts among those that were entered, each with the first directive outside the library through which it was. It fails for want of
/// memory alone.
pub fn all_reached(
    alloc: Global,
    entered: &[(FileId, TokId)],
) -> Result<Vec<(FileId, TokId)>, AllocError>
    ensures { IfOk result (λ reached. reached.items ≡ spec.all_reached [] entered.now) }
{
    let mut reached = Vec::new(alloc);
    let mut rest = entered;
    'entered: while let Some((one, behind)) = rest.split_first() {
        rest = behind;
        also_reached(&mut reached, one)?;
    }
    Ok(reached)
}

fn site_or<'a>(token: Option<&'a OutToken>, tok: &'a TokId) -> &'a TokId
    ensures { result.now ≡ spec.site_or (option_map (λ t. t.now) token.entry) tok.now }
{
    match token {
        Some(token) => &token.site,
        None => tok,
    }
}

/// Where a fault on a token of an item falls.
pub(crate) fn fallen(
    sources: &Sources<'_>,
    reached: &[(FileId, TokId)],
    tok: &TokId,
) -> Result<TokId, AllocError>
    ensures { IfOk result (λ r. r ≡ spec.fallen sources.now reached.now tok.now) }
{
    let token = sources.output(tok);
    moved(reached, site_or(token, tok))
}

/// A token of an item.
pub(crate) fn token_in(alloc: Global, item: &ItemName, at: u32) -> Result<TokId, AllocError>
    ensures { IfOk result (λ r. r ≡ spec.token_in item.now at) }
{
    let file = item_file(alloc, item)?;
    Ok(TokId { file, at })
}

/// Where a fault on this token of an item falls.
pub(crate) fn fallen_in(
    alloc: Global,
    sources: &Sources<'_>,
    reached: &[(FileId, TokId)],
    item: &ItemName,
    at: u32,
) -> Result<TokId, AllocError>
    ensures { IfOk result (λ r. r ≡ spec.fallen_in sources.now reached.now item.now at) }
{
    let tok = token_in(alloc, item, at)?;
    let fallen = fallen(sources, reached, &tok)?;
    Ok(fallen)
}
