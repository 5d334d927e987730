// Sets of anchors and of tokens.
ghost use Rattle.std.specs.Prelude.{◌≡◌, ◌||◌, false, List, IfOk, OnOk};
ghost use Rattle.std.specs.List.{filter};
ghost use Rattle.scope_tables.specs.declared.entities.Anchor.{Anchor as AnyAnchor};
ghost use Rattle.tok_data.specs.declared.sources.TokId.{TokId as Token};
ghost use Rattle.scope_tables.specs.Occurrences.{same_anchor, same_tok};
ghost use Rattle.unit_index.specs.Sets as spec;
ghost use Rattle.unit_index.specs.Tokens;

use indexmap::IndexSet;
use scope_tables::Anchor;
use std::alloc::{AllocError, Global};
use std::collections::BTreeSet;
use tok_data::{FileId, TokId};

/// No anchors.
#[tactic(auto, unfolding(crate::specs::Sets::has_anchor))]
pub(crate) fn no_anchors(alloc: Global) -> IndexSet<Anchor>
    ensures { (q : AnyAnchor) → spec.has_anchor result q ≡ false }
{
    IndexSet::new(alloc)
}

/// Adds an anchor.
#[tactic(auto, unfolding(crate::specs::Sets::has_anchor))]
pub(crate) fn add_anchor(anchors: &mut IndexSet<Anchor>, anchor: &Anchor) -> Result<(), AllocError>
    ensures { OnOk result ((q : AnyAnchor) → spec.has_anchor anchors.new q ≡ spec.has_anchor anchors.old q || same_anchor anchor.now q) }
{
    let anchor = anchor.share()?;
    anchors.insert(anchor).map_err(AllocError::from)?;
    Ok(())
}

/// No tokens.
#[tactic(auto, unfolding(crate::specs::Sets::has_tok))]
pub(crate) fn no_tokens(alloc: Global) -> BTreeSet<TokId>
    ensures { (q : Token) → spec.has_tok result q ≡ false }
{
    BTreeSet::new(alloc)
}

/// Adds a token.
pub(crate) fn add_token(tokens: &mut BTreeSet<TokId>, tok: &TokId) -> Result<(), AllocError>
    ensures { OnOk result ((q : Token) → spec.has_tok tokens.new q ≡ spec.has_tok tokens.old q || same_tok tok.now q) }
{
    let tok = tok.copy()?;
    match tokens.insert(tok) {
        Ok(_) => Ok(()),
        Err(refused) => Err(AllocError::from(refused)),
    }
}

//// Whether a set has a token.
#[tactic(auto, unfolding(crate::specs::Sets::has_tok))]
pub(crate) fn has_token(tokens: &BTreeSet<TokId>, tok: &TokId) -> bool
    ensures { result ≡ spec.has_tok tokens.now tok.now }
{
    tokens.contains(tok)
}

/// Whether a text is one of the library's.
fn is_library(file: &FileId) -> bool
    ensures { result ≡ Tokens.is_library file.now }
{
    match file.as_str().as_bytes().split_first() {
        Some((first, _)) => *first == b'<',
        None => false,
    }
}

/// Whether a token stands in a text that isn't the library's.
pub(crate) fn is_outside(tok: &TokId) -> bool
    ensures { result ≡ Tokens.is_outside tok.now }
{
    !is_library(&tok.file)
}
