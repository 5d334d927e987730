// Tokens in order.
ghost use Rattle.std.specs.Prelude.{◌≡◌, [], IfOk};
ghost use Rattle.rename_core.specs.Found as spec;

use std::alloc::{AllocError, Global};
use std::collections::BTreeSet;
use tok_data::TokId;

fn put_all(alloc: Global, toks: &[TokId]) -> Result<BTreeSet<TokId>, AllocError>
    ensures { IfOk result (λ set. set.keys ≡ spec.in_order toks.now) }
{
    let mut set = BTreeSet::new(alloc);
    let mut rest = toks;
    'toks: while let Some((tok, behind)) = rest.split_first() {
        let tok = tok.copy()?;
        set.insert(tok).map_err(AllocError::from)?;
        rest = behind;
    }
    Ok(set)
}

fn take_all(alloc: Global, set: BTreeSet<TokId>) -> Result<Vec<TokId>, AllocError>
    ensures { IfOk result (λ v. v.items ≡ set.keys) }
{
    let mut toks = Vec::new(alloc);
    let mut left = set;
    'toks: while let Some(tok) = left.pop_first() {
        toks.push(tok).map_err(AllocError::from)?;
    }
    Ok(toks)
}

/// The tokens by the names of their texts and by number, each once.
pub(crate) fn in_order(alloc: Global, toks: &[TokId]) -> Result<Vec<TokId>, AllocError>
    ensures { IfOk result (λ v. v.items ≡ spec.in_order toks.now) }
{
    let set = put_all(alloc, toks)?;
    take_all(alloc, set)
}
