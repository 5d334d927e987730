// The class of a token.
ghost use Rattle.std.specs.Prelude.{◌≡◌, map, IfOk};
ghost use Rattle.rename_core.specs.Classes.{IsClass};
ghost use Rattle.rename_core.specs.Found as found;
ghost use Rattle.rename_core.specs.Occurrences.{first_some};
ghost use Rattle.rename_core.specs.Showing as spec;
ghost use Rattle.rename_core.specs.Ties.Lists.{listed};
ghost use Rattle.scope_tables.specs.Occurrences.{same_tok};

use crate::class::Class;
use crate::grown::Grown;
use crate::marks::{pasted, spelled_tokens};
use crate::mentions::{Told, mention_all, tell_all};
use crate::order::in_order;
use crate::showing::{external, first_in, library, two};
use crate::walk::{Walk, walk_from};
use scope_tables::Occ;
use shared_list::Listing;
use std::alloc::{AllocError, Global};
use std::collections::HashMap;
use tok_data::TokId;

// The first of these tokens that some unit spells.
fn spelled(alloc: Global, units: &[&[Occ]], toks: &[TokId]) -> Result<Option<TokId>, AllocError>
    ensures { IfOk result (λ o. o ≡ spec.spelled (map (λ os. os.now) units.now) toks.now) }
{
    let set = spelled_tokens(alloc, units)?;
    let first = first_in(&set, toks)?;
    Ok(first)
}

// The class of these tokens, to which a walk came.
fn class_with(
    alloc: Global,
    units: &[&[Occ]],
    told: &HashMap<TokId, Grown<Told>>,
    walk: &Walk,
    toks: Vec<TokId>,
) -> Result<Class, AllocError>
    ensures tokens { IfOk result (λ c. c.toks ≡ toks.items) }
    ensures external { IfOk result (λ c. c.external ≡ first_some (λ t. found.name_told (listed same_tok told.now t)) toks.items) }
    ensures library { IfOk result (λ c. c.library ≡ spec.library toks.items) }
    ensures pasted { IfOk result (λ c. c.pasted ≡ found.pasted_from 0 walk.now.denoted (map (λ os. os.now) units.now)) }
    ensures spelled { IfOk result (λ c. c.spelled ≡ spec.spelled (map (λ os. os.now) units.now) toks.items) }
    ensures two { IfOk result (λ c. c.two ≡ first_some (λ t. found.meanings_told t (listed same_tok told.now t)) toks.items) }
{
    let external = external(told, toks.as_slice())?;
    let library = library(toks.as_slice())?;
    let pasted = pasted(walk, units)?;
    let spelled = spelled(alloc, units, toks.as_slice())?;
    let two = two(told, toks.as_slice())?;
    Ok(Class {
        toks: Listing::from_vec(toks),
        external,
        library,
        pasted,
        spelled,
        two,
    })
}

/// The tokens that have to be renamed with a token: what a chain of links leads to, where two tokens are linked if some unit gives
/// them the same anchor, or two units give them the same external name (ISO C11 6.2.1, 6.2.2p2). Each unit is given by its occurrences;
/// units stand in the order of their paths. The class is empty where the token denotes nothing in any unit; marks of tokens that
/// were made or spelled link nothing. Its other parts say what stands in the way of another name, each with the token that shows it.
/// Linear in the number of occurrences; the tokens of the class are sorted. It fails for want of memory alone.
pub fn class_of(alloc: Global, units: &[&[Occ]], tok: &TokId) -> Result<Class, AllocError>
    ensures tokens { IfOk result (λ c. IsClass (map (λ os. os.now) units.now) tok.now c.toks) }
    ensures external { IfOk result (λ c. c.external ≡ spec.external (map (λ os. os.now) units.now) c.toks) }
    ensures library { IfOk result (λ c. c.library ≡ spec.library c.toks) }
    ensures pasted { IfOk result (λ c. c.pasted ≡ spec.pasted (map (λ os. os.now) units.now) c.toks) }
    ensures spelled { IfOk result (λ c. c.spelled ≡ spec.spelled (map (λ os. os.now) units.now) c.toks) }
    ensures two { IfOk result (λ c. c.two ≡ spec.two (map (λ os. os.now) units.now) c.toks) }
{
    let told = tell_all(alloc, units)?;
    let mentioned = mention_all(alloc, units)?;
    let walk = walk_from(alloc, &told, &mentioned, tok)?;
    let toks = in_order(alloc, walk.toks())?;
    let class = class_with(alloc, units, &told, &walk, toks)?;
    Ok(class)
}
