// The first token that denotes each name with external linkage.
ghost use Rattle.std.specs.Prelude.{◌≡◌, ℕ, nat_eq, List, None, map, IfOk, OnOk, option_map};
ghost use Rattle.std.specs.Cmp.Lexicographic.{pointwise};
ghost use Rattle.std.specs.Option.{option_or};
ghost use Rattle.unit_meaning.specs.Exports as spec;
ghost use Rattle.unit_meaning.specs.Kept.{at};
ghost use Rattle.unit_meaning.specs.Lists.{given};

use scope_tables::{Anchor, Occ};
use shared_text::Name;
use std::alloc::{AllocError, Global};
use std::collections::HashMap;
use tok_data::TokId;

/// No names.
#[tactic(auto, unfolding(crate::specs::Kept::at))]
pub(crate) fn no_names(alloc: Global) -> HashMap<Name, TokId>
    ensures { (q : List ℕ) → at result q ≡ None }
{
    HashMap::new(alloc)
}

/// The token of a name.
#[tactic(auto, unfolding(crate::specs::Kept::at))]
pub(crate) fn token_of<'a>(map: &'a HashMap<Name, TokId>, name: &Name) -> Option<&'a TokId>
    ensures { option_map (λ t. t.now) result ≡ at map.now name.now }
{
    map.get(name)
}

/// The token of a name, where it has none.
#[tactic(auto, unfolding(crate::specs::Kept::at))]
pub(crate) fn note(
    map: &mut HashMap<Name, TokId>,
    name: &Name,
    tok: TokId,
) -> Result<(), AllocError>
    ensures { OnOk result ((q : List ℕ) → at map.new q ≡ option_or (at map.old q) (given (pointwise nat_eq name.now q) tok)) }
{
    let name = name.share()?;
    map.entry(name)?.or_insert(tok);
    Ok(())
}

/// The name of what has external linkage.
pub(crate) fn external_of(anchor: &Anchor) -> Option<&Name>
    ensures { option_map (λ n. n.now) result ≡ spec.external_of anchor.now }
{
    match anchor {
        Anchor::External(name) => Some(name),
        Anchor::Local(_) => None,
        Anchor::Made(_, _) => None,
        Anchor::Macro(_) => None,
    }
}

fn note_occ(map: &mut HashMap<Name, TokId>, occ: &Occ) -> Result<(), AllocError>
    ensures { OnOk result ((q : List ℕ) → at map.new q ≡ option_or (at map.old q) (spec.if_it q occ.now)) }
{
    match external_of(&occ.anchor) {
        Some(name) => {
            let tok = occ.tok.copy()?;
            note(map, name, tok)
        }
        None => Ok(()),
    }
}

/// The first token of each name with external linkage, as its item tells it.
pub(crate) fn first_tokens(alloc: Global, occs: &[&Occ]) -> Result<HashMap<Name, TokId>, AllocError>
    ensures { IfOk result (λ firsts. (q : List ℕ) → at firsts q ≡ spec.first_token q (map (λ o. o.now) occs.now)) }
{
    let mut firsts = no_names(alloc);
    'occs: for occ in occs {
        note_occ(&mut firsts, occ)?;
    }
    Ok(firsts)
}
