// Walks down through members by value: the tags that a walk is inside of.
ghost use Rattle.std.specs.Prelude.{◌≡◌, ◌∷◌, ◌++◌, IfOk, OnOk};
ghost use Rattle.std.specs.List.{list_any};
ghost use Rattle.type_data.specs.Same.{same_tag};
ghost use Rattle.type_rel.specs.Inside as spec;

use std::alloc::{AllocError, Global};
use type_data::TagId;

/// How deep a walk through members may go: no memory holds as many tags.
#[tactic(auto, unfolding(crate::specs::Inside::most_tags))]
pub fn most_tags() -> u64
    ensures { result ≡ spec.most_tags }
{
    9_223_372_036_854_775_808
}

/// Whether a walk is inside of this tag already.
pub fn is_inside(inside: &[TagId], id: &TagId) -> bool
    ensures { result ≡ list_any (same_tag id.now) inside.now }
{
    inside.iter().any(|other| id == other)
}

fn share_all(ids: &[TagId], out: &mut Vec<TagId>) -> Result<(), AllocError>
    ensures { OnOk result (out.new.items ≡ out.old.items ++ ids.now) }
{
    let mut rest = ids;
    while let Some((id, behind)) = rest.split_first() {
        let id = id.share()?;
        out.push(id)?;
        rest = behind;
    }
    Ok(())
}

/// The tags that a walk is inside of, with one more.
pub fn deeper(alloc: Global, inside: &[TagId], id: &TagId) -> Result<Vec<TagId>, AllocError>
    ensures { IfOk result (λ v. v.items ≡ id.now ∷ inside.now) }
{
    let mut out = Vec::new(alloc);
    let id = id.share()?;
    out.push(id)?;
    share_all(inside, &mut out)?;
    Ok(out)
}
