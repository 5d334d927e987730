// Sets of names as lists.
ghost use Rattle.std.specs.Prelude.{◌≡◌, [], ◌∷◌, ◌++◌, not, filter, IfOk};
ghost use Rattle.macro_expand.specs.HideSets as sets;
ghost use Rattle.macro_expand.specs.Ties.Stands.{joined};

use shared_text::Name;
use std::alloc::{AllocError, Global};

// How a set is made of two.
#[derive(Clone, Copy, PartialEq, Eq, Hash, Drop)]
pub(crate) enum How {
    Added,
    United,
    Common,
}

// A name is in the set.
#[tactic(auto, unfolding(crate::specs::HideSets::hides))]
fn hides(names: &[Name], name: &Name) -> bool
    ensures { result ≡ sets.hides names.now name.now }
{
    names.iter().any(|n| *n == *name)
}

// The names that aren't in the other set.
fn left(alloc: Global, names: &[Name], more: &[Name]) -> Result<Vec<Name>, AllocError>
    ensures { IfOk result (λ v. v.items ≡ filter (λ n. not (sets.hides more.now n)) names.now) }
{
    let mut out = Vec::new(alloc);
    for name in names {
        if !hides(more, name) {
            let copy = name.share()?;
            out.push(copy)?;
        }
    }
    Ok(out)
}

// The names that are in the other set.
fn kept(alloc: Global, names: &[Name], others: &[Name]) -> Result<Vec<Name>, AllocError>
    ensures { IfOk result (λ v. v.items ≡ filter (sets.hides others.now) names.now) }
{
    let mut out = Vec::new(alloc);
    for name in names {
        if hides(others, name) {
            let copy = name.share()?;
            out.push(copy)?;
        }
    }
    Ok(out)
}

fn append(mut out: Vec<Name>, names: &[Name]) -> Result<Vec<Name>, AllocError>
    ensures { IfOk result (λ v. v.items ≡ out.items ++ names.now) }
{
    for name in names {
        let copy = name.share()?;
        out.push(copy)?;
    }
    Ok(out)
}

// The set of one name.
pub(crate) fn alone(alloc: Global, name: &Name) -> Result<Vec<Name>, AllocError>
    ensures { IfOk result (λ v. v.items ≡ name.now ∷ []) }
{
    let mut out = Vec::with_capacity(alloc, 1)?;
    let copy = name.share()?;
    out.push(copy)?;
    Ok(out)
}

// What is made of two sets.
#[tactic(auto, unfolding(crate::specs::HideSets::united, crate::specs::HideSets::common))]
pub(crate) fn made_of(
    alloc: Global,
    how: How,
    names: &[Name],
    more: &[Name],
) -> Result<Vec<Name>, AllocError>
    ensures { IfOk result (λ v. v.items ≡ joined how names.now more.now) }
{
    match how {
        How::Added => {
            let first = append(Vec::new(alloc), names)?;
            append(first, more)
        }
        How::United => {
            let first = left(alloc, names, more)?;
            append(first, more)
        }
        How::Common => kept(alloc, names, more),
    }
}
