// The order of a meaning's lists.
ghost use Rattle.std.specs.Prelude.{◌≡◌, map, IfOk};
ghost use Rattle.meaning_lists.specs.Order as spec;
ghost use Rattle.meaning_lists.specs.Order.{ascends_from};

use std::alloc::{AllocError, Global};
use std::collections::BTreeMap;

// So many are compared with one another sooner than they are put into a map.
pub(crate) const FEW: usize = 8;

// Whether no number is below the one in front of it.
fn ascends<T>(items: &[(u32, T)]) -> bool
    ensures { result ≡ ascends_from 0 items.now }
{
    let mut last = 0u32;
    let mut rest = items;
    'items: while let Some((item, behind)) = rest.split_first() {
        if item.0 < last {
            return false;
        }
        last = item.0;
        rest = behind;
    }
    true
}

// The items without their numbers.
fn unplaced<T: Drop>(alloc: Global, items: Vec<(u32, T)>) -> Result<Vec<T>, AllocError>
    ensures { IfOk result (λ v. v.items ≡ map (λ p. p.1) items.items) }
{
    let mut out = Vec::with_capacity(alloc, items.len())?;
    'items: for item in items {
        let (_, item) = item;
        out.push(item)?;
    }
    Ok(out)
}

// By the numbers of their tokens, whatever order they stand in.
fn sorted<T: Drop>(alloc: Global, items: Vec<(u32, T)>) -> Result<Vec<T>, AllocError>
    ensures { IfOk result (λ v. v.items ≡ spec.by_place items.items) }
{
    let mut placed = BTreeMap::new(alloc);
    'items: for item in items {
        let (at, item) = item;
        let number = placed.len();
        placed.insert((at, number), item)?;
    }
    let mut out = Vec::new(alloc);
    'out: for item in placed.into_values() {
        out.push(item)?;
    }
    Ok(out)
}

// By the numbers of their tokens; those of one token in the order in which they stand. What was found from left to right is in order already.
pub(crate) fn by_place<T: Drop>(alloc: Global, items: Vec<(u32, T)>) -> Result<Vec<T>, AllocError>
    ensures { IfOk result (λ v. v.items ≡ spec.by_place items.items) }
{
    if ascends(items.as_slice()) {
        let out = unplaced(alloc, items)?;
        return Ok(out);
    }
    sorted(alloc, items)
}
