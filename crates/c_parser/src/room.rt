// Lists of trees as they are read.
ghost use Rattle.std.specs.Prelude.{◌≡◌, ◌++◌, ◌∷◌, [], OnOk, OnErr};

use std::alloc::AllocError;

/// Puts this behind a list. Most lists of trees have one element or two: these have no room for more, and a list of more grows as any does.
///
/// Errors: want of memory; the list stays.
pub fn push<T: Drop>(list: &mut Vec<T>, one: T) -> Result<(), AllocError>
    ensures items { OnOk result (list.new.items ≡ list.old.items ++ one ∷ []) }
    ensures kept { OnErr result (list.new.items ≡ list.old.items) }
{
    if list.len() < 2 {
        list.reserve_exact(1)?;
    }
    list.push(one)?;
    Ok(())
}
