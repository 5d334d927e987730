// Maps by a text, in which what was put in first stays.
ghost use Rattle.std.specs.Prelude.{◌≡◌, ℕ, List, OnOk, OnErr};
ghost use Rattle.std.specs.HashMap.{get_by_text};
ghost use Rattle.include_units.specs.First.{first_of};

use std::alloc::{AllocError, Global};
use std::collections::HashMap;

pub(crate) fn put<V: Drop>(
    alloc: Global,
    map: &mut HashMap<String, V>,
    name: &str,
    value: V,
) -> Result<(), AllocError>
    ensures put { OnOk result ((text : List ℕ) → get_by_text map.new text ≡ first_of (get_by_text map.old text) name.now value text) }
    ensures kept { OnErr result ((text : List ℕ) → get_by_text map.new text ≡ get_by_text map.old text) }
{
    if map.contains_key(name) {
        return Ok(());
    }
    let key = String::from_str(alloc, name)?;
    map.insert(key, value).map_err(AllocError::from)?;
    Ok(())
}
