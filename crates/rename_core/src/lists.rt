// Lists by keys.
ghost use Rattle.std.specs.Prelude.{◌≡◌, ◌∷◌, [], ◌++◌, OnOk, if◌then◌else◌};
ghost use Rattle.rename_core.specs.Ties.Lists.{listed};

use crate::grown::Grown;
use std::alloc::{AllocError, Global};
use std::collections::HashMap;
use std::hash::Hash;

/// No lists.
#[tactic(auto, unfolding(crate::specs::Ties::Lists::listed))]
pub(crate) fn no_lists<K: Eq + Hash + Drop, V: Drop>(alloc: Global) -> HashMap<K, Grown<V>>
    ensures { (q : K) → listed K.eq result q ≡ [] }
{
    HashMap::new(alloc)
}

/// The list of a key, empty where it has none.
#[tactic(auto, unfolding(crate::specs::Ties::Lists::listed))]
pub(crate) fn list_of<'a, K: Eq + Hash + Drop, V: Drop>(
    lists: &'a HashMap<K, Grown<V>>,
    key: &K,
) -> &'a [V]
    ensures { result.now ≡ listed K.eq lists.now key.now }
{
    match lists.get(key) {
        Some(list) => list.as_slice(),
        None => &[],
    }
}

/// Puts a value behind those of its key.
#[tactic(auto, unfolding(crate::specs::Ties::Lists::listed))]
pub(crate) fn add_to<K: Eq + Hash + Drop, V: Drop>(
    alloc: Global,
    lists: &mut HashMap<K, Grown<V>>,
    key: K,
    value: V,
) -> Result<(), AllocError>
    ensures { OnOk result ((q : K) → listed K.eq lists.new q ≡ (if K.eq key q then listed K.eq lists.old key ++ value ∷ [] else listed K.eq lists.old q)) }
{
    if let Some(list) = lists.get_mut(&key) {
        list.push(value)?;
        return Ok(());
    }
    let mut list = Grown::new(alloc);
    list.push(value)?;
    lists.insert(key, list).map_err(AllocError::from)?;
    Ok(())
}
