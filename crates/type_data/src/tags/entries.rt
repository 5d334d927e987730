// What is put into the tags, and what is looked up.
ghost use Rattle.std.specs.Prelude.{◌≡◌, [], OnOk, OnErr, option_map};
ghost use Rattle.std.specs.Map.{lookup};
ghost use Rattle.indexmap.specs.IndexMap.{insert_entry};
ghost use Rattle.type_data.specs.Same.{same_tag};

use super::Tags;
use crate::members::TagInfo;
use crate::names::TagId;
use indexmap::IndexMap;
use std::alloc::{AllocError, Global};

impl Tags {
    /// No tags.
    pub fn new(alloc: Global) -> Tags
        ensures { result ≡ [] }
    {
        Tags {
            map: IndexMap::new(alloc),
        }
    }

    /// What is known of a tag from now on. It keeps the place of what was known of it before.
    pub fn insert(&mut self, id: TagId, info: TagInfo) -> Result<(), AllocError>
        ensures entries { OnOk result (self.new ≡ insert_entry same_tag self.old id info) }
        ensures unchanged { OnErr result (self.new ≡ self.old) }
    {
        self.map.insert(id, info)?;
        Ok(())
    }

    /// What is known of a tag. It is looked up, not searched for.
    pub fn get(&self, id: &TagId) -> Option<&TagInfo>
        ensures { option_map (λ i. i.now) result ≡ lookup (same_tag id.now) self.now }
    {
        self.map.get(id)
    }
}
