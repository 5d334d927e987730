// What items of a unit and the tags that they declare are called by.
ghost use Rattle.std.specs.Prelude.{◌≡◌, IfOk};

use shared_text::Name;
use std::alloc::AllocError;

/// An item of a unit, by its label and the number of earlier items with that label.
#[derive(Debug, PartialEq, Eq, Hash, Drop)]
pub struct ItemName {
    pub label: Name,
    pub nth: u32,
}

/// A structure, union or enumeration of a unit (ISO C11 6.2.3, 6.7.2.3), by the item that declares it first and the number
/// of its token in that item.
#[derive(Debug, PartialEq, Eq, Hash, Drop)]
pub struct TagId {
    pub item: ItemName,
    pub at: u32,
}

impl TagId {
    /// The same tag, whose label is shared. It takes no memory, but may be refused where that is shared 2^64 times.
    pub fn share(&self) -> Result<TagId, AllocError>
        ensures { IfOk result (λ copy. copy ≡ self.now) }
    {
        let label = self.item.label.share()?;
        Ok(TagId {
            item: ItemName {
                label,
                nth: self.item.nth,
            },
            at: self.at,
        })
    }
}
