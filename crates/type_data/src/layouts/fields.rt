// What a layout says, and whether two are the same.
ghost use Rattle.std.specs.Prelude.{◌≡◌, ◌≤◌, ◌&&◌, nat_eq, IfOk};
ghost use Rattle.std.specs.Cmp;
ghost use Rattle.std.specs.Cmp.Lexicographic.{pointwise};
ghost use Rattle.type_data.specs.LayoutLaws.{same_layout, layouts_equiv};

use super::{Layout, Parts};
use std::alloc::{AllocError, Global};
use std::rc::Rc;

impl Layout {
    /// A layout with this size and alignment, in bytes, and the place of each member, in bits from the front. It fails for want of
    /// memory alone.
    pub fn new(
        alloc: Global,
        size: u64,
        align: u64,
        offsets: Vec<u64>,
    ) -> Result<Layout, AllocError>
        requires most { size ≤ 1152921504606846975 }
        requires some { 1 ≤ align }
        ensures { IfOk result (λ l. l ≡ record { size = size; align = align; offsets = offsets.items }) }
    {
        let parts = Parts {
            bytes: size,
            boundary: align,
            places: offsets,
        };
        let parts = Rc::new(alloc, parts)?;
        Ok(Layout { parts })
    }

    /// The same layout, shared. It takes no memory but may be refused where it is shared 2^64 times.
    pub fn copy(&self) -> Result<Layout, AllocError>
        ensures { IfOk result (λ copy. copy ≡ self.now) }
    {
        let parts = self.parts.clone()?;
        Ok(Layout { parts })
    }

    /// In bytes.
    pub fn size(&self) -> u64
        ensures value { result ≡ self.now.size }
        ensures most { result ≤ 1152921504606846975 }
    {
        self.parts.bytes
    }

    /// In bytes.
    pub fn align(&self) -> u64
        ensures value { result ≡ self.now.align }
        ensures some { 1 ≤ result }
    {
        self.parts.boundary
    }

    /// The place of each member, in bits from the front.
    pub fn offsets(&self) -> &[u64]
        ensures { result.now ≡ self.now.offsets }
    {
        &self.parts.places
    }
}

impl PartialEq for Layout {
    ghost eq = { same_layout };

    ghost laws = { Cmp.partial_equiv_from_equiv layouts_equiv };

    fn eq(&self, other: &Self) -> bool {
        self.size() == other.size()
            && self.align() == other.align()
            && self.offsets() == other.offsets()
    }
}

impl Eq for Layout {
    ghost laws = { layouts_equiv };
}
