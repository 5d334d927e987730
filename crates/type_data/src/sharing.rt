// Copies of what is known of types, tags and expressions, and of faults, which share names and types.
ghost use Rattle.std.specs.Prelude.{◌≡◌, IfOk};

use crate::judged::{Fault, Judged};
use crate::members::{Member, TagInfo};
use crate::names::TagId;
use crate::types::CType;
use shared_list::Listing;
use shared_text::Name;
use std::alloc::{AllocError, Global};

fn share_name(name: &Option<Name>) -> Result<Option<Name>, AllocError>
    ensures { IfOk result (λ copy. copy ≡ name.now) }
{
    match name {
        Some(name) => {
            let name = name.share()?;
            Ok(Some(name))
        }
        None => Ok(None),
    }
}

fn share_tag(tag: &Option<TagId>) -> Result<Option<TagId>, AllocError>
    ensures { IfOk result (λ copy. copy ≡ tag.now) }
{
    match tag {
        Some(tag) => {
            let tag = tag.share()?;
            Ok(Some(tag))
        }
        None => Ok(None),
    }
}

fn share_names(alloc: Global, names: &[Name]) -> Result<Listing<Name>, AllocError>
    ensures { IfOk result (λ copy. copy ≡ names.now) }
{
    let mut copies = Vec::new(alloc);
    for name in names {
        let copy = name.share()?;
        copies.push(copy)?;
    }
    Ok(Listing::from_vec(copies))
}

fn share_types(alloc: Global, types: &[CType]) -> Result<Listing<CType>, AllocError>
    ensures { IfOk result (λ copy. copy ≡ types.now) }
{
    let mut copies = Vec::new(alloc);
    for ty in types {
        let copy = ty.share()?;
        copies.push(copy)?;
    }
    Ok(Listing::from_vec(copies))
}

impl Member {
    /// The same member, whose names and type are shared. It takes no memory, but may be refused where one of them is shared
    /// 2^64 times.
    pub fn share(&self) -> Result<Member, AllocError>
        ensures { IfOk result (λ copy. copy ≡ self.now) }
    {
        let name = share_name(&self.name)?;
        let ty = self.ty.share()?;
        let at = share_tag(&self.at)?;
        Ok(Member {
            name,
            ty,
            qual: self.qual,
            width: self.width,
            align: self.align,
            value: self.value,
            at,
        })
    }
}

impl TagInfo {
    /// The same of a tag, whose name, members and layout are shared. It takes no memory, but may be refused where one of them is
    /// shared 2^64 times.
    pub fn share(&self, _alloc: Global) -> Result<TagInfo, AllocError>
        ensures { IfOk result (λ copy. copy ≡ self.now) }
    {
        let name = share_name(&self.name)?;
        let members = match &self.members {
            Some(members) => Some(members.share()?),
            None => None,
        };
        let layout = match &self.layout {
            Some(layout) => Some(layout.copy()?),
            None => None,
        };
        Ok(TagInfo {
            kind: self.kind,
            name,
            members,
            layout,
        })
    }
}

impl Judged {
    /// The same expression, whose type is shared. It takes no memory, but may be refused where that is shared 2^64 times.
    pub fn share(&self) -> Result<Judged, AllocError>
        ensures { IfOk result (λ copy. copy ≡ self.now) }
    {
        let ty = self.ty.share()?;
        Ok(Judged {
            ty,
            qual: self.qual,
            place: self.place,
            constant: self.constant,
        })
    }
}

impl Fault {
    /// The same fault, whose names and types are shared. Its cost is linear in their number.
    pub fn share(&self, alloc: Global) -> Result<Fault, AllocError>
        ensures { IfOk result (λ copy. copy ≡ self.now) }
    {
        let names = share_names(alloc, self.names.as_slice())?;
        let types = share_types(alloc, self.types.as_slice())?;
        Ok(Fault {
            rule: self.rule,
            at: self.at,
            names,
            types,
        })
    }
}
