// Copies of what names denote, which share names and types.
ghost use Rattle.std.specs.Prelude.{◌≡◌, IfOk};

use crate::entities::{Anchor, Entity, EntityKind};
use std::alloc::{AllocError, Global};

impl Anchor {
    /// The same anchor, whose names are shared.
    pub fn share(&self) -> Result<Anchor, AllocError>
        ensures { IfOk result (λ copy. copy ≡ self.now) }
    {
        match self {
            Anchor::External(name) => Ok(Anchor::External(name.share()?)),
            Anchor::Local(tok) => Ok(Anchor::Local(tok.copy()?)),
            Anchor::Made(site, name) => Ok(Anchor::Made(site.copy()?, name.share()?)),
            Anchor::Macro(name) => Ok(Anchor::Macro(name.share()?)),
        }
    }
}

impl EntityKind {
    fn share(&self, alloc: Global) -> Result<EntityKind, AllocError>
        ensures { IfOk result (λ copy. copy ≡ self.now) }
    {
        match self {
            EntityKind::Object => Ok(EntityKind::Object),
            EntityKind::Function => Ok(EntityKind::Function),
            EntityKind::Typedef => Ok(EntityKind::Typedef),
            EntityKind::Tag(id, info) => {
                let id = id.share()?;
                let info = info.share(alloc)?;
                Ok(EntityKind::Tag(id, info))
            }
            EntityKind::Enumerator => Ok(EntityKind::Enumerator),
            EntityKind::Member => Ok(EntityKind::Member),
            EntityKind::Label => Ok(EntityKind::Label),
        }
    }
}

impl Entity {
    /// The same entity, whose names and types and a tag's members are shared. It takes no memory, but may be refused where one of
    /// them is shared 2^64 times.
    pub fn share(&self, alloc: Global) -> Result<Entity, AllocError>
        ensures { IfOk result (λ copy. copy ≡ self.now) }
    {
        let name = self.name.share()?;
        let kind = self.kind.share(alloc)?;
        let ty = self.ty.share()?;
        let anchor = self.anchor.share()?;
        Ok(Entity {
            name,
            kind,
            ty,
            qual: self.qual,
            linkage: self.linkage,
            life: self.life,
            value: self.value,
            anchor,
        })
    }
}
