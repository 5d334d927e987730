// The items of a unit, as their parts are read.
use crate::words::{how_named, info_of, int, item_of, linkage_named, plain, tag_of, type_named};
use scope_tables::{
    Anchor, Binding, BodyMeaning, Entities, Entity, EntityKind, HeadMeaning, How, Life, Linkage,
    Stated,
};
use shared_list::Listing;
use shared_text::Name;
use std::alloc::{AllocError, Global};
use type_data::{CType, Members, Space};

fn none<T>(alloc: Global) -> Listing<T> {
    Listing::from_vec(Vec::new(alloc))
}

fn entity(
    alloc: Global,
    name: &str,
    kind: EntityKind,
    ty: CType,
    linkage: Linkage,
) -> Result<Entity, AllocError> {
    let name = Name::from_str(alloc, name)?;
    let anchor = Anchor::External(name.share()?);
    Ok(Entity {
        name,
        kind,
        ty,
        qual: plain(),
        linkage,
        life: Life::Without,
        value: None,
        anchor,
    })
}

/// The parts of the item that is read.
#[derive(Drop)]
struct Parts {
    declared: Vec<Binding>,
    entities: Vec<Entity>,
    stated: Vec<Stated>,
    used: Vec<Name>,
    used_in_body: Vec<Name>,
    declared_in_body: Vec<Entity>,
    at: u32,
}

impl Parts {
    fn new(alloc: Global) -> Parts {
        Parts {
            declared: Vec::new(alloc),
            entities: Vec::new(alloc),
            stated: Vec::new(alloc),
            used: Vec::new(alloc),
            used_in_body: Vec::new(alloc),
            declared_in_body: Vec::new(alloc),
            at: 0,
        }
    }

    /// A statement of a name.
    fn state(
        &mut self,
        alloc: Global,
        how: How,
        name: &str,
        linkage: Linkage,
        ty: CType,
    ) -> Result<(), AllocError> {
        let stated = Stated {
            name: Name::from_str(alloc, name)?,
            at: self.at,
            how,
        };
        self.stated.push(stated)?;
        self.at = self.at.wrapping_add(1);
        let entity = entity(alloc, name, EntityKind::Object, ty, linkage)?;
        let binding = Binding {
            space: Space::Ordinary,
            name: Name::from_str(alloc, name)?,
            entity,
        };
        self.declared.push(binding)?;
        Ok(())
    }

    fn mention(&mut self, alloc: Global, tag: &str, completes: bool) -> Result<bool, AllocError> {
        let Ok(at) = tag.parse::<u32>() else {
            return Ok(false);
        };
        let members = if completes {
            Some(Members::from_vec(alloc, Vec::new(alloc))?)
        } else {
            None
        };
        let kind = EntityKind::Tag(tag_of(alloc, at)?, info_of(members));
        let entity = entity(alloc, tag, kind, int(), Linkage::None)?;
        self.entities.push(entity)?;
        Ok(true)
    }

    fn declare_in_body(
        &mut self,
        alloc: Global,
        name: &str,
        linkage: &str,
        ty: &str,
    ) -> Result<bool, AllocError> {
        let Some(linkage) = linkage_named(linkage) else {
            return Ok(false);
        };
        let Some(ty) = type_named(alloc, ty)? else {
            return Ok(false);
        };
        let entity = entity(alloc, name, EntityKind::Object, ty, linkage)?;
        self.declared_in_body.push(entity)?;
        Ok(true)
    }

    /// One part of the item; `false` where it is none.
    fn read(&mut self, alloc: Global, part: &str) -> Result<bool, AllocError> {
        let mut words = part.split_ascii_whitespace();
        let word = words.next().unwrap_or("");
        let name = words.next().unwrap_or("");
        if word == "uses" {
            self.used.push(Name::from_str(alloc, name)?)?;
            return Ok(true);
        }
        if word == "body" {
            self.used_in_body.push(Name::from_str(alloc, name)?)?;
            return Ok(true);
        }
        if word == "completes" || word == "mentions" {
            return self.mention(alloc, name, word == "completes");
        }
        let linkage = words.next().unwrap_or("");
        let ty = words.next().unwrap_or("");
        if word == "within" {
            return self.declare_in_body(alloc, name, linkage, ty);
        }
        let (Some(how), Some(linkage)) = (how_named(word), linkage_named(linkage)) else {
            return Ok(false);
        };
        let Some(ty) = type_named(alloc, ty)? else {
            return Ok(false);
        };
        self.state(alloc, how, name, linkage, ty)?;
        Ok(true)
    }
}

/// What the items of a unit mean.
#[derive(Drop)]
pub struct Items {
    pub heads: Vec<HeadMeaning>,
    pub bodies: Vec<BodyMeaning>,
    count: u32,
}

impl Items {
    pub fn new(alloc: Global) -> Items {
        Items {
            heads: Vec::new(alloc),
            bodies: Vec::new(alloc),
            count: 0,
        }
    }

    fn push(&mut self, alloc: Global, parts: Parts) -> Result<(), AllocError> {
        let head = HeadMeaning {
            item: item_of(alloc, self.count)?,
            declared: Listing::from_vec(parts.declared),
            params: none(alloc),
            entities: Entities::from_vec(alloc, parts.entities)?,
            occs: none(alloc),
            faults: none(alloc),
            defines: none(alloc),
            used: Listing::from_vec(parts.used),
            stated: Listing::from_vec(parts.stated),
            symbols: none(alloc),
            inline: false,
        };
        let body = BodyMeaning {
            item: item_of(alloc, self.count)?,
            entities: Entities::from_vec(alloc, parts.declared_in_body)?,
            occs: none(alloc),
            faults: none(alloc),
            used: Listing::from_vec(parts.used_in_body),
        };
        self.heads.push(head)?;
        self.bodies.push(body)?;
        self.count = self.count.wrapping_add(1);
        Ok(())
    }

    /// One item more; `false` where the text is none.
    pub fn read(&mut self, alloc: Global, item: &str) -> Result<bool, AllocError> {
        let mut parts = Parts::new(alloc);
        for part in item.split(',') {
            if !parts.read(alloc, part)? {
                return Ok(false);
            }
        }
        self.push(alloc, parts)?;
        Ok(true)
    }
}
