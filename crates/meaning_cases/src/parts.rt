// The head or body that is read.
use crate::words::{how_named, number, plain, role_named, share_item, symbol_named, type_named};
use scope_tables::{
    Anchor, BodyMeaning, Entities, Entity, EntityKind, HeadMeaning, HeadSymbol, Life, Linkage, Occ,
    Stated, item_file,
};
use shared_list::Listing;
use shared_text::Name;
use std::alloc::{AllocError, Global};
use tok_data::TokId;
use type_data::{CType, Fault, ItemName, Members, TagId, TagInfo, TagKind};
use unit_items::Item;

fn none<T>(alloc: Global) -> Listing<T> {
    Listing::from_vec(Vec::new(alloc))
}

// The list of members of a tag, which has none, where it is complete.
fn members_if(alloc: Global, complete: bool) -> Result<Option<Members>, AllocError> {
    if !complete {
        return Ok(None);
    }
    let members = Members::from_vec(alloc, Vec::new(alloc))?;
    Ok(Some(members))
}

fn anchor(alloc: Global, items: &[Item], word: &str) -> Result<Option<Anchor>, AllocError> {
    if let Some(name) = word.strip_prefix('=') {
        let name = Name::from_str(alloc, name)?;
        return Ok(Some(Anchor::External(name)));
    }
    let Some((item, at)) = word.split_once('.') else {
        return Ok(None);
    };
    let Some(item) = items.get(number(Some(item)) as usize) else {
        return Ok(None);
    };
    let file = item_file(alloc, &item.name)?;
    Ok(Some(Anchor::Local(TokId {
        file,
        at: number(Some(at)),
    })))
}

fn tag_named(items: &[Item], word: &str) -> Result<Option<TagId>, AllocError> {
    let Some((of, at)) = word.split_once('.') else {
        return Ok(None);
    };
    let Some(of) = items.get(number(Some(of)) as usize) else {
        return Ok(None);
    };
    let item = share_item(&of.name)?;
    Ok(Some(TagId {
        item,
        at: number(Some(at)),
    }))
}

/// What is said of the head or body of an item.
#[derive(Drop)]
pub struct Part {
    pub item: ItemName,
    pub is_body: bool,
    pub inline: bool,
    entities: Vec<Entity>,
    occs: Vec<Occ>,
    faults: Vec<Fault>,
    stated: Vec<Stated>,
    symbols: Vec<HeadSymbol>,
}

impl Part {
    pub fn new(alloc: Global, item: ItemName, is_body: bool, inline: bool) -> Part {
        Part {
            item,
            is_body,
            inline,
            entities: Vec::new(alloc),
            occs: Vec::new(alloc),
            faults: Vec::new(alloc),
            stated: Vec::new(alloc),
            symbols: Vec::new(alloc),
        }
    }

    fn entity(
        &mut self,
        alloc: Global,
        name: &str,
        anchor: Anchor,
        kind: EntityKind,
        ty: CType,
    ) -> Result<(), AllocError> {
        let Ok(name) = Name::from_str(alloc, name) else {
            drop(anchor);
            drop(kind);
            drop(ty);
            return Err(AllocError);
        };
        let entity = Entity {
            name,
            kind,
            ty,
            qual: plain(),
            linkage: Linkage::None,
            life: Life::Without,
            value: None,
            anchor,
        };
        self.entities.push(entity)?;
        Ok(())
    }

    fn tag(
        &mut self,
        alloc: Global,
        name: &str,
        anchor: Anchor,
        id: TagId,
        complete: bool,
    ) -> Result<(), AllocError> {
        let Ok(known) = Name::from_str(alloc, name) else {
            drop(anchor);
            return Err(AllocError);
        };
        let Ok(ty) = type_named(alloc, &self.item, "int") else {
            drop(anchor);
            return Err(AllocError);
        };
        let Ok(members) = members_if(alloc, complete) else {
            drop(anchor);
            return Err(AllocError);
        };
        let info = TagInfo {
            kind: TagKind::Struct,
            name: Some(known),
            members,
            layout: None,
        };
        self.entity(alloc, name, anchor, EntityKind::Tag(id, info), ty)
    }

    fn occ(
        &mut self,
        alloc: Global,
        at: u32,
        anchor: Anchor,
        role: &str,
    ) -> Result<bool, AllocError> {
        let Some(role) = role_named(role) else {
            return Ok(false);
        };
        let file = item_file(alloc, &self.item)?;
        let tok = TokId { file, at };
        self.occs.push(Occ { tok, anchor, role })?;
        Ok(true)
    }

    fn fault(
        &mut self,
        alloc: Global,
        rule: u16,
        at: u32,
        name: &str,
        ty: &str,
    ) -> Result<(), AllocError> {
        let mut names = Vec::new(alloc);
        names.push(Name::from_str(alloc, name)?)?;
        let mut types = Vec::new(alloc);
        if !ty.is_empty() {
            let one = type_named(alloc, &self.item, ty)?;
            types.push(one)?;
        }
        self.faults.push(Fault {
            rule,
            at,
            names: Listing::from_vec(names),
            types: Listing::from_vec(types),
        })?;
        Ok(())
    }

    fn state(&mut self, alloc: Global, how: &str, name: &str, at: u32) -> Result<bool, AllocError> {
        let Some(how) = how_named(how) else {
            return Ok(false);
        };
        let name = Name::from_str(alloc, name)?;
        self.stated.push(Stated { name, at, how })?;
        Ok(true)
    }

    fn mark(&mut self, kind: &str, at: u32) -> Result<bool, AllocError> {
        let Some(kind) = symbol_named(kind) else {
            return Ok(false);
        };
        self.symbols.push(HeadSymbol { at, kind })?;
        Ok(true)
    }

    fn read_anchored(
        &mut self,
        alloc: Global,
        items: &[Item],
        what: &str,
        first: &str,
        second: &str,
        rest: &str,
    ) -> Result<bool, AllocError> {
        let Some(anchor) = anchor(alloc, items, second)? else {
            return Ok(false);
        };
        if what == "occ" {
            return self.occ(alloc, number(Some(first)), anchor, rest);
        }
        if what == "object" {
            let Ok(ty) = type_named(alloc, &self.item, rest) else {
                drop(anchor);
                return Err(AllocError);
            };
            self.entity(alloc, first, anchor, EntityKind::Object, ty)?;
            return Ok(true);
        }
        let Some((at, members)) = rest.split_once(' ') else {
            drop(anchor);
            return Ok(false);
        };
        let Ok(id) = tag_named(items, at) else {
            drop(anchor);
            return Err(AllocError);
        };
        let Some(id) = id else {
            drop(anchor);
            return Ok(false);
        };
        self.tag(alloc, first, anchor, id, members == "complete")?;
        Ok(true)
    }

    /// One line; `false` where it is none.
    pub fn read(&mut self, alloc: Global, items: &[Item], line: &str) -> Result<bool, AllocError> {
        let mut words = line.splitn(4, ' ');
        let what = words.next().unwrap_or("");
        let first = words.next().unwrap_or("");
        let second = words.next().unwrap_or("");
        let rest = words.next().unwrap_or("");
        match what {
            "occ" => self.read_anchored(alloc, items, what, first, second, rest),
            "object" => self.read_anchored(alloc, items, what, first, second, rest),
            "tag" => self.read_anchored(alloc, items, what, first, second, rest),
            "stated" => self.state(alloc, first, second, number(Some(rest))),
            "symbol" => self.mark(first, number(Some(second))),
            "fault" => {
                let rule = first.parse::<u16>().unwrap_or(0);
                let (name, ty) = rest.split_once(' ').unwrap_or((rest, ""));
                self.fault(alloc, rule, number(Some(second)), name, ty)?;
                Ok(true)
            }
            _ => Ok(false),
        }
    }

    pub fn into_head(self, alloc: Global) -> Result<HeadMeaning, AllocError> {
        Ok(HeadMeaning {
            item: self.item,
            declared: none(alloc),
            params: none(alloc),
            entities: Entities::from_vec(alloc, self.entities)?,
            occs: Listing::from_vec(self.occs),
            faults: Listing::from_vec(self.faults),
            defines: none(alloc),
            used: none(alloc),
            stated: Listing::from_vec(self.stated),
            symbols: Listing::from_vec(self.symbols),
            inline: self.inline,
        })
    }

    pub fn into_body(self, alloc: Global) -> Result<BodyMeaning, AllocError> {
        Ok(BodyMeaning {
            item: self.item,
            entities: Entities::from_vec(alloc, self.entities)?,
            occs: Listing::from_vec(self.occs),
            faults: Listing::from_vec(self.faults),
            used: none(alloc),
        })
    }
}
