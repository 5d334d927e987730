// A unit that is being told.
use crate::notation::{add_tags, plain, tag, tag_info, type_named};
use crate::tags::{DraftTag, add_member, export_told, settle_tags, tag_told};
use crate::words::{anchor_named, path_named, role_named, symbol_named, token_named};
use scope_tables::{
    Entities, Entity, EntityKind, Export, Exports, Life, Linkage, Occ, Symbol, UnitEntity,
    UnitMeaning,
};
use shared_list::Listing;
use shared_text::Name;
use std::alloc::{AllocError, Global};
use std::mem;
use type_data::{CType, Node, TagKind, Tags, Value};
use unit_index::{IndexedUnit, Pool};
use uri_paths::Path;

/// What was told of a unit so far.
#[derive(Drop)]
pub struct Draft {
    reads: Vec<Path>,
    occs: Vec<Occ>,
    entities: Vec<UnitEntity>,
    symbols: Vec<Symbol>,
    tags: Vec<DraftTag>,
    exports: Vec<Export>,
    // What the units that were told before have, which those behind them share.
    pool: Pool,
}

fn kind_named(alloc: Global, word: &str, name: &str) -> Result<EntityKind, AllocError> {
    match word {
        "function" => Ok(EntityKind::Function),
        "typedef" => Ok(EntityKind::Typedef),
        "enumerator" => Ok(EntityKind::Enumerator),
        "member" => Ok(EntityKind::Member),
        "label" => Ok(EntityKind::Label),
        "struct" => tag_kind(alloc, TagKind::Struct, name),
        "union" => tag_kind(alloc, TagKind::Union, name),
        "enum" => tag_kind(alloc, TagKind::Enum, name),
        _ => Ok(EntityKind::Object),
    }
}

fn tag_kind(alloc: Global, kind: TagKind, name: &str) -> Result<EntityKind, AllocError> {
    let id = tag(alloc, 9)?;
    let info = tag_info(alloc, kind, name)?;
    Ok(EntityKind::Tag(id, info))
}

fn value_named(word: &str) -> Value {
    match word.parse::<i128>() {
        Ok(number) => Value::Known(number),
        Err(_) => Value::Unknown,
    }
}

// An enumerator's value; none for another kind.
fn value_of(word: &str, told: &str) -> Option<Value> {
    if word == "enumerator" {
        return Some(value_named(told));
    }
    None
}

// The type of what isn't an enumerator.
fn type_of(alloc: Global, word: &str, told: &str) -> Result<CType, AllocError> {
    if word == "enumerator" {
        return Ok(CType::of(Node::Void));
    }
    type_named(alloc, told)
}

fn entity_named(
    alloc: Global,
    word: &str,
    anchor: &str,
    name: &str,
    told: &str,
) -> Result<Entity, AllocError> {
    let anchor = anchor_named(alloc, anchor)?;
    let ty = type_of(alloc, word, told)?;
    let spelled = Name::from_str(alloc, name)?;
    let kind = kind_named(alloc, word, name)?;
    Ok(Entity {
        name: spelled,
        kind,
        ty,
        qual: plain(),
        linkage: Linkage::None,
        life: Life::Without,
        value: value_of(word, told),
        anchor,
    })
}

fn tags_told(alloc: Global) -> Result<Tags, AllocError> {
    let mut tags = Tags::new(alloc);
    add_tags(alloc, &mut tags)?;
    Ok(tags)
}

impl Draft {
    pub fn new(alloc: Global) -> Draft {
        Draft {
            reads: Vec::new(alloc),
            occs: Vec::new(alloc),
            entities: Vec::new(alloc),
            symbols: Vec::new(alloc),
            tags: Vec::new(alloc),
            exports: Vec::new(alloc),
            pool: Pool::new(alloc),
        }
    }

    /// The unit's own path and the others that it reads.
    pub fn read_paths(&mut self, alloc: Global, words: &str) -> Result<(), AllocError> {
        for word in words.split_ascii_whitespace() {
            if let Some(path) = path_named(alloc, word)? {
                self.reads.push(path)?;
            }
        }
        Ok(())
    }

    fn add_occ(&mut self, alloc: Global, words: &str) -> Result<(), AllocError> {
        let mut words = words.split_ascii_whitespace();
        let role = role_named(words.next().unwrap_or(""));
        let anchor = anchor_named(alloc, words.next().unwrap_or(""))?;
        let tok = token_named(alloc, words.next().unwrap_or(""))?;
        self.occs.push(Occ { tok, anchor, role })?;
        Ok(())
    }

    fn add_entity(&mut self, alloc: Global, words: &str) -> Result<(), AllocError> {
        let mut words = words.split_ascii_whitespace();
        let word = words.next().unwrap_or("");
        let anchor = words.next().unwrap_or("");
        let name = words.next().unwrap_or("");
        let told = words.next().unwrap_or("i");
        let entity = entity_named(alloc, word, anchor, name, told)?;
        let anchor = entity.anchor.share()?;
        let mut declared = Vec::new(alloc);
        declared.push(entity)?;
        let declared = Entities::from_vec(alloc, declared)?;
        let entity = declared.anchored(0, anchor)?;
        self.entities.push(entity)?;
        Ok(())
    }

    fn add_symbol(&mut self, alloc: Global, words: &str) -> Result<(), AllocError> {
        let mut words = words.split_ascii_whitespace();
        let kind = symbol_named(words.next().unwrap_or(""));
        let name = Name::from_str(alloc, words.next().unwrap_or(""))?;
        let tok = token_named(alloc, words.next().unwrap_or(""))?;
        self.symbols.push(Symbol { tok, name, kind })?;
        Ok(())
    }

    // What a line tells of what the unit shows to the others.
    fn take_shown(&mut self, alloc: Global, line: &str) -> Result<bool, AllocError> {
        if let Some(words) = line.strip_prefix("tag ") {
            let tag = tag_told(alloc, words)?;
            self.tags.push(tag)?;
            return Ok(true);
        }
        if let Some(words) = line.strip_prefix("member ") {
            add_member(alloc, &mut self.tags, words)?;
            return Ok(true);
        }
        if let Some(words) = line.strip_prefix("export ") {
            let export = export_told(alloc, words)?;
            self.exports.push(export)?;
            return Ok(true);
        }
        Ok(false)
    }

    /// What a line tells of the unit; `false` where it tells nothing.
    pub fn take(&mut self, alloc: Global, line: &str) -> Result<bool, AllocError> {
        if let Some(words) = line.strip_prefix("occ ") {
            self.add_occ(alloc, words)?;
            return Ok(true);
        }
        if let Some(words) = line.strip_prefix("entity ") {
            self.add_entity(alloc, words)?;
            return Ok(true);
        }
        if let Some(words) = line.strip_prefix("symbol ") {
            self.add_symbol(alloc, words)?;
            return Ok(true);
        }
        self.take_shown(alloc, line)
    }

    // What was told, which is forgotten here.
    fn meaning(&mut self, alloc: Global, tags: Tags) -> UnitMeaning {
        let occs = mem::replace(&mut self.occs, Vec::new(alloc));
        let entities = mem::replace(&mut self.entities, Vec::new(alloc));
        let symbols = mem::replace(&mut self.symbols, Vec::new(alloc));
        let exports = mem::replace(&mut self.exports, Vec::new(alloc));
        UnitMeaning {
            faults: Listing::from_vec(Vec::new(alloc)),
            occs: Listing::from_vec(occs),
            entities: Listing::from_vec(entities),
            symbols: Listing::from_vec(symbols),
            exports: Exports {
                names: Listing::from_vec(exports),
                tags,
            },
        }
    }

    fn own_path(&self) -> Result<Option<Path>, AllocError> {
        match self.reads.as_slice().first() {
            Some(path) => Ok(Some(path.share()?)),
            None => Ok(None),
        }
    }

    /// The unit that was told, which is forgotten here; none where no path was told.
    pub fn unit(&mut self, alloc: Global) -> Result<Option<IndexedUnit>, AllocError> {
        let Some(path) = self.own_path()? else {
            return Ok(None);
        };
        let mut tags = tags_told(alloc)?;
        let drafts = mem::replace(&mut self.tags, Vec::new(alloc));
        settle_tags(alloc, &mut tags, drafts)?;
        let reads = mem::replace(&mut self.reads, Vec::new(alloc));
        let meaning = self.meaning(alloc, tags);
        match IndexedUnit::of(
            alloc,
            path,
            Listing::from_vec(reads),
            meaning,
            &mut self.pool,
        ) {
            Ok(unit) => Ok(Some(unit)),
            Err(refused) => Err(refused),
        }
    }
}
