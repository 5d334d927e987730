// Members, tags and the wanted layout of a line: what a call on layouts reads beside types.
use fault_texts::message;
use shared_text::Name;
use std::alloc::{AllocError, Global};
use type_data::{
    CType, Fault, ItemName, Layout, Member, Members, Qual, TagId, TagInfo, TagKind, Tags,
};
use type_print::print;
use type_rel::{layout, size_align};

/// The greatest size of a type, in bytes.
const MOST: u64 = 0x0FFF_FFFF_FFFF_FFFF;

/// What was read.
#[derive(Drop)]
pub struct Laying {
    members: Vec<Member>,
    tags: Tags,
    kind: TagKind,
    wanted: Option<(u64, u64)>,
    offsets: Vec<u64>,
}

/// A tag by its number.
pub fn tag(alloc: Global, number: u32) -> Result<TagId, AllocError> {
    let label = Name::from_str(alloc, "")?;
    let item = ItemName { label, nth: 0 };
    Ok(TagId { item, at: number })
}

fn kind_named(word: &str) -> TagKind {
    if word == "Union" {
        return TagKind::Union;
    }
    if word == "Enum" {
        return TagKind::Enum;
    }
    TagKind::Struct
}

// A size and an alignment, or none.
fn pair_named(word: &str) -> Option<(u64, u64)> {
    let (size, align) = word.split_once(':')?;
    let Ok(size) = size.parse::<u64>() else {
        return None;
    };
    let Ok(align) = align.parse::<u64>() else {
        return None;
    };
    if size <= MOST && 1 <= align {
        return Some((size, align));
    }
    None
}

fn layout_of(alloc: Global, pair: Option<(u64, u64)>) -> Result<Option<Layout>, AllocError> {
    let Some((size, align)) = pair else {
        return Ok(None);
    };
    if size <= MOST && 1 <= align {
        let layout = Layout::new(alloc, size, align, Vec::new(alloc))?;
        return Ok(Some(layout));
    }
    Ok(None)
}

impl Laying {
    pub fn new(alloc: Global) -> Laying {
        Laying {
            members: Vec::new(alloc),
            tags: Tags::new(alloc),
            kind: TagKind::Struct,
            wanted: None,
            offsets: Vec::new(alloc),
        }
    }

    /// A member of this type: its width and its stated alignment, each a number or `-`.
    pub fn member(&mut self, ty: CType, word: &str) -> Result<bool, AllocError> {
        let Some((width, align)) = word.split_once(':') else {
            return Ok(false);
        };
        let width = match width.parse::<u8>() {
            Ok(width) => Some(width),
            Err(_) => None,
        };
        let align = match align.parse::<u64>() {
            Ok(align) => Some(align),
            Err(_) => None,
        };
        let qual = Qual {
            is_const: false,
            is_restrict: false,
            is_volatile: false,
        };
        self.members.push(Member {
            name: None,
            ty,
            qual,
            width,
            align,
            value: None,
            at: None,
        })?;
        Ok(true)
    }

    // A tag: its number, its kind, and the size and alignment of its layout, if it has one.
    fn entry(&mut self, alloc: Global, word: &str, complete: bool) -> Result<bool, AllocError> {
        let Some((number, rest)) = word.split_once(':') else {
            return Ok(false);
        };
        let Some((kind, pair)) = rest.split_once(':') else {
            return Ok(false);
        };
        let Ok(number) = number.parse::<u32>() else {
            return Ok(false);
        };
        let members = if complete {
            Some(Members::from_vec(alloc, Vec::new(alloc))?)
        } else {
            None
        };
        let info = TagInfo {
            kind: kind_named(kind),
            name: None,
            members,
            layout: layout_of(alloc, pair_named(pair))?,
        };
        let id = tag(alloc, number)?;
        self.tags.insert(id, info)?;
        Ok(true)
    }

    // A tag of which the name alone is known: its number, its kind and its name.
    fn named(&mut self, alloc: Global, word: &str) -> Result<bool, AllocError> {
        let Some((number, rest)) = word.split_once(':') else {
            return Ok(false);
        };
        let Some((kind, name)) = rest.split_once(':') else {
            return Ok(false);
        };
        let Ok(number) = number.parse::<u32>() else {
            return Ok(false);
        };
        let name = Name::from_str(alloc, name)?;
        let info = TagInfo {
            kind: kind_named(kind),
            name: Some(name),
            members: None,
            layout: None,
        };
        let id = tag(alloc, number)?;
        self.tags.insert(id, info)?;
        Ok(true)
    }

    /// A type's text round a name.
    pub fn printed(
        &self,
        alloc: Global,
        ty: &CType,
        qual: Qual,
        name: &str,
    ) -> Result<String, AllocError> {
        print(alloc, ty, qual, name, &self.tags)
    }

    /// The message of a fault.
    pub fn message(&self, alloc: Global, fault: &Fault) -> Result<Name, AllocError> {
        message(alloc, fault, &self.tags)
    }

    /// Whether the word is one of those that take no type.
    pub fn word(&mut self, alloc: Global, word: &str) -> Result<bool, AllocError> {
        if let Some(kind) = word.strip_prefix("kind:") {
            self.kind = kind_named(kind);
            return Ok(true);
        }
        if let Some(pair) = word.strip_prefix("wanted:") {
            self.wanted = pair_named(pair);
            return Ok(true);
        }
        if let Some(place) = word.strip_prefix("at:") {
            let Ok(place) = place.parse::<u64>() else {
                return Ok(false);
            };
            self.offsets.push(place)?;
            return Ok(true);
        }
        if let Some(rest) = word.strip_prefix("complete:") {
            return self.entry(alloc, rest, true);
        }
        if let Some(rest) = word.strip_prefix("named:") {
            return self.named(alloc, rest);
        }
        match word.strip_prefix("incomplete:") {
            Some(rest) => self.entry(alloc, rest, false),
            None => Ok(false),
        }
    }

    /// Whether the type has the wanted size and alignment.
    pub fn is_size(&self, ty: &CType) -> bool {
        size_align(ty, &self.tags) == self.wanted
    }

    /// Whether the members have the wanted layout.
    pub fn is_layout(&self, alloc: Global) -> Result<bool, AllocError> {
        let Some(made) = layout(alloc, self.kind, self.members.as_slice(), &self.tags)? else {
            return Ok(self.wanted.is_none());
        };
        let same_size = self.wanted == Some((made.size(), made.align()));
        Ok(same_size && made.offsets() == self.offsets.as_slice())
    }
}
