// What the words of a line stand for.
use crate::notation::{plain, tag, type_named};
use decl_rules::{DeclParts, Storage};
use scope_tables::ScopeKind;
use shared_text::Name;
use std::alloc::{AllocError, Global};
use tok_data::{FileId, TokId};
use type_data::{Layout, Members, TagInfo, TagKind, Tags, Value};

/// The number of each declarator's token in its item.
const AT: u32 = 7;

pub fn scope_named(word: &str) -> ScopeKind {
    match word {
        "file" => ScopeKind::File,
        "prototype" => ScopeKind::Prototype,
        _ => ScopeKind::Block,
    }
}

fn storage_named(word: &str) -> Option<Storage> {
    match word {
        "typedef" => Some(Storage::Typedef),
        "extern" => Some(Storage::Extern),
        "static" => Some(Storage::Static),
        "auto" => Some(Storage::Auto),
        "register" => Some(Storage::Register),
        _ => None,
    }
}

// An alignment: a number, or one that isn't told.
fn value_named(word: &str) -> Value {
    match word.parse::<i128>() {
        Ok(number) => Value::Known(number),
        Err(_) => Value::Unknown,
    }
}

fn read_word(decl: &mut DeclParts, word: &str) {
    if let Some(storage) = storage_named(word) {
        decl.storage = storage;
    }
    if let Some(align) = word.strip_prefix("align:") {
        decl.align = Some(value_named(align));
    }
    match word {
        "inline" => decl.inline = true,
        "noreturn" => decl.noreturn = true,
        "thread" => decl.thread = true,
        "made" => decl.made = true,
        "const" => decl.qual.is_const = true,
        "init" => decl.has_init = true,
        "body" => decl.has_body = true,
        "bare" => decl.has_list = false,
        _ => {}
    }
}

/// The declarator of a line: the kind of its scope, its name (`-` for none), its type, and its specifiers.
pub fn parts_of(alloc: Global, number: u32, line: &str) -> Result<Option<DeclParts>, AllocError> {
    let mut words = line.split_ascii_whitespace();
    let (Some(scope), Some(name), Some(ty)) = (words.next(), words.next(), words.next()) else {
        return Ok(None);
    };
    let name = Name::from_str(alloc, if name == "-" { "" } else { name })?;
    let file = Name::from_str(alloc, "/u.c")?;
    let file = FileId::from_name(file);
    let mut decl = DeclParts {
        name,
        at: AT,
        tok: TokId { file, at: number },
        made: false,
        storage: Storage::None,
        inline: false,
        noreturn: false,
        thread: false,
        align: None,
        ty: type_named(alloc, ty)?,
        qual: plain(),
        scope: scope_named(scope),
        has_init: false,
        has_body: false,
        has_list: true,
    };
    for word in words {
        read_word(&mut decl, word);
    }
    Ok(Some(decl))
}

fn tell_all(alloc: Global, tags: &mut Tags) -> Result<(), AllocError> {
    let id = tag(alloc, 1)?;
    let complete = TagInfo {
        kind: TagKind::Struct,
        name: None,
        members: Some(Members::from_vec(alloc, Vec::new(alloc))?),
        layout: Some(Layout::new(alloc, 8, 8, Vec::new(alloc))?),
    };
    tags.insert(id, complete)?;
    let id = tag(alloc, 2)?;
    let incomplete = TagInfo {
        kind: TagKind::Struct,
        name: None,
        members: None,
        layout: None,
    };
    tags.insert(id, incomplete)?;
    let id = tag(alloc, 3)?;
    let enumeration = TagInfo {
        kind: TagKind::Enum,
        name: None,
        members: Some(Members::from_vec(alloc, Vec::new(alloc))?),
        layout: None,
    };
    tags.insert(id, enumeration)?;
    Ok(())
}

/// A complete structure, an incomplete one, and a complete enumeration.
pub fn tags_of(alloc: Global) -> Result<Tags, AllocError> {
    let mut tags = Tags::new(alloc);
    tell_all(alloc, &mut tags)?;
    Ok(tags)
}
