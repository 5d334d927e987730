// The tags of a unit that is being told, and the names that it shows to the others.
use crate::notation::{plain, tag, type_named};
use crate::words::token_named;
use scope_tables::Export;
use shared_text::Name;
use std::alloc::{AllocError, Global};
use type_data::{Member, Members, Qual, TagInfo, TagKind, Tags, Value};

/// A tag: its letter, and what was told of it.
#[derive(Drop)]
pub struct DraftTag {
    letter: u8,
    kind: TagKind,
    name: Option<Name>,
    complete: bool,
    members: Vec<Member>,
}

fn kind_named(word: &str) -> TagKind {
    match word {
        "union" => TagKind::Union,
        "enum" => TagKind::Enum,
        _ => TagKind::Struct,
    }
}

/// A name; none for `-`.
fn name_of(alloc: Global, word: &str) -> Result<Option<Name>, AllocError> {
    if word == "-" {
        return Ok(None);
    }
    let name = Name::from_str(alloc, word)?;
    Ok(Some(name))
}

/// A tag without members: `LETTER KIND NAME`, and `incomplete` where it is.
pub fn tag_told(alloc: Global, words: &str) -> Result<DraftTag, AllocError> {
    let mut words = words.split_ascii_whitespace();
    let letter = match words.next().unwrap_or("").as_bytes().first() {
        Some(letter) => *letter,
        None => 0,
    };
    let kind = kind_named(words.next().unwrap_or(""));
    let name = name_of(alloc, words.next().unwrap_or("-"))?;
    let complete = words.next().unwrap_or("") != "incomplete";
    Ok(DraftTag {
        letter,
        kind,
        name,
        complete,
        members: Vec::new(alloc),
    })
}

fn value_told(word: &str) -> Value {
    match word.parse::<i128>() {
        Ok(number) => Value::Known(number),
        Err(_) => Value::Unknown,
    }
}

// What a word says of a member: `const`, a width, an alignment or a value.
fn say(member: &mut Member, word: &str) {
    if word == "const" {
        member.qual = Qual {
            is_const: true,
            is_restrict: false,
            is_volatile: false,
        };
    }
    if let Some(digits) = word.strip_prefix(":") {
        member.width = Some(digits.parse::<u8>().unwrap_or(0));
    }
    if let Some(digits) = word.strip_prefix("@") {
        member.align = Some(digits.parse::<u64>().unwrap_or(0));
    }
    if let Some(digits) = word.strip_prefix("=") {
        member.value = Some(value_told(digits));
    }
}

/// A member: `NAME TYPE`, and `const`, `:WIDTH`, `@ALIGNMENT` or `=VALUE`.
fn member_told(alloc: Global, words: &str) -> Result<Member, AllocError> {
    let mut words = words.split_ascii_whitespace();
    let name = name_of(alloc, words.next().unwrap_or("-"))?;
    let ty = type_named(alloc, words.next().unwrap_or("i"))?;
    let mut member = Member {
        name,
        ty,
        qual: plain(),
        width: None,
        align: None,
        value: None,
        at: None,
    };
    for word in words {
        say(&mut member, word);
    }
    Ok(member)
}

/// The last tag has a member more.
pub fn add_member(alloc: Global, tags: &mut Vec<DraftTag>, words: &str) -> Result<(), AllocError> {
    let Some(tag) = tags.last_mut() else {
        return Ok(());
    };
    let member = member_told(alloc, words)?;
    tag.members.push(member)?;
    Ok(())
}

fn members_if(
    alloc: Global,
    complete: bool,
    members: Vec<Member>,
) -> Result<Option<Members>, AllocError> {
    if !complete {
        return Ok(None);
    }
    let members = Members::from_vec(alloc, members)?;
    Ok(Some(members))
}

fn settle_tag(alloc: Global, tags: &mut Tags, draft: DraftTag) -> Result<(), AllocError> {
    let DraftTag {
        letter,
        kind,
        name,
        complete,
        members,
    } = draft;
    let id = tag(alloc, u32::from(letter))?;
    let info = TagInfo {
        kind,
        name,
        members: members_if(alloc, complete, members)?,
        layout: None,
    };
    tags.insert(id, info)
}

/// What was told of the tags.
pub fn settle_tags(
    alloc: Global,
    tags: &mut Tags,
    drafts: Vec<DraftTag>,
) -> Result<(), AllocError> {
    let mut drafts = drafts;
    for _ in 0..u64::MAX {
        let Some(draft) = drafts.pop() else {
            return Ok(());
        };
        settle_tag(alloc, tags, draft)?;
    }
    Ok(())
}

/// A name that the unit shows: `NAME TYPE FIRST`, and the token that defines it.
pub fn export_told(alloc: Global, words: &str) -> Result<Export, AllocError> {
    let mut words = words.split_ascii_whitespace();
    let name = Name::from_str(alloc, words.next().unwrap_or(""))?;
    let ty = type_named(alloc, words.next().unwrap_or("i"))?;
    let first = token_named(alloc, words.next().unwrap_or(""))?;
    let defined = match words.next() {
        Some(word) => Some(token_named(alloc, word)?),
        None => None,
    };
    Ok(Export {
        name,
        ty,
        first,
        defined,
    })
}
