// The tags of the cases: a letter, what it names, and its members, each with its type and, of a bit-field, its width; `-` stands for no
// name.
use crate::types::{plain, type_named};
use shared_text::Name;
use std::alloc::{AllocError, Global};
use type_data::{ItemName, Member, Members, TagId, TagInfo, TagKind, Tags};

const TAGS: &str = "\
A struct p:i -:O c:i
B struct b:i c:i
C struct a:i b:i
D struct a:i d:B e:i
F struct n:i t:i_
G struct -:i:3 a:i -:i:0 b:i
H struct -:M d:i
J struct k:i l:i
I struct y:Y
K struct s:T t:i
L struct s:c2 n:i
M union -:C c:l
N struct z:Z b:i
O union a:i b:f
P struct a:i* b:i
Q struct i:i t:J
R struct quot:i rem:i
S struct x:i y:i
T struct a:i b:c4 n:T* bf:i:5
U union i:i s:V
V struct c:c d:c
W struct a:i3 b:i
X struct x:i2 y:Y
Y struct a:i
Z struct -:i:3
";

/// A tag by its letter.
pub fn tag(alloc: Global, letter: u8) -> Result<TagId, AllocError> {
    let label = Name::from_str(alloc, "")?;
    let item = ItemName { label, nth: 0 };
    Ok(TagId {
        item,
        at: letter as u32,
    })
}

fn named(alloc: Global, name: &str) -> Result<Option<Name>, AllocError> {
    if name == "-" {
        return Ok(None);
    }
    let name = Name::from_str(alloc, name)?;
    Ok(Some(name))
}

fn width_named(word: &str) -> Option<u8> {
    match word.parse::<u8>() {
        Ok(width) => Some(width),
        Err(_) => None,
    }
}

fn member(alloc: Global, word: &str) -> Result<Member, AllocError> {
    let mut parts = word.split(':');
    let name = named(alloc, parts.next().unwrap_or("-"))?;
    let ty = type_named(alloc, parts.next().unwrap_or(""))?;
    Ok(Member {
        name,
        ty,
        qual: plain(),
        width: width_named(parts.next().unwrap_or("")),
        align: None,
        value: None,
        at: None,
    })
}

fn kind_named(word: &str) -> TagKind {
    match word {
        "union" => TagKind::Union,
        _ => TagKind::Struct,
    }
}

/// A structure or union with these members.
pub fn info(
    alloc: Global,
    kind: TagKind,
    name: &str,
    members: Vec<Member>,
) -> Result<TagInfo, AllocError> {
    let name = named(alloc, name)?;
    let members = Members::from_vec(alloc, members)?;
    Ok(TagInfo {
        kind,
        name,
        members: Some(members),
        layout: None,
    })
}

fn insert(alloc: Global, tags: &mut Tags, line: &str) -> Result<(), AllocError> {
    let mut words = line.split_ascii_whitespace();
    let name = words.next().unwrap_or("-");
    let kind = kind_named(words.next().unwrap_or(""));
    let mut members = Vec::new(alloc);
    for word in words {
        let member = member(alloc, word)?;
        members.push(member)?;
    }
    let letter = match name.as_bytes().first() {
        Some(letter) => *letter,
        None => 0,
    };
    let info = info(alloc, kind, name, members)?;
    tags.insert(tag(alloc, letter)?, info)
}

/// What is known of these tags.
pub fn tags_of(alloc: Global) -> Result<Tags, AllocError> {
    let mut tags = Tags::new(alloc);
    for line in TAGS.lines() {
        insert(alloc, &mut tags, line)?;
    }
    Ok(tags)
}
