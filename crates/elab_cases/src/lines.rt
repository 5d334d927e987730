// Lines that declare what stands in front of expressions. Behind the `:` stands an expression whose type is that of the name, so that
// `*(int (*)[3])0` is an array of three.
//
//     object WORDS NAME : E       words: static, internal, automatic, thread, register
//     function WORDS NAME : E     words: internal
//     typedef NAME : E
//     enumerator NAME VALUE
//     struct NAME                 a tag that isn't complete; so union, enum
//     struct NAME | NAME : E | NAME WIDTH : E | : E
//     scope KIND                  file or block: where the expressions stand
use crate::reading::tokens_of;
use crate::setting::{Declared, Meant, Setting, declare, declare_tag, elaborated};
use scope_tables::{EntityKind, Life, Linkage, ScopeKind};
use shared_text::Name;
use std::alloc::{AllocError, Global};
use type_data::{Basic, CType, Judged, Member, Node, TagKind, Value};
use type_rel::UNQUALIFIED;

fn bad() -> CType {
    CType::of(Node::Bad)
}

// What an expression is; one that is none has a fault.
fn judged(alloc: Global, setting: &Setting, text: &str) -> Result<Option<Judged>, AllocError> {
    let tokens = tokens_of(alloc, text)?;
    let meant = elaborated(alloc, setting, tokens.as_slice())?;
    let Meant { meaning, asked: _ } = meant;
    match meaning {
        Some(meaning) => Ok(Some(meaning.judged)),
        None => Ok(None),
    }
}

fn life_of(words: &str) -> Life {
    if words.contains("automatic") {
        return Life::Automatic;
    }
    if words.contains("thread") {
        return Life::Thread;
    }
    if words.contains("register") {
        return Life::Register;
    }
    Life::Static
}

fn linkage_of(words: &str) -> Linkage {
    if words.contains("internal") {
        return Linkage::Internal;
    }
    Linkage::None
}

fn declare_typed(
    alloc: Global,
    setting: &mut Setting,
    declared: Declared<'_>,
    text: &str,
) -> Result<(), AllocError> {
    match judged(alloc, setting, text)? {
        Some(judged) => declare(alloc, setting, declared, judged.ty, judged.qual),
        None => declare(alloc, setting, declared, bad(), UNQUALIFIED),
    }
}

fn last_word(words: &str) -> &str {
    match words.trim().rsplit_once(' ') {
        Some((_, last)) => last,
        None => words.trim(),
    }
}

fn take_named(
    alloc: Global,
    setting: &mut Setting,
    words: &str,
    kind: EntityKind,
    life: Life,
) -> Result<(), AllocError> {
    let (front, text) = match words.split_once(':') {
        Some(parts) => parts,
        None => (words, ""),
    };
    let declared = Declared {
        name: last_word(front),
        kind,
        life,
        linkage: linkage_of(front),
        value: None,
    };
    declare_typed(alloc, setting, declared, text)
}

fn take_enumerator(alloc: Global, setting: &mut Setting, words: &str) -> Result<(), AllocError> {
    let (name, value) = match words.trim().split_once(' ') {
        Some(parts) => parts,
        None => (words.trim(), ""),
    };
    let value = match value.parse::<i128>() {
        Ok(number) => Value::Known(number),
        Err(_) => Value::Unknown,
    };
    let declared = Declared {
        name,
        kind: EntityKind::Enumerator,
        life: Life::Without,
        linkage: Linkage::None,
        value: Some(value),
    };
    declare(
        alloc,
        setting,
        declared,
        CType::of(Node::Basic(Basic::Int)),
        UNQUALIFIED,
    )
}

fn member_name(alloc: Global, word: &str) -> Result<Option<Name>, AllocError> {
    if word.is_empty() {
        return Ok(None);
    }
    let name = Name::from_str(alloc, word)?;
    Ok(Some(name))
}

fn width_of(word: &str) -> Option<u8> {
    match word.parse::<u8>() {
        Ok(width) => Some(width),
        Err(_) => None,
    }
}

fn member_of(alloc: Global, setting: &Setting, words: &str) -> Result<Member, AllocError> {
    let (front, text) = match words.split_once(':') {
        Some(parts) => parts,
        None => (words, ""),
    };
    let (name, width) = match front.trim().split_once(' ') {
        Some(parts) => parts,
        None => (front.trim(), ""),
    };
    let name = member_name(alloc, name)?;
    let width = width_of(width);
    match judged(alloc, setting, text)? {
        Some(judged) => Ok(Member {
            name,
            ty: judged.ty,
            qual: judged.qual,
            width,
            align: None,
            value: None,
            at: None,
        }),
        None => Ok(Member {
            name,
            ty: bad(),
            qual: UNQUALIFIED,
            width,
            align: None,
            value: None,
            at: None,
        }),
    }
}

fn members_of(
    alloc: Global,
    setting: &Setting,
    words: &str,
) -> Result<Option<Vec<Member>>, AllocError> {
    if !words.contains("|") {
        return Ok(None);
    }
    let mut members = Vec::new(alloc);
    for piece in words.split('|').skip(1) {
        let member = member_of(alloc, setting, piece)?;
        members.push(member)?;
    }
    Ok(Some(members))
}

fn take_tag(
    alloc: Global,
    setting: &mut Setting,
    kind: TagKind,
    words: &str,
) -> Result<(), AllocError> {
    let members = members_of(alloc, setting, words)?;
    let name = match words.split_once('|') {
        Some((front, _)) => front.trim(),
        None => words.trim(),
    };
    declare_tag(alloc, setting, kind, name, members)
}

fn kind_named(word: &str) -> ScopeKind {
    if word.trim() == "file" {
        return ScopeKind::File;
    }
    ScopeKind::Block
}

/// Takes a line.
pub fn take(alloc: Global, setting: &mut Setting, line: &str) -> Result<(), AllocError> {
    let (word, rest) = match line.split_once(' ') {
        Some(parts) => parts,
        None => (line, ""),
    };
    match word {
        "object" => {
            let life = life_of(rest);
            take_named(alloc, setting, rest, EntityKind::Object, life)
        }
        "function" => take_named(alloc, setting, rest, EntityKind::Function, Life::Without),
        "typedef" => take_named(alloc, setting, rest, EntityKind::Typedef, Life::Without),
        "enumerator" => take_enumerator(alloc, setting, rest),
        "struct" => take_tag(alloc, setting, TagKind::Struct, rest),
        "union" => take_tag(alloc, setting, TagKind::Union, rest),
        "enum" => take_tag(alloc, setting, TagKind::Enum, rest),
        "scope" => {
            setting.kind = kind_named(rest);
            Ok(())
        }
        _ => Ok(()),
    }
}
