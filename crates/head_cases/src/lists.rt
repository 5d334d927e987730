// Lists of enumerators and of members, and lists of alignment specifiers.
use crate::notation::{token, type_named};
use crate::showing::{shown_alignment, shown_enumerator, shown_fault, shown_field, shown_layout};
use crate::words::{constant_named, field_named, name_token, needed};
use head_rules::{Alignment, ClosedFields, Enumerated, Enumerators, Fields, completed};
use scope_tables::Scopes;
use std::alloc::{AllocError, Global};
use type_data::{Fault, Space, TagInfo, TagKind, Tags};

// What an enumerator declares stands in the innermost scope.
fn declare(alloc: Global, scopes: &mut Scopes, enumerated: &Enumerated) -> Result<(), AllocError> {
    let Some(entity) = &enumerated.entity else {
        return Ok(());
    };
    if scopes.depth() == 0 {
        return Ok(());
    }
    let name = entity.name.share()?;
    let entity = entity.share(alloc)?;
    let before = scopes.declare(Space::Ordinary, name, entity)?;
    drop(before);
    Ok(())
}

fn add_enumerator(
    alloc: Global,
    scopes: &mut Scopes,
    list: &mut Enumerators,
    word: &str,
    at: u32,
) -> Result<String, AllocError> {
    let (name, value) = match word.split_once("=") {
        Some((name, value)) => (name, Some(value)),
        None => (word, None),
    };
    let name = name_token(alloc, name, at)?;
    let enumerated = list.add(alloc, scopes, &name, constant_named(value))?;
    let Ok(shown) = shown_enumerator(alloc, &enumerated) else {
        drop(enumerated);
        return Err(AllocError);
    };
    let declared = declare(alloc, scopes, &enumerated);
    drop(enumerated);
    declared?;
    Ok(shown)
}

fn add_enumerators(
    alloc: Global,
    scopes: &mut Scopes,
    list: &mut Enumerators,
    out: &mut String,
    line: &str,
) -> Result<(), AllocError> {
    let mut at: u32 = 1;
    for word in line.split_ascii_whitespace() {
        let shown = add_enumerator(alloc, scopes, list, word, at)?;
        out.push_str(shown.as_str())?;
        out.push_str("; ")?;
        at = at.wrapping_add(1);
    }
    Ok(())
}

fn add_count(alloc: Global, out: &mut String, count: usize) -> Result<(), AllocError> {
    let count = format!(in alloc; "{count} members")?;
    out.push_str(count.as_str())
}

/// Enumerators, each a name with `=` and a value or without.
pub fn enumeration(
    alloc: Global,
    scopes: &mut Scopes,
    out: &mut String,
    line: &str,
) -> Result<(), AllocError> {
    let mut list = Enumerators::new(alloc);
    match add_enumerators(alloc, scopes, &mut list, out, line) {
        Ok(()) => add_count(alloc, out, list.into_members().as_slice().len()),
        Err(e) => Err(e),
    }
}

fn add_field(
    alloc: Global,
    tags: &Tags,
    fields: &mut Fields,
    word: &str,
    at: u32,
) -> Result<String, AllocError> {
    let parts = field_named(alloc, word, at)?;
    let fielded = fields.add(alloc, tags, &parts);
    drop(parts);
    let fielded = fielded?;
    let shown = shown_field(alloc, &fielded);
    drop(fielded);
    shown
}

fn add_faults(alloc: Global, out: &mut String, faults: &[Fault]) -> Result<(), AllocError> {
    for fault in faults {
        let shown = shown_fault(alloc, fault)?;
        out.push_str(shown.as_str())?;
        out.push_str("; ")?;
    }
    Ok(())
}

fn add_fields(
    alloc: Global,
    tags: &Tags,
    fields: &mut Fields,
    out: &mut String,
    line: &str,
) -> Result<(), AllocError> {
    let mut at: u32 = 1;
    for word in line.split_ascii_whitespace() {
        let shown = add_field(alloc, tags, fields, word, at)?;
        out.push_str(shown.as_str())?;
        out.push_str("; ")?;
        at = at.wrapping_add(1);
    }
    Ok(())
}

// What is known of the tag of this letter from here on.
fn know(
    alloc: Global,
    tags: &mut Tags,
    out: &mut String,
    letter: u8,
    info: TagInfo,
) -> Result<(), AllocError> {
    let shown = shown_layout(alloc, &info.layout)?;
    let id = token(alloc, u32::from(letter))?;
    tags.insert(id, info)?;
    out.push_str(shown.as_str())
}

fn end(
    alloc: Global,
    tags: &mut Tags,
    out: &mut String,
    letter: u8,
    kind: TagKind,
    closed: ClosedFields,
) -> Result<(), AllocError> {
    match add_faults(alloc, out, closed.faults.as_slice()) {
        Ok(()) => {
            let info = completed(alloc, kind, None, closed.members, tags)?;
            know(alloc, tags, out, letter, info)
        }
        Err(e) => Err(e),
    }
}

fn first_letter(word: &str) -> u8 {
    match word.as_bytes().first() {
        Some(letter) => *letter,
        None => b'Z',
    }
}

/// A structure or union: its letter, and its members.
pub fn structure(
    alloc: Global,
    tags: &mut Tags,
    out: &mut String,
    kind: TagKind,
    line: &str,
) -> Result<(), AllocError> {
    let (letter, line) = line.split_once(" ").unwrap_or((line, ""));
    let mut fields = Fields::new(alloc, kind);
    match add_fields(alloc, tags, &mut fields, out, line) {
        Ok(()) => {
            let closed = fields.close(alloc)?;
            end(alloc, tags, out, first_letter(letter), kind, closed)
        }
        Err(e) => Err(e),
    }
}

fn with_word(
    alloc: Global,
    tags: &Tags,
    stated: Alignment,
    at: u32,
    word: &str,
) -> Result<(Alignment, Option<Fault>), AllocError> {
    match word.strip_prefix("/") {
        Some(word) => {
            let ty = type_named(alloc, word)?;
            Ok(stated.with_type(alloc, at, tags, &ty))
        }
        None => Ok(stated.with_expression(alloc, at, needed(word))),
    }
}

/// Alignment specifiers: each a value, or `/` and a type.
pub fn alignment(alloc: Global, tags: &Tags, line: &str) -> Result<String, AllocError> {
    let mut stated = Alignment::none();
    let mut last = None;
    let mut at: u32 = 1;
    for word in line.split_ascii_whitespace() {
        let (more, fault) = with_word(alloc, tags, stated, at, word)?;
        stated = more;
        last = fault;
        at = at.wrapping_add(1);
    }
    shown_alignment(alloc, stated, &last)
}

/// What is known of a complete enumeration.
pub fn enumeration_info(alloc: Global, tags: &Tags) -> Result<TagInfo, AllocError> {
    completed(
        alloc,
        TagKind::Enum,
        None,
        Enumerators::new(alloc).into_members(),
        tags,
    )
}
