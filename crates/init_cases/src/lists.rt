// Long lists, one initializer after another.
use crate::pieces::piece_named;
use crate::started;
use crate::tags::{info, tag};
use crate::types::{plain, type_named};
use init_rules::{InitPiece, InitState, completed, init_step};
use shared_text::Name;
use std::alloc::{AllocError, Global};
use type_data::{Member, TagKind, Tags};
use type_print::print;

// Whether so many times the piece breaks nothing.
fn takes_all(
    alloc: Global,
    state: &mut InitState,
    piece: &InitPiece,
    tags: &Tags,
    count: u32,
) -> bool {
    for _ in 0..count {
        match init_step(alloc, state, piece, tags) {
            Ok(()) => {}
            Err(_) => return false,
        }
    }
    true
}

fn takes(
    alloc: Global,
    state: &mut InitState,
    word: &str,
    tags: &Tags,
) -> Result<bool, AllocError> {
    let piece = piece_named(alloc, word)?;
    let taken = takes_all(alloc, state, &piece, tags, 1);
    drop(piece);
    Ok(taken)
}

fn takes_list(
    alloc: Global,
    state: &mut InitState,
    tags: &Tags,
    count: u32,
) -> Result<bool, AllocError> {
    let piece = piece_named(alloc, "i=1")?;
    let taken = takes_all(alloc, state, &piece, tags, count);
    drop(piece);
    Ok(taken)
}

// The members in order, each by its name.
fn takes_names(
    alloc: Global,
    state: &mut InitState,
    tags: &Tags,
    count: u32,
) -> Result<bool, AllocError> {
    for number in 0..count {
        let word = format!(in alloc; ".m{number}")?;
        if !takes(alloc, state, word.as_str(), tags)? {
            return Ok(false);
        }
        if !takes(alloc, state, "i=1", tags)? {
            return Ok(false);
        }
    }
    Ok(true)
}

fn takes_some(
    alloc: Global,
    state: &mut InitState,
    tags: &Tags,
    count: u32,
    named: bool,
) -> Result<bool, AllocError> {
    if named {
        return takes_names(alloc, state, tags, count);
    }
    takes_list(alloc, state, tags, count)
}

fn listed(
    alloc: Global,
    state: &mut InitState,
    tags: &Tags,
    count: u32,
    named: bool,
) -> Result<bool, AllocError> {
    let opened = takes(alloc, state, "{", tags)?;
    let taken = takes_some(alloc, state, tags, count, named)?;
    let more = takes(alloc, state, "i=1", tags)?;
    let closed = takes(alloc, state, "}", tags)?;
    Ok(opened && taken && closed && !more)
}

fn shown(
    alloc: Global,
    state: &mut InitState,
    tags: &Tags,
    count: u32,
    named: bool,
) -> Result<String, AllocError> {
    let fits = listed(alloc, state, tags, count, named)?;
    let ty = completed(alloc, state)?;
    let text = print(alloc, &ty, plain(), "", tags);
    drop(ty);
    let text = text?;
    let ty = text.as_str();
    if fits {
        return format!(in alloc; " {ty}, and no more");
    }
    format!(in alloc; " {ty}")
}

/// An array of unknown size with so many elements and one more.
pub fn element_list(alloc: Global, tags: &Tags, count: u32) -> Result<String, AllocError> {
    let ty = type_named(alloc, "i_")?;
    let mut state = started(alloc, ty, true);
    shown(alloc, &mut state, tags, count, false)
}

fn member(alloc: Global, number: u32) -> Result<Member, AllocError> {
    let name = format!(in alloc; "m{number}")?;
    let name = Name::from_str(alloc, name.as_str())?;
    Ok(Member {
        name: Some(name),
        ty: type_named(alloc, "i")?,
        qual: plain(),
        width: None,
        align: None,
        value: None,
        at: None,
    })
}

fn members(alloc: Global, count: u32) -> Result<Vec<Member>, AllocError> {
    let mut members = Vec::new(alloc);
    for number in 0..count {
        let member = member(alloc, number)?;
        members.push(member)?;
    }
    Ok(members)
}

fn insert_members(alloc: Global, tags: &mut Tags, count: u32) -> Result<(), AllocError> {
    let id = tag(alloc, b'S')?;
    let members = members(alloc, count)?;
    let info = info(alloc, TagKind::Struct, "S", members)?;
    tags.insert(id, info)
}

fn structure(alloc: Global, tags: &Tags, count: u32, named: bool) -> Result<String, AllocError> {
    let ty = type_named(alloc, "S")?;
    let mut state = started(alloc, ty, true);
    shown(alloc, &mut state, tags, count, named)
}

/// A structure of so many members, and one initializer more; the members by their names, or in turn.
pub fn member_list(alloc: Global, count: u32, named: bool) -> Result<String, AllocError> {
    let mut tags = Tags::new(alloc);
    insert_members(alloc, &mut tags, count)?;
    structure(alloc, &tags, count, named)
}
