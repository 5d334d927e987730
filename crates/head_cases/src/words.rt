// What the words of a line stand for.
use crate::notation::{plain, token, type_named};
use head_rules::{Constant, FieldParts, NameToken};
use shared_text::Name;
use std::alloc::{AllocError, Global};
use tok_data::{FileId, TokId};
use type_data::{TagKind, Value};

/// A value: a number, or one that isn't told.
pub fn value_named(word: &str) -> Value {
    match word.parse::<i128>() {
        Ok(number) => Value::Known(number),
        Err(_) => Value::Unknown,
    }
}

/// The value of an expression; none for `x`, which has a fault.
pub fn needed(word: &str) -> Option<Value> {
    if word == "x" {
        return None;
    }
    Some(value_named(word))
}

/// An integer constant expression that may be left out.
pub fn constant_named(word: Option<&str>) -> Constant {
    match word {
        None => Constant::Absent,
        Some(word) => match needed(word) {
            None => Constant::Faulty,
            Some(value) => Constant::Is(value),
        },
    }
}

pub fn kind_named(word: &str) -> TagKind {
    match word {
        "struct" => TagKind::Struct,
        "union" => TagKind::Union,
        _ => TagKind::Enum,
    }
}

/// A name, whose token has this number.
pub fn name_token(alloc: Global, word: &str, at: u32) -> Result<NameToken, AllocError> {
    let name = Name::from_str(alloc, word)?;
    let id = token(alloc, at)?;
    let file = Name::from_str(alloc, "#0")?;
    let file = FileId::from_name(file);
    Ok(NameToken {
        name,
        id,
        tok: TokId { file, at },
    })
}

// What stands before a mark, and what behind it.
fn cut<'a>(word: &'a str, mark: &str) -> (&'a str, Option<&'a str>) {
    match word.split_once(mark) {
        Some((front, behind)) => (front, Some(behind)),
        None => (word, None),
    }
}

fn named(alloc: Global, word: &str, at: u32) -> Result<Option<NameToken>, AllocError> {
    if word == "-" {
        return Ok(None);
    }
    let name = name_token(alloc, word, at)?;
    Ok(Some(name))
}

/// A member: its name (`-` for none), `/`, its type, `:` and its width, `@` and its alignment, `!` where its type ends in an array of
/// no size.
pub fn field_named(alloc: Global, word: &str, at: u32) -> Result<FieldParts, AllocError> {
    let (word, flexible) = cut(word, "!");
    let (word, align) = cut(word, "@");
    let (word, width) = cut(word, ":");
    let (name, ty) = cut(word, "/");
    let name = named(alloc, name, at)?;
    let ty = type_named(alloc, ty.unwrap_or(""))?;
    Ok(FieldParts {
        name,
        at,
        ty,
        qual: plain(),
        width: constant_named(width),
        align: align.map(value_named),
        align_at: at.wrapping_add(100),
        flexible: flexible.is_some(),
    })
}
