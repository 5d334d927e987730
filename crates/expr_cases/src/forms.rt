// Constructs, by their words.
use crate::types::{plain, type_named};
use crate::words::{assigned_named, binary_named, life_named, scope_named, unary_named};
use c_literals::{Literal, StrValue};
use expr_rules::{Association, Designator, Form};
use scope_tables::{Anchor, Entity, EntityKind, Linkage};
use shared_list::Listing;
use shared_text::Name;
use std::alloc::{AllocError, Global};
use type_data::{Basic, CType, IntTy, Value};

/// The words of a construct behind its first one.
#[derive(Clone, Copy)]
struct Words<'a> {
    first: &'a str,
    second: &'a str,
    third: &'a str,
    fourth: &'a str,
}

// What the name denotes, of this kind and of the type that a word stands for.
fn entity(
    alloc: Global,
    words: &Words<'_>,
    kind: EntityKind,
    ty: &str,
    value: Option<Value>,
) -> Result<Entity, AllocError> {
    let name = Name::from_str(alloc, words.first)?;
    let shared = name.share()?;
    let ty = type_named(alloc, ty)?;
    Ok(Entity {
        name,
        kind,
        ty,
        qual: plain(),
        linkage: Linkage::None,
        life: life_named(words.fourth),
        value,
        anchor: Anchor::External(shared),
    })
}

fn value_of(word: &str) -> Option<Value> {
    match word.parse::<i128>() {
        Ok(number) => Some(Value::Known(number)),
        Err(_) => None,
    }
}

fn denoted(alloc: Global, words: &Words<'_>) -> Result<Option<Entity>, AllocError> {
    let entity = match words.second {
        "object" => entity(alloc, words, EntityKind::Object, words.third, None)?,
        "function" => entity(alloc, words, EntityKind::Function, words.third, None)?,
        "typedef" => entity(alloc, words, EntityKind::Typedef, words.third, None)?,
        "enumerator" => {
            let value = value_of(words.third);
            entity(alloc, words, EntityKind::Enumerator, "i", value)?
        }
        _ => return Ok(None),
    };
    Ok(Some(entity))
}

// `ident NAME`, and behind it `object TYPE LIFE`, `function TYPE`, `enumerator NUMBER` or `typedef TYPE`.
fn identifier(alloc: Global, words: &Words<'_>) -> Result<Form, AllocError> {
    let name = Name::from_str(alloc, words.first)?;
    let denoted = denoted(alloc, words)?;
    Ok(Form::Ident(name, denoted))
}

// `constant int NUMBER`, `long NUMBER`, `double`, `float` or `bad RULE`.
fn literal(words: &Words<'_>) -> Literal {
    let number = words.second.parse::<i128>().unwrap_or(0);
    match words.first {
        "int" => Literal::Int(IntTy::Int, number),
        "long" => Literal::Int(IntTy::Long, number),
        "double" => Literal::Floating(Basic::Double),
        "float" => Literal::Floating(Basic::Float),
        _ => Literal::Bad(words.second.parse::<u16>().unwrap_or(0)),
    }
}

// `text PREFIX COUNT`: so many units.
fn text(alloc: Global, words: &Words<'_>) -> Result<Form, AllocError> {
    let prefix = words.first.parse::<u8>().unwrap_or(0);
    let count = words.second.parse::<u32>().unwrap_or(0);
    let mut units = Vec::new(alloc);
    for _ in 0..count {
        units.push(97u32)?;
    }
    let units = Listing::from_vec(units);
    Ok(Form::Text(StrValue { prefix, units }))
}

// `default`, a type, or `const:` and a type.
fn association(alloc: Global, word: &str) -> Result<Association, AllocError> {
    if word == "default" {
        return Ok(Association::Default);
    }
    let mut qual = plain();
    let ty = match word.strip_prefix("const:") {
        Some(ty) => {
            qual.is_const = true;
            type_named(alloc, ty)?
        }
        None => type_named(alloc, word)?,
    };
    Ok(Association::Typed(ty, qual))
}

fn generic(alloc: Global, line: &str) -> Result<Form, AllocError> {
    let mut associations = Vec::new(alloc);
    for word in line.split_ascii_whitespace().skip(1) {
        let association = association(alloc, word)?;
        associations.push(association)?;
    }
    Ok(Form::Generic(Listing::from_vec(associations)))
}

// `.NAME`, or the number of an index.
fn designator(alloc: Global, word: &str) -> Result<Designator, AllocError> {
    if let Some(name) = word.strip_prefix(".") {
        return Ok(Designator::Field(Name::from_str(alloc, name)?));
    }
    match word.parse::<i128>() {
        Ok(number) => Ok(Designator::Index(Value::Known(number))),
        Err(_) => Ok(Designator::Index(Value::Unknown)),
    }
}

fn offset_of(alloc: Global, line: &str, ty: &str) -> Result<Form, AllocError> {
    let mut designators = Vec::new(alloc);
    for word in line.split_ascii_whitespace().skip(2) {
        let designator = designator(alloc, word)?;
        designators.push(designator)?;
    }
    let ty = type_named(alloc, ty)?;
    Ok(Form::OffsetOf(ty, Listing::from_vec(designators)))
}

fn plain_named(word: &str) -> Option<Form> {
    match word {
        "paren" => Some(Form::Paren),
        "index" => Some(Form::Index),
        "call" => Some(Form::Call),
        "++x" => Some(Form::PreInc),
        "--x" => Some(Form::PreDec),
        "x++" => Some(Form::PostInc),
        "x--" => Some(Form::PostDec),
        "address" => Some(Form::AddressOf),
        "deref" => Some(Form::Deref),
        "sizeof" => Some(Form::SizeOf(None)),
        "?:" => Some(Form::Conditional),
        "=" => Some(Form::Assign),
        "," => Some(Form::Comma),
        _ => None,
    }
}

fn operator_named(word: &str) -> Option<Form> {
    if let Some(op) = unary_named(word) {
        return Some(Form::Unary(op));
    }
    if let Some(op) = binary_named(word) {
        return Some(Form::Binary(op));
    }
    let op = assigned_named(word)?;
    Some(Form::AssignOp(op))
}

fn with_words(
    alloc: Global,
    line: &str,
    word: &str,
    words: &Words<'_>,
) -> Result<Option<Form>, AllocError> {
    let form = match word {
        "ident" => identifier(alloc, words)?,
        "constant" => Form::Constant(literal(words)),
        "text" => text(alloc, words)?,
        "badtext" => Form::BadText(words.first.parse::<u16>().unwrap_or(0)),
        "generic" => generic(alloc, line)?,
        "." => Form::Dot(Name::from_str(alloc, words.first)?),
        "->" => Form::Arrow(Name::from_str(alloc, words.first)?),
        "compound" => {
            let ty = type_named(alloc, words.first)?;
            Form::Compound(ty, plain(), scope_named(words.second))
        }
        "sizeoftype" => Form::SizeOf(Some(type_named(alloc, words.first)?)),
        "alignof" => Form::AlignOf(type_named(alloc, words.first)?),
        "offsetof" => offset_of(alloc, line, words.first)?,
        "cast" => Form::Cast(type_named(alloc, words.first)?, plain()),
        _ => return Ok(None),
    };
    Ok(Some(form))
}

/// The construct that the words in front of the first `|` stand for.
pub fn form_named(alloc: Global, line: &str) -> Result<Option<Form>, AllocError> {
    let mut words = line.split_ascii_whitespace();
    let word = words.next().unwrap_or("");
    if let Some(form) = plain_named(word) {
        return Ok(Some(form));
    }
    if let Some(form) = operator_named(word) {
        return Ok(Some(form));
    }
    let words = Words {
        first: words.next().unwrap_or(""),
        second: words.next().unwrap_or(""),
        third: words.next().unwrap_or(""),
        fourth: words.next().unwrap_or(""),
    };
    with_words(alloc, line, word, &words)
}
