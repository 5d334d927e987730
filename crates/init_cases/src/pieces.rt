// Pieces of an initializer, by their words.
use crate::operands::part_named;
use crate::types::{plain, type_named};
use init_rules::InitPiece;
use shared_text::Name;
use std::alloc::{AllocError, Global};
use type_data::{Constancy, Judged, Place, Value};

fn value_named(word: &str) -> Value {
    if let Some(rule) = word.strip_prefix("!") {
        return Value::Faulty(rule.parse::<u16>().unwrap_or(0));
    }
    match word.parse::<i128>() {
        Ok(number) => Value::Known(number),
        Err(_) => Value::Unknown,
    }
}

fn text_named(alloc: Global, word: &str) -> Result<Judged, AllocError> {
    Ok(Judged {
        ty: type_named(alloc, word)?,
        qual: plain(),
        place: Place::Object,
        constant: Constancy::Addr,
    })
}

/// The piece that a word stands for.
pub fn piece_named(alloc: Global, word: &str) -> Result<InitPiece, AllocError> {
    if word == "{" {
        return Ok(InitPiece::Open);
    }
    if word == "}" {
        return Ok(InitPiece::Close);
    }
    if let Some(name) = word.strip_prefix(".") {
        let name = Name::from_str(alloc, name)?;
        return Ok(InitPiece::Field(name));
    }
    if let Some(value) = word.strip_prefix("[") {
        return Ok(InitPiece::Index(value_named(value.trim_end_matches(']'))));
    }
    if let Some(ty) = word.strip_prefix("\"") {
        let text = text_named(alloc, ty)?;
        return Ok(InitPiece::Text(text));
    }
    let part = part_named(alloc, word)?;
    Ok(InitPiece::Item(part))
}
