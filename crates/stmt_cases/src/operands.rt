// Expressions: a type, behind `@` its place (`o` an object, `f` a function, a digit a bit-field of that width, else a value), and behind
// `=` its constant: a number, `?` an integer that isn't told, or `null`.
use crate::types::{plain, type_named};
use std::alloc::{AllocError, Global};
use type_data::{Constancy, Judged, Place, Value};

fn place_named(word: &str) -> Place {
    match word.as_bytes().first() {
        Some(b'o') => Place::Object,
        Some(b'f') => Place::Function,
        _ => match word.parse::<u8>() {
            Ok(width) => Place::BitField(width),
            Err(_) => Place::Value,
        },
    }
}

/// The value that a word stands for; `!` is one that is faulty.
pub fn value_named(word: &str) -> Value {
    match word.parse::<i128>() {
        Ok(number) => Value::Known(number),
        Err(_) => if word == "!" {
            Value::Faulty(531)
        } else {
            Value::Unknown
        },
    }
}

fn constant_named(word: &str) -> Constancy {
    match word {
        "" => Constancy::No,
        "null" => Constancy::Null,
        _ => Constancy::Int(value_named(word)),
    }
}

/// The expression that a word stands for.
pub fn part_named(alloc: Global, word: &str) -> Result<Judged, AllocError> {
    let (front, constant) = match word.split_once('=') {
        Some(pair) => pair,
        None => (word, ""),
    };
    let (ty, place) = match front.split_once('@') {
        Some(pair) => pair,
        None => (front, ""),
    };
    Ok(Judged {
        ty: type_named(alloc, ty)?,
        qual: plain(),
        place: place_named(place),
        constant: constant_named(constant),
    })
}
