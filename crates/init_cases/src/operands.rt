// Expressions: a type, behind `@` its place (`o` an object, `f` a function, else a value), and behind `=` its constant: a number, `?` an
// integer that isn't told, `!` one out of range, `arith`, `addr` or `null`.
use crate::types::{plain, type_named};
use std::alloc::{AllocError, Global};
use type_data::{Constancy, Judged, Place, Value};

fn place_named(word: &str) -> Place {
    match word.as_bytes().first() {
        Some(b'o') => Place::Object,
        Some(b'f') => Place::Function,
        _ => Place::Value,
    }
}

fn constant_named(word: &str) -> Constancy {
    match word {
        "" => Constancy::No,
        "?" => Constancy::Int(Value::Unknown),
        "!" => Constancy::Int(Value::Faulty(531)),
        "arith" => Constancy::Arith,
        "addr" => Constancy::Addr,
        "null" => Constancy::Null,
        _ => match word.parse::<i128>() {
            Ok(number) => Constancy::Int(Value::Known(number)),
            Err(_) => Constancy::No,
        },
    }
}

/// The expression that a word stands for.
pub fn part_named(alloc: Global, word: &str) -> Result<Judged, AllocError> {
    let (front, constant) = match word.split_once('=') {
        Some(pair) => pair,
        None => (word, ""),
    };
    let (ty, place) = match front.split_once('@') {
        Some(pair) => pair,
        None => (front, ""),
    };
    Ok(Judged {
        ty: type_named(alloc, ty)?,
        qual: plain(),
        place: place_named(place),
        constant: constant_named(constant),
    })
}
