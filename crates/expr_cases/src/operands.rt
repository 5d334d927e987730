// Judged parts. The place is `o` an object, `r` a register, `f` a function, or a digit for a bit-field of that width, with `k` behind
// it for const; without one it is a value. The constant is a number, `?` an integer that isn't told, `!` one out of range, `arith`,
// `addr` or `null`.
use crate::types::{plain, type_named};
use std::alloc::{AllocError, Global};
use type_data::{Constancy, Judged, Place, Qual, Tags, Value};
use type_print::print;

fn place_named(word: &str) -> Place {
    match word.as_bytes().first() {
        Some(b'o') => Place::Object,
        Some(b'r') => Place::Register,
        Some(b'f') => Place::Function,
        Some(b'1') => Place::BitField(1),
        Some(b'2') => Place::BitField(2),
        Some(b'7') => Place::BitField(7),
        _ => Place::Value,
    }
}

fn qual_named(word: &str) -> Qual {
    let mut qual = plain();
    if let Some(b'k') = word.as_bytes().last() {
        qual.is_const = true;
    }
    qual
}

fn constant_named(word: &str) -> Constancy {
    match word {
        "" => Constancy::No,
        "?" => Constancy::Int(Value::Unknown),
        "!" => Constancy::Int(Value::Faulty(531)),
        "arith" => Constancy::Arith,
        "addr" => Constancy::Addr,
        "null" => Constancy::Null,
        _ => match word.parse::<i128>() {
            Ok(number) => Constancy::Int(Value::Known(number)),
            Err(_) => Constancy::No,
        },
    }
}

/// The part that a word stands for.
pub fn part_named(alloc: Global, word: &str) -> Result<Judged, AllocError> {
    let (front, constant) = match word.split_once('=') {
        Some(pair) => pair,
        None => (word, ""),
    };
    let (ty, place) = match front.split_once('@') {
        Some(pair) => pair,
        None => (front, ""),
    };
    Ok(Judged {
        ty: type_named(alloc, ty)?,
        qual: qual_named(place),
        place: place_named(place),
        constant: constant_named(constant),
    })
}

fn place_shown(alloc: Global, place: Place) -> Result<String, AllocError> {
    match place {
        Place::Value => String::from_str(alloc, "value"),
        Place::Object => String::from_str(alloc, "object"),
        Place::BitField(width) => format!(in alloc; "bit-field {width}"),
        Place::Register => String::from_str(alloc, "register"),
        Place::Function => String::from_str(alloc, "function"),
    }
}

fn constant_shown(alloc: Global, constant: Constancy) -> Result<String, AllocError> {
    match constant {
        Constancy::No => String::from_str(alloc, ""),
        Constancy::Int(Value::Known(number)) => format!(in alloc; ", {number}"),
        Constancy::Int(Value::Unknown) => String::from_str(alloc, ", untold"),
        Constancy::Int(Value::Faulty(rule)) => format!(in alloc; ", fault {rule}"),
        Constancy::Arith => String::from_str(alloc, ", arithmetic"),
        Constancy::Addr => String::from_str(alloc, ", address"),
        Constancy::Null => String::from_str(alloc, ", null"),
    }
}

/// A judged construct: its type with its qualifiers, its place and what kind of constant it is.
pub fn shown_part(alloc: Global, tags: &Tags, part: &Judged) -> Result<String, AllocError> {
    let ty = print(alloc, &part.ty, part.qual, "", tags)?;
    let ty = ty.as_str();
    let place = place_shown(alloc, part.place)?;
    let place = place.as_str();
    let constant = constant_shown(alloc, part.constant)?;
    let constant = constant.as_str();
    format!(in alloc; "{ty}, {place}{constant}")
}
