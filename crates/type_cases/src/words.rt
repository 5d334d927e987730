// What the words of a line stand for.
use type_data::{Basic, Constancy, Extent, Proto, Qual, Value};

static BASICS: [(&str, Basic); 15] = [
    ("Bool", Basic::Bool),
    ("Char", Basic::Char),
    ("SChar", Basic::SChar),
    ("UChar", Basic::UChar),
    ("Short", Basic::Short),
    ("UShort", Basic::UShort),
    ("Int", Basic::Int),
    ("UInt", Basic::UInt),
    ("Long", Basic::Long),
    ("ULong", Basic::ULong),
    ("LongLong", Basic::LongLong),
    ("ULongLong", Basic::ULongLong),
    ("Float", Basic::Float),
    ("Double", Basic::Double),
    ("LongDouble", Basic::LongDouble),
];

pub fn basic_named(word: &str) -> Option<Basic> {
    for (name, basic) in BASICS.as_slice() {
        if *name == word {
            return Some(*basic);
        }
    }
    None
}

/// Qualifiers by their first letters.
pub fn qual_named(letters: &str) -> Qual {
    Qual {
        is_const: letters.contains('c'),
        is_restrict: letters.contains('r'),
        is_volatile: letters.contains('v'),
    }
}

/// The size of an array: a number, `none` or `unknown`.
pub fn extent_named(word: &str) -> Option<Extent> {
    if word == "none" {
        return Some(Extent::None);
    }
    if word == "unknown" {
        return Some(Extent::Unknown);
    }
    match word.parse::<u64>() {
        Ok(size) => Some(Extent::Size(size)),
        Err(_) => None,
    }
}

pub fn proto_named(word: &str) -> Option<Proto> {
    if word == "Old" {
        return Some(Proto::Old);
    }
    if word == "Fixed" {
        return Some(Proto::Fixed);
    }
    if word == "Variadic" {
        return Some(Proto::Variadic);
    }
    None
}

/// A value: its number, `!` and a rule where it is Faulty, else it is Unknown.
fn value_named(word: &str) -> Value {
    if let Some(rule) = word.strip_prefix("!") {
        return match rule.parse::<u16>() {
            Ok(rule) => Value::Faulty(rule),
            Err(_) => Value::Unknown,
        };
    }
    match word.parse::<i128>() {
        Ok(number) => Value::Known(number),
        Err(_) => Value::Unknown,
    }
}

/// What kind of constant a value is.
pub fn constancy_named(word: &str) -> Constancy {
    if word == "Arith" {
        return Constancy::Arith;
    }
    if word == "Addr" {
        return Constancy::Addr;
    }
    if word == "Null" {
        return Constancy::Null;
    }
    match word.strip_prefix("Int:") {
        Some(value) => Constancy::Int(value_named(value)),
        None => Constancy::No,
    }
}
