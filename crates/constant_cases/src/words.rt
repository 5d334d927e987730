// What the words of a line stand for, and the words for types.
use c_literals::Op;
use type_data::{Basic, IntTy, Value};

static OPS: [(&str, Op); 22] = [
    ("Plus", Op::Plus),
    ("Minus", Op::Minus),
    ("BitNot", Op::BitNot),
    ("LogNot", Op::LogNot),
    ("Mul", Op::Mul),
    ("Div", Op::Div),
    ("Rem", Op::Rem),
    ("Add", Op::Add),
    ("Sub", Op::Sub),
    ("Shl", Op::Shl),
    ("Shr", Op::Shr),
    ("Lt", Op::Lt),
    ("Gt", Op::Gt),
    ("Le", Op::Le),
    ("Ge", Op::Ge),
    ("Eq", Op::Eq),
    ("Ne", Op::Ne),
    ("BitAnd", Op::BitAnd),
    ("BitXor", Op::BitXor),
    ("BitOr", Op::BitOr),
    ("LogAnd", Op::LogAnd),
    ("LogOr", Op::LogOr),
];

static TYPES: [(&str, IntTy); 12] = [
    ("Bool", IntTy::Bool),
    ("Char", IntTy::Char),
    ("SChar", IntTy::SChar),
    ("UChar", IntTy::UChar),
    ("Short", IntTy::Short),
    ("UShort", IntTy::UShort),
    ("Int", IntTy::Int),
    ("UInt", IntTy::UInt),
    ("Long", IntTy::Long),
    ("ULong", IntTy::ULong),
    ("LongLong", IntTy::LongLong),
    ("ULongLong", IntTy::ULongLong),
];

static FLOATING_TYPES: [(&str, Basic); 3] = [
    ("Float", Basic::Float),
    ("Double", Basic::Double),
    ("LongDouble", Basic::LongDouble),
];

pub fn op_named(word: &str) -> Option<Op> {
    for (name, op) in OPS.as_slice() {
        if *name == word {
            return Some(*op);
        }
    }
    None
}

pub fn type_named(word: &str) -> Option<IntTy> {
    for (name, ty) in TYPES.as_slice() {
        if *name == word {
            return Some(*ty);
        }
    }
    None
}

pub fn type_name(ty: IntTy) -> &'static str {
    for (name, named) in TYPES.as_slice() {
        if *named == ty {
            return name;
        }
    }
    "no integer type"
}

pub fn floating_name(ty: Basic) -> &'static str {
    for (name, named) in FLOATING_TYPES.as_slice() {
        if *named == ty {
            return name;
        }
    }
    "no floating type"
}

pub fn value_read(word: &str) -> Option<Value> {
    if word == "?" || word == "-" {
        return Some(Value::Unknown);
    }
    if let Some(rule) = word.strip_prefix("!") {
        return match rule.parse::<u16>() {
            Ok(rule) => Some(Value::Faulty(rule)),
            Err(_) => None,
        };
    }
    match word.parse::<i128>() {
        Ok(number) => Some(Value::Known(number)),
        Err(_) => None,
    }
}
