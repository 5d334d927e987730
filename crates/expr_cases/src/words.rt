// What single words stand for.
use c_literals::Op;
use scope_tables::{Life, ScopeKind};

pub fn life_named(word: &str) -> Life {
    match word {
        "static" => Life::Static,
        "thread" => Life::Thread,
        "register" => Life::Register,
        "automatic" => Life::Automatic,
        _ => Life::Without,
    }
}

pub fn scope_named(word: &str) -> ScopeKind {
    match word {
        "file" => ScopeKind::File,
        "prototype" => ScopeKind::Prototype,
        _ => ScopeKind::Block,
    }
}

fn arithmetic_named(word: &str) -> Option<Op> {
    match word {
        "*" => Some(Op::Mul),
        "/" => Some(Op::Div),
        "%" => Some(Op::Rem),
        "+" => Some(Op::Add),
        "-" => Some(Op::Sub),
        "<<" => Some(Op::Shl),
        ">>" => Some(Op::Shr),
        "&" => Some(Op::BitAnd),
        "^" => Some(Op::BitXor),
        "or" => Some(Op::BitOr),
        _ => None,
    }
}

/// A binary operator; `or` and `oror` stand for `|` and `||`.
pub fn binary_named(word: &str) -> Option<Op> {
    match word {
        "<" => Some(Op::Lt),
        ">" => Some(Op::Gt),
        "<=" => Some(Op::Le),
        ">=" => Some(Op::Ge),
        "==" => Some(Op::Eq),
        "!=" => Some(Op::Ne),
        "&&" => Some(Op::LogAnd),
        "oror" => Some(Op::LogOr),
        _ => arithmetic_named(word),
    }
}

/// The operator in front of the `=` of a compound assignment.
pub fn assigned_named(word: &str) -> Option<Op> {
    arithmetic_named(word.strip_suffix("=")?)
}

pub fn unary_named(word: &str) -> Option<Op> {
    match word {
        "plus" => Some(Op::Plus),
        "minus" => Some(Op::Minus),
        "~" => Some(Op::BitNot),
        "!" => Some(Op::LogNot),
        _ => None,
    }
}
