// The punctuators of constant expressions (ISO C11 6.4.6, 6.6).
ghost use Rattle.std.specs.Prelude.{◌≡◌, ◌≤◌, bytes_eq, option_map};
ghost use Rattle.std.specs.List.{find};
ghost use Rattle.pp_cond.specs.Marks as spec;

use c_literals::Op;

#[derive(Clone, Copy, Debug, Drop)]
pub(crate) enum Mark {
    Plus,
    Minus,
    Tilde,
    Not,
    Star,
    Slash,
    Percent,
    ShiftLeft,
    ShiftRight,
    Less,
    Greater,
    LessEqual,
    GreaterEqual,
    Equal,
    NotEqual,
    And,
    Caret,
    Or,
    AndAnd,
    OrOr,
    Question,
    Colon,
    Comma,
    OpenParen,
    CloseParen,
    // None of them.
    Other,
}

static MARKS: [(&str, Mark); 25] = [
    ("+", Mark::Plus),
    ("-", Mark::Minus),
    ("~", Mark::Tilde),
    ("!", Mark::Not),
    ("*", Mark::Star),
    ("/", Mark::Slash),
    ("%", Mark::Percent),
    ("<<", Mark::ShiftLeft),
    (">>", Mark::ShiftRight),
    ("<", Mark::Less),
    (">", Mark::Greater),
    ("<=", Mark::LessEqual),
    (">=", Mark::GreaterEqual),
    ("==", Mark::Equal),
    ("!=", Mark::NotEqual),
    ("&", Mark::And),
    ("^", Mark::Caret),
    ("|", Mark::Or),
    ("&&", Mark::AndAnd),
    ("||", Mark::OrOr),
    ("?", Mark::Question),
    (":", Mark::Colon),
    (",", Mark::Comma),
    ("(", Mark::OpenParen),
    (")", Mark::CloseParen),
];

fn look_up(text: &str, table: &[(&str, Mark)]) -> Option<Mark>
    ensures { result ≡ option_map (λ e. e.1) (find (λ e. bytes_eq e.0.now text.now) table.now) }
{
    table.iter().find(|e| e.0 == text).map(|e| e.1)
}

pub(crate) fn mark_of(text: &str) -> Mark
    ensures { result ≡ spec.mark_of text.now }
{
    match look_up(text, MARKS.as_slice()) {
        Some(mark) => mark,
        None => Mark::Other,
    }
}

impl Mark {
    // The level of precedence of a binary operator, from 2 for `||` to 11 for `*`; 0 for what is none.
    pub(crate) fn level(self) -> u8
        ensures { result ≡ spec.level_of self }
    {
        match self {
            Mark::Star | Mark::Slash | Mark::Percent => 11,
            Mark::Plus | Mark::Minus => 10,
            Mark::ShiftLeft | Mark::ShiftRight => 9,
            Mark::Less | Mark::Greater | Mark::LessEqual | Mark::GreaterEqual => 8,
            Mark::Equal | Mark::NotEqual => 7,
            Mark::And => 6,
            Mark::Caret => 5,
            Mark::Or => 4,
            Mark::AndAnd => 3,
            Mark::OrOr => 2,
            _ => 0,
        }
    }

    // It is a unary operator.
    pub(crate) fn is_prefix(self) -> bool
        ensures { result ≡ spec.is_prefix self }
    {
        match self {
            Mark::Plus | Mark::Minus | Mark::Tilde | Mark::Not => true,
            _ => false,
        }
    }

    // The unary operator that it is.
    pub(crate) fn prefix_op(self) -> Op
        ensures { result ≡ spec.prefix_op self }
    {
        match self {
            Mark::Minus => Op::Minus,
            Mark::Tilde => Op::BitNot,
            Mark::Not => Op::LogNot,
            _ => Op::Plus,
        }
    }

    // The binary operator that it is.
    pub(crate) fn op(self) -> Op
        ensures { result ≡ spec.op_of self }
    {
        match self {
            Mark::Star => Op::Mul,
            Mark::Slash => Op::Div,
            Mark::Percent => Op::Rem,
            Mark::Plus => Op::Add,
            Mark::Minus => Op::Sub,
            Mark::ShiftLeft => Op::Shl,
            Mark::ShiftRight => Op::Shr,
            Mark::Less => Op::Lt,
            Mark::Greater => Op::Gt,
            Mark::LessEqual => Op::Le,
            Mark::GreaterEqual => Op::Ge,
            Mark::Equal => Op::Eq,
            Mark::NotEqual => Op::Ne,
            Mark::And => Op::BitAnd,
            Mark::Caret => Op::BitXor,
            Mark::Or => Op::BitOr,
            Mark::AndAnd => Op::LogAnd,
            _ => Op::LogOr,
        }
    }
}
