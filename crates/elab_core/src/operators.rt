// The construct that an operator token stands for (ISO C11 6.5.2 to 6.5.17), by its spelling.
ghost use Rattle.std.specs.Prelude.{◌≡◌, bytes_eq, option_map};
ghost use Rattle.std.specs.List.{find};
ghost use Rattle.elab_core.specs.Accesses;
ghost use Rattle.elab_core.specs.Operators as spec;
ghost use Rattle.elab_core.specs.Tags;

use c_literals::Op;
use expr_rules::Form;
use type_data::TagKind;

static BINARY: [(&str, Op); 18] = [
    ("+", Op::Add),
    ("-", Op::Sub),
    ("*", Op::Mul),
    ("/", Op::Div),
    ("%", Op::Rem),
    ("==", Op::Eq),
    ("!=", Op::Ne),
    ("<", Op::Lt),
    (">", Op::Gt),
    ("<=", Op::Le),
    (">=", Op::Ge),
    ("&&", Op::LogAnd),
    ("||", Op::LogOr),
    ("&", Op::BitAnd),
    ("|", Op::BitOr),
    ("^", Op::BitXor),
    ("<<", Op::Shl),
    (">>", Op::Shr),
];

static ASSIGNMENT: [(&str, Op); 10] = [
    ("+=", Op::Add),
    ("-=", Op::Sub),
    ("*=", Op::Mul),
    ("/=", Op::Div),
    ("%=", Op::Rem),
    ("&=", Op::BitAnd),
    ("|=", Op::BitOr),
    ("^=", Op::BitXor),
    ("<<=", Op::Shl),
    (">>=", Op::Shr),
];

static UNARY: [(&str, Op); 4] = [
    ("+", Op::Plus),
    ("-", Op::Minus),
    ("~", Op::BitNot),
    ("!", Op::LogNot),
];

fn look_up(text: &str, table: &[(&str, Op)]) -> Option<Op>
    ensures { result ≡ option_map (λ e. e.1) (find (λ e. bytes_eq e.0.now text.now) table.now) }
{
    table.iter().find(|e| e.0 == text).map(|e| e.1)
}

fn binary_operator(text: &str) -> Option<Op>
    ensures { result ≡ spec.binary_operator text.now }
{
    look_up(text, BINARY.as_slice())
}

fn assignment_operator(text: &str) -> Option<Op>
    ensures { result ≡ spec.assignment_operator text.now }
{
    look_up(text, ASSIGNMENT.as_slice())
}

fn unary_operator(text: &str) -> Option<Op>
    ensures { result ≡ spec.unary_operator text.now }
{
    look_up(text, UNARY.as_slice())
}

/// What an operator between two operands stands for.
pub fn binary_form(text: &str) -> Form
    ensures { result ≡ spec.binary_form text.now }
{
    match binary_operator(text) {
        Some(op) => Form::Binary(op),
        None => Form::Comma,
    }
}

/// What an operator of assignment stands for.
pub fn assign_form(text: &str) -> Form
    ensures { result ≡ spec.assign_form text.now }
{
    match assignment_operator(text) {
        Some(op) => Form::AssignOp(op),
        None => Form::Assign,
    }
}

/// What `++` or `--` behind an operand stands for.
#[tactic(auto, unfolding(crate::specs::Operators::step_form))]
pub fn step_form(text: &str) -> Form
    ensures { result ≡ spec.step_form text.now }
{
    if text == "++" {
        return Form::PostInc;
    }
    Form::PostDec
}

#[tactic(auto, unfolding(crate::specs::Operators::place_form))]
fn place_form(text: &str) -> Form
    ensures { result ≡ spec.place_form text.now }
{
    if text == "&" {
        return Form::AddressOf;
    }
    if text == "*" {
        return Form::Deref;
    }
    if text == "++" {
        return Form::PreInc;
    }
    if text == "--" {
        return Form::PreDec;
    }
    Form::SizeOf(None)
}

/// What an operator in front of an operand stands for.
pub fn prefix_form(text: &str) -> Form
    ensures { result ≡ spec.prefix_form text.now }
{
    match unary_operator(text) {
        Some(op) => Form::Unary(op),
        None => place_form(text),
    }
}

/// Whether it is `sizeof`.
#[tactic(auto, unfolding(crate::specs::Operators::is_size))]
pub fn is_size(text: &str) -> bool
    ensures { result ≡ spec.is_size text.now }
{
    text == "sizeof"
}

/// Whether it is `_Alignof`.
#[tactic(auto, unfolding(crate::specs::Operators::is_alignment))]
pub fn is_alignment(text: &str) -> bool
    ensures { result ≡ spec.is_alignment text.now }
{
    text == "_Alignof"
}

#[tactic(auto, unfolding(crate::specs::Accesses::is_dot))]
pub(crate) fn is_dot(text: &str) -> bool
    ensures { result ≡ Accesses.is_dot text.now }
{
    text == "."
}

#[tactic(auto, unfolding(crate::specs::Tags::keyword_kind))]
pub(crate) fn keyword_kind(text: &str) -> TagKind
    ensures { result ≡ Tags.keyword_kind text.now }
{
    if text == "struct" {
        return TagKind::Struct;
    }
    if text == "union" {
        return TagKind::Union;
    }
    TagKind::Enum
}
