// What a statement begins with (ISO C11 6.8).
ghost use Rattle.std.specs.Prelude.{◌≡◌, ◌≤◌};
ghost use Rattle.stmt_parser.specs.Fronts as spec;
ghost use Rattle.stmt_parser.specs.Fronts.{IsFront};
ghost use Rattle.stmt_parser.specs.Reading as reading;

use c_parser::{Kind, Scope};

// A keyword, or what stands in its place.
#[derive(Clone, Copy, Drop)]
pub(crate) enum Front {
    Label,
    Case,
    Default,
    If,
    Switch,
    While,
    For,
    Do,
    Block,
    Goto,
    Continue,
    Break,
    Return,
    // Anything else: if a statement stands there, an expression statement.
    Plain,
}

fn is_colon(kind: Kind) -> bool
    ensures { result ≡ spec.is_colon kind }
{
    matches!(kind, Kind::Colon)
}

// Whether such a token stands behind an expression.
pub(crate) fn ends_expression(kind: Kind) -> bool
    ensures { result ≡ reading.ends_expression kind }
{
    matches!(kind, Kind::Semicolon | Kind::CloseParen | Kind::Colon)
}

// Whether a label stands here.
#[tactic(auto, unfolding(crate::specs::Fronts::labels_at))]
fn labels_at(scope: &Scope<'_>, at: u32) -> bool
    requires { at ≤ 2000000 }
    ensures { result ≡ spec.labels_at scope.now at }
{
    scope.kind_at(at).is_word() && is_colon(scope.kind_at(at + 1))
}

// What a statement begins with, if one stands here.
pub(crate) fn front_at(scope: &Scope<'_>, at: u32) -> Front
    requires { at ≤ 2000000 }
    ensures { IsFront scope.now at result }
{
    if labels_at(scope, at) {
        return Front::Label;
    }
    match scope.kind_at(at) {
        Kind::Case => Front::Case,
        Kind::Default => Front::Default,
        Kind::If => Front::If,
        Kind::Switch => Front::Switch,
        Kind::While => Front::While,
        Kind::For => Front::For,
        Kind::Do => Front::Do,
        Kind::OpenBrace => Front::Block,
        Kind::Goto => Front::Goto,
        Kind::Continue => Front::Continue,
        Kind::Break => Front::Break,
        Kind::Return => Front::Return,
        _ => Front::Plain,
    }
}

// Whether a declaration begins here, and no label (6.8.1, 6.8.2).
#[tactic(auto, unfolding(crate::specs::Fronts::declares_at))]
pub(crate) fn declares_at(scope: &Scope<'_>, at: u32) -> bool
    requires { at ≤ 2000000 }
    ensures { result ≡ spec.declares_at scope.now at }
{
    scope.kind_at(at).starts_declaration() && !labels_at(scope, at)
}
