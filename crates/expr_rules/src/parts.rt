// What a row of the operators reads, and what it answers (ISO C11 6.5).
use c_literals::{Literal, Op, StrValue};
use scope_tables::{Entity, ScopeKind};
use shared_list::Listing;
use shared_text::Name;
use type_data::{CType, Qual, Value};

/// A construct of an expression, with the number of the token on which its fault falls.
#[derive(Drop)]
pub struct Operator {
    pub at: u32,
    pub form: Form,
}

/// A step of a member-designator of `__offsetof`, or of a designation (6.7.9).
#[derive(Drop)]
pub enum Designator {
    Field(Name),
    /// The value of the integer constant expression in its brackets.
    Index(Value),
}

/// An association of a generic selection (6.5.1.1): a type with its own qualifiers, or `default`.
#[derive(Drop)]
pub enum Association {
    Typed(CType, Qual),
    Default,
}

/// What a construct is, and what it says beside its operands. The operands are its parts, in source order.
#[derive(Drop)]
pub enum Form {
    /// An identifier, and what it denotes where it is declared (6.5.1).
    Ident(Name, Option<Entity>),
    Constant(Literal),
    Text(StrValue),
    /// String pieces that are no string literal: the number of the rule that they break.
    BadText(u16),
    Paren,
    /// A generic selection. The parts are the controlling expression and those of the associations.
    Generic(Listing<Association>),
    Index,
    /// A call. The parts are what is called and the arguments.
    Call,
    Dot(Name),
    Arrow(Name),
    PreInc,
    PreDec,
    PostInc,
    PostDec,
    /// A compound literal (6.5.2.5): its type after its initializer, and the scope in which it stands.
    Compound(CType, Qual, ScopeKind),
    AddressOf,
    Deref,
    /// `+`, `-`, `~` or `!`.
    Unary(Op),
    /// `sizeof` of a type, or of a part.
    SizeOf(Option<CType>),
    AlignOf(CType),
    OffsetOf(CType, Listing<Designator>),
    Cast(CType, Qual),
    /// An operator from `*` to `||`.
    Binary(Op),
    Conditional,
    Assign,
    /// `op=` (6.5.16.2), by its operator, from `*` to `|`.
    AssignOp(Op),
    Comma,
}
