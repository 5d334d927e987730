// The kinds of tokens that the grammar of expressions tells apart (ISO C11 6.5).
ghost use Rattle.std.specs.Prelude.{◌≡◌, ◌<◌, ◌≤◌, ◌||◌, length};
ghost use Rattle.c_parser.specs.Enumerations as enumerations;
ghost use Rattle.c_parser.specs.Kinds as spec;
ghost use Rattle.c_parser.specs.Parts as parts;

use crate::scope::Kinds;

/// What a token is to the grammar. Operators that stand in the same places are one kind.
#[derive(Clone, Copy, Debug, PartialEq, Eq, Hash, Drop)]
pub enum Kind {
    /// An identifier that is neither a keyword nor a typedef name.
    Identifier,
    /// A typedef name in force, by its number.
    TypeName(u32),
    /// A keyword that is a type specifier by itself, as `int`.
    TypeWord,
    Qualifier,
    /// `_Atomic`.
    Atomic,
    /// A storage class but `typedef` and `static`, or a function specifier (6.7.1, 6.7.4).
    Storage,
    Typedef,
    Static,
    /// `struct` and `union`.
    Tag,
    Enum,
    /// `_Alignas`.
    Align,
    Constant,
    Text,
    OpenParen,
    CloseParen,
    OpenBracket,
    CloseBracket,
    OpenBrace,
    CloseBrace,
    /// `.`.
    Dot,
    /// `->`.
    Member,
    /// `++` and `--`.
    Step,
    Ampersand,
    Star,
    /// `+` and `-`.
    Sign,
    /// `~` and `!`.
    Complement,
    SizeOf,
    AlignOf,
    /// `/` and `%`.
    Quotient,
    Shift,
    Relation,
    Equality,
    Caret,
    Bar,
    And,
    Or,
    Question,
    Colon,
    /// An operator of assignment but `=`.
    Assignment,
    Equals,
    Comma,
    /// `_Generic`.
    Generic,
    /// `__offsetof`.
    OffsetOf,
    Default,
    /// `...`.
    Ellipsis,
    Semicolon,
    /// `_Static_assert`.
    Assert,
    If,
    Else,
    Switch,
    Case,
    While,
    Do,
    For,
    Goto,
    Continue,
    Break,
    Return,
    /// Of no use in an expression.
    Other,
    /// No token is left.
    End,
}

impl Kind {
    // The level of precedence at which an expression goes on with a token of this kind, or 0.
    pub fn level(self) -> u8
        ensures { result ≡ spec.level_of self }
    {
        match self {
            Kind::Comma => 1,
            Kind::Assignment | Kind::Equals => 2,
            Kind::Question => 3,
            Kind::Or => 4,
            Kind::And => 5,
            Kind::Bar => 6,
            Kind::Caret => 7,
            Kind::Ampersand => 8,
            Kind::Equality => 9,
            Kind::Relation => 10,
            Kind::Shift => 11,
            Kind::Sign => 12,
            Kind::Star | Kind::Quotient => 13,
            Kind::OpenBracket | Kind::OpenParen | Kind::Member | Kind::Dot | Kind::Step => 16,
            _ => 0,
        }
    }

    // Whether it is a unary operator in front of an operand (6.5.3).
    pub fn is_prefix(self) -> bool
        ensures { result ≡ spec.is_prefix self }
    {
        matches!(
            self,
            Kind::Step | Kind::Ampersand | Kind::Star | Kind::Sign | Kind::Complement | Kind::SizeOf
        )
    }

    // Whether a postfix operator begins with it (6.5.2).
    pub fn is_suffix(self) -> bool
        ensures { result ≡ spec.is_suffix self }
    {
        matches!(
            self,
            Kind::OpenBracket | Kind::OpenParen | Kind::Member | Kind::Dot | Kind::Step
        )
    }

    // Whether it stands in front of a type name in parentheses (6.5.3).
    pub fn is_size(self) -> bool
        ensures { result ≡ spec.is_size self }
    {
        matches!(self, Kind::SizeOf | Kind::AlignOf)
    }

    // Whether its operand is a unary-expression, and so no cast (6.5.3).
    pub fn is_tight(self) -> bool
        ensures { result ≡ spec.is_tight self }
    {
        matches!(self, Kind::Step | Kind::SizeOf)
    }

    // Whether the name of a type or a parameter begins with it (6.7.6, 6.7.7).
    pub fn starts_type(self) -> bool
        ensures { result ≡ spec.starts_type self }
    {
        matches!(
            self,
            Kind::TypeWord
                | Kind::Qualifier
                | Kind::Tag
                | Kind::Enum
                | Kind::Align
                | Kind::TypeName(_)
                | Kind::Atomic
                | Kind::Storage
                | Kind::Typedef
                | Kind::Static
        )
    }

    // Whether it stands among the specifiers of a declaration, and in no type's name (6.7).
    pub fn is_storage(self) -> bool
        ensures { result ≡ spec.is_storage self }
    {
        matches!(self, Kind::Storage | Kind::Typedef | Kind::Static)
    }

    pub fn is_align(self) -> bool
        ensures { result ≡ spec.is_align self }
    {
        matches!(self, Kind::Align)
    }

    // Whether it is `struct`, `union` or `enum`.
    pub fn is_tagging(self) -> bool
        ensures { result ≡ spec.is_tagging self }
    {
        matches!(self, Kind::Tag | Kind::Enum)
    }

    pub fn is_brace(self) -> bool
        ensures { result ≡ spec.is_brace self }
    {
        matches!(self, Kind::OpenBrace)
    }

    pub fn is_enum(self) -> bool
        ensures { result ≡ enumerations.is_enum self }
    {
        matches!(self, Kind::Enum)
    }

    pub fn is_comma(self) -> bool
        ensures { result ≡ enumerations.is_comma self }
    {
        matches!(self, Kind::Comma)
    }

    // Whether it is the storage class `typedef` (6.7.1).
    pub fn is_typedef_word(self) -> bool
        ensures { result ≡ spec.is_typedef_word self }
    {
        matches!(self, Kind::Typedef)
    }

    // Whether a designator begins with it (6.7.9).
    pub fn is_designating(self) -> bool
        ensures { result ≡ spec.is_designating self }
    {
        matches!(self, Kind::OpenBracket | Kind::Dot)
    }

    // Whether a member stands behind it (6.5.2).
    pub fn is_member(self) -> bool
        ensures { result ≡ spec.is_member self }
    {
        matches!(self, Kind::Member | Kind::Dot)
    }

    pub fn is_qualifier(self) -> bool
        ensures { result ≡ spec.is_qualifier self }
    {
        matches!(self, Kind::Qualifier)
    }

    pub fn is_atomic(self) -> bool
        ensures { result ≡ spec.is_atomic self }
    {
        matches!(self, Kind::Atomic)
    }

    // Whether an array or a function begins with it in a declarator (6.7.6).
    pub fn is_deriving(self) -> bool
        ensures { result ≡ spec.is_deriving self }
    {
        matches!(self, Kind::OpenBracket | Kind::OpenParen)
    }

    pub fn is_typedef(self) -> bool
        ensures { result ≡ spec.is_typedef self }
    {
        matches!(self, Kind::TypeName(_))
    }

    pub fn is_star(self) -> bool
        ensures { result ≡ spec.is_star self }
    {
        matches!(self, Kind::Star)
    }

    pub fn is_closing_bracket(self) -> bool
        ensures { result ≡ spec.is_closing_bracket self }
    {
        matches!(self, Kind::CloseBracket)
    }

    // Whether it shows parameters behind a `(` at the front of a declarator (6.7.6.3p11).
    pub fn opens_parameters(self) -> bool
        ensures { result ≡ spec.opens_parameters self }
    {
        matches!(
            self,
            Kind::CloseParen
                | Kind::TypeWord
                | Kind::Qualifier
                | Kind::Tag
                | Kind::Enum
                | Kind::Align
                | Kind::TypeName(_)
                | Kind::Atomic
                | Kind::Storage
                | Kind::Typedef
                | Kind::Static
        )
    }

    pub fn is_opening(self) -> bool
        ensures { result ≡ spec.is_opening self }
    {
        matches!(self, Kind::OpenParen)
    }

    // Whether it is an identifier that is no typedef name.
    pub fn is_identifier(self) -> bool
        ensures { result ≡ spec.is_identifier self }
    {
        matches!(self, Kind::Identifier)
    }

    /// Whether a declaration begins with it (6.7).
    pub fn starts_declaration(self) -> bool
        ensures { result ≡ parts.starts_declaration self }
    {
        matches!(
            self,
            Kind::TypeWord
                | Kind::Qualifier
                | Kind::Tag
                | Kind::Enum
                | Kind::Align
                | Kind::TypeName(_)
                | Kind::Atomic
                | Kind::Storage
                | Kind::Typedef
                | Kind::Static
                | Kind::Assert
        )
    }

    /// Whether it is an identifier, a typedef name or not.
    pub fn is_word(self) -> bool
        ensures { result ≡ spec.is_word self }
    {
        matches!(self, Kind::Identifier | Kind::TypeName(_))
    }
}

// The kind of the token with this number.
pub(crate) fn kind_at(kinds: &Kinds<'_>, at: u32) -> Kind
    ensures kind { result ≡ spec.kind_at kinds.now at }
    ensures inside { spec.IsInside kinds.now at result }
{
    kinds.at(at)
}

// The level at which an expression goes on with the token with this number, or 0.
pub(crate) fn level_at(kinds: &Kinds<'_>, at: u32) -> u8
    ensures level { result ≡ spec.level_at kinds.now at }
    ensures inside { 0 < result → at < length kinds.now }
{
    kind_at(kinds, at).level()
}

// Whether a type name in parentheses begins at this token.
#[tactic(auto, unfolding(crate::specs::Kinds::type_at))]
pub(crate) fn type_at(kinds: &Kinds<'_>, at: u32) -> bool
    requires { at ≤ 2000002 }
    ensures { result ≡ spec.type_at kinds.now at }
{
    kind_at(kinds, at).is_opening() && kind_at(kinds, at + 1).starts_type()
}

// Whether the size or alignment of a type name in parentheses begins at this token.
#[tactic(auto, unfolding(crate::specs::Kinds::size_at))]
pub(crate) fn size_at(kinds: &Kinds<'_>, at: u32) -> bool
    requires { at ≤ 2000001 }
    ensures { result ≡ spec.size_at kinds.now at }
{
    kind_at(kinds, at).is_size() && type_at(kinds, at + 1)
}

// Whether `_Atomic ( type-name )` begins at this token (6.7.2.4).
#[tactic(auto, unfolding(crate::specs::Kinds::atomic_opens))]
pub(crate) fn atomic_opens(kinds: &Kinds<'_>, at: u32) -> bool
    requires { at ≤ 2000001 }
    ensures { result ≡ spec.atomic_opens kinds.now at }
{
    kind_at(kinds, at).is_atomic() && kind_at(kinds, at + 1).is_opening()
}

// Whether this token is `_Atomic` for itself, as a qualifier (6.7.3).
#[tactic(auto, unfolding(crate::specs::Kinds::atomic_at))]
fn atomic_at(kinds: &Kinds<'_>, at: u32) -> bool
    requires { at ≤ 2000001 }
    ensures { result ≡ spec.atomic_at kinds.now at }
{
    kind_at(kinds, at).is_atomic() && !kind_at(kinds, at + 1).is_opening()
}

// Whether this token is a qualifier.
#[tactic(auto, unfolding(crate::specs::Kinds::qualifies_at))]
pub(crate) fn qualifies_at(kinds: &Kinds<'_>, at: u32) -> bool
    requires { at ≤ 2000001 }
    ensures { result ≡ spec.qualifies_at kinds.now at }
{
    kind_at(kinds, at).is_qualifier() || atomic_at(kinds, at)
}

// Whether `*` stands here in place of an array's size (6.7.6.2).
#[tactic(auto, unfolding(crate::specs::Kinds::any_size_at))]
pub(crate) fn any_size_at(kinds: &Kinds<'_>, at: u32) -> bool
    requires { at ≤ 2000001 }
    ensures { result ≡ spec.any_size_at kinds.now at }
{
    kind_at(kinds, at).is_star() && kind_at(kinds, at + 1).is_closing_bracket()
}

/// Which name a declarator may have (6.7.6).
#[derive(Clone, Copy, Debug, PartialEq, Eq, Hash, Drop)]
pub enum Named {
    // None, as in the name of a type (6.7.7).
    Never,
    // An identifier that is no typedef name.
    Plainly,
    // Any identifier.
    Freely,
}

impl Named {
    // Which name a declarator in parentheses may have: there a typedef name behind the `(` is the type of a parameter (6.7.6.3p11).
    pub fn grouped(self) -> Named
        ensures { result ≡ spec.grouped self }
    {
        match self {
            Named::Never => Named::Never,
            Named::Plainly => Named::Plainly,
            Named::Freely => Named::Plainly,
        }
    }

    // Which name may stand behind a `*`.
    pub fn pointed(self) -> Named
        ensures { result ≡ spec.pointed self }
    {
        match self {
            Named::Never => Named::Never,
            Named::Plainly => Named::Freely,
            Named::Freely => Named::Freely,
        }
    }
}

// Which name the declarator of a parameter may have, or of a type's name, behind specifiers of which one is a type specifier, or none.
pub(crate) fn named_by(parameter: bool, typed: bool) -> Named
    ensures { result ≡ spec.named_by parameter typed }
{
    if !parameter {
        return Named::Never;
    }
    if typed {
        return Named::Freely;
    }
    Named::Plainly
}

// Whether the name that a declarator declares stands here, where it may have one (6.7.6).
#[tactic(auto, unfolding(crate::specs::Kinds::names_at))]
pub(crate) fn names_at(kinds: &Kinds<'_>, at: u32, named: Named) -> bool
    ensures { result ≡ spec.names_at kinds.now at named }
{
    match named {
        Named::Never => false,
        Named::Plainly => kind_at(kinds, at).is_identifier(),
        Named::Freely => kind_at(kinds, at).is_word(),
    }
}

/// What specifiers stand in front of: a type's name (6.7.7), members (6.7.2.1), or what a declaration or a parameter declares (6.7, 6.7.6).
#[derive(Clone, Copy, Debug, PartialEq, Eq, Hash, Drop)]
pub enum Site {
    OfName,
    OfMember,
    OfDeclaration,
}

impl Site {
    // Whether what begins with such a token may stand among these specifiers.
    pub fn admits(self, kind: Kind) -> bool
        ensures { result ≡ spec.admits self kind }
    {
        match self {
            Site::OfName => !kind.is_storage() && !kind.is_align(),
            Site::OfMember => !kind.is_storage(),
            Site::OfDeclaration => true,
        }
    }
}

// Those of a parameter, or of a type's name.
pub(crate) fn site_of(parameter: bool) -> Site
    ensures { result ≡ spec.site_of parameter }
{
    if parameter {
        return Site::OfDeclaration;
    }
    Site::OfName
}

// Whether what stands here may not stand among these specifiers.
#[tactic(auto, unfolding(crate::specs::Kinds::stored_amiss))]
pub(crate) fn stored_amiss(kinds: &Kinds<'_>, at: u32, site: Site) -> bool
    ensures { result ≡ spec.stored_amiss kinds.now at site }
{
    !site.admits(kind_at(kinds, at))
}

// Whether the `{` of members or enumerators stands here, or behind a tag here.
#[tactic(auto, unfolding(crate::specs::Kinds::braces_at))]
fn braces_at(kinds: &Kinds<'_>, at: u32) -> bool
    requires { at ≤ 2000002 }
    ensures { result ≡ spec.braces_at kinds.now at }
{
    kind_at(kinds, at).is_brace()
        || (kind_at(kinds, at).is_word() && kind_at(kinds, at + 1).is_brace())
}

// Whether members or enumerators in braces belong to the keyword at this token (6.7.2.1, 6.7.2.2).
#[tactic(auto, unfolding(crate::specs::Kinds::list_opens))]
pub(crate) fn list_opens(kinds: &Kinds<'_>, at: u32) -> bool
    requires { at ≤ 2000001 }
    ensures { result ≡ spec.list_opens kinds.now at }
{
    kind_at(kinds, at).is_tagging() && braces_at(kinds, at + 1)
}

// Whether no operator stands in front of this token that takes a unary-expression.
#[tactic(auto, unfolding(crate::specs::Kinds::casts_at))]
pub(crate) fn casts_at(kinds: &Kinds<'_>, at: u32) -> bool
    ensures { result ≡ spec.casts_at kinds.now at }
{
    !kind_at(kinds, at.saturating_sub(1)).is_tight()
}
