// Names of types (ISO C11 6.7.7), and what stands in front of an operand.
ghost use Rattle.std.specs.Prelude.{◌≡◌, IfOk};
ghost use Rattle.tree_data.specs.Seen as seen;
ghost use Rattle.tree_data.specs.Seen.{prefix_of, specifier_of, specs_of, declarator_of, group_of, parameters_of, deriving_of, bound_of, enumerator_of, type_of, naming};
ghost use Rattle.tree_data.specs.Trees as spec;

use crate::expr::Expr;
use crate::members::{Enumeration, Enumerator, Member};
use std::alloc::{AllocError, Global};

/// A specifier of a declaration (6.7), or a specifier or qualifier of a type (6.7.2, 6.7.3).
#[derive(Drop)]
#[cycle(trees)]
pub enum Specifier {
    /// A keyword that stands for itself: a basic type, a qualifier, a storage class or a function specifier.
    Word(u32),
    /// A typedef name (6.7.8).
    TypedefName(u32),
    /// `struct`, `union` or `enum`, and the tag (6.7.2.3).
    Tag(u32, u32),
    /// `_Atomic ( type-name )` (6.7.2.4).
    Atomic(u32, u32, Box<TypeName>, u32),
    /// `_Alignas ( type-name )` (6.7.5).
    AlignedAs(u32, u32, Box<TypeName>, u32),
    /// `_Alignas ( constant-expression )` (6.7.5).
    Aligned(u32, u32, Box<Expr>, u32),
    /// `struct` or `union`, the tag if there is one, and the members in braces (6.7.2.1).
    Members(u32, Option<u32>, u32, Vec<Member>, u32),
    /// `enum` with its enumerators in braces (6.7.2.2).
    Enumerators(Box<Enumeration>),
}

/// `*` and the qualifiers behind it (6.7.6.1).
#[derive(Drop)]
pub struct Pointer {
    pub star: u32,
    pub qualifiers: Vec<u32>,
}

/// Specifiers and qualifiers as they stand, at least one (6.7, 6.7.2.1).
#[derive(Drop)]
#[cycle(trees)]
pub struct Specs {
    pub specifiers: Vec<Specifier>,
}

/// A declarator (6.7.6, 6.7.7): its pointers from left to right, a name or a declarator in parentheses if there is one, and the arrays and functions behind it from left to right. What stands in the parentheses is outermost;
/// of the rest the first array or function is, and the last pointer is the outermost of the pointers.
#[derive(Drop)]
#[cycle(trees)]
pub struct Declarator {
    pub pointers: Vec<Pointer>,
    pub group: Group,
    pub derivings: Vec<Deriving>,
}

/// What the pointers of a declarator stand in front of.
#[derive(Drop)]
#[cycle(trees)]
pub enum Group {
    /// Nothing, or an array or a function.
    NoGroup,
    /// The name that is declared.
    Named(u32),
    /// `( declarator )`, in which something stands.
    Grouped(u32, Box<Declarator>, u32),
}

/// An array or a function (6.7.6.2, 6.7.6.3).
#[derive(Drop)]
#[cycle(trees)]
pub enum Deriving {
    /// `[`, what stands in the brackets, and `]`.
    Array(u32, Bound, u32),
    /// `(`, the parameters, and `)`.
    Function(u32, Parameters, u32),
}

/// The parameters of a function (6.7.6.3). Each is specifiers and a declarator, with a name or without.
#[derive(Drop)]
#[cycle(trees)]
pub enum Parameters {
    /// None are told.
    NoParameters,
    /// The first, and each other one with the comma in front of it.
    Fixed(Box<TypeName>, Vec<(u32, TypeName)>),
    /// The same with `,` and `...` behind them.
    Variadic(Box<TypeName>, Vec<(u32, TypeName)>, u32, u32),
    /// Names alone (an identifier list): the first, and each other one with the comma in front of it.
    Names(u32, Vec<(u32, u32)>),
}

/// What stands in the brackets of an array (6.7.6.2, 6.7.7).
#[derive(Drop)]
#[cycle(trees)]
pub enum Bound {
    /// Qualifiers, if there are any, and no size.
    Unsized(Vec<u32>),
    /// Qualifiers, if there are any, and `*` in place of a size.
    AnySize(Vec<u32>, u32),
    /// Qualifiers, if there are any, and the size.
    Sized(Vec<u32>, Box<Expr>),
    /// `static`, qualifiers if there are any, and the size.
    StaticSized(u32, Vec<u32>, Box<Expr>),
    /// At least one qualifier, `static`, and the size.
    SizedStatic(Vec<u32>, u32, Box<Expr>),
}

/// The name of a type (6.7.7).
#[derive(Drop)]
#[cycle(trees)]
pub struct TypeName {
    pub specs: Specs,
    pub declarator: Declarator,
}

/// What stands in front of an operand (6.5.3, 6.5.4).
#[derive(Drop)]
#[cycle(trees)]
pub enum Prefix {
    /// A unary operator, `++`, `--` or `sizeof`.
    Operator(u32),
    /// `( type-name )`, a cast.
    Cast(u32, Box<TypeName>, u32),
}

impl Specifier {
    /// A keyword.
    pub fn word(at: u32) -> Specifier
        ensures { specifier_of result ≡ spec.Word_of at }
    {
        Specifier::Word(at)
    }

    /// A typedef name.
    pub fn typedef_name(at: u32) -> Specifier
        ensures { specifier_of result ≡ spec.Typedef_of at }
    {
        Specifier::TypedefName(at)
    }

    /// A tag behind its keyword.
    pub fn tag(keyword: u32, tag: u32) -> Specifier
        ensures { specifier_of result ≡ spec.Tag_of keyword tag }
    {
        Specifier::Tag(keyword, tag)
    }

    /// An atomic type.
    pub fn atomic(
        alloc: Global,
        keyword: u32,
        opening: u32,
        name: TypeName,
        closing: u32,
    ) -> Result<Specifier, AllocError>
        ensures { IfOk result (λ s. specifier_of s ≡ spec.Atomic_of keyword opening (type_of name) closing) }
    {
        let name = Box::new(alloc, name)?;
        Ok(Specifier::Atomic(keyword, opening, name, closing))
    }

    /// The number of a keyword that stands for itself.
    pub fn as_word(&self) -> Option<u32>
        ensures { result ≡ spec.word_in (specifier_of self.now) }
    {
        match self {
            Specifier::Word(at) => Some(*at),
            Specifier::TypedefName(_) => None,
            Specifier::Tag(_, _) => None,
            Specifier::Atomic(_, _, _, _) => None,
            Specifier::AlignedAs(_, _, _, _) => None,
            Specifier::Aligned(_, _, _, _) => None,
            Specifier::Members(_, _, _, _, _) => None,
            Specifier::Enumerators(_) => None,
        }
    }

    /// The alignment of a type.
    pub fn aligned_as(
        alloc: Global,
        keyword: u32,
        opening: u32,
        name: TypeName,
        closing: u32,
    ) -> Result<Specifier, AllocError>
        ensures { IfOk result (λ s. specifier_of s ≡ spec.Aligned_as_of keyword opening (type_of name) closing) }
    {
        let name = Box::new(alloc, name)?;
        Ok(Specifier::AlignedAs(keyword, opening, name, closing))
    }

    /// An alignment.
    pub fn aligned(
        alloc: Global,
        keyword: u32,
        opening: u32,
        size: Expr,
        closing: u32,
    ) -> Result<Specifier, AllocError>
        ensures { IfOk result (λ s. specifier_of s ≡ spec.Aligned_of keyword opening (seen.tree_of size) closing) }
    {
        let size = Box::new(alloc, size)?;
        Ok(Specifier::Aligned(keyword, opening, size, closing))
    }

    /// A structure or union with its members.
    pub fn members(
        keyword: u32,
        tag: Option<u32>,
        opening: u32,
        members: Vec<Member>,
        closing: u32,
    ) -> Specifier
        ensures { specifier_of result ≡ spec.Members_of keyword tag opening (spec.members (seen.members_of members.items) spec.No_members) closing }
    {
        Specifier::Members(keyword, tag, opening, members, closing)
    }

    /// An enumeration with its enumerators.
    pub fn enumerators(
        alloc: Global,
        keyword: u32,
        tag: Option<u32>,
        opening: u32,
        first: Enumerator,
        more: Vec<(u32, Enumerator)>,
        comma: Option<u32>,
        closing: u32,
    ) -> Result<Specifier, AllocError>
        ensures { IfOk result (λ s. specifier_of s ≡ spec.Enumerators_of keyword tag opening (enumerator_of first)
            (spec.enumerators (seen.enumerators_of more.items) spec.No_enumerators) comma closing) }
    {
        let list = Enumeration {
            keyword,
            tag,
            opening,
            first,
            more,
            comma,
            closing,
        };
        let list = Box::new(alloc, list)?;
        Ok(Specifier::Enumerators(list))
    }
}

impl Specs {
    /// Specifiers in order.
    pub fn new(specifiers: Vec<Specifier>) -> Specs
        ensures { specs_of result ≡ spec.specifyings (seen.specifiers_of specifiers.items) spec.No_specifiers }
    {
        Specs { specifiers }
    }
}

impl Declarator {
    /// A declarator of these parts.
    pub fn new(pointers: Vec<Pointer>, group: Group, derivings: Vec<Deriving>) -> Declarator
        ensures { declarator_of result ≡ spec.Declaring_of (seen.pointers_of pointers.items) (group_of group)
            (spec.derivings (seen.derivings_of derivings.items) spec.No_derivings) }
    {
        Declarator {
            pointers,
            group,
            derivings,
        }
    }
}

impl Group {
    /// No group.
    pub fn none() -> Group
        ensures { group_of result ≡ spec.No_group }
    {
        Group::NoGroup
    }

    /// A name.
    pub fn named(at: u32) -> Group
        ensures { group_of result ≡ spec.Named_of at }
    {
        Group::Named(at)
    }

    /// A declarator in parentheses.
    pub fn of(
        alloc: Global,
        opening: u32,
        inner: Declarator,
        closing: u32,
    ) -> Result<Group, AllocError>
        ensures { IfOk result (λ g. group_of g ≡ spec.Group_of opening (declarator_of inner) closing) }
    {
        let inner = Box::new(alloc, inner)?;
        Ok(Group::Grouped(opening, inner, closing))
    }
}

impl Deriving {
    /// An array.
    pub fn array(opening: u32, bound: Bound, closing: u32) -> Deriving
        ensures { deriving_of result ≡ spec.Array_of opening (bound_of bound) closing }
    {
        Deriving::Array(opening, bound, closing)
    }

    /// A function.
    pub fn function(opening: u32, parameters: Parameters, closing: u32) -> Deriving
        ensures { deriving_of result ≡ spec.Function_of opening (parameters_of parameters) closing }
    {
        Deriving::Function(opening, parameters, closing)
    }

    /// Whether it stands behind a name alone: an array with qualifiers and `*` in its brackets does (6.7.6.2), and a function with
    /// an identifier list (6.7.6.3), as an abstract declarator has `*` without qualifiers and no such list (6.7.7).
    pub fn needs_name(&self) -> bool
        ensures { result ≡ spec.needs_name (deriving_of self.now) }
    {
        match self {
            Deriving::Array(_, bound, _) => bound.is_starred(),
            Deriving::Function(_, parameters, _) => parameters.are_names(),
        }
    }
}

impl Parameters {
    /// No parameters.
    pub fn none() -> Parameters
        ensures { parameters_of result ≡ spec.No_parameters }
    {
        Parameters::NoParameters
    }

    /// So many as there are.
    pub fn fixed(
        alloc: Global,
        first: TypeName,
        more: Vec<(u32, TypeName)>,
    ) -> Result<Parameters, AllocError>
        ensures { IfOk result (λ p. parameters_of p ≡ spec.Fixed_of (type_of first) (spec.row (seen.parameter_row_of more.items) spec.No_more)) }
    {
        let first = Box::new(alloc, first)?;
        Ok(Parameters::Fixed(first, more))
    }

    /// With more arguments behind them.
    pub fn variadic(
        alloc: Global,
        first: TypeName,
        more: Vec<(u32, TypeName)>,
        comma: u32,
        dots: u32,
    ) -> Result<Parameters, AllocError>
        ensures { IfOk result (λ p. parameters_of p
            ≡ spec.Variadic_of (type_of first) (spec.row (seen.parameter_row_of more.items) spec.No_more) comma dots) }
    {
        let first = Box::new(alloc, first)?;
        Ok(Parameters::Variadic(first, more, comma, dots))
    }

    /// An identifier list.
    pub fn names(first: u32, more: Vec<(u32, u32)>) -> Parameters
        ensures { parameters_of result ≡ spec.Names_of first more.items }
    {
        Parameters::Names(first, more)
    }

    // Whether it is an identifier list.
    fn are_names(&self) -> bool
        ensures { result ≡ spec.are_names (parameters_of self.now) }
    {
        match self {
            Parameters::NoParameters => false,
            Parameters::Fixed(_, _) => false,
            Parameters::Variadic(_, _, _, _) => false,
            Parameters::Names(_, _) => true,
        }
    }
}

impl Bound {
    /// Qualifiers alone.
    pub fn unsized_by(qualifiers: Vec<u32>) -> Bound
        ensures { bound_of result ≡ spec.Unsized_of qualifiers.items }
    {
        Bound::Unsized(qualifiers)
    }

    /// `*` in place of a size.
    pub fn any_size(qualifiers: Vec<u32>, star: u32) -> Bound
        ensures { bound_of result ≡ spec.Any_size_of qualifiers.items star }
    {
        Bound::AnySize(qualifiers, star)
    }

    // Whether it is `*` with a qualifier in front of it.
    fn is_starred(&self) -> bool
        ensures { result ≡ spec.is_starred (bound_of self.now) }
    {
        match self {
            Bound::Unsized(_) => false,
            Bound::AnySize(qualifiers, _) => are_some(qualifiers.as_slice()),
            Bound::Sized(_, _) => false,
            Bound::StaticSized(_, _, _) => false,
            Bound::SizedStatic(_, _, _) => false,
        }
    }

    /// A size.
    pub fn sized(alloc: Global, qualifiers: Vec<u32>, size: Expr) -> Result<Bound, AllocError>
        ensures { IfOk result (λ b. bound_of b ≡ spec.Sized_of qualifiers.items (seen.tree_of size)) }
    {
        let size = Box::new(alloc, size)?;
        Ok(Bound::Sized(qualifiers, size))
    }

    /// `static` and a size.
    pub fn static_sized(
        alloc: Global,
        word: u32,
        qualifiers: Vec<u32>,
        size: Expr,
    ) -> Result<Bound, AllocError>
        ensures { IfOk result (λ b. bound_of b ≡ spec.Static_sized_of word qualifiers.items (seen.tree_of size)) }
    {
        let size = Box::new(alloc, size)?;
        Ok(Bound::StaticSized(word, qualifiers, size))
    }

    /// Qualifiers, `static` and a size.
    pub fn sized_static(
        alloc: Global,
        qualifiers: Vec<u32>,
        word: u32,
        size: Expr,
    ) -> Result<Bound, AllocError>
        ensures { IfOk result (λ b. bound_of b ≡ spec.Sized_static_of qualifiers.items word (seen.tree_of size)) }
    {
        let size = Box::new(alloc, size)?;
        Ok(Bound::SizedStatic(qualifiers, word, size))
    }
}

impl TypeName {
    /// A name of these parts.
    pub fn new(specs: Specs, declarator: Declarator) -> TypeName
        ensures { type_of result ≡ naming specs declarator }
    {
        TypeName { specs, declarator }
    }

    /// Its parts.
    pub fn into_parts(self) -> (Specs, Declarator)
        ensures { naming result.0 result.1 ≡ type_of self }
    {
        (self.specs, self.declarator)
    }
}

impl Prefix {
    /// An operator.
    pub fn operator(at: u32) -> Prefix
        ensures { prefix_of result ≡ spec.Operator_of at }
    {
        Prefix::Operator(at)
    }

    /// A cast.
    pub fn cast(
        alloc: Global,
        opening: u32,
        name: TypeName,
        closing: u32,
    ) -> Result<Prefix, AllocError>
        ensures { IfOk result (λ p. prefix_of p ≡ spec.Cast_of opening (type_of name) closing) }
    {
        let name = Box::new(alloc, name)?;
        Ok(Prefix::Cast(opening, name, closing))
    }

    // Whether it is an operator.
    fn is_operator(&self) -> bool
        ensures { result ≡ spec.operates (prefix_of self.now) }
    {
        match self {
            Prefix::Operator(_) => true,
            Prefix::Cast(_, _, _) => false,
        }
    }
}

fn are_some(words: &[u32]) -> bool
    ensures { result ≡ spec.are_some words.now }
{
    let Some(_) = words.first() else {
        return false;
    };
    true
}

// Whether the first is an operator.
pub(crate) fn begins_with_operator(prefixes: &[Prefix]) -> bool
    ensures { result ≡ spec.is_operator (spec.fronts (seen.prefixes_of prefixes.now) spec.None_before) }
{
    let Some(first) = prefixes.first() else {
        return false;
    };
    first.is_operator()
}
