// Trees of expressions (ISO C11 6.5). A tree holds the numbers of its tokens, and no text.
ghost use Rattle.std.specs.Prelude.{◌≡◌, IfOk};
ghost use Rattle.tree_data.specs.Trees as spec;
ghost use Rattle.tree_data.specs.Trees.{is_unary};
ghost use Rattle.tree_data.specs.Seen as seen;
ghost use Rattle.tree_data.specs.Seen.{tree_of, braces_of, type_of};

use crate::inits::Braces;
use crate::parts::{Choice, Suffix};
use crate::selections::Association;
use crate::types::{Prefix, TypeName, begins_with_operator};
use std::alloc::{AllocError, Global};

/// An expression. What is written side by side, however long, stands in one list: a tree is no deeper than its brackets,
/// the middles of its `? :` and the levels of precedence.
#[derive(Drop)]
#[cycle(trees)]
pub enum Expr {
    /// An identifier that names no type (6.5.1).
    Name(u32),
    /// A constant (6.5.1).
    Constant(u32),
    /// String literals side by side, which are one string literal (5.1.1.2, 6.5.1); at least one.
    Text(Vec<u32>),
    /// `( expression )` (6.5.1).
    Paren(u32, Box<Expr>, u32),
    /// A primary expression and at least one postfix operator behind it, the first one applied first (6.5.2).
    Postfix(Box<Expr>, Vec<Suffix>),
    /// At least one unary operator or cast and the operand behind the last one, which is applied first (6.5.3, 6.5.4).
    Unary(Vec<Prefix>, Box<Expr>),
    /// `sizeof ( type-name )` or `_Alignof ( type-name )` (6.5.3).
    OfType(u32, u32, Box<TypeName>, u32),
    /// An operand and at least one binary operator with the operand behind it; all operators are of one level of
    /// precedence and group to the left (6.5.5 to 6.5.14, 6.5.17).
    Binary(Box<Expr>, Vec<(u32, Expr)>),
    /// At least one test with `?`, the expression behind it and `:`, and what is behind the last `:` (6.5.15).
    Conditional(Vec<Choice>, Box<Expr>),
    /// At least one place with the assignment operator behind it, and the value (6.5.16).
    Assign(Vec<(Expr, u32)>, Box<Expr>),
    /// `( type-name )` and the braces of a compound literal (6.5.2.5).
    Compound(u32, Box<TypeName>, u32, Box<Braces>),
    /// `_Generic (`, the controlling expression, at least one association with the comma in front of it, `)` (6.5.1.1). The list is boxed here
    /// and below, or each expression would have its size.
    Generic(u32, u32, Box<Expr>, Box<Vec<(u32, Association)>>, u32),
    /// `__offsetof (`, the name of a type, `,`, the name of a member and what selects within it, `)`, for `offsetof` (7.19).
    Offset(u32, u32, Box<TypeName>, u32, u32, Box<Vec<Suffix>>, u32),
}

impl Expr {
    /// An identifier.
    pub fn name(at: u32) -> Expr
        ensures { tree_of result ≡ spec.Name_of at }
    {
        Expr::Name(at)
    }

    /// A constant.
    pub fn constant(at: u32) -> Expr
        ensures { tree_of result ≡ spec.Constant_of at }
    {
        Expr::Constant(at)
    }

    /// String literals side by side.
    pub fn text(pieces: Vec<u32>) -> Expr
        ensures { tree_of result ≡ spec.Text_of pieces.items }
    {
        Expr::Text(pieces)
    }

    /// An expression in parentheses.
    pub fn paren(alloc: Global, opening: u32, inner: Expr, closing: u32) -> Result<Expr, AllocError>
        ensures { IfOk result (λ e. tree_of e ≡ spec.Paren_of opening (tree_of inner) closing) }
    {
        let inner = Box::new(alloc, inner)?;
        Ok(Expr::Paren(opening, inner, closing))
    }

    /// An expression with postfix operators behind it.
    pub fn postfix(alloc: Global, first: Expr, suffixes: Vec<Suffix>) -> Result<Expr, AllocError>
        ensures { IfOk result (λ e. tree_of e
            ≡ spec.Postfix_of (tree_of first) (spec.behinds (seen.suffixes_of suffixes.items) spec.None_behind)) }
    {
        let first = Box::new(alloc, first)?;
        Ok(Expr::Postfix(first, suffixes))
    }

    /// An operand with unary operators and casts in front of it.
    pub fn unary(alloc: Global, prefixes: Vec<Prefix>, operand: Expr) -> Result<Expr, AllocError>
        ensures { IfOk result (λ e. tree_of e
            ≡ spec.Unary_of (spec.fronts (seen.prefixes_of prefixes.items) spec.None_before) (tree_of operand)) }
    {
        let operand = Box::new(alloc, operand)?;
        Ok(Expr::Unary(prefixes, operand))
    }

    /// An operand with operators and operands behind it.
    pub fn binary(alloc: Global, first: Expr, more: Vec<(u32, Expr)>) -> Result<Expr, AllocError>
        ensures { IfOk result (λ e. tree_of e
            ≡ spec.Binary_of (tree_of first) (spec.behinds (seen.operands_of more.items) spec.None_behind)) }
    {
        let first = Box::new(alloc, first)?;
        Ok(Expr::Binary(first, more))
    }

    /// Tests with the expressions of which one is chosen, and the last one.
    pub fn conditional(alloc: Global, choices: Vec<Choice>, last: Expr) -> Result<Expr, AllocError>
        ensures { IfOk result (λ e. tree_of e
            ≡ spec.Conditional_of (spec.fronts (seen.choices_of choices.items) spec.None_before) (tree_of last)) }
    {
        let last = Box::new(alloc, last)?;
        Ok(Expr::Conditional(choices, last))
    }

    /// Places to which a value is assigned, from the last to the first, and the value.
    pub fn assign(alloc: Global, places: Vec<(Expr, u32)>, value: Expr) -> Result<Expr, AllocError>
        ensures { IfOk result (λ e. tree_of e
            ≡ spec.Assign_of (spec.fronts (seen.lefts_of places.items) spec.None_before) (tree_of value)) }
    {
        let value = Box::new(alloc, value)?;
        Ok(Expr::Assign(places, value))
    }

    /// The size or the alignment of a type.
    pub fn of_type(
        alloc: Global,
        keyword: u32,
        opening: u32,
        name: TypeName,
        closing: u32,
    ) -> Result<Expr, AllocError>
        ensures { IfOk result (λ e. tree_of e ≡ spec.Of_type keyword opening (type_of name) closing) }
    {
        let name = Box::new(alloc, name)?;
        Ok(Expr::OfType(keyword, opening, name, closing))
    }

    /// A compound literal.
    pub fn compound(
        alloc: Global,
        opening: u32,
        name: TypeName,
        closing: u32,
        braces: Braces,
    ) -> Result<Expr, AllocError>
        ensures { IfOk result (λ e. tree_of e ≡ spec.Compound_of opening (type_of name) closing (braces_of braces)) }
    {
        let name = Box::new(alloc, name)?;
        let braces = Box::new(alloc, braces)?;
        Ok(Expr::Compound(opening, name, closing, braces))
    }

    /// A generic selection.
    pub fn generic(
        alloc: Global,
        keyword: u32,
        opening: u32,
        control: Expr,
        choices: Vec<(u32, Association)>,
        closing: u32,
    ) -> Result<Expr, AllocError>
        ensures { IfOk result (λ e. tree_of e
            ≡ spec.Generic_of keyword opening (tree_of control) (spec.associations (seen.associations_of choices.items)) closing) }
    {
        let control = Box::new(alloc, control)?;
        let choices = Box::new(alloc, choices)?;
        Ok(Expr::Generic(keyword, opening, control, choices, closing))
    }

    /// The place of a member in a type.
    pub fn offset(
        alloc: Global,
        keyword: u32,
        opening: u32,
        name: TypeName,
        comma: u32,
        member: u32,
        steps: Vec<Suffix>,
        closing: u32,
    ) -> Result<Expr, AllocError>
        ensures { IfOk result (λ e. tree_of e ≡ spec.Offset_of keyword opening (type_of name) comma member
            (spec.behinds (seen.suffixes_of steps.items) spec.None_behind) closing) }
    {
        let name = Box::new(alloc, name)?;
        let steps = Box::new(alloc, steps)?;
        Ok(Expr::Offset(keyword, opening, name, comma, member, steps, closing))
    }

    /// Whether its production is one of unary-expression (6.5.3), which alone may stand on the left of an assignment.
    pub fn is_unary(&self) -> bool
        ensures { result ≡ is_unary (tree_of self.now) }
    {
        match self {
            Expr::Name(_) => true,
            Expr::Constant(_) => true,
            Expr::Text(_) => true,
            Expr::Paren(_, _, _) => true,
            Expr::Postfix(_, _) => true,
            Expr::Unary(prefixes, _) => begins_with_operator(prefixes.as_slice()),
            Expr::OfType(_, _, _, _) => true,
            Expr::Compound(_, _, _, _) => true,
            Expr::Generic(_, _, _, _, _) => true,
            Expr::Offset(_, _, _, _, _, _, _) => true,
            Expr::Binary(_, _) => false,
            Expr::Conditional(_, _) => false,
            Expr::Assign(_, _) => false,
        }
    }
}
