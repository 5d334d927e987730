// Parts of expressions that stand in lists (ISO C11 6.5).
ghost use Rattle.std.specs.Prelude.{◌≡◌, IfOk};
ghost use Rattle.tree_data.specs.Trees as spec;
ghost use Rattle.tree_data.specs.Seen as seen;
ghost use Rattle.tree_data.specs.Seen.{tree_of, behind_of, front_of};

use crate::expr::Expr;
use std::alloc::{AllocError, Global};

/// A postfix operator (6.5.2).
#[derive(Drop)]
#[cycle(trees)]
pub enum Suffix {
    /// `[ expression ]`.
    Index(u32, Box<Expr>, u32),
    /// `( )`.
    Call(u32, u32),
    /// `( argument-expression-list )`: the first argument, and each other one with the comma in front of it.
    CallWith(u32, Box<Expr>, Vec<(u32, Expr)>, u32),
    /// `.` or `->`, and the identifier behind it.
    Member(u32, u32),
    /// `++` or `--`.
    Step(u32),
}

/// `logical-OR-expression ? expression :` (6.5.15).
#[derive(Drop)]
#[cycle(trees)]
pub struct Choice {
    pub test: Expr,
    pub question: u32,
    pub middle: Expr,
    pub colon: u32,
}

impl Suffix {
    /// An index in brackets.
    pub fn index(
        alloc: Global,
        opening: u32,
        inner: Expr,
        closing: u32,
    ) -> Result<Suffix, AllocError>
        ensures { IfOk result (λ s. behind_of s ≡ spec.Index_of opening (tree_of inner) closing) }
    {
        let inner = Box::new(alloc, inner)?;
        Ok(Suffix::Index(opening, inner, closing))
    }

    /// A call without arguments.
    pub fn call(opening: u32, closing: u32) -> Suffix
        ensures { behind_of result ≡ spec.Call_of opening closing }
    {
        Suffix::Call(opening, closing)
    }

    /// A call with arguments.
    pub fn call_with(
        alloc: Global,
        opening: u32,
        first: Expr,
        more: Vec<(u32, Expr)>,
        closing: u32,
    ) -> Result<Suffix, AllocError>
        ensures { IfOk result (λ s. behind_of s ≡ spec.Call_with_of opening (tree_of first)
            (spec.behinds (seen.operands_of more.items) spec.None_behind) closing) }
    {
        let first = Box::new(alloc, first)?;
        Ok(Suffix::CallWith(opening, first, more, closing))
    }

    /// A member of a structure or union.
    pub fn member(operator: u32, name: u32) -> Suffix
        ensures { behind_of result ≡ spec.Member_of operator name }
    {
        Suffix::Member(operator, name)
    }

    /// `++` or `--`.
    pub fn step(operator: u32) -> Suffix
        ensures { behind_of result ≡ spec.Step_of operator }
    {
        Suffix::Step(operator)
    }
}

impl Choice {
    /// A test with the expression that is chosen where it holds.
    pub fn new(test: Expr, question: u32, middle: Expr, colon: u32) -> Choice
        ensures { front_of result ≡ spec.Choice_of (tree_of test) question (tree_of middle) colon }
    {
        Choice {
            test,
            question,
            middle,
            colon,
        }
    }
}
