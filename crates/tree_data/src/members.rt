// Members, enumerators, alignments and static assertions (ISO C11 6.7.2.1, 6.7.2.2, 6.7.5, 6.7.10).
ghost use Rattle.std.specs.Prelude.{◌≡◌};
ghost use Rattle.tree_data.specs.Seen as seen;
ghost use Rattle.tree_data.specs.Seen.{specs_of, declarator_of, member_of, field_of, enumerator_of, assertion_of};
ghost use Rattle.tree_data.specs.Trees as spec;

use crate::expr::Expr;
use crate::types::{Declarator, Specs};

/// What stands in the braces of a structure or union up to a `;` (6.7.2.1).
#[derive(Drop)]
#[cycle(trees)]
pub enum Member {
    /// Specifiers and `;`.
    Bare(Specs, u32),
    /// Specifiers, the first member, each other one with the comma in front of it, and `;`.
    Fields(Specs, Field, Vec<(u32, Field)>, u32),
    /// A static assertion.
    Asserted(Assertion),
}

/// A member (6.7.2.1).
#[derive(Drop)]
#[cycle(trees)]
pub enum Field {
    /// One that is no bit-field.
    Declared(Declarator),
    /// A bit-field: its declarator, `:` and the width.
    Bits(Declarator, u32, Expr),
    /// A bit-field without a name.
    Padding(u32, Expr),
}

/// `enum` with braces (6.7.2.2).
#[derive(Drop)]
#[cycle(trees)]
pub struct Enumeration {
    pub keyword: u32,
    pub tag: Option<u32>,
    pub opening: u32,
    pub first: Enumerator,
    /// Each further one with the comma in front of it.
    pub more: Vec<(u32, Enumerator)>,
    pub comma: Option<u32>,
    pub closing: u32,
}

/// An enumerator (6.7.2.2).
#[derive(Drop)]
#[cycle(trees)]
pub enum Enumerator {
    /// Without a value.
    Counted(u32),
    /// With `=` and one.
    Given(u32, u32, Expr),
}

/// `_Static_assert ( condition , text ) ;` (6.7.10). The text may be several string literals side by side.
#[derive(Drop)]
#[cycle(trees)]
pub struct Assertion {
    pub keyword: u32,
    pub opening: u32,
    pub condition: Expr,
    pub comma: u32,
    pub text: Vec<u32>,
    pub closing: u32,
    pub end: u32,
}

impl Member {
    /// Specifiers alone.
    pub fn bare(specs: Specs, end: u32) -> Member
        ensures { member_of result ≡ spec.Bare_of (specs_of specs) end }
    {
        Member::Bare(specs, end)
    }

    /// Specifiers and members.
    pub fn fields(specs: Specs, first: Field, more: Vec<(u32, Field)>, end: u32) -> Member
        ensures { member_of result
            ≡ spec.Fields_of (specs_of specs) (field_of first) (spec.fields (seen.fields_of more.items) spec.No_fields) end }
    {
        Member::Fields(specs, first, more, end)
    }

    /// A static assertion.
    pub fn asserted(assertion: Assertion) -> Member
        ensures { member_of result ≡ spec.Asserted_of (assertion_of assertion) }
    {
        Member::Asserted(assertion)
    }
}

impl Field {
    /// Without a width.
    pub fn declared(declarator: Declarator) -> Field
        ensures { field_of result ≡ spec.Declared_of (declarator_of declarator) }
    {
        Field::Declared(declarator)
    }

    /// With a width.
    pub fn bits(declarator: Declarator, colon: u32, width: Expr) -> Field
        ensures { field_of result ≡ spec.Bits_of (declarator_of declarator) colon (seen.tree_of width) }
    {
        Field::Bits(declarator, colon, width)
    }

    /// A width alone.
    pub fn padding(colon: u32, width: Expr) -> Field
        ensures { field_of result ≡ spec.Padding_of colon (seen.tree_of width) }
    {
        Field::Padding(colon, width)
    }
}

impl Enumerator {
    /// Without a value.
    pub fn counted(at: u32) -> Enumerator
        ensures { enumerator_of result ≡ spec.Counted_of at }
    {
        Enumerator::Counted(at)
    }

    /// With a value.
    pub fn given(at: u32, equals: u32, value: Expr) -> Enumerator
        ensures { enumerator_of result ≡ spec.Given_of at equals (seen.tree_of value) }
    {
        Enumerator::Given(at, equals, value)
    }
}

impl Assertion {
    /// Of these parts.
    pub fn new(
        keyword: u32,
        opening: u32,
        condition: Expr,
        comma: u32,
        text: Vec<u32>,
        closing: u32,
        end: u32,
    ) -> Assertion
        ensures { assertion_of result ≡ spec.Assertion_of keyword opening (seen.tree_of condition) comma text.items closing end }
    {
        Assertion {
            keyword,
            opening,
            condition,
            comma,
            text,
            closing,
            end,
        }
    }
}
