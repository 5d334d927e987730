// Initializers (ISO C11 6.7.9).
ghost use Rattle.std.specs.Prelude.{◌≡◌, IfOk};
ghost use Rattle.tree_data.specs.Trees as spec;
ghost use Rattle.tree_data.specs.Seen as seen;
ghost use Rattle.tree_data.specs.Seen.{tree_of, braces_of, piece_of, initial_of, designator_of};

use crate::expr::Expr;
use std::alloc::{AllocError, Global};

/// An initializer list in braces, with a comma behind the last piece or without.
#[derive(Drop)]
#[cycle(trees)]
pub struct Braces {
    pub opening: u32,
    pub first: Piece,
    /// Each further piece with the comma in front of it.
    pub more: Vec<(u32, Piece)>,
    pub comma: Option<u32>,
    pub closing: u32,
}

/// A piece of an initializer list.
#[derive(Drop)]
#[cycle(trees)]
pub enum Piece {
    /// An initializer.
    Plain(Init),
    /// A designation, which is at least one designator and `=`, and the initializer.
    Designated(Designator, Vec<Designator>, u32, Init),
}

/// An initializer.
#[derive(Drop)]
#[cycle(trees)]
pub enum Init {
    /// An assignment-expression.
    Value(Expr),
    /// A list in braces.
    List(Box<Braces>),
}

/// What a designation is made of.
#[derive(Drop)]
#[cycle(trees)]
pub enum Designator {
    /// `[ constant-expression ]`.
    Element(u32, Expr, u32),
    /// `.` and the identifier behind it.
    Field(u32, u32),
}

impl Braces {
    /// A list.
    pub fn new(
        opening: u32,
        first: Piece,
        more: Vec<(u32, Piece)>,
        comma: Option<u32>,
        closing: u32,
    ) -> Braces
        ensures { braces_of result ≡ spec.Braces_of opening (piece_of first) (spec.pieces (seen.pieces_of more.items)) comma closing }
    {
        Braces {
            opening,
            first,
            more,
            comma,
            closing,
        }
    }
}

impl Piece {
    /// An initializer without a designation.
    pub fn plain(init: Init) -> Piece
        ensures { piece_of result ≡ spec.Plain_of (initial_of init) }
    {
        Piece::Plain(init)
    }

    /// An initializer with a designation.
    pub fn designated(first: Designator, more: Vec<Designator>, equals: u32, init: Init) -> Piece
        ensures { piece_of result ≡ spec.Designated_of (designator_of first) (spec.designators (seen.designators_of more.items)) equals (initial_of init) }
    {
        Piece::Designated(first, more, equals, init)
    }
}

impl Init {
    /// An expression.
    pub fn value(expr: Expr) -> Init
        ensures { initial_of result ≡ spec.Value_of (tree_of expr) }
    {
        Init::Value(expr)
    }

    /// A list in braces.
    pub fn list(alloc: Global, braces: Braces) -> Result<Init, AllocError>
        ensures { IfOk result (λ i. initial_of i ≡ spec.List_of (braces_of braces)) }
    {
        let braces = Box::new(alloc, braces)?;
        Ok(Init::List(braces))
    }
}

impl Designator {
    /// An element of an array.
    pub fn element(opening: u32, index: Expr, closing: u32) -> Designator
        ensures { designator_of result ≡ spec.Element_of opening (tree_of index) closing }
    {
        Designator::Element(opening, index, closing)
    }

    /// A member of a structure or union.
    pub fn field(dot: u32, name: u32) -> Designator
        ensures { designator_of result ≡ spec.Field_of dot name }
    {
        Designator::Field(dot, name)
    }
}
