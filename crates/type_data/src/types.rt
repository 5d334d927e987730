// Types (ISO C11 6.2.5) as values that share their parts.
use crate::basics::Basic;
use crate::names::TagId;
use crate::qualifiers::{Extent, Proto, Qual};
use std::marker::Model;
use std::rc::Rc;

mod parts;
mod same;

/// A type. Contracts see it as the data that it is made of, so two types are equal where these are.
#[cycle(types)]
#[derive(Drop)]
pub struct CType {
    node: Node,
}

/// What a type is.
#[cycle(types)]
#[derive(Drop)]
pub enum Node {
    Void,
    Basic(Basic),
    /// An enumerated type (6.7.2.2).
    Enumerated(TagId),
    /// A structure or union type (6.7.2.1).
    Tagged(TagId),
    /// A pointer to a type with these qualifiers (6.7.6.1).
    Pointer(Rc<CType>, Qual),
    /// An array of elements of a type with these qualifiers (6.7.6.2).
    Array(Rc<CType>, Qual, Extent),
    /// A function that returns a value of a type (6.7.6.3).
    Function(Rc<CType>, Params, Proto),
    /// The type of what has a fault: nothing more is shown of it.
    Bad,
}

/// The types of a function's parameters, each with its own qualifiers, in order.
#[cycle(types)]
#[derive(Drop)]
pub struct Params {
    list: ParamList,
}

/// A list of parameters.
#[cycle(types)]
#[derive(Drop)]
pub enum ParamList {
    Empty,
    /// The first one's type with its own qualifiers, and the others.
    First(Rc<CType>, Qual, Rc<Params>),
}

impl Model for CType {
    ghost use Rattle.type_data.specs.Codes.{type_code};
    ghost use Rattle.type_data.specs.Types.{Ty};
    ghost use Rattle.std.specs.Coded.{codes};

    ghost Value = { Ty };

    ghost coded = { type_code (Prim.hlevel codes) };

    ghost use Rattle.type_data.specs.Seen.{type_of};

    ghost view = { λ t. type_of t.node };

    ghost use Rattle.type_data.specs.Types.{size as type_size};

    ghost size = { type_size };

    ghost use Rattle.std.proofs.Common.{arith};

    ghost size_decreases = { λ a h. Prim.grind (arith) };
}

impl Model for Params {
    ghost use Rattle.type_data.specs.Codes.{params_code};
    ghost use Rattle.type_data.specs.Types.{Parameters};
    ghost use Rattle.std.specs.Coded.{codes};

    ghost Value = { Parameters };

    ghost coded = { params_code (Prim.hlevel codes) };

    ghost use Rattle.type_data.specs.Seen.{params_of};

    ghost view = { λ p. params_of p.list };

    ghost use Rattle.type_data.specs.Types.{params_size};

    ghost size = { params_size };

    ghost use Rattle.std.proofs.Common.{arith};

    ghost size_decreases = { λ a h. Prim.grind (arith) };
}
