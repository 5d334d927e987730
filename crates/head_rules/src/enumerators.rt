// The enumerators of a list (ISO C11 6.7.2.2).
use std::marker::Model;
use type_data::{Member, Value};

mod adding;

/// What was read of a list of enumerators. Contracts see the value of the next one that states none, and the members so far.
#[derive(Drop)]
pub struct Enumerators {
    value: Value,
    list: Vec<Member>,
}

impl Model for Enumerators {
    ghost use Rattle.std.specs.Coded.{codes};
    ghost use Rattle.type_data.specs.contracts.types.CType as types;
    ghost use Rattle.head_rules.specs.Enumerators.{Listed};

    ghost Value = { Listed };

    ghost coded = { Prim.hlevel (codes, types.the_row.coded) };

    ghost view = { λ e. record { next = e.value; members = e.list.items } };
}
