// The members of a structure or union, as far as they were read (ISO C11 6.7.2.1).
use indexmap::IndexMap;
use shared_text::Name;
use std::marker::Model;
use type_data::{Member, TagId, TagKind};

mod adding;

/// What was read of a list of members. Contracts see the members, and their names, those of anonymous structures and unions among them,
/// each with the first token that declares it.
#[derive(Drop)]
pub struct Fields {
    holder: TagKind,
    list: Vec<Member>,
    map: IndexMap<Name, TagId>,
}

impl Model for Fields {
    ghost use Rattle.std.specs.Coded.{codes};
    ghost use Rattle.type_data.specs.contracts.types.CType as types;
    ghost use Rattle.head_rules.specs.Fields.{Gathered};

    ghost Value = { Gathered };

    ghost coded = { Prim.hlevel (codes, types.the_row.coded) };

    ghost view = { λ f. record { kind = f.holder; members = f.list.items; names = f.map.entries } };
}
