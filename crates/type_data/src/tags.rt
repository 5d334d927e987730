// What is known of the tags of a unit (ISO C11 6.2.3, 6.7.2.3).
use crate::members::TagInfo;
use crate::names::TagId;
use indexmap::IndexMap;
use std::marker::Model;

mod alike;
mod entries;

/// Tags with what is known of each, in the order in which they were put in. Contracts see the list; each id is there once.
#[derive(Drop)]
pub struct Tags {
    map: IndexMap<TagId, TagInfo>,
}

impl Model for Tags {
    ghost use Rattle.std.specs.Prelude.{List};
    ghost use Rattle.type_data.specs.declared.members.TagInfo.{TagInfo};
    ghost use Rattle.type_data.specs.declared.names.TagId.{TagId};
    ghost use Rattle.std.specs.Coded.{codes};
    ghost use Rattle.type_data.specs.contracts.types.CType as types;

    ghost Value = { List (TagId × TagInfo) };

    ghost coded = { Prim.hlevel (codes, types.the_row.coded) };

    ghost view = { λ t. t.map.entries };
}
