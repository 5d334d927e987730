// The items of a unit, with what they say of each name.
use scope_tables::{BodyMeaning, Entity, HeadMeaning};
use shared_text::Name;
use std::collections::{HashMap, HashSet};
use std::marker::Model;
use type_data::TagId;

mod answers;

/// The items of a unit, of which each question on a name is answered at a constant cost. Contracts see the items.
#[derive(Drop)]
pub(crate) struct Index<'a> {
    heads: &'a [HeadMeaning],
    bodies: &'a [BodyMeaning],
    defined: HashSet<Name>,
    tentative: HashSet<Name>,
    given: HashSet<Name>,
    used: HashSet<Name>,
    external: HashSet<Name>,
    at_end: HashMap<Name, &'a Entity>,
    complete: HashSet<TagId>,
}

impl<'a> Model for Index<'a> {
    ghost use Rattle.std.specs.Coded.{codes};
    ghost use Rattle.type_data.specs.contracts.types.CType as types;
    ghost use Rattle.unit_ends.specs.Items.{Items};

    ghost Value = { Items };

    ghost coded = { Prim.hlevel (codes, types.the_row.coded) };

    ghost use Rattle.unit_ends.specs.Kept.{at, has, has_tag, IsKept};

    ghost view = { λ i. record { heads = i.heads.now; bodies = i.bodies.now } };

    ghost invariant = { λ i. IsKept (record { heads = i.heads.now; bodies = i.bodies.now }) (has i.defined) (has i.tentative) (has i.given) (has i.used) (has i.external) (at i.at_end) (has_tag i.complete) };
}
