// A way along the occurrences of one key.
ghost use Rattle.std.specs.Prelude.{◌≡◌, option_map};
ghost use Rattle.unit_index.specs.Chains as spec;
ghost use Rattle.unit_index.specs.Walks.{after, IsOnTheWay};

use crate::chains::{By, next_alike};
use crate::places::Places;
use scope_tables::Occ;
use std::marker::Model;

/// The occurrences of a key from a place on. Contracts see their list.
#[derive(Drop)]
pub(crate) struct Walk<'a> {
    by: By,
    occs: &'a [Occ],
    places: &'a Places,
    at: Option<usize>,
}

impl<'a> Model for Walk<'a> {
    ghost use Rattle.std.specs.Prelude.{List};
    ghost use Rattle.scope_tables.specs.declared.entities.Occ.{Occ};
    ghost use Rattle.unit_index.specs.Chains.{left};
    ghost use Rattle.unit_index.specs.Walks.{IsOnTheWay};

    ghost Value = { List Occ };

    ghost view = { λ w. left w.by w.occs.now w.at };

    ghost invariant = { λ w. IsOnTheWay w.by w.occs.now w.places.now w.at };
}

impl<'a> Walk<'a> {
    /// The occurrences from this place on of the key that the one there has.
    pub(crate) fn new(by: By, occs: &'a [Occ], places: &'a Places, at: Option<usize>) -> Walk<'a>
        requires { IsOnTheWay by occs.now places.now at }
        ensures { result ≡ spec.left by occs.now at }
    {
        Walk {
            by,
            occs,
            places,
            at,
        }
    }

    /// The next one, and goes on.
    pub(crate) fn step(&mut self) -> Option<&'a Occ>
        ensures { self.old ≡ after (option_map (λ o. o.now) result) self.new }
    {
        let Some(at) = self.at else {
            return None;
        };
        let occ = &self.occs[at];
        self.at = next_alike(self.by, self.places, self.occs, occ, at);
        Some(occ)
    }
}
