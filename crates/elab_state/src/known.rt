// What is known of the names in front of an item.
ghost use Rattle.std.specs.Prelude.{◌≡◌, [], None, Some, OnOk, OnErr, option_map};
ghost use Rattle.elab_state.specs.Same.{same_wanted};
ghost use Rattle.elab_state.specs.Wants.{answered};
ghost use Rattle.indexmap.specs.IndexMap.{insert_entry};

use crate::wants::Wanted;
use indexmap::IndexMap;
use scope_tables::Entity;
use std::alloc::{AllocError, Global};
use std::marker::Model;

// An answer. Contracts see what it says.
#[derive(Drop)]
struct Answer {
    entity: Option<Entity>,
}

impl Model for Answer {
    ghost use Rattle.std.specs.Prelude.{Option};
    ghost use Rattle.std.specs.Coded.{codes};
    ghost use Rattle.type_data.specs.contracts.types.CType as types;
    ghost use Rattle.scope_tables.specs.declared.entities.Entity.{Entity};

    ghost Value = { Option Entity };

    ghost coded = { Prim.hlevel (codes, types.the_row.coded) };

    ghost view = { λ a. a.entity };
}

/// Questions with the answer to each: an entity, or that there is none. All others have no answer, or the one that there is none. Contracts
/// see the list, in the order in which they were put in, and the answer to all others.
#[derive(Drop)]
pub struct Known {
    map: IndexMap<Wanted, Answer>,
    others: Option<Answer>,
}

impl Model for Known {
    ghost use Rattle.std.specs.Coded.{codes};
    ghost use Rattle.type_data.specs.contracts.types.CType as types;
    ghost use Rattle.elab_state.specs.Wants.{Told};

    ghost Value = { Told };

    ghost coded = { Prim.hlevel (codes, types.the_row.coded) };

    ghost view = { λ k. record { entries = k.map.entries; others = k.others } };
}

impl Known {
    /// Nothing is known.
    pub fn new(alloc: Global) -> Known
        ensures { result ≡ record { entries = []; others = None } }
    {
        Known {
            map: IndexMap::new(alloc),
            others: None,
        }
    }

    /// All is known: what no answer is put in for has none.
    pub fn whole(alloc: Global) -> Known
        ensures { result ≡ record { entries = []; others = Some None } }
    {
        Known {
            map: IndexMap::new(alloc),
            others: Some(Answer { entity: None }),
        }
    }

    /// The answer to a question from now on.
    pub fn insert(&mut self, wanted: Wanted, answer: Option<Entity>) -> Result<(), AllocError>
        ensures entries { OnOk result (self.new.entries ≡ insert_entry same_wanted self.old.entries wanted answer) }
        ensures others { self.new.others ≡ self.old.others }
        ensures unchanged { OnErr result (self.new ≡ self.old) }
    {
        self.map.insert(wanted, Answer { entity: answer })?;
        Ok(())
    }

    /// The answer to a question; none where it isn't known. It is looked up, not searched for.
    pub fn get(&self, wanted: &Wanted) -> Option<&Option<Entity>>
        ensures { option_map (λ a. a.now) result ≡ answered self.now wanted.now }
    {
        match self.map.get(wanted) {
            Some(answer) => Some(&answer.entity),
            None => self.other(),
        }
    }

    fn other(&self) -> Option<&Option<Entity>>
        ensures { option_map (λ a. a.now) result ≡ self.now.others }
    {
        match &self.others {
            Some(answer) => Some(&answer.entity),
            None => None,
        }
    }
}
