// Entities of an item that the units which have the item share.
ghost use Rattle.std.specs.Prelude.{◌≡◌, ◌<◌, [], drop, length, IfOk};
ghost use Rattle.scope_tables.specs.Shared as spec;

use crate::entities::{Anchor, Entity};
use std::alloc::{AllocError, Global};
use std::marker::Model;
use std::rc::Rc;

/// The entities that an item declares, in order. A copy shares them. Contracts see the list.
#[derive(Drop)]
pub struct Entities {
    // `None` for none, which takes no memory.
    items: Option<Rc<Vec<Entity>>>,
}

impl Model for Entities {
    ghost use Rattle.std.specs.Prelude.{List, option_map};
    ghost use Rattle.std.specs.Coded.{codes};
    ghost use Rattle.type_data.specs.contracts.types.CType as types;
    ghost use Rattle.scope_tables.specs.Shared.{or_none};
    ghost use Rattle.scope_tables.specs.declared.entities.Entity.{Entity};

    ghost Value = { List Entity };

    ghost coded = { Prim.hlevel (codes, types.the_row.coded) };

    ghost view = { λ es. or_none (option_map (λ items. items.value.items) es.items) };
}

impl Entities {
    /// None. It takes no memory.
    pub fn none() -> Entities
        ensures { result ≡ [] }
    {
        Entities { items: None }
    }

    /// These entities. It fails for want of memory alone.
    pub fn from_vec(alloc: Global, items: Vec<Entity>) -> Result<Entities, AllocError>
        ensures { IfOk result (λ es. es ≡ items.items) }
    {
        let items = Rc::new(alloc, items)?;
        Ok(Entities { items: Some(items) })
    }

    /// The entities.
    pub fn as_slice(&self) -> &[Entity]
        ensures { result.now ≡ self.now }
    {
        match &self.items {
            Some(items) => items.as_slice(),
            None => &[],
        }
    }

    /// The same entities, shared. It takes no memory but may be refused where they are shared 2^64 times.
    fn share(&self) -> Result<Entities, AllocError>
        ensures { IfOk result (λ copy. copy ≡ self.now) }
    {
        match &self.items {
            Some(items) => {
                let items = items.clone()?;
                Ok(Entities { items: Some(items) })
            }
            None => Ok(Entities { items: None }),
        }
    }

    /// The entity at a place under another anchor; what is said of it is shared. It takes no memory but may be refused where it is shared 2^64 times.
    pub fn anchored(&self, at: usize, anchor: Anchor) -> Result<UnitEntity, AllocError>
        requires { at < length self.now }
        ensures { IfOk result (λ e. e ≡ spec.first_as anchor (drop at self.now)) }
    {
        let Ok(items) = self.share() else {
            drop(anchor);
            return Err(AllocError);
        };
        Ok(UnitEntity { items, at, anchor })
    }
}

/// What a name denotes in a unit: an entity of an item, with its own anchor. Contracts see the entity.
#[derive(Drop)]
pub struct UnitEntity {
    items: Entities,
    at: usize,
    anchor: Anchor,
}

impl Model for UnitEntity {
    ghost use Rattle.std.specs.Prelude.{◌<◌, drop, length};
    ghost use Rattle.std.specs.Coded.{codes};
    ghost use Rattle.type_data.specs.contracts.types.CType as types;
    ghost use Rattle.scope_tables.specs.Shared.{first_as};
    ghost use Rattle.scope_tables.specs.declared.entities.Entity.{Entity};

    ghost Value = { Entity };

    ghost coded = { Prim.hlevel (codes, types.the_row.coded) };

    ghost view = { λ e. first_as e.anchor (drop e.at e.items) };

    ghost invariant = { λ e. e.at < length e.items };
}

impl UnitEntity {
    /// By what its occurrences in the unit are told.
    pub fn anchor(&self) -> &Anchor
        ensures { result.now ≡ self.now.anchor }
    {
        &self.anchor
    }

    /// All else that is known of it: the entity as its item declares it, whose anchor is the item's.
    pub fn declared(&self) -> &Entity
        ensures { spec.anchored result.now self.now.anchor ≡ self.now }
    {
        match self.items.as_slice().get(self.at) {
            Some(entity) => entity,
            None => unreachable!(),
        }
    }
}
