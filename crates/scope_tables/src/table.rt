// All bindings that stand, in the order in which they were made.
ghost use Rattle.std.specs.Prelude.{◌≡◌, ℕ, ◌<◌, ◌≤◌, ◌-◌, ◌++◌, [], ◌∷◌, length, take, option_map, Some, IfSome, IfNone, OnOk, OnErr};
ghost use Rattle.scope_tables.specs.Places.{newest, entity_in, last_linked, with_entity};

use crate::bindings::Binding;
use crate::entities::Entity;
use crate::index::Index;
use std::alloc::{AllocError, Global};
use std::marker::Model;
use std::mem;
use type_data::Space;

/// A binding, and the place of the one that it hides.
#[derive(Drop)]
struct Entry {
    binding: Binding,
    hidden: Option<usize>,
}

/// The bindings that stand; of each name the newest one is found by an index.
#[derive(Drop)]
pub(crate) struct Table {
    entries: Vec<Entry>,
    index: Index,
}

impl Model for Table {
    ghost use Rattle.std.specs.Prelude.{List, map};
    ghost use Rattle.std.specs.Coded.{codes};
    ghost use Rattle.type_data.specs.contracts.types.CType as types;
    ghost use Rattle.scope_tables.specs.declared.bindings.Binding.{Binding};

    ghost Value = { List Binding };

    ghost coded = { Prim.hlevel (codes, types.the_row.coded) };

    ghost use Rattle.scope_tables.specs.Indexed.{IsIndexed, binding_of};

    ghost view = { λ t. map binding_of t.entries.items };

    ghost invariant = { λ t. IsIndexed t.entries.items t.index };
}

impl Table {
    pub(crate) fn new(alloc: Global) -> Table
        ensures { result ≡ [] }
    {
        Table {
            entries: Vec::new(alloc),
            index: Index::new(alloc),
        }
    }

    pub(crate) fn len(&self) -> usize
        ensures { result ≡ length self.now }
    {
        self.entries.len()
    }

    /// The place of the newest binding of a name.
    pub(crate) fn newest(&self, space: &Space, name: &str) -> Option<usize>
        ensures { result ≡ newest space.now name.now self.now }
    {
        self.index.get(space, name)
    }

    /// The same, of the bindings from a place on.
    pub(crate) fn newest_from(&self, start: usize, space: &Space, name: &str) -> Option<usize>
        ensures found { IfSome result (λ i. (newest space.now name.now self.now ≡ Some i) × (start ≤ i)) }
        ensures missing { IfNone result ((i : ℕ) → newest space.now name.now self.now ≡ Some i → i < start) }
    {
        let place = self.newest(space, name)?;
        if place < start {
            return None;
        }
        Some(place)
    }

    pub(crate) fn entity(&self, place: usize) -> &Entity
        requires { place < length self.now }
        ensures { Some result.now ≡ entity_in self.now place }
    {
        &self.entries[place].binding.entity
    }

    /// The entity of the newest binding of an ordinary name that has linkage. It goes through the bindings of that name.
    pub(crate) fn linked(&self, name: &str) -> Option<&Entity>
        ensures { option_map (λ e. e.now) result ≡ last_linked name.now self.now }
    {
        let mut place = self.index.get(&Space::Ordinary, name);
        while let Some(i) = place {
            let entry = &self.entries[i];
            if entry.binding.entity.has_linkage() {
                return Some(&entry.binding.entity);
            }
            place = entry.hidden;
        }
        None
    }

    /// A binding more.
    pub(crate) fn push(&mut self, binding: Binding) -> Result<(), AllocError>
        ensures pushed { OnOk result (self.new ≡ self.old ++ binding ∷ []) }
        ensures unchanged { OnErr result (self.new ≡ self.old) }
    {
        self.entries.reserve(1)?;
        let name = binding.name.as_str();
        let hidden = self.index.get(&binding.space, name);
        self.index.put(&binding.space, name, self.entries.len())?;
        self.entries.push_reserved(Entry { binding, hidden });
        Ok(())
    }

    /// What this place's name denotes is another entity, and the answer is the one before.
    pub(crate) fn replace(&mut self, place: usize, entity: Entity) -> Entity
        requires { place < length self.old }
        ensures before { Some result ≡ entity_in self.old place }
        ensures set { self.new ≡ with_entity self.old place entity }
    {
        mem::replace(&mut self.entries[place].binding.entity, entity)
    }

    /// The newest binding is undone: its name denotes what it denoted before.
    fn pop(&mut self)
        requires { 0 < length self.old }
        ensures { self.new ≡ take (length self.old - 1) self.old }
    {
        if let Some(entry) = self.entries.pop() {
            let Binding { space, name, .. } = &entry.binding;
            self.index.put_back(space, name.as_str(), entry.hidden);
            drop(entry);
        }
    }

    /// The bindings from this place on are undone.
    pub(crate) fn cut(&mut self, place: usize)
        requires { place ≤ length self.old }
        ensures { self.new ≡ take place self.old }
    {
        while self.len() > place {
            self.pop();
        }
    }
}
