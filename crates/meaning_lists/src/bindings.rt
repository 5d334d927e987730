// What names denote at the end of a scope (ISO C11 6.2.1).
ghost use Rattle.std.specs.Prelude.{◌≡◌, OnOk, IfOk};
ghost use Rattle.std.specs.List.{list_any};
ghost use Rattle.meaning_lists.specs.Bindings as spec;

use crate::order::FEW;
use indexmap::IndexMap;
use scope_tables::{Binding, Entity};
use shared_text::Name;
use std::alloc::{AllocError, Global};
use std::marker::Model;
use type_data::Space;

// A name in a name space.
#[derive(PartialEq, Eq, Hash, Drop)]
struct Key {
    space: Space,
    name: Name,
}

// What each name denotes. Contracts see the list, in the order of the first bindings.
#[derive(Drop)]
struct Ends {
    map: IndexMap<Key, Entity>,
}

impl Model for Ends {
    ghost use Rattle.std.specs.Prelude.{List};
    ghost use Rattle.std.specs.Coded.{codes};
    ghost use Rattle.type_data.specs.contracts.types.CType as types;
    ghost use Rattle.scope_tables.specs.declared.entities.Entity.{Entity};
    ghost use Rattle.meaning_lists.specs.declared.bindings.Key.{Key};

    ghost Value = { List (Key × Entity) };

    ghost coded = { Prim.hlevel (codes, types.the_row.coded) };

    ghost view = { λ e. e.map.entries };
}

impl Ends {
    fn new(alloc: Global) -> Ends
        ensures { result ≡ spec.none_ended }
    {
        Ends {
            map: IndexMap::new(alloc),
        }
    }

    fn put(&mut self, binding: Binding) -> Result<(), AllocError>
        ensures { OnOk result (self.new ≡ spec.with_binding self.old binding) }
    {
        let key = Key {
            space: binding.space,
            name: binding.name,
        };
        self.map.insert(key, binding.entity)?;
        Ok(())
    }
}

fn ended(alloc: Global, bindings: Vec<Binding>) -> Result<Ends, AllocError>
    ensures { IfOk result (λ ends. ends ≡ spec.with_all spec.none_ended bindings.items) }
{
    let mut ends = Ends::new(alloc);
    'bindings: for binding in bindings {
        ends.put(binding)?;
    }
    Ok(ends)
}

fn binding_of(pair: (Key, Entity)) -> Binding
    ensures { result ≡ spec.binding_of pair }
{
    let (key, entity) = pair;
    Binding {
        space: key.space,
        name: key.name,
        entity,
    }
}

fn have_same_key(a: &Binding, b: &Binding) -> bool
    ensures { result ≡ spec.same_key (spec.key_of a.now) (spec.key_of b.now) }
{
    a.space == b.space && a.name == b.name
}

fn has_key(bindings: &[Binding], one: &Binding) -> bool
    ensures { result ≡ list_any (λ b. spec.same_key (spec.key_of b) (spec.key_of one.now)) bindings.now }
{
    bindings.iter().any(|binding| have_same_key(binding, one))
}

// No name comes twice.
fn are_apart(bindings: &[Binding]) -> bool
    ensures { result ≡ spec.are_apart bindings.now }
{
    let mut rest = bindings;
    'bindings: while let Some((binding, others)) = rest.split_first() {
        if has_key(others, binding) {
            return false;
        }
        rest = others;
    }
    true
}

// The last binding of each name, in the order of the first ones. (Most lists are short and have no name twice.)
pub(crate) fn last_bindings(
    alloc: Global,
    bindings: Vec<Binding>,
) -> Result<Vec<Binding>, AllocError>
    ensures { IfOk result (λ v. v.items ≡ spec.last_bindings bindings.items) }
{
    if bindings.len() <= FEW && are_apart(bindings.as_slice()) {
        return Ok(bindings);
    }
    let ends = ended(alloc, bindings)?;
    let mut out = Vec::with_capacity(alloc, ends.map.len())?;
    'ends: for pair in ends.map {
        out.push(binding_of(pair))?;
    }
    Ok(out)
}
