// Where in the table the name of a name space stands that is seen (ISO C11 6.2.1p4, 6.2.3).
ghost use Rattle.std.specs.Prelude.{◌≡◌, ◌&&◌, ℕ, List, None, Some, if◌then◌else◌, IfOk, OnOk, OnErr, IsSome};
ghost use Rattle.std.specs.Map.{update};
ghost use Rattle.std.specs.Str.{bytes_eq};
ghost use Rattle.std.specs.HashMap.{get_by_text};
ghost use Rattle.type_data.specs.declared.members.Space.{Space};
ghost use Rattle.scope_tables.specs.Places.{is_key, place_at};

use std::alloc::{AllocError, Global};
use std::collections::HashMap;
use type_data::Space;

/// The places of the names of one name space.
type Places = HashMap<String, usize>;

/// The place of each name that is seen, by its name space.
#[derive(Drop)]
pub(crate) struct Index {
    alloc: Global,
    spaces: HashMap<Space, Places>,
}

fn share(space: &Space) -> Result<Space, AllocError>
    ensures { IfOk result (λ copy. copy ≡ space.now) }
{
    match space {
        Space::Labels => Ok(Space::Labels),
        Space::Tags => Ok(Space::Tags),
        Space::Members(tag) => {
            let tag = tag.share()?;
            Ok(Space::Members(tag))
        }
        Space::Ordinary => Ok(Space::Ordinary),
    }
}

fn put(alloc: Global, places: &mut Places, name: &str, place: usize) -> Result<(), AllocError>
    ensures put { OnOk result ((q : List ℕ) → get_by_text places.new q ≡ update bytes_eq (get_by_text places.old) name.now (Some place) q) }
    ensures kept { OnErr result ((q : List ℕ) → get_by_text places.new q ≡ get_by_text places.old q) }
{
    let name = String::from_str(alloc, name)?;
    places.insert(name, place).map_err(AllocError::from)?;
    Ok(())
}

// The name has this place again, or none.
fn put_back(places: &mut Places, name: &str, place: Option<usize>)
    requires { IsSome place → IsSome (get_by_text places.old name.now) }
    ensures { (q : List ℕ) → get_by_text places.new q ≡ update bytes_eq (get_by_text places.old) name.now place q }
{
    match place {
        Some(outer) => {
            if let Some(kept) = places.get_mut(name) {
                *kept = outer;
            }
        }
        None => {
            places.remove(name);
        }
    }
}

impl Index {
    pub(crate) fn new(alloc: Global) -> Index
        ensures { (s : Space) (q : List ℕ) → place_at result s q ≡ None }
    {
        Index {
            alloc,
            spaces: HashMap::new(alloc),
        }
    }

    pub(crate) fn get(&self, space: &Space, name: &str) -> Option<usize>
        ensures { result ≡ place_at self.now space.now name.now }
    {
        let places = self.spaces.get(space)?;
        places.get(name).copied()
    }

    /// The name stands at this place from now on.
    pub(crate) fn put(&mut self, space: &Space, name: &str, place: usize) -> Result<(), AllocError>
        ensures put { OnOk result ((s : Space) (q : List ℕ) → place_at self.new s q ≡ (if is_key space.now name.now s q then Some place else place_at self.old s q)) }
        ensures kept { OnErr result ((s : Space) (q : List ℕ) → place_at self.new s q ≡ place_at self.old s q) }
    {
        if let Some(places) = self.spaces.get_mut(space) {
            put(self.alloc, places, name, place)?;
            return Ok(());
        }
        let space = share(space)?;
        let mut places = HashMap::new(self.alloc);
        put(self.alloc, &mut places, name, place)?;
        match self.spaces.insert(space, places) {
            Ok(_) => Ok(()),
            Err(failed) => Err(AllocError::from(failed)),
        }
    }

    /// The name stands at this place again, or nowhere.
    pub(crate) fn put_back(&mut self, space: &Space, name: &str, place: Option<usize>)
        requires { IsSome place → IsSome (place_at self.old space.now name.now) }
        ensures { (s : Space) (q : List ℕ) → place_at self.new s q ≡ (if is_key space.now name.now s q then place else place_at self.old s q) }
    {
        if let Some(places) = self.spaces.get_mut(space) {
            put_back(places, name, place);
        }
    }
}
