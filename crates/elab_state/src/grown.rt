// A list that grows at its end.
ghost use Rattle.std.specs.Prelude.{◌≡◌, [], ◌∷◌, ◌++◌, ◌-◌, length, take, IfOk, OnOk};

use shared_list::Listing;
use std::alloc::{AllocError, Global};
use std::marker::Model;

/// Values, the last one put in at the end. Contracts see the list.
#[derive(Drop)]
pub struct Grown<T> {
    items: Vec<T>,
}

impl<T> Model for Grown<T> {
    ghost use Rattle.std.specs.Prelude.{List};

    ghost Value = { List T };

    ghost view = { λ g. g.items.items };
}

impl<T: Drop> Grown<T> {
    /// An empty one. It takes no memory.
    pub fn new(alloc: Global) -> Grown<T>
        ensures { result ≡ [] }
    {
        Grown {
            items: Vec::new(alloc),
        }
    }

    /// One that has this value.
    pub fn of(alloc: Global, value: T) -> Result<Grown<T>, AllocError>
        ensures { IfOk result (λ g. g ≡ value ∷ []) }
    {
        let mut grown = Grown::new(alloc);
        grown.push(value)?;
        Ok(grown)
    }

    /// Puts a value behind the others.
    pub fn push(&mut self, value: T) -> Result<(), AllocError>
        ensures { OnOk result (self.new ≡ self.old ++ value ∷ []) }
    {
        self.items.push(value)?;
        Ok(())
    }

    /// Drops the last value, where there is one.
    pub fn pop(&mut self)
        ensures { self.new ≡ take (length self.old - 1) self.old }
    {
        self.items.pop();
    }

    /// Its values.
    pub fn as_slice(&self) -> &[T]
        ensures { result.now ≡ self.now }
    {
        &self.items
    }

    /// The list of its values. It takes no memory.
    pub fn into_listing(self) -> Listing<T>
        ensures { result ≡ self }
    {
        Listing::from_vec(self.items)
    }
}
