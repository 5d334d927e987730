// A list that grows at its end.
ghost use Rattle.std.specs.Prelude.{◌≡◌, ◌∷◌, [], ◌++◌, OnOk};

use std::alloc::{AllocError, Global};
use std::marker::Model;

/// Elements, in the order in which they came. Contracts see their list.
#[derive(Drop)]
pub(crate) struct Grown<T> {
    items: Vec<T>,
}

impl<T> Model for Grown<T> {
    ghost use Rattle.std.specs.Prelude.{List};

    ghost Value = { List T };

    ghost view = { λ l. l.items.items };
}

impl<T: Drop> Grown<T> {
    pub(crate) fn new(alloc: Global) -> Grown<T>
        ensures { result ≡ [] }
    {
        Grown {
            items: Vec::new(alloc),
        }
    }

    pub(crate) fn push(&mut self, item: T) -> Result<(), AllocError>
        ensures { OnOk result (self.new ≡ self.old ++ item ∷ []) }
    {
        self.items.push(item).map_err(AllocError::from)?;
        Ok(())
    }

    pub(crate) fn as_slice(&self) -> &[T]
        ensures { result.now ≡ self.now }
    {
        &self.items
    }

    pub(crate) fn into_vec(self) -> Vec<T>
        ensures { result.items ≡ self }
    {
        self.items
    }
}
