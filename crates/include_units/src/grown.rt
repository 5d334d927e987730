// A list that grows at its end.
ghost use Rattle.std.specs.Prelude.{◌≡◌, [], ◌++◌, ◌∷◌, IfOk, OnOk, length};

use std::alloc::{AllocError, Global};
use std::marker::Model;

// Contracts see its elements.
#[derive(Debug, Drop)]
pub(crate) struct Grown<T> {
    items: Vec<T>,
}

impl<T> Model for Grown<T> {
    ghost use Rattle.std.specs.Prelude.{List};

    ghost Value = { List T };

    ghost view = { λ g. g.items.items };
}

impl<T: Drop> Grown<T> {
    pub(crate) fn new(alloc: Global) -> Grown<T>
        ensures { result ≡ [] }
    {
        Grown {
            items: Vec::new(alloc),
        }
    }

    /// With room for so many elements.
    pub(crate) fn with_capacity(alloc: Global, capacity: usize) -> Result<Grown<T>, AllocError>
        ensures { IfOk result (λ g. g ≡ []) }
    {
        let items = Vec::with_capacity(alloc, capacity)?;
        Ok(Grown { items })
    }

    pub(crate) fn push(&mut self, item: T) -> Result<(), AllocError>
        ensures { OnOk result (self.new ≡ self.old ++ item ∷ []) }
    {
        self.items.push(item)?;
        Ok(())
    }

    pub(crate) fn extend(&mut self, more: Vec<T>) -> Result<(), AllocError>
        ensures { OnOk result (self.new ≡ self.old ++ more.items) }
    {
        let mut more = more;
        self.items.append(&mut more)?;
        Ok(())
    }

    pub(crate) fn as_slice(&self) -> &[T]
        ensures { result.now ≡ self.now }
    {
        &self.items
    }

    pub(crate) fn into_vec(self) -> Vec<T>
        ensures { result.items ≡ self }
    {
        self.items
    }
}
