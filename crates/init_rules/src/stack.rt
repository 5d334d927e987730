// A stack, which contracts see from its top.
ghost use Rattle.std.specs.Prelude.{◌≡◌, [], ◌∷◌, OnOk, MatchOption, option_map};
ghost use Rattle.init_rules.specs.Stacks as spec;

use std::alloc::{AllocError, Global};
use std::marker::Model;

/// Values that were put on one another. Contracts see them in order, the last one first.
#[derive(Drop)]
pub struct Stack<T> {
    items: Vec<T>,
}

impl<T> Model for Stack<T> {
    ghost use Rattle.std.specs.Prelude.{List, reverse};

    ghost Value = { List T };

    ghost view = { λ s. reverse s.items.items };
}

impl<T: Drop> Stack<T> {
    /// An empty one. It takes no memory.
    pub fn new(alloc: Global) -> Stack<T>
        ensures { result ≡ [] }
    {
        Stack {
            items: Vec::new(alloc),
        }
    }

    /// Puts a value on top.
    pub fn push(&mut self, value: T) -> Result<(), AllocError>
        ensures { OnOk result (self.new ≡ value ∷ self.old) }
    {
        self.items.push(value)?;
        Ok(())
    }

    /// Takes the value on top away.
    pub fn pop(&mut self) -> Option<T>
        ensures { MatchOption result ((self.old ≡ []) × (self.new ≡ [])) (λ value. self.old ≡ value ∷ self.new) }
    {
        self.items.pop()
    }

    /// The value on top, which was put on it last.
    pub fn top(&self) -> Option<&T>
        ensures { option_map (λ value. value.now) result ≡ spec.top self.now }
    {
        match self.items.as_slice().split_last() {
            Some((value, _)) => Some(value),
            None => None,
        }
    }

    /// The value at the bottom, which was put on it first.
    pub fn bottom(&self) -> Option<&T>
        ensures { option_map (λ value. value.now) result ≡ spec.bottom self.now }
    {
        match self.items.as_slice().split_first() {
            Some((value, _)) => Some(value),
            None => None,
        }
    }
}
