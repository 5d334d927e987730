// What was read of a unit, from call to call.
ghost use Rattle.std.specs.Prelude.{◌≡◌, None, Some, OnOk, OnErr};

use crate::stack::Reading;
use std::alloc::{AllocError, Global};
use std::marker::Model;
use std::mem;

// In a box: it is large, and what holds a unit lets it go at each of its ends.
#[derive(Drop)]
pub(crate) struct Kept {
    reading: Option<Box<Reading>>,
}

impl Model for Kept {
    ghost use Rattle.std.specs.Prelude.{Option, option_map};
    ghost use Rattle.include_units.specs.declared.stack.Reading.{Reading};

    ghost Value = { Option Reading };

    ghost use Rattle.std.specs.Coded.{codes};
    ghost use Rattle.include_units.specs.contracts.stack.Reading as held;

    ghost coded = { Prim.hlevel (codes, held.the_row.coded) };

    ghost view = { λ kept. option_map (λ reading. reading.value) kept.reading };
}

impl Kept {
    pub(crate) fn nothing() -> Kept
        ensures { result ≡ None }
    {
        Kept { reading: None }
    }

    pub(crate) fn take(&mut self) -> Option<Reading>
        ensures taken { result ≡ self.old }
        ensures left { self.new ≡ None }
    {
        match mem::replace(&mut self.reading, None) {
            Some(reading) => Some(Box::into_inner(reading)),
            None => None,
        }
    }

    pub(crate) fn keep(&mut self, alloc: Global, reading: Reading) -> Result<(), AllocError>
        ensures kept { OnOk result (self.new ≡ Some reading) }
        ensures same { OnErr result (self.new ≡ self.old) }
    {
        let reading = Box::new(alloc, reading)?;
        self.reading = Some(reading);
        Ok(())
    }
}
