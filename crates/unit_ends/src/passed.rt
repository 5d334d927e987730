// What a walk over the statements of a unit has passed.
ghost use Rattle.std.specs.Prelude.{◌≡◌, ℕ, List, [], ◌∷◌, ◌++◌, OnOk};
ghost use Rattle.scope_tables.specs.declared.meanings.HeadMeaning.{HeadMeaning};
ghost use Rattle.scope_tables.specs.declared.meanings.Stated.{Stated as Statement};
ghost use Rattle.unit_ends.specs.Ends as spec;
ghost use Rattle.unit_ends.specs.Passed.{HasPassed};

use crate::asked::Asked;
use crate::names::{has, no_names, note_stated};
use scope_tables::Stated;
use shared_text::Name;
use std::alloc::{AllocError, Global};
use std::collections::HashSet;

/// The names that were stated, and those that were defined.
#[derive(Drop)]
pub(crate) struct Passed {
    stated: HashSet<Name>,
    defined: HashSet<Name>,
}

impl Passed {
    pub(crate) fn new(alloc: Global) -> Passed
        ensures { HasPassed [] [] result }
    {
        Passed {
            stated: no_names(alloc),
            defined: no_names(alloc),
        }
    }

    pub(crate) fn has_stated(&self, name: &Name) -> bool
        ensures { (front : List HeadMeaning) (before : List Statement) → HasPassed front before self.now → result ≡ spec.stated_before spec.any name.now front before }
    {
        has(&self.stated, name)
    }

    pub(crate) fn has_defined(&self, name: &Name) -> bool
        ensures { (front : List HeadMeaning) (before : List Statement) → HasPassed front before self.now → result ≡ spec.stated_before spec.defines name.now front before }
    {
        has(&self.defined, name)
    }

    /// One statement more.
    pub(crate) fn pass(&mut self, stated: &Stated) -> Result<(), AllocError>
        ensures { OnOk result ((front : List HeadMeaning) (before : List Statement) → HasPassed front before self.old → HasPassed front (before ++ stated.now ∷ []) self.new) }
    {
        note_stated(&mut self.stated, Asked::Stated, stated)?;
        note_stated(&mut self.defined, Asked::Defined, stated)
    }
}
