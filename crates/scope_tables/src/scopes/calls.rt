// Entering and leaving a scope, declaring and finding a name.
ghost use Rattle.std.specs.Prelude.{◌≡◌, ◌<◌, [], length, option_map, IfOk, OnOk, OnErr};
ghost use Rattle.scope_tables.specs.Scopes as spec;

use super::{Mark, Scopes};
use crate::bindings::Binding;
use crate::entities::{Entity, ScopeKind};
use crate::table::Table;
use shared_text::Name;
use std::alloc::{AllocError, Global};
use type_data::Space;

impl Scopes {
    /// No scope.
    pub fn new(alloc: Global) -> Scopes
        ensures { result ≡ [] }
    {
        Scopes {
            table: Table::new(alloc),
            marks: Vec::new(alloc),
        }
    }

    /// How many scopes are entered.
    pub fn depth(&self) -> usize
        ensures { result ≡ length self.now }
    {
        self.marks.len()
    }

    /// The kind of the innermost scope; none where no scope is entered.
    pub fn kind(&self) -> Option<ScopeKind>
        ensures { result ≡ spec.innermost_kind self.now }
    {
        match self.marks.last() {
            Some(mark) => Some(mark.kind),
            None => None,
        }
    }

    /// A scope within the others. Where memory is refused the scopes are as before.
    pub fn enter(&mut self, kind: ScopeKind) -> Result<(), AllocError>
        ensures entered { OnOk result (self.new ≡ spec.entered kind self.old) }
        ensures unchanged { OnErr result (self.new ≡ self.old) }
    {
        let start = self.table.len();
        self.marks.push(Mark { kind, start })?;
        Ok(())
    }

    /// The innermost scope ends: its names denote what they denoted outside. It takes no memory, and a time that is linear in
    /// the number of names that the scope declares.
    pub fn leave(&mut self)
        requires { 0 < length self.old }
        ensures { self.new ≡ spec.left self.old }
    {
        if let Some(mark) = self.marks.pop() {
            self.table.cut(mark.start);
        }
    }

    /// What a name denotes (6.2.1p4), by one look-up, however many scopes there are. It takes no memory.
    pub fn find(&self, space: &Space, name: &str) -> Option<&Entity>
        ensures { option_map (λ e. e.now) result ≡ spec.found space.now name.now self.now }
    {
        match self.table.newest(space, name) {
            Some(place) => Some(self.table.entity(place)),
            None => None,
        }
    }

    /// What a name denotes in the innermost scope; nothing where no scope is entered. It takes no memory.
    pub fn find_here(&self, space: &Space, name: &str) -> Option<&Entity>
        ensures { option_map (λ e. e.now) result ≡ spec.here space.now name.now self.now }
    {
        let mark = self.marks.last()?;
        match self.table.newest_from(mark.start, space, name) {
            Some(place) => Some(self.table.entity(place)),
            None => None,
        }
    }

    /// What an ordinary name denotes in the innermost scope in which it denotes what has internal or external linkage
    /// (6.2.2p4), whatever hides it. It takes no memory, and a time that is linear in the number of scopes that bind the name.
    pub fn find_linked(&self, name: &str) -> Option<&Entity>
        ensures { option_map (λ e. e.now) result ≡ spec.linked name.now self.now }
    {
        self.table.linked(name)
    }

    /// Binds a name in the innermost scope, and gives what it denoted there before. Where memory is refused the scopes are as
    /// before.
    pub fn declare(
        &mut self,
        space: Space,
        name: Name,
        entity: Entity,
    ) -> Result<Option<Entity>, AllocError>
        requires { 0 < length self.old }
        ensures old { IfOk result (λ old. old ≡ spec.before (record { space = space; name = name; entity = entity }) self.old) }
        ensures declared { OnOk result (self.new ≡ spec.declared_in (record { space = space; name = name; entity = entity }) self.old) }
        ensures unchanged { OnErr result (self.new ≡ self.old) }
    {
        let Some(mark) = self.marks.last() else {
            return Ok(None);
        };
        let here = self.table.newest_from(mark.start, &space, name.as_str());
        if let Some(place) = here {
            return Ok(Some(self.table.replace(place, entity)));
        }
        let binding = Binding {
            space,
            name,
            entity,
        };
        self.table.push(binding)?;
        Ok(None)
    }
}
