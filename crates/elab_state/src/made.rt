// What a judgement changes.
ghost use Rattle.std.specs.Prelude.{◌≡◌, IfOk};
ghost use Rattle.elab_state.specs.Doings as spec;

use crate::grown::Grown;
use crate::kinds::or_file;
use scope_tables::{Binding, Entity, Occ, ScopeKind, Scopes};
use shared_list::Listing;
use shared_text::Name;
use std::alloc::{AllocError, Global};
use type_data::{Fault, TagId, Tags};

/// What a judgement of a part of an item has made so far. Tokens are named by their numbers in the item, those of faults by the numbers of
/// trees.
#[derive(Drop)]
pub struct Made {
    /// The scopes of the part, the outermost of which it was begun with.
    pub names: Scopes,
    /// What is known of tags: those that the item declares, and those of earlier items that were asked for.
    pub tags: Tags,
    /// What it declares in its outermost scope, each time that a name is bound there.
    pub declared: Grown<Binding>,
    /// What it declares, in every scope.
    pub entities: Grown<Entity>,
    pub occs: Grown<Occ>,
    /// In the order in which they were found. Their tokens are numbered as trees number them.
    pub faults: Grown<Fault>,
    /// The names of entities with internal linkage, as often as they are used where that counts.
    pub used: Grown<Name>,
    /// The tags whose bodies stand round the place that is judged, the innermost last (6.7.2.1, 6.7.2.2).
    pub round: Grown<TagId>,
    /// What the scope of the parameter list next to the name that a function definition declares has bound (6.9.1); none before such a
    /// list.
    pub params: Option<Listing<Binding>>,
}

impl Made {
    /// Nothing yet, in a scope of this kind, where so much is known of tags.
    pub fn begin(alloc: Global, kind: ScopeKind, tags: Tags) -> Result<Made, AllocError>
        ensures { IfOk result (λ made. made ≡ spec.begun kind tags) }
    {
        let mut names = Scopes::new(alloc);
        names.enter(kind)?;
        Ok(Made {
            names,
            tags,
            declared: Grown::new(alloc),
            entities: Grown::new(alloc),
            occs: Grown::new(alloc),
            faults: Grown::new(alloc),
            used: Grown::new(alloc),
            round: Grown::new(alloc),
            params: None,
        })
    }

    /// The kind of the innermost scope; a file's where none is entered.
    pub fn kind(&self) -> ScopeKind
        ensures { result ≡ spec.scope_kind self.now }
    {
        or_file(self.names.kind())
    }
}
