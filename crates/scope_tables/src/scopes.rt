// The scopes at a place of a unit (ISO C11 6.2.1).
use crate::entities::ScopeKind;
use crate::table::Table;
use std::alloc::Global;
use std::marker::Model;

mod calls;

// Where the bindings of a scope begin.
#[derive(Clone, Copy, Drop)]
struct Mark {
    kind: ScopeKind,
    start: usize,
}

/// The scopes that are entered: one table of bindings, with a mark for each scope. Contracts see a list of scopes, innermost
/// first, in each of which a name is bound once in each name space.
#[derive(Drop)]
pub struct Scopes {
    table: Table,
    marks: Vec<Mark>,
}

impl Model for Scopes {
    ghost use Rattle.std.specs.Prelude.{List, reverse};
    ghost use Rattle.std.specs.Coded.{codes};
    ghost use Rattle.type_data.specs.contracts.types.CType as types;
    ghost use Rattle.scope_tables.specs.Levels.{Scope};

    ghost Value = { List Scope };

    ghost coded = { Prim.hlevel (codes, types.the_row.coded) };

    ghost use Rattle.scope_tables.specs.Marks.{cut_at, AreMarks};

    ghost view = { λ s. cut_at (reverse s.marks.items) s.table };

    ghost invariant = { λ s. AreMarks (reverse s.marks.items) s.table };
}
