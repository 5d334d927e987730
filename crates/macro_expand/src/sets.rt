// Hide sets by their numbers. Each set is kept once, and what is made of two is remembered.
ghost use Rattle.std.specs.Prelude.{◌≡◌, ℕ, List, [], ◌∷◌, nat_eq, IfOk, IfSome, OnOk};
ghost use Rattle.std.specs.Cmp;
ghost use Rattle.std.specs.Cmp.Lexicographic.{pointwise, lists_equiv, nat_list_eq_equiv, bytes_decides, pointwise_decides};
ghost use Rattle.std.specs.Hash as fed;
ghost use Rattle.std.proofs.Common.{ap};
ghost use Rattle.macro_expand.specs.HideSets as sets;
ghost use Rattle.macro_expand.specs.Ties.Codes.{coded, Names as NameLists};
ghost use Rattle.macro_expand.specs.Ties.Stands.{Stands, Grows, joined};
ghost use Rattle.macro_expand.specs.Ties.Joins.{IsJoin};

use crate::hide::HideSet;
use crate::names::{How, alone, made_of};
use indexmap::{IndexMap, IndexSet};
use shared_text::Name;
use std::alloc::{AllocError, Global};
use std::hash::{Hash, Hasher};
use std::marker::Model;

#[derive(Drop)]
pub(crate) struct Names {
    items: Vec<Name>,
}

impl Model for Names {
    ghost use Rattle.std.specs.Prelude.{List, ℕ};

    ghost Value = { List (List ℕ) };

    ghost view = { λ n. n.items.items };
}

impl Names {
    fn from_vec(items: Vec<Name>) -> Names
        ensures { result ≡ items.items }
    {
        Names { items }
    }

    fn as_slice(&self) -> &[Name]
        ensures { result.now ≡ self.now }
    {
        self.items.as_slice()
    }
}

impl PartialEq for Names {
    ghost eq = { pointwise (pointwise nat_eq) };

    ghost laws = { Cmp.partial_equiv_from_equiv (lists_equiv nat_list_eq_equiv) };

    fn eq(&self, other: &Self) -> bool {
        self.items.eq(&other.items)
    }
}

impl Eq for Names {
    ghost laws = { lists_equiv nat_list_eq_equiv };
}

impl Hash for Names {
    ghost hash_input = { fed.slice fed.str };

    ghost respects_eq = { λ x y h. ap (fed.slice fed.str) ((pointwise_decides bytes_decides x y).0 h) };

    fn hash<H: Hasher>(&self, state: &mut H) {
        self.items.hash(state)
    }
}

// The sets; the number of a set is its index.
#[derive(Drop)]
pub(crate) struct Table {
    sets: IndexSet<Names>,
}

impl Model for Table {
    ghost use Rattle.std.specs.Prelude.{List, ℕ};

    ghost Value = { List (List (List ℕ)) };

    ghost view = { λ t. t.sets.keys };
}

impl Table {
    fn new(alloc: Global) -> Table
        ensures { result ≡ [] }
    {
        Table {
            sets: IndexSet::new(alloc),
        }
    }

    // The names of a set.
    fn names(&self, number: Option<usize>) -> Result<&[Name], AllocError>
        ensures { IfOk result (λ names. (f : NameLists → NameLists) → Stands f self.now → f (coded number) ≡ names.now) }
    {
        let Some(number) = number else {
            return Ok(&[]);
        };
        match self.sets.get_index(number) {
            Some(names) => Ok(names.as_slice()),
            // Each number is one of the table, which no contract says.
            None => Err(AllocError),
        }
    }

    // The set of these names.
    fn set(&mut self, names: Vec<Name>) -> Result<HideSet, AllocError>
        ensures grows { Grows self.old self.new }
        ensures value { IfOk result (λ set. (f : NameLists → NameLists) → Stands f self.new → f set ≡ names.items) }
    {
        if names.is_empty() {
            return Ok(HideSet::empty());
        }
        let (number, _) = self.sets.insert_full(Names::from_vec(names))?;
        Ok(HideSet::numbered(number))
    }
}

// How a set is made of two, and the numbers of these.
#[derive(Clone, Copy, PartialEq, Eq, Hash, Drop)]
pub(crate) struct Join {
    how: How,
    left: Option<usize>,
    right: Option<usize>,
}

impl Join {
    fn of(how: How, left: &HideSet, right: &HideSet) -> Join
        ensures how { result.how ≡ how }
        ensures left { coded result.left ≡ left.now }
        ensures right { coded result.right ≡ right.now }
    {
        Join {
            how,
            left: left.number(),
            right: right.number(),
        }
    }
}

// The sets, and which of them were made of two.
#[derive(Drop)]
pub(crate) struct Sets {
    table: Table,
    joins: IndexMap<Join, HideSet>,
}

impl Model for Sets {
    ghost use Rattle.std.specs.Prelude.{List, ℕ};
    ghost use Rattle.std.specs.List.{All};
    ghost use Rattle.macro_expand.specs.Ties.Joins.{IsJoin};

    ghost Value = { List (List (List ℕ)) };

    ghost view = { λ s. s.table };

    ghost invariant = { λ s. All (λ e. IsJoin s.table e.0 e.1) s.joins.entries };
}

impl Sets {
    pub(crate) fn new(alloc: Global) -> Sets
        ensures { result ≡ [] }
    {
        Sets {
            table: Table::new(alloc),
            joins: IndexMap::new(alloc),
        }
    }

    fn known(&self, join: &Join) -> Option<HideSet>
        ensures { IfSome result (IsJoin self.now join.now) }
    {
        match self.joins.get(join) {
            Some(made) => Some(made.copy()),
            None => None,
        }
    }

    fn made(&self, alloc: Global, join: &Join) -> Result<Vec<Name>, AllocError>
        ensures { IfOk result (λ v. (f : NameLists → NameLists) → Stands f self.now
            → v.items ≡ joined join.now.how (f (coded join.now.left)) (f (coded join.now.right))) }
    {
        let names = self.table.names(join.left)?;
        let more = self.table.names(join.right)?;
        let made = made_of(alloc, join.how, names, more)?;
        Ok(made)
    }

    fn set(&mut self, names: Vec<Name>) -> Result<HideSet, AllocError>
        ensures grows { Grows self.old self.new }
        ensures value { IfOk result (λ set. (f : NameLists → NameLists) → Stands f self.new → f set ≡ names.items) }
    {
        self.table.set(names)
    }

    fn remember(&mut self, join: Join, made: HideSet) -> Result<(), AllocError>
        requires { IsJoin self.old join made }
        ensures { self.new ≡ self.old }
    {
        self.joins.insert(join, made)?;
        Ok(())
    }

    // What is made of two sets.
    fn join(
        &mut self,
        alloc: Global,
        how: How,
        left: &HideSet,
        right: &HideSet,
    ) -> Result<HideSet, AllocError>
        ensures grows { OnOk result (Grows self.old self.new) }
        ensures value { IfOk result (λ set. (f : NameLists → NameLists) → Stands f self.new
            → f set ≡ joined how (f left.now) (f right.now)) }
    {
        let join = Join::of(how, left, right);
        if let Some(set) = self.known(&join) {
            return Ok(set);
        }
        let names = self.made(alloc, &join)?;
        let made = self.set(names)?;
        self.remember(join, made.copy())?;
        Ok(made)
    }

    // The union.
    pub(crate) fn united(
        &mut self,
        alloc: Global,
        set: &HideSet,
        more: &HideSet,
    ) -> Result<HideSet, AllocError>
        ensures grows { OnOk result (Grows self.old self.new) }
        ensures value { IfOk result (λ r. (f : NameLists → NameLists) → Stands f self.new
            → f r ≡ sets.united (f set.now) (f more.now)) }
    {
        if set.is_empty() {
            return Ok(more.copy());
        }
        let both = self.join(alloc, How::United, set, more)?;
        Ok(both)
    }

    // The intersection.
    pub(crate) fn common(
        &mut self,
        alloc: Global,
        set: &HideSet,
        others: &HideSet,
    ) -> Result<HideSet, AllocError>
        ensures grows { OnOk result (Grows self.old self.new) }
        ensures value { IfOk result (λ r. (f : NameLists → NameLists) → Stands f self.new
            → f r ≡ sets.common (f set.now) (f others.now)) }
    {
        if set.is_empty() {
            return Ok(HideSet::empty());
        }
        let both = self.join(alloc, How::Common, set, others)?;
        Ok(both)
    }

    fn only(&mut self, alloc: Global, name: &Name) -> Result<HideSet, AllocError>
        ensures grows { Grows self.old self.new }
        ensures value { IfOk result (λ r. (f : NameLists → NameLists) → Stands f self.new → f r ≡ name.now ∷ []) }
    {
        let names = alone(alloc, name)?;
        let one = self.set(names)?;
        Ok(one)
    }

    // The set with one name more.
    pub(crate) fn with(
        &mut self,
        alloc: Global,
        set: &HideSet,
        name: &Name,
    ) -> Result<HideSet, AllocError>
        ensures grows { OnOk result (Grows self.old self.new) }
        ensures value { IfOk result (λ r. (f : NameLists → NameLists) → Stands f self.new
            → f r ≡ name.now ∷ f set.now) }
    {
        let one = self.only(alloc, name)?;
        let all = self.join(alloc, How::Added, &one, set)?;
        Ok(all)
    }

    // A name is in the set.
    pub(crate) fn hides(
        &mut self,
        alloc: Global,
        set: &HideSet,
        name: &Name,
    ) -> Result<bool, AllocError>
        ensures grows { OnOk result (Grows self.old self.new) }
        ensures value { IfOk result (λ r. (f : NameLists → NameLists) → Stands f self.new
            → r ≡ sets.hides (f set.now) name.now) }
    {
        if set.is_empty() {
            return Ok(false);
        }
        let one = self.only(alloc, name)?;
        let both = self.join(alloc, How::Common, &one, set)?;
        let names = self.table.names(both.number())?;
        Ok(!names.is_empty())
    }
}
