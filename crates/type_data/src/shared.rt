// Members that all copies of what is known of a tag share.
ghost use Rattle.std.specs.Prelude.{◌≡◌, IfOk};
ghost use Rattle.std.specs.Cmp;
ghost use Rattle.std.specs.Cmp.Lexicographic.{pointwise, lists_equiv};
ghost use Rattle.type_data.specs.contracts.members.MemberEq.TheImpl.Laws.{laws-law};
ghost use Rattle.type_data.specs.contracts.members.MemberPartialEq.TheImpl as members;

use crate::members::Member;
use std::alloc::{AllocError, Global};
use std::marker::Model;
use std::rc::Rc;

/// The members of a structure or union, or the enumerators of an enumeration, in order. A copy shares them. Contracts see the
/// list.
#[derive(Drop)]
pub struct Members {
    items: Rc<Vec<Member>>,
}

impl Model for Members {
    ghost use Rattle.std.specs.Prelude.{List};
    ghost use Rattle.std.specs.Coded.{codes};
    ghost use Rattle.type_data.specs.contracts.types.CType as types;
    ghost use Rattle.type_data.specs.declared.members.Member.{Member};

    ghost Value = { List Member };

    ghost coded = { Prim.hlevel (codes, types.the_row.coded) };

    ghost view = { λ ms. ms.items.value.items };
}

impl Members {
    /// These members. It fails for want of memory alone.
    pub fn from_vec(alloc: Global, items: Vec<Member>) -> Result<Members, AllocError>
        ensures { IfOk result (λ ms. ms ≡ items.items) }
    {
        let items = Rc::new(alloc, items)?;
        Ok(Members { items })
    }

    /// The members.
    pub fn as_slice(&self) -> &[Member]
        ensures { result.now ≡ self.now }
    {
        &self.items
    }

    /// The same members, shared. It takes no memory but may be refused where they are shared 2^64 times.
    pub fn share(&self) -> Result<Members, AllocError>
        ensures { IfOk result (λ copy. copy ≡ self.now) }
    {
        let items = self.items.clone()?;
        Ok(Members { items })
    }
}

impl PartialEq for Members {
    ghost eq = { λ x y. pointwise members.eq-value.it x y };

    ghost laws = { Cmp.partial_equiv_from_equiv (lists_equiv laws-law) };

    fn eq(&self, other: &Self) -> bool {
        self.as_slice() == other.as_slice()
    }
}

impl Eq for Members {
    ghost laws = { lists_equiv laws-law };
}
