// What is asked for (ISO C11 6.2.1, 6.2.3), and how an elaboration ends.
ghost use Rattle.std.specs.Prelude.{◌≡◌, IfOk};
ghost use Rattle.elab_state.specs.Wants as spec;

use crate::sharing::share_space;
use shared_list::Listing;
use shared_text::Name;
use std::alloc::{AllocError, Global};
use type_data::{Space, TagId};

/// What a name denotes in front of an item, in a name space. What is known of the members, size and alignment of a tag is asked for
/// under the empty name of its own name space.
#[derive(Debug, PartialEq, Eq, Hash, Drop)]
pub struct Wanted {
    pub space: Space,
    pub name: Name,
}

/// How an elaboration ends.
#[derive(Drop)]
pub enum Elab<T> {
    /// It wants the answers to these questions, at least one, none of which it was told.
    Need(Listing<Wanted>),
    Done(T),
}

impl Wanted {
    /// The same question, whose texts are shared. It takes no memory, but may be refused where one is shared 2^64 times.
    pub fn share(&self) -> Result<Wanted, AllocError>
        ensures { IfOk result (λ copy. copy ≡ self.now) }
    {
        let space = share_space(&self.space)?;
        let name = self.name.share()?;
        Ok(Wanted { space, name })
    }

    /// What is known of a tag.
    pub fn of_members(alloc: Global, id: &TagId) -> Result<Wanted, AllocError>
        ensures { IfOk result (λ one. one ≡ spec.members_of id.now) }
    {
        let id = id.share()?;
        let name = Name::from_str(alloc, "")?;
        Ok(Wanted {
            space: Space::Members(id),
            name,
        })
    }
}
