// A list that is read from its front.
ghost use Rattle.std.specs.Prelude.{◌≡◌};

use crate::types::{Marked, MarkedList};
use std::collections::VecDeque;
use std::marker::Model;

#[derive(Drop)]
pub(crate) struct Queue {
    items: VecDeque<Marked>,
}

impl Model for Queue {
    ghost use Rattle.std.specs.Prelude.{List};
    ghost use Rattle.macro_expand.specs.declared.types.Marked.{Marked};

    ghost Value = { List Marked };

    ghost view = { λ q. q.items.items };
}

impl Queue {
    pub(crate) fn from_list(list: MarkedList) -> Queue
        ensures { result ≡ list }
    {
        Queue {
            items: VecDeque::from_vec(list.into_vec()),
        }
    }

    pub(crate) fn from_items(items: VecDeque<Marked>) -> Queue
        ensures { result ≡ items.items }
    {
        Queue { items }
    }

    pub(crate) fn into_items(self) -> VecDeque<Marked>
        ensures { result.items ≡ self }
    {
        self.items
    }
}
