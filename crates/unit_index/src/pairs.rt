// Pairs of tags of two units.
ghost use Rattle.std.specs.Prelude.{◌≡◌, ◌<◌, ◌^◌, [], slice_get, option_map, IfSome, OnOk};
ghost use Rattle.indexmap.specs.IndexSet.{insert_key};
ghost use Rattle.unit_index.specs.Pairs.{pair, same_pair};

use indexmap::IndexSet;
use std::alloc::{AllocError, Global};
use std::marker::Model;
use type_data::{TagId, TagKind};

/// A tag of one unit, and one of another.
#[derive(Debug, PartialEq, Eq, Hash, Drop)]
pub(crate) struct TagPair {
    /// As which kind of tag one is read of which its unit knows nothing.
    pub(crate) read_as: TagKind,
    pub(crate) left: TagId,
    pub(crate) right: TagId,
}

/// The pairs that a walk has come to, in order, each once. Contracts see the list.
#[derive(Drop)]
pub(crate) struct Pairs {
    pairs: IndexSet<TagPair>,
}

impl Model for Pairs {
    ghost use Rattle.std.specs.Prelude.{List};
    ghost use Rattle.unit_index.specs.declared.pairs.TagPair.{TagPair};

    ghost Value = { List TagPair };

    ghost view = { λ p. p.pairs.keys };
}

impl Pairs {
    pub(crate) fn new(alloc: Global) -> Pairs
        ensures { result ≡ [] }
    {
        Pairs {
            pairs: IndexSet::new(alloc),
        }
    }

    /// Comes to a pair of tags.
    pub(crate) fn note(
        &mut self,
        read_as: TagKind,
        left: &TagId,
        right: &TagId,
    ) -> Result<(), AllocError>
        ensures { OnOk result (self.new ≡ insert_key same_pair self.old (pair read_as left.now right.now)) }
    {
        let left = left.share()?;
        let right = right.share()?;
        self.pairs.insert(TagPair {
            read_as,
            left,
            right,
        })?;
        Ok(())
    }

    /// The pair at a place.
    pub(crate) fn at(&self, place: u64) -> Option<&TagPair>
        ensures pair { option_map (λ p. p.now) result ≡ slice_get self.now place }
        ensures small { IfSome result (λ _. place < 2 ^ 63) }
    {
        self.pairs.as_slice().get(place as usize)
    }
}
