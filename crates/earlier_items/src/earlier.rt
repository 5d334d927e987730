// The items in front of an item.
ghost use Rattle.std.specs.Prelude.{◌≡◌, [], ◌∷◌, ◌++◌, List, Some, OnOk, option_map};
ghost use Rattle.earlier_items.specs.Before.{AreBefore, said};
ghost use Rattle.elab_state.specs.Wants.{answered};
ghost use Rattle.elab_state.specs.declared.wants.Wanted.{Wanted as Question};
ghost use Rattle.scope_tables.specs.declared.meanings.HeadMeaning.{HeadMeaning as Head};

use crate::adding::{no_tags, note_head, note_members, nothing, said_of};
use elab_state::{Known, Wanted};
use scope_tables::{Entity, HeadMeaning};
use std::alloc::{AllocError, Global};
use std::marker::Model;

/// What the items that were added, in their order, declare at file scope. What is asked of them is looked up at a constant cost. Contracts
/// see the answers.
#[derive(Drop)]
pub struct Earlier {
    known: Known,
    // What is said of tags, and nothing else.
    tags: Known,
}

impl Model for Earlier {
    ghost use Rattle.std.specs.Coded.{codes};
    ghost use Rattle.type_data.specs.contracts.types.CType as types;
    ghost use Rattle.std.specs.Prelude.{◌≡◌, None, Some};
    ghost use Rattle.earlier_items.specs.Before.{Tells};

    ghost Value = { Tells };

    ghost coded = { Prim.hlevel (codes, types.the_row.coded) };

    ghost view = { λ e. record { known = e.known; tags = e.tags } };

    ghost invariant = { λ e. e.known.others ≡ Some None };
}

impl Earlier {
    /// No item was added.
    pub fn new(alloc: Global) -> Earlier
        ensures { AreBefore [] result }
    {
        Earlier {
            known: nothing(alloc),
            tags: no_tags(alloc),
        }
    }

    /// An item more, with this head. Its cost is linear in what the head declares. It fails for want of memory alone, and isn't used
    /// again then.
    pub fn add(&mut self, alloc: Global, head: &HeadMeaning) -> Result<(), AllocError>
        ensures { OnOk result ((front : List Head) → AreBefore front self.old → AreBefore (front ++ head.now ∷ []) self.new) }
    {
        note_head(alloc, &mut self.known, head)?;
        note_members(alloc, &mut self.tags, head)?;
        Ok(())
    }

    /// What a name denotes behind these items; for a tag's own name space under the empty name, the tag as they leave it.
    pub fn get(&self, wanted: &Wanted) -> Option<&Entity>
        ensures { option_map (λ e. e.now) result ≡ said self.now.known wanted.now }
    {
        said_of(&self.known, wanted)
    }

    /// All that they declare, as answers: each question has one.
    #[tactic(auto, using(crate::proofs::Inserted::all_said))]
    pub fn known(&self) -> &Known
        ensures known { result.now ≡ self.now.known }
        ensures whole { (q : Question) → answered result.now q ≡ Some (said self.now.known q) }
    {
        &self.known
    }

    /// What they leave of the tags that they declare, as answers to what is asked of tags: nothing else has an answer.
    pub fn tags(&self) -> &Known
        ensures { result.now ≡ self.now.tags }
    {
        &self.tags
    }
}
