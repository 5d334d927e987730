// What a unit says of a name or a tag.
ghost use Rattle.std.specs.Prelude.{◌≡◌, option_map, IfOk};
ghost use Rattle.unit_ends.specs.Ends as spec;
ghost use Rattle.unit_ends.specs.Last as ends;

use super::Index;
use crate::last::{has_one, has_tag, known_at_end, last, unsized_extent};
use crate::names::{has, names_given, names_mentioned};
use scope_tables::{BodyMeaning, Entity, HeadMeaning, Linkage};
use shared_text::Name;
use std::alloc::{AllocError, Global};
use type_data::{CType, Node, TagId};

impl<'a> Index<'a> {
    /// The items of a unit. Its cost is linear in what they state, use, declare and make.
    pub(crate) fn new(
        alloc: Global,
        heads: &'a [HeadMeaning],
        bodies: &'a [BodyMeaning],
    ) -> Result<Index<'a>, AllocError>
        ensures { IfOk result (λ index. index ≡ record { heads = heads.now; bodies = bodies.now }) }
    {
        let (at_end, complete) = known_at_end(alloc, heads)?;
        let (used, external) = names_mentioned(alloc, heads, bodies)?;
        let (defined, tentative, given) = names_given(alloc, heads)?;
        Ok(Index {
            heads,
            bodies,
            defined,
            tentative,
            given,
            used,
            external,
            at_end,
            complete,
        })
    }

    /// The heads, in order.
    pub(crate) fn heads(&self) -> &'a [HeadMeaning]
        ensures { result.now ≡ self.now.heads }
    {
        self.heads
    }

    /// An item defines it, tentative definitions left out.
    pub(crate) fn is_defined(&self, name: &Name) -> bool
        ensures { result ≡ spec.stated spec.defines name.now self.now.heads }
    {
        has(&self.defined, name)
    }

    /// An item defines it tentatively.
    pub(crate) fn is_tentatively_defined(&self, name: &Name) -> bool
        ensures { result ≡ spec.stated spec.is_tentative name.now self.now.heads }
    {
        has(&self.tentative, name)
    }

    /// An item defines it, or would.
    pub(crate) fn is_given(&self, name: &Name) -> bool
        ensures { result ≡ spec.stated spec.gives name.now self.now.heads }
    {
        has(&self.given, name)
    }

    /// A head or a body uses it.
    pub(crate) fn is_used(&self, name: &Name) -> bool
        ensures { result ≡ spec.is_used name.now self.now.heads self.now.bodies }
    {
        has(&self.used, name)
    }

    /// A body declares it with external linkage.
    pub(crate) fn is_external_in_a_body(&self, name: &Name) -> bool
        ensures { result ≡ spec.bodies_declare name.now self.now.bodies }
    {
        has(&self.external, name)
    }

    /// What it denotes at the end of the unit.
    pub(crate) fn last(&self, name: &Name) -> Option<&'a Entity>
        ensures { option_map (λ e. e.now) result ≡ ends.last name.now self.now.heads }
    {
        last(&self.at_end, name)
    }

    fn is_complete(&self, id: &TagId) -> bool
        ensures { result ≡ ends.is_complete id.now self.now.heads }
    {
        has_tag(&self.complete, id)
    }

    /// Whether a tentative definition of this type is incomplete at the end (6.9.2p2, p3).
    pub(crate) fn is_incomplete(&self, linkage: Linkage, ty: &CType) -> bool
        ensures { result ≡ ends.is_incomplete linkage self.now.heads ty.now }
    {
        match ty.node() {
            Node::Void => true,
            Node::Array(_, _, extent) => unsized_extent(*extent) && !has_one(linkage),
            Node::Tagged(id) => !self.is_complete(id),
            Node::Basic(_) => false,
            Node::Enumerated(_) => false,
            Node::Pointer(_, _) => false,
            Node::Function(_, _, _) => false,
            Node::Bad => false,
        }
    }
}
