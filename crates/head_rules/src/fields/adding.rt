// One member more, and the end of the list.
ghost use Rattle.std.specs.Prelude.{◌≡◌, IfOk, OnOk};
ghost use Rattle.head_rules.specs.Fields as spec;
ghost use Rattle.head_rules.specs.Flexible as ends;

use super::Fields;
use crate::anonymous::names_of_type;
use crate::faults::of_name;
use crate::flexible::{closed, misplaced};
use crate::members::{entity, has_bad_part, is_anonymous, member_of, misaligned, misshaped};
use crate::naming::NameToken;
use crate::outcomes::{ClosedFields, Denotes, Fielded};
use crate::parts::FieldParts;
use indexmap::IndexMap;
use shared_list::Listing;
use shared_text::Name;
use std::alloc::{AllocError, Global};
use type_data::{Fault, Member, TagId, TagKind, Tags};

/// Names, each with the first token that declares it.
type Names = IndexMap<Name, TagId>;

// The names that a member brings.
#[tactic(auto, unfolding(crate::specs::Fields::brought))]
fn brought(alloc: Global, tags: &Tags, parts: &FieldParts) -> Result<Vec<(Name, TagId)>, AllocError>
    ensures { IfOk result (λ ns. ns.items ≡ spec.brought tags.now parts.now) }
{
    match &parts.name {
        Some(token) => {
            let name = token.name.share()?;
            let id = token.id.share()?;
            let names = vec![in alloc; (name, id)]?;
            Ok(names)
        }
        None => {
            if is_anonymous(parts) {
                return names_of_type(alloc, tags, &parts.ty);
            }
            Ok(Vec::new(alloc))
        }
    }
}

fn has(names: &Names, name: &Name) -> bool
    ensures { result ≡ spec.has names.now.entries name.now }
{
    names.contains_key(name)
}

fn declared_twice(
    alloc: Global,
    names: &Names,
    brought: &[(Name, TagId)],
) -> Result<Option<Fault>, AllocError>
    ensures { IfOk result (λ f. f ≡ spec.declared_twice names.now.entries brought.now) }
{
    let mut rest = brought;
    'names: while let Some((named, others)) = rest.split_first() {
        if has(names, &named.0) {
            let fault = of_name(alloc, 402, named.1.at, &named.0)?;
            return Ok(Some(fault));
        }
        rest = others;
    }
    Ok(None)
}

#[tactic(auto, unfolding(crate::specs::Fields::noted))]
fn note(names: &mut Names, name: &Name, id: &TagId) -> Result<(), AllocError>
    ensures { OnOk result (names.new.entries ≡ spec.noted names.old.entries (name.now, id.now)) }
{
    if has(names, name) {
        return Ok(());
    }
    let name = name.share()?;
    let id = id.share()?;
    names.insert(name, id).map_err(AllocError::from)?;
    Ok(())
}

fn note_all(names: &mut Names, brought: &[(Name, TagId)]) -> Result<(), AllocError>
    ensures { OnOk result (names.new.entries ≡ spec.all_noted names.old.entries brought.now) }
{
    let mut rest = brought;
    'names: while let Some((named, others)) = rest.split_first() {
        note(names, &named.0, &named.1)?;
        rest = others;
    }
    Ok(())
}

#[tactic(auto, unfolding(crate::specs::Fields::own_fault))]
fn own_fault(
    alloc: Global,
    kind: TagKind,
    behind: bool,
    tags: &Tags,
    parts: &FieldParts,
) -> Result<Option<Fault>, AllocError>
    ensures { IfOk result (λ f. f ≡ spec.own_fault tags.now parts.now kind behind) }
{
    if let Some(fault) = misshaped(alloc, tags, kind, behind, parts)? {
        return Ok(Some(fault));
    }
    Ok(misaligned(alloc, tags, parts))
}

// What the name of a member denotes.
fn denoted(name: &Option<NameToken>, member: &Member, names: &Names) -> Result<Denotes, AllocError>
    ensures { IfOk result (λ d. d ≡ spec.denoted name.now member.now names.now.entries) }
{
    let Some(token) = name else {
        return Ok(Denotes::Nothing);
    };
    match names.get(&token.name) {
        Some(id) => {
            let id = id.share()?;
            Ok(Denotes::Earlier(id))
        }
        None => {
            let entity = entity(token, member)?;
            Ok(Denotes::Itself(entity))
        }
    }
}

impl Fields {
    /// None yet, of a structure or a union.
    pub fn new(alloc: Global, kind: TagKind) -> Fields
        ensures { result ≡ spec.none_gathered kind }
    {
        Fields {
            holder: kind,
            list: Vec::new(alloc),
            map: IndexMap::new(alloc),
        }
    }

    #[tactic(auto, unfolding(crate::specs::Fields::fault_of))]
    fn fault_of(
        &self,
        alloc: Global,
        tags: &Tags,
        parts: &FieldParts,
        brought: &[(Name, TagId)],
    ) -> Result<Option<Fault>, AllocError>
        ensures { IfOk result (λ f. f ≡ spec.fault_of tags.now parts.now brought.now self.now) }
    {
        if has_bad_part(parts) {
            return Ok(None);
        }
        if let Some(fault) = declared_twice(alloc, &self.map, brought)? {
            return Ok(Some(fault));
        }
        own_fault(alloc, self.holder, !self.map.is_empty(), tags, parts)
    }

    // A member more, with the names that it brings.
    fn push(&mut self, member: Member, brought: &[(Name, TagId)]) -> Result<(), AllocError>
        ensures { OnOk result (self.new ≡ spec.gathered member brought.now self.old) }
    {
        let Ok(()) = note_all(&mut self.map, brought) else {
            drop(member);
            return Err(AllocError);
        };
        self.list.push(member)?;
        Ok(())
    }

    // A member more, which may have a fault: what its name denotes.
    #[tactic(auto, unfolding(crate::specs::Fields::added))]
    fn add_member(
        &mut self,
        parts: &FieldParts,
        brought: &[(Name, TagId)],
        fault: &Option<Fault>,
    ) -> Result<Denotes, AllocError>
        ensures { IfOk result (λ d. (d, self.new) ≡ spec.added parts.now brought.now fault.now self.old) }
    {
        let member = member_of(parts, fault)?;
        let Ok(denotes) = denoted(&parts.name, &member, &self.map) else {
            drop(member);
            return Err(AllocError);
        };
        let Ok(()) = self.push(member, brought) else {
            drop(denotes);
            return Err(AllocError);
        };
        Ok(denotes)
    }

    #[tactic(auto, unfolding(crate::specs::Fields::with_names))]
    fn add_named(
        &mut self,
        alloc: Global,
        tags: &Tags,
        parts: &FieldParts,
        brought: &[(Name, TagId)],
    ) -> Result<Fielded, AllocError>
        ensures { IfOk result (λ r. (r, self.new) ≡ spec.with_names tags.now parts.now brought.now self.old) }
    {
        let fault = self.fault_of(alloc, tags, parts, brought)?;
        let denotes = self.add_member(parts, brought, &fault)?;
        Ok(Fielded { denotes, fault })
    }

    /// One declarator more, or an anonymous structure or union (ISO C11 6.7.2.1).
    ///
    /// Its fault is the one with the lowest number of those that hold: 402 for a name that an earlier member has, the names of anonymous
    /// structures and unions among them (on the token of that name); 408 for a type that no member has (p3, p18); 409 for a
    /// width that no bit-field of the type has (p4, p5, p12), whose type isn't looked at otherwise; 417 for an alignment specifier on a
    /// bit-field or less strict than the type (6.7.5p2, p4). What has a faulty part has none. One that is refused is there with
    /// the type Bad; an anonymous structure or union stays as it is, so that its names are found. `tags` tells what is known
    /// of tags. Its cost is that of the names that it brings, however many there are.
    pub fn add(
        &mut self,
        alloc: Global,
        tags: &Tags,
        parts: &FieldParts,
    ) -> Result<Fielded, AllocError>
        ensures { IfOk result (λ r. (r, self.new) ≡ spec.field tags.now parts.now self.old) }
    {
        let names = brought(alloc, tags, parts)?;
        self.add_named(alloc, tags, parts, names.as_slice())
    }

    /// The end of the list (ISO C11 6.7.2.1p18): an array of no size that isn't the last member has the fault 408, and its type is Bad
    /// from here on. Its cost is linear in the number of members.
    pub fn close(self, alloc: Global) -> Result<ClosedFields, AllocError>
        ensures members { IfOk result (λ c. c.members ≡ ends.closed self.members) }
        ensures faults { IfOk result (λ c. c.faults ≡ ends.faults self.members) }
    {
        let faults = misplaced(alloc, self.list.as_slice())?;
        let members = closed(alloc, self.list.as_slice())?;
        Ok(ClosedFields {
            members: Listing::from_vec(members),
            faults: Listing::from_vec(faults),
        })
    }
}
