// Members of structures and unions, and what stands among them (ISO C11 6.7.2.1): declarators with a name (6.7.6) and static assertions
// (6.7.10), as heads have them too.
ghost use Rattle.std.specs.Prelude.{◌≡◌, true, false, not, Bool, ℕ, ◌+◌, ◌<◌, ◌≤◌, length, Some, IfOk, IfErr};
ghost use Rattle.tree_data.specs.Seen.{assertion_of, declarator_of, field_of, fields_of, group_of, member_of, members_of, pointers_of};
ghost use Rattle.tree_data.specs.Trees as tree;
ghost use Rattle.tree_data.specs.Trees.{Declaring, Fields, Grouping, No_members, No_fields};
ghost use Rattle.c_parser.specs.declared.kinds.Kind.TheVariants.{Assert, Colon, Semicolon};
ghost use Rattle.c_parser.specs.Declarators.{name_of, name_in};
ghost use Rattle.c_parser.specs.HeadsFound.{FoundAssertion, FoundDeclarator, FoundDirect};
ghost use Rattle.c_parser.specs.Kinds as spec;
ghost use Rattle.c_parser.specs.MembersFound.{FoundTag, FoundMembers, FailsMembers, FoundMember, FailsMember, FoundField, ends_field, FoundFields, FoundList, FailsList};
ghost use Rattle.c_parser.specs.Reading.{HoldsAssertion, HoldsDeclarator, HoldsDirect, HoldsField, HoldFields, MustGive};

use crate::answers::Stop;
use crate::declarators::{derivings, pointers};
use crate::expressions::{CONDITIONAL, level, pieces};
use crate::kinds::{Kind, Site, kind_at};
use crate::room::push;
use crate::scope::Kinds;
use crate::type_names::specifiers;
use std::alloc::Global;
use tree_data::{Assertion, Declarator, Field, Group, Member, Pointer, Specs};

// Whether a declarator's name stands here; behind specifiers without a type specifier it is no typedef name.
fn names_it(kinds: &Kinds<'_>, at: u32, plain: bool) -> bool
    ensures { result ≡ spec.names_it plain (spec.kind_at kinds.now at) }
{
    if plain {
        return kind_at(kinds, at).is_identifier();
    }
    kind_at(kinds, at).is_word()
}

// Whether it still is so behind these pointers.
fn plain_behind(plain: bool, pointers: &[Pointer]) -> bool
    ensures { result ≡ spec.plain_behind plain (pointers_of pointers.now) }
{
    let Some(_) = pointers.first() else {
        return plain;
    };
    false
}

// The name of a declarator, or a declarator in parentheses, and the name that stands in it.
#[cycle(parser)]
fn direct(alloc: Global, kinds: &Kinds<'_>, at: u32, plain: bool) -> Result<(Group, u32, u32), Stop>
    requires size { length kinds.now ≤ 2000000 }
    requires inside { at ≤ length kinds.now }
    ensures found { IfOk result (λ r. FoundDirect kinds.now plain at (group_of r.0) r.2) }
    ensures told { IfOk result (λ r. name_in (group_of r.0) ≡ Some r.1) }
    ensures only { (g : Grouping) → (m : ℕ) → HoldsDirect kinds.now plain g at m
        → MustGive result (λ r. (group_of r.0 ≡ g) × (r.2 ≡ m)) }
{
    if names_it(kinds, at, plain) {
        return Ok((Group::named(at), at, at + 1));
    }
    let Kind::OpenParen = kind_at(kinds, at) else {
        return Err(Stop::Syntax(at));
    };
    let (inner, name, closing) = match declared(alloc, kinds, at + 1, false) {
        Ok(found) => found,
        Err(stop) => return Err(stop),
    };
    let Kind::CloseParen = kind_at(kinds, closing) else {
        drop(inner);
        return Err(Stop::Syntax(closing));
    };
    match Group::of(alloc, at, inner, closing) {
        Ok(group) => Ok((group, name, closing + 1)),
        Err(_) => Err(Stop::NoMemory),
    }
}

// A declarator with a name, and the name.
#[cycle(parser)]
pub(crate) fn declared(
    alloc: Global,
    kinds: &Kinds<'_>,
    at: u32,
    plain: bool,
) -> Result<(Declarator, u32, u32), Stop>
    requires size { length kinds.now ≤ 2000000 }
    requires inside { at ≤ length kinds.now }
    ensures found { IfOk result (λ r. FoundDeclarator kinds.now plain at (declarator_of r.0) r.2) }
    ensures told { IfOk result (λ r. name_of (declarator_of r.0) ≡ Some r.1) }
    ensures only { (d : Declaring) → (end : ℕ) → HoldsDeclarator kinds.now plain d at end
        → spec.ends_type (spec.kind_at kinds.now end) ≡ true
        → MustGive result (λ r. (declarator_of r.0 ≡ d) × (r.2 ≡ end)) }
{
    let (pointers, place) = match pointers(alloc, kinds, at) {
        Ok(found) => found,
        Err(stop) => return Err(stop),
    };
    let which = plain_behind(plain, pointers.as_slice());
    let (group, name, next) = match direct(alloc, kinds, place, which) {
        Ok(found) => found,
        Err(stop) => return Err(stop),
    };
    match derivings(alloc, kinds, next, true) {
        Ok((derivings, end)) => Ok((Declarator::new(pointers, group, derivings), name, end)),
        Err(stop) => {
            drop(group);
            Err(stop)
        }
    }
}

// A static assertion.
#[cycle(parser)]
pub(crate) fn assertion(alloc: Global, kinds: &Kinds<'_>, at: u32) -> Result<(Assertion, u32), Stop>
    requires size { length kinds.now ≤ 2000000 }
    requires inside { at < length kinds.now }
    requires kind { spec.kind_at kinds.now at ≡ Assert }
    ensures found { IfOk result (λ r. FoundAssertion kinds.now at (assertion_of r.0) r.1) }
    ensures only { (x : tree.Assertion) → (end : ℕ) → HoldsAssertion kinds.now x at end
        → MustGive result (λ r. (assertion_of r.0 ≡ x) × (r.1 ≡ end)) }
{
    let Kind::OpenParen = kind_at(kinds, at + 1) else {
        return Err(Stop::Syntax(at + 1));
    };
    let (condition, comma) = match level(alloc, kinds, CONDITIONAL, at + 2) {
        Ok(found) => found,
        Err(stop) => return Err(stop),
    };
    let Kind::Comma = kind_at(kinds, comma) else {
        drop(condition);
        return Err(Stop::Syntax(comma));
    };
    let (text, closing) = match pieces(alloc, kinds, comma + 1) {
        Ok(found) => found,
        Err(stop) => {
            drop(condition);
            return Err(stop);
        }
    };
    if closing <= comma + 1 {
        drop(condition);
        return Err(Stop::Syntax(closing));
    }
    let Kind::CloseParen = kind_at(kinds, closing) else {
        drop(condition);
        return Err(Stop::Syntax(closing));
    };
    let Kind::Semicolon = kind_at(kinds, closing + 1) else {
        drop(condition);
        return Err(Stop::Syntax(closing + 1));
    };
    Ok((
        Assertion::new(at, at + 1, condition, comma, text, closing, closing + 1),
        closing + 2,
    ))
}

// A declarator among members, with a width or without, or a width alone.
#[cycle(parser)]
fn field(alloc: Global, kinds: &Kinds<'_>, at: u32, plain: bool) -> Result<(Field, u32), Stop>
    requires size { length kinds.now ≤ 2000000 }
    requires inside { at ≤ length kinds.now }
    ensures found { IfOk result (λ r. FoundField kinds.now plain at (field_of r.0) r.1) }
    ensures only { (f : tree.Field) → (end : ℕ) → HoldsField kinds.now plain f at end
        → ends_field (spec.kind_at kinds.now end) ≡ true
        → MustGive result (λ r. (field_of r.0 ≡ f) × (r.1 ≡ end)) }
{
    if let Kind::Colon = kind_at(kinds, at) {
        return padding(alloc, kinds, at, plain);
    }
    let (declarator, _, place) = match declared(alloc, kinds, at, plain) {
        Ok(found) => found,
        Err(stop) => return Err(stop),
    };
    let Kind::Colon = kind_at(kinds, place) else {
        return Ok((Field::declared(declarator), place));
    };
    match level(alloc, kinds, CONDITIONAL, place + 1) {
        Ok((width, end)) => Ok((Field::bits(declarator, place, width), end)),
        Err(stop) => {
            drop(declarator);
            Err(stop)
        }
    }
}

// `:` and a width.
#[cycle(parser)]
fn padding(alloc: Global, kinds: &Kinds<'_>, at: u32, plain: bool) -> Result<(Field, u32), Stop>
    requires size { length kinds.now ≤ 2000000 }
    requires inside { at < length kinds.now }
    requires kind { spec.kind_at kinds.now at ≡ Colon }
    ensures found { IfOk result (λ r. FoundField kinds.now plain at (field_of r.0) r.1) }
    ensures only { (f : tree.Field) → (end : ℕ) → HoldsField kinds.now plain f at end
        → ends_field (spec.kind_at kinds.now end) ≡ true
        → MustGive result (λ r. (field_of r.0 ≡ f) × (r.1 ≡ end)) }
{
    match level(alloc, kinds, CONDITIONAL, at + 1) {
        Ok((width, end)) => Ok((Field::padding(at, width), end)),
        Err(stop) => Err(stop),
    }
}

// All further declarators that stand here, each with the comma in front of it.
#[cycle(parser)]
fn more_fields(alloc: Global, kinds: &Kinds<'_>, at: u32) -> Result<(Vec<(u32, Field)>, u32), Stop>
    requires size { length kinds.now ≤ 2000000 }
    requires inside { at ≤ length kinds.now }
    ensures found { IfOk result (λ r. FoundFields kinds.now at (tree.fields (fields_of r.0.items) No_fields) r.1) }
    ensures only { (fs : Fields) → (end : ℕ) → HoldFields kinds.now fs at end → spec.kind_at kinds.now end ≡ Semicolon
        → MustGive result (λ r. (tree.fields (fields_of r.0.items) No_fields ≡ fs) × (r.1 ≡ end)) }
{
    let mut more = Vec::new(alloc);
    let mut end = at;
    'fields: loop {
        let Kind::Comma = kind_at(kinds, end) else {
            return Ok((more, end));
        };
        let (one, next) = match field(alloc, kinds, end + 1, false) {
            Ok(found) => found,
            Err(stop) => return Err(stop),
        };
        let Ok(()) = push(&mut more, (end, one)) else {
            return Err(Stop::NoMemory);
        };
        end = next;
    }
}

// The declarators of members up to the `;`, behind these specifiers.
#[cycle(parser)]
fn fields(
    alloc: Global,
    kinds: &Kinds<'_>,
    at: u32,
    plain: bool,
) -> Result<(Field, Vec<(u32, Field)>, u32), Stop>
    requires size { length kinds.now ≤ 2000000 }
    requires inside { at ≤ length kinds.now }
    ensures found { IfOk result (λ r. FoundList kinds.now plain at (field_of r.0) (tree.fields (fields_of r.1.items) No_fields) r.2) }
    ensures fails { IfErr result (λ e. FailsList kinds.now plain at e) }
{
    let (first, place) = match field(alloc, kinds, at, plain) {
        Ok(found) => found,
        Err(stop) => return Err(stop),
    };
    let (more, end) = match more_fields(alloc, kinds, place) {
        Ok(found) => found,
        Err(stop) => {
            drop(first);
            return Err(stop);
        }
    };
    let Kind::Semicolon = kind_at(kinds, end) else {
        drop(first);
        return Err(Stop::Syntax(end));
    };
    Ok((first, more, end))
}

// Specifiers, and the members that are declared behind them.
#[cycle(parser)]
fn specified_member(alloc: Global, kinds: &Kinds<'_>, at: u32) -> Result<(Member, u32), Stop>
    requires size { length kinds.now ≤ 2000000 }
    requires inside { at ≤ length kinds.now }
    requires other { spec.kind_at kinds.now at ≡ Assert → ⊥ }
    ensures found { IfOk result (λ r. FoundMember kinds.now at (member_of r.0) r.1) }
    ensures fails { IfErr result (λ e. FailsMember kinds.now at e) }
{
    let (specifiers, typed, behind) = match specifiers(alloc, kinds, at, Site::OfMember) {
        Ok(found) => found,
        Err(stop) => return Err(stop),
    };
    if specifiers.as_slice().is_empty() {
        return Err(Stop::Syntax(behind));
    }
    if let Kind::Semicolon = kind_at(kinds, behind) {
        return Ok((Member::bare(Specs::new(specifiers), behind), behind + 1));
    }
    match fields(alloc, kinds, behind, !typed) {
        Ok((first, more, end)) => Ok((
            Member::fields(Specs::new(specifiers), first, more, end),
            end + 1,
        )),
        Err(stop) => Err(stop),
    }
}

// A declaration of members, or a static assertion among them.
#[cycle(parser)]
fn member(alloc: Global, kinds: &Kinds<'_>, at: u32) -> Result<(Member, u32), Stop>
    requires size { length kinds.now ≤ 2000000 }
    requires inside { at ≤ length kinds.now }
    ensures found { IfOk result (λ r. FoundMember kinds.now at (member_of r.0) r.1) }
    ensures fails { IfErr result (λ e. FailsMember kinds.now at e) }
{
    let Kind::Assert = kind_at(kinds, at) else {
        return specified_member(alloc, kinds, at);
    };
    match assertion(alloc, kinds, at) {
        Ok((assertion, end)) => Ok((Member::asserted(assertion), end)),
        Err(stop) => Err(stop),
    }
}

// All members up to the `}`, at least one.
#[cycle(parser)]
pub(crate) fn members(alloc: Global, kinds: &Kinds<'_>, at: u32) -> Result<(Vec<Member>, u32), Stop>
    requires size { length kinds.now ≤ 2000000 }
    requires inside { at ≤ length kinds.now }
    ensures found { IfOk result (λ r. FoundMembers kinds.now at (tree.members (members_of r.0.items) No_members) r.1) }
    ensures fails { IfErr result (λ e. FailsMembers kinds.now at e) }
{
    let mut members = Vec::new(alloc);
    let mut end = at;
    'members: loop {
        let (one, next) = match member(alloc, kinds, end) {
            Ok(found) => found,
            Err(stop) => return Err(stop),
        };
        let Ok(()) = push(&mut members, one) else {
            return Err(Stop::NoMemory);
        };
        if let Kind::CloseBrace = kind_at(kinds, next) {
            return Ok((members, next));
        }
        end = next;
    }
}

// A tag, or none, in front of the `{` of members or enumerators, and the place of the `{`.
pub(crate) fn tag_before(kinds: &Kinds<'_>, at: u32) -> (Option<u32>, u32)
    requires size { length kinds.now ≤ 2000000 }
    requires inside { at ≤ length kinds.now }
    requires braces { spec.braces_at kinds.now at ≡ true }
    ensures { FoundTag kinds.now at result.0 result.1 }
{
    if kind_at(kinds, at).is_word() {
        return (Some(at), at + 1);
    }
    (None, at)
}
