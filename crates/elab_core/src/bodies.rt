// Bodies of tags, alignments and static assertions (ISO C11 6.7.2.1, 6.7.2.2, 6.7.5, 6.7.10): members of the cycle.
ghost use Rattle.std.specs.Prelude.{◌≡◌};
ghost use Rattle.elab_core.specs.Expressions as spec;
ghost use Rattle.elab_state.specs.Comes.{Comes, Leads};
ghost use Rattle.elab_state.specs.Seen.{context_of, told_of};
ghost use Rattle.tree_data.specs.Seen as seen;
ghost use Rattle.tree_data.specs.Seen.{tree_of};
ghost use Rattle.tree_data.specs.Trees as trees;

use crate::assertions::assert_judged;
use crate::ends::{first_of, name_of, place_behind, specs_begin};
use crate::enumerating::{count, give};
use crate::expressions::judged;
use crate::fielding::{add_bare, add_bits, add_member};
use crate::listed::{add_alignment, add_alignment_of, add_enumerators, add_members};
use crate::naming::{declarator, specifiers, type_name};
use crate::shapes::{Gathered, Typed};
use crate::specifiers::settled;
use crate::steps::derived;
use crate::tag_bodies::begin_body;
use elab_state::{Around, Halt, Made, Where};
use head_rules::{Enumerators, Fields};
use std::alloc::Global;
use tree_data::{
    Assertion, Declarator, Enumeration, Enumerator, Expr, Field, Member, Specs, TypeName,
};

// `_Alignas ( constant-expression )`.
#[cycle(judging)]
pub(crate) fn aligned(
    alloc: Global,
    around: &Around<'_>,
    place: Where,
    made: &mut Made,
    gathered: &mut Gathered,
    keyword: u32,
    size: &Expr,
) -> Result<(), Halt>
    ensures { Comes (told_of around.now) (spec.specifier (context_of around.now) place (trees.Aligned_of keyword 0 (tree_of size.now) 0) gathered.old made.old) (λ _. gathered.new) result made.new }
{
    let value = match judged(alloc, around, place, made, size) {
        Ok(done) => done,
        Err(halt) => return Err(halt),
    };
    let Ok(()) = add_alignment(alloc, gathered, made, keyword, first_of(size), &value) else {
        drop(value);
        return Err(Halt::NoMemory);
    };
    drop(value);
    Ok(())
}

// `_Alignas ( type-name )`.
#[cycle(judging)]
pub(crate) fn aligned_as(
    alloc: Global,
    around: &Around<'_>,
    place: Where,
    made: &mut Made,
    gathered: &mut Gathered,
    keyword: u32,
    name: &TypeName,
) -> Result<(), Halt>
    ensures { Comes (told_of around.now) (spec.specifier (context_of around.now) place (trees.Aligned_as_of keyword 0 (seen.type_of name.now) 0) gathered.old made.old) (λ _. gathered.new) result made.new }
{
    let typed = match type_name(alloc, around, place, made, name) {
        Ok(done) => done,
        Err(halt) => return Err(halt),
    };
    add_alignment_of(alloc, around, gathered, made, keyword, &typed)
}

// `struct` or `union` with its members.
#[cycle(judging)]
pub(crate) fn structure(
    alloc: Global,
    around: &Around<'_>,
    place: Where,
    made: &mut Made,
    gathered: &mut Gathered,
    keyword: u32,
    tag: Option<u32>,
    list: &Vec<Member>,
) -> Result<(), Halt>
    ensures { Comes (told_of around.now) (spec.specifier (context_of around.now) place (trees.Members_of keyword tag 0 (trees.members (seen.members_of list.now.items) trees.No_members) 0) gathered.old made.old) (λ _. gathered.new) result made.new }
{
    let body = match begin_body(alloc, around, made, keyword, tag) {
        Ok(done) => done,
        Err(halt) => return Err(halt),
    };
    let mut fields = Fields::new(alloc, body.kind);
    match members(alloc, around, place, made, &mut fields, list) {
        Ok(()) => (),
        Err(halt) => {
            drop(fields);
            drop(body);
            return Err(halt);
        }
    }
    let Ok(()) = add_members(alloc, around, gathered, made, &body, fields) else {
        drop(body);
        return Err(Halt::NoMemory);
    };
    drop(body);
    Ok(())
}

#[cycle(judging)]
fn members(
    alloc: Global,
    around: &Around<'_>,
    place: Where,
    made: &mut Made,
    fields: &mut Fields,
    list: &Vec<Member>,
) -> Result<(), Halt>
    ensures { Comes (told_of around.now) (spec.members (context_of around.now) place (trees.members (seen.members_of list.now.items) trees.No_members) fields.old made.old) (λ _. fields.new) result made.new }
{
    'members: for next in list {
        match member(alloc, around, place, made, fields, next) {
            Ok(()) => (),
            Err(halt) => return Err(halt),
        }
    }
    Ok(())
}

/// Specifiers, and the type that they specify.
#[cycle(judging)]
pub(crate) fn based(
    alloc: Global,
    around: &Around<'_>,
    place: Where,
    made: &mut Made,
    specs: &Specs,
) -> Result<(Gathered, Typed), Halt>
    ensures { Comes (told_of around.now) (spec.based (context_of around.now) place (seen.specs_of specs.now) made.old) (λ b. b) result made.new }
{
    let gathered = match specifiers(alloc, around, place, made, specs) {
        Ok(done) => done,
        Err(halt) => return Err(halt),
    };
    let Ok(typed) = settled(alloc, made, specs_begin(specs), &gathered) else {
        drop(gathered);
        return Err(Halt::NoMemory);
    };
    Ok((gathered, typed))
}

#[cycle(judging)]
fn member(
    alloc: Global,
    around: &Around<'_>,
    place: Where,
    made: &mut Made,
    fields: &mut Fields,
    member: &Member,
) -> Result<(), Halt>
    ensures { Comes (told_of around.now) (spec.member (context_of around.now) place (seen.member_of member.now) fields.old made.old) (λ _. fields.new) result made.new }
{
    match member {
        Member::Bare(specs, _) => bare(alloc, around, place, made, fields, specs),
        Member::Fields(specs, first, more, _) => {
            let at = specs_begin(specs);
            let base = match based(alloc, around, place, made, specs) {
                Ok(done) => done,
                Err(halt) => return Err(halt),
            };
            match field(alloc, around, place, made, fields, at, &base, first) {
                Ok(()) => (),
                Err(halt) => {
                    drop(base);
                    return Err(halt);
                }
            }
            let done = other_fields(alloc, around, place, made, fields, at, &base, more);
            drop(base);
            done
        }
        Member::Asserted(assertion) => asserted(alloc, around, place, made, assertion),
    }
}

#[cycle(judging)]
fn bare(
    alloc: Global,
    around: &Around<'_>,
    place: Where,
    made: &mut Made,
    fields: &mut Fields,
    specs: &Specs,
) -> Result<(), Halt>
    ensures { Comes (told_of around.now) (spec.member (context_of around.now) place (trees.Bare_of (seen.specs_of specs.now) 0) fields.old made.old) (λ _. fields.new) result made.new }
{
    let base = match based(alloc, around, place, made, specs) {
        Ok(done) => done,
        Err(halt) => return Err(halt),
    };
    let done = add_bare(
        alloc,
        around,
        made,
        fields,
        &base.0,
        specs_begin(specs),
        &base.1,
    );
    drop(base);
    done
}

#[cycle(judging)]
fn other_fields(
    alloc: Global,
    around: &Around<'_>,
    place: Where,
    made: &mut Made,
    fields: &mut Fields,
    at: u32,
    base: &(Gathered, Typed),
    more: &Vec<(u32, Field)>,
) -> Result<(), Halt>
    ensures { Comes (told_of around.now) (spec.fields (context_of around.now) place at base.now.0 base.now.1 (trees.fields (seen.fields_of more.now.items) trees.No_fields) fields.old made.old) (λ _. fields.new) result made.new }
{
    'fields: for pair in more {
        match field(alloc, around, place, made, fields, at, base, &pair.1) {
            Ok(()) => (),
            Err(halt) => return Err(halt),
        }
    }
    Ok(())
}

/// The type of a declarator that is no parameter's, behind specifiers that begin at the token `at`.
#[cycle(judging)]
pub(crate) fn derived_by(
    alloc: Global,
    around: &Around<'_>,
    place: Where,
    made: &mut Made,
    at: u32,
    typed: &Typed,
    next: &Declarator,
) -> Result<Typed, Halt>
    ensures { Comes (told_of around.now) (spec.derived_by (context_of around.now) place at typed.now (seen.declarator_of next.now) made.old) (λ t. t) result made.new }
{
    let Ok(base) = typed.share() else {
        return Err(Halt::NoMemory);
    };
    let steps = match declarator(alloc, around, place, made, next) {
        Ok(done) => done,
        Err(halt) => {
            drop(base);
            return Err(halt);
        }
    };
    let own = place_behind(at, next);
    derived(alloc, around, made, own, false, steps, base)
}

#[cycle(judging)]
fn field(
    alloc: Global,
    around: &Around<'_>,
    place: Where,
    made: &mut Made,
    fields: &mut Fields,
    at: u32,
    base: &(Gathered, Typed),
    field: &Field,
) -> Result<(), Halt>
    ensures { Comes (told_of around.now) (spec.field (context_of around.now) place at base.now.0 base.now.1 (seen.field_of field.now) fields.old made.old) (λ _. fields.new) result made.new }
{
    match field {
        Field::Declared(inner) => {
            let own = match derived_by(alloc, around, place, made, at, &base.1, inner) {
                Ok(done) => done,
                Err(halt) => return Err(halt),
            };
            let begins = place_behind(at, inner);
            let name = name_of(inner);
            let done = add_member(alloc, around, made, fields, &base.0, begins, name, &own);
            drop(own);
            done
        }
        Field::Bits(inner, _, width) => {
            let own = match derived_by(alloc, around, place, made, at, &base.1, inner) {
                Ok(done) => done,
                Err(halt) => return Err(halt),
            };
            let value = match judged(alloc, around, place, made, width) {
                Ok(done) => done,
                Err(halt) => {
                    drop(own);
                    return Err(halt);
                }
            };
            let begins = place_behind(at, inner);
            let name = name_of(inner);
            let size = first_of(width);
            let done = add_bits(
                alloc, around, made, fields, &base.0, begins, name, &own, size, &value,
            );
            drop(value);
            drop(own);
            done
        }
        Field::Padding(colon, width) => {
            let value = match judged(alloc, around, place, made, width) {
                Ok(done) => done,
                Err(halt) => return Err(halt),
            };
            let size = first_of(width);
            let done = add_bits(
                alloc, around, made, fields, &base.0, *colon, None, &base.1, size, &value,
            );
            drop(value);
            done
        }
    }
}

// `enum` with its enumerators.
#[cycle(judging)]
pub(crate) fn enumeration(
    alloc: Global,
    around: &Around<'_>,
    place: Where,
    made: &mut Made,
    gathered: &mut Gathered,
    list: &Enumeration,
) -> Result<(), Halt>
    ensures { Comes (told_of around.now) (spec.specifier (context_of around.now) place (seen.enumeration_of list.now) gathered.old made.old) (λ _. gathered.new) result made.new }
{
    let body = match begin_body(alloc, around, made, list.keyword, list.tag) {
        Ok(done) => done,
        Err(halt) => return Err(halt),
    };
    let mut rows = Enumerators::new(alloc);
    match enumerator(alloc, around, place, made, &mut rows, &list.first) {
        Ok(()) => (),
        Err(halt) => {
            drop(rows);
            drop(body);
            return Err(halt);
        }
    }
    match enumerators(alloc, around, place, made, &mut rows, &list.more) {
        Ok(()) => (),
        Err(halt) => {
            drop(rows);
            drop(body);
            return Err(halt);
        }
    }
    let Ok(()) = add_enumerators(alloc, gathered, made, &body, rows) else {
        drop(body);
        return Err(Halt::NoMemory);
    };
    drop(body);
    Ok(())
}

#[cycle(judging)]
fn enumerators(
    alloc: Global,
    around: &Around<'_>,
    place: Where,
    made: &mut Made,
    rows: &mut Enumerators,
    more: &Vec<(u32, Enumerator)>,
) -> Result<(), Halt>
    ensures { Comes (told_of around.now) (spec.enumerators (context_of around.now) place (trees.enumerators (seen.enumerators_of more.now.items) trees.No_enumerators) rows.old made.old) (λ _. rows.new) result made.new }
{
    'enumerators: for pair in more {
        match enumerator(alloc, around, place, made, rows, &pair.1) {
            Ok(()) => (),
            Err(halt) => return Err(halt),
        }
    }
    Ok(())
}

#[cycle(judging)]
fn enumerator(
    alloc: Global,
    around: &Around<'_>,
    place: Where,
    made: &mut Made,
    rows: &mut Enumerators,
    one: &Enumerator,
) -> Result<(), Halt>
    ensures { Comes (told_of around.now) (spec.enumerator (context_of around.now) place (seen.enumerator_of one.now) rows.old made.old) (λ _. rows.new) result made.new }
{
    match one {
        Enumerator::Counted(at) => {
            let Ok(()) = count(alloc, around, made, rows, *at) else {
                return Err(Halt::NoMemory);
            };
            Ok(())
        }
        Enumerator::Given(at, _, value) => {
            let own = match judged(alloc, around, place, made, value) {
                Ok(done) => done,
                Err(halt) => return Err(halt),
            };
            let Ok(()) = give(alloc, around, made, rows, *at, first_of(value), &own) else {
                drop(own);
                return Err(Halt::NoMemory);
            };
            drop(own);
            Ok(())
        }
    }
}

/// `_Static_assert ( condition , text ) ;`.
#[cycle(judging)]
pub(crate) fn asserted(
    alloc: Global,
    around: &Around<'_>,
    place: Where,
    made: &mut Made,
    assertion: &Assertion,
) -> Result<(), Halt>
    ensures { Leads (told_of around.now) (spec.assertion (context_of around.now) place (seen.assertion_of assertion.now) made.old) result made.new }
{
    let condition = match judged(alloc, around, place, made, &assertion.condition) {
        Ok(done) => done,
        Err(halt) => return Err(halt),
    };
    let begins = first_of(&assertion.condition);
    let pieces = assertion.text.as_slice();
    let Ok(()) = assert_judged(
        alloc,
        around,
        made,
        assertion.keyword,
        pieces,
        begins,
        &condition,
    ) else {
        drop(condition);
        return Err(Halt::NoMemory);
    };
    drop(condition);
    Ok(())
}
