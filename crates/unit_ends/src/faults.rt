// The faults, name by name.
ghost use Rattle.std.specs.Prelude.{◌≡◌, ◌++◌, ◌∷◌, [], List, IfOk, OnOk};
ghost use Rattle.scope_tables.specs.declared.meanings.HeadMeaning.{HeadMeaning as Head};
ghost use Rattle.scope_tables.specs.declared.meanings.Stated.{Stated as Statement};
ghost use Rattle.unit_ends.specs.Ends as spec;
ghost use Rattle.unit_ends.specs.Last as ends;
ghost use Rattle.unit_ends.specs.Passed.{HasPassed};

use crate::asked;
use crate::index::Index;
use crate::passed::Passed;
use scope_tables::{BodyMeaning, Entity, HeadMeaning, Stated};
use shared_list::Listing;
use shared_text::Name;
use std::alloc::{AllocError, Global};
use type_data::{Fault, ItemName};

fn has_both(index: &Index<'_>, name: &Name, entity: &Entity) -> bool
    ensures { result ≡ spec.has_both name.now index.now.bodies entity.now }
{
    asked::is_internal(entity.linkage) && index.is_external_in_a_body(name)
}

fn is_wanting(index: &Index<'_>, name: &Name, entity: &Entity) -> bool
    ensures { result ≡ spec.is_wanting name.now index.now.heads index.now.bodies entity.now }
{
    asked::is_internal(entity.linkage) && index.is_used(name) && !index.is_given(name)
}

fn is_left_open(index: &Index<'_>, name: &Name, entity: &Entity) -> bool
    ensures { result ≡ spec.is_left_open name.now index.now.heads entity.now }
{
    index.is_tentatively_defined(name)
        && !index.is_defined(name)
        && index.is_incomplete(entity.linkage, &entity.ty)
}

#[tactic(auto, unfolding(crate::specs::Ends::first_rule))]
fn first_rule(index: &Index<'_>, name: &Name, entity: &Entity) -> Option<u16>
    ensures { result ≡ spec.first_rule name.now index.now.heads index.now.bodies entity.now }
{
    if !asked::is_type(&entity.ty) {
        return None;
    }
    if has_both(index, name, entity) {
        return Some(430);
    }
    if is_wanting(index, name, entity) {
        return Some(701);
    }
    if is_left_open(index, name, entity) {
        return Some(703);
    }
    None
}

fn rule_at_first(index: &Index<'_>, name: &Name) -> Option<u16>
    ensures { result ≡ spec.rule_at_first name.now index.now.heads index.now.bodies (ends.last name.now index.now.heads) }
{
    match index.last(name) {
        Some(entity) => first_rule(index, name, entity),
        None => None,
    }
}

// The rule that a name breaks where it is stated, by what stands before it.
fn rule(index: &Index<'_>, passed: &Passed, stated: &Stated) -> Option<u16>
    ensures { (front : List Head) (before : List Statement) → HasPassed front before passed.now → result ≡ spec.rule index.now.heads index.now.bodies front before stated.now }
{
    let name = &stated.name;
    if !passed.has_stated(name) {
        return rule_at_first(index, name);
    }
    if asked::defines(stated.how) && passed.has_defined(name) {
        return Some(702);
    }
    None
}

fn share_item(item: &ItemName) -> Result<ItemName, AllocError>
    ensures { IfOk result (λ copy. copy ≡ item.now) }
{
    let label = item.label.share()?;
    Ok(ItemName {
        label,
        nth: item.nth,
    })
}

fn fault_at(alloc: Global, rule: u16, stated: &Stated) -> Result<Fault, AllocError>
    ensures { IfOk result (λ fault. fault ≡ spec.fault rule stated.now) }
{
    let name = stated.name.share()?;
    let mut names = Vec::new(alloc);
    names.push(name)?;
    Ok(Fault {
        rule,
        at: stated.at,
        names: Listing::from_vec(names),
        types: Listing::from_vec(Vec::new(alloc)),
    })
}

fn add(
    alloc: Global,
    faults: &mut Vec<(ItemName, Fault)>,
    item: &ItemName,
    stated: &Stated,
    rule: Option<u16>,
) -> Result<(), AllocError>
    ensures { OnOk result (faults.new.items ≡ faults.old.items ++ spec.fault_at item.now stated.now rule) }
{
    let Some(rule) = rule else {
        return Ok(());
    };
    let fault = fault_at(alloc, rule, stated)?;
    let item = share_item(item)?;
    faults.push((item, fault))?;
    Ok(())
}

fn add_item(
    alloc: Global,
    faults: &mut Vec<(ItemName, Fault)>,
    index: &Index<'_>,
    passed: &mut Passed,
    head: &HeadMeaning,
) -> Result<(), AllocError>
    ensures faults { OnOk result ((front : List Head) → HasPassed front [] passed.old → faults.new.items ≡ faults.old.items ++ spec.of_item index.now.heads index.now.bodies front head.now.item [] head.now.stated) }
    ensures passed { OnOk result ((front : List Head) → HasPassed front [] passed.old → HasPassed (front ++ head.now ∷ []) [] passed.new) }
{
    let mut rest = head.stated.as_slice();
    while let Some((stated, behind)) = rest.split_first() {
        let broken = rule(index, passed, stated);
        add(alloc, faults, &head.item, stated, broken)?;
        passed.pass(stated)?;
        rest = behind;
    }
    Ok(())
}

/// The faults of the end of a unit (ISO C11 6.2.2, 6.9, 6.9.2), whose items are given in order.
///
/// At its first declaration: 430 for a name with internal linkage that a body has declared with external linkage (6.2.2p7),
/// 701 for one with internal linkage that is used and not defined (6.9p3), 703 for a tentative definition that is incomplete
/// at the end (6.9.2p2, p3); none of these for a name of a faulty type. 702 at each definition of a name after the first
/// (6.9p5). They stand in the order of the items, and within an item in that of its tokens. Its cost is linear in what the
/// items declare, state and use. It fails for want of memory alone.
pub fn end_faults(
    alloc: Global,
    heads: &[HeadMeaning],
    bodies: &[BodyMeaning],
) -> Result<Vec<(ItemName, Fault)>, AllocError>
    ensures { IfOk result (λ faults. faults.items ≡ spec.ends heads.now bodies.now) }
{
    let index = Index::new(alloc, heads, bodies)?;
    let mut passed = Passed::new(alloc);
    let mut faults = Vec::new(alloc);
    let mut rest = index.heads();
    while let Some((head, behind)) = rest.split_first() {
        add_item(alloc, &mut faults, &index, &mut passed, head)?;
        rest = behind;
    }
    Ok(faults)
}
