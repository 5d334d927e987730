// One declarator or parameter.
ghost use Rattle.std.specs.Prelude.{◌≡◌, ◌≢◌, Err, IfOk, option_map};
ghost use Rattle.decl_rules.specs.Declarations as spec;
ghost use Rattle.type_data.specs.declared.judged.CheckError.TheVariants.{NoMemory};

use crate::alignment::has_bad_alignment;
use crate::entities::entity;
use crate::faults::{of_name, of_types};
use crate::linkage::{clash, linkage_of};
use crate::parts::DeclParts;
use crate::redeclaring::redeclared;
use crate::shapes::{bad_return, has_no_function, has_no_name, misshaped};
use crate::storage::{has_bad_thread, is_misplaced, specifies_no_function};
use scope_tables::{Entity, Linkage, Scopes};
use std::alloc::{AllocError, Global};
use type_data::{CheckError, Fault, Space, Tags};
use type_rel::is_bad;

fn misspecified(alloc: Global, decl: &DeclParts, tags: &Tags) -> Option<Fault>
    ensures { result ≡ spec.misspecified decl.now tags.now }
{
    if is_misplaced(decl) {
        return Some(of_types(alloc, 406, decl, Vec::new(alloc)));
    }
    if specifies_no_function(decl) {
        return Some(of_types(alloc, 416, decl, Vec::new(alloc)));
    }
    if has_bad_alignment(decl, tags) {
        return Some(of_types(alloc, 417, decl, Vec::new(alloc)));
    }
    None
}

fn clashes(prior: Option<&Entity>, linkage: Linkage) -> bool
    ensures { result ≡ spec.clashes (option_map (λ e. e.now) prior.entry) linkage }
{
    match prior {
        Some(entity) => clash(entity.linkage, linkage),
        None => false,
    }
}

fn mismatched(
    alloc: Global,
    prior: Option<&Entity>,
    decl: &DeclParts,
    linkage: Linkage,
) -> Result<Option<Fault>, AllocError>
    ensures { IfOk result (λ f. f ≡ spec.mismatched (option_map (λ e. e.now) prior.entry) decl.now linkage) }
{
    if clashes(prior, linkage) {
        let fault = of_name(alloc, 430, decl, Vec::new(alloc))?;
        return Ok(Some(fault));
    }
    if has_no_function(decl) {
        return Ok(Some(of_types(alloc, 431, decl, Vec::new(alloc))));
    }
    if has_no_name(decl) {
        return Ok(Some(of_types(alloc, 432, decl, Vec::new(alloc))));
    }
    if has_bad_thread(prior, decl, linkage) {
        return Ok(Some(of_types(alloc, 435, decl, Vec::new(alloc))));
    }
    Ok(None)
}

// The first fault in the order of the rules' numbers.
fn fault(
    alloc: Global,
    before: Option<&Entity>,
    prior: Option<&Entity>,
    decl: &DeclParts,
    linkage: Linkage,
    tags: &Tags,
) -> Result<Option<Fault>, AllocError>
    ensures { IfOk result (λ f. f ≡ spec.fault (option_map (λ e. e.now) before.entry) (option_map (λ e. e.now) prior.entry) decl.now linkage tags.now) }
{
    if is_bad(&decl.ty) {
        return Ok(None);
    }
    if let Some(fault) = redeclared(alloc, before, decl, linkage)? {
        return Ok(Some(fault));
    }
    if let Some(fault) = misspecified(alloc, decl, tags) {
        return Ok(Some(fault));
    }
    if let Some(fault) = bad_return(alloc, tags, decl)? {
        return Ok(Some(fault));
    }
    if let Some(fault) = misshaped(alloc, tags, decl)? {
        return Ok(Some(fault));
    }
    mismatched(alloc, prior, decl, linkage)
}

fn declared_with(
    alloc: Global,
    before: Option<&Entity>,
    visible: Option<&Entity>,
    prior: Option<&Entity>,
    decl: &DeclParts,
    linkage: Linkage,
    tags: &Tags,
) -> Result<Entity, CheckError>
    ensures { result ≢ Err NoMemory → result ≡ spec.declared_with (option_map (λ e. e.now) before.entry) (option_map (λ e. e.now) visible.entry) (option_map (λ e. e.now) prior.entry) decl.now linkage tags.now }
{
    let Ok(fault) = fault(alloc, before, prior, decl, linkage, tags) else {
        return Err(CheckError::NoMemory);
    };
    if let Some(fault) = fault {
        return Err(CheckError::Broken(fault));
    }
    let Ok(entity) = entity(alloc, before, visible, prior, decl, linkage) else {
        return Err(CheckError::NoMemory);
    };
    Ok(entity)
}

/// What one declarator or parameter makes its name denote (ISO C11 6.2.2, 6.2.4, 6.2.7p4, 6.7), where `scopes` are the scopes
/// in force before it and `tags` tells what is known of tags.
///
/// `Broken` has the fault with the lowest number of those that hold: of a declarator 402 to 404, 406, 416, 417, 421, 423, 424,
/// 430, 431 and 435, of a parameter 402, 406, 416, 417, 422 and 432. Each stands on `at`; where a rule's fault belongs on a
/// specifier, the caller puts it there. What has the type Bad has no fault, and denotes an entity with that type. What has linkage
/// has the composite type with what the name denotes there, in this scope or in one round it, where that has linkage too and a compatible type.
/// `NoMemory` comes where memory is refused. Nothing is declared: what the scope has stays, and an outer declaration keeps its type.
pub fn declare_one(
    alloc: Global,
    scopes: &Scopes,
    decl: &DeclParts,
    tags: &Tags,
) -> Result<Entity, CheckError>
    ensures { result ≢ Err NoMemory → result ≡ spec.declared scopes.now decl.now tags.now }
{
    let name = decl.name.as_str();
    let visible = scopes.find(&Space::Ordinary, name);
    let linkage = linkage_of(decl, visible);
    let before = scopes.find_here(&Space::Ordinary, name);
    let prior = scopes.find_linked(name);
    declared_with(alloc, before, visible, prior, decl, linkage, tags)
}
