// What a declarator makes its name denote.
ghost use Rattle.std.specs.Prelude.{◌≡◌, IfOk, option_map};
ghost use Rattle.decl_rules.specs.Entities as spec;

use crate::linkage::is_linked;
use crate::parts::DeclParts;
use crate::redeclaring::{agrees, is_typedef_name};
use crate::sorts::{
    is_extern, is_file, is_function_type, is_parameter, is_register, is_static, is_typedef,
};
use scope_tables::{Anchor, Entity, EntityKind, Life, Linkage};
use std::alloc::{AllocError, Global};
use type_data::CType;
use type_rel::composite;

fn kind_of(decl: &DeclParts) -> EntityKind
    ensures { result ≡ spec.kind_of decl.now }
{
    if is_typedef(decl.storage) {
        EntityKind::Typedef
    } else if is_function_type(&decl.ty) || (decl.has_body && !is_parameter(decl.scope)) {
        EntityKind::Function
    } else {
        EntityKind::Object
    }
}

fn life_of_object(decl: &DeclParts) -> Life
    ensures { result ≡ spec.life_of_object decl.now }
{
    if decl.thread {
        Life::Thread
    } else if is_register(decl.storage) {
        Life::Register
    } else if is_file(decl.scope) || is_static(decl.storage) || is_extern(decl.storage) {
        Life::Static
    } else {
        Life::Automatic
    }
}

fn life_of(kind: &EntityKind, decl: &DeclParts) -> Life
    ensures { result ≡ spec.life_of kind.now decl.now }
{
    match kind {
        EntityKind::Object => life_of_object(decl),
        _ => Life::Without,
    }
}

// With the declaration that is visible.
fn joined(
    alloc: Global,
    visible: Option<&Entity>,
    decl: &DeclParts,
    linkage: Linkage,
) -> Result<CType, AllocError>
    ensures { IfOk result (λ t. t ≡ spec.joined (option_map (λ e. e.now) visible.entry) decl.now linkage) }
{
    match visible {
        Some(entity) => {
            if entity.has_linkage() && (is_linked(linkage) && agrees(entity, decl)) {
                return composite(alloc, &entity.ty, &decl.ty);
            }
            decl.ty.share()
        }
        None => decl.ty.share(),
    }
}

fn own_anchor(decl: &DeclParts) -> Result<Anchor, AllocError>
    ensures { IfOk result (λ a. a ≡ spec.own_anchor decl.now) }
{
    let tok = decl.tok.copy()?;
    if decl.made {
        let name = decl.name.share()?;
        return Ok(Anchor::Made(tok, name));
    }
    Ok(Anchor::Local(tok))
}

fn anchor_as(entity: Option<&Entity>, decl: &DeclParts) -> Result<Anchor, AllocError>
    ensures { IfOk result (λ a. a ≡ spec.anchor_as (option_map (λ e. e.now) entity.entry) decl.now) }
{
    match entity {
        Some(entity) => entity.anchor.share(),
        None => own_anchor(decl),
    }
}

fn same_typedef<'a>(before: Option<&'a Entity>) -> Option<&'a Entity>
    ensures { option_map (λ e. e.now) result ≡ spec.same_typedef (option_map (λ e. e.now) before.entry) }
{
    match before {
        Some(entity) => if is_typedef_name(&entity.kind) {
            Some(entity)
        } else {
            None
        },
        None => None,
    }
}

fn anchor_of(
    before: Option<&Entity>,
    prior: Option<&Entity>,
    decl: &DeclParts,
    linkage: Linkage,
) -> Result<Anchor, AllocError>
    ensures { IfOk result (λ a. a ≡ spec.anchor_of (option_map (λ e. e.now) before.entry) (option_map (λ e. e.now) prior.entry) decl.now linkage) }
{
    match linkage {
        Linkage::External => {
            let name = decl.name.share()?;
            Ok(Anchor::External(name))
        }
        Linkage::Internal => anchor_as(prior, decl),
        Linkage::None => {
            if is_typedef(decl.storage) {
                return anchor_as(same_typedef(before), decl);
            }
            own_anchor(decl)
        }
    }
}

pub(crate) fn entity(
    alloc: Global,
    before: Option<&Entity>,
    visible: Option<&Entity>,
    prior: Option<&Entity>,
    decl: &DeclParts,
    linkage: Linkage,
) -> Result<Entity, AllocError>
    ensures { IfOk result (λ e. e ≡ spec.entity (option_map (λ e. e.now) before.entry) (option_map (λ e. e.now) visible.entry) (option_map (λ e. e.now) prior.entry) decl.now linkage) }
{
    let name = decl.name.share()?;
    let ty = joined(alloc, visible, decl, linkage)?;
    let anchor = anchor_of(before, prior, decl, linkage)?;
    let kind = kind_of(decl);
    let life = life_of(&kind, decl);
    Ok(Entity {
        name,
        kind,
        ty,
        qual: decl.qual,
        linkage,
        life,
        value: None,
        anchor,
    })
}
