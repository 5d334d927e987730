// A name that its scope has already (ISO C11 6.7p3, p4).
ghost use Rattle.std.specs.Prelude.{◌≡◌, [], ◌∷◌, IfOk, option_map};
ghost use Rattle.decl_rules.specs.Redeclared as spec;

use crate::faults::of_name;
use crate::linkage::is_linked;
use crate::parts::DeclParts;
use crate::sorts::is_typedef;
use scope_tables::{Entity, EntityKind, Linkage};
use std::alloc::{AllocError, Global};
use type_data::{CType, Fault};
use type_rel::{compatible, is_bad};

pub(crate) fn is_typedef_name(kind: &EntityKind) -> bool
    ensures { result ≡ spec.is_typedef_name kind.now }
{
    match kind {
        EntityKind::Typedef => true,
        _ => false,
    }
}

fn both_types(alloc: Global, decl: &DeclParts, entity: &Entity) -> Result<Vec<CType>, AllocError>
    ensures { IfOk result (λ v. v.items ≡ decl.now.ty ∷ entity.now.ty ∷ []) }
{
    let now = decl.ty.share()?;
    let before = entity.ty.share()?;
    let types = vec![in alloc; now, before]?;
    Ok(types)
}

fn retyped(alloc: Global, entity: &Entity, decl: &DeclParts) -> Result<Option<Fault>, AllocError>
    ensures { IfOk result (λ f. f ≡ spec.retyped entity.now decl.now) }
{
    if is_bad(&entity.ty) || (entity.ty == decl.ty && entity.qual == decl.qual) {
        return Ok(None);
    }
    let types = both_types(alloc, decl, entity)?;
    let fault = of_name(alloc, 404, decl, types)?;
    Ok(Some(fault))
}

/// Whether a declaration may be one of the same object or function.
pub(crate) fn agrees(entity: &Entity, decl: &DeclParts) -> bool
    ensures { result ≡ spec.agrees entity.now decl.now }
{
    is_bad(&entity.ty) || (compatible(&entity.ty, &decl.ty) && entity.qual == decl.qual)
}

fn differing(alloc: Global, entity: &Entity, decl: &DeclParts) -> Result<Option<Fault>, AllocError>
    ensures { IfOk result (λ f. f ≡ spec.differing entity.now decl.now) }
{
    if agrees(entity, decl) {
        return Ok(None);
    }
    let types = both_types(alloc, decl, entity)?;
    let fault = of_name(alloc, 403, decl, types)?;
    Ok(Some(fault))
}

fn against(
    alloc: Global,
    entity: &Entity,
    decl: &DeclParts,
    linkage: Linkage,
) -> Result<Option<Fault>, AllocError>
    ensures { IfOk result (λ f. f ≡ spec.against entity.now decl.now linkage) }
{
    if is_typedef_name(&entity.kind) && is_typedef(decl.storage) {
        return retyped(alloc, entity, decl);
    }
    if entity.has_linkage() && is_linked(linkage) {
        return differing(alloc, entity, decl);
    }
    let fault = of_name(alloc, 402, decl, Vec::new(alloc))?;
    Ok(Some(fault))
}

// The fault against what the name denotes in the same scope.
pub(crate) fn redeclared(
    alloc: Global,
    before: Option<&Entity>,
    decl: &DeclParts,
    linkage: Linkage,
) -> Result<Option<Fault>, AllocError>
    ensures { IfOk result (λ f. f ≡ spec.redeclared (option_map (λ e. e.now) before.entry) decl.now linkage) }
{
    match before {
        Some(entity) => against(alloc, entity, decl, linkage),
        None => Ok(None),
    }
}
