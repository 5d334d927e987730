// What a unit shows to the others.
ghost use Rattle.std.specs.Prelude.{◌≡◌, IfOk, option_map};
ghost use Rattle.unit_meaning.specs.Exports as spec;
ghost use Rattle.unit_meaning.specs.Sites.{fallen as falls};

use crate::firsts::external_of;
use crate::kept::Kept;
use crate::sites::fallen;
use scope_tables::{Export, UnitEntity};
use shared_text::Name;
use std::alloc::{AllocError, Global};
use tok_data::{FileId, TokId};
use type_data::{CType, Extent, Node};
use unit_items::Sources;

fn sized(extent: Extent) -> Extent
    ensures { result ≡ spec.sized extent }
{
    match extent {
        Extent::None => Extent::Size(1),
        Extent::Size(size) => Extent::Size(size),
        Extent::Unknown => Extent::Unknown,
    }
}

fn with_one(alloc: Global, ty: &CType) -> Result<CType, AllocError>
    ensures { IfOk result (λ t. t ≡ spec.with_one ty.now) }
{
    match ty.node() {
        Node::Array(of, qual, extent) => {
            let of = of.share()?;
            CType::array(alloc, of, *qual, sized(*extent))
        }
        Node::Void => ty.share(),
        Node::Basic(_) => ty.share(),
        Node::Enumerated(_) => ty.share(),
        Node::Tagged(_) => ty.share(),
        Node::Pointer(_, _) => ty.share(),
        Node::Function(_, _, _) => ty.share(),
        Node::Bad => ty.share(),
    }
}

fn type_of(alloc: Global, kept: &Kept<'_>, name: &Name, ty: &CType) -> Result<CType, AllocError>
    ensures { IfOk result (λ t. t ≡ spec.type_of name.now kept.now.heads ty.now) }
{
    if kept.is_tentative(name) {
        return with_one(alloc, ty);
    }
    ty.share()
}

fn defined(
    sources: &Sources<'_>,
    reached: &[(FileId, TokId)],
    tok: Option<&TokId>,
) -> Result<Option<TokId>, AllocError>
    ensures { IfOk result (λ r. r ≡ option_map (falls sources.now reached.now) (option_map (λ t. t.now) tok.entry)) }
{
    match tok {
        Some(tok) => {
            let tok = fallen(sources, reached, tok)?;
            Ok(Some(tok))
        }
        None => Ok(None),
    }
}

fn made(
    alloc: Global,
    sources: &Sources<'_>,
    reached: &[(FileId, TokId)],
    kept: &Kept<'_>,
    name: &Name,
    ty: &CType,
    tok: &TokId,
) -> Result<Export, AllocError>
    ensures { IfOk result (λ r. r ≡ spec.made sources.now reached.now kept.now.heads name.now ty.now tok.now) }
{
    let defined = defined(sources, reached, kept.definition(ty, name))?;
    let first = fallen(sources, reached, tok)?;
    let ty = type_of(alloc, kept, name, ty)?;
    let name = name.share()?;
    Ok(Export {
        name,
        ty,
        first,
        defined,
    })
}

fn by_name(
    alloc: Global,
    sources: &Sources<'_>,
    reached: &[(FileId, TokId)],
    kept: &Kept<'_>,
    name: &Name,
    ty: &CType,
) -> Result<Option<Export>, AllocError>
    ensures { IfOk result (λ r. r ≡ spec.by_first sources.now reached.now kept.now.heads name.now ty.now (spec.first_token name.now kept.now.occs)) }
{
    match kept.first_token(name) {
        Some(tok) => {
            let one = made(alloc, sources, reached, kept, name, ty, tok)?;
            Ok(Some(one))
        }
        None => Ok(None),
    }
}

fn exported(
    alloc: Global,
    sources: &Sources<'_>,
    reached: &[(FileId, TokId)],
    kept: &Kept<'_>,
    entity: &UnitEntity,
) -> Result<Option<Export>, AllocError>
    ensures { IfOk result (λ r. r ≡ spec.exported sources.now reached.now kept.now.occs kept.now.heads entity.now) }
{
    match external_of(entity.anchor()) {
        Some(name) => by_name(alloc, sources, reached, kept, name, &entity.declared().ty),
        None => Ok(None),
    }
}

/// The names that a unit shows to the others, by its entities.
pub(crate) fn names(
    alloc: Global,
    sources: &Sources<'_>,
    reached: &[(FileId, TokId)],
    kept: &Kept<'_>,
    entities: &[UnitEntity],
) -> Result<Vec<Export>, AllocError>
    ensures { IfOk result (λ out. out.items ≡ spec.names sources.now reached.now kept.now.occs kept.now.heads entities.now) }
{
    let mut out = Vec::new(alloc);
    let mut rest = entities;
    'entities: while let Some((entity, behind)) = rest.split_first() {
        rest = behind;
        let one = exported(alloc, sources, reached, kept, entity)?;
        let Some(one) = one else {
            continue;
        };
        out.push(one)?;
    }
    Ok(out)
}
