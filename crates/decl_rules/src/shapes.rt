// What a declarator may declare (ISO C11 6.7p7, 6.7.6.3, 6.7.9, 6.9.1).
ghost use Rattle.std.specs.Prelude.{◌≡◌, [], ◌∷◌, IfOk};
ghost use Rattle.decl_rules.specs.Faults;
ghost use Rattle.decl_rules.specs.Shapes as spec;

use crate::faults::{of_name, of_types};
use crate::parts::DeclParts;
use crate::sorts::{is_extern, is_file, is_function, is_function_type, is_object, is_parameter};
use std::alloc::{AllocError, Global};
use type_data::{CType, Fault, Node, Tags};
use type_rel::{is_complete, is_open_array};

fn is_void(ty: &CType) -> bool
    ensures { result ≡ spec.is_void ty.now }
{
    match ty.node() {
        Node::Void => true,
        _ => false,
    }
}

fn is_array(ty: &CType) -> bool
    ensures { result ≡ spec.is_array ty.now }
{
    match ty.node() {
        Node::Array(_, _, _) => true,
        _ => false,
    }
}

fn is_bad_return(defined: bool, tags: &Tags, ty: &CType) -> bool
    ensures { result ≡ spec.is_bad_return defined tags.now ty.now }
{
    is_function_type(ty) || is_array(ty) || (defined && !is_void(ty) && !is_complete(tags, ty))
}

// A fault whose text prints one type.
fn of_type(alloc: Global, rule: u16, decl: &DeclParts, ty: &CType) -> Result<Fault, AllocError>
    ensures { IfOk result (λ f. f ≡ Faults.of_types rule decl.now (ty.now ∷ [])) }
{
    let ty = ty.share()?;
    let types = vec![in alloc; ty]?;
    Ok(of_types(alloc, rule, decl, types))
}

pub(crate) fn bad_return(
    alloc: Global,
    tags: &Tags,
    decl: &DeclParts,
) -> Result<Option<Fault>, AllocError>
    ensures { IfOk result (λ f. f ≡ spec.bad_return tags.now decl.now decl.now.ty) }
{
    match decl.ty.node() {
        Node::Function(returned, _, _) => {
            if is_bad_return(decl.has_body, tags, returned) {
                let fault = of_type(alloc, 421, decl, returned)?;
                return Ok(Some(fault));
            }
            Ok(None)
        }
        _ => Ok(None),
    }
}

fn is_bad_parameter(tags: &Tags, decl: &DeclParts) -> bool
    ensures { result ≡ spec.is_bad_parameter tags.now decl.now }
{
    is_parameter(decl.scope)
        && (is_void(&decl.ty) || (decl.has_body && !is_complete(tags, &decl.ty)))
}

fn is_left_incomplete(tags: &Tags, decl: &DeclParts) -> bool
    ensures { result ≡ spec.is_left_incomplete tags.now decl.now }
{
    !is_file(decl.scope)
        && is_object(decl)
        && !is_extern(decl.storage)
        && !is_complete(tags, &decl.ty)
        && !(decl.has_init && is_open_array(&decl.ty))
}

fn is_initializable(tags: &Tags, decl: &DeclParts) -> bool
    ensures { result ≡ spec.is_initializable tags.now decl.now }
{
    is_object(decl)
        && (is_complete(tags, &decl.ty) || is_open_array(&decl.ty))
        && !(!is_file(decl.scope) && is_extern(decl.storage))
}

pub(crate) fn misshaped(
    alloc: Global,
    tags: &Tags,
    decl: &DeclParts,
) -> Result<Option<Fault>, AllocError>
    ensures { IfOk result (λ f. f ≡ spec.misshaped tags.now decl.now) }
{
    if is_bad_parameter(tags, decl) {
        let fault = of_type(alloc, 422, decl, &decl.ty)?;
        return Ok(Some(fault));
    }
    if is_left_incomplete(tags, decl) {
        let ty = decl.ty.share()?;
        let types = vec![in alloc; ty]?;
        let fault = of_name(alloc, 423, decl, types)?;
        return Ok(Some(fault));
    }
    if decl.has_init && !is_initializable(tags, decl) {
        let fault = of_name(alloc, 424, decl, Vec::new(alloc))?;
        return Ok(Some(fault));
    }
    Ok(None)
}

pub(crate) fn has_no_function(decl: &DeclParts) -> bool
    ensures { result ≡ spec.has_no_function decl.now }
{
    decl.has_body && !is_parameter(decl.scope) && !(is_function(decl) && decl.has_list)
}

pub(crate) fn has_no_name(decl: &DeclParts) -> bool
    ensures { result ≡ spec.has_no_name decl.now }
{
    decl.has_body && is_parameter(decl.scope) && decl.name.as_str().len() == 0
}
