// Array subscripting, calls and compound literals (ISO C11 6.5.2).
ghost use Rattle.std.specs.Prelude.{◌≡◌, ◌≢◌, ◌≤◌, ◌<◌, Err, Ok, option_map, length};
ghost use Rattle.expr_rules.specs.Postfix as spec;
ghost use Rattle.type_data.specs.declared.judged.CheckError.TheVariants.{NoMemory};

use crate::answers::{bad, refuse, refuse_type, refuse_types};
use crate::constants::moved;
use crate::kinds::{is_array, is_function, is_integer, is_pointer_to_complete, is_void};
use scope_tables::ScopeKind;
use std::alloc::{AllocError, Global};
use type_data::{
    CType, CheckError, Constancy, Judged, Node, ParamList, Params, Place, Proto, Qual, Tags,
};
use type_rel::{UNQUALIFIED, assignable, converted, is_complete, is_open_array, value};

#[tactic(auto, unfolding(crate::specs::Postfix::designated))]
fn designated(ty: CType, qual: Qual, constant: Constancy) -> Judged
    ensures { result ≡ spec.designated ty qual constant }
{
    if is_function(&ty) {
        return Judged {
            ty,
            qual: UNQUALIFIED,
            place: Place::Function,
            constant,
        };
    }
    Judged {
        ty,
        qual,
        place: Place::Object,
        constant,
    }
}

/// What a pointer points to.
pub(crate) fn pointed(pointer: &CType, constant: Constancy) -> Result<Judged, CheckError>
    ensures { result ≢ Err NoMemory → result ≡ Ok (spec.pointed pointer.now constant) }
{
    match pointer.node() {
        Node::Pointer(to, qual) => {
            let Ok(to) = to.share() else {
                return Err(CheckError::NoMemory);
            };
            Ok(designated(to, *qual, constant))
        }
        _ => Ok(bad()),
    }
}

fn subscript(
    alloc: Global,
    at: u32,
    tags: &Tags,
    a: &Judged,
    b: &Judged,
) -> Result<Judged, CheckError>
    ensures { result ≢ Err NoMemory → result ≡ spec.subscript at tags.now a.now b.now }
{
    if is_pointer_to_complete(tags, &a.ty) && is_integer(&b.ty) {
        return pointed(&a.ty, moved(a.constant, b.constant));
    }
    if is_integer(&a.ty) && is_pointer_to_complete(tags, &b.ty) {
        return pointed(&b.ty, moved(b.constant, a.constant));
    }
    refuse_types(alloc, at, 504, &a.ty, &b.ty)
}

/// `a[i]`.
pub(crate) fn index(
    alloc: Global,
    at: u32,
    tags: &Tags,
    array: &Judged,
    number: &Judged,
) -> Result<Judged, CheckError>
    ensures { result ≢ Err NoMemory → result ≡ spec.index at tags.now array.now number.now }
{
    let Ok(a) = converted(alloc, array) else {
        return Err(CheckError::NoMemory);
    };
    let Ok(b) = converted(alloc, number) else {
        drop(a);
        return Err(CheckError::NoMemory);
    };
    let judged = subscript(alloc, at, tags, &a, &b);
    drop(b);
    drop(a);
    judged
}

fn literal_constant(scope: ScopeKind) -> Constancy
    ensures { result ≡ spec.literal_constant scope }
{
    match scope {
        ScopeKind::File => Constancy::Addr,
        ScopeKind::Function => Constancy::No,
        ScopeKind::Block => Constancy::No,
        ScopeKind::Prototype => Constancy::No,
    }
}

/// A compound literal, whose type is that after its initializer.
pub(crate) fn compound(
    alloc: Global,
    at: u32,
    tags: &Tags,
    ty: &CType,
    qual: Qual,
    scope: ScopeKind,
) -> Result<Judged, CheckError>
    ensures { result ≢ Err NoMemory → result ≡ spec.compound at tags.now ty.now qual scope }
{
    if !is_complete(tags, ty) && !is_open_array(ty) {
        return refuse_type(alloc, at, 512, ty);
    }
    let Ok(ty) = ty.share() else {
        return Err(CheckError::NoMemory);
    };
    Ok(Judged {
        ty,
        qual,
        place: Place::Object,
        constant: literal_constant(scope),
    })
}
