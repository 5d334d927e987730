// What a declarator declares: a typedef name, a parameter, a function or an object.
ghost use Rattle.std.specs.Prelude.{◌≡◌};
ghost use Rattle.decl_rules.specs.Sorts as spec;

use crate::parts::{DeclParts, Storage};
use scope_tables::ScopeKind;
use type_data::{CType, Node};

pub(crate) fn is_typedef(storage: Storage) -> bool
    ensures { result ≡ spec.is_typedef storage }
{
    match storage {
        Storage::Typedef => true,
        _ => false,
    }
}

pub(crate) fn is_register(storage: Storage) -> bool
    ensures { result ≡ spec.is_register storage }
{
    match storage {
        Storage::Register => true,
        _ => false,
    }
}

pub(crate) fn is_extern(storage: Storage) -> bool
    ensures { result ≡ spec.is_extern storage }
{
    match storage {
        Storage::Extern => true,
        _ => false,
    }
}

pub(crate) fn is_static(storage: Storage) -> bool
    ensures { result ≡ spec.is_static storage }
{
    match storage {
        Storage::Static => true,
        _ => false,
    }
}

pub(crate) fn is_file(scope: ScopeKind) -> bool
    ensures { result ≡ spec.is_file scope }
{
    match scope {
        ScopeKind::File => true,
        _ => false,
    }
}

pub(crate) fn is_parameter(scope: ScopeKind) -> bool
    ensures { result ≡ spec.is_parameter scope }
{
    match scope {
        ScopeKind::Prototype => true,
        _ => false,
    }
}

pub(crate) fn is_function_type(ty: &CType) -> bool
    ensures { result ≡ spec.is_function_type ty.now }
{
    match ty.node() {
        Node::Function(_, _, _) => true,
        _ => false,
    }
}

pub(crate) fn is_function(decl: &DeclParts) -> bool
    ensures { result ≡ spec.is_function decl.now }
{
    is_function_type(&decl.ty) && !is_typedef(decl.storage)
}

pub(crate) fn is_object(decl: &DeclParts) -> bool
    ensures { result ≡ spec.is_object decl.now }
{
    !is_function_type(&decl.ty) && !is_typedef(decl.storage) && !is_parameter(decl.scope)
}
