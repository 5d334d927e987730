// Linkage (ISO C11 6.2.2).
ghost use Rattle.std.specs.Prelude.{◌≡◌, option_map};
ghost use Rattle.scope_tables.specs.Scopes.{is_linked};
ghost use Rattle.decl_rules.specs.Linkages as spec;

use crate::parts::{DeclParts, Storage};
use crate::sorts::{is_extern, is_file, is_function, is_parameter, is_static, is_typedef};
use scope_tables::{Entity, Linkage};

pub(crate) fn is_linked(linkage: Linkage) -> bool
    ensures { result ≡ is_linked linkage }
{
    match linkage {
        Linkage::None => false,
        _ => true,
    }
}

fn or_external(linkage: Linkage) -> Linkage
    ensures { result ≡ spec.or_external linkage }
{
    match linkage {
        Linkage::Internal => Linkage::Internal,
        _ => Linkage::External,
    }
}

fn prior_or_external(visible: Option<&Entity>) -> Linkage
    ensures { result ≡ spec.prior_or_external (option_map (λ e. e.now) visible.entry) }
{
    match visible {
        Some(entity) => or_external(entity.linkage),
        None => Linkage::External,
    }
}

fn linkage_at_file(function: bool, storage: Storage, visible: Option<&Entity>) -> Linkage
    ensures { result ≡ spec.linkage_at_file function storage (option_map (λ e. e.now) visible.entry) }
{
    if is_static(storage) {
        Linkage::Internal
    } else if function || is_extern(storage) {
        prior_or_external(visible)
    } else {
        Linkage::External
    }
}

fn linkage_in_block(function: bool, storage: Storage, visible: Option<&Entity>) -> Linkage
    ensures { result ≡ spec.linkage_in_block function storage (option_map (λ e. e.now) visible.entry) }
{
    if function || is_extern(storage) {
        prior_or_external(visible)
    } else {
        Linkage::None
    }
}

// The linkage of what is declared, where the name denotes `visible` so far.
pub(crate) fn linkage_of(decl: &DeclParts, visible: Option<&Entity>) -> Linkage
    ensures { result ≡ spec.linkage_of decl.now (option_map (λ e. e.now) visible.entry) }
{
    if is_typedef(decl.storage) || is_parameter(decl.scope) {
        Linkage::None
    } else if is_file(decl.scope) {
        linkage_at_file(is_function(decl), decl.storage, visible)
    } else {
        linkage_in_block(is_function(decl), decl.storage, visible)
    }
}

// One is internal and the other external.
pub(crate) fn clash(a: Linkage, b: Linkage) -> bool
    ensures { result ≡ spec.clash a b }
{
    match (a, b) {
        (Linkage::Internal, Linkage::External) => true,
        (Linkage::External, Linkage::Internal) => true,
        _ => false,
    }
}
