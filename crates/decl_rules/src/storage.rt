// Storage classes and function specifiers (ISO C11 6.7.1, 6.7.4).
ghost use Rattle.std.specs.Prelude.{◌≡◌, option_map};
ghost use Rattle.decl_rules.specs.Storages as spec;

use crate::linkage::is_linked;
use crate::parts::{DeclParts, Storage};
use crate::sorts::{
    is_extern, is_file, is_function, is_object, is_parameter, is_register, is_static, is_typedef,
};
use scope_tables::{Entity, EntityKind, Life, Linkage};

fn is_none(storage: Storage) -> bool
    ensures { result ≡ spec.is_none storage }
{
    match storage {
        Storage::None => true,
        _ => false,
    }
}

fn is_auto(storage: Storage) -> bool
    ensures { result ≡ spec.is_auto storage }
{
    match storage {
        Storage::Auto => true,
        _ => false,
    }
}

fn misplaced_in_prototype(decl: &DeclParts) -> bool
    ensures { result ≡ spec.misplaced_in_prototype decl.now }
{
    decl.thread || !(is_none(decl.storage) || is_register(decl.storage))
}

fn misplaced_at_file(decl: &DeclParts) -> bool
    ensures { result ≡ spec.misplaced_at_file decl.now }
{
    is_auto(decl.storage)
        || is_register(decl.storage)
        || (decl.has_body && is_typedef(decl.storage))
}

fn misplaced_in_block(decl: &DeclParts) -> bool
    ensures { result ≡ spec.misplaced_in_block decl.now }
{
    is_function(decl) && !(is_none(decl.storage) || is_extern(decl.storage))
}

pub(crate) fn is_misplaced(decl: &DeclParts) -> bool
    ensures { result ≡ spec.is_misplaced decl.now }
{
    if is_parameter(decl.scope) {
        misplaced_in_prototype(decl)
    } else if is_file(decl.scope) {
        misplaced_at_file(decl)
    } else {
        misplaced_in_block(decl)
    }
}

pub(crate) fn specifies_no_function(decl: &DeclParts) -> bool
    ensures { result ≡ spec.specifies_no_function decl.now }
{
    (decl.inline || decl.noreturn) && !is_function(decl)
}

fn is_thread(life: Life) -> bool
    ensures { result ≡ spec.is_thread life }
{
    match life {
        Life::Thread => true,
        _ => false,
    }
}

fn is_object_kind(kind: &EntityKind) -> bool
    ensures { result ≡ spec.is_object_kind kind.now }
{
    match kind {
        EntityKind::Object => true,
        _ => false,
    }
}

fn thread_differs(prior: Option<&Entity>, decl: &DeclParts) -> bool
    ensures { result ≡ spec.thread_differs (option_map (λ e. e.now) prior.entry) decl.now }
{
    match prior {
        Some(entity) => is_object_kind(&entity.kind) && is_thread(entity.life) != decl.thread,
        None => false,
    }
}

fn misplaced_thread(decl: &DeclParts) -> bool
    ensures { result ≡ spec.misplaced_thread decl.now }
{
    decl.thread
        && (is_function(decl)
            || (!is_file(decl.scope) && !(is_static(decl.storage) || is_extern(decl.storage))))
}

pub(crate) fn has_bad_thread(prior: Option<&Entity>, decl: &DeclParts, linkage: Linkage) -> bool
    ensures { result ≡ spec.has_bad_thread (option_map (λ e. e.now) prior.entry) decl.now linkage }
{
    misplaced_thread(decl) || (is_object(decl) && is_linked(linkage) && thread_differs(prior, decl))
}
