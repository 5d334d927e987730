// Declarations without a declarator (ISO C11 6.7p2).
ghost use Rattle.std.specs.Prelude.{◌≡◌};
ghost use Rattle.head_rules.specs.Bare as spec;

use crate::faults::plain;
use crate::parts::{BareParts, Specified};
use scope_tables::ScopeKind;
use std::alloc::Global;
use type_data::{Fault, TagKind};

fn is_enum(kind: TagKind) -> bool
    ensures { result ≡ spec.is_enum kind }
{
    match kind {
        TagKind::Enum => true,
        TagKind::Struct => false,
        TagKind::Union => false,
    }
}

fn declares(specified: Specified) -> bool
    ensures { result ≡ spec.declares specified }
{
    match specified {
        Specified::Tag(kind, named) => named || is_enum(kind),
        Specified::Other => false,
    }
}

fn is_anonymous(specified: Specified) -> bool
    ensures { result ≡ spec.is_anonymous specified }
{
    match specified {
        Specified::Tag(kind, named) => !named && !is_enum(kind),
        Specified::Other => false,
    }
}

fn is_file(scope: ScopeKind) -> bool
    ensures { result ≡ spec.is_file scope }
{
    match scope {
        ScopeKind::File => true,
        ScopeKind::Function => false,
        ScopeKind::Block => false,
        ScopeKind::Prototype => false,
    }
}

fn on(alloc: Global, rule: u16, at: Option<u32>) -> Option<Fault>
    ensures { result ≡ spec.on rule at }
{
    match at {
        Some(at) => Some(plain(alloc, rule, at)),
        None => None,
    }
}

fn misplaced(alloc: Global, parts: BareParts) -> Option<Fault>
    ensures { result ≡ spec.misplaced parts }
{
    if is_file(parts.scope) {
        return on(alloc, 406, parts.storage_at);
    }
    None
}

/// The fault of a declaration without a declarator, the one with the lowest number of those that hold: 401 where it declares neither a
/// tag nor enumerators (ISO C11 6.7p2), 406 for `auto` and `register` at file scope (6.9p2), 416 for a function specifier (6.7.4p1).
/// What has a faulty specifier has none.
pub fn bare_declaration(alloc: Global, parts: BareParts) -> Option<Fault>
    ensures { result ≡ spec.declaration parts }
{
    if parts.faulty {
        return None;
    }
    if !declares(parts.specified) {
        return Some(plain(alloc, 401, parts.at));
    }
    if let Some(fault) = misplaced(alloc, parts) {
        return Some(fault);
    }
    on(alloc, 416, parts.function_at)
}

/// The fault of a member declaration without a declarator, whose first token has the number `at`: 401 where it is no anonymous
/// structure or union (ISO C11 6.7.2.1p2, p13). What has a faulty specifier has none.
pub fn bare_member(alloc: Global, at: u32, faulty: bool, specified: Specified) -> Option<Fault>
    ensures { result ≡ spec.member at faulty specified }
{
    if faulty || is_anonymous(specified) {
        return None;
    }
    Some(plain(alloc, 401, at))
}
