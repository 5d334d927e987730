// A declaration in the first part of a `for` (ISO C11 6.8.5p3).
ghost use Rattle.std.specs.Prelude.{◌≡◌};
ghost use Rattle.stmt_rules.specs.Declarations as spec;

use crate::faults::fault;
use decl_rules::Storage;
use std::alloc::Global;
use type_data::Fault;

/// A declaration in the first part of a `for`, as far as its place asks. Tokens are given by their numbers in the item.
#[derive(Clone, Copy, Debug, Drop)]
pub struct ForParts {
    /// Its first token.
    pub first: u32,
    pub storage: Storage,
    /// The token of the storage class, where there is one.
    pub storage_at: Option<u32>,
    /// That of `_Thread_local`, where it stands there.
    pub thread: Option<u32>,
    /// Whether one of its declarators declares a function.
    pub function: bool,
}

fn is_barred(storage: Storage) -> bool
    ensures { result ≡ spec.is_barred storage }
{
    match storage {
        Storage::None => false,
        Storage::Typedef => true,
        Storage::Extern => true,
        Storage::Static => true,
        Storage::Auto => false,
        Storage::Register => false,
    }
}

fn class_at(storage: Storage, at: Option<u32>) -> Option<u32>
    ensures { result ≡ spec.class_at storage at }
{
    if is_barred(storage) { at } else { None }
}

fn first_of(at: u32, thread: Option<u32>) -> u32
    ensures { result ≡ spec.first_of at thread }
{
    match thread {
        Some(other) => {
            if other < at {
                return other;
            }
            at
        }
        None => at,
    }
}

fn of_function(parts: &ForParts) -> Option<u32>
    ensures { result ≡ spec.of_function parts.now }
{
    if parts.function {
        Some(parts.first)
    } else {
        None
    }
}

fn told_at(class: Option<u32>, thread: Option<u32>, first: Option<u32>) -> Option<u32>
    ensures { result ≡ spec.told_at class thread first }
{
    match class {
        Some(at) => Some(first_of(at, thread)),
        None => match thread {
            Some(at) => Some(at),
            None => first,
        },
    }
}

/// What a declaration in the first part of a `for` breaks (ISO C11 6.8.5p3): 609, once, at its `typedef`, `extern`, `static` or
/// `_Thread_local`, the first of these where it has two, and else at its first token where it declares a function. It takes no memory.
pub fn check_for(alloc: Global, parts: &ForParts) -> Option<Fault>
    ensures { result ≡ spec.for_fault parts.now }
{
    let class = class_at(parts.storage, parts.storage_at);
    match told_at(class, parts.thread, of_function(parts)) {
        Some(at) => Some(fault(alloc, 609, at)),
        None => None,
    }
}
