// What a declarator's name does, and what the declaration states (ISO C11 6.7p5, 6.9.1, 6.9.2).
ghost use Rattle.std.specs.Prelude.{◌≡◌};
ghost use Rattle.head_rules.specs.Roles as spec;

use scope_tables::{How, Life, Role};

/// What a declarator is, as far as its role asks.
#[derive(Clone, Copy, Debug, Drop)]
pub struct Declaring {
    pub is_typedef: bool,
    /// It has a function type.
    pub is_function: bool,
    pub is_extern: bool,
    pub has_init: bool,
    pub has_body: bool,
}

/// The numbers of tokens on which faults of specifiers stand, where there are such specifiers.
#[derive(Clone, Copy, Debug, Drop)]
pub struct Places {
    /// The first token of the declaration.
    pub begins: u32,
    pub storage: Option<u32>,
    pub thread: Option<u32>,
    /// The first function specifier.
    pub function: Option<u32>,
    /// The first alignment specifier.
    pub align: Option<u32>,
}

fn one_of(defines: bool) -> Role
    ensures { result ≡ spec.one_of defines }
{
    if defines {
        Role::Defines
    } else {
        Role::Declares
    }
}

/// What a declarator's name does to what it denotes, also where it has a fault: the `first` declaration of a typedef name defines it, a
/// body a function, and each declaration of an object but one by `extern` without an initializer (ISO C11 6.7p5).
pub fn role_of(decl: Declaring, first: bool) -> Role
    ensures { result ≡ spec.role_of decl first }
{
    if decl.is_typedef {
        return one_of(first);
    }
    if decl.is_function || decl.has_body {
        return one_of(decl.has_body);
    }
    one_of(!(decl.is_extern && !decl.has_init))
}

fn how_of_object(decl: Declaring) -> How
    ensures { result ≡ spec.how_of_object decl }
{
    if decl.has_init {
        return How::Defines;
    }
    if decl.is_extern {
        return How::Declares;
    }
    How::Tentative
}

/// What a declarator at file scope without a fault does to the object or function that it names (ISO C11 6.9.1, 6.9.2). A body behind
/// what is no function would define.
pub fn how_of(decl: Declaring) -> How
    ensures { result ≡ spec.how_of decl }
{
    if decl.has_body {
        if decl.is_function {
            return How::Defines;
        }
        return How::Refused;
    }
    if decl.is_function {
        return How::Declares;
    }
    how_of_object(decl)
}

/// The same, of one that has a fault.
pub fn refused_how(how: How) -> How
    ensures { result ≡ spec.refused_how how }
{
    match how {
        How::Declares => How::Declares,
        How::Defines => How::Refused,
        How::Tentative => How::Refused,
        How::Refused => How::Refused,
    }
}

/// Whether expressions in the initializer of an object with this storage duration have to be constant (ISO C11 6.7.9p4).
pub fn needs_constants(life: Life) -> bool
    ensures { result ≡ spec.needs_constants life }
{
    match life {
        Life::Static => true,
        Life::Thread => true,
        Life::Automatic => false,
        Life::Register => false,
        Life::Without => false,
    }
}

fn or_at(at: u32, place: Option<u32>) -> u32
    ensures { result ≡ spec.or_at at place }
{
    match place {
        Some(place) => place,
        None => at,
    }
}

fn or_first(a: Option<u32>, b: Option<u32>) -> Option<u32>
    ensures { result ≡ spec.or_first a b }
{
    match a {
        Some(place) => Some(place),
        None => b,
    }
}

/// The token of a declarator's fault: 406, 416, 417 and 435 stand on the specifier, and where `_Thread_local` is wanting 435 stands on
/// the first token of the declaration; all others stand `at` the name.
pub fn place_of(places: Places, rule: u16, at: u32) -> u32
    ensures { result ≡ spec.place_of places rule at }
{
    if rule == 406 {
        return or_at(at, or_first(places.storage, places.thread));
    }
    if rule == 416 {
        return or_at(at, places.function);
    }
    if rule == 417 {
        return or_at(at, places.align);
    }
    if rule == 435 {
        return or_at(places.begins, places.thread);
    }
    at
}
