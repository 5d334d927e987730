// Names of types (ISO C11 6.7.7): specifiers and qualifiers, and a declarator.
ghost use Rattle.std.specs.Prelude.{◌≡◌, true, false, ℕ, ◌+◌, ◌<◌, ◌≤◌, length, IfOk, IfErr};
ghost use Rattle.tree_data.specs.Seen.{specifier_of, specifiers_of, type_of};
ghost use Rattle.tree_data.specs.Trees.{Naming, Atomic_of, Specifyings, No_specifiers, specifyings};
ghost use Rattle.c_parser.specs.declared.kinds.Kind.TheVariants.{Align, Tag, OpenParen, CloseParen};
ghost use Rattle.c_parser.specs.Grammar.{MayStand, typed_by, name_by};
ghost use Rattle.c_parser.specs.Kinds as spec;
ghost use Rattle.c_parser.specs.Reading.{HoldsNaming, HoldsType, HoldSpecifyings, FoundNaming, FoundType, MustGive};
ghost use Rattle.c_parser.specs.TypeNames.{FoundSpecifying, FoundSpecifiers, Specified, FailsSpecifying};

use crate::answers::Stop;
use crate::before::typed;
use crate::declarators::declarator;
use crate::enumerators::enumeration;
use crate::expressions::{CONDITIONAL, level};
use crate::kinds::{
    Kind, Site, atomic_opens, kind_at, list_opens, named_by, site_of, stored_amiss,
};
use crate::members::{members, tag_before};
use crate::room::push;
use crate::scope::Kinds;
use std::alloc::Global;
use tree_data::{Specifier, Specs, TypeName};

// `struct`, `union` or `enum` with a tag behind it, and no list in braces.
fn tagged(kinds: &Kinds<'_>, at: u32, typed: bool) -> Option<(Specifier, u32, bool)>
    requires size { length kinds.now ≤ 2000000 }
    requires inside { at ≤ length kinds.now }
    requires kind { spec.is_tagging (spec.kind_at kinds.now at) ≡ true }
    requires bare { spec.list_opens kinds.now at ≡ false }
    ensures { Specified kinds.now typed at result }
{
    if !kind_at(kinds, at + 1).is_word() {
        return None;
    }
    if kind_at(kinds, at + 2).is_brace() {
        return None;
    }
    Some((Specifier::tag(at, at + 1), at + 2, true))
}

// The specifier of one or two tokens that stands here, the place behind it, and whether a type specifier has stood by then.
fn short_specifier(kinds: &Kinds<'_>, at: u32, typed: bool) -> Option<(Specifier, u32, bool)>
    requires size { length kinds.now ≤ 2000000 }
    requires inside { at ≤ length kinds.now }
    requires short { spec.atomic_opens kinds.now at ≡ false }
    requires bare { spec.list_opens kinds.now at ≡ false }
    requires unaligned { spec.kind_at kinds.now at ≡ Align → ⊥ }
    ensures { Specified kinds.now typed at result }
{
    match kind_at(kinds, at) {
        Kind::TypeWord => Some((Specifier::word(at), at + 1, true)),
        Kind::Qualifier => Some((Specifier::word(at), at + 1, typed)),
        Kind::Atomic => Some((Specifier::word(at), at + 1, typed)),
        Kind::Storage => Some((Specifier::word(at), at + 1, typed)),
        Kind::Typedef => Some((Specifier::word(at), at + 1, typed)),
        Kind::Static => Some((Specifier::word(at), at + 1, typed)),
        Kind::TypeName(_) => {
            if typed {
                return None;
            }
            Some((Specifier::typedef_name(at), at + 1, true))
        }
        Kind::Tag => tagged(kinds, at, typed),
        Kind::Enum => tagged(kinds, at, typed),
        _ => None,
    }
}

// `_Alignas ( type-name )`.
#[cycle(parser)]
fn aligned_as(
    alloc: Global,
    kinds: &Kinds<'_>,
    at: u32,
    before: bool,
) -> Result<Option<(Specifier, u32, bool)>, Stop>
    requires size { length kinds.now ≤ 2000000 }
    requires inside { at + 1 < length kinds.now }
    requires kind { spec.kind_at kinds.now at ≡ Align }
    requires opens { spec.kind_at kinds.now (at + 1) ≡ OpenParen }
    requires named { spec.starts_type (spec.kind_at kinds.now (at + 2)) ≡ true }
    ensures found { IfOk result (λ r. Specified kinds.now before at r) }
    ensures fails { IfErr result (λ e. FailsSpecifying kinds.now before at e) }
{
    let (name, closing) = match typed(alloc, kinds, at + 1) {
        Ok(found) => found,
        Err(stop) => return Err(stop),
    };
    match Specifier::aligned_as(alloc, at, at + 1, name, closing) {
        Ok(specifier) => Ok(Some((specifier, closing + 1, before))),
        Err(_) => Err(Stop::NoMemory),
    }
}

// `_Alignas ( type-name )` or `_Alignas ( constant-expression )`.
#[cycle(parser)]
fn alignment(
    alloc: Global,
    kinds: &Kinds<'_>,
    at: u32,
    before: bool,
) -> Result<Option<(Specifier, u32, bool)>, Stop>
    requires size { length kinds.now ≤ 2000000 }
    requires inside { at < length kinds.now }
    requires kind { spec.kind_at kinds.now at ≡ Align }
    ensures found { IfOk result (λ r. Specified kinds.now before at r) }
    ensures fails { IfErr result (λ e. FailsSpecifying kinds.now before at e) }
{
    let Kind::OpenParen = kind_at(kinds, at + 1) else {
        return Err(Stop::Syntax(at + 1));
    };
    if kind_at(kinds, at + 2).starts_type() {
        return aligned_as(alloc, kinds, at, before);
    }
    let (size, closing) = match level(alloc, kinds, CONDITIONAL, at + 2) {
        Ok(found) => found,
        Err(stop) => return Err(stop),
    };
    let Kind::CloseParen = kind_at(kinds, closing) else {
        drop(size);
        return Err(Stop::Syntax(closing));
    };
    match Specifier::aligned(alloc, at, at + 1, size, closing) {
        Ok(specifier) => Ok(Some((specifier, closing + 1, before))),
        Err(_) => Err(Stop::NoMemory),
    }
}

// `struct` or `union` with members.
#[cycle(parser)]
fn structure(
    alloc: Global,
    kinds: &Kinds<'_>,
    at: u32,
    before: bool,
) -> Result<Option<(Specifier, u32, bool)>, Stop>
    requires size { length kinds.now ≤ 2000000 }
    requires inside { at < length kinds.now }
    requires kind { spec.kind_at kinds.now at ≡ Tag }
    requires braces { spec.braces_at kinds.now (at + 1) ≡ true }
    ensures found { IfOk result (λ r. Specified kinds.now before at r) }
    ensures fails { IfErr result (λ e. FailsSpecifying kinds.now before at e) }
{
    let (tag, opening) = tag_before(kinds, at + 1);
    match members(alloc, kinds, opening + 1) {
        Ok((members, closing)) => Ok(Some((
            Specifier::members(at, tag, opening, members, closing),
            closing + 1,
            true,
        ))),
        Err(stop) => Err(stop),
    }
}

// `struct` or `union` with members, or `enum` with enumerators.
#[cycle(parser)]
fn braced(
    alloc: Global,
    kinds: &Kinds<'_>,
    at: u32,
    before: bool,
) -> Result<Option<(Specifier, u32, bool)>, Stop>
    requires size { length kinds.now ≤ 2000000 }
    requires inside { at < length kinds.now }
    requires opens { spec.list_opens kinds.now at ≡ true }
    ensures found { IfOk result (λ r. Specified kinds.now before at r) }
    ensures fails { IfErr result (λ e. FailsSpecifying kinds.now before at e) }
{
    if let Kind::Enum = kind_at(kinds, at) {
        return enumeration(alloc, kinds, at, before);
    }
    structure(alloc, kinds, at, before)
}

// `_Atomic ( type-name )`.
#[cycle(parser)]
fn atomic(alloc: Global, kinds: &Kinds<'_>, at: u32) -> Result<(Specifier, u32), Stop>
    requires size { length kinds.now ≤ 2000000 }
    requires inside { at ≤ length kinds.now }
    requires opens { spec.atomic_opens kinds.now at ≡ true }
    ensures found { IfOk result (λ r. FoundSpecifying kinds.now false at (specifier_of r.0) r.1) }
    ensures only { (t : Naming) → (end : ℕ) → HoldsType kinds.now t ((at + 1) + 1) end → spec.kind_at kinds.now end ≡ CloseParen
        → MustGive result (λ r. (specifier_of r.0 ≡ Atomic_of at (at + 1) t end) × (r.1 ≡ end + 1)) }
{
    let (name, closing) = match typed(alloc, kinds, at + 1) {
        Ok(found) => found,
        Err(stop) => return Err(stop),
    };
    match Specifier::atomic(alloc, at, at + 1, name, closing) {
        Ok(specifier) => Ok((specifier, closing + 1)),
        Err(_) => Err(Stop::NoMemory),
    }
}

// The specifier that stands here, the place behind it, and whether a type specifier has stood by then.
#[cycle(parser)]
fn specifier(
    alloc: Global,
    kinds: &Kinds<'_>,
    at: u32,
    typed: bool,
) -> Result<Option<(Specifier, u32, bool)>, Stop>
    requires size { length kinds.now ≤ 2000000 }
    requires inside { at ≤ length kinds.now }
    ensures found { IfOk result (λ r. Specified kinds.now typed at r) }
    ensures fails { IfErr result (λ e. FailsSpecifying kinds.now typed at e) }
{
    if let Kind::Align = kind_at(kinds, at) {
        return alignment(alloc, kinds, at, typed);
    }
    if list_opens(kinds, at) {
        return braced(alloc, kinds, at, typed);
    }
    if !atomic_opens(kinds, at) {
        return Ok(short_specifier(kinds, at, typed));
    }
    match atomic(alloc, kinds, at) {
        Ok((specifier, next)) => Ok(Some((specifier, next, true))),
        Err(stop) => Err(stop),
    }
}

// All specifiers that stand here, of those that this site admits, and whether a type specifier is among them.
#[cycle(parser)]
pub(crate) fn specifiers(
    alloc: Global,
    kinds: &Kinds<'_>,
    at: u32,
    site: Site,
) -> Result<(Vec<Specifier>, bool, u32), Stop>
    requires size { length kinds.now ≤ 2000000 }
    requires inside { at ≤ length kinds.now }
    ensures found { IfOk result (λ r. FoundSpecifiers kinds.now site at (specifyings (specifiers_of r.0.items) No_specifiers) r.2) }
    ensures told { IfOk result (λ r. r.1 ≡ typed_by kinds.now false (specifyings (specifiers_of r.0.items) No_specifiers)) }
    ensures only { (ss : Specifyings) → (end : ℕ) → HoldSpecifyings kinds.now false ss at end → MayStand kinds.now site ss
        → spec.ends_specifiers (spec.kind_at kinds.now end) (typed_by kinds.now false ss) ≡ true
        → MustGive result (λ r. (specifyings (specifiers_of r.0.items) No_specifiers ≡ ss) × (r.2 ≡ end)) }
{
    let mut specifiers = Vec::new(alloc);
    let mut end = at;
    let mut typed = false;
    'specifiers: loop {
        if stored_amiss(kinds, end, site) {
            return Err(Stop::Syntax(end));
        }
        let (one, next, typed_then) = match specifier(alloc, kinds, end, typed) {
            Ok(Some((one, next, typed_then))) => (one, next, typed_then),
            Ok(None) => return Ok((specifiers, typed, end)),
            Err(stop) => return Err(stop),
        };
        let Ok(()) = push(&mut specifiers, one) else {
            return Err(Stop::NoMemory);
        };
        end = next;
        typed = typed_then;
    }
}

// Specifiers and a declarator, behind which `)`, `:`, `,` or nothing has to stand, and the name that stands in it; whether it may have
// one.
#[cycle(parser)]
pub(crate) fn specified(
    alloc: Global,
    kinds: &Kinds<'_>,
    at: u32,
    named: bool,
) -> Result<(TypeName, Option<u32>, u32), Stop>
    requires size { length kinds.now ≤ 2000000 }
    requires inside { at ≤ length kinds.now }
    ensures found { IfOk result (λ r. FoundNaming kinds.now named at (type_of r.0) r.2) }
    ensures told { IfOk result (λ r. r.1 ≡ name_by (type_of r.0)) }
    ensures only { (t : Naming) → (end : ℕ) → HoldsNaming kinds.now named t at end → spec.ends_type (spec.kind_at kinds.now end) ≡ true
        → MustGive result (λ r. (type_of r.0 ≡ t) × (r.2 ≡ end)) }
{
    let (specifiers, typed, behind) = match specifiers(alloc, kinds, at, site_of(named)) {
        Ok(found) => found,
        Err(stop) => return Err(stop),
    };
    if specifiers.as_slice().is_empty() {
        return Err(Stop::Syntax(behind));
    }
    match declarator(alloc, kinds, behind, named_by(named, typed)) {
        Ok((declarator, name, end)) => {
            Ok((TypeName::new(Specs::new(specifiers), declarator), name, end))
        }
        Err(stop) => Err(stop),
    }
}

// The name of a type, behind which `)`, `:`, `,` or nothing has to stand.
#[cycle(parser)]
pub(crate) fn type_name(alloc: Global, kinds: &Kinds<'_>, at: u32) -> Result<(TypeName, u32), Stop>
    requires size { length kinds.now ≤ 2000000 }
    requires inside { at ≤ length kinds.now }
    ensures found { IfOk result (λ r. FoundType kinds.now at (type_of r.0) r.1) }
    ensures only { (t : Naming) → (end : ℕ) → HoldsType kinds.now t at end → spec.ends_type (spec.kind_at kinds.now end) ≡ true
        → MustGive result (λ r. (type_of r.0 ≡ t) × (r.1 ≡ end)) }
{
    match specified(alloc, kinds, at, false) {
        Ok((name, _, end)) => Ok((name, end)),
        Err(stop) => Err(stop),
    }
}
