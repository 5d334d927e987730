// Enumerators (ISO C11 6.7.2.2).
ghost use Rattle.std.specs.Prelude.{◌≡◌, true, ℕ, ◌+◌, ◌<◌, ◌≤◌, length, Option, IfOk, IfErr};
ghost use Rattle.tree_data.specs.Seen.{enumerator_of, enumerators_of};
ghost use Rattle.tree_data.specs.Trees as tree;
ghost use Rattle.tree_data.specs.Trees.{Enumerators, No_enumerators};
ghost use Rattle.c_parser.specs.declared.kinds.Kind.TheVariants.{CloseBrace, Enum};
ghost use Rattle.c_parser.specs.EnumeratorsFound.{FoundEnumerator, FoundEnumerators, ends_enumerator};
ghost use Rattle.c_parser.specs.Kinds as spec;
ghost use Rattle.c_parser.specs.Reading.{HoldsEnumerator, HoldEnumerators, HoldsComma, MustGive};
ghost use Rattle.c_parser.specs.TypeNames.{Specified, FailsSpecifying};

use crate::answers::Stop;
use crate::expressions::{CONDITIONAL, level};
use crate::kinds::{Kind, kind_at};
use crate::members::tag_before;
use crate::room::push;
use crate::scope::Kinds;
use std::alloc::Global;
use tree_data::{Enumerator, Specifier};

// An identifier, with a value behind `=` or without.
#[cycle(parser)]
fn enumerator(alloc: Global, kinds: &Kinds<'_>, at: u32) -> Result<(Enumerator, u32), Stop>
    requires size { length kinds.now ≤ 2000000 }
    requires inside { at ≤ length kinds.now }
    ensures found { IfOk result (λ r. FoundEnumerator kinds.now at (enumerator_of r.0) r.1) }
    ensures only { (x : tree.Enumerator) → (end : ℕ) → HoldsEnumerator kinds.now x at end
        → ends_enumerator (spec.kind_at kinds.now end) ≡ true
        → MustGive result (λ r. (enumerator_of r.0 ≡ x) × (r.1 ≡ end)) }
{
    if !kind_at(kinds, at).is_word() {
        return Err(Stop::Syntax(at));
    }
    let Kind::Equals = kind_at(kinds, at + 1) else {
        return Ok((Enumerator::counted(at), at + 1));
    };
    match level(alloc, kinds, CONDITIONAL, at + 2) {
        Ok((value, end)) => Ok((Enumerator::given(at, at + 1, value), end)),
        Err(stop) => Err(stop),
    }
}

// The enumerators that stand behind the first one, each with the comma in front of it, and a comma at the end.
#[cycle(parser)]
fn more_enumerators(
    alloc: Global,
    kinds: &Kinds<'_>,
    at: u32,
) -> Result<(Vec<(u32, Enumerator)>, Option<u32>, u32), Stop>
    requires size { length kinds.now ≤ 2000000 }
    requires inside { at ≤ length kinds.now }
    ensures found { IfOk result (λ r. FoundEnumerators kinds.now at (tree.enumerators (enumerators_of r.0.items) No_enumerators) r.1 r.2) }
    ensures only { (xs : Enumerators) → (k : ℕ) → (t : Option ℕ) → (end : ℕ) → HoldEnumerators kinds.now xs at k
        → HoldsComma kinds.now t k end → spec.kind_at kinds.now end ≡ CloseBrace
        → MustGive result (λ r. (tree.enumerators (enumerators_of r.0.items) No_enumerators ≡ xs) × (r.1 ≡ t) × (r.2 ≡ end)) }
{
    let mut more = Vec::new(alloc);
    let mut end = at;
    'enumerators: loop {
        let Kind::Comma = kind_at(kinds, end) else {
            return Ok((more, None, end));
        };
        if let Kind::CloseBrace = kind_at(kinds, end + 1) {
            return Ok((more, Some(end), end + 1));
        }
        let (one, next) = match enumerator(alloc, kinds, end + 1) {
            Ok(found) => found,
            Err(stop) => return Err(stop),
        };
        let Ok(()) = push(&mut more, (end, one)) else {
            return Err(Stop::NoMemory);
        };
        end = next;
    }
}

// `enum` with enumerators.
#[cycle(parser)]
pub(crate) fn enumeration(
    alloc: Global,
    kinds: &Kinds<'_>,
    at: u32,
    before: bool,
) -> Result<Option<(Specifier, u32, bool)>, Stop>
    requires size { length kinds.now ≤ 2000000 }
    requires inside { at < length kinds.now }
    requires kind { spec.kind_at kinds.now at ≡ Enum }
    requires braces { spec.braces_at kinds.now (at + 1) ≡ true }
    ensures found { IfOk result (λ r. Specified kinds.now before at r) }
    ensures fails { IfErr result (λ e. FailsSpecifying kinds.now before at e) }
{
    let (tag, opening) = tag_before(kinds, at + 1);
    let (first, behind) = match enumerator(alloc, kinds, opening + 1) {
        Ok(found) => found,
        Err(stop) => return Err(stop),
    };
    let (more, comma, closing) = match more_enumerators(alloc, kinds, behind) {
        Ok(found) => found,
        Err(stop) => {
            drop(first);
            return Err(stop);
        }
    };
    let Kind::CloseBrace = kind_at(kinds, closing) else {
        drop(first);
        return Err(Stop::Syntax(closing));
    };
    match Specifier::enumerators(alloc, at, tag, opening, first, more, comma, closing) {
        Ok(specifier) => Ok(Some((specifier, closing + 1, true))),
        Err(_) => Err(Stop::NoMemory),
    }
}
