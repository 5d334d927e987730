// Declarators, with a name where one may stand (ISO C11 6.7.6, 6.7.7): pointers, a declarator in parentheses, arrays and functions.
ghost use Rattle.std.specs.Prelude.{◌≡◌, true, false, ◌&&◌, not, ℕ, ◌+◌, ◌<◌, ◌≤◌, List, length, IfOk, IfErr};
ghost use Rattle.tree_data.specs.Seen.{pointers_of, declarator_of, group_of, deriving_of, derivings_of, bound_of, parameters_of, parameter_row_of};
ghost use Rattle.tree_data.specs.Trees as tree;
ghost use Rattle.tree_data.specs.Trees.{Declaring, Grouping, Derivings, No_derivings, needs_name};
ghost use Rattle.c_parser.specs.declared.kinds.Kind.TheVariants.{Identifier, OpenParen, CloseParen, OpenBracket, CloseBracket, Static};
ghost use Rattle.c_parser.specs.Declarators.{name_of, name_in, need_name, MayDerive};
ghost use Rattle.c_parser.specs.Enumerations as enumerations;
ghost use Rattle.c_parser.specs.Kinds as spec;
ghost use Rattle.c_parser.specs.Reading.{HoldsDeclaring, HoldsGrouping, HoldsDeriving, HoldDerivings, HoldsBound, HoldNames, HoldParameters, HoldRow, MustGive};
ghost use Rattle.c_parser.specs.TypeNames.{FoundQualifiers, FoundPointers, FoundDeclaring, FoundGrouping, FoundDeriving, FoundDerivings, FoundBound, FoundNames, FoundParameters, FoundRow, RowEnd};
ghost use Rattle.c_parser.specs.declared.kinds.Kind.{Kind};

use crate::answers::Stop;
use crate::expressions::{ASSIGNMENT, level};
use crate::kinds::{Kind, Named, any_size_at, kind_at, names_at, qualifies_at};
use crate::room::push;
use crate::scope::{Kinds, hide};
use crate::type_names::specified;
use std::alloc::Global;
use tree_data::{Bound, Declarator, Deriving, Group, Parameters, Pointer, TypeName};

// All qualifiers that stand here.
fn qualifiers(alloc: Global, kinds: &Kinds<'_>, at: u32) -> Result<(Vec<u32>, u32), Stop>
    requires size { length kinds.now ≤ 2000000 }
    requires inside { at ≤ length kinds.now }
    ensures found { IfOk result (λ r. FoundQualifiers kinds.now at r.0.items r.1) }
    ensures memory { IfErr result (λ e. e ≡ Stop.NoMemory) }
{
    let mut qualifiers = Vec::new(alloc);
    let mut end = at;
    'qualifiers: loop {
        if !qualifies_at(kinds, end) {
            return Ok((qualifiers, end));
        }
        let Ok(()) = push(&mut qualifiers, end) else {
            return Err(Stop::NoMemory);
        };
        end += 1;
    }
}

// All pointers that stand here.
pub(crate) fn pointers(
    alloc: Global,
    kinds: &Kinds<'_>,
    at: u32,
) -> Result<(Vec<Pointer>, u32), Stop>
    requires size { length kinds.now ≤ 2000000 }
    requires inside { at ≤ length kinds.now }
    ensures found { IfOk result (λ r. FoundPointers kinds.now at (pointers_of r.0.items) r.1) }
    ensures memory { IfErr result (λ e. e ≡ Stop.NoMemory) }
{
    let mut pointers = Vec::new(alloc);
    let mut end = at;
    'pointers: loop {
        let Kind::Star = kind_at(kinds, end) else {
            return Ok((pointers, end));
        };
        let (qualifiers, next) = match qualifiers(alloc, kinds, end + 1) {
            Ok(found) => found,
            Err(stop) => return Err(stop),
        };
        let pointer = Pointer {
            star: end,
            qualifiers,
        };
        let Ok(()) = push(&mut pointers, pointer) else {
            return Err(Stop::NoMemory);
        };
        end = next;
    }
}

// A name where one may stand, a declarator in parentheses, or nothing, and the name that stands in it. A `(` behind which `)`
// or what a parameter begins with stands opens the parameters of a function (6.7.6.3p11).
#[cycle(parser)]
fn group(
    alloc: Global,
    kinds: &Kinds<'_>,
    at: u32,
    named: Named,
) -> Result<(Group, Option<u32>, u32), Stop>
    requires size { length kinds.now ≤ 2000000 }
    requires inside { at ≤ length kinds.now }
    ensures found { IfOk result (λ r. FoundGrouping kinds.now named at (group_of r.0) r.2) }
    ensures told { IfOk result (λ r. r.1 ≡ name_in (group_of r.0)) }
    ensures only { (g : Grouping) → (m : ℕ) → (ds : Derivings) → (end : ℕ) → HoldsGrouping kinds.now named g at m
        → HoldDerivings kinds.now ds m end → MayDerive g ds → spec.ends_type (spec.kind_at kinds.now end) ≡ true
        → MustGive result (λ r. (group_of r.0 ≡ g) × (r.2 ≡ m)) }
{
    if names_at(kinds, at, named) {
        return Ok((Group::named(at), Some(at), at + 1));
    }
    let Kind::OpenParen = kind_at(kinds, at) else {
        return Ok((Group::none(), None, at));
    };
    if kind_at(kinds, at + 1).opens_parameters() {
        return Ok((Group::none(), None, at));
    }
    let (inner, name, closing) = match declarator(alloc, kinds, at + 1, named.grouped()) {
        Ok(found) => found,
        Err(stop) => return Err(stop),
    };
    let Kind::CloseParen = kind_at(kinds, closing) else {
        drop(inner);
        return Err(Stop::Syntax(closing));
    };
    match Group::of(alloc, at, inner, closing) {
        Ok(group) => Ok((group, name, closing + 1)),
        Err(_) => Err(Stop::NoMemory),
    }
}

// `static`, qualifiers and a size.
#[cycle(parser)]
fn static_bound(alloc: Global, kinds: &Kinds<'_>, at: u32) -> Result<(Bound, u32), Stop>
    requires size { length kinds.now ≤ 2000000 }
    requires inside { at < length kinds.now }
    requires kind { spec.kind_at kinds.now at ≡ Static }
    ensures found { IfOk result (λ r. FoundBound kinds.now at (bound_of r.0) r.1) }
    ensures only { (x : tree.Bound) → (end : ℕ) → HoldsBound kinds.now x at end → spec.kind_at kinds.now end ≡ CloseBracket
        → MustGive result (λ r. (bound_of r.0 ≡ x) × (r.1 ≡ end)) }
{
    let (qualifiers, behind) = match qualifiers(alloc, kinds, at + 1) {
        Ok(found) => found,
        Err(stop) => return Err(stop),
    };
    let (size, end) = match level(alloc, kinds, ASSIGNMENT, behind) {
        Ok(found) => found,
        Err(stop) => return Err(stop),
    };
    match Bound::static_sized(alloc, at, qualifiers, size) {
        Ok(bound) => Ok((bound, end)),
        Err(_) => Err(Stop::NoMemory),
    }
}

// What stands behind the qualifiers of an array: a size, `static` and a size, `*`, or nothing. Whether `*` may stand behind
// qualifiers is told where the array is taken.
#[cycle(parser)]
fn bound_behind(
    alloc: Global,
    kinds: &Kinds<'_>,
    at: u32,
    qualifiers: Vec<u32>,
    behind: u32,
) -> Result<(Bound, u32), Stop>
    requires size { length kinds.now ≤ 2000000 }
    requires found { FoundQualifiers kinds.now at qualifiers.items behind }
    requires unstatic { spec.kind_at kinds.now at ≡ Static → ⊥ }
    ensures found { IfOk result (λ r. FoundBound kinds.now at (bound_of r.0) r.1) }
    ensures only { (x : tree.Bound) → (end : ℕ) → HoldsBound kinds.now x at end → spec.kind_at kinds.now end ≡ CloseBracket
        → MustGive result (λ r. (bound_of r.0 ≡ x) × (r.1 ≡ end)) }
{
    if let Kind::CloseBracket = kind_at(kinds, behind) {
        return Ok((Bound::unsized_by(qualifiers), behind));
    }
    if any_size_at(kinds, behind) {
        return Ok((Bound::any_size(qualifiers, behind), behind + 1));
    }
    if let Kind::Static = kind_at(kinds, behind) {
        let (size, end) = match level(alloc, kinds, ASSIGNMENT, behind + 1) {
            Ok(found) => found,
            Err(stop) => return Err(stop),
        };
        return match Bound::sized_static(alloc, qualifiers, behind, size) {
            Ok(bound) => Ok((bound, end)),
            Err(_) => Err(Stop::NoMemory),
        };
    }
    let (size, end) = match level(alloc, kinds, ASSIGNMENT, behind) {
        Ok(found) => found,
        Err(stop) => return Err(stop),
    };
    match Bound::sized(alloc, qualifiers, size) {
        Ok(bound) => Ok((bound, end)),
        Err(_) => Err(Stop::NoMemory),
    }
}

// What stands in the brackets of an array, behind which `]` has to stand.
#[cycle(parser)]
fn bound(alloc: Global, kinds: &Kinds<'_>, at: u32) -> Result<(Bound, u32), Stop>
    requires size { length kinds.now ≤ 2000000 }
    requires inside { at ≤ length kinds.now }
    ensures found { IfOk result (λ r. FoundBound kinds.now at (bound_of r.0) r.1) }
    ensures only { (x : tree.Bound) → (end : ℕ) → HoldsBound kinds.now x at end → spec.kind_at kinds.now end ≡ CloseBracket
        → MustGive result (λ r. (bound_of r.0 ≡ x) × (r.1 ≡ end)) }
{
    if let Kind::Static = kind_at(kinds, at) {
        return static_bound(alloc, kinds, at);
    }
    match qualifiers(alloc, kinds, at) {
        Ok((qualifiers, behind)) => bound_behind(alloc, kinds, at, qualifiers, behind),
        Err(stop) => Err(stop),
    }
}

// An array.
#[cycle(parser)]
fn array(alloc: Global, kinds: &Kinds<'_>, at: u32) -> Result<(Deriving, u32), Stop>
    requires size { length kinds.now ≤ 2000000 }
    requires inside { at < length kinds.now }
    requires kind { spec.kind_at kinds.now at ≡ OpenBracket }
    ensures found { IfOk result (λ r. FoundDeriving kinds.now at (deriving_of r.0) r.1) }
    ensures only { (d : tree.Deriving) → (end : ℕ) → HoldsDeriving kinds.now d at end
        → MustGive result (λ r. (deriving_of r.0 ≡ d) × (r.1 ≡ end)) }
{
    let (bound, closing) = match bound(alloc, kinds, at + 1) {
        Ok(found) => found,
        Err(stop) => return Err(stop),
    };
    let Kind::CloseBracket = kind_at(kinds, closing) else {
        drop(bound);
        return Err(Stop::Syntax(closing));
    };
    Ok((Deriving::array(at, bound, closing), closing + 1))
}

// What the tokens are behind this name, if there is one.
fn behind_name<'a>(alloc: Global, kinds: &Kinds<'a>, name: Option<u32>) -> Result<Kinds<'a>, Stop>
    ensures given { IfOk result (λ k. k ≡ spec.hide kinds.now name) }
    ensures memory { IfErr result (λ e. e ≡ Stop.NoMemory) }
{
    let Ok(shared) = kinds.share() else {
        return Err(Stop::NoMemory);
    };
    match hide(alloc, shared, name) {
        Ok(inner) => Ok(inner),
        Err(_) => Err(Stop::NoMemory),
    }
}

// The parameters behind the first, each with the comma in front of it, up to a `,` with `...` behind it. From each name to the end of the
// list a typedef name of this text is hidden (6.2.1).
#[cycle(parser)]
fn parameter_row(
    alloc: Global,
    kinds: Kinds<'_>,
    at: u32,
) -> Result<(Vec<(u32, TypeName)>, u32), Stop>
    requires size { length kinds ≤ 2000000 }
    requires inside { at ≤ length kinds }
    ensures found { (ks : List Kind) → kinds.entry ≡ ks
        → IfOk result (λ r. FoundRow ks at (tree.row (parameter_row_of r.0.items) tree.No_more) r.1) }
    ensures only { (ks : List Kind) → kinds.entry ≡ ks → (ps : tree.Row) → (end : ℕ) → HoldRow ks ps at end → RowEnd ks end
        → MustGive result (λ r. (tree.row (parameter_row_of r.0.items) tree.No_more ≡ ps) × (r.1 ≡ end)) }
{
    let mut inner = kinds;
    let mut more = Vec::new(alloc);
    let mut end = at;
    'parameters: loop {
        let Kind::Comma = kind_at(&inner, end) else {
            return Ok((more, end));
        };
        if let Kind::Ellipsis = kind_at(&inner, end + 1) {
            return Ok((more, end));
        }
        let (one, name, next) = match specified(alloc, &inner, end + 1, true) {
            Ok(found) => found,
            Err(stop) => return Err(stop),
        };
        let Ok(()) = push(&mut more, (end, one)) else {
            return Err(Stop::NoMemory);
        };
        let Ok(further) = hide(alloc, inner, name) else {
            return Err(Stop::NoMemory);
        };
        inner = further;
        end = next;
    }
}

// The parameters behind the first, which has this name.
#[cycle(parser)]
fn more_parameters(
    alloc: Global,
    kinds: &Kinds<'_>,
    at: u32,
    name: Option<u32>,
) -> Result<(Vec<(u32, TypeName)>, u32), Stop>
    requires size { length kinds.now ≤ 2000000 }
    requires inside { at ≤ length kinds.now }
    ensures found { IfOk result (λ r. FoundRow (spec.hide kinds.now name) at (tree.row (parameter_row_of r.0.items) tree.No_more) r.1) }
    ensures only { (ps : tree.Row) → (end : ℕ) → HoldRow (spec.hide kinds.now name) ps at end → RowEnd (spec.hide kinds.now name) end
        → MustGive result (λ r. (tree.row (parameter_row_of r.0.items) tree.No_more ≡ ps) × (r.1 ≡ end)) }
{
    match behind_name(alloc, kinds, name) {
        Ok(inner) => parameter_row(alloc, inner, at),
        Err(stop) => Err(stop),
    }
}

// The identifiers behind the first of a list, each with the comma in front of it (6.7.6), behind which `)` has to stand.
fn more_identifiers(
    alloc: Global,
    kinds: &Kinds<'_>,
    at: u32,
) -> Result<(Vec<(u32, u32)>, u32), Stop>
    requires size { length kinds.now ≤ 2000000 }
    requires inside { at ≤ length kinds.now }
    ensures found { IfOk result (λ r. FoundNames kinds.now at r.0.items r.1) }
    ensures only { (ns : List (ℕ × ℕ)) → (end : ℕ) → HoldNames kinds.now ns at end → spec.kind_at kinds.now end ≡ CloseParen
        → MustGive result (λ r. (r.0.items ≡ ns) × (r.1 ≡ end)) }
{
    let mut more = Vec::new(alloc);
    let mut end = at;
    'identifiers: loop {
        let Kind::Comma = kind_at(kinds, end) else {
            return Ok((more, end));
        };
        let Kind::Identifier = kind_at(kinds, end + 1) else {
            return Err(Stop::Syntax(end + 1));
        };
        let Ok(()) = push(&mut more, (end, end + 1)) else {
            return Err(Stop::NoMemory);
        };
        end += 2;
    }
}

// A list of identifiers, behind which `)` has to stand.
fn identifier_list(alloc: Global, kinds: &Kinds<'_>, at: u32) -> Result<(Parameters, u32), Stop>
    requires size { length kinds.now ≤ 2000000 }
    requires inside { at < length kinds.now }
    requires kind { spec.kind_at kinds.now at ≡ Identifier }
    ensures found { IfOk result (λ r. FoundParameters kinds.now at (parameters_of r.0) r.1) }
    ensures only { (ps : tree.Parameters) → (end : ℕ) → HoldParameters kinds.now ps at end → spec.kind_at kinds.now end ≡ CloseParen
        → MustGive result (λ r. (parameters_of r.0 ≡ ps) × (r.1 ≡ end)) }
{
    match more_identifiers(alloc, kinds, at + 1) {
        Ok((more, end)) => Ok((Parameters::names(at, more), end)),
        Err(stop) => Err(stop),
    }
}

// The parameters of a function, behind which `)` has to stand. An identifier that is no typedef name begins a list of such.
#[cycle(parser)]
fn parameters(alloc: Global, kinds: &Kinds<'_>, at: u32) -> Result<(Parameters, u32), Stop>
    requires size { length kinds.now ≤ 2000000 }
    requires inside { at ≤ length kinds.now }
    ensures found { IfOk result (λ r. FoundParameters kinds.now at (parameters_of r.0) r.1) }
    ensures only { (ps : tree.Parameters) → (end : ℕ) → HoldParameters kinds.now ps at end → spec.kind_at kinds.now end ≡ CloseParen
        → MustGive result (λ r. (parameters_of r.0 ≡ ps) × (r.1 ≡ end)) }
{
    if let Kind::CloseParen = kind_at(kinds, at) {
        return Ok((Parameters::none(), at));
    }
    if let Kind::Identifier = kind_at(kinds, at) {
        return identifier_list(alloc, kinds, at);
    }
    let (first, name, behind) = match specified(alloc, kinds, at, true) {
        Ok(found) => found,
        Err(stop) => return Err(stop),
    };
    let (more, end) = match more_parameters(alloc, kinds, behind, name) {
        Ok(found) => found,
        Err(stop) => {
            drop(first);
            return Err(stop);
        }
    };
    let Kind::Comma = kind_at(kinds, end) else {
        return match Parameters::fixed(alloc, first, more) {
            Ok(parameters) => Ok((parameters, end)),
            Err(_) => Err(Stop::NoMemory),
        };
    };
    match Parameters::variadic(alloc, first, more, end, end + 1) {
        Ok(parameters) => Ok((parameters, end + 2)),
        Err(_) => Err(Stop::NoMemory),
    }
}

// Whether an enumerator that hides a typedef name stands here.
fn hides(kinds: &Kinds<'_>, at: u32) -> bool
    ensures { result ≡ (enumerations.enumerates kinds.now at && spec.is_typedef (spec.kind_at kinds.now at)) }
{
    kinds.enumerates(at) && kind_at(kinds, at).is_typedef()
}

// Whether one stands between these tokens.
fn bars(kinds: &Kinds<'_>, from: u32, to: u32) -> bool
    ensures { result ≡ enumerations.bars kinds.now from to }
{
    let mut at = from;
    'tokens: while at < to {
        if hides(kinds, at) {
            return true;
        }
        at += 1;
    }
    false
}

// A function.
#[cycle(parser)]
fn function(alloc: Global, kinds: &Kinds<'_>, at: u32) -> Result<(Deriving, u32), Stop>
    requires size { length kinds.now ≤ 2000000 }
    requires inside { at < length kinds.now }
    requires kind { spec.kind_at kinds.now at ≡ OpenParen }
    ensures found { IfOk result (λ r. FoundDeriving kinds.now at (deriving_of r.0) r.1) }
    ensures only { (d : tree.Deriving) → (end : ℕ) → HoldsDeriving kinds.now d at end
        → MustGive result (λ r. (deriving_of r.0 ≡ d) × (r.1 ≡ end)) }
{
    let (parameters, closing) = match parameters(alloc, kinds, at + 1) {
        Ok(found) => found,
        Err(stop) => return Err(stop),
    };
    let Kind::CloseParen = kind_at(kinds, closing) else {
        drop(parameters);
        return Err(Stop::Syntax(closing));
    };
    if bars(kinds, at, closing) {
        drop(parameters);
        return Err(Stop::Syntax(closing));
    }
    Ok((Deriving::function(at, parameters, closing), closing + 1))
}

// An array or a function.
#[cycle(parser)]
fn array_or_function(alloc: Global, kinds: &Kinds<'_>, at: u32) -> Result<(Deriving, u32), Stop>
    requires size { length kinds.now ≤ 2000000 }
    requires inside { at ≤ length kinds.now }
    requires kind { spec.is_deriving (spec.kind_at kinds.now at) ≡ true }
    ensures found { IfOk result (λ r. FoundDeriving kinds.now at (deriving_of r.0) r.1) }
    ensures only { (d : tree.Deriving) → (end : ℕ) → HoldsDeriving kinds.now d at end
        → MustGive result (λ r. (deriving_of r.0 ≡ d) × (r.1 ≡ end)) }
{
    match kind_at(kinds, at) {
        Kind::OpenBracket => array(alloc, kinds, at),
        Kind::OpenParen => function(alloc, kinds, at),
        _ => Err(Stop::Syntax(at)),
    }
}

// The token that shows that an array or a function from one place to another stands behind a name alone: the first identifier of
// a list, or the `]` behind qualifiers and `*`.
fn amiss(kinds: &Kinds<'_>, from: u32, to: u32) -> u32 {
    let Kind::OpenParen = kind_at(kinds, from) else {
        return to.saturating_sub(1);
    };
    from.saturating_add(1)
}

// Whether it stands behind a name alone, where there is none.
fn lacks_name(one: &Deriving, declares: bool) -> bool
    ensures { result ≡ (needs_name (deriving_of one.now) && not declares) }
{
    one.needs_name() && !declares
}

// The arrays and functions that stand here, behind a name or behind none.
#[cycle(parser)]
pub(crate) fn derivings(
    alloc: Global,
    kinds: &Kinds<'_>,
    at: u32,
    declares: bool,
) -> Result<(Vec<Deriving>, u32), Stop>
    requires size { length kinds.now ≤ 2000000 }
    requires inside { at ≤ length kinds.now }
    ensures found { IfOk result (λ r. FoundDerivings kinds.now declares at (tree.derivings (derivings_of r.0.items) No_derivings) r.1) }
    ensures only { (ds : Derivings) → (end : ℕ) → HoldDerivings kinds.now ds at end → (need_name ds ≡ true → declares ≡ true)
        → spec.ends_type (spec.kind_at kinds.now end) ≡ true
        → MustGive result (λ r. (tree.derivings (derivings_of r.0.items) No_derivings ≡ ds) × (r.1 ≡ end)) }
{
    let mut derivings = Vec::new(alloc);
    let mut end = at;
    'derivings: loop {
        if !kind_at(kinds, end).is_deriving() {
            return Ok((derivings, end));
        }
        let (one, next) = match array_or_function(alloc, kinds, end) {
            Ok(found) => found,
            Err(stop) => return Err(stop),
        };
        if lacks_name(&one, declares) {
            drop(one);
            return Err(Stop::Syntax(amiss(kinds, end, next)));
        }
        let Ok(()) = push(&mut derivings, one) else {
            return Err(Stop::NoMemory);
        };
        end = next;
    }
}

// Which name may stand behind these pointers.
fn behind(named: Named, pointers: &[Pointer]) -> Named
    ensures { result ≡ spec.behind_pointers named pointers.now }
{
    let Some(_) = pointers.first() else {
        return named;
    };
    named.pointed()
}

// A declarator, abstract or nothing, or one with a name where one may stand, and the name that stands in it.
#[cycle(parser)]
pub(crate) fn declarator(
    alloc: Global,
    kinds: &Kinds<'_>,
    at: u32,
    named: Named,
) -> Result<(Declarator, Option<u32>, u32), Stop>
    requires size { length kinds.now ≤ 2000000 }
    requires inside { at ≤ length kinds.now }
    ensures found { IfOk result (λ r. FoundDeclaring kinds.now named at (declarator_of r.0) r.2) }
    ensures told { IfOk result (λ r. r.1 ≡ name_of (declarator_of r.0)) }
    ensures only { (d : Declaring) → (end : ℕ) → HoldsDeclaring kinds.now named d at end
        → spec.ends_type (spec.kind_at kinds.now end) ≡ true
        → MustGive result (λ r. (declarator_of r.0 ≡ d) × (r.2 ≡ end)) }
{
    let (pointers, place) = match pointers(alloc, kinds, at) {
        Ok(found) => found,
        Err(stop) => return Err(stop),
    };
    let which = behind(named, pointers.as_slice());
    let (group, name, next) = match group(alloc, kinds, place, which) {
        Ok(found) => found,
        Err(stop) => return Err(stop),
    };
    match derivings(alloc, kinds, next, name.is_some()) {
        Ok((derivings, end)) => Ok((Declarator::new(pointers, group, derivings), name, end)),
        Err(stop) => {
            drop(group);
            Err(stop)
        }
    }
}
