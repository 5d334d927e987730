// Heads of declarations and functions, and static assertions (ISO C11 6.7, 6.7.6, 6.7.10, 6.9). Behind each declarator its name is
// declared, also for the tokens of the same head (6.2.1).
ghost use Rattle.std.specs.Prelude.{◌≡◌, Bool, true, false, not, ℕ, ◌+◌, ◌<◌, ◌≤◌, List, [], ◌∷◌, length, Option, Some, None, option_map, IfOk, IfErr};
ghost use Rattle.tree_data.specs.Heads.{declared_one, declared_of, heading_of};
ghost use Rattle.tree_data.specs.Seen.{assertion_of, declarator_of, initial_of, specifier_of, specifiers_of, specs_of};
ghost use Rattle.tree_data.specs.Trees.{Declaring, Initial, Specifyings, No_specifiers, specifyings, Heading, Declares_of};
ghost use Rattle.tree_data.specs.Trees as tree;
ghost use Rattle.c_parser.specs.declared.kinds.Kind.TheVariants.{Assert};
ghost use Rattle.c_parser.specs.Declarators.{name_of};
ghost use Rattle.c_parser.specs.Heads as head;
ghost use Rattle.c_parser.specs.Heads.{HoldsValue, HoldsOne, HoldAll, HoldsHead, Closes};
ghost use Rattle.c_parser.specs.HeadsFound.{FoundDeclarator, FoundValue, FoundOne, FoundAll, FoundFront, FoundDeclared, FoundAssertion, FoundHead, ends_one, ends_all};
ghost use Rattle.c_parser.specs.Grammar.{AreSome, typed_by};
ghost use Rattle.c_parser.specs.Kinds as spec;
ghost use Rattle.c_parser.specs.Reading.{HoldSpecifyings, HoldsDeclarator, HoldsAssertion, MustGive};
ghost use Rattle.c_parser.specs.Words.{shown, shown_from};

use crate::answers::Stop;
use crate::initializers::init;
use crate::kinds::{Kind, Site, kind_at};
use crate::members::{assertion, declared};
use crate::room::push;
use crate::scope::{Kinds, Scope};
use crate::type_names::specifiers;
use std::alloc::Global;
use tree_data::{Assertion, Declarator, Head, Init, Specifier, Specs};

// What the declarators of a declaration stand behind: whether a type specifier is there, and whether `typedef` is.
#[derive(Clone, Copy, Drop)]
pub(crate) struct Leading {
    typed: bool,
    typedef: bool,
}

// A declarator of a declaration, under the identifiers in force.
fn declarator_in(
    alloc: Global,
    scope: &Scope<'_>,
    origin: u32,
    at: u32,
    typed: bool,
) -> Result<(Declarator, u32, u32), Stop>
    requires size { length scope.now.kinds ≤ 2000000 }
    requires inside { at ≤ length scope.now.kinds }
    ensures found { IfOk result (λ r. FoundDeclarator (shown_from scope.now origin) (not typed) at (declarator_of r.0) r.2) }
    ensures told { IfOk result (λ r. name_of (declarator_of r.0) ≡ Some r.1) }
    ensures only { (d : Declaring) → (end : ℕ) → HoldsDeclarator (shown_from scope.now origin) (not typed) d at end
        → spec.ends_type (spec.kind_at (shown_from scope.now origin) end) ≡ true
        → MustGive result (λ r. (declarator_of r.0 ≡ d) × (r.2 ≡ end)) }
{
    let Ok(kinds) = scope.kinds(origin) else {
        return Err(Stop::NoMemory);
    };
    match declared(alloc, &kinds, at, !typed) {
        Ok(found) => Ok(found),
        Err(stop) => Err(stop),
    }
}

// `=` and an initializer, or nothing, under the identifiers in force.
fn value_in(
    alloc: Global,
    scope: &Scope<'_>,
    origin: u32,
    at: u32,
) -> Result<(Option<Init>, u32), Stop>
    requires size { length scope.now.kinds ≤ 2000000 }
    requires inside { at ≤ length scope.now.kinds }
    ensures found { IfOk result (λ r. FoundValue (shown_from scope.now origin) at (option_map initial_of r.0) r.1) }
    ensures only { (i : Option Initial) → (end : ℕ) → HoldsValue (shown_from scope.now origin) i at end
        → ends_one (spec.kind_at (shown_from scope.now origin) end) ≡ true
        → MustGive result (λ r. (option_map initial_of r.0 ≡ i) × (r.1 ≡ end)) }
{
    let Ok(kinds) = scope.kinds(origin) else {
        return Err(Stop::NoMemory);
    };
    let Kind::Equals = kind_at(&kinds, at) else {
        return Ok((None, at));
    };
    match init(alloc, &kinds, at + 1) {
        Ok((value, end)) => Ok((Some(value), end)),
        Err(stop) => Err(stop),
    }
}

// A declarator with its initializer or without, and the identifiers behind it.
fn one<'a>(
    alloc: Global,
    scope: Scope<'a>,
    origin: u32,
    at: u32,
    leading: Leading,
) -> Result<((Declarator, Option<Init>), Scope<'a>, u32), Stop>
    requires size { length scope.kinds ≤ 2000000 }
    requires inside { at ≤ length scope.kinds }
    ensures found { IfOk result (λ r. FoundOne scope.entry origin (head.both leading.typed leading.typedef) at
        (declared_one r.0).0 (declared_one r.0).1 r.2) }
    ensures behind { IfOk result (λ r. r.1 ≡ head.past scope.entry (head.both leading.typed leading.typedef) (declared_one r.0).0) }
    ensures only { (d : Declaring) → (i : Option Initial) → (end : ℕ)
        → HoldsOne scope.entry origin (head.both leading.typed leading.typedef) d i at end
        → ends_one (spec.kind_at scope.entry.kinds end) ≡ true
        → MustGive result (λ r. (declared_one r.0 ≡ (d, i)) × (r.2 ≡ end)) }
{
    let (declarator, name, place) = match declarator_in(alloc, &scope, origin, at, leading.typed) {
        Ok(found) => found,
        Err(stop) => return Err(stop),
    };
    let Ok(behind) = scope.declare(alloc, leading.typedef, name) else {
        return Err(Stop::NoMemory);
    };
    match value_in(alloc, &behind, origin, place) {
        Ok((value, end)) => Ok(((declarator, value), behind, end)),
        Err(stop) => Err(stop),
    }
}

// The declarators of a declaration, at least one, with commas between them, and the identifiers behind them.
fn all<'a>(
    alloc: Global,
    scope: Scope<'a>,
    origin: u32,
    at: u32,
    leading: Leading,
) -> Result<(Vec<(Declarator, Option<Init>)>, Scope<'a>, u32), Stop>
    requires size { length scope.kinds ≤ 2000000 }
    requires inside { at ≤ length scope.kinds }
    ensures found { IfOk result (λ r. FoundAll scope.entry origin (head.both leading.typed leading.typedef) at
        (declared_of r.0.items) r.2) }
    ensures past { IfOk result (λ r. r.1 ≡ head.past_all scope.entry (head.both leading.typed leading.typedef) (declared_of r.0.items)) }
    ensures only { (p : Declaring × Option Initial) → (ps : List (Declaring × Option Initial)) → (end : ℕ)
        → HoldAll scope.entry origin (head.both leading.typed leading.typedef) (p ∷ ps) at end
        → ends_all (spec.kind_at scope.entry.kinds end) ≡ true
        → MustGive result (λ r. (declared_of r.0.items ≡ p ∷ ps) × (r.2 ≡ end)) }
{
    let mut list = Vec::new(alloc);
    let mut inner = scope;
    let mut typed = leading.typed;
    let mut end = at;
    'declarators: loop {
        let front = Leading {
            typed,
            typedef: leading.typedef,
        };
        let (one, behind, next) = match one(alloc, inner, origin, end, front) {
            Ok(found) => found,
            Err(stop) => return Err(stop),
        };
        let Ok(()) = push(&mut list, one) else {
            return Err(Stop::NoMemory);
        };
        let Kind::Comma = behind.at(next) else {
            return Ok((list, behind, next));
        };
        inner = behind;
        typed = true;
        end = next + 1;
    }
}

// Whether this specifier is `typedef`.
fn defines_one(kinds: &Kinds<'_>, one: &Specifier) -> bool
    ensures { result ≡ head.defines_one kinds.now (specifier_of one.now) }
{
    match one.as_word() {
        Some(at) => kind_at(kinds, at).is_typedef_word(),
        None => false,
    }
}

// Whether one of these is.
fn defines(kinds: &Kinds<'_>, specifiers: &[Specifier]) -> bool
    ensures { result ≡ head.defines kinds.now (specifyings (specifiers_of specifiers.now) No_specifiers) }
{
    let mut rest = specifiers;
    'specifiers: while let Some((one, behind)) = rest.split_first() {
        if defines_one(kinds, one) {
            return true;
        }
        rest = behind;
    }
    false
}

// Specifiers of a declaration, and what its declarators stand behind.
fn front_in(alloc: Global, scope: &Scope<'_>, at: u32) -> Result<(Specs, Leading, u32), Stop>
    requires size { length scope.now.kinds ≤ 2000000 }
    requires inside { at ≤ length scope.now.kinds }
    ensures found { IfOk result (λ r. FoundFront (shown_from scope.now at) at (specs_of r.0) r.2) }
    ensures told { IfOk result (λ r. head.both r.1.typed r.1.typedef ≡ head.leading_of (shown scope.now) (specs_of r.0)) }
    ensures only { (ss : Specifyings) → (end : ℕ) → AreSome ss → HoldSpecifyings (shown_from scope.now at) false ss at end
        → spec.ends_specifiers (spec.kind_at (shown_from scope.now at) end) (typed_by (shown_from scope.now at) false ss) ≡ true
        → MustGive result (λ r. (specs_of r.0 ≡ ss) × (r.2 ≡ end)) }
{
    let Ok(kinds) = scope.kinds(at) else {
        return Err(Stop::NoMemory);
    };
    let (specifiers, typed, behind) = match specifiers(alloc, &kinds, at, Site::OfDeclaration) {
        Ok(found) => found,
        Err(stop) => return Err(stop),
    };
    if specifiers.as_slice().is_empty() {
        return Err(Stop::Syntax(behind));
    }
    let typedef = defines(&kinds, specifiers.as_slice());
    Ok((Specs::new(specifiers), Leading { typed, typedef }, behind))
}

// Whether these are one declarator without an initializer, as a function's definition has it.
fn is_alone(declarators: &[(Declarator, Option<Init>)]) -> bool
    ensures { result ≡ head.is_alone (declared_of declarators.now) }
{
    let Some((first, behind)) = declarators.split_first() else {
        return false;
    };
    behind.is_empty() && first.1.is_none()
}

// Declarators up to `;`, or one up to the `{` of a body, and the identifiers behind them.
fn declarators_in<'a>(
    alloc: Global,
    scope: Scope<'a>,
    origin: u32,
    at: u32,
    leading: Leading,
) -> Result<(Vec<(Declarator, Option<Init>)>, bool, Scope<'a>, u32), Stop>
    requires size { length scope.kinds ≤ 2000000 }
    requires inside { at ≤ length scope.kinds }
    ensures found { IfOk result (λ r. FoundDeclared scope.entry origin (head.both leading.typed leading.typedef) at
        (declared_of r.0.items) r.1 r.3) }
    ensures past { IfOk result (λ r. r.2 ≡ head.past_all scope.entry (head.both leading.typed leading.typedef) (declared_of r.0.items)) }
    ensures only { (ds : List (Declaring × Option Initial)) → (body : Bool) → (n : ℕ)
        → HoldAll scope.entry origin (head.both leading.typed leading.typedef) ds at n
        → Closes scope.entry.kinds ds body n
        → MustGive result (λ r. (declared_of r.0.items ≡ ds) × (r.1 ≡ body) × (r.3 ≡ n + 1)) }
{
    if let Kind::Semicolon = scope.at(at) {
        return Ok((Vec::new(alloc), false, scope, at + 1));
    }
    let (list, behind, end) = match all(alloc, scope, origin, at, leading) {
        Ok(found) => found,
        Err(stop) => return Err(stop),
    };
    if let Kind::Semicolon = behind.at(end) {
        return Ok((list, false, behind, end + 1));
    }
    let Kind::OpenBrace = behind.at(end) else {
        return Err(Stop::Syntax(end));
    };
    if !is_alone(list.as_slice()) {
        return Err(Stop::Syntax(end));
    }
    Ok((list, true, behind, end + 1))
}

// A declaration, or a function up to the `{` of its body, and the identifiers behind it.
fn declaration<'a>(alloc: Global, scope: Scope<'a>, at: u32) -> Result<(Head, Scope<'a>, u32), Stop>
    requires size { length scope.kinds ≤ 2000000 }
    requires inside { at ≤ length scope.kinds }
    requires other { spec.kind_at scope.kinds at ≡ Assert → ⊥ }
    ensures found { IfOk result (λ r. FoundHead scope.entry at (heading_of r.0) r.2) }
    ensures past { IfOk result (λ r. r.1 ≡ head.past_head scope.entry (heading_of r.0)) }
    ensures only { (h : Heading) → (end : ℕ) → HoldsHead scope.entry h at end
        → MustGive result (λ r. (heading_of r.0 ≡ h) × (r.2 ≡ end)) }
{
    let (specs, leading, place) = match front_in(alloc, &scope, at) {
        Ok(found) => found,
        Err(stop) => return Err(stop),
    };
    let (list, has_body, behind, end) = match declarators_in(alloc, scope, at, place, leading) {
        Ok(found) => found,
        Err(stop) => return Err(stop),
    };
    match behind.past(alloc, at, end) {
        Ok(behind) => Ok((Head::new(specs, list, has_body), behind, end)),
        Err(_) => Err(Stop::NoMemory),
    }
}

// A static assertion, under the identifiers in force.
fn assertion_in(alloc: Global, scope: &Scope<'_>, at: u32) -> Result<(Assertion, u32), Stop>
    requires size { length scope.now.kinds ≤ 2000000 }
    requires inside { at < length scope.now.kinds }
    requires kind { spec.kind_at scope.now.kinds at ≡ Assert }
    ensures found { IfOk result (λ r. FoundAssertion (shown_from scope.now at) at (assertion_of r.0) r.1) }
    ensures only { (x : tree.Assertion) → (end : ℕ) → HoldsAssertion (shown_from scope.now at) x at end
        → MustGive result (λ r. (assertion_of r.0 ≡ x) × (r.1 ≡ end)) }
{
    let Ok(kinds) = scope.kinds(at) else {
        return Err(Stop::NoMemory);
    };
    match assertion(alloc, &kinds, at) {
        Ok(found) => Ok(found),
        Err(stop) => Err(stop),
    }
}

// A head, and the identifiers behind it.
pub(crate) fn head<'a>(
    alloc: Global,
    scope: Scope<'a>,
    at: u32,
) -> Result<(Head, Scope<'a>, u32), Stop>
    requires size { length scope.kinds ≤ 2000000 }
    requires inside { at ≤ length scope.kinds }
    ensures found { IfOk result (λ r. FoundHead scope.entry at (heading_of r.0) r.2) }
    ensures past { IfOk result (λ r. r.1 ≡ head.past_head scope.entry (heading_of r.0)) }
    ensures only { (h : Heading) → (end : ℕ) → HoldsHead scope.entry h at end
        → MustGive result (λ r. (heading_of r.0 ≡ h) × (r.2 ≡ end)) }
{
    let Kind::Assert = scope.at(at) else {
        return declaration(alloc, scope, at);
    };
    let (assertion, end) = match assertion_in(alloc, &scope, at) {
        Ok(found) => found,
        Err(stop) => return Err(stop),
    };
    match scope.past(alloc, at, end) {
        Ok(behind) => {
            let head = Head::asserted(Specs::new(Vec::new(alloc)), Vec::new(alloc), assertion);
            Ok((head, behind, end))
        }
        Err(_) => {
            drop(assertion);
            Err(Stop::NoMemory)
        }
    }
}
