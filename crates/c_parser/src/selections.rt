// Generic selections (ISO C11 6.5.1.1), and the place of a member, for `offsetof` (7.19).
ghost use Rattle.std.specs.Prelude.{◌≡◌, ℕ, ◌+◌, ◌<◌, ◌≤◌, length, IfOk};
ghost use Rattle.tree_data.specs.Seen.{tree_of, suffixes_of, association_of, associations_of};
ghost use Rattle.tree_data.specs.Trees as tree;
ghost use Rattle.tree_data.specs.Trees.{Tree, Behinds, None_behind, behinds, Associations, associations};
ghost use Rattle.c_parser.specs.declared.kinds.Kind.TheVariants.{CloseParen, Default, Generic, OffsetOf};
ghost use Rattle.c_parser.specs.Grammar.{AreSteps};
ghost use Rattle.c_parser.specs.Kinds as spec;
ghost use Rattle.c_parser.specs.Reading.{Reads, HoldBehinds, HoldsAssociation, HoldAssociations, Stops, Found, FoundSteps, FoundAssociation, FoundAssociations, MustGive};

use crate::answers::Stop;
use crate::expressions::{ASSIGNMENT, level, suffix};
use crate::kinds::{Kind, kind_at};
use crate::room::push;
use crate::scope::Kinds;
use crate::type_names::type_name;
use std::alloc::Global;
use tree_data::{Association, Expr, Suffix};

// `default : assignment-expression`.
#[cycle(parser)]
fn other(alloc: Global, kinds: &Kinds<'_>, at: u32) -> Result<(Association, u32), Stop>
    requires size { length kinds.now ≤ 2000000 }
    requires inside { at < length kinds.now }
    requires kind { spec.kind_at kinds.now at ≡ Default }
    ensures found { IfOk result (λ r. FoundAssociation kinds.now at (association_of r.0) r.1) }
    ensures only { (x : tree.Association) → (end : ℕ) → HoldsAssociation kinds.now x at end → Stops kinds.now 2 end
        → MustGive result (λ r. (association_of r.0 ≡ x) × (r.1 ≡ end)) }
{
    let Kind::Colon = kind_at(kinds, at + 1) else {
        return Err(Stop::Syntax(at + 1));
    };
    match level(alloc, kinds, ASSIGNMENT, at + 2) {
        Ok((expr, end)) => Ok((Association::other(at, at + 1, expr), end)),
        Err(stop) => Err(stop),
    }
}

// `type-name : assignment-expression`, or one for all other types.
#[cycle(parser)]
fn association(alloc: Global, kinds: &Kinds<'_>, at: u32) -> Result<(Association, u32), Stop>
    requires size { length kinds.now ≤ 2000000 }
    requires inside { at ≤ length kinds.now }
    ensures found { IfOk result (λ r. FoundAssociation kinds.now at (association_of r.0) r.1) }
    ensures only { (x : tree.Association) → (end : ℕ) → HoldsAssociation kinds.now x at end → Stops kinds.now 2 end
        → MustGive result (λ r. (association_of r.0 ≡ x) × (r.1 ≡ end)) }
{
    if let Kind::Default = kind_at(kinds, at) {
        return other(alloc, kinds, at);
    }
    let (name, colon) = match type_name(alloc, kinds, at) {
        Ok(found) => found,
        Err(stop) => return Err(stop),
    };
    let Kind::Colon = kind_at(kinds, colon) else {
        drop(name);
        return Err(Stop::Syntax(colon));
    };
    match level(alloc, kinds, ASSIGNMENT, colon + 1) {
        Ok((expr, end)) => match Association::typed(alloc, name, colon, expr) {
            Ok(association) => Ok((association, end)),
            Err(_) => Err(Stop::NoMemory),
        },
        Err(stop) => {
            drop(name);
            Err(stop)
        }
    }
}

// The associations that stand here, each with the comma in front of it.
#[cycle(parser)]
fn associations(
    alloc: Global,
    kinds: &Kinds<'_>,
    at: u32,
) -> Result<(Vec<(u32, Association)>, u32), Stop>
    requires size { length kinds.now ≤ 2000000 }
    requires inside { at ≤ length kinds.now }
    ensures found { IfOk result (λ r. FoundAssociations kinds.now at (associations (associations_of r.0.items)) r.1) }
    ensures only { (xs : Associations) → (end : ℕ) → HoldAssociations kinds.now xs at end
        → spec.kind_at kinds.now end ≡ CloseParen
        → MustGive result (λ r. (associations (associations_of r.0.items) ≡ xs) × (r.1 ≡ end)) }
{
    let mut choices = Vec::new(alloc);
    let mut end = at;
    'choices: loop {
        let Kind::Comma = kind_at(kinds, end) else {
            return Ok((choices, end));
        };
        let (one, next) = match association(alloc, kinds, end + 1) {
            Ok(found) => found,
            Err(stop) => return Err(stop),
        };
        let Ok(()) = push(&mut choices, (end, one)) else {
            return Err(Stop::NoMemory);
        };
        end = next;
    }
}

// `_Generic ( assignment-expression , generic-assoc-list )`.
#[cycle(parser)]
pub(crate) fn generic(alloc: Global, kinds: &Kinds<'_>, at: u32) -> Result<(Expr, u32), Stop>
    requires size { length kinds.now ≤ 2000000 }
    requires inside { at < length kinds.now }
    requires kind { spec.kind_at kinds.now at ≡ Generic }
    ensures found { IfOk result (λ r. Found kinds.now 17 at (tree_of r.0) r.1) }
    ensures only { (t : Tree) → (end : ℕ) → Reads kinds.now 17 t at end → Stops kinds.now 17 end
        → MustGive result (λ r. (tree_of r.0 ≡ t) × (r.1 ≡ end)) }
{
    let Kind::OpenParen = kind_at(kinds, at + 1) else {
        return Err(Stop::Syntax(at + 1));
    };
    let (control, behind) = match level(alloc, kinds, ASSIGNMENT, at + 2) {
        Ok(found) => found,
        Err(stop) => return Err(stop),
    };
    let Kind::Comma = kind_at(kinds, behind) else {
        drop(control);
        return Err(Stop::Syntax(behind));
    };
    let (choices, closing) = match associations(alloc, kinds, behind) {
        Ok(found) => found,
        Err(stop) => {
            drop(control);
            return Err(stop);
        }
    };
    let Kind::CloseParen = kind_at(kinds, closing) else {
        drop(control);
        return Err(Stop::Syntax(closing));
    };
    match Expr::generic(alloc, at, at + 1, control, choices, closing) {
        Ok(expr) => Ok((expr, closing + 1)),
        Err(_) => Err(Stop::NoMemory),
    }
}

// What selects within a member: `. identifier` and `[ expression ]`.
#[cycle(parser)]
fn steps(alloc: Global, kinds: &Kinds<'_>, at: u32) -> Result<(Vec<Suffix>, u32), Stop>
    requires size { length kinds.now ≤ 2000000 }
    requires inside { at ≤ length kinds.now }
    ensures found { IfOk result (λ r. FoundSteps kinds.now at (behinds (suffixes_of r.0.items) None_behind) r.1) }
    ensures only { (xs : Behinds) → (end : ℕ) → HoldBehinds kinds.now 16 xs at end → AreSteps kinds.now xs
        → spec.kind_at kinds.now end ≡ CloseParen
        → MustGive result (λ r. (behinds (suffixes_of r.0.items) None_behind ≡ xs) × (r.1 ≡ end)) }
{
    let mut steps = Vec::new(alloc);
    let mut end = at;
    'steps: loop {
        if !kind_at(kinds, end).is_designating() {
            return Ok((steps, end));
        }
        let (one, next) = match suffix(alloc, kinds, end) {
            Ok(found) => found,
            Err(stop) => return Err(stop),
        };
        let Ok(()) = push(&mut steps, one) else {
            return Err(Stop::NoMemory);
        };
        end = next;
    }
}

// `__offsetof ( type-name , member-designator )`.
#[cycle(parser)]
pub(crate) fn offset(alloc: Global, kinds: &Kinds<'_>, at: u32) -> Result<(Expr, u32), Stop>
    requires size { length kinds.now ≤ 2000000 }
    requires inside { at < length kinds.now }
    requires kind { spec.kind_at kinds.now at ≡ OffsetOf }
    ensures found { IfOk result (λ r. Found kinds.now 17 at (tree_of r.0) r.1) }
    ensures only { (t : Tree) → (end : ℕ) → Reads kinds.now 17 t at end → Stops kinds.now 17 end
        → MustGive result (λ r. (tree_of r.0 ≡ t) × (r.1 ≡ end)) }
{
    let Kind::OpenParen = kind_at(kinds, at + 1) else {
        return Err(Stop::Syntax(at + 1));
    };
    let (name, comma) = match type_name(alloc, kinds, at + 2) {
        Ok(found) => found,
        Err(stop) => return Err(stop),
    };
    let Kind::Comma = kind_at(kinds, comma) else {
        drop(name);
        return Err(Stop::Syntax(comma));
    };
    if !kind_at(kinds, comma + 1).is_word() {
        drop(name);
        return Err(Stop::Syntax(comma + 1));
    }
    let (more, closing) = match steps(alloc, kinds, comma + 2) {
        Ok(found) => found,
        Err(stop) => {
            drop(name);
            return Err(stop);
        }
    };
    let Kind::CloseParen = kind_at(kinds, closing) else {
        drop(name);
        return Err(Stop::Syntax(closing));
    };
    match Expr::offset(alloc, at, at + 1, name, comma, comma + 1, more, closing) {
        Ok(expr) => Ok((expr, closing + 1)),
        Err(_) => Err(Stop::NoMemory),
    }
}
