// Expressions inside statements (ISO C11 6.8.3 to 6.8.5).
ghost use Rattle.std.specs.Prelude.{◌≡◌, ℕ, ◌+◌, ◌<◌, ◌≤◌, true, length, Option, option_map, is_some, IfOk};
ghost use Rattle.tree_data.specs.Seen.{tree_of};
ghost use Rattle.tree_data.specs.Trees.{Tree};
ghost use Rattle.c_parser.specs.declared.kinds.Kind.TheVariants.{Semicolon, CloseParen};
ghost use Rattle.c_parser.specs.Parts.{PartsLaw};
ghost use Rattle.c_parser.specs.Reading.{MustGive};
ghost use Rattle.c_parser.specs.Words.{kind_in};
ghost use Rattle.stmt_parser.specs.Found.{FoundOptional, FoundTest, FoundTail};
ghost use Rattle.stmt_parser.specs.InForce.{past_optional};
ghost use Rattle.stmt_parser.specs.Reading as spec;
ghost use Rattle.stmt_parser.specs.Reading.{HoldsOptional, HoldsTest};

use crate::fronts::ends_expression;
use c_parser::{Kind, Scope, Stop, expression_at, past_expression};
use std::alloc::{AllocError, Global};
use tree_data::Expr;

// Nonterminals of expressions (6.5.17, 6.6).
pub(crate) const EXPRESSION: u8 = 1;

pub(crate) const CONSTANT: u8 = 3;

// An expression, if there is one.
fn optional(alloc: Global, scope: &Scope<'_>, at: u32) -> Result<(Option<Expr>, u32), Stop>
    requires law { PartsLaw }
    requires size { length scope.now.kinds ≤ 2000000 }
    requires inside { at ≤ length scope.now.kinds }
    ensures found { IfOk result (λ r. FoundOptional scope.now at (option_map tree_of r.0) r.1) }
    ensures only { (x : Option Tree) → (end : ℕ) → HoldsOptional scope.now x at end
        → spec.ends_expression (kind_in scope.now end) ≡ true → MustGive result (λ r. (option_map tree_of r.0 ≡ x) × (r.1 ≡ end)) }
{
    if ends_expression(scope.kind_at(at)) {
        return Ok((None, at));
    }
    match expression_at(alloc, scope, EXPRESSION, at) {
        Ok((expr, end)) => Ok((Some(expr), end)),
        Err(stop) => Err(stop),
    }
}

// An expression in parentheses, and the number of its `)`.
pub(crate) fn test(alloc: Global, scope: &Scope<'_>, at: u32) -> Result<(Expr, u32), Stop>
    requires law { PartsLaw }
    requires size { length scope.now.kinds ≤ 2000000 }
    requires inside { at ≤ length scope.now.kinds }
    ensures found { IfOk result (λ r. FoundTest scope.now at (tree_of r.0) r.1) }
    ensures only { (o : ℕ) → (t : Tree) → (c : ℕ) → (end : ℕ) → HoldsTest scope.now o t c at end
        → MustGive result (λ r. (tree_of r.0 ≡ t) × (r.1 ≡ c)) }
{
    let Kind::OpenParen = scope.kind_at(at) else {
        return Err(Stop::Syntax(at));
    };
    let (expr, closing) = match expression_at(alloc, scope, EXPRESSION, at + 1) {
        Ok(found) => found,
        Err(stop) => return Err(stop),
    };
    let Kind::CloseParen = scope.kind_at(closing) else {
        return Err(Stop::Syntax(closing));
    };
    Ok((expr, closing))
}

// Whether it is there.
fn stands(expr: &Option<Expr>) -> bool
    ensures { result ≡ is_some (option_map tree_of expr.now) }
{
    match expr {
        Some(_) => true,
        None => false,
    }
}

// The identifiers in force behind an expression, if it is there, that stands from one place to another.
fn behind<'a>(
    alloc: Global,
    scope: Scope<'a>,
    expr: &Option<Expr>,
    from: u32,
    to: u32,
) -> Result<Scope<'a>, AllocError>
    ensures size { IfOk result (λ s. length s.kinds ≡ length scope.entry.kinds) }
    ensures past { IfOk result (λ s. HoldsOptional scope.entry (option_map tree_of expr.now) from to
        → s ≡ past_optional scope.entry (option_map tree_of expr.now)) }
{
    if !stands(expr) {
        return Ok(scope);
    }
    let inside = past_expression(alloc, scope, from, to)?;
    Ok(inside)
}

// An expression, if there is one, and a `;` behind it: the number of that, and the identifiers in force there.
pub(crate) fn up_to_semicolon<'a>(
    alloc: Global,
    scope: Scope<'a>,
    at: u32,
) -> Result<(Option<Expr>, u32, Scope<'a>), Stop>
    requires law { PartsLaw }
    requires size { length scope.kinds ≤ 2000000 }
    requires inside { at ≤ length scope.kinds }
    ensures found { IfOk result (λ r. FoundOptional scope.entry at (option_map tree_of r.0) r.1) }
    ensures semicolon { IfOk result (λ r. kind_in scope.entry r.1 ≡ Semicolon) }
    ensures within { IfOk result (λ r. r.1 < length scope.entry.kinds) }
    ensures size { IfOk result (λ r. length r.2.kinds ≡ length scope.entry.kinds) }
    ensures past { IfOk result (λ r. r.2 ≡ past_optional scope.entry (option_map tree_of r.0)) }
    ensures only { (x : Option Tree) → (end : ℕ) → HoldsOptional scope.entry x at end → kind_in scope.entry end ≡ Semicolon
        → MustGive result (λ r. (option_map tree_of r.0 ≡ x) × (r.1 ≡ end)) }
{
    let (expr, end) = match optional(alloc, &scope, at) {
        Ok(found) => found,
        Err(stop) => return Err(stop),
    };
    let Kind::Semicolon = scope.kind_at(end) else {
        return Err(Stop::Syntax(end));
    };
    let Ok(inside) = behind(alloc, scope, &expr, at, end) else {
        return Err(Stop::NoMemory);
    };
    Ok((expr, end, inside))
}

// What stands in the parentheses of a `for` behind its first part: two expressions, each if it is there, the number of the `;` between them, the
// identifiers in force behind them, and the number of the `)`.
pub(crate) fn tail<'a>(
    alloc: Global,
    scope: Scope<'a>,
    at: u32,
) -> Result<(Option<Expr>, u32, Option<Expr>, Scope<'a>, u32), Stop>
    requires law { PartsLaw }
    requires size { length scope.kinds ≤ 2000000 }
    requires inside { at ≤ length scope.kinds }
    ensures found { IfOk result (λ r. FoundTail scope.entry scope.entry at (option_map tree_of r.0) r.1 (option_map tree_of r.2) r.4) }
    ensures past { IfOk result (λ r. r.3 ≡ past_optional (past_optional scope.entry (option_map tree_of r.0)) (option_map tree_of r.2)) }
    ensures only { (y : Option Tree) → (n : ℕ) → (z : Option Tree) → (c : ℕ) → HoldsOptional scope.entry y at n
        → kind_in scope.entry n ≡ Semicolon → HoldsOptional (past_optional scope.entry y) z (n + 1) c
        → kind_in scope.entry c ≡ CloseParen
        → MustGive result (λ r. (option_map tree_of r.0 ≡ y) × (r.1 ≡ n) × (option_map tree_of r.2 ≡ z) × (r.4 ≡ c)) }
{
    let (test, middle, inner) = match up_to_semicolon(alloc, scope, at) {
        Ok(found) => found,
        Err(stop) => return Err(stop),
    };
    let (step, closing) = match optional(alloc, &inner, middle + 1) {
        Ok(found) => found,
        Err(stop) => return Err(stop),
    };
    let Kind::CloseParen = inner.kind_at(closing) else {
        return Err(Stop::Syntax(closing));
    };
    let Ok(inside) = behind(alloc, inner, &step, middle + 1, closing) else {
        return Err(Stop::NoMemory);
    };
    Ok((test, middle, step, inside, closing))
}
