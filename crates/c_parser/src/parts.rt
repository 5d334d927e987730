// Expressions and declarations as parts of statements (ISO C11 6.8).
ghost use Rattle.std.specs.Prelude.{◌≡◌, ℕ, ◌≤◌, length, IfOk};
ghost use Rattle.tree_data.specs.Heads.{heading_of};
ghost use Rattle.tree_data.specs.Seen.{tree_of};
ghost use Rattle.tree_data.specs.Trees.{Tree, Heading};
ghost use Rattle.c_parser.specs.Parts as spec;
ghost use Rattle.c_parser.specs.Parts.{PartsLaw, FoundExpression, FoundDeclaration, HoldsDeclaration, past_declaration, past_tree};
ghost use Rattle.c_parser.specs.Reading.{Holds, Reads, Stops, MustGive};
ghost use Rattle.c_parser.specs.Words.{shown, shown_from};

use crate::answers::Stop;
use crate::expressions::level;
use crate::heads::head;
use crate::scope::Scope;
use std::alloc::{AllocError, Global};
use tree_data::{Expr, Head};

/// The expression of the nonterminal n that stands here: 1 for expression, 3 for constant-expression (6.5.17, 6.6). It goes on as far as it
/// may. An enumerator in it hides a typedef name behind it (6.2.1p7), and behind the expression where `past_expression` is asked.
///
/// Errors: Syntax exactly where none that goes on as far as it may stands here, with the token at which the parser stopped; NoMemory.
pub fn expression_at(alloc: Global, scope: &Scope<'_>, n: u8, at: u32) -> Result<(Expr, u32), Stop>
    requires size { length scope.now.kinds ≤ 2000000 }
    requires inside { at ≤ length scope.now.kinds }
    requires low { 1 ≤ n }
    requires high { n ≤ 3 }
    ensures found { IfOk result (λ r. FoundExpression scope.now n at (tree_of r.0) r.1) }
    ensures only { (t : Tree) → (end : ℕ) → Reads (shown_from scope.now at) n t at end → Stops (shown scope.now) n end
        → MustGive result (λ r. (tree_of r.0 ≡ t) × (r.1 ≡ end)) }
{
    let Ok(kinds) = scope.kinds(at) else {
        return Err(Stop::NoMemory);
    };
    match level(alloc, &kinds, n, at) {
        Ok(found) => Ok(found),
        Err(stop) => Err(stop),
    }
}

/// The identifiers in force behind the expression that stands from one place to another: its enumerators are declared (6.7.2.2). Linear in its
/// tokens; the first that hides a typedef name copies the flags, if someone shares them.
///
/// Errors: want of memory.
pub fn past_expression<'a>(
    alloc: Global,
    scope: Scope<'a>,
    from: u32,
    to: u32,
) -> Result<Scope<'a>, AllocError>
    ensures size { IfOk result (λ s. length s.kinds ≡ length scope.entry.kinds) }
    ensures past { IfOk result (λ s. (t : Tree) → Holds (shown_from scope.entry from) t from to → s ≡ past_tree scope.entry t) }
{
    let behind = scope.past(alloc, from, to)?;
    Ok(behind)
}

// Whether it has its `;`, and no body.
fn is_declaration(head: &Head) -> bool
    ensures { result ≡ spec.is_declaration (heading_of head.now) }
{
    match &head.assertion {
        Some(_) => true,
        None => !head.has_body,
    }
}

/// The declaration that stands here, with its `;`, and the identifiers in force behind it (6.7). It takes the scope: a name whose flag
/// turns, as a typedef's does, takes a constant where no one else shares the flags, and a copy of them once where someone does.
///
/// Errors: Syntax exactly where none stands here; NoMemory.
pub fn declaration_at<'a>(
    alloc: Global,
    scope: Scope<'a>,
    at: u32,
) -> Result<(Head, Scope<'a>, u32), Stop>
    requires size { length scope.kinds ≤ 2000000 }
    requires inside { at ≤ length scope.kinds }
    ensures found { IfOk result (λ r. FoundDeclaration scope.entry at (heading_of r.0) r.2) }
    ensures past { IfOk result (λ r. r.1 ≡ past_declaration scope.entry (heading_of r.0)) }
    ensures only { (d : Heading) → (end : ℕ) → HoldsDeclaration scope.entry d at end
        → MustGive result (λ r. (heading_of r.0 ≡ d) × (r.2 ≡ end)) }
{
    let (head, behind, end) = match head(alloc, scope, at) {
        Ok(found) => found,
        Err(stop) => return Err(stop),
    };
    if !is_declaration(&head) {
        drop(head);
        return Err(Stop::Syntax(at));
    }
    Ok((head, behind, end))
}

/// What expressions and declarations give to whatever has them as parts: no two expressions that go on as far as they may, and no two declarations,
/// stand from one place on; what they begin with; and what stands behind them differs in typedef names alone. It has nothing to run; its contract is the law.
pub fn parts_law()
    ensures { PartsLaw }
{}
