// Statements in which no other stands (ISO C11 6.8.3, 6.8.6).
ghost use Rattle.std.specs.Prelude.{◌≡◌, ◌<◌, ◌≤◌, false, length, IfOk, IfErr};
ghost use Rattle.tree_data.specs.Stated.{stmt_of};
ghost use Rattle.tree_data.specs.Statements.{Stated_of};
ghost use Rattle.c_parser.specs.declared.kinds.Kind.TheVariants as kind;
ghost use Rattle.c_parser.specs.Parts.{PartsLaw};
ghost use Rattle.c_parser.specs.Words.{kind_in};
ghost use Rattle.stmt_parser.specs.Found.{FoundStatement, FailsStatement};
ghost use Rattle.stmt_parser.specs.Fronts.{labels_at, is_marked};
ghost use Rattle.stmt_parser.specs.InForce.{past_item};

use crate::parts::up_to_semicolon;
use c_parser::{Kind, Scope, Stop};
use std::alloc::Global;
use tree_data::Stmt;

// `expression opt ;`
pub(crate) fn expression<'a>(
    alloc: Global,
    scope: Scope<'a>,
    at: u32,
) -> Result<(Stmt, Scope<'a>, u32), Stop>
    requires law { PartsLaw }
    requires size { length scope.kinds ≤ 2000000 }
    requires inside { at ≤ length scope.kinds }
    requires unlabelled { labels_at scope at ≡ false }
    requires unmarked { is_marked (kind_in scope at) ≡ false }
    ensures found { IfOk result (λ r. FoundStatement scope.entry at (stmt_of r.0) r.2) }
    ensures past { IfOk result (λ r. r.1 ≡ past_item scope.entry (Stated_of (stmt_of r.0))) }
    ensures fails { IfErr result (FailsStatement scope.entry at) }
{
    let (expr, end, inside) = match up_to_semicolon(alloc, scope, at) {
        Ok(found) => found,
        Err(stop) => return Err(stop),
    };
    match Stmt::expression(alloc, expr, end) {
        Ok(stmt) => Ok((stmt, inside, end + 1)),
        Err(_) => Err(Stop::NoMemory),
    }
}

// `goto identifier ;`
pub(crate) fn goto_label<'a>(scope: Scope<'a>, at: u32) -> Result<(Stmt, Scope<'a>, u32), Stop>
    requires law { PartsLaw }
    requires size { length scope.kinds ≤ 2000000 }
    requires inside { at < length scope.kinds }
    requires kind { kind_in scope at ≡ kind.Goto }
    ensures found { IfOk result (λ r. FoundStatement scope.entry at (stmt_of r.0) r.2) }
    ensures past { IfOk result (λ r. r.1 ≡ past_item scope.entry (Stated_of (stmt_of r.0))) }
    ensures fails { IfErr result (FailsStatement scope.entry at) }
{
    if !scope.kind_at(at + 1).is_word() {
        return Err(Stop::Syntax(at + 1));
    }
    let Kind::Semicolon = scope.kind_at(at + 2) else {
        return Err(Stop::Syntax(at + 2));
    };
    Ok((Stmt::goto_label(at, at + 1, at + 2), scope, at + 3))
}

// `continue ;`
pub(crate) fn continues<'a>(scope: Scope<'a>, at: u32) -> Result<(Stmt, Scope<'a>, u32), Stop>
    requires law { PartsLaw }
    requires size { length scope.kinds ≤ 2000000 }
    requires inside { at < length scope.kinds }
    requires kind { kind_in scope at ≡ kind.Continue }
    ensures found { IfOk result (λ r. FoundStatement scope.entry at (stmt_of r.0) r.2) }
    ensures past { IfOk result (λ r. r.1 ≡ past_item scope.entry (Stated_of (stmt_of r.0))) }
    ensures fails { IfErr result (FailsStatement scope.entry at) }
{
    let Kind::Semicolon = scope.kind_at(at + 1) else {
        return Err(Stop::Syntax(at + 1));
    };
    Ok((Stmt::continues(at, at + 1), scope, at + 2))
}

// `break ;`
pub(crate) fn breaks<'a>(scope: Scope<'a>, at: u32) -> Result<(Stmt, Scope<'a>, u32), Stop>
    requires law { PartsLaw }
    requires size { length scope.kinds ≤ 2000000 }
    requires inside { at < length scope.kinds }
    requires kind { kind_in scope at ≡ kind.Break }
    ensures found { IfOk result (λ r. FoundStatement scope.entry at (stmt_of r.0) r.2) }
    ensures past { IfOk result (λ r. r.1 ≡ past_item scope.entry (Stated_of (stmt_of r.0))) }
    ensures fails { IfErr result (FailsStatement scope.entry at) }
{
    let Kind::Semicolon = scope.kind_at(at + 1) else {
        return Err(Stop::Syntax(at + 1));
    };
    Ok((Stmt::breaks(at, at + 1), scope, at + 2))
}

// `return expression opt ;`
pub(crate) fn returns<'a>(
    alloc: Global,
    scope: Scope<'a>,
    at: u32,
) -> Result<(Stmt, Scope<'a>, u32), Stop>
    requires law { PartsLaw }
    requires size { length scope.kinds ≤ 2000000 }
    requires inside { at < length scope.kinds }
    requires kind { kind_in scope at ≡ kind.Return }
    ensures found { IfOk result (λ r. FoundStatement scope.entry at (stmt_of r.0) r.2) }
    ensures past { IfOk result (λ r. r.1 ≡ past_item scope.entry (Stated_of (stmt_of r.0))) }
    ensures fails { IfErr result (FailsStatement scope.entry at) }
{
    let (value, end, inside) = match up_to_semicolon(alloc, scope, at + 1) {
        Ok(found) => found,
        Err(stop) => return Err(stop),
    };
    match Stmt::returns(alloc, at, value, end) {
        Ok(stmt) => Ok((stmt, inside, end + 1)),
        Err(_) => Err(Stop::NoMemory),
    }
}
