// What stands in front of a statement and makes one together with it, but for `if` (ISO C11 6.8.1, 6.8.4.2, 6.8.5).
ghost use Rattle.std.specs.Prelude.{◌≡◌, ◌+◌, ◌<◌, ◌≤◌, true, false, length, IfOk, IfErr};
ghost use Rattle.tree_data.specs.Stated.{lead_of};
ghost use Rattle.c_parser.specs.declared.kinds.Kind.TheVariants as kind;
ghost use Rattle.c_parser.specs.Parts.{PartsLaw, starts_declaration};
ghost use Rattle.c_parser.specs.Words.{kind_in};
ghost use Rattle.stmt_parser.specs.Found.{FoundLead, FailsStatement};
ghost use Rattle.stmt_parser.specs.Fronts.{labels_at};
ghost use Rattle.stmt_parser.specs.InForce as force;

use crate::parts::{CONSTANT, tail, test, up_to_semicolon};
use c_parser::{Kind, Scope, Stop, declaration_at, expression_at, past_expression};
use std::alloc::Global;
use tree_data::Lead;

// `name :`
pub(crate) fn label(scope: &Scope<'_>, at: u32) -> (Lead, u32)
    requires size { length scope.now.kinds ≤ 2000000 }
    requires inside { at ≤ length scope.now.kinds }
    requires kind { labels_at scope.now at ≡ true }
    ensures found { FoundLead scope.now at (lead_of result.0) result.1 }
    ensures past { force.inside scope.now (lead_of result.0) ≡ scope.now }
{
    (Lead::label(at, at + 1), at + 2)
}

// `case constant-expression :`
pub(crate) fn case<'a>(
    alloc: Global,
    scope: Scope<'a>,
    at: u32,
) -> Result<(Lead, Scope<'a>, u32), Stop>
    requires law { PartsLaw }
    requires size { length scope.kinds ≤ 2000000 }
    requires inside { at < length scope.kinds }
    requires kind { kind_in scope at ≡ kind.Case }
    ensures found { IfOk result (λ r. FoundLead scope.entry at (lead_of r.0) r.2) }
    ensures past { IfOk result (λ r. r.1 ≡ force.inside scope.entry (lead_of r.0)) }
    ensures fails { IfErr result (FailsStatement scope.entry at) }
{
    let (value, colon) = match expression_at(alloc, &scope, CONSTANT, at + 1) {
        Ok(found) => found,
        Err(stop) => return Err(stop),
    };
    let Kind::Colon = scope.kind_at(colon) else {
        return Err(Stop::Syntax(colon));
    };
    let Ok(inside) = past_expression(alloc, scope, at + 1, colon) else {
        return Err(Stop::NoMemory);
    };
    match Lead::case(alloc, at, value, colon) {
        Ok(lead) => Ok((lead, inside, colon + 1)),
        Err(_) => Err(Stop::NoMemory),
    }
}

// `default :`
pub(crate) fn default_label(scope: &Scope<'_>, at: u32) -> Result<(Lead, u32), Stop>
    requires law { PartsLaw }
    requires size { length scope.now.kinds ≤ 2000000 }
    requires inside { at < length scope.now.kinds }
    requires kind { kind_in scope.now at ≡ kind.Default }
    ensures found { IfOk result (λ r. FoundLead scope.now at (lead_of r.0) r.1) }
    ensures past { IfOk result (λ r. force.inside scope.now (lead_of r.0) ≡ scope.now) }
    ensures fails { IfErr result (FailsStatement scope.now at) }
{
    let Kind::Colon = scope.kind_at(at + 1) else {
        return Err(Stop::Syntax(at + 1));
    };
    Ok((Lead::default_label(at, at + 1), at + 2))
}

// `switch ( expression )`
pub(crate) fn switch<'a>(
    alloc: Global,
    scope: Scope<'a>,
    at: u32,
) -> Result<(Lead, Scope<'a>, u32), Stop>
    requires law { PartsLaw }
    requires size { length scope.kinds ≤ 2000000 }
    requires inside { at < length scope.kinds }
    requires kind { kind_in scope at ≡ kind.Switch }
    ensures found { IfOk result (λ r. FoundLead scope.entry at (lead_of r.0) r.2) }
    ensures past { IfOk result (λ r. r.1 ≡ force.inside scope.entry (lead_of r.0)) }
    ensures fails { IfErr result (FailsStatement scope.entry at) }
{
    let (value, closing) = match test(alloc, &scope, at + 1) {
        Ok(found) => found,
        Err(stop) => return Err(stop),
    };
    let Ok(inside) = past_expression(alloc, scope, at + 2, closing) else {
        return Err(Stop::NoMemory);
    };
    match Lead::switch(alloc, at, at + 1, value, closing) {
        Ok(lead) => Ok((lead, inside, closing + 1)),
        Err(_) => Err(Stop::NoMemory),
    }
}

// `while ( expression )`
pub(crate) fn while_test<'a>(
    alloc: Global,
    scope: Scope<'a>,
    at: u32,
) -> Result<(Lead, Scope<'a>, u32), Stop>
    requires law { PartsLaw }
    requires size { length scope.kinds ≤ 2000000 }
    requires inside { at < length scope.kinds }
    requires kind { kind_in scope at ≡ kind.While }
    ensures found { IfOk result (λ r. FoundLead scope.entry at (lead_of r.0) r.2) }
    ensures past { IfOk result (λ r. r.1 ≡ force.inside scope.entry (lead_of r.0)) }
    ensures fails { IfErr result (FailsStatement scope.entry at) }
{
    let (value, closing) = match test(alloc, &scope, at + 1) {
        Ok(found) => found,
        Err(stop) => return Err(stop),
    };
    let Ok(inside) = past_expression(alloc, scope, at + 2, closing) else {
        return Err(Stop::NoMemory);
    };
    match Lead::while_test(alloc, at, at + 1, value, closing) {
        Ok(lead) => Ok((lead, inside, closing + 1)),
        Err(_) => Err(Stop::NoMemory),
    }
}

// `for (` with a declaration behind it, and the identifiers in force inside.
fn for_declaring<'a>(
    alloc: Global,
    scope: Scope<'a>,
    at: u32,
) -> Result<(Lead, Scope<'a>, u32), Stop>
    requires law { PartsLaw }
    requires size { length scope.kinds ≤ 2000000 }
    requires inside { at + 1 < length scope.kinds }
    requires kind { kind_in scope at ≡ kind.For }
    requires opening { kind_in scope (at + 1) ≡ kind.OpenParen }
    requires declares { starts_declaration (kind_in scope (at + 2)) ≡ true }
    ensures found { IfOk result (λ r. FoundLead scope.entry at (lead_of r.0) r.2) }
    ensures past { IfOk result (λ r. r.1 ≡ force.inside scope.entry (lead_of r.0)) }
    ensures fails { IfErr result (FailsStatement scope.entry at) }
{
    let (first, behind, place) = match declaration_at(alloc, scope, at + 2) {
        Ok(found) => found,
        Err(stop) => return Err(stop),
    };
    let (test, middle, step, inside, closing) = match tail(alloc, behind, place) {
        Ok(found) => found,
        Err(stop) => return Err(stop),
    };
    match Lead::for_declaring(alloc, at, at + 1, first, test, middle, step, closing) {
        Ok(lead) => Ok((lead, inside, closing + 1)),
        Err(_) => Err(Stop::NoMemory),
    }
}

// `for (` with an expression behind it, or nothing.
fn for_loop<'a>(alloc: Global, scope: Scope<'a>, at: u32) -> Result<(Lead, Scope<'a>, u32), Stop>
    requires law { PartsLaw }
    requires size { length scope.kinds ≤ 2000000 }
    requires inside { at + 1 < length scope.kinds }
    requires kind { kind_in scope at ≡ kind.For }
    requires opening { kind_in scope (at + 1) ≡ kind.OpenParen }
    requires declares { starts_declaration (kind_in scope (at + 2)) ≡ false }
    ensures found { IfOk result (λ r. FoundLead scope.entry at (lead_of r.0) r.2) }
    ensures past { IfOk result (λ r. r.1 ≡ force.inside scope.entry (lead_of r.0)) }
    ensures fails { IfErr result (FailsStatement scope.entry at) }
{
    let (first, place, inner) = match up_to_semicolon(alloc, scope, at + 2) {
        Ok(found) => found,
        Err(stop) => return Err(stop),
    };
    let (test, middle, step, inside, closing) = match tail(alloc, inner, place + 1) {
        Ok(found) => found,
        Err(stop) => return Err(stop),
    };
    match Lead::for_loop(alloc, at, at + 1, first, place, test, middle, step, closing) {
        Ok(lead) => Ok((lead, inside, closing + 1)),
        Err(_) => Err(Stop::NoMemory),
    }
}

// `for ( .. )`, and the identifiers in force inside.
pub(crate) fn for_lead<'a>(
    alloc: Global,
    scope: Scope<'a>,
    at: u32,
) -> Result<(Lead, Scope<'a>, u32), Stop>
    requires law { PartsLaw }
    requires size { length scope.kinds ≤ 2000000 }
    requires inside { at < length scope.kinds }
    requires kind { kind_in scope at ≡ kind.For }
    ensures found { IfOk result (λ r. FoundLead scope.entry at (lead_of r.0) r.2) }
    ensures past { IfOk result (λ r. r.1 ≡ force.inside scope.entry (lead_of r.0)) }
    ensures fails { IfErr result (FailsStatement scope.entry at) }
{
    let Kind::OpenParen = scope.kind_at(at + 1) else {
        return Err(Stop::Syntax(at + 1));
    };
    if scope.kind_at(at + 2).starts_declaration() {
        return for_declaring(alloc, scope, at);
    }
    for_loop(alloc, scope, at)
}
