// An expression with what stands behind it or in front of it, if there is anything.
ghost use Rattle.std.specs.Prelude.{◌≡◌, IfOk, IfErr};
ghost use Rattle.tree_data.specs.Trees as tree;
ghost use Rattle.tree_data.specs.Seen as seen;
ghost use Rattle.tree_data.specs.Seen.{tree_of};
ghost use Rattle.tree_data.specs.Trees.{behinds, fronts, None_behind, None_before};
ghost use Rattle.c_parser.specs.Joining as spec;

use crate::answers::Stop;
use std::alloc::Global;
use tree_data::{Choice, Expr, Prefix, Suffix};

pub(crate) fn postfix(alloc: Global, first: Expr, suffixes: Vec<Suffix>) -> Result<Expr, Stop>
    ensures tree { IfOk result (λ e. tree_of e
        ≡ spec.followed tree.Postfix_of (tree_of first) (behinds (seen.suffixes_of suffixes.items) None_behind)) }
    ensures memory { IfErr result (λ e. e ≡ Stop.NoMemory) }
{
    if suffixes.as_slice().is_empty() {
        return Ok(first);
    }
    match Expr::postfix(alloc, first, suffixes) {
        Ok(expr) => Ok(expr),
        Err(_) => Err(Stop::NoMemory),
    }
}

pub(crate) fn unary(alloc: Global, prefixes: Vec<Prefix>, operand: Expr) -> Result<Expr, Stop>
    ensures tree { IfOk result (λ e. tree_of e
        ≡ spec.preceded tree.Unary_of (fronts (seen.prefixes_of prefixes.items) None_before) (tree_of operand)) }
    ensures memory { IfErr result (λ e. e ≡ Stop.NoMemory) }
{
    if prefixes.as_slice().is_empty() {
        return Ok(operand);
    }
    match Expr::unary(alloc, prefixes, operand) {
        Ok(expr) => Ok(expr),
        Err(_) => Err(Stop::NoMemory),
    }
}

pub(crate) fn binary(alloc: Global, first: Expr, more: Vec<(u32, Expr)>) -> Result<Expr, Stop>
    ensures tree { IfOk result (λ e. tree_of e
        ≡ spec.followed tree.Binary_of (tree_of first) (behinds (seen.operands_of more.items) None_behind)) }
    ensures memory { IfErr result (λ e. e ≡ Stop.NoMemory) }
{
    if more.as_slice().is_empty() {
        return Ok(first);
    }
    match Expr::binary(alloc, first, more) {
        Ok(expr) => Ok(expr),
        Err(_) => Err(Stop::NoMemory),
    }
}

pub(crate) fn conditional(alloc: Global, choices: Vec<Choice>, last: Expr) -> Result<Expr, Stop>
    ensures tree { IfOk result (λ e. tree_of e
        ≡ spec.preceded tree.Conditional_of (fronts (seen.choices_of choices.items) None_before) (tree_of last)) }
    ensures memory { IfErr result (λ e. e ≡ Stop.NoMemory) }
{
    if choices.as_slice().is_empty() {
        return Ok(last);
    }
    match Expr::conditional(alloc, choices, last) {
        Ok(expr) => Ok(expr),
        Err(_) => Err(Stop::NoMemory),
    }
}

pub(crate) fn assign(alloc: Global, places: Vec<(Expr, u32)>, value: Expr) -> Result<Expr, Stop>
    ensures tree { IfOk result (λ e. tree_of e
        ≡ spec.preceded tree.Assign_of (fronts (seen.lefts_of places.items) None_before) (tree_of value)) }
    ensures memory { IfErr result (λ e. e ≡ Stop.NoMemory) }
{
    if places.as_slice().is_empty() {
        return Ok(value);
    }
    match Expr::assign(alloc, places, value) {
        Ok(expr) => Ok(expr),
        Err(_) => Err(Stop::NoMemory),
    }
}
