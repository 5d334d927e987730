// Expressions, from the comma down to primary expressions: one function for all levels of binary operators, and loops where a
// production goes on by itself. Each reads from left to right and says at which token it stopped.
ghost use Rattle.std.specs.Prelude.{◌≡◌, ℕ, ◌+◌, ◌<◌, ◌≤◌, length, true, false, IfOk, IfErr};
ghost use Rattle.tree_data.specs.Seen.{tree_of, behind_of, operands_of, suffixes_of, type_of};
ghost use Rattle.tree_data.specs.Trees.{Tree, Behind, Behinds, None_behind, behinds};
ghost use Rattle.c_parser.specs.declared.kinds.Kind.TheVariants.{Text, OpenParen, OpenBracket};
ghost use Rattle.c_parser.specs.Beginnings.{start_of, Begins, IsPlain, IsSized, IsLiteral};
ghost use Rattle.c_parser.specs.Grammar.{goes_on};
ghost use Rattle.c_parser.specs.Kinds as spec;
ghost use Rattle.c_parser.specs.Levels.{IsBinary};
ghost use Rattle.c_parser.specs.Reading.{Reads, HoldsBehind, HoldBehinds, Stops, Found, FoundTexts, FoundBehind, FoundBehinds, IsWant, MustGive};

use crate::answers::Stop;
use crate::before::{Begun, prefixes};
use crate::initializers::braces;
use crate::joining;
use crate::kinds::{Kind, kind_at, level_at};
use crate::room::push;
use crate::scope::Kinds;
use crate::selections::{generic, offset};
use std::alloc::Global;
use tree_data::{Choice, Expr, Suffix, TypeName};

// The levels of 6.5.17, 6.5.16, 6.5.15 and 6.5.14.
pub(crate) const EXPRESSION: u8 = 1;

pub(crate) const ASSIGNMENT: u8 = 2;

pub(crate) const CONDITIONAL: u8 = 3;

const LOGICAL_OR: u8 = 4;

// The level of postfix operators.
const POSTFIX: u8 = 16;

// All string literals that stand here side by side.
pub(crate) fn pieces(alloc: Global, kinds: &Kinds<'_>, at: u32) -> Result<(Vec<u32>, u32), Stop>
    requires size { length kinds.now ≤ 2000000 }
    requires inside { at ≤ length kinds.now }
    ensures found { IfOk result (λ r. FoundTexts kinds.now at r.0.items r.1) }
    ensures memory { IfErr result (λ e. e ≡ Stop.NoMemory) }
{
    let mut pieces = Vec::new(alloc);
    let mut end = at;
    'pieces: loop {
        let Kind::Text = kind_at(kinds, end) else {
            return Ok((pieces, end));
        };
        let Ok(()) = push(&mut pieces, end) else {
            return Err(Stop::NoMemory);
        };
        end += 1;
    }
}

// A string literal.
fn text(alloc: Global, kinds: &Kinds<'_>, at: u32) -> Result<(Expr, u32), Stop>
    requires size { length kinds.now ≤ 2000000 }
    requires inside { at < length kinds.now }
    requires kind { spec.kind_at kinds.now at ≡ Text }
    ensures found { IfOk result (λ r. Found kinds.now 17 at (tree_of r.0) r.1) }
    ensures only { (t : Tree) → (end : ℕ) → Reads kinds.now 17 t at end → Stops kinds.now 17 end
        → MustGive result (λ r. (tree_of r.0 ≡ t) × (r.1 ≡ end)) }
{
    match pieces(alloc, kinds, at) {
        Ok((pieces, end)) => Ok((Expr::text(pieces), end)),
        Err(stop) => Err(stop),
    }
}

// `( expression )`.
#[cycle(parser)]
fn paren(alloc: Global, kinds: &Kinds<'_>, at: u32) -> Result<(Expr, u32), Stop>
    requires size { length kinds.now ≤ 2000000 }
    requires inside { at < length kinds.now }
    requires untyped { spec.type_at kinds.now at ≡ false }
    requires kind { spec.kind_at kinds.now at ≡ OpenParen }
    ensures found { IfOk result (λ r. Found kinds.now 17 at (tree_of r.0) r.1) }
    ensures only { (t : Tree) → (end : ℕ) → Reads kinds.now 17 t at end → Stops kinds.now 17 end
        → MustGive result (λ r. (tree_of r.0 ≡ t) × (r.1 ≡ end)) }
{
    let (inner, closing) = match level(alloc, kinds, EXPRESSION, at + 1) {
        Ok(found) => found,
        Err(stop) => return Err(stop),
    };
    let Kind::CloseParen = kind_at(kinds, closing) else {
        drop(inner);
        return Err(Stop::Syntax(closing));
    };
    match Expr::paren(alloc, at, inner, closing) {
        Ok(expr) => Ok((expr, closing + 1)),
        Err(_) => Err(Stop::NoMemory),
    }
}

// A primary expression (6.5.1).
#[cycle(parser)]
fn primary(alloc: Global, kinds: &Kinds<'_>, at: u32) -> Result<(Expr, u32), Stop>
    requires size { length kinds.now ≤ 2000000 }
    requires plain { IsPlain kinds.now at }
    ensures found { IfOk result (λ r. Found kinds.now 17 at (tree_of r.0) r.1) }
    ensures only { (t : Tree) → (end : ℕ) → Reads kinds.now 17 t at end → Stops kinds.now 17 end
        → MustGive result (λ r. (tree_of r.0 ≡ t) × (r.1 ≡ end)) }
{
    match kind_at(kinds, at) {
        Kind::Identifier => Ok((Expr::name(at), at + 1)),
        Kind::Constant => Ok((Expr::constant(at), at + 1)),
        Kind::Text => text(alloc, kinds, at),
        Kind::OpenParen => paren(alloc, kinds, at),
        Kind::Generic => generic(alloc, kinds, at),
        Kind::OffsetOf => offset(alloc, kinds, at),
        _ => Err(Stop::Syntax(at)),
    }
}

// `[ expression ]`.
#[cycle(parser)]
fn index(alloc: Global, kinds: &Kinds<'_>, at: u32) -> Result<(Suffix, u32), Stop>
    requires size { length kinds.now ≤ 2000000 }
    requires inside { at < length kinds.now }
    requires kind { spec.kind_at kinds.now at ≡ OpenBracket }
    ensures found { IfOk result (λ r. FoundBehind kinds.now 16 at (behind_of r.0) r.1) }
    ensures only { (x : Behind) → (end : ℕ) → HoldsBehind kinds.now 16 x at end
        → MustGive result (λ r. (behind_of r.0 ≡ x) × (r.1 ≡ end)) }
{
    let (inner, closing) = match level(alloc, kinds, EXPRESSION, at + 1) {
        Ok(found) => found,
        Err(stop) => return Err(stop),
    };
    let Kind::CloseBracket = kind_at(kinds, closing) else {
        drop(inner);
        return Err(Stop::Syntax(closing));
    };
    match Suffix::index(alloc, at, inner, closing) {
        Ok(suffix) => Ok((suffix, closing + 1)),
        Err(_) => Err(Stop::NoMemory),
    }
}

// `( argument-expression-list )` or `( )`.
#[cycle(parser)]
fn call(alloc: Global, kinds: &Kinds<'_>, at: u32) -> Result<(Suffix, u32), Stop>
    requires size { length kinds.now ≤ 2000000 }
    requires inside { at < length kinds.now }
    requires kind { spec.kind_at kinds.now at ≡ OpenParen }
    ensures found { IfOk result (λ r. FoundBehind kinds.now 16 at (behind_of r.0) r.1) }
    ensures only { (x : Behind) → (end : ℕ) → HoldsBehind kinds.now 16 x at end
        → MustGive result (λ r. (behind_of r.0 ≡ x) × (r.1 ≡ end)) }
{
    if let Kind::CloseParen = kind_at(kinds, at + 1) {
        return Ok((Suffix::call(at, at + 1), at + 2));
    }
    let (first, behind) = match level(alloc, kinds, ASSIGNMENT, at + 1) {
        Ok(found) => found,
        Err(stop) => return Err(stop),
    };
    let (more, closing) = match operands(alloc, kinds, EXPRESSION, behind) {
        Ok(found) => found,
        Err(stop) => {
            drop(first);
            return Err(stop);
        }
    };
    let Kind::CloseParen = kind_at(kinds, closing) else {
        drop(first);
        return Err(Stop::Syntax(closing));
    };
    match Suffix::call_with(alloc, at, first, more, closing) {
        Ok(suffix) => Ok((suffix, closing + 1)),
        Err(_) => Err(Stop::NoMemory),
    }
}

// `.` or `->` and an identifier, which may be a typedef name.
fn member(kinds: &Kinds<'_>, at: u32) -> Result<(Suffix, u32), Stop>
    requires size { length kinds.now ≤ 2000000 }
    requires inside { at < length kinds.now }
    requires kind { spec.is_member (spec.kind_at kinds.now at) ≡ true }
    ensures found { IfOk result (λ r. FoundBehind kinds.now 16 at (behind_of r.0) r.1) }
    ensures only { (x : Behind) → (end : ℕ) → HoldsBehind kinds.now 16 x at end
        → MustGive result (λ r. (behind_of r.0 ≡ x) × (r.1 ≡ end)) }
{
    if !kind_at(kinds, at + 1).is_word() {
        return Err(Stop::Syntax(at + 1));
    }
    Ok((Suffix::member(at, at + 1), at + 2))
}

// A postfix operator.
#[cycle(parser)]
pub(crate) fn suffix(alloc: Global, kinds: &Kinds<'_>, at: u32) -> Result<(Suffix, u32), Stop>
    requires size { length kinds.now ≤ 2000000 }
    requires inside { at < length kinds.now }
    requires kind { spec.level_at kinds.now at ≡ 16 }
    ensures found { IfOk result (λ r. FoundBehind kinds.now 16 at (behind_of r.0) r.1) }
    ensures only { (x : Behind) → (end : ℕ) → HoldsBehind kinds.now 16 x at end
        → MustGive result (λ r. (behind_of r.0 ≡ x) × (r.1 ≡ end)) }
{
    match kind_at(kinds, at) {
        Kind::OpenBracket => index(alloc, kinds, at),
        Kind::OpenParen => call(alloc, kinds, at),
        Kind::Member | Kind::Dot => member(kinds, at),
        _ => Ok((Suffix::step(at), at + 1)),
    }
}

// The postfix operators that stand here.
#[cycle(parser)]
fn suffixes(alloc: Global, kinds: &Kinds<'_>, at: u32) -> Result<(Vec<Suffix>, u32), Stop>
    requires size { length kinds.now ≤ 2000000 }
    requires inside { at ≤ length kinds.now }
    ensures found { IfOk result (λ r. FoundBehinds kinds.now 16 at (behinds (suffixes_of r.0.items) None_behind) r.1) }
    ensures only { (xs : Behinds) → (end : ℕ) → HoldBehinds kinds.now 16 xs at end → Stops kinds.now 16 end
        → MustGive result (λ r. (behinds (suffixes_of r.0.items) None_behind ≡ xs) × (r.1 ≡ end)) }
{
    let mut suffixes = Vec::new(alloc);
    let mut end = at;
    'suffixes: loop {
        if level_at(kinds, end) != POSTFIX {
            return Ok((suffixes, end));
        }
        let (one, next) = match suffix(alloc, kinds, end) {
            Ok(found) => found,
            Err(stop) => return Err(stop),
        };
        let Ok(()) = push(&mut suffixes, one) else {
            return Err(Stop::NoMemory);
        };
        end = next;
    }
}

// The size or alignment of a type, behind which no postfix operator may stand (6.5.3).
fn sized(
    alloc: Global,
    kinds: &Kinds<'_>,
    keyword: u32,
    name: TypeName,
    closing: u32,
) -> Result<(Expr, u32), Stop>
    requires size { length kinds.now ≤ 2000000 }
    requires sized { IsSized kinds.now keyword (type_of name) closing }
    ensures found { IfOk result (λ r. Found kinds.now 17 keyword (tree_of r.0) r.1) }
    ensures fits { IfOk result (λ r. spec.level_at kinds.now r.1 ≡ 16 → goes_on (tree_of r.0) ≡ true) }
    ensures none { IfErr result (λ e. (t : Tree) → (end : ℕ) → Reads kinds.now 16 t keyword end → Stops kinds.now 16 end → IsWant e) }
{
    if kind_at(kinds, closing + 1).is_suffix() {
        drop(name);
        return Err(Stop::Syntax(closing + 1));
    }
    match Expr::of_type(alloc, keyword, keyword + 1, name, closing) {
        Ok(expr) => Ok((expr, closing + 1)),
        Err(_) => Err(Stop::NoMemory),
    }
}

// A compound literal (6.5.2.5), whose type was read.
#[cycle(parser)]
fn compound(
    alloc: Global,
    kinds: &Kinds<'_>,
    opening: u32,
    name: TypeName,
    closing: u32,
) -> Result<(Expr, u32), Stop>
    requires size { length kinds.now ≤ 2000000 }
    requires literal { IsLiteral kinds.now opening (type_of name) closing }
    ensures found { IfOk result (λ r. Found kinds.now 17 opening (tree_of r.0) r.1) }
    ensures fits { IfOk result (λ r. goes_on (tree_of r.0) ≡ true) }
    ensures none { IfErr result (λ e. (t : Tree) → (end : ℕ) → Reads kinds.now 17 t opening end → Stops kinds.now 17 end → IsWant e) }
{
    let (list, end) = match braces(alloc, kinds, closing + 1) {
        Ok(found) => found,
        Err(stop) => {
            drop(name);
            return Err(stop);
        }
    };
    match Expr::compound(alloc, opening, name, closing, list) {
        Ok(expr) => Ok((expr, end)),
        Err(_) => Err(Stop::NoMemory),
    }
}

// A primary expression, the size or alignment of a type, or a compound literal.
#[cycle(parser)]
fn begun_with(alloc: Global, kinds: &Kinds<'_>, begun: Begun) -> Result<(Expr, u32), Stop>
    requires size { length kinds.now ≤ 2000000 }
    requires begins { Begins kinds.now begun }
    ensures found { IfOk result (λ r. Found kinds.now 17 (start_of begun) (tree_of r.0) r.1) }
    ensures fits { IfOk result (λ r. spec.level_at kinds.now r.1 ≡ 16 → goes_on (tree_of r.0) ≡ true) }
    ensures none { IfErr result (λ e. (t : Tree) → (end : ℕ) → Reads kinds.now 16 t (start_of begun) end
        → Stops kinds.now 16 end → IsWant e) }
{
    match begun {
        Begun::Plain(at) => match primary(alloc, kinds, at) {
            Ok(found) => Ok(found),
            Err(stop) => Err(stop),
        },
        Begun::Size(keyword, name, closing) => match sized(alloc, kinds, keyword, name, closing) {
            Ok(found) => Ok(found),
            Err(stop) => Err(stop),
        },
        Begun::Literal(opening, name, closing) => {
            match compound(alloc, kinds, opening, name, closing) {
                Ok(found) => Ok(found),
                Err(stop) => Err(stop),
            }
        }
    }
}

// What was begun, with the postfix operators behind it (6.5.2).
#[cycle(parser)]
fn postfix(alloc: Global, kinds: &Kinds<'_>, begun: Begun) -> Result<(Expr, u32), Stop>
    requires size { length kinds.now ≤ 2000000 }
    requires begins { Begins kinds.now begun }
    ensures found { IfOk result (λ r. Found kinds.now 16 (start_of begun) (tree_of r.0) r.1) }
    ensures only { (t : Tree) → (end : ℕ) → Reads kinds.now 16 t (start_of begun) end → Stops kinds.now 16 end
        → MustGive result (λ r. (tree_of r.0 ≡ t) × (r.1 ≡ end)) }
{
    let (first, behind) = match begun_with(alloc, kinds, begun) {
        Ok(found) => found,
        Err(stop) => return Err(stop),
    };
    let (more, end) = match suffixes(alloc, kinds, behind) {
        Ok(found) => found,
        Err(stop) => {
            drop(first);
            return Err(stop);
        }
    };
    match joining::postfix(alloc, first, more) {
        Ok(expr) => Ok((expr, end)),
        Err(stop) => Err(stop),
    }
}

// A postfix expression with the unary operators and casts in front of it (6.5.3, 6.5.4).
#[cycle(parser)]
fn unary(alloc: Global, kinds: &Kinds<'_>, at: u32) -> Result<(Expr, u32), Stop>
    requires size { length kinds.now ≤ 2000000 }
    requires inside { at ≤ length kinds.now }
    ensures found { IfOk result (λ r. Found kinds.now 14 at (tree_of r.0) r.1) }
    ensures only { (t : Tree) → (end : ℕ) → Reads kinds.now 14 t at end → Stops kinds.now 14 end
        → MustGive result (λ r. (tree_of r.0 ≡ t) × (r.1 ≡ end)) }
{
    let (prefixes, begun) = match prefixes(alloc, kinds, at) {
        Ok(found) => found,
        Err(stop) => return Err(stop),
    };
    let (operand, end) = match postfix(alloc, kinds, begun) {
        Ok(found) => found,
        Err(stop) => return Err(stop),
    };
    match joining::unary(alloc, prefixes, operand) {
        Ok(expr) => Ok((expr, end)),
        Err(stop) => Err(stop),
    }
}

// The operators of this level that stand here, each with the operand behind it.
#[cycle(parser)]
fn operands(
    alloc: Global,
    kinds: &Kinds<'_>,
    n: u8,
    at: u32,
) -> Result<(Vec<(u32, Expr)>, u32), Stop>
    requires size { length kinds.now ≤ 2000000 }
    requires inside { at ≤ length kinds.now }
    requires binary { IsBinary n }
    requires loose { Stops kinds.now (n + 1) at }
    ensures found { IfOk result (λ r. FoundBehinds kinds.now n at (behinds (operands_of r.0.items) None_behind) r.1) }
    ensures only { (xs : Behinds) → (end : ℕ) → HoldBehinds kinds.now n xs at end → Stops kinds.now n end
        → MustGive result (λ r. (behinds (operands_of r.0.items) None_behind ≡ xs) × (r.1 ≡ end)) }
{
    let mut pairs = Vec::new(alloc);
    let mut end = at;
    'operators: loop {
        if level_at(kinds, end) != n {
            return Ok((pairs, end));
        }
        let (operand, next) = match level(alloc, kinds, n + 1, end + 1) {
            Ok(found) => found,
            Err(stop) => return Err(stop),
        };
        let Ok(()) = push(&mut pairs, (end, operand)) else {
            return Err(Stop::NoMemory);
        };
        end = next;
    }
}

// What was read and the operators of this level behind it, each with its operand (6.5.5 to 6.5.14, 6.5.17).
#[cycle(parser)]
fn binary(
    alloc: Global,
    kinds: &Kinds<'_>,
    n: u8,
    first: Expr,
    behind: u32,
) -> Result<(Expr, u32), Stop>
    requires size { length kinds.now ≤ 2000000 }
    requires inside { behind ≤ length kinds.now }
    requires binary { IsBinary n }
    requires loose { Stops kinds.now (n + 1) behind }
    ensures found { IfOk result (λ r. (a : ℕ) → Found kinds.now (n + 1) a (tree_of first) behind → Found kinds.now n a (tree_of r.0) r.1) }
    ensures fails { IfErr result (λ e. (a : ℕ) → Found kinds.now (n + 1) a (tree_of first) behind
        → (t : Tree) → (end : ℕ) → Reads kinds.now n t a end → Stops kinds.now n end → IsWant e) }
{
    let (more, end) = match operands(alloc, kinds, n, behind) {
        Ok(found) => found,
        Err(stop) => {
            drop(first);
            return Err(stop);
        }
    };
    match joining::binary(alloc, first, more) {
        Ok(expr) => Ok((expr, end)),
        Err(stop) => Err(stop),
    }
}

// Operands with operators of this level and of those that bind more between them (6.5.5 to 6.5.14). The operator behind what
// was read tells of which level it is: one that binds less than those before it takes all that was read.
#[cycle(parser)]
fn operations(alloc: Global, kinds: &Kinds<'_>, n: u8, at: u32) -> Result<(Expr, u32), Stop>
    requires size { length kinds.now ≤ 2000000 }
    requires inside { at ≤ length kinds.now }
    requires low { 4 ≤ n }
    requires high { n ≤ 14 }
    ensures found { IfOk result (λ r. Found kinds.now n at (tree_of r.0) r.1) }
    ensures only { (t : Tree) → (end : ℕ) → Reads kinds.now n t at end → Stops kinds.now n end
        → MustGive result (λ r. (tree_of r.0 ≡ t) × (r.1 ≡ end)) }
{
    let (first, behind) = match unary(alloc, kinds, at) {
        Ok(found) => found,
        Err(stop) => return Err(stop),
    };
    let mut expr = first;
    let mut end = behind;
    'operators: loop {
        let own = level_at(kinds, end);
        if own < n {
            return Ok((expr, end));
        }
        let (joined, next) = match binary(alloc, kinds, own, expr, end) {
            Ok(found) => found,
            Err(stop) => return Err(stop),
        };
        expr = joined;
        end = next;
    }
}

// Expressions with commas between them (6.5.17).
#[cycle(parser)]
fn comma(alloc: Global, kinds: &Kinds<'_>, at: u32) -> Result<(Expr, u32), Stop>
    requires size { length kinds.now ≤ 2000000 }
    requires inside { at ≤ length kinds.now }
    ensures found { IfOk result (λ r. Found kinds.now 1 at (tree_of r.0) r.1) }
    ensures only { (t : Tree) → (end : ℕ) → Reads kinds.now 1 t at end → Stops kinds.now 1 end
        → MustGive result (λ r. (tree_of r.0 ≡ t) × (r.1 ≡ end)) }
{
    let (first, behind) = match assignment(alloc, kinds, at) {
        Ok(found) => found,
        Err(stop) => return Err(stop),
    };
    match binary(alloc, kinds, EXPRESSION, first, behind) {
        Ok(found) => Ok(found),
        Err(stop) => Err(stop),
    }
}

// Tests with what stands between `?` and `:`, and the last expression (6.5.15).
#[cycle(parser)]
fn conditional(alloc: Global, kinds: &Kinds<'_>, at: u32) -> Result<(Expr, u32), Stop>
    requires size { length kinds.now ≤ 2000000 }
    requires inside { at ≤ length kinds.now }
    ensures found { IfOk result (λ r. Found kinds.now 3 at (tree_of r.0) r.1) }
    ensures only { (t : Tree) → (end : ℕ) → Reads kinds.now 3 t at end → Stops kinds.now 3 end
        → MustGive result (λ r. (tree_of r.0 ≡ t) × (r.1 ≡ end)) }
{
    let mut choices = Vec::new(alloc);
    let mut start = at;
    'choices: loop {
        let (test, question) = match operations(alloc, kinds, LOGICAL_OR, start) {
            Ok(found) => found,
            Err(stop) => return Err(stop),
        };
        let Kind::Question = kind_at(kinds, question) else {
            match joining::conditional(alloc, choices, test) {
                Ok(expr) => return Ok((expr, question)),
                Err(stop) => return Err(stop),
            }
        };
        let (middle, colon) = match level(alloc, kinds, EXPRESSION, question + 1) {
            Ok(found) => found,
            Err(stop) => {
                drop(test);
                return Err(stop);
            }
        };
        let Kind::Colon = kind_at(kinds, colon) else {
            drop(middle);
            drop(test);
            return Err(Stop::Syntax(colon));
        };
        let Ok(()) = push(&mut choices, Choice::new(test, question, middle, colon)) else {
            return Err(Stop::NoMemory);
        };
        start = colon + 1;
    }
}

// Places to which a value is assigned, and the value (6.5.16). What stands in front of the operator is read as a
// conditional expression, and its form decides.
#[cycle(parser)]
fn assignment(alloc: Global, kinds: &Kinds<'_>, at: u32) -> Result<(Expr, u32), Stop>
    requires size { length kinds.now ≤ 2000000 }
    requires inside { at ≤ length kinds.now }
    ensures found { IfOk result (λ r. Found kinds.now 2 at (tree_of r.0) r.1) }
    ensures only { (t : Tree) → (end : ℕ) → Reads kinds.now 2 t at end → Stops kinds.now 2 end
        → MustGive result (λ r. (tree_of r.0 ≡ t) × (r.1 ≡ end)) }
{
    let mut places = Vec::new(alloc);
    let mut start = at;
    'places: loop {
        let (value, operator) = match conditional(alloc, kinds, start) {
            Ok(found) => found,
            Err(stop) => return Err(stop),
        };
        if level_at(kinds, operator) != ASSIGNMENT {
            match joining::assign(alloc, places, value) {
                Ok(expr) => return Ok((expr, operator)),
                Err(stop) => return Err(stop),
            }
        }
        if !value.is_unary() {
            drop(value);
            return Err(Stop::Syntax(operator));
        }
        let Ok(()) = push(&mut places, (value, operator)) else {
            return Err(Stop::NoMemory);
        };
        start = operator + 1;
    }
}

// An expression of this level, or of one that binds more.
#[cycle(parser)]
pub(crate) fn level(alloc: Global, kinds: &Kinds<'_>, n: u8, at: u32) -> Result<(Expr, u32), Stop>
    requires size { length kinds.now ≤ 2000000 }
    requires inside { at ≤ length kinds.now }
    requires low { 1 ≤ n }
    requires high { n ≤ 14 }
    ensures found { IfOk result (λ r. Found kinds.now n at (tree_of r.0) r.1) }
    ensures only { (t : Tree) → (end : ℕ) → Reads kinds.now n t at end → Stops kinds.now n end
        → MustGive result (λ r. (tree_of r.0 ≡ t) × (r.1 ≡ end)) }
{
    if n == EXPRESSION {
        return comma(alloc, kinds, at);
    }
    if n == ASSIGNMENT {
        return assignment(alloc, kinds, at);
    }
    if n == CONDITIONAL {
        return conditional(alloc, kinds, at);
    }
    operations(alloc, kinds, n, at)
}
