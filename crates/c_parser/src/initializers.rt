// Initializers (ISO C11 6.7.9).
ghost use Rattle.std.specs.Prelude.{◌≡◌, ℕ, ◌+◌, ◌<◌, ◌≤◌, length, true, Option, IfOk};
ghost use Rattle.tree_data.specs.Seen.{braces_of, initial_of, piece_of, pieces_of, designator_of, designators_of};
ghost use Rattle.tree_data.specs.Trees as tree;
ghost use Rattle.tree_data.specs.Trees.{Initial, Pieces, pieces, Designators, designators};
ghost use Rattle.c_parser.specs.declared.kinds.Kind.TheVariants.{OpenBrace, CloseBrace};
ghost use Rattle.c_parser.specs.Kinds as spec;
ghost use Rattle.c_parser.specs.Reading.{HoldBraces, HoldsInitial, HoldsPiece, HoldPieces, HoldsComma, HoldsDesignator, HoldDesignators, Stops, FoundBraces, FoundInitial, FoundPiece, FoundPieces, FoundDesignator, FoundDesignators, MustGive};

use crate::answers::Stop;
use crate::expressions::{ASSIGNMENT, CONDITIONAL, level};
use crate::kinds::{Kind, kind_at};
use crate::room::push;
use crate::scope::Kinds;
use std::alloc::Global;
use tree_data::{Braces, Designator, Init, Piece};

// `[ constant-expression ]`, or `.` and an identifier, which may be a typedef name.
#[cycle(parser)]
fn designator(alloc: Global, kinds: &Kinds<'_>, at: u32) -> Result<(Designator, u32), Stop>
    requires size { length kinds.now ≤ 2000000 }
    requires inside { at < length kinds.now }
    requires kind { spec.is_designating (spec.kind_at kinds.now at) ≡ true }
    ensures found { IfOk result (λ r. FoundDesignator kinds.now at (designator_of r.0) r.1) }
    ensures only { (x : tree.Designator) → (end : ℕ) → HoldsDesignator kinds.now x at end
        → MustGive result (λ r. (designator_of r.0 ≡ x) × (r.1 ≡ end)) }
{
    if let Kind::Dot = kind_at(kinds, at) {
        if !kind_at(kinds, at + 1).is_word() {
            return Err(Stop::Syntax(at + 1));
        }
        return Ok((Designator::field(at, at + 1), at + 2));
    }
    let (index, closing) = match level(alloc, kinds, CONDITIONAL, at + 1) {
        Ok(found) => found,
        Err(stop) => return Err(stop),
    };
    let Kind::CloseBracket = kind_at(kinds, closing) else {
        drop(index);
        return Err(Stop::Syntax(closing));
    };
    Ok((Designator::element(at, index, closing), closing + 1))
}

// The designators that stand here.
#[cycle(parser)]
fn designators(alloc: Global, kinds: &Kinds<'_>, at: u32) -> Result<(Vec<Designator>, u32), Stop>
    requires size { length kinds.now ≤ 2000000 }
    requires inside { at ≤ length kinds.now }
    ensures found { IfOk result (λ r. FoundDesignators kinds.now at (designators (designators_of r.0.items)) r.1) }
    ensures only { (xs : Designators) → (end : ℕ) → HoldDesignators kinds.now xs at end
        → spec.is_equals (spec.kind_at kinds.now end) ≡ true
        → MustGive result (λ r. (designators (designators_of r.0.items) ≡ xs) × (r.1 ≡ end)) }
{
    let mut more = Vec::new(alloc);
    let mut end = at;
    'designators: loop {
        if !kind_at(kinds, end).is_designating() {
            return Ok((more, end));
        }
        let (one, next) = match designator(alloc, kinds, end) {
            Ok(found) => found,
            Err(stop) => return Err(stop),
        };
        let Ok(()) = push(&mut more, one) else {
            return Err(Stop::NoMemory);
        };
        end = next;
    }
}

// An assignment-expression, or a list in braces.
#[cycle(parser)]
pub(crate) fn init(alloc: Global, kinds: &Kinds<'_>, at: u32) -> Result<(Init, u32), Stop>
    requires size { length kinds.now ≤ 2000000 }
    requires inside { at ≤ length kinds.now }
    ensures found { IfOk result (λ r. FoundInitial kinds.now at (initial_of r.0) r.1) }
    ensures only { (x : Initial) → (end : ℕ) → HoldsInitial kinds.now x at end → Stops kinds.now 2 end
        → MustGive result (λ r. (initial_of r.0 ≡ x) × (r.1 ≡ end)) }
{
    let Kind::OpenBrace = kind_at(kinds, at) else {
        match level(alloc, kinds, ASSIGNMENT, at) {
            Ok((expr, end)) => return Ok((Init::value(expr), end)),
            Err(stop) => return Err(stop),
        }
    };
    let (list, end) = match braces(alloc, kinds, at) {
        Ok(found) => found,
        Err(stop) => return Err(stop),
    };
    match Init::list(alloc, list) {
        Ok(init) => Ok((init, end)),
        Err(_) => Err(Stop::NoMemory),
    }
}

// A designation with `=` and an initializer.
#[cycle(parser)]
fn designated(alloc: Global, kinds: &Kinds<'_>, at: u32) -> Result<(Piece, u32), Stop>
    requires size { length kinds.now ≤ 2000000 }
    requires inside { at < length kinds.now }
    requires kind { spec.is_designating (spec.kind_at kinds.now at) ≡ true }
    ensures found { IfOk result (λ r. FoundPiece kinds.now at (piece_of r.0) r.1) }
    ensures only { (x : tree.Piece) → (end : ℕ) → HoldsPiece kinds.now x at end → Stops kinds.now 2 end
        → MustGive result (λ r. (piece_of r.0 ≡ x) × (r.1 ≡ end)) }
{
    let (first, behind) = match designator(alloc, kinds, at) {
        Ok(found) => found,
        Err(stop) => return Err(stop),
    };
    let (more, equals) = match designators(alloc, kinds, behind) {
        Ok(found) => found,
        Err(stop) => {
            drop(first);
            return Err(stop);
        }
    };
    let Kind::Equals = kind_at(kinds, equals) else {
        drop(first);
        return Err(Stop::Syntax(equals));
    };
    match init(alloc, kinds, equals + 1) {
        Ok((init, end)) => Ok((Piece::designated(first, more, equals, init), end)),
        Err(stop) => {
            drop(first);
            Err(stop)
        }
    }
}

// An initializer, with a designation or without.
#[cycle(parser)]
fn piece(alloc: Global, kinds: &Kinds<'_>, at: u32) -> Result<(Piece, u32), Stop>
    requires size { length kinds.now ≤ 2000000 }
    requires inside { at ≤ length kinds.now }
    ensures found { IfOk result (λ r. FoundPiece kinds.now at (piece_of r.0) r.1) }
    ensures only { (x : tree.Piece) → (end : ℕ) → HoldsPiece kinds.now x at end → Stops kinds.now 2 end
        → MustGive result (λ r. (piece_of r.0 ≡ x) × (r.1 ≡ end)) }
{
    if kind_at(kinds, at).is_designating() {
        return designated(alloc, kinds, at);
    }
    match init(alloc, kinds, at) {
        Ok((init, end)) => Ok((Piece::plain(init), end)),
        Err(stop) => Err(stop),
    }
}

// The pieces that stand behind the first one, each with the comma in front of it, and a comma at the end.
#[cycle(parser)]
fn pieces(
    alloc: Global,
    kinds: &Kinds<'_>,
    at: u32,
) -> Result<(Vec<(u32, Piece)>, Option<u32>, u32), Stop>
    requires size { length kinds.now ≤ 2000000 }
    requires inside { at ≤ length kinds.now }
    ensures found { IfOk result (λ r. FoundPieces kinds.now at (pieces (pieces_of r.0.items)) r.1 r.2) }
    ensures only { (xs : Pieces) → (k : ℕ) → (t : Option ℕ) → (end : ℕ) → HoldPieces kinds.now xs at k → HoldsComma kinds.now t k end
        → spec.kind_at kinds.now end ≡ CloseBrace
        → MustGive result (λ r. (pieces (pieces_of r.0.items) ≡ xs) × (r.1 ≡ t) × (r.2 ≡ end)) }
{
    let mut more = Vec::new(alloc);
    let mut end = at;
    'pieces: loop {
        let Kind::Comma = kind_at(kinds, end) else {
            return Ok((more, None, end));
        };
        if let Kind::CloseBrace = kind_at(kinds, end + 1) {
            return Ok((more, Some(end), end + 1));
        }
        let (one, next) = match piece(alloc, kinds, end + 1) {
            Ok(found) => found,
            Err(stop) => return Err(stop),
        };
        let Ok(()) = push(&mut more, (end, one)) else {
            return Err(Stop::NoMemory);
        };
        end = next;
    }
}

// `{ initializer-list }` or `{ initializer-list , }`.
#[cycle(parser)]
pub(crate) fn braces(alloc: Global, kinds: &Kinds<'_>, at: u32) -> Result<(Braces, u32), Stop>
    requires size { length kinds.now ≤ 2000000 }
    requires kind { spec.kind_at kinds.now at ≡ OpenBrace }
    requires inside { at < length kinds.now }
    ensures found { IfOk result (λ r. FoundBraces kinds.now at (braces_of r.0) r.1) }
    ensures only { (x : tree.Braces) → (end : ℕ) → HoldBraces kinds.now x at end
        → MustGive result (λ r. (braces_of r.0 ≡ x) × (r.1 ≡ end)) }
{
    let (first, behind) = match piece(alloc, kinds, at + 1) {
        Ok(found) => found,
        Err(stop) => return Err(stop),
    };
    let (more, comma, closing) = match pieces(alloc, kinds, behind) {
        Ok(found) => found,
        Err(stop) => {
            drop(first);
            return Err(stop);
        }
    };
    let Kind::CloseBrace = kind_at(kinds, closing) else {
        drop(first);
        return Err(Stop::Syntax(closing));
    };
    Ok((Braces::new(at, first, more, comma, closing), closing + 1))
}
