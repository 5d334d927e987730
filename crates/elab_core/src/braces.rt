// Compound literals (ISO C11 6.5.2.5), whose initializer is read piece by piece (6.7.9).
ghost use Rattle.std.specs.Prelude.{◌≡◌};
ghost use Rattle.elab_core.specs.Expressions as spec;
ghost use Rattle.elab_core.specs.Literals as literals;
ghost use Rattle.elab_state.specs.Comes.{Comes};
ghost use Rattle.elab_state.specs.Seen.{context_of, told_of};
ghost use Rattle.tree_data.specs.Seen as seen;
ghost use Rattle.tree_data.specs.Trees as trees;
ghost use Rattle.elab_core.specs.Ends as ends;
ghost use Rattle.tree_data.specs.Seen.{tree_of};

use crate::accesses::designate_field;
use crate::braced::{designate, empty, express, fill, whole};
use crate::ends::first_of;
use crate::expressions::judged;
use crate::generics::{associations, chosen_by, select};
use crate::naming::type_name;
use crate::offsets::{place_of_member, steps_to, way_from};
use crate::rows::row;
use crate::shapes::{Filling, Typed};
use elab_state::{Around, Halt, Made, Where, look_deep};
use init_rules::InitPiece;
use std::alloc::Global;
use tree_data::{Braces, Designator, Expr, Init, Piece};
use type_data::Judged;

fn is_text(expr: &Expr) -> bool
    ensures { result ≡ ends.is_text (tree_of expr.now) }
{
    match expr {
        Expr::Text(_) => true,
        Expr::Name(_) => false,
        Expr::Constant(_) => false,
        Expr::Paren(_, _, _) => false,
        Expr::OfType(_, _, _, _) => false,
        Expr::Postfix(_, _) => false,
        Expr::Unary(_, _) => false,
        Expr::Binary(_, _) => false,
        Expr::Conditional(_, _) => false,
        Expr::Assign(_, _) => false,
        Expr::Compound(_, _, _, _) => false,
        Expr::Generic(_, _, _, _, _) => false,
        Expr::Offset(_, _, _, _, _, _, _) => false,
    }
}

#[cycle(judging)]
fn element(
    alloc: Global,
    around: &Around<'_>,
    place: Where,
    made: &mut Made,
    filling: &mut Filling,
    opening: u32,
    index: &Expr,
) -> Result<(), Halt>
    ensures { Comes (told_of around.now) (spec.designator_in (context_of around.now) place (trees.Element_of opening (tree_of index.now) 0) filling.old made.old) (λ _. filling.new) result made.new }
{
    let value = match judged(alloc, around, place, made, index) {
        Ok(done) => done,
        Err(halt) => return Err(halt),
    };
    let Ok(()) = designate(alloc, made, filling, opening, first_of(index), &value) else {
        drop(value);
        return Err(Halt::NoMemory);
    };
    drop(value);
    Ok(())
}

#[cycle(judging)]
fn designator(
    alloc: Global,
    around: &Around<'_>,
    place: Where,
    made: &mut Made,
    filling: &mut Filling,
    designator: &Designator,
) -> Result<(), Halt>
    ensures { Comes (told_of around.now) (spec.designator_in (context_of around.now) place (seen.designator_of designator.now) filling.old made.old) (λ _. filling.new) result made.new }
{
    match designator {
        Designator::Element(opening, index, _) => {
            element(alloc, around, place, made, filling, *opening, index)
        }
        Designator::Field(dot, name) => {
            let Ok(()) = designate_field(alloc, around, made, filling, *dot, *name) else {
                return Err(Halt::NoMemory);
            };
            Ok(())
        }
    }
}

#[cycle(judging)]
fn designators(
    alloc: Global,
    around: &Around<'_>,
    place: Where,
    made: &mut Made,
    filling: &mut Filling,
    list: &Vec<Designator>,
) -> Result<(), Halt>
    ensures { Comes (told_of around.now) (spec.designators_in (context_of around.now) place (trees.designators (seen.designators_of list.now.items)) filling.old made.old) (λ _. filling.new) result made.new }
{
    'designators: for next in list {
        match designator(alloc, around, place, made, filling, next) {
            Ok(()) => (),
            Err(halt) => return Err(halt),
        }
    }
    Ok(())
}

#[cycle(judging)]
fn value(
    alloc: Global,
    around: &Around<'_>,
    place: Where,
    made: &mut Made,
    filling: &mut Filling,
    expr: &Expr,
) -> Result<(), Halt>
    ensures { Comes (told_of around.now) (spec.initial (context_of around.now) place (trees.Value_of (tree_of expr.now)) filling.old made.old) (λ _. filling.new) result made.new }
{
    let value = match judged(alloc, around, place, made, expr) {
        Ok(done) => done,
        Err(halt) => return Err(halt),
    };
    let Ok(()) = express(alloc, made, filling, first_of(expr), is_text(expr), value) else {
        return Err(Halt::NoMemory);
    };
    Ok(())
}

/// A value, or a list of initializers in braces.
#[cycle(judging)]
pub(crate) fn initial(
    alloc: Global,
    around: &Around<'_>,
    place: Where,
    made: &mut Made,
    filling: &mut Filling,
    init: &Init,
) -> Result<(), Halt>
    ensures { Comes (told_of around.now) (spec.initial (context_of around.now) place (seen.initial_of init.now) filling.old made.old) (λ _. filling.new) result made.new }
{
    match init {
        Init::Value(expr) => value(alloc, around, place, made, filling, expr),
        Init::List(list) => braces(alloc, around, place, made, filling, list),
    }
}

#[cycle(judging)]
fn piece(
    alloc: Global,
    around: &Around<'_>,
    place: Where,
    made: &mut Made,
    filling: &mut Filling,
    piece: &Piece,
) -> Result<(), Halt>
    ensures { Comes (told_of around.now) (spec.piece_in (context_of around.now) place (seen.piece_of piece.now) filling.old made.old) (λ _. filling.new) result made.new }
{
    match piece {
        Piece::Plain(init) => initial(alloc, around, place, made, filling, init),
        Piece::Designated(first, more, _, init) => {
            match designator(alloc, around, place, made, filling, first) {
                Ok(()) => (),
                Err(halt) => return Err(halt),
            }
            match designators(alloc, around, place, made, filling, more) {
                Ok(()) => (),
                Err(halt) => return Err(halt),
            }
            initial(alloc, around, place, made, filling, init)
        }
    }
}

#[cycle(judging)]
fn pieces(
    alloc: Global,
    around: &Around<'_>,
    place: Where,
    made: &mut Made,
    filling: &mut Filling,
    list: &Vec<(u32, Piece)>,
) -> Result<(), Halt>
    ensures { Comes (told_of around.now) (spec.pieces_in (context_of around.now) place (trees.pieces (seen.pieces_of list.now.items)) filling.old made.old) (λ _. filling.new) result made.new }
{
    'pieces: for pair in list {
        match piece(alloc, around, place, made, filling, &pair.1) {
            Ok(()) => (),
            Err(halt) => return Err(halt),
        }
    }
    Ok(())
}

#[cycle(judging)]
fn braces(
    alloc: Global,
    around: &Around<'_>,
    place: Where,
    made: &mut Made,
    filling: &mut Filling,
    list: &Braces,
) -> Result<(), Halt>
    ensures { Comes (told_of around.now) (spec.braces (context_of around.now) place (seen.braces_of list.now) filling.old made.old) (λ _. filling.new) result made.new }
{
    let Ok(()) = fill(alloc, made, filling, list.opening, &InitPiece::Open) else {
        return Err(Halt::NoMemory);
    };
    match piece(alloc, around, place, made, filling, &list.first) {
        Ok(()) => (),
        Err(halt) => return Err(halt),
    }
    match pieces(alloc, around, place, made, filling, &list.more) {
        Ok(()) => (),
        Err(halt) => return Err(halt),
    }
    let Ok(()) = fill(alloc, made, filling, list.closing, &InitPiece::Close) else {
        return Err(Halt::NoMemory);
    };
    Ok(())
}

// The initializer of a compound literal of this type, before its first piece.
fn begun(
    alloc: Global,
    around: &Around<'_>,
    made: &mut Made,
    typed: &Typed,
) -> Result<Filling, Halt>
    ensures { Comes (told_of around.now) (literals.begun (context_of around.now) typed.now made.old) (λ f. f) result made.new }
{
    match look_deep(alloc, around, made, &typed.ty) {
        Ok(()) => (),
        Err(halt) => return Err(halt),
    }
    let Ok(filling) = empty(alloc, made.kind(), typed) else {
        return Err(Halt::NoMemory);
    };
    Ok(filling)
}

fn literal(
    alloc: Global,
    around: &Around<'_>,
    made: &mut Made,
    at: u32,
    typed: &Typed,
    filling: &Filling,
) -> Result<Judged, Halt>
    ensures { Comes (told_of around.now) (literals.literal (context_of around.now) at typed.now filling.now made.old) (λ j. j) result made.new }
{
    let Ok(form) = whole(alloc, made.kind(), typed, filling) else {
        return Err(Halt::NoMemory);
    };
    row(alloc, around, made, at, form, &[])
}

/// A compound literal, a generic selection or `__offsetof`.
#[cycle(judging)]
pub(crate) fn completed(
    alloc: Global,
    around: &Around<'_>,
    place: Where,
    made: &mut Made,
    expr: &Expr,
) -> Result<Judged, Halt>
    ensures { Comes (told_of around.now) (spec.judge (context_of around.now) place (tree_of expr.now) made.old) (λ j. j) result made.new }
{
    match expr {
        Expr::Compound(at, name, _, list) => {
            let typed = match type_name(alloc, around, place, made, name) {
                Ok(done) => done,
                Err(halt) => return Err(halt),
            };
            let mut filling = match begun(alloc, around, made, &typed) {
                Ok(done) => done,
                Err(halt) => {
                    drop(typed);
                    return Err(halt);
                }
            };
            match braces(alloc, around, place, made, &mut filling, list) {
                Ok(()) => (),
                Err(halt) => {
                    drop(filling);
                    drop(typed);
                    return Err(halt);
                }
            }
            let done = literal(alloc, around, made, *at, &typed, &filling);
            drop(filling);
            drop(typed);
            done
        }
        Expr::Generic(at, _, control, list, _) => {
            let control = match judged(alloc, around, place, made, control) {
                Ok(done) => done,
                Err(halt) => return Err(halt),
            };
            let Ok(mut choices) = chosen_by(alloc, control) else {
                return Err(Halt::NoMemory);
            };
            match associations(alloc, around, place, made, &mut choices, list) {
                Ok(()) => (),
                Err(halt) => {
                    drop(choices);
                    return Err(halt);
                }
            }
            select(alloc, around, made, *at, choices)
        }
        Expr::Offset(at, _, name, _, member, list, _) => {
            let typed = match type_name(alloc, around, place, made, name) {
                Ok(done) => done,
                Err(halt) => return Err(halt),
            };
            let mut way = match way_from(alloc, around, made, &typed, *member) {
                Ok(done) => done,
                Err(halt) => {
                    drop(typed);
                    return Err(halt);
                }
            };
            match steps_to(alloc, around, place, made, &mut way, list) {
                Ok(()) => (),
                Err(halt) => {
                    drop(way);
                    drop(typed);
                    return Err(halt);
                }
            }
            place_of_member(alloc, around, made, *at, typed, way)
        }
        // Nothing else is handed on to it.
        _ => Err(Halt::NoMemory),
    }
}
