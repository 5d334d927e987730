// One step of an initializer.
ghost use Rattle.std.specs.Prelude.{◌≡◌, ◌≢◌, Err, IfOk, OnOk, false};
ghost use Rattle.type_data.specs.declared.judged.CheckError.TheVariants.{NoMemory};
ghost use Rattle.init_rules.specs.Places;
ghost use Rattle.init_rules.specs.Steps as spec;
ghost use Rattle.init_rules.specs.declared.state.InitPiece.TheVariants as piece;

use crate::designators::{field, index, to_object};
use crate::expressions::{express, open};
use crate::extents::end_step;
use crate::places::close;
use crate::state::{InitPiece, InitState};
use shared_text::Name;
use std::alloc::{AllocError, Global};
use type_data::{CheckError, Fault, Tags, Value};

fn by_name(
    alloc: Global,
    state: &mut InitState,
    tags: &Tags,
    name: &Name,
) -> Result<Option<Fault>, AllocError>
    ensures fault { IfOk result (λ f. f ≡ spec.fault_of_piece state.old tags.now (piece.Field name.now)) }
    ensures moves { OnOk result (state.new ≡ spec.after_piece state.old tags.now (piece.Field name.now)) }
{
    to_object(tags, state.designating, &mut state.open_places)?;
    let fault = field(alloc, state.at, tags, name.as_str(), &mut state.open_places)?;
    end_step(state, true, 0);
    Ok(fault)
}

fn by_number(
    alloc: Global,
    state: &mut InitState,
    tags: &Tags,
    value: Value,
) -> Result<Option<Fault>, AllocError>
    ensures fault { IfOk result (λ f. f ≡ spec.fault_of_piece state.old tags.now (piece.Index value)) }
    ensures moves { OnOk result (state.new ≡ spec.after_piece state.old tags.now (piece.Index value)) }
{
    to_object(tags, state.designating, &mut state.open_places)?;
    let fault = index(alloc, state.at, value, &mut state.open_places)?;
    end_step(state, true, 0);
    Ok(fault)
}

fn close_list(state: &mut InitState)
    ensures { state.new ≡ spec.moved state.old (Places.closed state.old.open_places) false 0 }
{
    close(&mut state.open_places);
    end_step(state, false, 0);
}

fn step(
    alloc: Global,
    state: &mut InitState,
    tags: &Tags,
    piece: &InitPiece,
) -> Result<Option<Fault>, AllocError>
    ensures fault { IfOk result (λ f. f ≡ spec.fault_of_piece state.old tags.now piece.now) }
    ensures moves { OnOk result (state.new ≡ spec.after_piece state.old tags.now piece.now) }
{
    match piece {
        InitPiece::Open => open(alloc, state, tags),
        InitPiece::Close => {
            close_list(state);
            Ok(None)
        }
        InitPiece::Field(name) => by_name(alloc, state, tags, name),
        InitPiece::Index(value) => by_number(alloc, state, tags, *value),
        InitPiece::Item(judged) => express(alloc, state, tags, false, judged),
        InitPiece::Text(judged) => express(alloc, state, tags, true, judged),
    }
}

fn answer(fault: Option<Fault>) -> Result<(), CheckError>
    ensures { result ≡ spec.answer_of fault }
{
    match fault {
        Some(fault) => Err(CheckError::Broken(fault)),
        None => Ok(()),
    }
}

/// Reads the next piece of an initializer (ISO C11 6.7.9), where `tags` tells what is known of tags.
///
/// The pieces come in source order. An initializer that is one expression is one piece; a list has `Open`, for each of its
/// initializers its designators and the pieces of the initializer, and `Close`. Before the first piece no place is open, no
/// designation has begun and nothing is reached. `at` is set before each piece to the token on which its fault belongs: of a
/// designator its `.` or `[` (a fault of its value belongs on the expression, where the caller puts it), of a brace or an expression
/// its first token.
///
/// `Broken` has the rule that the piece breaks: 425 for the first initializer of a list that is too many, and for a string that is
/// too long; that of a designator's value that is `Faulty` (0 is none), else 426 for a designator that designates nothing; 427 where an
/// initializer isn't constant and must be, else 428 where the object doesn't take it, with the type of the object and that of the
/// expression after its conversion. After a fault the initializer goes on; behind too many, a designator that designates nothing
/// that is known, and an expression of a faulty type for what has parts, nothing is checked up to the next designation of the list
/// or its end.
///
/// `NoMemory` comes where memory is refused; the state is of no use then. A step costs a constant beside the types that it copies and
/// the objects that it opens and leaves; a name is looked for among the members from the next one on.
pub fn init_step(
    alloc: Global,
    state: &mut InitState,
    piece: &InitPiece,
    tags: &Tags,
) -> Result<(), CheckError>
    ensures answer { result ≢ Err NoMemory → result ≡ spec.answered state.old tags.now piece.now }
    ensures moves { result ≢ Err NoMemory → state.new ≡ spec.after_piece state.old tags.now piece.now }
{
    let Ok(fault) = step(alloc, state, tags, piece) else {
        return Err(CheckError::NoMemory);
    };
    answer(fault)
}
