// The initializer of a compound literal (ISO C11 6.5.2.5, 6.7.9), piece by piece.
ghost use Rattle.std.specs.Prelude.{◌≡◌, IfOk, OnOk};
ghost use Rattle.elab_core.specs.Braced as spec;
ghost use Rattle.elab_state.specs.Doings.{with_fault};

use crate::shapes::{Filling, Typed};
use elab_state::Made;
use expr_rules::Form;
use init_rules::{InitPiece, InitState, Stack, completed, init_step};
use scope_tables::ScopeKind;
use std::alloc::{AllocError, Global};
use type_data::{CType, CheckError, Constancy, Fault, Judged, Node, Value};
use type_rel::{converted, is_bad};

pub(crate) fn is_file(kind: ScopeKind) -> bool
    ensures { result ≡ spec.is_file kind }
{
    match kind {
        ScopeKind::File => true,
        ScopeKind::Function => false,
        ScopeKind::Block => false,
        ScopeKind::Prototype => false,
    }
}

/// The initializer of a compound literal of this type in a scope of this kind, before its first piece.
pub fn empty(alloc: Global, kind: ScopeKind, typed: &Typed) -> Result<Filling, AllocError>
    ensures { IfOk result (λ f. f ≡ spec.empty kind typed.now) }
{
    let ty = typed.ty.share()?;
    let faulty = is_bad(&ty);
    Ok(Filling {
        state: InitState {
            ty,
            open_places: Stack::new(alloc),
            at: 0,
            constant: is_file(kind),
            designating: false,
            reached: 0,
        },
        faulty,
    })
}

/// Reads a piece, whose fault stands on the token `at` and is noted.
pub fn fill(
    alloc: Global,
    made: &mut Made,
    filling: &mut Filling,
    at: u32,
    piece: &InitPiece,
) -> Result<(), AllocError>
    ensures { OnOk result ((filling.new, made.new) ≡ spec.filled at piece.now filling.old made.old) }
{
    filling.state.at = at;
    match init_step(alloc, &mut filling.state, piece, &made.tags) {
        Ok(()) => Ok(()),
        Err(CheckError::Broken(fault)) => {
            made.faults.push(fault)?;
            filling.faulty = true;
            Ok(())
        }
        Err(CheckError::NoMemory) => Err(AllocError),
    }
}

fn doubt(filling: &mut Filling, bad: bool)
    ensures { filling.new ≡ spec.with_doubt bad filling.old }
{
    if bad {
        filling.faulty = true;
    }
}

fn item(text: bool, judged: Judged) -> InitPiece
    ensures { result ≡ spec.item text judged }
{
    if text {
        return InitPiece::Text(judged);
    }
    InitPiece::Item(judged)
}

/// Reads an expression whose first token is `at`; `text` says that it is a string literal.
pub fn express(
    alloc: Global,
    made: &mut Made,
    filling: &mut Filling,
    at: u32,
    text: bool,
    judged: Judged,
) -> Result<(), AllocError>
    ensures { OnOk result ((filling.new, made.new) ≡ spec.expressed at text judged filling.old made.old) }
{
    doubt(filling, is_bad(&judged.ty));
    let piece = item(text, judged);
    let Ok(()) = fill(alloc, made, filling, at, &piece) else {
        drop(piece);
        return Err(AllocError);
    };
    drop(piece);
    Ok(())
}

fn value_of(value: Value) -> Value
    ensures { result ≡ spec.value_of value }
{
    match value {
        Value::Known(_) => value,
        Value::Unknown => value,
        Value::Faulty(_) => Value::Faulty(531),
    }
}

fn index_of(constant: Constancy) -> Value
    ensures { result ≡ spec.index_of constant }
{
    match constant {
        Constancy::Int(value) => value_of(value),
        Constancy::No => Value::Faulty(530),
        Constancy::Arith => Value::Faulty(530),
        Constancy::Addr => Value::Faulty(530),
        Constancy::Null => Value::Faulty(530),
    }
}

// The value of a designator, or the rule that it breaks.
fn index_value(alloc: Global, judged: &Judged) -> Result<Value, AllocError>
    ensures { IfOk result (λ v. v ≡ spec.index_value judged.now) }
{
    if is_bad(&judged.ty) {
        return Ok(Value::Faulty(0));
    }
    let value = converted(alloc, judged)?;
    let index = index_of(value.constant);
    drop(value);
    Ok(index)
}

#[tactic(auto, unfolding(crate::specs::Braced::on_value))]
fn on_value(begins: u32, fault: Fault) -> Fault
    ensures { result ≡ spec.on_value begins fault }
{
    if fault.rule == 530 || fault.rule == 531 {
        return Fault {
            rule: fault.rule,
            at: begins,
            names: fault.names,
            types: fault.types,
        };
    }
    fault
}

fn tell(made: &mut Made, begins: u32, fault: Fault) -> Result<(), AllocError>
    ensures { OnOk result (made.new ≡ with_fault (spec.on_value begins fault) made.old) }
{
    let fault = on_value(begins, fault);
    made.faults.push(fault)?;
    Ok(())
}

// Reads a piece whose fault stands on the token `opening`, or on `begins` where it is one of a designator's value.
fn fill_by(
    alloc: Global,
    made: &mut Made,
    filling: &mut Filling,
    opening: u32,
    begins: u32,
    piece: &InitPiece,
) -> Result<(), AllocError>
    ensures { OnOk result ((filling.new, made.new) ≡ spec.filled_by opening begins piece.now filling.old made.old) }
{
    filling.state.at = opening;
    match init_step(alloc, &mut filling.state, piece, &made.tags) {
        Ok(()) => Ok(()),
        Err(CheckError::Broken(fault)) => {
            tell(made, begins, fault)?;
            filling.faulty = true;
            Ok(())
        }
        Err(CheckError::NoMemory) => Err(AllocError),
    }
}

/// Reads a designator in brackets, whose `[` is the token `opening` and whose expression begins with the token `begins`: 530 and 531 stand on
/// the expression, and where nothing is checked of its list nothing is told.
pub fn designate(
    alloc: Global,
    made: &mut Made,
    filling: &mut Filling,
    opening: u32,
    begins: u32,
    index: &Judged,
) -> Result<(), AllocError>
    ensures { OnOk result ((filling.new, made.new) ≡ spec.designated opening begins index.now filling.old made.old) }
{
    doubt(filling, is_bad(&index.ty));
    let value = index_value(alloc, index)?;
    let piece = InitPiece::Index(value);
    let done = fill_by(alloc, made, filling, opening, begins, &piece);
    drop(piece);
    done
}

fn whole_type(alloc: Global, filling: &Filling) -> Result<CType, AllocError>
    ensures { IfOk result (λ t. t ≡ spec.whole_type filling.now) }
{
    if filling.faulty {
        return Ok(CType::of(Node::Bad));
    }
    completed(alloc, &filling.state)
}

/// The construct that a compound literal of this type is, in a scope of this kind, behind the last piece of its initializer.
pub fn whole(
    alloc: Global,
    kind: ScopeKind,
    typed: &Typed,
    filling: &Filling,
) -> Result<Form, AllocError>
    ensures { IfOk result (λ f. f ≡ spec.whole kind typed.now filling.now) }
{
    let ty = whole_type(alloc, filling)?;
    Ok(Form::Compound(ty, typed.qual, kind))
}
