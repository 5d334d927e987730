// Casts, and sizes and alignments of types (ISO C11 6.5.3.4, 6.5.4).
ghost use Rattle.std.specs.Prelude.{◌≡◌, OnOk};
ghost use Rattle.elab_core.specs.Casts as spec;
ghost use Rattle.elab_state.specs.Comes.{Comes};
ghost use Rattle.elab_state.specs.Seen.{context_of, told_of};
ghost use Rattle.expr_rules.specs.Kinds;

use crate::rows::row;
use crate::shapes::Typed;
use elab_state::{Around, Halt, Made, fault_at};
use expr_rules::Form;
use std::alloc::{AllocError, Global};
use type_data::{CType, Constancy, Judged};
use type_rel::{integer_type, is_arithmetic};

fn is_integer_constant(constant: Constancy) -> bool
    ensures { result ≡ spec.is_integer_constant constant }
{
    match constant {
        Constancy::Int(_) => true,
        Constancy::No => false,
        Constancy::Arith => false,
        Constancy::Addr => false,
        Constancy::Null => false,
    }
}

fn is_integer(ty: &CType) -> bool
    ensures { result ≡ Kinds.is_integer ty.now }
{
    integer_type(ty).is_some()
}

fn is_floating(ty: &CType) -> bool
    ensures { result ≡ Kinds.is_floating ty.now }
{
    is_arithmetic(ty) && !is_integer(ty)
}

fn is_unevaluated(typed: &Typed, operand: &Judged) -> bool
    ensures { result ≡ spec.is_unevaluated typed.now operand.now }
{
    is_integer(&typed.ty) && (is_floating(&operand.ty) && is_integer_constant(operand.constant))
}

fn warn(alloc: Global, made: &mut Made, at: u32, holds: bool) -> Result<(), AllocError>
    ensures { OnOk result (made.new ≡ spec.with_warning at holds made.old) }
{
    if holds {
        made.faults.push(fault_at(alloc, 532, at))?;
    }
    Ok(())
}

/// A cast to a type, whose parenthesis is the token `at`. That a floating constant isn't evaluated is noted (532).
pub fn cast(
    alloc: Global,
    around: &Around<'_>,
    made: &mut Made,
    at: u32,
    typed: Typed,
    operand: Judged,
) -> Result<Judged, Halt>
    ensures { Comes (told_of around.now) (spec.cast (context_of around.now) at typed operand made.old) (λ j. j) result made.new }
{
    let unevaluated = is_unevaluated(&typed, &operand);
    let parts = [operand];
    let judged = match row(
        alloc,
        around,
        made,
        at,
        Form::Cast(typed.ty, typed.qual),
        &parts,
    ) {
        Ok(judged) => judged,
        Err(halt) => return Err(halt),
    };
    match warn(alloc, made, at, unevaluated) {
        Ok(()) => Ok(judged),
        Err(_) => {
            drop(judged);
            Err(Halt::NoMemory)
        }
    }
}

fn size_form(alignment: bool, typed: Typed) -> Form
    ensures { result ≡ spec.size_form alignment typed }
{
    if alignment {
        return Form::AlignOf(typed.ty);
    }
    Form::SizeOf(Some(typed.ty))
}

/// The size of a type, or its alignment; the keyword is the token `at`.
pub fn size(
    alloc: Global,
    around: &Around<'_>,
    made: &mut Made,
    at: u32,
    alignment: bool,
    typed: Typed,
) -> Result<Judged, Halt>
    ensures { Comes (told_of around.now) (spec.size (context_of around.now) at alignment typed made.old) (λ j. j) result made.new }
{
    let form = size_form(alignment, typed);
    row(alloc, around, made, at, form, &[])
}
