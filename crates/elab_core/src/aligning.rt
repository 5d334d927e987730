// Alignment specifiers (ISO C11 6.7.5).
ghost use Rattle.std.specs.Prelude.{◌≡◌, IfOk};
ghost use Rattle.elab_core.specs.Aligning as spec;
ghost use Rattle.elab_core.specs.Constants;
ghost use Rattle.head_rules.specs.Alignments as alignments;
ghost use Rattle.elab_state.specs.Comes.{Comes};
ghost use Rattle.elab_state.specs.Seen.{context_of, told_of};

use crate::constants::needed;
use crate::notes::note;
use crate::shapes::Typed;
use elab_state::{Around, Halt, Made, look_at};
use head_rules::Alignment;
use std::alloc::{AllocError, Global};
use type_data::{Fault, Judged, Value};

fn tell(made: &mut Made, told: (Alignment, Option<Fault>)) -> Result<Alignment, AllocError>
    ensures { IfOk result (λ a. (a, made.new) ≡ spec.told told made.old) }
{
    let (align, fault) = told;
    note(made, fault)?;
    Ok(align)
}

fn align_by(
    alloc: Global,
    made: &mut Made,
    keyword: u32,
    value: Option<Value>,
    align: Alignment,
) -> Result<Alignment, AllocError>
    ensures { IfOk result (λ a. (a, made.new) ≡ spec.aligned_by keyword (Constants.as_needed value) align made.old) }
{
    match value {
        Some(value) => tell(made, align.with_expression(alloc, keyword, Some(value))),
        None => tell(made, align.with_expression(alloc, keyword, None)),
    }
}

/// With `_Alignas ( constant-expression )`, whose keyword is the token `keyword` and whose expression begins with the token `begins`. Its
/// fault is noted: 530 and 531 where that is no integer constant expression, 417 where it is no alignment.
pub(crate) fn align(
    alloc: Global,
    made: &mut Made,
    keyword: u32,
    begins: u32,
    size: &Judged,
    align: Alignment,
) -> Result<Alignment, AllocError>
    ensures { IfOk result (λ a. (a, made.new) ≡ spec.aligned keyword begins size.now align made.old) }
{
    let value = needed(alloc, made, begins, size)?;
    align_by(alloc, made, keyword, value, align)
}

fn align_known(
    alloc: Global,
    made: &mut Made,
    keyword: u32,
    typed: &Typed,
    align: Alignment,
) -> Result<Alignment, AllocError>
    ensures { IfOk result (λ a. (a, made.new) ≡ spec.told (alignments.by_type keyword made.old.tags typed.now.ty align) made.old) }
{
    let told = align.with_type(alloc, keyword, &made.tags, &typed.ty);
    tell(made, told)
}

/// With `_Alignas ( type-name )`, whose keyword is the token `keyword`. Its fault is noted: 417 where the type has no alignment.
pub(crate) fn align_as(
    alloc: Global,
    around: &Around<'_>,
    made: &mut Made,
    keyword: u32,
    typed: &Typed,
    align: Alignment,
) -> Result<Alignment, Halt>
    ensures { Comes (told_of around.now) (spec.aligned_as (context_of around.now) keyword typed.now align made.old) (λ a. a) result made.new }
{
    match look_at(alloc, around, made, &typed.ty) {
        Ok(()) => (),
        Err(halt) => return Err(halt),
    }
    match align_known(alloc, made, keyword, typed, align) {
        Ok(align) => Ok(align),
        Err(_) => Err(Halt::NoMemory),
    }
}
