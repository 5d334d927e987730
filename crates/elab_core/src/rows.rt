// A row of the operators (ISO C11 6.5).
ghost use Rattle.std.specs.Prelude.{◌≡◌, ◌≢◌, Err, IfOk, OnOk};
ghost use Rattle.elab_core.specs.Rows as spec;
ghost use Rattle.elab_state.specs.Comes.{Comes};
ghost use Rattle.elab_state.specs.Seen.{context_of, told_of};
ghost use Rattle.expr_rules.specs.Operands;

use crate::tests::look_for;
use elab_state::{Around, Halt, Made};
use expr_rules::{Form, Operator, judge};
use std::alloc::{AllocError, Global};
use type_data::{CType, CheckError, Constancy, Judged, Node};
use type_rel::value;

/// What has a fault.
pub fn bad() -> Judged
    ensures { result ≡ Operands.bad }
{
    value(CType::of(Node::Bad), Constancy::No)
}

fn judged_now(
    alloc: Global,
    made: &mut Made,
    operator: &Operator,
    parts: &[Judged],
) -> Result<Judged, AllocError>
    ensures { IfOk result (λ j. (j, made.new) ≡ spec.judged_by operator.now parts.now made.old) }
{
    match judge(alloc, operator, parts, &made.tags) {
        Ok(judged) => Ok(judged),
        Err(CheckError::Broken(fault)) => {
            made.faults.push(fault)?;
            Ok(bad())
        }
        Err(CheckError::NoMemory) => Err(AllocError),
    }
}

/// A row of a construct that is told with its token.
pub(crate) fn row_of(
    alloc: Global,
    around: &Around<'_>,
    made: &mut Made,
    operator: &Operator,
    parts: &[Judged],
) -> Result<Judged, Halt>
    ensures { Comes (told_of around.now) (spec.row_of (context_of around.now) operator.now parts.now made.old) (λ j. j) result made.new }
{
    match look_for(alloc, around, made, &operator.form, parts) {
        Ok(()) => (),
        Err(halt) => return Err(halt),
    }
    match judged_now(alloc, made, operator, parts) {
        Ok(judged) => Ok(judged),
        Err(_) => Err(Halt::NoMemory),
    }
}

/// What a construct makes of its judged parts, which are in source order; the token `at` is that on which its fault stands. The tags that
/// its row tests are asked for first. A fault is noted, and leaves what has it without a type.
pub fn row(
    alloc: Global,
    around: &Around<'_>,
    made: &mut Made,
    at: u32,
    form: Form,
    parts: &[Judged],
) -> Result<Judged, Halt>
    ensures { Comes (told_of around.now) (spec.row (context_of around.now) at form parts.now made.old) (λ j. j) result made.new }
{
    let operator = Operator { at, form };
    let done = row_of(alloc, around, made, &operator, parts);
    drop(operator);
    done
}
