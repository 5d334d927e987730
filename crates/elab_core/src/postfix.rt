// Operators behind an operand (ISO C11 6.5.2, 6.5.5 to 6.5.14, 6.5.17).
ghost use Rattle.std.specs.Prelude.{◌≡◌, [], ◌∷◌, ◌++◌, IfOk};
ghost use Rattle.elab_core.specs.Expressions as spec;
ghost use Rattle.elab_core.specs.Operators.{binary_form as binary_form_of};
ghost use Rattle.elab_core.specs.Rows as rows;
ghost use Rattle.elab_state.specs.Comes.{Comes};
ghost use Rattle.elab_state.specs.Tokens.{spelling as spelling_of};
ghost use Rattle.expr_rules.specs.declared.parts.Form.TheVariants as form;
ghost use Rattle.elab_state.specs.Doings.{follow, gives};
ghost use Rattle.elab_state.specs.Seen.{context_of, told_of};
ghost use Rattle.tree_data.specs.Seen as seen;
ghost use Rattle.tree_data.specs.Seen.{tree_of};
ghost use Rattle.tree_data.specs.Trees as trees;
ghost use Rattle.tree_data.specs.Trees.{behinds, None_behind};

use crate::accesses::access;
use crate::expressions::judged;
use crate::operators::{binary_form, step_form};
use crate::rows::row;
use elab_state::{Around, Grown, Halt, Made, Where, spelling};
use expr_rules::Form;
use std::alloc::{AllocError, Global};
use tree_data::{Expr, Suffix};
use type_data::Judged;

#[cycle(judging)]
fn operand(
    alloc: Global,
    around: &Around<'_>,
    place: Where,
    made: &mut Made,
    left: Judged,
    at: u32,
    right: &Expr,
) -> Result<Judged, Halt>
    ensures { Comes (told_of around.now) (spec.behind (context_of around.now) place (trees.Operand_of at (tree_of right.now)) left made.old) (λ j. j) result made.new }
{
    let right = match judged(alloc, around, place, made, right) {
        Ok(done) => done,
        Err(halt) => {
            drop(left);
            return Err(halt);
        }
    };
    operator_row(alloc, around, made, at, left, right)
}

fn operator_row(
    alloc: Global,
    around: &Around<'_>,
    made: &mut Made,
    at: u32,
    left: Judged,
    right: Judged,
) -> Result<Judged, Halt>
    ensures { Comes (told_of around.now) (rows.row (context_of around.now) at (binary_form_of (spelling_of (context_of around.now).tokens at)) (left ∷ right ∷ []) made.old) (λ j. j) result made.new }
{
    let form = binary_form(spelling(around.tokens, at));
    let parts = [left, right];
    row(alloc, around, made, at, form, &parts)
}

/// An operand with operators and operands behind it, which group to the left.
#[cycle(judging)]
pub(crate) fn operands(
    alloc: Global,
    around: &Around<'_>,
    place: Where,
    made: &mut Made,
    first: Judged,
    more: &Vec<(u32, Expr)>,
) -> Result<Judged, Halt>
    ensures { Comes (told_of around.now) (spec.go_on (context_of around.now) place (behinds (seen.operands_of more.now.items) None_behind) first made.old) (λ j. j) result made.new }
{
    let mut left = first;
    'operands: for pair in more {
        left = match operand(alloc, around, place, made, left, pair.0, &pair.1) {
            Ok(done) => done,
            Err(halt) => return Err(halt),
        };
    }
    Ok(left)
}

fn two(alloc: Global, first: Judged, second: Judged) -> Result<Grown<Judged>, AllocError>
    ensures { IfOk result (λ parts. parts ≡ first ∷ second ∷ []) }
{
    let Ok(mut parts) = Grown::of(alloc, first) else {
        drop(second);
        return Err(AllocError);
    };
    parts.push(second)?;
    Ok(parts)
}

#[cycle(judging)]
fn first_argument(
    alloc: Global,
    around: &Around<'_>,
    place: Where,
    made: &mut Made,
    function: Judged,
    part: &Expr,
) -> Result<Grown<Judged>, Halt>
    ensures { Comes (told_of around.now) (follow (spec.judge (context_of around.now) place (tree_of part.now) made.old) (λ j. gives (function ∷ j ∷ []))) (λ parts. parts) result made.new }
{
    let part = match judged(alloc, around, place, made, part) {
        Ok(done) => done,
        Err(halt) => {
            drop(function);
            return Err(halt);
        }
    };
    let Ok(parts) = two(alloc, function, part) else {
        return Err(Halt::NoMemory);
    };
    Ok(parts)
}

fn call_row(
    alloc: Global,
    around: &Around<'_>,
    made: &mut Made,
    at: u32,
    parts: Grown<Judged>,
) -> Result<Judged, Halt>
    ensures { Comes (told_of around.now) (rows.row (context_of around.now) at form.Call parts made.old) (λ j. j) result made.new }
{
    row(alloc, around, made, at, Form::Call, parts.as_slice())
}

#[cycle(judging)]
fn argument(
    alloc: Global,
    around: &Around<'_>,
    place: Where,
    made: &mut Made,
    parts: &mut Grown<Judged>,
    part: &Expr,
) -> Result<(), Halt>
    ensures { Comes (told_of around.now) (follow (spec.judge (context_of around.now) place (tree_of part.now) made.old) (λ j. gives (parts.old ++ j ∷ []))) (λ _. parts.new) result made.new }
{
    let part = match judged(alloc, around, place, made, part) {
        Ok(done) => done,
        Err(halt) => return Err(halt),
    };
    let Ok(()) = parts.push(part) else {
        return Err(Halt::NoMemory);
    };
    Ok(())
}

#[cycle(judging)]
fn arguments(
    alloc: Global,
    around: &Around<'_>,
    place: Where,
    made: &mut Made,
    parts: &mut Grown<Judged>,
    more: &Vec<(u32, Expr)>,
) -> Result<(), Halt>
    ensures { Comes (told_of around.now) (spec.arguments (context_of around.now) place (behinds (seen.operands_of more.now.items) None_behind) parts.old made.old) (λ _. parts.new) result made.new }
{
    'arguments: for pair in more {
        match argument(alloc, around, place, made, parts, &pair.1) {
            Ok(()) => (),
            Err(halt) => return Err(halt),
        }
    }
    Ok(())
}

#[cycle(judging)]
fn index(
    alloc: Global,
    around: &Around<'_>,
    place: Where,
    made: &mut Made,
    at: u32,
    array: Judged,
    inner: &Expr,
) -> Result<Judged, Halt>
    ensures { Comes (told_of around.now) (spec.behind (context_of around.now) place (trees.Index_of at (tree_of inner.now) 0) array made.old) (λ j. j) result made.new }
{
    let inner = match judged(alloc, around, place, made, inner) {
        Ok(done) => done,
        Err(halt) => {
            drop(array);
            return Err(halt);
        }
    };
    index_row(alloc, around, made, at, array, inner)
}

fn index_row(
    alloc: Global,
    around: &Around<'_>,
    made: &mut Made,
    at: u32,
    array: Judged,
    inner: Judged,
) -> Result<Judged, Halt>
    ensures { Comes (told_of around.now) (rows.row (context_of around.now) at form.Index (array ∷ inner ∷ []) made.old) (λ j. j) result made.new }
{
    let parts = [array, inner];
    row(alloc, around, made, at, Form::Index, &parts)
}

fn step(
    alloc: Global,
    around: &Around<'_>,
    place: Where,
    made: &mut Made,
    at: u32,
    operand: Judged,
) -> Result<Judged, Halt>
    ensures { Comes (told_of around.now) (spec.behind (context_of around.now) place (trees.Step_of at) operand made.old) (λ j. j) result made.new }
{
    let form = step_form(spelling(around.tokens, at));
    let parts = [operand];
    row(alloc, around, made, at, form, &parts)
}

fn call(
    alloc: Global,
    around: &Around<'_>,
    place: Where,
    made: &mut Made,
    at: u32,
    function: Judged,
) -> Result<Judged, Halt>
    ensures { Comes (told_of around.now) (spec.behind (context_of around.now) place (trees.Call_of at 0) function made.old) (λ j. j) result made.new }
{
    let parts = [function];
    row(alloc, around, made, at, Form::Call, &parts)
}

#[cycle(judging)]
fn suffix(
    alloc: Global,
    around: &Around<'_>,
    place: Where,
    made: &mut Made,
    operand: Judged,
    suffix: &Suffix,
) -> Result<Judged, Halt>
    ensures { Comes (told_of around.now) (spec.behind (context_of around.now) place (seen.behind_of suffix.now) operand made.old) (λ j. j) result made.new }
{
    match suffix {
        Suffix::Index(at, inner, _) => index(alloc, around, place, made, *at, operand, inner),
        Suffix::Call(at, _) => call(alloc, around, place, made, *at, operand),
        Suffix::CallWith(at, first, more, _) => {
            let mut parts = match first_argument(alloc, around, place, made, operand, first) {
                Ok(done) => done,
                Err(halt) => return Err(halt),
            };
            match arguments(alloc, around, place, made, &mut parts, more) {
                Ok(()) => (),
                Err(halt) => return Err(halt),
            }
            call_row(alloc, around, made, *at, parts)
        }
        Suffix::Member(at, name) => access(alloc, around, made, *at, *name, operand),
        Suffix::Step(at) => step(alloc, around, place, made, *at, operand),
    }
}

/// An operand with postfix operators behind it, the first one applied first.
#[cycle(judging)]
pub(crate) fn suffixes(
    alloc: Global,
    around: &Around<'_>,
    place: Where,
    made: &mut Made,
    first: Judged,
    more: &Vec<Suffix>,
) -> Result<Judged, Halt>
    ensures { Comes (told_of around.now) (spec.go_on (context_of around.now) place (behinds (seen.suffixes_of more.now.items) None_behind) first made.old) (λ j. j) result made.new }
{
    let mut operand = first;
    'suffixes: for next in more {
        operand = match suffix(alloc, around, place, made, operand, next) {
            Ok(done) => done,
            Err(halt) => return Err(halt),
        };
    }
    Ok(operand)
}
