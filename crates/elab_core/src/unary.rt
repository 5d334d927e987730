// What stands in front of an operand (ISO C11 6.5.3, 6.5.4, 6.5.15, 6.5.16): it is read from the front, and applied from the last one
// back.
ghost use Rattle.std.specs.Prelude.{◌≡◌, [], ◌∷◌, OnOk};
ghost use Rattle.elab_core.specs.Expressions as spec;
ghost use Rattle.elab_core.specs.Waits as waits;
ghost use Rattle.elab_core.specs.Operators.{assign_form as assign_form_of, prefix_form as prefix_form_of};
ghost use Rattle.elab_core.specs.Rows as rows;
ghost use Rattle.elab_state.specs.Comes.{Comes};
ghost use Rattle.elab_state.specs.Tokens.{spelling as spelling_of};
ghost use Rattle.expr_rules.specs.declared.parts.Form.TheVariants as form;
ghost use Rattle.elab_state.specs.Seen.{context_of, told_of};
ghost use Rattle.tree_data.specs.Seen as seen;
ghost use Rattle.tree_data.specs.Seen.{tree_of, type_of};
ghost use Rattle.tree_data.specs.Trees.{Cast_of, Left_of, fronts, None_before};

use crate::casts::cast;
use crate::expressions::judged;
use crate::naming::type_name;
use crate::operators::{assign_form, is_size, prefix_form};
use crate::rows::row;
use crate::shapes::Typed;
use elab_state::{Around, Halt, Made, Where, spelling};
use expr_rules::Form;
use init_rules::Stack;
use std::alloc::Global;
use tree_data::{Choice, Expr, Prefix, TypeName};
use type_data::Judged;

// What waits for its operand.
#[derive(Drop)]
enum Waiting {
    // An operator.
    Operator(u32),
    // A cast: its opening parenthesis and its type.
    Cast(u32, Typed),
    // `?`, the test and the second operand.
    Choice(u32, Judged, Judged),
    // An operator of assignment, and the place.
    Left(u32, Judged),
}

fn apply(
    alloc: Global,
    around: &Around<'_>,
    made: &mut Made,
    waiting: Waiting,
    operand: Judged,
) -> Result<Judged, Halt>
    ensures { Comes (told_of around.now) (waits.applied (context_of around.now) waiting operand made.old) (λ j. j) result made.new }
{
    match waiting {
        Waiting::Operator(at) => prefix_row(alloc, around, made, at, operand),
        Waiting::Cast(at, typed) => cast(alloc, around, made, at, typed, operand),
        Waiting::Choice(at, test, middle) => {
            choice_row(alloc, around, made, at, test, middle, operand)
        }
        Waiting::Left(at, left) => assign_row(alloc, around, made, at, left, operand),
    }
}

fn prefix_row(
    alloc: Global,
    around: &Around<'_>,
    made: &mut Made,
    at: u32,
    operand: Judged,
) -> Result<Judged, Halt>
    ensures { Comes (told_of around.now) (rows.row (context_of around.now) at (prefix_form_of (spelling_of (context_of around.now).tokens at)) (operand ∷ []) made.old) (λ j. j) result made.new }
{
    let form = prefix_form(spelling(around.tokens, at));
    let parts = [operand];
    row(alloc, around, made, at, form, &parts)
}

fn choice_row(
    alloc: Global,
    around: &Around<'_>,
    made: &mut Made,
    at: u32,
    test: Judged,
    middle: Judged,
    last: Judged,
) -> Result<Judged, Halt>
    ensures { Comes (told_of around.now) (rows.row (context_of around.now) at form.Conditional (test ∷ middle ∷ last ∷ []) made.old) (λ j. j) result made.new }
{
    let parts = [test, middle, last];
    row(alloc, around, made, at, Form::Conditional, &parts)
}

fn assign_row(
    alloc: Global,
    around: &Around<'_>,
    made: &mut Made,
    at: u32,
    left: Judged,
    value: Judged,
) -> Result<Judged, Halt>
    ensures { Comes (told_of around.now) (rows.row (context_of around.now) at (assign_form_of (spelling_of (context_of around.now).tokens at)) (left ∷ value ∷ []) made.old) (λ j. j) result made.new }
{
    let form = assign_form(spelling(around.tokens, at));
    let parts = [left, value];
    row(alloc, around, made, at, form, &parts)
}

fn apply_all(
    alloc: Global,
    around: &Around<'_>,
    made: &mut Made,
    waiting: Stack<Waiting>,
    last: Judged,
) -> Result<Judged, Halt>
    ensures { Comes (told_of around.now) (waits.all_applied (context_of around.now) waiting last made.old) (λ j. j) result made.new }
{
    let mut left = waiting;
    let mut operand = last;
    'waiting: while let Some(next) = left.pop() {
        operand = match apply(alloc, around, made, next, operand) {
            Ok(done) => done,
            Err(halt) => return Err(halt),
        };
    }
    Ok(operand)
}

// An operand of `sizeof` isn't evaluated (6.5.3.4p2).
fn behind_prefix(around: &Around<'_>, at: u32, place: Where) -> Where
    ensures { result ≡ spec.behind_prefix (context_of around.now) at place }
{
    if is_size(spelling(around.tokens, at)) {
        return Where {
            counted: false,
            defining: false,
        };
    }
    place
}

fn operator_waits(
    around: &Around<'_>,
    place: &mut Where,
    waiting: &mut Stack<Waiting>,
    at: u32,
) -> Result<(), Halt>
    ensures { OnOk result (waits.awaited place.new waiting.new ≡ waits.awaited (spec.behind_prefix (context_of around.now) at place.old) (waits.operator at ∷ waiting.old)) }
{
    let Ok(()) = waiting.push(Waiting::Operator(at)) else {
        return Err(Halt::NoMemory);
    };
    *place = behind_prefix(around, at, *place);
    Ok(())
}

#[cycle(judging)]
fn cast_waits(
    alloc: Global,
    around: &Around<'_>,
    place: Where,
    made: &mut Made,
    waiting: &mut Stack<Waiting>,
    at: u32,
    name: &TypeName,
) -> Result<(), Halt>
    ensures { Comes (told_of around.now) (waits.await (context_of around.now) place (Cast_of at (type_of name.now) 0) waiting.old made.old) (λ _. (place, waiting.new)) result made.new }
{
    let typed = match type_name(alloc, around, place, made, name) {
        Ok(done) => done,
        Err(halt) => return Err(halt),
    };
    let Ok(()) = waiting.push(Waiting::Cast(at, typed)) else {
        return Err(Halt::NoMemory);
    };
    Ok(())
}

#[cycle(judging)]
fn prefix_waits(
    alloc: Global,
    around: &Around<'_>,
    place: &mut Where,
    made: &mut Made,
    waiting: &mut Stack<Waiting>,
    prefix: &Prefix,
) -> Result<(), Halt>
    ensures { Comes (told_of around.now) (waits.await (context_of around.now) place.old (seen.prefix_of prefix.now) waiting.old made.old) (λ _. (place.new, waiting.new)) result made.new }
{
    match prefix {
        Prefix::Operator(at) => {
            let Ok(()) = operator_waits(around, place, waiting, *at) else {
                return Err(Halt::NoMemory);
            };
            Ok(())
        }
        Prefix::Cast(at, name, _) => cast_waits(alloc, around, *place, made, waiting, *at, name),
    }
}

#[cycle(judging)]
fn prefixes_wait(
    alloc: Global,
    around: &Around<'_>,
    place: &mut Where,
    made: &mut Made,
    prefixes: &Vec<Prefix>,
) -> Result<Stack<Waiting>, Halt>
    ensures { Comes (told_of around.now) (waits.awaits (context_of around.now) place.old (fronts (seen.prefixes_of prefixes.now.items) None_before) [] made.old) (λ waiting. (place.new, waiting)) result made.new }
{
    let mut waiting = Stack::new(alloc);
    'prefixes: for next in prefixes {
        match prefix_waits(alloc, around, place, made, &mut waiting, next) {
            Ok(waiting) => (),
            Err(halt) => return Err(halt),
        }
    }
    Ok(waiting)
}

#[cycle(judging)]
fn choice_waits(
    alloc: Global,
    around: &Around<'_>,
    place: Where,
    made: &mut Made,
    waiting: &mut Stack<Waiting>,
    choice: &Choice,
) -> Result<(), Halt>
    ensures { Comes (told_of around.now) (waits.await (context_of around.now) place (seen.front_of choice.now) waiting.old made.old) (λ _. (place, waiting.new)) result made.new }
{
    let test = match judged(alloc, around, place, made, &choice.test) {
        Ok(done) => done,
        Err(halt) => return Err(halt),
    };
    let middle = match judged(alloc, around, place, made, &choice.middle) {
        Ok(done) => done,
        Err(halt) => {
            drop(test);
            return Err(halt);
        }
    };
    let Ok(()) = waiting.push(Waiting::Choice(choice.question, test, middle)) else {
        return Err(Halt::NoMemory);
    };
    Ok(())
}

#[cycle(judging)]
fn choices_wait(
    alloc: Global,
    around: &Around<'_>,
    place: Where,
    made: &mut Made,
    choices: &Vec<Choice>,
) -> Result<Stack<Waiting>, Halt>
    ensures { Comes (told_of around.now) (waits.awaits (context_of around.now) place (fronts (seen.choices_of choices.now.items) None_before) [] made.old) (λ waiting. (place, waiting)) result made.new }
{
    let mut waiting = Stack::new(alloc);
    'choices: for next in choices {
        match choice_waits(alloc, around, place, made, &mut waiting, next) {
            Ok(waiting) => (),
            Err(halt) => return Err(halt),
        }
    }
    Ok(waiting)
}

#[cycle(judging)]
fn place_waits(
    alloc: Global,
    around: &Around<'_>,
    place: Where,
    made: &mut Made,
    waiting: &mut Stack<Waiting>,
    left: &Expr,
    at: u32,
) -> Result<(), Halt>
    ensures { Comes (told_of around.now) (waits.await (context_of around.now) place (Left_of (tree_of left.now) at) waiting.old made.old) (λ _. (place, waiting.new)) result made.new }
{
    let left = match judged(alloc, around, place, made, left) {
        Ok(done) => done,
        Err(halt) => return Err(halt),
    };
    let Ok(()) = waiting.push(Waiting::Left(at, left)) else {
        return Err(Halt::NoMemory);
    };
    Ok(())
}

#[cycle(judging)]
fn places_wait(
    alloc: Global,
    around: &Around<'_>,
    place: Where,
    made: &mut Made,
    places: &Vec<(Expr, u32)>,
) -> Result<Stack<Waiting>, Halt>
    ensures { Comes (told_of around.now) (waits.awaits (context_of around.now) place (fronts (seen.lefts_of places.now.items) None_before) [] made.old) (λ waiting. (place, waiting)) result made.new }
{
    let mut waiting = Stack::new(alloc);
    'places: for pair in places {
        match place_waits(alloc, around, place, made, &mut waiting, &pair.0, pair.1) {
            Ok(waiting) => (),
            Err(halt) => return Err(halt),
        }
    }
    Ok(waiting)
}

/// What is of unary operators and casts, `? :` or assignment: read from the front, and applied from the last one back.
#[cycle(judging)]
pub(crate) fn applied(
    alloc: Global,
    around: &Around<'_>,
    place: Where,
    made: &mut Made,
    expr: &Expr,
) -> Result<Judged, Halt>
    ensures { Comes (told_of around.now) (spec.judge (context_of around.now) place (tree_of expr.now) made.old) (λ j. j) result made.new }
{
    match expr {
        Expr::Unary(prefixes, operand) => {
            let mut behind = place;
            let waiting = match prefixes_wait(alloc, around, &mut behind, made, prefixes) {
                Ok(done) => done,
                Err(halt) => return Err(halt),
            };
            let last = match judged(alloc, around, behind, made, operand) {
                Ok(done) => done,
                Err(halt) => return Err(halt),
            };
            apply_all(alloc, around, made, waiting, last)
        }
        Expr::Conditional(choices, last) => {
            let waiting = match choices_wait(alloc, around, place, made, choices) {
                Ok(done) => done,
                Err(halt) => return Err(halt),
            };
            let last = match judged(alloc, around, place, made, last) {
                Ok(done) => done,
                Err(halt) => return Err(halt),
            };
            apply_all(alloc, around, made, waiting, last)
        }
        Expr::Assign(places, value) => {
            let waiting = match places_wait(alloc, around, place, made, places) {
                Ok(done) => done,
                Err(halt) => return Err(halt),
            };
            let last = match judged(alloc, around, place, made, value) {
                Ok(done) => done,
                Err(halt) => return Err(halt),
            };
            apply_all(alloc, around, made, waiting, last)
        }
        // Nothing else is handed on to it.
        _ => Err(Halt::NoMemory),
    }
}
