// The body of a function (ISO C11 6.8, 6.9.1).
ghost use Rattle.std.specs.Prelude.{◌≡◌, IfOk, OnOk};
ghost use Rattle.asking.specs.LookUps.{run_by};
ghost use Rattle.elab_state.specs.Seen.{context_of, told_of};
ghost use Rattle.elab_state.specs.Tokens.{bare_tokens};
ghost use Rattle.elab_state.specs.Wants.{answered as answers_of};
ghost use Rattle.item_readings.specs.Readings.{IsReader, Reader, ReadsBody};
ghost use Rattle.item_readings.specs.Seen.{body_seen};
ghost use Rattle.stmt_acts.specs.Shown.{acts_of as acts_of_code};
ghost use Rattle.stmt_checks.specs.Begun.{nothing as empty};
ghost use Rattle.stmt_checks.specs.Meanings as spec;
ghost use Rattle.stmt_checks.specs.Moves.{Moves};
ghost use Rattle.stmt_checks.specs.TypeNames.{type_names as names_of};
ghost use Rattle.tree_data.specs.Stated.{stmt_of};

use crate::acting::go;
use crate::begun::{Function, nothing, open};
use crate::halted::{asked_by, is_none};
use crate::meaning::{meaning, refusal};
use crate::standing::Standing;
use crate::type_names::type_names;
use c_parser::NameSet;
use elab_state::{Around, Elab, Halt, Known, note_answers, unanswered};
use item_readings::{BodyReading, read_body};
use scope_tables::{BodyMeaning, HeadMeaning, Scopes, item_file};
use std::alloc::{AllocError, Global};
use stmt_acts::{Act, acts_of};
use tok_data::OutToken;
use tree_data::Stmt;

// These steps, in the function of this head.
fn take_steps(
    alloc: Global,
    around: &Around<'_>,
    head: &HeadMeaning,
    standing: &mut Standing,
    acts: &[Act<'_>],
) -> Result<(), Halt>
    ensures { Moves (told_of around.now) (spec.taken (context_of around.now) head.now (acts_of_code acts.now) standing.old) result standing.new }
{
    let Ok(function) = Function::of(alloc, around, head, acts) else {
        return Err(Halt::NoMemory);
    };
    match go(alloc, around, &function, standing, acts) {
        Ok(()) => {
            drop(function);
            Ok(())
        }
        Err(stop) => {
            drop(function);
            Err(stop)
        }
    }
}

// Those of a body that was read.
fn check(
    alloc: Global,
    around: &Around<'_>,
    head: &HeadMeaning,
    standing: &mut Standing,
    body: &Stmt,
) -> Result<(), Halt>
    ensures { Moves (told_of around.now) (spec.checked (context_of around.now) head.now (stmt_of body.now) standing.old) result standing.new }
{
    let Ok(acts) = acts_of(alloc, body) else {
        return Err(Halt::NoMemory);
    };
    match take_steps(alloc, around, head, standing, acts.as_slice()) {
        Ok(()) => Ok(()),
        Err(stop) => Err(stop),
    }
}

fn judge(
    alloc: Global,
    around: &Around<'_>,
    head: &HeadMeaning,
    standing: &mut Standing,
    body: &Stmt,
) -> Result<Elab<BodyMeaning>, AllocError>
    ensures { IfOk result (λ elab. spec.Means (run_by (answers_of (told_of around.now)) (spec.judged (context_of around.now) head.now (stmt_of body.now) standing.old)) elab) }
{
    match check(alloc, around, head, standing, body) {
        Ok(()) => (),
        Err(halt) => {
            let asked = asked_by(alloc, halt)?;
            return Ok(Elab::Need(asked));
        }
    }
    let meaning = meaning(alloc, around, &mut standing.made)?;
    Ok(Elab::Done(meaning))
}

fn refuse(
    alloc: Global,
    around: &Around<'_>,
    rule: u16,
    at: u32,
) -> Result<Elab<BodyMeaning>, AllocError>
    ensures { IfOk result (λ elab. spec.Means (spec.ending (spec.refusal (context_of around.now) rule at)) elab) }
{
    let meaning = refusal(alloc, around, rule, at)?;
    Ok(Elab::Done(meaning))
}

fn by_reading(
    alloc: Global,
    around: &Around<'_>,
    head: &HeadMeaning,
    standing: &mut Standing,
    reading: &BodyReading,
) -> Result<Elab<BodyMeaning>, AllocError>
    ensures { IfOk result (λ elab. spec.Means (run_by (answers_of (told_of around.now)) (spec.by_reading (context_of around.now) head.now (body_seen reading.now) standing.old)) elab) }
{
    match reading {
        BodyReading::Tree(body) => judge(alloc, around, head, standing, body),
        BodyReading::Refused(refusal) => refuse(alloc, around, refusal.rule, refusal.at),
    }
}

// What the identifiers were answered, and what the head declares, is visible.
fn begin(
    alloc: Global,
    around: &Around<'_>,
    names: &Known,
    head: &HeadMeaning,
    standing: &mut Standing,
) -> Result<(), AllocError>
    requires { standing.old ≡ empty }
    ensures { OnOk result (standing.new ≡ spec.standing (context_of around.now) head.now (spec.answers_in (answers_of names.now) (context_of around.now))) }
{
    note_answers(alloc, names, &mut standing.made, around.tokens)?;
    open(alloc, around, head, standing)
}

fn read(alloc: Global, standing: &Standing, tokens: &[OutToken]) -> Result<BodyReading, AllocError>
    ensures { IfOk result (λ x. ReadsBody (names_of standing.now.made.names (bare_tokens tokens.now)) (bare_tokens tokens.now) (body_seen x)) }
{
    let names = type_names(alloc, &standing.made.names, tokens)?;
    let names = NameSet::from_vec(names);
    match read_body(alloc, tokens, &names) {
        Ok(reading) => Ok(reading),
        Err(error) => Err(error),
    }
}

// The tokens are read and judged.
fn read_and_judge(
    alloc: Global,
    around: &Around<'_>,
    head: &HeadMeaning,
    standing: &mut Standing,
) -> Result<Elab<BodyMeaning>, AllocError>
    ensures { IfOk result (λ elab. (r : Reader) → IsReader r → spec.Means (run_by (answers_of (told_of around.now)) (spec.body_in r (context_of around.now) head.now standing.old)) elab) }
{
    let reading = read(alloc, standing, around.tokens)?;
    match by_reading(alloc, around, head, standing, &reading) {
        Ok(elab) => {
            drop(reading);
            Ok(elab)
        }
        Err(error) => {
            drop(reading);
            Err(error)
        }
    }
}

// The identifiers have these answers; all else is asked of what is round the body.
fn answered(
    alloc: Global,
    around: &Around<'_>,
    names: &Known,
    head: &HeadMeaning,
) -> Result<Elab<BodyMeaning>, AllocError>
    ensures { IfOk result (λ elab. spec.MeansBehind (answers_of names.now) (answers_of (told_of around.now)) (context_of around.now) head.now elab) }
{
    let mut standing = nothing(alloc)?;
    let Ok(()) = begin(alloc, around, names, head, &mut standing) else {
        drop(standing);
        return Err(AllocError);
    };
    match read_and_judge(alloc, around, head, &mut standing) {
        Ok(elab) => {
            drop(standing);
            Ok(elab)
        }
        Err(error) => {
            drop(standing);
            Err(error)
        }
    }
}

fn check_around(
    alloc: Global,
    around: &Around<'_>,
    head: &HeadMeaning,
) -> Result<Elab<BodyMeaning>, AllocError>
    ensures { IfOk result (λ elab. spec.MeansBody (answers_of (told_of around.now)) (context_of around.now) head.now elab) }
{
    let asked = unanswered(alloc, around.known, around.tokens)?;
    if is_none(&asked) {
        return answered(alloc, around, around.known, head);
    }
    Ok(Elab::Need(asked))
}

/// What the body of a function means (ISO C11 6.8, 6.9.1), of which `tokens` are all, from its `{` to its `}`, and the first is the token `base` of
/// the item that `head` is of; `known` answers for what stands in front of the item.
///
/// First all of its identifiers are asked for that have no answer, in one list, in the order of first tokens: behind `struct`, `union`
/// and `enum` a tag, else an ordinary name. Then what is known of one tag of an earlier item after another is, in the order in which a
/// row first tests its members, size or completeness. `Need` has what is asked in turn and isn't among `known`.
///
/// A body that no tree spells has the fault 301 and nothing else; one with a bracket of the 257th level has 303 there. It fails for want of memory
/// alone.
pub fn check_body(
    alloc: Global,
    tokens: &[OutToken],
    base: u32,
    head: &HeadMeaning,
    known: &Known,
) -> Result<Elab<BodyMeaning>, AllocError>
    ensures { IfOk result (λ elab. spec.MeansBody (answers_of known.now) (spec.context head.now.item (bare_tokens tokens.now) base) head.now elab) }
{
    let file = item_file(alloc, &head.item)?;
    let outer = Scopes::new(alloc);
    let around = Around {
        item: &head.item,
        file: &file,
        tokens,
        base,
        outer: &outer,
        known,
    };
    match check_around(alloc, &around, head) {
        Ok(elab) => Ok(elab),
        Err(error) => Err(error),
    }
}

/// What the body of a function means, as far as `names` answer for its identifiers, where one has no answer as if nothing were declared, and `tags` for all else that
/// it asks: the members, size and completeness of tags.
pub(crate) fn firm_body(
    alloc: Global,
    tokens: &[OutToken],
    base: u32,
    head: &HeadMeaning,
    names: &Known,
    tags: &Known,
) -> Result<Elab<BodyMeaning>, AllocError>
    ensures { IfOk result (λ elab. spec.MeansBehind (answers_of names.now) (answers_of tags.now) (spec.context head.now.item (bare_tokens tokens.now) base) head.now elab) }
{
    let file = item_file(alloc, &head.item)?;
    let outer = Scopes::new(alloc);
    let around = Around {
        item: &head.item,
        file: &file,
        tokens,
        base,
        outer: &outer,
        known: tags,
    };
    match answered(alloc, &around, names, head) {
        Ok(elab) => Ok(elab),
        Err(error) => Err(error),
    }
}
