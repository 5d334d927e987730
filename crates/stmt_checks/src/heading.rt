// The head of an item (ISO C11 6.7, 6.7.10, 6.9).
ghost use Rattle.std.specs.Prelude.{◌≡◌, [], IfOk};
ghost use Rattle.asking.specs.LookUps.{run_by};
ghost use Rattle.elab_state.specs.Doings.{fault};
ghost use Rattle.elab_state.specs.Seen.{context_of, told_of};
ghost use Rattle.elab_state.specs.Tokens.{bare, bare_tokens};
ghost use Rattle.elab_state.specs.Wants.{answered as answers_of};
ghost use Rattle.item_readings.specs.Readings.{IsReader, Reader, ReadsHead};
ghost use Rattle.item_readings.specs.Seen.{head_seen};
ghost use Rattle.meaning_lists.specs.Found.{head_of};
ghost use Rattle.stmt_checks.specs.Heads as spec;
ghost use Rattle.stmt_checks.specs.Meanings as means;
ghost use Rattle.stmt_checks.specs.TypeNames.{type_names as names_of};
ghost use Rattle.tree_data.specs.Heads.{heading_of};

use crate::halted::{asked_by, is_none};
use crate::meaning::{none, share_item, taken};
use crate::type_names::type_names;
use c_parser::NameSet;
use elab_core::{Declaration, declare_in, head_symbols};
use elab_state::{Around, Elab, Known, Made, fault_at, note_answers, unanswered};
use item_readings::{HeadReading, read_head};
use meaning_lists::{Found, head_meaning};
use scope_tables::{Binding, HeadMeaning, ScopeKind, Scopes, item_file};
use shared_list::Listing;
use std::alloc::{AllocError, Global};
use std::mem;
use tok_data::OutToken;
use tree_data::Head;
use type_data::{ItemName, Tags};

fn or_none(alloc: Global, params: Option<Listing<Binding>>) -> Listing<Binding>
    ensures { result ≡ spec.or_none params }
{
    match params {
        Some(params) => params,
        None => none(alloc),
    }
}

fn found(
    alloc: Global,
    around: &Around<'_>,
    made: &mut Made,
    declaration: Declaration,
) -> Result<Found, AllocError>
    ensures { IfOk result (λ f. f ≡ spec.found (context_of around.now) (declaration, made.old)) }
{
    let symbols = head_symbols(alloc, around, made)?;
    let params = mem::replace(&mut made.params, None);
    Ok(Found {
        declared: taken(alloc, &mut made.declared),
        params: or_none(alloc, params),
        entities: taken(alloc, &mut made.entities),
        occs: taken(alloc, &mut made.occs),
        faults: taken(alloc, &mut made.faults),
        used: taken(alloc, &mut made.used),
        stated: declaration.stated.into_listing(),
        symbols,
        inline: declaration.inline,
    })
}

fn meaning(alloc: Global, around: &Around<'_>, found: &mut Found) -> Result<HeadMeaning, AllocError>
    ensures { IfOk result (λ m. m ≡ head_of around.now.item.now found.old) }
{
    let item = share_item(around.item)?;
    match head_meaning(alloc, item, found) {
        Ok(meaning) => Ok(meaning),
        Err(error) => Err(error),
    }
}

fn judge(
    alloc: Global,
    around: &Around<'_>,
    made: &mut Made,
    head: &Head,
) -> Result<Elab<HeadMeaning>, AllocError>
    ensures { IfOk result (λ elab. means.Means (run_by (answers_of (told_of around.now)) (spec.judged (context_of around.now) (heading_of head.now) made.old)) elab) }
{
    let declaration = match declare_in(alloc, around, false, made, head) {
        Ok(declaration) => declaration,
        Err(halt) => {
            let asked = asked_by(alloc, halt)?;
            return Ok(Elab::Need(asked));
        }
    };
    let mut found = found(alloc, around, made, declaration)?;
    let Ok(meaning) = meaning(alloc, around, &mut found) else {
        drop(found);
        return Err(AllocError);
    };
    drop(found);
    Ok(Elab::Done(meaning))
}

fn only(alloc: Global, rule: u16, at: u32) -> Result<Found, AllocError>
    ensures { IfOk result (λ f. f ≡ spec.only (fault rule at [] [])) }
{
    let mut faults = Vec::new(alloc);
    faults.push(fault_at(alloc, rule, at))?;
    Ok(Found {
        declared: none(alloc),
        params: none(alloc),
        entities: none(alloc),
        occs: none(alloc),
        faults: Listing::from_vec(faults),
        used: none(alloc),
        stated: none(alloc),
        symbols: none(alloc),
        inline: false,
    })
}

fn refuse(
    alloc: Global,
    around: &Around<'_>,
    rule: u16,
    at: u32,
) -> Result<Elab<HeadMeaning>, AllocError>
    ensures { IfOk result (λ elab. means.Means (means.ending (spec.refusal (context_of around.now) rule at)) elab) }
{
    let mut found = only(alloc, rule, at)?;
    let Ok(meaning) = meaning(alloc, around, &mut found) else {
        drop(found);
        return Err(AllocError);
    };
    drop(found);
    Ok(Elab::Done(meaning))
}

fn by_reading(
    alloc: Global,
    around: &Around<'_>,
    made: &mut Made,
    reading: &HeadReading,
) -> Result<Elab<HeadMeaning>, AllocError>
    ensures { IfOk result (λ elab. means.Means (run_by (answers_of (told_of around.now)) (spec.by_reading (context_of around.now) (head_seen reading.now) made.old)) elab) }
{
    match reading {
        HeadReading::Tree(head) => judge(alloc, around, made, head),
        HeadReading::Refused(refusal) => refuse(alloc, around, refusal.rule, refusal.at),
    }
}

fn read(alloc: Global, made: &Made, tokens: &[OutToken]) -> Result<HeadReading, AllocError>
    ensures { IfOk result (λ x. ReadsHead (names_of made.now.names (bare_tokens tokens.now)) (bare_tokens tokens.now) (head_seen x)) }
{
    let names = type_names(alloc, &made.names, tokens)?;
    let names = NameSet::from_vec(names);
    match read_head(alloc, tokens, &names) {
        Ok(reading) => Ok(reading),
        Err(error) => Err(error),
    }
}

// The tokens are read and judged.
fn read_and_judge(
    alloc: Global,
    around: &Around<'_>,
    made: &mut Made,
) -> Result<Elab<HeadMeaning>, AllocError>
    ensures { IfOk result (λ elab. (r : Reader) → IsReader r → means.Means (run_by (answers_of (told_of around.now)) (spec.head_in r (context_of around.now) made.old)) elab) }
{
    let reading = read(alloc, made, around.tokens)?;
    match by_reading(alloc, around, made, &reading) {
        Ok(elab) => {
            drop(reading);
            Ok(elab)
        }
        Err(error) => {
            drop(reading);
            Err(error)
        }
    }
}

#[tactic(auto, unfolding(crate::specs::Heads::is_semicolon))]
fn is_semicolon(token: &OutToken) -> bool
    ensures { result ≡ spec.is_semicolon (bare token.now) }
{
    token.spelling.as_str() == ";"
}

// A `;` alone.
fn is_empty(tokens: &[OutToken]) -> bool
    ensures { result ≡ spec.is_empty (bare_tokens tokens.now) }
{
    match tokens {
        [token] => is_semicolon(token),
        _ => false,
    }
}

// The identifiers have these answers; all else is asked of what is round the head.
fn answered(
    alloc: Global,
    around: &Around<'_>,
    names: &Known,
) -> Result<Elab<HeadMeaning>, AllocError>
    ensures { IfOk result (λ elab. spec.MeansBehind (answers_of names.now) (answers_of (told_of around.now)) (context_of around.now) elab) }
{
    if is_empty(around.tokens) {
        match refuse(alloc, around, 302, 0) {
            Ok(elab) => return Ok(elab),
            Err(error) => return Err(error),
        }
    }
    let mut made = Made::begin(alloc, ScopeKind::File, Tags::new(alloc))?;
    let Ok(()) = note_answers(alloc, names, &mut made, around.tokens) else {
        drop(made);
        return Err(AllocError);
    };
    match read_and_judge(alloc, around, &mut made) {
        Ok(elab) => {
            drop(made);
            Ok(elab)
        }
        Err(error) => {
            drop(made);
            Err(error)
        }
    }
}

fn elab_around(alloc: Global, around: &Around<'_>) -> Result<Elab<HeadMeaning>, AllocError>
    ensures { IfOk result (λ elab. spec.MeansHead (answers_of (told_of around.now)) (context_of around.now) elab) }
{
    let asked = unanswered(alloc, around.known, around.tokens)?;
    if is_none(&asked) {
        return answered(alloc, around, around.known);
    }
    Ok(Elab::Need(asked))
}

/// What the head of an item means (ISO C11 6.7, 6.7.10, 6.9), of which `tokens` are all, up to and with its `;` or the `{` of its body; `known` answers
/// for what stands in front of the item.
///
/// First all of its identifiers are asked for that have no answer, in one list, in the order of first tokens: behind `struct`, `union`
/// and `enum` a tag, else an ordinary name. Then what is known of one tag of an earlier item after another is, in the order in which a
/// row first tests its members, size or completeness. `Need` has what is asked in turn and isn't among `known`.
///
/// A `;` alone has the fault 302 and nothing else, a head that no tree spells 301, one with a bracket of the 257th level 303 there. It fails for want of memory
/// alone.
pub fn elab_head(
    alloc: Global,
    item: &ItemName,
    tokens: &[OutToken],
    known: &Known,
) -> Result<Elab<HeadMeaning>, AllocError>
    ensures { IfOk result (λ elab. spec.MeansHead (answers_of known.now) (means.context item.now (bare_tokens tokens.now) 0) elab) }
{
    let file = item_file(alloc, item)?;
    let outer = Scopes::new(alloc);
    let around = Around {
        item,
        file: &file,
        tokens,
        base: 0,
        outer: &outer,
        known,
    };
    match elab_around(alloc, &around) {
        Ok(elab) => Ok(elab),
        Err(error) => Err(error),
    }
}

/// What the head of an item means, as far as `names` answer for its identifiers, where one has no answer as if nothing were declared, and `tags` for all else that it
/// asks: its members, size and completeness of tags.
pub(crate) fn firm_head(
    alloc: Global,
    item: &ItemName,
    tokens: &[OutToken],
    names: &Known,
    tags: &Known,
) -> Result<Elab<HeadMeaning>, AllocError>
    ensures { IfOk result (λ elab. spec.MeansBehind (answers_of names.now) (answers_of tags.now) (means.context item.now (bare_tokens tokens.now) 0) elab) }
{
    let file = item_file(alloc, item)?;
    let outer = Scopes::new(alloc);
    let around = Around {
        item,
        file: &file,
        tokens,
        base: 0,
        outer: &outer,
        known: tags,
    };
    match answered(alloc, &around, names) {
        Ok(elab) => Ok(elab),
        Err(error) => Err(error),
    }
}
