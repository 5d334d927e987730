// What an expression of an item means (ISO C11 6.5).
ghost use Rattle.std.specs.Prelude.{◌≡◌, IfOk, take, drop};
ghost use Rattle.asking.specs.LookUps.{Looked, run_by};
ghost use Rattle.tree_data.specs.Seen.{tree_of};
ghost use Rattle.elab_core.specs.declared.meaning.ExprMeaning.{ExprMeaning as ExprMeaning_of};
ghost use Rattle.elab_core.specs.Meanings as spec;
ghost use Rattle.elab_state.specs.Comes.{Stops};
ghost use Rattle.elab_state.specs.Seen.{context_of, told_of};
ghost use Rattle.elab_state.specs.Tokens.{bare_tokens};
ghost use Rattle.elab_state.specs.Wants.{answered, wants};

use crate::ends::{first_of, last_of};
use crate::expressions::judged;
use elab_state::{Around, Elab, Halt, Known, Made, Wanted, Where, unanswered};
use scope_tables::{Binding, Entity, Occ, ScopeKind, Scopes, item_file};
use shared_list::Listing;
use shared_text::Name;
use std::alloc::{AllocError, Global};
use tok_data::OutToken;
use tree_data::Expr;
use type_data::{Fault, ItemName, Judged, Space, Tags};

/// What an expression means.
#[derive(Drop)]
pub struct ExprMeaning {
    pub judged: Judged,
    /// What it declares in the scope round it.
    pub declared: Listing<Binding>,
    /// Each entity that it declares, in every scope, in the order of first tokens.
    pub entities: Listing<Entity>,
    /// In the order of their tokens, which are named by their numbers in the item.
    pub occs: Listing<Occ>,
    /// In the order in which they were found: that of a construct stands behind those of its parts.
    pub faults: Listing<Fault>,
    /// The names with internal linkage that it uses outside an operand of `sizeof` or `_Alignof`, as often as it does.
    pub used: Listing<Name>,
}

fn tokens_from(tokens: &[OutToken], at: u32) -> &[OutToken]
    ensures { result.now ≡ drop at tokens.now }
{
    let count = tokens.len();
    if (at as usize) < count {
        return tokens.split_at(at as usize).1;
    }
    tokens.split_at(count).1
}

fn tokens_until(tokens: &[OutToken], number: usize) -> &[OutToken]
    ensures { result.now ≡ take number tokens.now }
{
    if number < tokens.len() {
        return tokens.split_at(number).0;
    }
    tokens
}

// The tokens of an expression.
fn own_tokens<'a>(expr: &Expr, tokens: &'a [OutToken]) -> &'a [OutToken]
    ensures { result.now ≡ spec.own_tokens (tree_of expr.now) tokens.now }
{
    let first = first_of(expr);
    let end = last_of(expr) as usize + 1;
    tokens_until(
        tokens_from(tokens, first),
        end.saturating_sub(first as usize),
    )
}

fn meaning_of(judged: Judged, made: Made) -> ExprMeaning
    ensures { result ≡ spec.meaning_of (judged, made) }
{
    ExprMeaning {
        judged,
        declared: made.declared.into_listing(),
        entities: made.entities.into_listing(),
        occs: made.occs.into_listing(),
        faults: made.faults.into_listing(),
        used: made.used.into_listing(),
    }
}

fn or_file(kind: Option<ScopeKind>) -> ScopeKind
    ensures { result ≡ spec.or_file kind }
{
    match kind {
        Some(kind) => kind,
        None => ScopeKind::File,
    }
}

fn needs(alloc: Global, wanted: Wanted) -> Result<Elab<ExprMeaning>, AllocError>
    ensures { IfOk result (λ elab. spec.Means (spec.needs wanted) elab) }
{
    let wanted = vec![in alloc; wanted]?;
    Ok(Elab::Need(Listing::from_vec(wanted)))
}

// What a judgement comes to that stops.
fn halted(alloc: Global, halt: Halt) -> Result<Elab<ExprMeaning>, AllocError>
    ensures { (run : Looked wants ExprMeaning_of) → Stops run halt → IfOk result (λ elab. spec.Means run elab) }
{
    match halt {
        Halt::Wants(wanted) => needs(alloc, wanted),
        Halt::NoMemory => Err(AllocError),
    }
}

fn is_none(asked: &Listing<Wanted>) -> bool
    ensures { result ≡ spec.is_none asked.now }
{
    let Some(_) = asked.as_slice().first() else {
        return true;
    };
    false
}

// What it means among these surroundings, where so much is made.
fn judged_from(
    alloc: Global,
    around: &Around<'_>,
    made: Made,
    expr: &Expr,
) -> Result<Elab<ExprMeaning>, AllocError>
    ensures { IfOk result (λ elab. spec.Means (run_by (answered (told_of around.now)) (spec.judged_from (context_of around.now) (tree_of expr.now) made)) elab) }
{
    let mut made = made;
    let place = Where {
        counted: true,
        defining: false,
    };
    match judged(alloc, around, place, &mut made, expr) {
        Ok(judged) => Ok(Elab::Done(meaning_of(judged, made))),
        Err(halt) => {
            drop(made);
            halted(alloc, halt)
        }
    }
}

// What it means, where all of its identifiers have their answers.
fn judged_in(
    alloc: Global,
    item: &ItemName,
    tokens: &[OutToken],
    expr: &Expr,
    scopes: &Scopes,
    tags: Tags,
    known: &Known,
) -> Result<Elab<ExprMeaning>, AllocError>
    ensures { IfOk result (λ elab. spec.Means (run_by (answered known.now) (spec.judged_in item.now (bare_tokens tokens.now) (tree_of expr.now) scopes.now tags)) elab) }
{
    let file = item_file(alloc, item)?;
    let around = Around {
        item,
        file: &file,
        tokens,
        base: 0,
        outer: scopes,
        known,
    };
    let made = Made::begin(alloc, or_file(scopes.kind()), tags)?;
    let meaning = judged_from(alloc, &around, made, expr)?;
    Ok(meaning)
}

/// What an expression of an item means (ISO C11 6.5), where these scopes are entered, and `tags` is what the item declared in front of it.
/// `tokens` are those of the item; tokens are named by their numbers in it.
///
/// First all of its identifiers are asked for that have no answer, in one list, in the order of first tokens: behind `struct`, `union`
/// and `enum` a tag, else an ordinary name. Then what is known of one tag of an earlier item after another is, in the order in which a
/// row first tests its members, size or completeness. `Need` has what is asked in turn and isn't among `known`.
pub fn elab_expr(
    alloc: Global,
    item: &ItemName,
    tokens: &[OutToken],
    expr: &Expr,
    scopes: &Scopes,
    tags: Tags,
    known: &Known,
) -> Result<Elab<ExprMeaning>, AllocError>
    ensures { IfOk result (λ elab. spec.Means (run_by (answered known.now) (spec.expr_meaning item.now (bare_tokens tokens.now) (tree_of expr.now) scopes.now tags)) elab) }
{
    let asked = unanswered(alloc, known, own_tokens(expr, tokens))?;
    if is_none(&asked) {
        return judged_in(alloc, item, tokens, expr, scopes, tags, known);
    }
    Ok(Elab::Need(asked))
}
