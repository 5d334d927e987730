// What stands behind the name in a `#define` (ISO C11 6.10p1).
ghost use Rattle.std.specs.Prelude.{◌≡◌, [], IfOk};
ghost use Rattle.include_units.specs.declared.heads.Place.TheVariants.{Opened};
ghost use Rattle.include_units.specs.Definitions as spec;

use crate::grown::Grown;
use crate::tokens::{is_ident, is_mark};
use std::alloc::{AllocError, Global};
use tok_data::{OutToken, OutTokens};

// The parameters that a definition states, or none for an object-like one, and the replacement list.
#[derive(Debug, Drop)]
pub(crate) struct Head {
    pub(crate) params: Option<OutTokens>,
    pub(crate) variadic: bool,
    pub(crate) body: OutTokens,
}

// Where the list of parameters is read: behind `(`, behind a parameter, behind a comma.
#[derive(Clone, Copy, Debug, Drop)]
pub(crate) enum Place {
    Opened,
    Named,
    Parted,
}

fn copied(alloc: Global, tokens: &[OutToken]) -> Result<OutTokens, AllocError>
    ensures { IfOk result (λ ts. ts ≡ tokens.now) }
{
    let mut out = Vec::new(alloc);
    for token in tokens {
        let copy = token.copy()?;
        out.push(copy)?;
    }
    Ok(OutTokens::from_vec(out))
}

fn closed(
    alloc: Global,
    before: Grown<OutToken>,
    variadic: bool,
    tokens: &[OutToken],
) -> Result<Option<Head>, AllocError>
    ensures { IfOk result (λ head. head ≡ spec.closed before variadic tokens.now) }
{
    let body = copied(alloc, tokens)?;
    Ok(Some(Head {
        params: Some(OutTokens::from_vec(before.into_vec())),
        variadic,
        body,
    }))
}

fn dotted(
    alloc: Global,
    before: Grown<OutToken>,
    tokens: &[OutToken],
) -> Result<Option<Head>, AllocError>
    ensures { IfOk result (λ head. head ≡ spec.dotted before tokens.now) }
{
    let Some((token, behind)) = tokens.split_first() else {
        return Ok(None)
    };
    if is_mark(")", token) {
        return closed(alloc, before, true, behind);
    }
    Ok(None)
}

// What a token does in a list of parameters.
#[derive(Clone, Copy, Debug, Drop)]
pub(crate) enum Mark {
    Ends,
    Dots,
    Names,
    Parts,
    Breaks,
}

fn mark_at(place: Place, token: &OutToken) -> Mark
    ensures { result ≡ spec.mark_at place token.now }
{
    match place {
        Place::Opened => mark_opened(token),
        Place::Named => mark_named(token),
        Place::Parted => mark_parted(token),
    }
}

#[tactic(auto, unfolding(crate::specs::Definitions::mark_opened))]
fn mark_opened(token: &OutToken) -> Mark
    ensures { result ≡ spec.mark_opened token.now }
{
    if is_mark(")", token) {
        return Mark::Ends;
    }
    mark_parted(token)
}

#[tactic(auto, unfolding(crate::specs::Definitions::mark_named))]
fn mark_named(token: &OutToken) -> Mark
    ensures { result ≡ spec.mark_named token.now }
{
    if is_mark(")", token) {
        return Mark::Ends;
    }
    if is_mark(",", token) {
        return Mark::Parts;
    }
    Mark::Breaks
}

#[tactic(auto, unfolding(crate::specs::Definitions::mark_parted))]
fn mark_parted(token: &OutToken) -> Mark
    ensures { result ≡ spec.mark_parted token.now }
{
    if is_mark("...", token) {
        return Mark::Dots;
    }
    if is_ident(token.kind) {
        return Mark::Names;
    }
    Mark::Breaks
}

// The parameters behind `(`, and what stands behind `)`; none where these tokens are no list of parameters.
fn parameters(alloc: Global, tokens: &[OutToken]) -> Result<Option<Head>, AllocError>
    ensures { IfOk result (λ head. head ≡ spec.parameters Opened [] tokens.now) }
{
    let mut before = Grown::new(alloc);
    let mut place = Place::Opened;
    let mut rest = tokens;
    while let Some((token, behind)) = rest.split_first() {
        rest = behind;
        match mark_at(place, token) {
            Mark::Ends => return closed(alloc, before, false, behind),
            Mark::Dots => return dotted(alloc, before, behind),
            Mark::Names => {
                let copy = token.copy()?;
                before.push(copy)?;
                place = Place::Named;
                continue;
            }
            Mark::Parts => {
                place = Place::Parted;
                continue;
            }
            Mark::Breaks => return Ok(None),
        }
    }
    Ok(None)
}

fn object(alloc: Global, tokens: &[OutToken]) -> Result<Head, AllocError>
    ensures { IfOk result (λ head. head ≡ spec.object tokens.now) }
{
    let body = copied(alloc, tokens)?;
    Ok(Head {
        params: None,
        variadic: false,
        body,
    })
}

// What stands behind the name; none where that has no form.
pub(crate) fn head_of(alloc: Global, tokens: &[OutToken]) -> Result<Option<Head>, AllocError>
    ensures { IfOk result (λ head. head ≡ spec.head tokens.now) }
{
    let Some((token, behind)) = tokens.split_first() else {
        let head = object(alloc, tokens)?;
        return Ok(Some(head));
    };
    if token.space_before {
        let head = object(alloc, tokens)?;
        return Ok(Some(head));
    }
    if is_mark("(", token) {
        return parameters(alloc, behind);
    }
    Ok(None)
}
