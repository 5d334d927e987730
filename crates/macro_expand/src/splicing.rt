// What replaced a name, in front of the rest of the list.
ghost use Rattle.std.specs.Prelude.{◌≡◌, ◌++◌, drop, IfOk, OnOk};
ghost use Rattle.macro_expand.specs.Ties.Codes.{Names};
ghost use Rattle.macro_expand.specs.Ties.Stands.{Stands, Grows};
ghost use Rattle.macro_expand.specs.Ties.Numbers.{real, reals};
ghost use Rattle.macro_expand.specs.Expansion as spec;
ghost use Rattle.macro_expand.specs.Substitution as subst;
ghost use Rattle.macro_expand.specs.Tokens as tokens;

use crate::hide::HideSet;
use crate::rest::Rest;
use crate::sets::Sets;
use crate::types::{Marked, MarkedList};
use std::alloc::{AllocError, Global};
use tok_data::{OutToken, TokId};

// The token on a site, hidden from more names.
fn marked_by(
    alloc: Global,
    sets: &mut Sets,
    site: &TokId,
    names: &HideSet,
    token: Marked,
) -> Result<Marked, AllocError>
    ensures grows { OnOk result (Grows sets.old sets.new) }
    ensures value { IfOk result (λ t. (f : Names → Names) → Stands f sets.new
        → real f t ≡ subst.marked_by site.now (f names.now) (real f token)) }
{
    let Marked { token, hides } = token;
    let OutToken {
        kind,
        spelling,
        space_before,
        spelt,
        site: _,
    } = token;
    let site = site.copy()?;
    let hides = sets.united(alloc, &hides, names)?;
    Ok(Marked {
        token: OutToken {
            kind,
            spelling,
            space_before,
            spelt,
            site,
        },
        hides,
    })
}

// White space that nothing took passes to the next token.
fn passed_on<'a>(space: bool, rest: Rest<'a>) -> Result<Rest<'a>, AllocError>
    ensures { IfOk result (λ r. r ≡ tokens.passed_on space rest.entry) }
{
    let mut rest = rest;
    let first = rest.pop_front()?;
    let Some(token) = first else {
        return Ok(rest);
    };
    let space = token.token.space_before || space;
    rest.before(token.spaced(space))
}

// The tokens on a site, hidden from more names, in front of others.
fn marked_before<'a>(
    alloc: Global,
    sets: &mut Sets,
    site: &TokId,
    names: &HideSet,
    list: MarkedList,
    rest: Rest<'a>,
) -> Result<Rest<'a>, AllocError>
    ensures grows { OnOk result (Grows sets.old sets.new) }
    ensures value { IfOk result (λ r. (f : Names → Names) → Stands f sets.new
        → reals f r ≡ subst.all_marked site.now (f names.now) (reals f list) ++ reals f rest.entry) }
{
    let mut front = list.into_vec();
    let mut rest = rest;
    while let Some(token) = front.pop() {
        let marked = marked_by(alloc, sets, site, names, token)?;
        let more = rest.before(marked)?;
        rest = more;
    }
    Ok(rest)
}

// The first token with this white space before it.
fn respaced<'a>(space: bool, rest: Rest<'a>) -> Result<Rest<'a>, AllocError>
    ensures { IfOk result (λ r. r ≡ tokens.first_spaced space rest.entry) }
{
    let mut rest = rest;
    let first = rest.pop_front()?;
    let Some(token) = first else {
        return Ok(rest);
    };
    rest.before(token.spaced(space))
}

// What replaced a name, in front of the rest.
pub(crate) fn spliced<'a>(
    alloc: Global,
    sets: &mut Sets,
    token: &Marked,
    names: &HideSet,
    list: MarkedList,
    space: bool,
    rest: Rest<'a>,
) -> Result<Rest<'a>, AllocError>
    ensures grows { OnOk result (Grows sets.old sets.new) }
    ensures value { IfOk result (λ r. (f : Names → Names) → Stands f sets.new
        → reals f r ≡ spec.spliced (real f token.now) (f names.now) (reals f list) space (reals f rest.entry)) }
{
    let behind = passed_on(space, rest)?;
    if list.as_slice().is_empty() {
        return Ok(behind);
    }
    let all = marked_before(alloc, sets, &token.token.site, names, list, behind)?;
    let whole = respaced(token.token.space_before, all)?;
    Ok(whole)
}

// The rest without its first tokens.
pub(crate) fn dropped<'a>(width: usize, rest: Rest<'a>) -> Rest<'a>
    ensures { result ≡ drop width rest.entry }
{
    let mut rest = rest;
    let mut left = width;
    while 0 < left {
        rest.skip();
        left -= 1;
    }
    rest.slim()
}
