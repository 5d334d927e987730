// What a part of an item asks first: what each of its identifiers denotes (ISO C11 6.2.3).
ghost use Rattle.std.specs.Prelude.{◌≡◌, false, [], IfOk, OnOk};
ghost use Rattle.asking.specs.LookUps.{unanswered as lacking};
ghost use Rattle.elab_state.specs.Asked as spec;
ghost use Rattle.elab_state.specs.Same.{same_wanted};
ghost use Rattle.elab_state.specs.Tokens.{bare_tokens};
ghost use Rattle.elab_state.specs.Wants.{answered, wants};
ghost use Rattle.indexmap.specs.IndexSet.{insert_key};

use crate::known::Known;
use crate::tokens::is_identifier;
use crate::wants::Wanted;
use indexmap::IndexSet;
use shared_list::Listing;
use std::alloc::{AllocError, Global};
use std::marker::Model;
use tok_data::OutToken;
use type_data::Space;

// Questions, in the order in which they were noted, each once. Contracts see the list.
#[derive(Drop)]
struct Asked {
    set: IndexSet<Wanted>,
}

impl Model for Asked {
    ghost use Rattle.std.specs.Prelude.{List};
    ghost use Rattle.elab_state.specs.declared.wants.Wanted.{Wanted};

    ghost Value = { List Wanted };

    ghost view = { λ a. a.set.keys };
}

impl Asked {
    fn new(alloc: Global) -> Asked
        ensures { result ≡ [] }
    {
        Asked {
            set: IndexSet::new(alloc),
        }
    }

    fn note(&mut self, one: Wanted) -> Result<(), AllocError>
        ensures { OnOk result (self.new ≡ insert_key same_wanted self.old one) }
    {
        self.set.insert(one)?;
        Ok(())
    }

    fn as_slice(&self) -> &[Wanted]
        ensures { result.now ≡ self.now }
    {
        self.set.as_slice()
    }
}

#[tactic(auto, unfolding(crate::specs::Asked::begins_tag))]
pub(crate) fn begins_tag(text: &str) -> bool
    ensures { result ≡ spec.begins_tag text.now }
{
    text == "struct" || text == "union" || text == "enum"
}

fn space_behind(tag: bool) -> Space
    ensures { result ≡ spec.space_behind tag }
{
    if tag { Space::Tags } else { Space::Ordinary }
}

pub(crate) fn wanted_by(tag: bool, token: &OutToken) -> Result<Wanted, AllocError>
    ensures { IfOk result (λ one. one ≡ spec.wanted_by tag token.now) }
{
    let name = token.spelling.share()?;
    Ok(Wanted {
        space: space_behind(tag),
        name,
    })
}

fn note(known: &Known, asked: &mut Asked, one: Wanted) -> Result<(), AllocError>
    ensures { OnOk result (asked.new ≡ spec.noted (answered known.now) one asked.old) }
{
    if known.get(&one).is_none() {
        asked.note(one)?;
    }
    Ok(())
}

fn note_all(known: &Known, asked: &mut Asked, tokens: &[OutToken]) -> Result<(), AllocError>
    ensures { OnOk result (asked.new ≡ spec.all_noted (answered known.now) asked.old (spec.identifiers false (bare_tokens tokens.now))) }
{
    let mut tag = false;
    let mut rest = tokens;
    'tokens: while let Some((token, others)) = rest.split_first() {
        rest = others;
        if is_identifier(token) {
            let one = wanted_by(tag, token)?;
            note(known, asked, one)?;
            tag = false;
            continue;
        }
        tag = begins_tag(token.spelling.as_str());
    }
    Ok(())
}

fn shared(alloc: Global, all: &[Wanted]) -> Result<Listing<Wanted>, AllocError>
    ensures { IfOk result (λ list. list ≡ all.now) }
{
    let mut list = Vec::new(alloc);
    'all: for one in all {
        let copy = one.share()?;
        list.push(copy)?;
    }
    Ok(Listing::from_vec(list))
}

/// What the identifiers of these tokens ask that isn't known, each once, in the order of first tokens: behind `struct`, `union` and
/// `enum` a tag, else an ordinary name. Its cost is linear in the number of tokens.
pub fn unanswered(
    alloc: Global,
    known: &Known,
    tokens: &[OutToken],
) -> Result<Listing<Wanted>, AllocError>
    ensures { IfOk result (λ list. list ≡ lacking wants (answered known.now) (spec.identifiers false (bare_tokens tokens.now))) }
{
    let mut asked = Asked::new(alloc);
    note_all(known, &mut asked, tokens)?;
    let list = shared(alloc, asked.as_slice())?;
    Ok(list)
}
