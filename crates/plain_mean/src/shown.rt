// What one file shows.
ghost use Rattle.std.specs.Prelude.{◌≡◌, ◌≤◌, ◌++◌, length, map, IfOk, OnOk};
ghost use Rattle.plain_mean.specs.Shown.{in_order, place_of, placed, of_lexing, is_open_comment, open_comments, of_text};
ghost use Rattle.plain_mean.specs.Lexing.{IsLexed};
ghost use Rattle.plain_mean.specs.Within.{AreWithin};

use crate::lexings::LexedText;
use crate::messages::message;
use crate::types::{Shown, ShownList};
use c_tokens::LexFault;
use std::alloc::{AllocError, Global};
use std::collections::BTreeMap;
use tok_data::ShownFault;

/// These faults in order, each once.
fn in_order(alloc: Global, all: Vec<Shown>) -> Result<ShownList, AllocError>
    ensures { IfOk result (λ list. list ≡ in_order all.items) }
{
    let mut set = BTreeMap::new(alloc);
    'all: for shown in all {
        set.insert(shown, ())?;
    }
    let mut out = Vec::new(alloc);
    for shown in set.into_keys() {
        out.push(shown)?;
    }
    Ok(ShownList::from_vec(out))
}

fn place_of(places: &[(u32, u32)], at: u32) -> (u32, u32)
    ensures { result ≡ place_of places.now at }
{
    match places.get(at as usize) {
        Some(place) => *place,
        None => (0, 0),
    }
}

fn placed(places: &[(u32, u32)], fault: &ShownFault) -> Result<Shown, AllocError>
    ensures { IfOk result (λ shown. shown ≡ placed places.now fault.now) }
{
    let (start, end) = place_of(places, fault.tok.at);
    let text = fault.text.share()?;
    Ok(Shown {
        start,
        end,
        rule: fault.rule,
        text,
    })
}

fn all_placed(
    alloc: Global,
    places: &[(u32, u32)],
    faults: &[ShownFault],
) -> Result<Vec<Shown>, AllocError>
    ensures { IfOk result (λ all. all.items ≡ map (placed places.now) faults.now) }
{
    let mut out = Vec::new(alloc);
    let mut rest = faults;
    'faults: while let Some((fault, behind)) = rest.split_first() {
        rest = behind;
        out.push(placed(places, fault)?)?;
    }
    Ok(out)
}

fn of_lexing(alloc: Global, fault: &LexFault) -> Result<Shown, AllocError>
    ensures { IfOk result (λ shown. shown ≡ of_lexing fault.now) }
{
    let text = message(alloc, fault.rule, "")?;
    Ok(Shown {
        start: fault.start,
        end: fault.end,
        rule: fault.rule,
        text,
    })
}

// Adds the open comments among the faults of lexing, where some unit reads the text.
fn add_open_comments(
    alloc: Global,
    all: &mut Vec<Shown>,
    read: bool,
    faults: &[LexFault],
) -> Result<(), AllocError>
    ensures { OnOk result (all.new.items ≡ all.old.items ++ open_comments read faults.now) }
{
    if !read {
        return Ok(());
    }
    let mut rest = faults;
    'faults: while let Some((fault, behind)) = rest.split_first() {
        rest = behind;
        if fault.rule != 101 {
            continue;
        }
        all.push(of_lexing(alloc, fault)?)?;
    }
    Ok(())
}

/// What a text shows, by what lexing gives of it, the faults that fall on it and whether a unit reads it.
pub(crate) fn of_text(
    alloc: Global,
    text: &str,
    lexed: &LexedText,
    faults: &[ShownFault],
    read: bool,
) -> Result<ShownList, AllocError>
    requires { IsLexed text.now lexed.now }
    ensures shown { IfOk result (λ list. list ≡ of_text text.now faults.now read) }
    ensures within { IfOk result (λ list. AreWithin (length text.now) list) }
{
    let places = lexed.places.as_places();
    let mut all = all_placed(alloc, places.places.as_slice(), faults)?;
    add_open_comments(alloc, &mut all, read, places.faults.as_slice())?;
    let list = in_order(alloc, all)?;
    Ok(list)
}
