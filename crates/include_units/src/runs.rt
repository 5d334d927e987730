// Text lines (ISO C11 6.10p4 to p7): a run of them is one list that is expanded.
ghost use Rattle.std.specs.Prelude.{◌≡◌, ◌≤◌, ◌-◌, ◌++◌, ◌∷◌, [], IfOk, OnOk, IfSome, length, drop, codes, nat_le, true};
ghost use Rattle.std.specs.List.{list_any};
ghost use Rattle.std.specs.FinMap as map;
ghost use Rattle.macro_expand.specs.Expansion.{expanded};
ghost use Rattle.pp_cond.specs.Defined.{is_word};
ghost use Rattle.include_units.specs.Coming.{Comes, AtNeed};
ghost use Rattle.include_units.specs.Parted.{run_behind};
ghost use Rattle.include_units.specs.Rooms as rooms;
ghost use Rattle.include_units.specs.Runs as spec;

use crate::made::Made;
use crate::stop::Stop;
use crate::texts::{Source, Text};
use crate::tokens::{is_mark, is_word};
use crate::told::{Told, places_at};
use crate::types::Want;
use c_tokens::Places;
use macro_expand::{
    Expanded, Within, expand, expand_within, lines_change_nothing, more_lines_change_nothing,
};
use std::alloc::{AllocError, Global};
use tok_data::{OutToken, OutTokens, PpKind, TokId};

fn start_of(places: &[(u32, u32)], at: u32) -> u32
    ensures { result ≡ spec.start_of places.now at }
{
    match places.get(at as usize) {
        Some(place) => place.0,
        None => 0,
    }
}

fn from_one(line: u32) -> u32
    ensures { result ≡ spec.from_one line }
{
    if line < u32::MAX {
        return line + 1;
    }
    line
}

// The line, from 1, on which a token begins.
fn line_of(places: &Places, at: u32) -> u32
    ensures { result ≡ spec.line_of places.now at }
{
    let start = start_of(places.places.as_slice(), at);
    from_one(places.lines.line(start))
}

fn lines_by(
    alloc: Global,
    places: &Places,
    tokens: &[OutToken],
) -> Result<Vec<(TokId, u32)>, AllocError>
    ensures { IfOk result (λ lines. lines.items ≡ spec.lines_by places.now tokens.now) }
{
    let mut lines = Vec::with_capacity(alloc, tokens.len())?;
    let mut rest = tokens;
    while let Some((token, behind)) = rest.split_first() {
        rest = behind;
        let site = token.site.copy()?;
        lines.push((site, line_of(places, token.site.at)))?;
    }
    Ok(lines)
}

// The lines of tokens of a text.
pub(crate) fn lines_in(
    alloc: Global,
    files: &Told,
    source: &Source,
    tokens: &[OutToken],
) -> Result<Vec<(TokId, u32)>, Stop>
    ensures { Comes files.now (spec.lines_in source.now tokens.now) (λ lines. lines.items) result }
{
    match source {
        Source::Own(text) => {
            let lines = lines_by(alloc, text.places().as_places(), tokens)?;
            Ok(lines)
        }
        Source::File(path) => match places_at(files, path) {
            Some(places) => {
                let lines = lines_by(alloc, places.as_places(), tokens)?;
                Ok(lines)
            }
            None => {
                let path = path.share()?;
                Err(Stop::Need(Want::Lines(path)))
            }
        },
    }
}

fn expand_in(
    alloc: Global,
    files: &Told,
    text: &Text,
    tokens: &[OutToken],
    made: &Made,
) -> Result<Expanded, Stop>
    ensures { Comes files.now (spec.expand_in text.now tokens.now made.now) (λ e. e) result }
{
    let first = expand(alloc, tokens, &made.table, &[], made.left)?;
    let None = first.asked else {
        return expand_with_lines(alloc, files, text, tokens, made);
    };
    Ok(first)
}

fn expand_with_lines(
    alloc: Global,
    files: &Told,
    text: &Text,
    tokens: &[OutToken],
    made: &Made,
) -> Result<Expanded, Stop>
    ensures { Comes files.now (spec.expand_again text.now tokens.now made.now) (λ e. e) result }
{
    match lines_in(alloc, files, &text.source, tokens) {
        Ok(lines) => {
            let again = expand(alloc, tokens, &made.table, lines.as_slice(), made.left)?;
            Ok(again)
        }
        Err(stop) => Err(stop),
    }
}

fn with_expansion(expanded: Expanded, made: &mut Made) -> Result<OutTokens, AllocError>
    ensures tokens { IfOk result (λ ts. ts ≡ expanded.tokens) }
    ensures made { OnOk result (made.new ≡ spec.with_expansion expanded made.old) }
{
    let Expanded {
        tokens,
        used,
        faults,
        spelled,
        macros,
        asked: _,
    } = expanded;
    made.left = made.left.saturating_sub(used);
    made.faults.extend(faults.into_vec())?;
    made.spelled.extend(spelled.into_vec())?;
    made.macros.extend(macros.into_vec())?;
    Ok(tokens)
}

// Expands tokens of a text; they are given, and the rest is noted.
pub(crate) fn expanded_run(
    alloc: Global,
    files: &Told,
    text: &Text,
    tokens: &[OutToken],
    made: &mut Made,
) -> Result<OutTokens, Stop>
    ensures run { Comes files.now (spec.expanded_run text.now tokens.now made.old) (λ ts. spec.run ts made.new) result }
    ensures kept { AtNeed result (made.new ≡ made.old) }
{
    match expand_in(alloc, files, text, tokens, made) {
        Ok(expanded) => {
            let tokens = with_expansion(expanded, made)?;
            Ok(tokens)
        }
        Err(stop) => Err(stop),
    }
}

fn is_string(kind: PpKind) -> bool
    ensures { result ≡ spec.is_string kind }
{
    match kind {
        PpKind::Str => true,
        _ => false,
    }
}

fn closes_pragma(tokens: &[OutToken]) -> bool
    ensures { result ≡ spec.closes_pragma tokens.now }
{
    match tokens.split_first() {
        Some((token, _)) => is_mark(")", token),
        None => false,
    }
}

fn pragma_string(tokens: &[OutToken]) -> bool
    ensures { result ≡ spec.pragma_string tokens.now }
{
    match tokens.split_first() {
        Some((token, behind)) => is_string(token.kind) && closes_pragma(behind),
        None => false,
    }
}

fn opens_pragma(tokens: &[OutToken]) -> bool
    ensures { result ≡ spec.opens_pragma tokens.now }
{
    match tokens.split_first() {
        Some((token, behind)) => is_mark("(", token) && pragma_string(behind),
        None => false,
    }
}

// `_Pragma ( string-literal )` stands here.
fn is_pragma(token: &OutToken, behind: &[OutToken]) -> bool
    ensures { result ≡ spec.is_pragma token.now behind.now }
{
    is_word("_Pragma", token) && opens_pragma(behind)
}

fn is_stray(kind: PpKind) -> bool
    ensures { result ≡ spec.is_stray kind }
{
    match kind {
        PpKind::Stray => true,
        _ => false,
    }
}

fn drop_token(alloc: Global, token: &OutToken, made: &mut Made) -> Result<(), AllocError>
    ensures { OnOk result (made.new ≡ spec.dropped token.now made.old) }
{
    if made.full {
        return Ok(());
    }
    made.full = true;
    made.add_fault(alloc, 228, &token.site, "")
}

fn keep_token(alloc: Global, token: &OutToken, made: &mut Made) -> Result<(), AllocError>
    ensures { OnOk result (made.new ≡ spec.kept token.now made.old) }
{
    let copy = token.copy()?;
    made.tokens.push(copy)?;
    if is_stray(token.kind) {
        return made.add_fault(alloc, 103, &token.site, "");
    }
    Ok(())
}

const MOST_TOKENS: usize = 2_000_000;

fn put_token(alloc: Global, token: &OutToken, made: &mut Made) -> Result<(), AllocError>
    ensures { OnOk result (made.new ≡ spec.with_token token.now made.old) }
{
    if made.tokens.as_slice().len() < MOST_TOKENS {
        return keep_token(alloc, token, made);
    }
    drop_token(alloc, token, made)
}

// Adds what is left of an expansion to the output, token by token.
fn put_each(alloc: Global, tokens: &[OutToken], made: &mut Made) -> Result<(), AllocError>
    ensures { OnOk result (made.new ≡ spec.with_output (spec.without_pragmas 0 tokens.now) made.old) }
{
    let mut skip = 0usize;
    let mut rest = tokens;
    while let Some((token, behind)) = rest.split_first() {
        rest = behind;
        if 0 < skip {
            skip -= 1;
            continue;
        }
        if is_pragma(token, behind) {
            skip = 3;
            continue;
        }
        put_token(alloc, token, made)?;
    }
    Ok(())
}

// A stray character, which is a fault, or what may begin a `_Pragma`.
fn is_odd(token: &OutToken) -> bool
    ensures { result ≡ rooms.is_odd token.now }
{
    is_stray(token.kind) || is_word("_Pragma", token)
}

fn has_odd(tokens: &[OutToken]) -> bool
    ensures { result ≡ list_any rooms.is_odd tokens.now }
{
    tokens.iter().any(|token| is_odd(token))
}

fn has_room(count: usize, made: &Made) -> bool
    ensures { result ≡ nat_le count (spec.most_tokens - length made.now.tokens) }
{
    count <= MOST_TOKENS.saturating_sub(made.tokens.as_slice().len())
}

// The output takes these tokens as they stand.
#[tactic(auto, unfolding(crate::specs::Rooms::goes_whole))]
fn goes_whole(tokens: &[OutToken], made: &Made) -> bool
    ensures { result ≡ rooms.goes_whole tokens.now made.now }
{
    has_room(tokens.len(), made) && !has_odd(tokens)
}

// Moves tokens to the output.
#[tactic(auto, using(crate::proofs::OutputLemmas::whole_output))]
fn put_whole(tokens: OutTokens, made: &mut Made) -> Result<(), AllocError>
    requires { rooms.goes_whole tokens made.old ≡ true }
    ensures { OnOk result (made.new ≡ spec.with_output (spec.without_pragmas 0 tokens) made.old) }
{
    made.tokens.extend(tokens.into_vec())?;
    Ok(())
}

// Adds what is left of an expansion to the output.
fn put_output(alloc: Global, tokens: OutTokens, made: &mut Made) -> Result<(), AllocError>
    ensures { OnOk result (made.new ≡ spec.with_output (spec.without_pragmas 0 tokens) made.old) }
{
    if goes_whole(tokens.as_slice(), made) {
        return put_whole(tokens, made);
    }
    put_each(alloc, tokens.as_slice(), made)
}

// How many tokens of an expansion the output has room for, and one more, which tells that there are more.
fn wanted(made: &Made) -> usize
    ensures { result ≡ rooms.wanted made.now }
{
    MOST_TOKENS.saturating_sub(made.tokens.as_slice().len()) + 1
}

fn within_again(
    alloc: Global,
    files: &Told,
    text: &Text,
    tokens: &[OutToken],
    room: usize,
    made: &Made,
) -> Result<Within, Stop>
    ensures { Comes files.now (rooms.within_again text.now tokens.now room made.now) (λ w. w) result }
{
    match lines_in(alloc, files, &text.source, tokens) {
        Ok(lines) => {
            let again = expand_within(
                alloc,
                tokens,
                &made.table,
                lines.as_slice(),
                made.left,
                room,
            )?;
            Ok(again)
        }
        Err(stop) => Err(stop),
    }
}

// With no line known, and again with the lines of the text where one is wanted.
fn within_asked(
    alloc: Global,
    files: &Told,
    text: &Text,
    tokens: &[OutToken],
    room: usize,
    made: &Made,
) -> Result<Within, Stop>
    ensures { Comes files.now (rooms.within_in text.now tokens.now room made.now) (λ w. w) result }
{
    let first = expand_within(alloc, tokens, &made.table, &[], made.left, room)?;
    let None = first.expanded.asked else {
        return within_again(alloc, files, text, tokens, room, made);
    };
    Ok(first)
}

// The lines of tokens of a text, where they are told.
fn told_lines(
    alloc: Global,
    files: &Told,
    source: &Source,
    tokens: &[OutToken],
) -> Result<Option<Vec<(TokId, u32)>>, AllocError>
    ensures { IfOk result (λ told. IfSome told (λ lines. rooms.AreLines files.now source.now tokens.now lines.items)) }
{
    match source {
        Source::Own(text) => {
            let lines = lines_by(alloc, text.places().as_places(), tokens)?;
            Ok(Some(lines))
        }
        Source::File(path) => match places_at(files, path) {
            Some(places) => {
                let lines = lines_by(alloc, places.as_places(), tokens)?;
                Ok(Some(lines))
            }
            None => Ok(None),
        },
    }
}

// With these lines at once: where none is wanted, they make no difference.
#[tactic(auto, using(crate::proofs::RoomLemmas::lines_known))]
fn within_lines(
    alloc: Global,
    files: &Told,
    text: &Text,
    tokens: &[OutToken],
    lines: &[(TokId, u32)],
    room: usize,
    made: &Made,
) -> Result<Within, Stop>
    requires { rooms.AreLines files.now text.now.source tokens.now lines.now }
    ensures { Comes files.now (rooms.within_in text.now tokens.now room made.now) (λ w. w) result }
{
    lines_change_nothing();
    let within = expand_within(alloc, tokens, &made.table, lines, made.left, room)?;
    Ok(within)
}

fn within_told(
    alloc: Global,
    files: &Told,
    text: &Text,
    tokens: &[OutToken],
    room: usize,
    made: &Made,
) -> Result<Within, Stop>
    ensures { Comes files.now (rooms.within_in text.now tokens.now room made.now) (λ w. w) result }
{
    let told = told_lines(alloc, files, &text.source, tokens)?;
    match told {
        Some(lines) => within_lines(alloc, files, text, tokens, lines.as_slice(), room, made),
        None => within_asked(alloc, files, text, tokens, room, made),
    }
}

// The lines of the tokens that spell `__LINE__`.
fn few_lines(
    alloc: Global,
    places: &Places,
    tokens: &[OutToken],
) -> Result<Vec<(TokId, u32)>, AllocError>
    ensures { IfOk result (λ lines. lines.items ≡ rooms.few_lines places.now tokens.now) }
{
    let mut lines = Vec::new(alloc);
    let mut rest = tokens;
    while let Some((token, behind)) = rest.split_first() {
        rest = behind;
        if is_word("__LINE__", token) {
            let site = token.site.copy()?;
            lines.push((site, line_of(places, token.site.at)))?;
            continue;
        }
    }
    Ok(lines)
}

// The lines of those tokens of a text that spell `__LINE__`, where they are told.
fn told_few(
    alloc: Global,
    files: &Told,
    source: &Source,
    tokens: &[OutToken],
) -> Result<Option<Vec<(TokId, u32)>>, AllocError>
    ensures { IfOk result (λ told. IfSome told (λ lines. rooms.AreFew files.now source.now tokens.now lines.items)) }
{
    match source {
        Source::Own(text) => {
            let lines = few_lines(alloc, text.places().as_places(), tokens)?;
            Ok(Some(lines))
        }
        Source::File(path) => match places_at(files, path) {
            Some(places) => {
                let lines = few_lines(alloc, places.as_places(), tokens)?;
                Ok(Some(lines))
            }
            None => Ok(None),
        },
    }
}

// With these lines at first: where no other is wanted, all of them make no difference.
fn within_few(
    alloc: Global,
    files: &Told,
    text: &Text,
    tokens: &[OutToken],
    few: &[(TokId, u32)],
    room: usize,
    made: &Made,
) -> Result<Within, Stop>
    requires { rooms.AreFew files.now text.now.source tokens.now few.now }
    ensures { Comes files.now (rooms.within_in text.now tokens.now room made.now) (λ w. w) result }
{
    more_lines_change_nothing();
    let first = expand_within(alloc, tokens, &made.table, few, made.left, room)?;
    let None = first.expanded.asked else {
        return within_told(alloc, files, text, tokens, room, made);
    };
    Ok(first)
}

fn within_line(
    alloc: Global,
    files: &Told,
    text: &Text,
    tokens: &[OutToken],
    room: usize,
    made: &Made,
) -> Result<Within, Stop>
    ensures { Comes files.now (rooms.within_in text.now tokens.now room made.now) (λ w. w) result }
{
    let told = told_few(alloc, files, &text.source, tokens)?;
    match told {
        Some(few) => within_few(alloc, files, text, tokens, few.as_slice(), room, made),
        None => within_asked(alloc, files, text, tokens, room, made),
    }
}

// `__LINE__` stands there.
fn has_line(tokens: &[OutToken]) -> bool
    ensures { result ≡ list_any (is_word (codes "__LINE__")) tokens.now }
{
    tokens.iter().any(|token| is_word("__LINE__", token))
}

// Expands tokens of a text, and keeps so many of what comes.
fn within_in(
    alloc: Global,
    files: &Told,
    text: &Text,
    tokens: &[OutToken],
    room: usize,
    made: &Made,
) -> Result<Within, Stop>
    ensures { Comes files.now (rooms.within_in text.now tokens.now room made.now) (λ w. w) result }
{
    if has_line(tokens) {
        return within_line(alloc, files, text, tokens, room, made);
    }
    within_asked(alloc, files, text, tokens, room, made)
}

fn has_pragma(tokens: &[OutToken]) -> bool
    ensures { result ≡ list_any (is_word (codes "_Pragma")) tokens.now }
{
    tokens.iter().any(|token| is_word("_Pragma", token))
}

// Tokens were left out behind what may begin a `_Pragma`.
fn hides_pragma(within: &Within) -> bool
    ensures { result ≡ rooms.hides_pragma within.now }
{
    within.left_out.is_some() && has_pragma(within.expanded.tokens.as_slice())
}

// Reads a run of text lines with all that its expansion gives.
fn whole_run(
    alloc: Global,
    files: &Told,
    text: &Text,
    tokens: &[OutToken],
    made: &mut Made,
) -> Result<(), Stop>
    ensures run { Comes files.now (run_behind text.now tokens.now made.old) (λ _. made.new) result }
    ensures kept { AtNeed result (made.new ≡ made.old) }
{
    match expanded_run(alloc, files, text, tokens, made) {
        Ok(output) => {
            put_output(alloc, output, made)?;
            Ok(())
        }
        Err(stop) => Err(stop),
    }
}

// Reads a run of text lines in a group that is taken, whose open literals are shown. Of its expansion no more is kept than the
// output has room for.
pub(crate) fn run_of(
    alloc: Global,
    files: &Told,
    text: &Text,
    tokens: &[OutToken],
    made: &mut Made,
) -> Result<(), Stop>
    ensures run { Comes files.now (run_behind text.now tokens.now made.old) (λ _. made.new) result }
    ensures kept { AtNeed result (made.new ≡ made.old) }
{
    let room = wanted(made);
    match within_in(alloc, files, text, tokens, room, made) {
        Ok(within) => {
            if hides_pragma(&within) {
                return whole_run(alloc, files, text, tokens, made);
            }
            let Within {
                expanded,
                left_out: _,
            } = within;
            let output = with_expansion(expanded, made)?;
            put_output(alloc, output, made)?;
            Ok(())
        }
        Err(stop) => Err(stop),
    }
}
