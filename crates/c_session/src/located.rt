// Where tokens stand, as the client reads it.
ghost use Rattle.std.specs.Prelude.{◌≡◌, ◌≤◌, length, IfOk, IfSome};
ghost use Rattle.c_tokens.specs.Lexed as lexing;
ghost use Rattle.plain_mean.specs.Given.{text_in};
ghost use Rattle.plain_mean.specs.Lexing.{IsLexed};
ghost use Rattle.plain_mean.specs.Shown.{place_of};
ghost use Rattle.text_lines.specs.Positions.{line_starts, pos_at};
ghost use Rattle.c_session.specs.Kept.{HasLexed};
ghost use Rattle.c_session.specs.Places as spec;
ghost use Rattle.c_session.specs.Ties.AtHand.{IsOpened, IsAtHand};

use crate::analysis::Analysis;
use crate::positions::text_in;
use doc_texts::Docs;
use lsp_answers::Located;
use plain_mean::LexedText;
use scope_tables::Symbol;
use shared_text::Name;
use std::alloc::{AllocError, Global};
use text_lines::{Encoding, LineTable, Pos, Walk};
use tok_data::{FileId, TokId};
use unit_index::symbol_number;
use uri_paths::{Path, uri_of};

// A byte is near the front of its line where no more than so many bytes stand between.
const NEAR: u32 = 256;

/// The URI that names a file: that of the client where it is open.
#[tactic(auto, unfolding(crate::specs::Places::uri_for))]
pub fn uri_for(alloc: Global, docs: &Docs, path: &Path) -> Result<Name, AllocError>
    ensures { IfOk result (λ uri. uri ≡ spec.uri_for docs.now path.now) }
{
    match docs.uri(path) {
        Some(uri) => Name::from_str(alloc, uri),
        None => {
            let uri = uri_of(alloc, path)?;
            Name::from_str(alloc, uri.as_str())
        }
    }
}

// The range with this number; the front where there is none.
fn place_in(places: &[(u32, u32)], at: u32) -> (u32, u32)
    ensures { result ≡ place_of places.now at }
{
    match places.get(at as usize) {
        Some(place) => *place,
        None => (0, 0),
    }
}

// The bytes of the token with this number.
fn place_of(text: &str, lexed: &LexedText, at: u32) -> (u32, u32)
    requires { IsLexed text.now lexed.now }
    ensures place { result ≡ place_of (lexing.lexed text.now).places at }
    ensures start { result.0 ≤ length text.now }
    ensures end { result.1 ≤ length text.now }
{
    let places = lexed.places.as_places();
    place_in(places.places.as_slice(), at)
}

// Where the token with this number of a text begins and ends.
#[tactic(auto, unfolding(crate::specs::Places::range_in))]
fn range_of(text: &str, lexed: &LexedText, encoding: Encoding, at: u32) -> (Pos, Pos)
    requires lexed { IsLexed text.now lexed.now }
    requires short { length text.now ≤ 4290772992 }
    ensures { result ≡ spec.range_in text.now encoding at }
{
    let (start, end) = place_of(text, lexed, at);
    let places = lexed.places.as_places();
    (
        places.lines.pos(text, start, encoding),
        places.lines.pos(text, end, encoding),
    )
}

/// Where the token with this number of the text at a path begins and ends.
pub(crate) fn range_in(
    kept: &Analysis,
    docs: &Docs,
    encoding: Encoding,
    path: &Path,
    at: u32,
) -> Result<(Pos, Pos), AllocError>
    requires { HasLexed docs.now kept.now }
    ensures { IfOk result (λ range. range ≡ spec.range_in (text_in docs.now path.now) encoding at) }
{
    let lexed = kept.lexings.at(docs, path)?;
    Ok(range_of(text_in(docs, path), &lexed, encoding, at))
}

// A file in which tokens are placed: how the client names it, what lexing gave of its text, and a walk over it, for what stands far from the
// front of a line.
#[derive(Drop)]
pub(crate) struct Opened<'a> {
    path: Path,
    uri: Name,
    text: &'a str,
    lexed: LexedText,
    walk: Walk<'a>,
}

// The text at hand, by its name, with its file, where it is one's. Tokens come in order, so each file is opened once.
#[derive(Drop)]
pub(crate) struct AtHand<'a> {
    name: FileId,
    file: Option<Opened<'a>>,
}

fn open_file<'a>(
    kept: &Analysis,
    docs: &'a Docs,
    encoding: Encoding,
    path: Path,
) -> Result<Opened<'a>, AllocError>
    requires { HasLexed docs.now kept.now }
    ensures { IfOk result (λ file. IsOpened docs.now encoding path file) }
{
    let uri = uri_for(kept.alloc, docs, &path)?;
    let lexed = kept.lexings.at(docs, &path)?;
    let text = text_in(docs, &path);
    let walk = Walk::new(text, encoding);
    Ok(Opened {
        path,
        uri,
        text,
        lexed,
        walk,
    })
}

fn found<'a>(
    kept: &Analysis,
    docs: &'a Docs,
    encoding: Encoding,
    name: &FileId,
) -> Result<AtHand<'a>, AllocError>
    requires { HasLexed docs.now kept.now }
    ensures name { IfOk result (λ hand. hand.name ≡ name.now) }
    ensures hand { IfOk result (λ hand. IsAtHand docs.now encoding hand) }
{
    let copy = name.copy()?;
    match Path::read(kept.alloc, name.as_str())? {
        Some(path) => {
            let file = open_file(kept, docs, encoding, path)?;
            Ok(AtHand {
                name: copy,
                file: Some(file),
            })
        }
        None => Ok(AtHand {
            name: copy,
            file: None,
        }),
    }
}

// The text with this name at hand: the one that is there, or else another.
fn turned_to<'a>(
    kept: &Analysis,
    docs: &'a Docs,
    encoding: Encoding,
    hand: Option<AtHand<'a>>,
    name: &FileId,
) -> Result<AtHand<'a>, AllocError>
    requires lexed { HasLexed docs.now kept.now }
    requires hand { IfSome hand (IsAtHand docs.now encoding) }
    ensures name { IfOk result (λ hand. hand.name ≡ name.now) }
    ensures hand { IfOk result (λ hand. IsAtHand docs.now encoding hand) }
{
    match hand {
        Some(hand) => {
            if hand.name == *name {
                return Ok(hand);
            }
            found(kept, docs, encoding, name)
        }
        None => found(kept, docs, encoding, name),
    }
}

// Where a byte stands, told from the front of its line where that is near, else by the walk, so that all bytes of a long line cost one pass.
fn pos_of(
    walk: &mut Walk<'_>,
    text: &str,
    lines: &LineTable,
    encoding: Encoding,
    offset: u32,
) -> Pos
    requires walk { walk.old.text ≡ text.now }
    requires encoding { walk.old.encoding ≡ encoding }
    requires lines { lines.now ≡ line_starts text.now }
    requires short { length text.now ≤ 4290772992 }
    requires within { offset ≤ length text.now }
    ensures pos { result ≡ pos_at text.now offset walk.old.encoding }
    ensures same { walk.new ≡ walk.old }
{
    let line = lines.line(offset);
    let front = lines.offset(text, Pos { line, character: 0 }, encoding);
    if offset.saturating_sub(front) <= NEAR {
        return lines.pos(text, offset, encoding);
    }
    walk.pos(offset)
}

// Where the token with this number begins and ends.
#[tactic(auto, unfolding(crate::specs::Places::range_in))]
fn walked_to(
    walk: &mut Walk<'_>,
    text: &str,
    lexed: &LexedText,
    encoding: Encoding,
    at: u32,
) -> (Pos, Pos)
    requires lexed { IsLexed text.now lexed.now }
    requires short { length text.now ≤ 4290772992 }
    requires walk { walk.old.text ≡ text.now }
    requires encoding { walk.old.encoding ≡ encoding }
    ensures range { result ≡ spec.range_in text.now walk.old.encoding at }
    ensures same { walk.new ≡ walk.old }
{
    let (start, end) = place_of(text, lexed, at);
    let places = lexed.places.as_places();
    let first = pos_of(walk, text, &places.lines, encoding, start);
    let last = pos_of(walk, text, &places.lines, encoding, end);
    (first, last)
}

// A token of a file, with what is written beside its place.
fn in_file(
    docs: &Docs,
    encoding: Encoding,
    file: &mut Opened<'_>,
    kind: u8,
    name: Name,
    at: u32,
) -> Result<Located, AllocError>
    requires { IsOpened docs.now encoding file.old.path file.old }
    ensures located { IfOk result (λ l. l ≡ spec.at_path docs.now encoding kind name at file.old.path) }
    ensures same { file.new ≡ file.old }
{
    let uri = file.uri.share()?;
    let (start, end) = walked_to(&mut file.walk, file.text, &file.lexed, encoding, at);
    Ok(Located {
        uri,
        start,
        end,
        kind,
        name,
    })
}

#[tactic(auto, unfolding(crate::specs::Places::located))]
fn located(
    docs: &Docs,
    encoding: Encoding,
    hand: &mut AtHand<'_>,
    kind: u8,
    name: Name,
    tok: &TokId,
) -> Result<Option<Located>, AllocError>
    requires hand { IsAtHand docs.now encoding hand.old }
    requires name { hand.old.name ≡ tok.now.file }
    ensures located { IfOk result (λ l. l ≡ spec.located docs.now encoding kind name tok.now) }
    ensures same { hand.new ≡ hand.old }
{
    match &mut hand.file {
        Some(file) => {
            let shown = in_file(docs, encoding, file, kind, name, tok.at)?;
            Ok(Some(shown))
        }
        None => Ok(None),
    }
}

fn mention(
    alloc: Global,
    docs: &Docs,
    encoding: Encoding,
    hand: &mut AtHand<'_>,
    tok: &TokId,
) -> Result<Option<Located>, AllocError>
    requires hand { IsAtHand docs.now encoding hand.old }
    requires name { hand.old.name ≡ tok.now.file }
    ensures located { IfOk result (λ l. l ≡ spec.mention docs.now encoding tok.now) }
    ensures same { hand.new ≡ hand.old }
{
    let name = Name::from_str(alloc, "")?;
    located(docs, encoding, hand, 0, name, tok)
}

/// The places of some tokens, in their order. Each end costs two searches among the lines of its text, and a walk over 256 bytes at most; those that
/// stand further from the fronts of their lines cost one walk over their text, where they come one behind the other, by place.
pub(crate) fn mentions(
    kept: &Analysis,
    docs: &Docs,
    encoding: Encoding,
    toks: &[TokId],
) -> Result<Vec<Located>, AllocError>
    requires { HasLexed docs.now kept.now }
    ensures { IfOk result (λ out. out.items ≡ spec.gathered (spec.mention docs.now encoding) toks.now) }
{
    let mut out = Vec::new(kept.alloc);
    let mut hand = None;
    let mut rest = toks;
    'toks: while let Some((tok, behind)) = rest.split_first() {
        rest = behind;
        let mut here = turned_to(kept, docs, encoding, hand, &tok.file)?;
        let shown = mention(kept.alloc, docs, encoding, &mut here, tok)?;
        hand = Some(here);
        let Some(shown) = shown else {
            continue;
        };
        out.push(shown)?;
    }
    drop(hand);
    Ok(out)
}

fn symbol(
    docs: &Docs,
    encoding: Encoding,
    hand: &mut AtHand<'_>,
    symbol: &Symbol,
) -> Result<Option<Located>, AllocError>
    requires hand { IsAtHand docs.now encoding hand.old }
    requires name { hand.old.name ≡ symbol.now.tok.file }
    ensures located { IfOk result (λ l. l ≡ spec.symbol docs.now encoding symbol.now) }
    ensures same { hand.new ≡ hand.old }
{
    let name = symbol.name.share()?;
    let kind = symbol_number(symbol.kind);
    located(docs, encoding, hand, kind, name, &symbol.tok)
}

/// The places of some symbols, each with its name and kind, in their order, at the same cost.
pub(crate) fn all_symbols(
    kept: &Analysis,
    docs: &Docs,
    encoding: Encoding,
    symbols: &[Symbol],
) -> Result<Vec<Located>, AllocError>
    requires { HasLexed docs.now kept.now }
    ensures { IfOk result (λ out. out.items ≡ spec.gathered (spec.symbol docs.now encoding) symbols.now) }
{
    let mut out = Vec::new(kept.alloc);
    let mut hand = None;
    let mut rest = symbols;
    'symbols: while let Some((one, behind)) = rest.split_first() {
        rest = behind;
        let mut here = turned_to(kept, docs, encoding, hand, &one.tok.file)?;
        let shown = symbol(docs, encoding, &mut here, one)?;
        hand = Some(here);
        let Some(shown) = shown else {
            continue;
        };
        out.push(shown)?;
    }
    drop(hand);
    Ok(out)
}
