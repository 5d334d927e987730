// A text is read piece by piece; each token gets its spelling, its place and its faults.
ghost use Rattle.std.specs.Prelude.{◌≡◌, ℕ, [], ◌+◌, ◌<◌, ◌≤◌, ◌^◌, ◌++◌, length, take, Some, IfSome, MatchOption, IfOk, OnOk, option_to_list, IsCharBoundary, string_bytes, vec_len};
ghost use Rattle.std.specs.List.{flat_map};
ghost use Rattle.c_tokens.specs.Finding.{read_piece, IsPiece, IsNextPiece, IsWithin};
ghost use Rattle.c_tokens.specs.Laws.{AreNumbered, Grows, InOrder, ranges};
ghost use Rattle.c_tokens.specs.Lexed.{is_fresh, token_by, place_by, token_of, place_of, fault_as, faults_from, pieces_of};
ghost use Rattle.c_tokens.specs.Logical.{end_of};
ghost use Rattle.c_tokens.specs.Pieces;
ghost use Rattle.c_tokens.specs.Reading.{rest, read_character, read_spelling, IsAfter, IsCharacter, IsNext, IsFront};

use crate::logical::{Read, Unit, next_character};
use crate::names::Names;
use crate::pieces::{Class, Context, Front, first_front, look_ahead};
use crate::types::{Faults, LexFault, Lexed, TokenPlaces, Tokens};
use shared_text::Name;
use std::alloc::{AllocError, Global};
use tok_data::{PpKind, PpToken};

// What was found so far.
#[derive(Drop)]
struct Found {
    tokens: Vec<PpToken>,
    places: Vec<(u32, u32)>,
    faults: Vec<LexFault>,
}

// A piece of a text: where it begins, with what was removed before it and without, and what stands before it.
#[derive(Clone, Copy, Drop)]
struct Piece {
    at: usize,
    own: usize,
    front: Front,
    context: Context,
    spaced: bool,
}

// U+FEFF in UTF-8.
const FRONT_MARK: [u8; 3] = [0xEF, 0xBB, 0xBF];

// Adds the spelling of a character.
fn push_character(out: &mut String, text: &str, read: Read) -> Result<(), AllocError>
    requires character { IsCharacter read.unit read.code }
    requires order { read.own ≤ read.end }
    requires own { IsCharBoundary text.now read.own }
    requires end { IsCharBoundary text.now read.end }
    ensures { OnOk result (string_bytes out.new ≡ string_bytes out.old ++ read_spelling read.unit text.now read.own read.end) }
{
    match read.unit {
        Unit::Plain(_) => out.push_str(&text[read.own..read.end]),
        _ => out.push(char::from(read.code)),
    }
}

// The logical characters from a place on, as many as asked for, joined.
fn spelled(alloc: Global, text: &str, at: usize, count: usize) -> Result<String, AllocError>
    requires boundary { IsCharBoundary text.now at }
    requires enough { count ≤ length (rest text.now at) }
    ensures { IfOk result (λ word. string_bytes word ≡ Pieces.spelling (take count (rest text.now at))) }
{
    let mut out = String::with_capacity(alloc, count)?;
    let mut place = at;
    let mut left = count;
    while 0 < left {
        let Some(read) = next_character(text.as_bytes(), place) else {
            return Ok(out)
        };
        push_character(&mut out, text, read)?;
        place = read.end;
        left -= 1;
    }
    Ok(out)
}

// The spelling of a piece. Where it takes as many bytes as it has characters nothing was removed in it, and that is the
// text itself.
fn name_of(alloc: Global, names: &mut Names, text: &str, piece: Piece) -> Result<Name, AllocError>
    requires piece { IsPiece text.now piece }
    requires boundary { IsCharBoundary text.now piece.at }
    ensures { IfOk result (λ name. name ≡ Pieces.spelling (read_piece text.now piece).characters) }
{
    if piece.front.end - piece.own == piece.front.count {
        return names.name(alloc, &text[piece.own..piece.front.end]);
    }
    let word = spelled(alloc, text, piece.at, piece.front.count)?;
    names.name(alloc, word.as_str())
}

// A text begins with U+FEFF, which is then white space.
fn is_front_mark(text: &[u8], at: usize, read: Read) -> bool
    requires { IsNext text.now at read }
    ensures { result ≡ Pieces.is_front_mark (read_character text.now at read) }
{
    match read.unit {
        Unit::Plain(_) => read.own == 0 && &text[read.own..read.end] == FRONT_MARK.as_slice(),
        _ => false,
    }
}

fn front_of(text: &[u8], at: usize, read: Read, context: Context) -> Front
    requires { IsNext text.now at read }
    ensures { IsFront text.now at (Pieces.front_of context (read_character text.now at read) (rest text.now read.end)) result }
{
    if is_front_mark(text, at, read) {
        return Front {
            class: Class::Blank,
            count: 1,
            end: read.end,
        };
    }
    first_front(text, at, context)
}

#[tactic(auto, unfolding(crate::specs::Pieces::after_token))]
fn after_token(context: Context, word: &str) -> Context
    ensures { result ≡ Pieces.after_token context word.now }
{
    match context {
        Context::Fresh => if word == "#" || word == "%:" {
            Context::Hash
        } else {
            Context::Later
        },
        Context::Hash => if word == "include" {
            Context::Include
        } else {
            Context::Later
        },
        _ => Context::Later,
    }
}

fn is_fresh(context: Context) -> bool
    ensures { result ≡ is_fresh context }
{
    match context {
        Context::Fresh => true,
        _ => false,
    }
}

// Where the first two characters from a place on end.
fn end_of_two(text: &[u8], at: usize) -> usize
    requires place { at ≤ length text.now }
    requires two { 2 ≤ length (rest text.now at) }
    ensures end { result ≡ end_of at (take 2 (rest text.now at)) }
    ensures after { IsAfter text.now at 2 result }
{
    let first = look_ahead(text, at);
    look_ahead(text, first.end).end
}

// The fault of a piece, where the next token has a number.
fn fault_of(text: &[u8], piece: Piece, number: u32) -> Option<LexFault>
    requires piece { IsPiece text.now piece }
    requires small { length text.now < 2 ^ 32 }
    ensures value { let p = read_piece text.now piece in option_to_list result ≡ fault_as p.class p.characters number }
    ensures within { IfSome result (λ f. IsWithin text.now piece f.start f.end) }
{
    let start = piece.own as u32;
    let end = piece.front.end as u32;
    match piece.front.class {
        Class::OpenComment => {
            let end = end_of_two(text, piece.at) as u32;
            Some(LexFault {
                rule: 101,
                start,
                end,
                tok: None,
            })
        }
        Class::OpenLiteral(_) => Some(LexFault {
            rule: 102,
            start,
            end,
            tok: Some(number),
        }),
        Class::Token(PpKind::Stray) => Some(LexFault {
            rule: 103,
            start,
            end,
            tok: Some(number),
        }),
        _ => None,
    }
}

fn add_fault(found: &mut Found, text: &[u8], piece: Piece) -> Result<(), AllocError>
    requires piece { IsPiece text.now piece }
    requires small { length text.now < 2 ^ 32 }
    requires numbered { vec_len found.old.tokens < 2 ^ 32 }
    ensures tokens { found.new.tokens ≡ found.old.tokens }
    ensures places { found.new.places ≡ found.old.places }
    ensures faults { OnOk result (let p = read_piece text.now piece in found.new.faults.items ≡ found.old.faults.items ++ fault_as p.class p.characters (vec_len found.old.tokens)) }
    ensures fault_order { OnOk result (Grows text.now piece.at piece.front.end (ranges found.old.faults.items) (ranges found.new.faults.items)) }
{
    let number = found.tokens.len() as u32;
    let Some(fault) = fault_of(text, piece, number) else {
        return Ok(())
    };
    found.faults.push(fault)?;
    Ok(())
}

// Adds the token of a piece, and gives the context behind it.
fn add_token(
    alloc: Global,
    found: &mut Found,
    names: &mut Names,
    text: &str,
    piece: Piece,
    kind: PpKind,
) -> Result<Context, AllocError>
    requires piece { IsPiece text.now piece }
    requires small { length text.now < 2 ^ 32 }
    requires numbered { vec_len found.old.tokens < 2 ^ 32 }
    requires boundary { IsCharBoundary text.now piece.at }
    ensures context { IfOk result (λ context. context ≡ Pieces.after_token piece.context (Pieces.spelling (read_piece text.now piece).characters)) }
    ensures tokens { OnOk result (found.new.tokens.items ≡ found.old.tokens.items ++ token_by (Some kind) (read_piece text.now piece)) }
    ensures places { OnOk result (found.new.places.items ≡ found.old.places.items ++ place_by (Some kind) (read_piece text.now piece)) }
    ensures place_order { OnOk result (Grows text.now piece.at piece.front.end found.old.places.items found.new.places.items) }
    ensures faults { found.new.faults ≡ found.old.faults }
{
    let spelling = name_of(alloc, names, text, piece)?;
    let context = after_token(piece.context, spelling.as_str());
    found.tokens.push(PpToken {
        kind,
        spelling,
        space_before: piece.spaced,
        line_start: is_fresh(piece.context),
    })?;
    found
        .places
        .push((piece.own as u32, piece.front.end as u32))?;
    Ok(context)
}

// Adds what a piece gives, and answers the context behind it.
fn add_piece(
    alloc: Global,
    found: &mut Found,
    names: &mut Names,
    text: &str,
    piece: Piece,
) -> Result<Context, AllocError>
    requires piece { IsPiece text.now piece }
    requires small { length text.now < 2 ^ 32 }
    requires numbered { vec_len found.old.tokens < 2 ^ 32 }
    requires boundary { IsCharBoundary text.now piece.at }
    ensures context { IfOk result (λ context. let p = read_piece text.now piece in context ≡ Pieces.after_piece p.class p.context (Pieces.spelling p.characters)) }
    ensures tokens { OnOk result (found.new.tokens.items ≡ found.old.tokens.items ++ token_of (read_piece text.now piece)) }
    ensures places { OnOk result (found.new.places.items ≡ found.old.places.items ++ place_of (read_piece text.now piece)) }
    ensures faults { OnOk result (let p = read_piece text.now piece in found.new.faults.items ≡ found.old.faults.items ++ fault_as p.class p.characters (vec_len found.old.tokens)) }
    ensures place_order { OnOk result (Grows text.now piece.at piece.front.end found.old.places.items found.new.places.items) }
    ensures fault_order { OnOk result (Grows text.now piece.at piece.front.end (ranges found.old.faults.items) (ranges found.new.faults.items)) }
{
    add_fault(found, text.as_bytes(), piece)?;
    match piece.front.class {
        Class::Token(kind) => add_token(alloc, found, names, text, piece, kind),
        Class::OpenLiteral(kind) => {
            add_token(alloc, found, names, text, piece, kind)?;
            Ok(Context::Later)
        }
        Class::LineEnd => Ok(Context::Fresh),
        _ => Ok(piece.context),
    }
}

fn is_space(class: Class) -> bool
    ensures { result ≡ Pieces.is_space class }
{
    match class {
        Class::Token(_) => false,
        Class::OpenLiteral(_) => false,
        _ => true,
    }
}

// The piece at a place, or none at the end of the text.
fn next_piece(text: &[u8], at: usize, context: Context, spaced: bool) -> Option<Piece>
    requires { at ≤ length text.now }
    ensures { MatchOption result (rest text.now at ≡ []) (IsNextPiece text.now at context spaced) }
{
    let read = next_character(text, at)?;
    let front = front_of(text, at, read, context);
    Some(Piece {
        at,
        own: read.own,
        front,
        context,
        spaced,
    })
}

/// The preprocessing tokens of a text with the place and the faults of each (ISO C11 5.1.1.2, phases 1 to 3, and
/// 6.4). Places are ranges in bytes of the text: each begins and ends where a code point does, none is empty, and they
/// stand in order, as do the faults' ranges. Fails only for want of memory.
pub fn lex(alloc: Global, text: &str) -> Result<Lexed, AllocError>
    requires { length text.now ≤ 4290772992 }
    ensures tokens { IfOk result (λ lexed. lexed.tokens ≡ flat_map token_of (pieces_of text.now)) }
    ensures places { IfOk result (λ lexed. lexed.places ≡ flat_map place_of (pieces_of text.now)) }
    ensures faults { IfOk result (λ lexed. lexed.faults ≡ faults_from 0 (pieces_of text.now)) }
    ensures paired { IfOk result (λ lexed. length lexed.tokens ≡ length lexed.places) }
    ensures few { IfOk result (λ lexed. length lexed.tokens ≤ length text.now) }
    ensures numbered { IfOk result (λ lexed. AreNumbered (length lexed.tokens) lexed.faults) }
    ensures place_order { IfOk result (λ lexed. InOrder text.now 0 (length text.now) lexed.places) }
    ensures fault_order { IfOk result (λ lexed. InOrder text.now 0 (length text.now) (ranges lexed.faults)) }
{
    let mut found = Found {
        tokens: Vec::new(alloc),
        places: Vec::new(alloc),
        faults: Vec::new(alloc),
    };
    let mut names = Names::new(alloc, text.len())?;
    let mut at = 0;
    let mut context = Context::Fresh;
    let mut spaced = false;
    while let Some(piece) = next_piece(text.as_bytes(), at, context, spaced) {
        context = add_piece(alloc, &mut found, &mut names, text, piece)?;
        spaced = is_space(piece.front.class);
        at = piece.front.end;
    }
    Ok(Lexed {
        tokens: Tokens::from_vec(found.tokens),
        places: TokenPlaces::from_vec(found.places),
        faults: Faults::from_vec(found.faults),
    })
}
