// The kinds of the tokens of a unit.
ghost use Rattle.std.specs.Prelude.{◌≡◌, ℕ, List, [], ◌∷◌, IfOk, OnOk, None, Some, map, bytes_eq, option_map, is_none, not, ◌||◌, if◌then◌else◌};
ghost use Rattle.std.specs.List.{find};
ghost use Rattle.c_parser.specs.Noted as noted;
ghost use Rattle.c_parser.specs.Tokens as spec;
ghost use Rattle.c_parser.specs.Words as words;

use crate::kinds::Kind;
use crate::names::NameSet;
use shared_text::Name;
use std::alloc::{AllocError, Global};
use std::collections::HashMap;
use tok_data::{OutToken, PpKind, is_keyword};

// What is written most stands first, since a look-up goes from the front on.
static WORDS: [(&str, Kind); 45] = [
    ("int", Kind::TypeWord),
    ("return", Kind::Return),
    ("if", Kind::If),
    ("const", Kind::Qualifier),
    ("char", Kind::TypeWord),
    ("unsigned", Kind::TypeWord),
    ("struct", Kind::Tag),
    ("void", Kind::TypeWord),
    ("else", Kind::Else),
    ("static", Kind::Static),
    ("for", Kind::For),
    ("case", Kind::Case),
    ("break", Kind::Break),
    ("long", Kind::TypeWord),
    ("sizeof", Kind::SizeOf),
    ("while", Kind::While),
    ("double", Kind::TypeWord),
    ("default", Kind::Default),
    ("switch", Kind::Switch),
    ("goto", Kind::Goto),
    ("short", Kind::TypeWord),
    ("continue", Kind::Continue),
    ("enum", Kind::Enum),
    ("do", Kind::Do),
    ("extern", Kind::Storage),
    ("union", Kind::Tag),
    ("typedef", Kind::Typedef),
    ("float", Kind::TypeWord),
    ("signed", Kind::TypeWord),
    ("_Bool", Kind::TypeWord),
    ("inline", Kind::Storage),
    ("_Alignof", Kind::AlignOf),
    ("restrict", Kind::Qualifier),
    ("volatile", Kind::Qualifier),
    ("_Complex", Kind::TypeWord),
    ("_Imaginary", Kind::TypeWord),
    ("_Generic", Kind::Generic),
    ("__offsetof", Kind::OffsetOf),
    ("_Atomic", Kind::Atomic),
    ("_Thread_local", Kind::Storage),
    ("auto", Kind::Storage),
    ("register", Kind::Storage),
    ("_Noreturn", Kind::Storage),
    ("_Static_assert", Kind::Assert),
    ("_Alignas", Kind::Align),
];

fn look_up(text: &str, table: &[(&str, Kind)]) -> Option<Kind>
    ensures { result ≡ option_map (λ e. e.1) (find (λ e. bytes_eq e.0.now text.now) table.now) }
{
    table.iter().find(|e| e.0 == text).map(|e| e.1)
}

#[tactic(auto, unfolding(crate::specs::Tokens::mark_of, crate::specs::Tokens::marks))]
fn short_mark(byte: u8) -> Kind
    ensures { result ≡ spec.mark_of (byte ∷ []) }
{
    match byte {
        b'(' => Kind::OpenParen,
        b')' => Kind::CloseParen,
        b';' => Kind::Semicolon,
        b',' => Kind::Comma,
        b'=' => Kind::Equals,
        b'{' => Kind::OpenBrace,
        b'}' => Kind::CloseBrace,
        b'*' => Kind::Star,
        b'.' => Kind::Dot,
        b'[' => Kind::OpenBracket,
        b']' => Kind::CloseBracket,
        b'&' => Kind::Ampersand,
        b'+' | b'-' => Kind::Sign,
        b'<' | b'>' => Kind::Relation,
        b'!' | b'~' => Kind::Complement,
        b'?' => Kind::Question,
        b':' => Kind::Colon,
        b'|' => Kind::Bar,
        b'/' | b'%' => Kind::Quotient,
        b'^' => Kind::Caret,
        _ => Kind::Other,
    }
}

#[tactic(auto, unfolding(crate::specs::Tokens::mark_of, crate::specs::Tokens::marks))]
fn double_mark(first: u8, second: u8) -> Kind
    ensures { result ≡ spec.mark_of (first ∷ second ∷ []) }
{
    match (first, second) {
        (b'-', b'>') => Kind::Member,
        (b'=', b'=') | (b'!', b'=') => Kind::Equality,
        (b'+', b'+') | (b'-', b'-') => Kind::Step,
        (b'&', b'&') => Kind::And,
        (b'|', b'|') => Kind::Or,
        (b'<', b'<') | (b'>', b'>') => Kind::Shift,
        (b'<', b'=') | (b'>', b'=') => Kind::Relation,
        (b'<', b':') => Kind::OpenBracket,
        (b':', b'>') => Kind::CloseBracket,
        (b'<', b'%') => Kind::OpenBrace,
        (b'%', b'>') => Kind::CloseBrace,
        (b'+' | b'-' | b'*' | b'/' | b'%' | b'&' | b'|' | b'^', b'=') => Kind::Assignment,
        _ => Kind::Other,
    }
}

#[tactic(auto, unfolding(crate::specs::Tokens::mark_of, crate::specs::Tokens::marks))]
fn triple_mark(first: u8, second: u8, third: u8) -> Kind
    ensures { result ≡ spec.mark_of (first ∷ second ∷ third ∷ []) }
{
    match (first, second, third) {
        (b'.', b'.', b'.') => Kind::Ellipsis,
        (b'<', b'<', b'=') | (b'>', b'>', b'=') => Kind::Assignment,
        _ => Kind::Other,
    }
}

// It looks at three bytes at most, and at none of a longer text.
#[tactic(auto, unfolding(crate::specs::Tokens::mark_of, crate::specs::Tokens::marks))]
fn mark_of(text: &str) -> Kind
    ensures { result ≡ spec.mark_of text.now }
{
    match text.as_bytes() {
        [byte] => short_mark(*byte),
        [first, second] => double_mark(*first, *second),
        [first, second, third] => triple_mark(*first, *second, *third),
        _ => Kind::Other,
    }
}

fn keyword_of(text: &str) -> Kind
    ensures { result ≡ spec.keyword_of text.now }
{
    match look_up(text, WORDS.as_slice()) {
        Some(kind) => kind,
        None => Kind::Other,
    }
}

// The number of this name, found at a constant cost.
#[tactic(auto, unfolding(crate::specs::Noted::number_in))]
fn number_in(numbers: &HashMap<Name, u32>, name: &Name) -> Option<u32>
    ensures { result ≡ noted.number_in numbers.now name.now }
{
    numbers.get(name).copied()
}

#[tactic(auto, unfolding(crate::specs::Noted::number_in))]
fn no_numbers(alloc: Global) -> HashMap<Name, u32>
    ensures { (text : List ℕ) → noted.number_in result text ≡ None }
{
    HashMap::new(alloc)
}

// Gives this name the number; its text is shared.
#[tactic(auto, unfolding(crate::specs::Noted::number_in))]
fn put(numbers: &mut HashMap<Name, u32>, name: &Name, number: u32) -> Result<(), AllocError>
    ensures { OnOk result ((t : List ℕ) → noted.number_in numbers.new t
        ≡ (if bytes_eq name.now t then Some number else noted.number_in numbers.old t)) }
{
    let key = name.share()?;
    numbers.insert(key, number).map_err(AllocError::from)?;
    Ok(())
}

// The typedef names with their numbers. Of more than 2^32 names the rest would take memory that isn't there.
fn typedefs_of(alloc: Global, names: &[Name]) -> Result<HashMap<Name, u32>, AllocError>
    ensures { IfOk result (λ map. (text : List ℕ) → noted.number_in map text ≡ spec.number_among names.now text) }
{
    let mut typedefs = no_numbers(alloc);
    let mut number = 0u32;
    let mut rest = names;
    'names: while let Some((name, behind)) = rest.split_first() {
        rest = behind;
        put(&mut typedefs, name, number)?;
        let Some(next) = number.checked_add(1) else {
            return Err(AllocError);
        };
        number = next;
    }
    Ok(typedefs)
}

#[tactic(auto, unfolding(crate::specs::Tokens::word_of))]
fn word_of(typedefs: &HashMap<Name, u32>, name: &Name) -> Kind
    ensures { result ≡ spec.word_of (noted.number_in typedefs.now name.now) name.now }
{
    let text = name.as_str();
    if is_keyword(text) {
        return keyword_of(text);
    }
    match number_in(typedefs, name) {
        Some(number) => Kind::TypeName(number),
        None => Kind::Identifier,
    }
}

fn kind_of(typedefs: &HashMap<Name, u32>, token: &OutToken) -> Kind
    ensures { result ≡ spec.kind_of (noted.number_in typedefs.now) token.now }
{
    match token.kind {
        PpKind::Ident => word_of(typedefs, &token.spelling),
        PpKind::Number => Kind::Constant,
        PpKind::Char => Kind::Constant,
        PpKind::Str => Kind::Text,
        PpKind::Header => Kind::Other,
        PpKind::Punct => mark_of(token.spelling.as_str()),
        PpKind::Stray => Kind::Other,
    }
}

fn kinds_by(
    alloc: Global,
    tokens: &[OutToken],
    typedefs: &HashMap<Name, u32>,
) -> Result<Vec<Kind>, AllocError>
    ensures { IfOk result (λ v. v.items ≡ map (spec.kind_of (noted.number_in typedefs.now)) tokens.now) }
{
    let mut out = Vec::with_capacity(alloc, tokens.len())?;
    for token in tokens {
        let kind = kind_of(typedefs, token);
        out.push(kind)?;
    }
    Ok(out)
}

pub(crate) fn kinds_of(
    alloc: Global,
    tokens: &[OutToken],
    names: &NameSet,
) -> Result<Vec<Kind>, AllocError>
    ensures { IfOk result (λ v. v.items ≡ spec.spelled_kinds names.now tokens.now) }
{
    let typedefs = typedefs_of(alloc, names.as_slice())?;
    let kinds = kinds_by(alloc, tokens, &typedefs)?;
    Ok(kinds)
}

fn is_word(kind: PpKind) -> bool
    ensures { result ≡ words.is_word kind }
{
    match kind {
        PpKind::Ident => true,
        PpKind::Number => false,
        PpKind::Char => false,
        PpKind::Str => false,
        PpKind::Header => false,
        PpKind::Punct => false,
        PpKind::Stray => false,
    }
}

// The number of each identifier: that of the first token that spells it. Looked up at a constant cost.
fn firsts_of(alloc: Global, tokens: &[OutToken]) -> Result<HashMap<Name, u32>, AllocError>
    ensures { IfOk result (λ map. (text : List ℕ) → noted.number_in map text ≡ words.first_among tokens.now text) }
{
    let mut firsts = no_numbers(alloc);
    let mut number = 0u32;
    let mut rest = tokens;
    'firsts: while let Some((token, behind)) = rest.split_first() {
        rest = behind;
        note_token(&mut firsts, token, number)?;
        let Some(next) = number.checked_add(1) else {
            return Err(AllocError);
        };
        number = next;
    }
    Ok(firsts)
}

// Gives this name the number, if it has none.
fn note(firsts: &mut HashMap<Name, u32>, name: &Name, number: u32) -> Result<(), AllocError>
    ensures { OnOk result ((t : List ℕ) → noted.number_in firsts.new t
        ≡ words.first_or (noted.number_in firsts.old t) (bytes_eq name.now t) number) }
{
    let known = number_in(firsts, name);
    let None = known else {
        return Ok(());
    };
    put(firsts, name, number)?;
    Ok(())
}

// The same where the token is an identifier.
fn note_token(
    firsts: &mut HashMap<Name, u32>,
    token: &OutToken,
    number: u32,
) -> Result<(), AllocError>
    ensures { OnOk result ((t : List ℕ) → noted.number_in firsts.new t
        ≡ words.first_or (noted.number_in firsts.old t) (words.spells token.now t) number) }
{
    if !is_word(token.kind) {
        return Ok(());
    }
    note(firsts, &token.spelling, number)?;
    Ok(())
}

// What each token is, with all identifiers as typedef names by their numbers.
pub(crate) fn words_of(alloc: Global, tokens: &[OutToken]) -> Result<Vec<Kind>, AllocError>
    ensures { IfOk result (λ v. v.items ≡ map (spec.kind_of (words.first_among tokens.now)) tokens.now) }
{
    let firsts = firsts_of(alloc, tokens)?;
    let kinds = kinds_by(alloc, tokens, &firsts)?;
    Ok(kinds)
}

fn is_hidden(typedefs: &HashMap<Name, u32>, token: &OutToken) -> bool
    ensures { result ≡ (not (words.is_word token.now.kind) || is_none (noted.number_in typedefs.now token.now.spelling)) }
{
    !is_word(token.kind) || number_in(typedefs, &token.spelling).is_none()
}

fn hidden_by(
    alloc: Global,
    tokens: &[OutToken],
    typedefs: &HashMap<Name, u32>,
) -> Result<Vec<bool>, AllocError>
    ensures { IfOk result (λ v. v.items ≡ map (λ t. not (words.is_word t.kind) || is_none (noted.number_in typedefs.now t.spelling)) tokens.now) }
{
    let mut out = Vec::with_capacity(alloc, tokens.len())?;
    for token in tokens {
        let hidden = is_hidden(typedefs, token);
        out.push(hidden)?;
    }
    Ok(out)
}

// Of each token, whether its text is none of these names.
pub(crate) fn hidden_of(
    alloc: Global,
    tokens: &[OutToken],
    names: &NameSet,
) -> Result<Vec<bool>, AllocError>
    ensures { IfOk result (λ v. v.items ≡ map (words.is_hidden names.now) tokens.now) }
{
    let typedefs = typedefs_of(alloc, names.as_slice())?;
    let hidden = hidden_by(alloc, tokens, &typedefs)?;
    Ok(hidden)
}
