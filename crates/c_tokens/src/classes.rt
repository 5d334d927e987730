// The lexical elements of ISO C11 6.4, by states and tables.
ghost use Rattle.std.specs.Prelude.{◌≡◌, ℕ, ◌+◌, ◌<◌, ◌≤◌, length, IsTrue};
ghost use Rattle.c_tokens.specs.Classes;
ghost use Rattle.c_tokens.specs.Logical;
ghost use Rattle.c_tokens.specs.Reading.{IsAfter, ahead};

use crate::logical::next_character;

/// A state in a piece whose members go on character by character. `Text` and `Escape` stand in a literal with this
/// quote, `HeaderFront` and `Header` in a header name with this closing delimiter.
#[derive(Clone, Copy, Drop)]
pub enum State {
    Blanks,
    Line,
    Block,
    Star,
    BlockEnd,
    Word,
    Digits,
    Exponent,
    Text(u8),
    Escape(u8),
    TextEnd,
    HeaderFront(u8),
    Header(u8),
    HeaderEnd,
}

/// What a run of characters from a place on comes to: their number, where they end and the last state.
#[derive(Clone, Copy, Drop)]
pub struct Reach {
    pub count: usize,
    pub end: usize,
    pub state: State,
}

pub fn is_line_end(c: u8) -> bool
    ensures { result ≡ Logical.is_line_end c }
{
    c == b'\n' || c == b'\r'
}

pub fn is_blank(c: u8) -> bool
    ensures { result ≡ Classes.is_blank c }
{
    c == b' ' || c == b'\t' || c == 11 || c == 12
}

pub fn is_digit(c: u8) -> bool
    ensures { result ≡ Classes.is_digit c }
{
    b'0' <= c && c <= b'9'
}

pub fn is_nondigit(c: u8) -> bool
    ensures { result ≡ Classes.is_nondigit c }
{
    (b'A' <= c && c <= b'Z') || (b'a' <= c && c <= b'z') || c == b'_'
}

pub fn is_word_part(c: u8) -> bool
    ensures { result ≡ Classes.is_word_part c }
{
    is_nondigit(c) || is_digit(c)
}

fn is_exponent(c: u8) -> bool
    ensures { result ≡ Classes.is_exponent c }
{
    c == b'e' || c == b'E' || c == b'p' || c == b'P'
}

fn is_sign(c: u8) -> bool
    ensures { result ≡ Classes.is_sign c }
{
    c == b'+' || c == b'-'
}

fn is_number_part(c: u8) -> bool
    ensures { result ≡ Classes.is_number_part c }
{
    is_word_part(c) || c == b'.'
}

#[inline(always)]
#[tactic(auto, unfolding(crate::specs::Classes::next_state))]
fn next_state(state: State, c: u8) -> Option<State>
    ensures { result ≡ Classes.next_state state c }
{
    match state {
        State::Blanks => if is_blank(c) {
            Some(State::Blanks)
        } else {
            None
        },
        State::Line => if is_line_end(c) {
            None
        } else {
            Some(State::Line)
        },
        State::Block => if c == b'*' {
            Some(State::Star)
        } else {
            Some(State::Block)
        },
        State::Star => {
            if c == b'/' {
                Some(State::BlockEnd)
            } else if c == b'*' {
                Some(State::Star)
            } else {
                Some(State::Block)
            }
        }
        State::Word => if is_word_part(c) {
            Some(State::Word)
        } else {
            None
        },
        State::Digits => {
            if is_exponent(c) {
                Some(State::Exponent)
            } else if is_number_part(c) {
                Some(State::Digits)
            } else {
                None
            }
        }
        State::Exponent => {
            if is_exponent(c) {
                Some(State::Exponent)
            } else if is_number_part(c) || is_sign(c) {
                Some(State::Digits)
            } else {
                None
            }
        }
        State::Text(quote) => {
            if is_line_end(c) {
                None
            } else if c == quote {
                Some(State::TextEnd)
            } else if c == b'\\' {
                Some(State::Escape(quote))
            } else {
                Some(State::Text(quote))
            }
        }
        State::Escape(quote) => if is_line_end(c) {
            None
        } else {
            Some(State::Text(quote))
        },
        State::HeaderFront(closing) => {
            if is_line_end(c) || c == closing {
                None
            } else {
                Some(State::Header(closing))
            }
        }
        State::Header(closing) => {
            if is_line_end(c) {
                None
            } else if c == closing {
                Some(State::HeaderEnd)
            } else {
                Some(State::Header(closing))
            }
        }
        State::BlockEnd => None,
        State::TextEnd => None,
        State::HeaderEnd => None,
    }
}

/// The longest run of characters from a place and a state on. Each caller has a loop of its own, for its state.
#[inline(always)]
pub fn run(text: &[u8], at: usize, from: State) -> Reach
    requires { at ≤ length text.now }
    ensures count { result.count ≡ Classes.run (ahead text.now at) from }
    ensures state { result.state ≡ Classes.last_state (ahead text.now at) from }
    ensures after { IsAfter text.now at result.count result.end }
{
    let mut state = from;
    let mut count = 0;
    let mut end = at;
    while let Some(read) = next_character(text, end) {
        let Some(next) = next_state(state, read.code) else {
            return Reach { count, end, state }
        };
        state = next;
        count += 1;
        end = read.end;
    }
    Reach { count, end, state }
}

fn is_single(a: u8) -> bool
    ensures { result ≡ Classes.is_single a }
{
    match a {
        b'['
        | b']'
        | b'('
        | b')'
        | b'{'
        | b'}'
        | b'.'
        | b'&'
        | b'*'
        | b'+'
        | b'-'
        | b'~'
        | b'!'
        | b'/'
        | b'%'
        | b'<'
        | b'>'
        | b'^'
        | b'|'
        | b'?'
        | b':'
        | b';'
        | b'='
        | b','
        | b'#' => true,
        _ => false,
    }
}

#[tactic(auto, unfolding(crate::specs::Classes::is_pair))]
fn is_pair(a: u8, b: u8) -> bool
    ensures { result ≡ Classes.is_pair a b }
{
    match a {
        b'-' => b == b'>' || b == b'-' || b == b'=',
        b'+' => b == b'+' || b == b'=',
        b'<' => b == b'<' || b == b'=' || b == b':' || b == b'%',
        b'>' => b == b'>' || b == b'=',
        b'=' => b == b'=',
        b'!' => b == b'=',
        b'&' => b == b'&' || b == b'=',
        b'|' => b == b'|' || b == b'=',
        b'*' => b == b'=',
        b'/' => b == b'=',
        b'%' => b == b'=' || b == b'>' || b == b':',
        b'^' => b == b'=',
        b'#' => b == b'#',
        b':' => b == b'>',
        _ => false,
    }
}

fn is_triple(a: u8, b: u8, c: u8) -> bool
    ensures { result ≡ Classes.is_triple a b c }
{
    (a == b'.' && b == b'.' && c == b'.')
        || (a == b'<' && b == b'<' && c == b'=')
        || (a == b'>' && b == b'>' && c == b'=')
}

fn is_quadruple(a: u8, b: u8, c: u8, d: u8) -> bool
    ensures { result ≡ Classes.is_quadruple a b c d }
{
    a == b'%' && b == b':' && c == b'%' && d == b':'
}

/// Whether a character is a punctuator, and no longer one begins with it.
#[tactic(auto, unfolding(crate::specs::Classes::longest_of_four, crate::specs::Classes::is_pair))]
pub fn is_lone(a: u8) -> bool
    ensures { IsTrue result → (b c d : ℕ) → Classes.longest_of_four a b c d ≡ 1 }
{
    match a {
        b'(' => true,
        b')' => true,
        b'[' => true,
        b']' => true,
        b'{' => true,
        b'}' => true,
        b';' => true,
        b',' => true,
        b'~' => true,
        b'?' => true,
        _ => false,
    }
}

/// The length of the longest punctuator that four characters begin with, and 0 where there is none.
#[tactic(auto, unfolding(crate::specs::Classes::longest_of_four, crate::specs::Classes::is_pair))]
pub fn longest_of_four(a: u8, b: u8, c: u8, d: u8) -> usize
    ensures value { result ≡ Classes.longest_of_four a b c d }
    ensures small { result ≤ 4 }
    ensures first { 0 < result → 0 < a }
    ensures second { 1 < result → 0 < b }
    ensures third { 2 < result → 0 < c }
    ensures fourth { 3 < result → 0 < d }
{
    if is_quadruple(a, b, c, d) {
        4
    } else if is_triple(a, b, c) {
        3
    } else if is_pair(a, b) {
        2
    } else if is_single(a) {
        1
    } else {
        0
    }
}
