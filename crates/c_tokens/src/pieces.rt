// The longest piece at a place of a text: a preprocessing token, a comment or white space (ISO C11 6.4).
ghost use Rattle.std.specs.Prelude.{◌≡◌, ℕ, None, ◌+◌, ◌<◌, ◌≤◌, length, drop, MatchOption, nat_lt, ◌&&◌};
ghost use Rattle.c_tokens.specs.Pieces;
ghost use Rattle.c_tokens.specs.Reading.{ahead, IsAfter, IsLook, IsOpening, IsFront};

use crate::classes::{
    Reach, State, is_blank, is_digit, is_line_end, is_lone, is_nondigit, longest_of_four, run,
};
use crate::logical::{next_marked, stands_alone};
use tok_data::PpKind;

/// The class of a piece.
#[derive(Clone, Copy, Drop)]
pub enum Class {
    Blank,
    LineEnd,
    Comment,
    OpenComment,
    Token(PpKind),
    OpenLiteral(PpKind),
}

/// What of its logical line stands before a piece: no token, a `#` alone, `#` and `include`, or anything else.
#[derive(Clone, Copy, Drop)]
pub enum Context {
    Fresh,
    Hash,
    Include,
    Later,
}

/// The piece at a place: its class, the number of its logical characters, and where it ends in the text.
#[derive(Clone, Copy, Drop)]
pub struct Front {
    pub class: Class,
    pub count: usize,
    pub end: usize,
}

/// The logical character at or behind a place: its first byte and its end. At the end of the text it is 0 and ends
/// where it begins.
#[derive(Clone, Copy, Drop)]
pub struct Next {
    pub code: u8,
    pub end: usize,
}

// The quote that opens a literal, with the number of characters before it.
#[derive(Clone, Copy, Drop)]
struct Opening {
    prefix: usize,
    quote: u8,
    end: usize,
}

#[inline(always)]
pub fn look_ahead(text: &[u8], at: usize) -> Next
    requires { at ≤ length text.now }
    ensures { IsLook text.now at result }
{
    if stands_alone(text, at) {
        return Next {
            code: text[at],
            end: at + 1,
        };
    }
    look_marked(text, at)
}

// The same, unit by unit.
fn look_marked(text: &[u8], at: usize) -> Next
    requires { at ≤ length text.now }
    ensures { IsLook text.now at result }
{
    match next_marked(text, at) {
        Some(read) => Next {
            code: read.code,
            end: read.end,
        },
        None => Next { code: 0, end: at },
    }
}

fn is_closed(state: State) -> bool
    ensures { result ≡ Pieces.is_closed state }
{
    match state {
        State::BlockEnd => true,
        State::TextEnd => true,
        State::HeaderEnd => true,
        _ => false,
    }
}

fn is_quote(c: u8) -> bool
    ensures { result ≡ Pieces.is_quote c }
{
    c == b'"' || c == b'\''
}

fn is_prefix(c: u8) -> bool
    ensures { result ≡ Pieces.is_prefix c }
{
    c == b'L' || c == b'u' || c == b'U'
}

fn literal_kind(quote: u8) -> PpKind
    ensures { result ≡ Pieces.literal_kind quote }
{
    if quote == b'\'' {
        PpKind::Char
    } else {
        PpKind::Str
    }
}

#[tactic(auto, unfolding(crate::specs::Pieces::literal_prefix))]
fn opening_quote(text: &[u8], at: usize) -> Option<Opening>
    requires { at ≤ length text.now }
    ensures { MatchOption result (Pieces.literal_prefix (ahead text.now at) ≡ None) (IsOpening text.now at) }
{
    let first = look_ahead(text, at);
    if is_quote(first.code) {
        return Some(Opening {
            prefix: 0,
            quote: first.code,
            end: first.end,
        });
    }
    if is_prefix(first.code) {
        let second = look_ahead(text, first.end);
        if is_quote(second.code) {
            return Some(Opening {
                prefix: 1,
                quote: second.code,
                end: second.end,
            });
        }
        if first.code == b'u' && second.code == b'8' {
            let third = look_ahead(text, second.end);
            if third.code == b'"' {
                return Some(Opening {
                    prefix: 2,
                    quote: third.code,
                    end: third.end,
                });
            }
        }
    }
    None
}

#[tactic(auto, unfolding(crate::specs::Pieces::literal_at))]
fn literal(text: &[u8], at: usize, opening: Opening) -> Front
    requires { IsOpening text.now at opening }
    ensures { IsFront text.now at (Pieces.literal_at (ahead text.now at) opening.prefix) result }
{
    let body = run(text, opening.end, State::Text(opening.quote));
    let kind = literal_kind(opening.quote);
    let class = if is_closed(body.state) {
        Class::Token(kind)
    } else {
        Class::OpenLiteral(kind)
    };
    Front {
        class,
        count: opening.prefix + 1 + body.count,
        end: body.end,
    }
}

#[tactic(auto, unfolding(crate::specs::Pieces::punctuator_or_stray))]
fn punctuator_or_stray(text: &[u8], at: usize) -> Front
    requires place { at ≤ length text.now }
    requires some { 0 < length (ahead text.now at) }
    ensures { IsFront text.now at (Pieces.punctuator_or_stray (ahead text.now at)) result }
{
    let first = look_ahead(text, at);
    let kind = Class::Token(PpKind::Punct);
    if is_lone(first.code) {
        return Front {
            class: kind,
            count: 1,
            end: first.end,
        };
    }
    let second = look_ahead(text, first.end);
    let third = look_ahead(text, second.end);
    let fourth = look_ahead(text, third.end);
    match longest_of_four(first.code, second.code, third.code, fourth.code) {
        4 => Front {
            class: kind,
            count: 4,
            end: fourth.end,
        },
        3 => Front {
            class: kind,
            count: 3,
            end: third.end,
        },
        2 => Front {
            class: kind,
            count: 2,
            end: second.end,
        },
        1 => Front {
            class: kind,
            count: 1,
            end: first.end,
        },
        _ => Front {
            class: Class::Token(PpKind::Stray),
            count: 1,
            end: first.end,
        },
    }
}

fn as_token(kind: PpKind, reach: Reach) -> Front
    ensures { result ≡ record { class = Class.Token kind; count = reach.count; end = reach.end } }
{
    Front {
        class: Class::Token(kind),
        count: reach.count,
        end: reach.end,
    }
}

#[tactic(auto, unfolding(crate::specs::Pieces::plain_front))]
fn plain_front(text: &[u8], at: usize) -> Front
    requires place { at ≤ length text.now }
    requires some { 0 < length (ahead text.now at) }
    ensures { IsFront text.now at (Pieces.plain_front (ahead text.now at)) result }
{
    let first = look_ahead(text, at);
    if is_nondigit(first.code) {
        return as_token(PpKind::Ident, run(text, at, State::Word));
    }
    if is_digit(first.code) || (first.code == b'.' && is_digit(look_ahead(text, first.end).code)) {
        return as_token(PpKind::Number, run(text, at, State::Digits));
    }
    punctuator_or_stray(text, at)
}

#[tactic(auto, unfolding(crate::specs::Pieces::token_front))]
fn token_front(text: &[u8], at: usize) -> Front
    requires place { at ≤ length text.now }
    requires some { 0 < length (ahead text.now at) }
    ensures { IsFront text.now at (Pieces.token_front (ahead text.now at)) result }
{
    match opening_quote(text, at) {
        Some(opening) => literal(text, at, opening),
        None => plain_front(text, at),
    }
}

#[tactic(auto, unfolding(crate::specs::Pieces::header_size))]
fn header(text: &[u8], at: usize) -> Option<Front>
    requires { at ≤ length text.now }
    ensures { MatchOption result (Pieces.header_size (ahead text.now at) ≡ 0) (λ f. (0 < f.count) × IsFront text.now at (Pieces.header_front (ahead text.now at)) f) }
{
    let first = look_ahead(text, at);
    let closing = match first.code {
        b'<' => b'>',
        b'"' => b'"',
        _ => return None,
    };
    let body = run(text, first.end, State::HeaderFront(closing));
    if is_closed(body.state) {
        Some(Front {
            class: Class::Token(PpKind::Header),
            count: 1 + body.count,
            end: body.end,
        })
    } else {
        None
    }
}

fn is_longer_token(front: Front, count: usize) -> bool
    ensures { result ≡ (Pieces.is_token front.class && nat_lt count front.count) }
{
    match front.class {
        Class::Token(_) => count < front.count,
        _ => false,
    }
}

#[tactic(auto, unfolding(crate::specs::Pieces::header_or_token))]
fn header_or_token(text: &[u8], at: usize) -> Front
    requires place { at ≤ length text.now }
    requires some { 0 < length (ahead text.now at) }
    ensures { IsFront text.now at (Pieces.header_or_token (ahead text.now at)) result }
{
    let token = token_front(text, at);
    match header(text, at) {
        Some(header) => if is_longer_token(token, header.count) {
            token
        } else {
            header
        },
        None => token,
    }
}

#[tactic(auto, unfolding(crate::specs::Pieces::block_comment))]
fn block_comment(text: &[u8], at: usize, behind: usize) -> Front
    requires { IsAfter text.now at 2 behind }
    ensures { IsFront text.now at (Pieces.block_comment (ahead text.now at)) result }
{
    let body = run(text, behind, State::Block);
    let class = if is_closed(body.state) {
        Class::Comment
    } else {
        Class::OpenComment
    };
    Front {
        class,
        count: 2 + body.count,
        end: body.end,
    }
}

fn as_space(class: Class, reach: Reach) -> Front
    ensures { result ≡ record { class = class; count = reach.count; end = reach.end } }
{
    Front {
        class,
        count: reach.count,
        end: reach.end,
    }
}

/// The longest piece at a place, where a character stands at or behind it.
#[tactic(auto, unfolding(crate::specs::Pieces::first_front))]
pub fn first_front(text: &[u8], at: usize, context: Context) -> Front
    requires place { at ≤ length text.now }
    requires some { 0 < length (ahead text.now at) }
    ensures { IsFront text.now at (Pieces.first_front context (ahead text.now at)) result }
{
    let first = look_ahead(text, at);
    if is_line_end(first.code) {
        return Front {
            class: Class::LineEnd,
            count: 1,
            end: first.end,
        };
    }
    if is_blank(first.code) {
        return as_space(Class::Blank, run(text, at, State::Blanks));
    }
    if first.code == b'/' {
        let second = look_ahead(text, first.end);
        if second.code == b'/' {
            return as_space(Class::Comment, run(text, at, State::Line));
        }
        if second.code == b'*' {
            return block_comment(text, at, second.end);
        }
    }
    match context {
        Context::Include => header_or_token(text, at),
        _ => token_front(text, at),
    }
}
