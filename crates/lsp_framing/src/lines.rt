// One line of a header part, and what it states.
ghost use Rattle.std.specs.Prelude.{◌<◌, ◌==◌, position, ◌≡◌, ◌+◌, ◌≤◌, min, length, IfSome, IfOk, option_map, true};
ghost use Rattle.std.specs.Char.{is_ascii_digit};
ghost use Rattle.std.specs.Int.{is_in_range};
ghost use Rattle.std.specs.List.{list_all, prefix_len, suffix_len};
ghost use Rattle.std.specs.Str.Parse.{digits_value};
ghost use Rattle.lsp_framing.specs.Scanned.{line_ended};
ghost use Rattle.lsp_framing.specs.Lines.{is_name, is_unbroken, is_blank, trimmed, is_number, with_length, with_field, with_line, longest_content};

use crate::FrameKind;

/// The most bytes that a content has.
const LONGEST_CONTENT: u32 = 16_777_216;

/// The line that `byte` ends, behind what stands of the line so far.
#[tactic(auto, unfolding(crate::specs::Scanned::line_ended))]
pub fn line_ended(so_far: &[u8], byte: u8) -> Option<&[u8]>
    ensures { option_map (λ line. line.now) result ≡ line_ended so_far.now byte }
{
    match so_far.split_last() {
        Some((13, line)) if byte == b'\n' => Some(line),
        _ => None,
    }
}

/// The length that a header part states once this line is read too, or the line's fault. `stated` is the length that
/// was stated before.
#[tactic(auto, unfolding(crate::specs::Lines::with_line))]
pub fn with_line(stated: Option<u32>, line: &[u8]) -> Result<Option<u32>, FrameKind>
    requires { IfSome stated (λ n. n ≤ longest_content) }
    ensures line { result ≡ with_line stated line.now }
    ensures most { IfOk result (λ o. IfSome o (λ n. n ≤ longest_content)) }
{
    let Some(colon) = colon_at(line) else {
        return Err(FrameKind::BadField);
    };
    let (name, behind) = line.split_at(colon);
    with_field(stated, name, behind.split_at(1).1)
}

/// Where the first `:` stands.
fn colon_at(line: &[u8]) -> Option<usize>
    ensures colon { result ≡ position (λ b. b == 58) line.now }
    ensures within { IfSome result (λ at. at < length line.now) }
{
    line.iter().position(|b| *b == b':')
}

#[tactic(auto, unfolding(crate::specs::Lines::with_field))]
fn with_field(stated: Option<u32>, name: &[u8], value: &[u8]) -> Result<Option<u32>, FrameKind>
    requires { IfSome stated (λ n. n ≤ longest_content) }
    ensures field { result ≡ with_field stated name.now value.now }
    ensures most { IfOk result (λ o. IfSome o (λ n. n ≤ longest_content)) }
{
    if !is_name(name) || !is_unbroken(value) {
        return Err(FrameKind::BadField);
    }
    if !name.eq_ignore_ascii_case(b"content-length") {
        return Ok(stated);
    }
    with_length(stated, trimmed(value))
}

#[tactic(auto, unfolding(crate::specs::Lines::with_length, crate::specs::Lines::with_number))]
fn with_length(stated: Option<u32>, value: &[u8]) -> Result<Option<u32>, FrameKind>
    requires { IfSome stated (λ n. n ≤ longest_content) }
    ensures length { result ≡ with_length stated value.now }
    ensures most { IfOk result (λ o. IfSome o (λ n. n ≤ longest_content)) }
{
    if !is_number(value) {
        return Err(FrameKind::BadLength);
    }
    let number = number(value);
    match stated {
        Some(earlier) if earlier != number => Err(FrameKind::BadLength),
        _ if number > LONGEST_CONTENT => Err(FrameKind::ContentLong),
        _ => Ok(Some(number)),
    }
}

/// One byte or more from 0x21 to 0x7E. A `:` can't be among them, since the name ends before the first.
#[tactic(auto, unfolding(crate::specs::Lines::is_name))]
fn is_name(name: &[u8]) -> bool
    ensures { result ≡ is_name name.now }
{
    !name.is_empty() && is_graphic(name)
}

fn is_graphic(text: &[u8]) -> bool
    ensures { result ≡ list_all (λ b. is_in_range 33 126 b) text.now }
{
    text.iter().all(|b| b.is_ascii_graphic())
}

#[tactic(auto, unfolding(crate::specs::Lines::is_unbroken))]
fn is_unbroken(text: &[u8]) -> bool
    ensures { result ≡ is_unbroken text.now }
{
    text.iter().all(|b| !(*b == b'\r' || *b == b'\n'))
}

fn is_blank(b: u8) -> bool
    ensures { result ≡ is_blank b }
{
    b == b' ' || b == b'\t'
}

/// The text without the blanks and tabs round it.
#[tactic(auto, unfolding(crate::specs::Lines::trimmed))]
fn trimmed(text: &[u8]) -> &[u8]
    ensures { result.now ≡ trimmed text.now }
{
    let behind = text.split_at(first_blanks(text)).1;
    behind.split_at(behind.len() - last_blanks(behind)).0
}

fn first_blanks(text: &[u8]) -> usize
    ensures count { result ≡ prefix_len is_blank text.now }
    ensures within { result ≤ length text.now }
{
    text.iter().take_while(|b| is_blank(**b)).count()
}

fn last_blanks(text: &[u8]) -> usize
    ensures count { result ≡ suffix_len is_blank text.now }
    ensures within { result ≤ length text.now }
{
    text.iter().rev().take_while(|b| is_blank(**b)).count()
}

#[tactic(auto, unfolding(crate::specs::Lines::is_number))]
fn is_number(text: &[u8]) -> bool
    ensures { result ≡ is_number text.now }
{
    !text.is_empty() && is_digits(text)
}

fn is_digits(text: &[u8]) -> bool
    ensures { result ≡ list_all is_ascii_digit text.now }
{
    text.iter().all(|b| b.is_ascii_digit())
}

/// The number that the digits write, or one more than a content may have where it is greater.
#[tactic(auto, using(crate::proofs::Numbers::number_step), unfolding(crate::specs::Lines::is_number))]
fn number(digits: &[u8]) -> u32
    requires { is_number digits.now ≡ true }
    ensures { result ≡ min (longest_content + 1) (digits_value 10 digits.now) }
{
    let mut number: u32 = 0;
    let mut rest = digits;
    while let Some((digit, behind)) = rest.split_first() {
        rest = behind;
        number = (number * 10 + (*digit - b'0') as u32).min(LONGEST_CONTENT + 1);
    }
    number
}
