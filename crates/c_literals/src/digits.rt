// Digits of constants (ISO C11 6.4.4.1).
ghost use Rattle.std.specs.Prelude.{◌≡◌, ◌≤◌, length, drop, slice_index};
ghost use Rattle.std.specs.Char.{digit_value};
ghost use Rattle.std.specs.Str.Parse.{digits_value};
ghost use Rattle.c_literals.specs.Digits;

// 36 where it is no digit of any base.
fn digit(c: u8) -> u8
    ensures value { result ≡ digit_value c }
    ensures most { result ≤ 36 }
{
    match c {
        b'0'..=b'9' => c - b'0',
        b'A'..=b'Z' => c - b'A' + 10,
        b'a'..=b'z' => c - b'a' + 10,
        _ => 36,
    }
}

// How many digits of the base stand at the front.
pub(crate) fn run(base: u8, text: &[u8]) -> usize
    ensures value { result ≡ Digits.run base text.now }
    ensures within { result ≤ length text.now }
{
    text.iter().take_while(|c| digit(**c) < base).count()
}

// A byte, or 0 behind the end.
pub(crate) fn byte_at(text: &[u8], place: usize) -> u8
    ensures { result ≡ slice_index text.now place }
{
    if place < text.len() { text[place] } else { 0 }
}

#[tactic(auto, unfolding(crate::specs::Digits::begins_with))]
pub(crate) fn begins_with(small: u8, capital: u8, text: &[u8]) -> bool
    ensures { result ≡ Digits.begins_with small capital text.now }
{
    byte_at(text, 0) == small || byte_at(text, 0) == capital
}

pub(crate) fn behind(text: &[u8], count: usize) -> &[u8]
    ensures { result.now ≡ drop count text.now }
{
    if count <= text.len() {
        return text.split_at(count).1;
    }
    text.split_at(text.len()).1
}

// The number of the digits; none where 64 bits don't hold it.
#[tactic(auto, using(crate::proofs::DigitLemmas::small_none), unfolding(crate::specs::Digits::small))]
pub(crate) fn number(base: u8, digits: &[u8]) -> Option<u64>
    requires { 1 ≤ base }
    ensures { result ≡ Digits.small (digits_value base digits.now) }
{
    let mut total: u64 = 0;
    let mut rest = digits;
    while let Some((c, after)) = rest.split_first() {
        rest = after;
        let next = total as u128 * base as u128 + digit(*c) as u128;
        if next > u64::MAX as u128 {
            return None;
        }
        total = next as u64;
    }
    Some(total)
}
