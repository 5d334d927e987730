// Suffixes of integer constants (ISO C11 6.4.4.1).
ghost use Rattle.std.specs.Prelude.{◌≡◌};
ghost use Rattle.c_literals.specs.Integer;

use crate::digits::{begins_with, behind, byte_at};

/// The size that a suffix asks for.
#[derive(Clone, Copy, Debug, PartialEq, Eq, Drop)]
pub enum Long {
    Short,
    Long,
    LongLong,
}

/// What a suffix says.
#[derive(Clone, Copy, Debug, PartialEq, Eq, Drop)]
pub struct Suffix {
    pub unsigned: bool,
    pub long: Long,
}

#[tactic(auto, unfolding(crate::specs::Integer::long_suffix))]
fn long_suffix(text: &[u8]) -> Option<Long>
    ensures { result ≡ Integer.long_suffix text.now }
{
    if text.len() == 0 {
        return Some(Long::Short);
    }
    if text.len() == 1 && begins_with(b'l', b'L', text) {
        return Some(Long::Long);
    }
    if text.len() == 2 && begins_with(b'l', b'L', text) && byte_at(text, 0) == byte_at(text, 1) {
        return Some(Long::LongLong);
    }
    None
}

fn with_sign(unsigned: bool, size: Option<Long>) -> Option<Suffix>
    ensures { result ≡ Integer.with_sign unsigned size }
{
    match size {
        Some(long) => Some(Suffix { unsigned, long }),
        None => None,
    }
}

#[tactic(auto, unfolding(crate::specs::Integer::suffix_of))]
pub(crate) fn suffix_of(text: &[u8]) -> Option<Suffix>
    ensures { result ≡ Integer.suffix_of text.now }
{
    if begins_with(b'u', b'U', text) {
        return with_sign(true, long_suffix(behind(text, 1)));
    }
    let front = text.len().saturating_sub(1);
    if begins_with(b'u', b'U', behind(text, front)) {
        return with_sign(true, long_suffix(text.split_at(front).0));
    }
    with_sign(false, long_suffix(text))
}
