// Ranges of texts in whose place a name is put.
ghost use Rattle.std.specs.Prelude.{◌≡◌, ◌<◌, ◌≤◌, ◌↔◌, ◌++◌, length, slice_range, string_bytes, IsTrue, IfOk, OnOk};
ghost use Rattle.std.specs.Str.{IsCharBoundary};
ghost use Rattle.doc_texts.specs.Edited.{renamed, IsNext, Stand};
ghost use Rattle.doc_texts.specs.Limits.{longest_text, longest_name};

use crate::kept::KeptText;
use std::alloc::{AllocError, Global};
use uri_paths::Path;

/// The most bytes of a text in which ranges are replaced.
const LONGEST_TEXT: usize = 4_194_304;

/// The bytes of a text from a place to another, which isn't one of them.
#[derive(Clone, Copy, Debug)]
pub struct ByteRange {
    pub start: u32,
    pub end: u32,
}

/// Ranges of the text at a path.
#[derive(Debug, Drop)]
pub struct TextEdits {
    pub path: Path,
    pub ranges: Vec<ByteRange>,
}

/// Whether a range isn't empty, begins no earlier than at a place, and cuts no code point of a text.
fn is_next(text: &str, at: u32, range: &ByteRange) -> bool
    ensures { IsTrue result ↔ IsNext text.now at range.now }
{
    if range.start < at || range.end <= range.start {
        return false;
    }
    if !text.is_char_boundary(range.start as usize) {
        return false;
    }
    text.is_char_boundary(range.end as usize)
}

/// Whether ranges stand in a text in order and apart.
fn stand(text: &str, ranges: &[ByteRange]) -> bool
    ensures { IsTrue result ↔ Stand text.now 0 ranges.now }
{
    let mut at = 0;
    let mut rest = ranges;
    'turn: while let Some((range, behind)) = rest.split_first() {
        if !is_next(text, at, range) {
            return false;
        }
        rest = behind;
        at = range.end;
    }
    true
}

/// Whether a text isn't too long to be edited, and ranges stand in it.
pub(crate) fn can_be_made(text: &str, ranges: &[ByteRange]) -> bool
    ensures { IsTrue result ↔ ((length text.now ≤ longest_text) × Stand text.now 0 ranges.now) }
{
    if text.len() > LONGEST_TEXT {
        return false;
    }
    stand(text, ranges)
}

/// What stands in a text between a place and a range behind it.
fn before<'a>(text: &'a str, at: usize, range: &ByteRange) -> &'a str
    requires next { IsNext text.now at range.now }
    requires bound { 0 < at → IsCharBoundary text.now at }
    ensures { result.now ≡ slice_range text.now at range.now.start }
{
    &text[at..range.start as usize]
}

/// Writes a part of a text and a name behind it.
fn push_part(made: &mut String, part: &str, name: &str) -> Result<(), AllocError>
    ensures { OnOk result (string_bytes made.new ≡ (string_bytes made.old ++ part.now) ++ name.now) }
{
    made.push_str(part)?;
    made.push_str(name)?;
    Ok(())
}

/// The text with a name in place of each range. It costs one copy of the text and the names.
#[tactic(auto, unfolding(crate::specs::Edited::renamed))]
pub(crate) fn renamed(
    alloc: Global,
    text: &str,
    ranges: &[ByteRange],
    name: &str,
) -> Result<KeptText, AllocError>
    requires stand { Stand text.now 0 ranges.now }
    requires short { length text.now ≤ longest_text }
    requires short_name { length name.now ≤ longest_name }
    ensures { IfOk result (λ kept. kept ≡ renamed name.now ranges.now text.now) }
{
    let mut made = String::new(alloc);
    let mut at = 0;
    let mut rest = ranges;
    'turn: while let Some((range, behind)) = rest.split_first() {
        rest = behind;
        push_part(&mut made, before(text, at, range), name)?;
        at = range.end as usize;
    }
    made.push_str(&text[at..])?;
    KeptText::from_string(made)
}
